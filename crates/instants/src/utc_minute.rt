// A minute in UTC of the years 1900 to 2099.
ghost use Rattle.std.specs.Prelude.{◌≡◌, true, if◌then◌else◌, Some, None};
ghost use Rattle.std.specs.Option.{option_map};
ghost use Rattle.instants.specs.Utc.{utc_minute};

use calendar::date::Date;

// A type beside the one of seconds: readers of a record name these fields, and the limits are two.
#[derive(Clone, Copy)]
pub struct UtcMinute {
    pub date: Date,
    pub minute: u16,
    ghost ok: { utc_minute date minute ≡ true },
}

impl UtcMinute {
    ghost use Rattle.instants.specs.Moments.{minute_of};

    pub fn new(date: Date, minute: u16) -> Option<UtcMinute>
        ensures { option_map minute_of result ≡ (if utc_minute date minute then Some (date, minute) else None) }
    {
        if date.is_message_day() && minute < 1440 {
            Some(UtcMinute { date, minute })
        } else {
            None
        }
    }
}
