// A second in UTC of the years 1900 to 2099.
ghost use Rattle.std.specs.Prelude.{◌≡◌, ◌/◌, true, if◌then◌else◌, Some, None};
ghost use Rattle.std.specs.Option.{option_map};
ghost use Rattle.instants.specs.Utc.{utc_time};

use crate::seconds::{DAY_SECONDS, MINUTE_SECONDS};
use crate::utc_minute::UtcMinute;
use calendar::date::Date;

#[derive(Clone, Copy)]
pub struct UtcTime {
    pub date: Date,
    pub second: u32,
    ghost ok: { utc_time date second ≡ true },
}

impl UtcTime {
    ghost use Rattle.instants.specs.Moments.{moment};

    pub fn new(date: Date, second: u32) -> Option<UtcTime>
        ensures { option_map moment result ≡ (if utc_time date second then Some (date, second) else None) }
    {
        if date.is_message_day() && second < DAY_SECONDS {
            Some(UtcTime { date, second })
        } else {
            None
        }
    }

    // The minute in which the second lies.
    pub fn to_minute(self) -> UtcMinute
        ensures { (result.date ≡ self.date) × (result.minute ≡ self.second / 60) }
    {
        UtcMinute {
            date: self.date,
            minute: (self.second / MINUTE_SECONDS) as u16,
        }
    }
}
