// How many seconds the parts of a day take.

pub const MINUTE_SECONDS: u32 = 60;

pub const HOUR_SECONDS: u32 = 3600;

pub const DAY_SECONDS: u32 = 86_400;
