// One reading, complete: where, when, what and how much.
use crate::series::Series;
use crate::station::Station;
use instants::utc_minute::UtcMinute;
use instants::utc_time::UtcTime;
use quantity::parameter::Parameter;
use quantity::qualifier::Qualifier;
use quantity::value::Value;

#[derive(Clone, Copy)]
pub struct Record {
    pub station: Station,
    pub observed: UtcTime,
    pub created: Option<UtcMinute>,
    pub parameter: Parameter,
    pub value: Value,
    pub qualifier: Qualifier,
    pub revised: bool,
    pub series: Series,
    pub source: Option<Station>,
}
