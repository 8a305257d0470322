// Whether a record stands alone, or begins or continues a time series.
#[derive(Clone, Copy)]
pub enum Series {
    Single,
    First,
    Later,
}
