// The units in which a message states its values: English, or SI, whose amounts are converted.
#[derive(Clone, Copy, PartialEq, Eq)]
pub enum Units {
    English,
    Si,
}
