// Where each field of a line begins.
pub(crate) const STATION: usize = 0;

pub(crate) const OBSERVED: usize = 9;

pub(crate) const CREATED: usize = 24;

pub(crate) const CODE: usize = 37;

pub(crate) const DURATION: usize = 45;

pub(crate) const VALUE: usize = 50;

pub(crate) const QUALIFIER: usize = 65;

pub(crate) const REVISED: usize = 67;

pub(crate) const SERIES: usize = 69;

pub(crate) const SOURCE: usize = 71;
