// Counts of what a database holds.
pub(crate) mod count;
pub(crate) mod distances;
pub(crate) mod lengths;
pub(crate) mod spread;
pub(crate) mod stats;
