//! What ranks hand over: values of sites, and what was counted with them.

use crate::counts::Counts;

/// Values in raster order, the energies of their sites together, and the counts of their rank.
#[derive(Debug, Drop)]
pub struct Letter {
    pub values: Vec<u32>,
    pub energy: u64,
    pub counts: Counts,
}
