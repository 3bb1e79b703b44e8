//! What a snapshot has before its sites.

use spk_num::decimal::Dec;
use spk_sched::EnergyKind;

/// The number of a snapshot, its time in ticks, how long a lattice unit is, and how the energies of its sites are counted.
#[derive(Clone, Copy, Debug, PartialEq, Eq)]
pub struct DumpHead {
    pub number: u64,
    pub time: u64,
    pub scale: Dec,
    pub energy: EnergyKind,
}
