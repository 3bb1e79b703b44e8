//! What a run writes: lines of statistics, snapshots, and site files.
#![tactic(auto)]

mod append;
mod buffer;
pub mod dump_head;
mod energy;
mod item;
pub mod report;
pub mod site_file;
mod snapshot;
pub mod stats_line;
#[cfg(test)]
mod tests;
pub mod write_trouble;

pub use dump_head::DumpHead;
pub use report::Report;
pub use site_file::sites_write;
pub use spk_num::field::Field;
pub use stats_line::StatsLine;
pub use write_trouble::WriteTrouble;
