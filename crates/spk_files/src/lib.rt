//! Site files: texts that have the values of all sites.
#![tactic(auto)]

mod line;
mod reader;
pub mod site_fault;
pub mod sites;

pub use site_fault::SiteFault;
pub use sites::{sites_read, sites_text};
