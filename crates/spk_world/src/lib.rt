//! What lies outside the simulator: files and a screen, told or not, with counts of their failures.
#![tactic(auto)]

pub mod host;
pub mod memory;
pub mod world;

pub use host::HostWorld;
pub use memory::{Fail, MemWorld};
pub use world::{Failed, LoadFault, World};

/// Out of memory.
pub type OutOfMemory = std::alloc::AllocError;
