//! The simulator: a script is read from its world and obeyed, and what it writes is what the plain simulator writes.
#![tactic(auto)]

mod answer;
mod application;
mod area;
mod cause;
mod commands;
mod domain;
mod dump;
mod dumps;
mod energy;
mod fault;
mod messages;
mod output;
mod piece;
mod rank;
mod run;
mod run_room;
mod running;
mod scale;
mod script;
mod seed;
mod session;
mod simulate;
mod snapshot_writer;
mod solver;
mod state;
mod streams;
mod teller;
mod values;

pub use answer::{Answer, Target, status};
pub use cause::Cause;
pub use fault::Trouble;
pub use session::Session;
pub use simulate::simulate_alone;
