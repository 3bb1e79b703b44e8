//! The language of scripts: logical lines and their words.
#![tactic(auto)]

mod bytes;
mod command_table;
mod commands;
mod continuation;
mod fault;
mod formula;
mod labelled_script;
mod labels;
mod line_buffer;
mod logical;
mod machine;
mod physical;
mod script;
mod setting;
mod state;
mod substitution;
#[cfg(test)]
mod tests;
mod variable;
mod variable_table;
mod variable_text;
mod words;

pub use fault::LineFault;
pub use machine::{Arrival, Machine, Step};
pub use script::{Script, ScriptFault};
pub use setting::Setting;
