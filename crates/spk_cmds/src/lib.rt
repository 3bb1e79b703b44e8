//! Commands and the command line: what the words of a script's line and those after the program's name ask for.
#![tactic(auto)]

mod command;
mod commands;
mod fields;
mod form;
mod makers;
mod numbers;
mod option_values;
mod options;
mod options_builder;
mod reader;
mod table;
#[cfg(test)]
mod tests;
mod value;
mod variables;
mod words;

pub use command::{AppStyle, Command, CommandFault, DumpStyle, SetValue, SolveStyle};
pub use commands::command_of;
pub use fields::Fields;
pub use options::{Echo, Input, Options, Usage, words_of};
pub use spk_num::{Bound, Field, Shape, Style, Sweep, Text};
pub use spk_script::Setting;
pub use variables::Settings;
