//! The command `scenario`: its words and its input, and how it ends.
#![tactic(auto)]

mod command;

pub use command::scenario;
