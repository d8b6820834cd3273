//! Pieces of a text that a byte parts, and decimal digits: what configurations, entries and scenarios are read by.
#![tactic(auto)]

mod cutting;
mod digits;

pub use cutting::cut;
pub use digits::{are_digits, number_up_to, read_number, value_of};
