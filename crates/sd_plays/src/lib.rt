//! What programs that play stored texts share: the input, how its lines are cut, and the end of a run.
#![tactic(auto)]

mod lines;
mod runs;

pub use lines::{cut_before, cut_line, cut_text, cut_word, number};
pub use runs::{Failure, print, read};
