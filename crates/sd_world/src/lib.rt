//! What the lines of a scenario do: clients with their tasks, a daemon's core and a directory's servers, and what is printed.
#![tactic(auto)]

pub mod client;
pub mod directory;
pub mod endings;
pub mod moves;
pub mod runs;
pub mod stop;
pub mod task;
pub mod world;

pub use endings::{Ending, JOURNAL_FULL, LIMIT, ending_of};
