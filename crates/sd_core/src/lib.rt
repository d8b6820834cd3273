// The core: the abstract daemon, answering every event from the entries made so far.
#![tactic(auto)]

pub mod access;
pub mod cores;
pub mod daemon;
pub mod given;
pub mod lists;
pub mod opens;
pub mod replies;

pub use cores::{EntryCore, IndexedCore, Look, OpenFault, PlainCore};
pub use daemon::Core;
pub use lists::{Answers, GivenList, ListFault, Step, answer_all};
