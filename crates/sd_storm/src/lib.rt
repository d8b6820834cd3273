//! The word `storm`, a load of lookups on eight sessions in threads, over a directory in memory: the users that are asked for, the
//! sessions, what they come to, and what is printed of it.
#![tactic(auto)]

mod account;
mod asked;
mod desks;
mod inputs;
mod lines;
mod replies;
mod sessions;
mod storming;
mod users;
mod visit;
mod words;

pub use storming::storm;
pub use words::requests_of;
