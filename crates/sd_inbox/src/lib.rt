//! The bytes that a client sent and that were not heard yet.
#![tactic(auto)]

mod inbox;
mod taking;

pub use inbox::Inbox;
pub use taking::{LIMIT, Taken, drop_front, take_more};
