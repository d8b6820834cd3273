//! Links: connections to a server that bytes are sent over and received from, and what these tell of themselves.
#![tactic(auto)]

pub mod link;
pub mod memory;

pub use link::{Link, LinkFailed};
pub use memory::MemoryLink;
