// Numbers for the SIDs of domains: each domain has a slice of numbers, by the hash of its SID's text.
#![tactic(auto)]

pub mod command;
pub mod endings;
pub mod hash;
pub mod lines;
pub mod reading;
pub mod runs;
pub mod sids;
pub mod slices;

pub use command::idmap;
pub use endings::LIMIT;
pub use hash::murmur;
pub use reading::{SidFault, read_sid};
pub use sids::{Domain, Sid};
pub use slices::{SliceFault, Slices};
