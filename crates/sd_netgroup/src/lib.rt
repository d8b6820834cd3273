//! The triples of a netgroup, asked for at a directory member by member (RFC 2307).
#![tactic(auto)]

mod asking;
mod directory;
mod finds;
mod named;
mod order;
mod printing;
mod rounds;
mod searches;
mod tool;
mod words;

pub use asking::{Netted, netgroup};
pub use sd_triples::{Triple, TripleFault, Triples, in_netgroup, read_triple};
pub use tool::{DIRECTORY_LIMIT, NO_NETGROUP, netgroup_tool};
