// Triples of netgroups: a host, a user and a domain, of which an empty one stands for every one (RFC 2307).
#![tactic(auto)]

pub mod matching;
pub mod reading;
pub mod triples;

pub use matching::{in_netgroup, is_spoken_of};
pub use reading::{TripleFault, read_triple};
pub use triples::{Triple, Triples};
