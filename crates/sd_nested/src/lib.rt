//! Members of nested groups, and groups of a user, round by round over a directory (RFC 2307bis).
#![tactic(auto)]

mod named;
mod order;
mod rounds;
mod searcher;
mod walks;

pub use searcher::{Searcher, Stop};
pub use walks::{groups_of, members};
