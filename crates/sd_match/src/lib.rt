//! Which entries a search filter matches (RFC 4511 section 4.5.1.7). What a directory answers over a list of
//! entries is defined in `specs/`.
#![tactic(auto)]

mod filters;
mod numbers;
mod substrings;
mod values;

pub use filters::{has_unsupported, matches};
