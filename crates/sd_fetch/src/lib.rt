//! The lookup of one key at a directory: the searches that it sends, and the record that the entries found are.
#![tactic(auto)]

mod finding;
mod fitting;
mod lookup;
mod nesting;
mod rounds;
mod rules;
mod searches;

pub use lookup::fetch;
