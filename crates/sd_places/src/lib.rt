//! The entries of a directory at their places: one by its name, and those that a search may find by an index.
#![tactic(auto)]

mod index;
mod keeping;
mod narrowing;
mod numbers;
mod placed;

pub use index::{Index, index_of};
pub use keeping::{Names, by_name, clear, fill, keep_place, place_of};
pub use narrowing::{has_base_in, narrowest};
pub use placed::{Placed, Slots};
