// What an index stands on: the last invalidations as bounds of numbers, the entry of a number, and how much text entries hold.
#![tactic(auto)]

pub mod entries;
pub mod texts;
pub mod voids;
