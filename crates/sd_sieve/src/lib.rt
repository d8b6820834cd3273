// A forget by the index of a journal: it reads most entries once, and never goes over all of them for each.
#![tactic(auto)]

pub mod looked;
pub mod reads;
pub mod sieve;
pub mod voids;

pub use sieve::{Plan, Sifted, plan_of, sift};
