//! What a core keeps beside the entries made so far: the rules of the newest answer, compiled, and a mark of each user's logins.
#![tactic(auto)]

mod books;
mod notes;
mod rulings;

pub use books::{LoginBook, NoBook, UserBook};
pub use rulings::{Compiled, Ruling, Unkept, keep, ruling_by};
