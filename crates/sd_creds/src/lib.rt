// Stored hashes of passwords, the salts they are made with, and what is kept of each user's logins.
#![tactic(auto)]

pub mod hashes;
pub mod marks;
pub mod salts;
pub mod texts;
pub mod verdicts;

pub use hashes::{hash, verify};
pub use marks::{Mark, Marks};
pub use salts::Salts;
pub use texts::{HashFault, hash_text, read_hash};
