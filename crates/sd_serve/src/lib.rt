// The program: which words ask for what, and what stands outside of it.
#![tactic(auto)]

pub mod commands;
pub mod directories;
mod files;
pub mod netgroups;
pub mod outside;
pub mod storms;
pub mod sudo;
pub mod texts;
pub mod tools;
pub mod words;

pub use commands::program;
pub use outside::{Coming, MemoryOutside, Outside};
pub use sd_tools::{NO_MEMORY, Status};
