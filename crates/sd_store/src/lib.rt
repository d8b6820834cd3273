//! A keeper over a SQLite file.
#![tactic(auto)]

mod copy;
mod file;
mod keeper;
mod table;

pub use keeper::SqliteKeeper;
