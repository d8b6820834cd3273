//! Kept rows: their bytes, the keepers that hold them, and how rows are loaded and flushed.
#![tactic(auto)]

mod field;
mod keeper;
mod loading;
mod memory;
mod records;
mod rows;

pub use keeper::{Keeper, KeeperFault};
pub use loading::{LoadFault, flush, load, read_rows, write_rows};
pub use memory::MemoryKeeper;
pub use rows::holds_hash;
