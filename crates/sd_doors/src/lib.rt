//! Doors: where clients' connections come from.
#![tactic(auto)]

mod doors;
mod memory;
mod tcp;

pub use doors::{DoorFailed, Doors};
pub use memory::{Connection, MemoryDoors};
pub use tcp::TcpDoors;
