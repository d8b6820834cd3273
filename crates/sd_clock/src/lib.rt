//! The outside that only the daemon needs: clocks, and what is called before a directory is asked.
#![tactic(auto)]

mod clock;
mod gate;

pub use clock::{Clock, MemoryClock};
pub use gate::{Gate, OpenGate};
