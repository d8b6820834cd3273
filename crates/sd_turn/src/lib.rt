//! A value that one thread at a time may take, whose holder appends numbered entries to it.
//!
//! Threads meet in a [`Turn`]. Each has a [`Seat`] of its own, a token that knows how far the history
//! of the value had got when it last gave the turn back, and which entries it appended.
#![tactic(auto)]

mod chronicle;
mod plays;
mod rule;
mod turn;
mod view;

pub use chronicle::Chronicle;
pub use turn::{Busy, FREE, Held, Seat, TAKEN, Turn, TurnHeld};
pub use view::{History, Stage, View};
