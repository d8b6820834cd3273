//! One core that many seats share: who takes the turn makes one step, and goes on over the journal that it found.
//!
//! A [`Desk`] holds the core under a turn, with what all sessions read. Each session has a [`DeskSeat`] of its own: it knows
//! the journal that the seat saw last, its front, and the entries that the seat made.
#![tactic(auto)]

mod counts;
mod desk;
mod refusals;
mod seat;
mod shared;

pub use counts::Counts;
pub use desk::Desk;
pub use refusals::{CollectFault, DeskFault, DeskRefused};
pub use seat::DeskSeat;
pub use shared::{Basis, SharedCore};
