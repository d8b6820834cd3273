//! One connection of a client, served over a core of its own or over a desk that other sessions use too: an engine, driven by a loop.
#![tactic(auto)]

mod leaving;
mod seated;
mod shared;
mod solo;
mod stepping;
mod telling;
mod withdrawing;

pub use shared::session;
pub use solo::solo_session;
