//! One connection of a client, as an engine that makes no step itself: it names the event that is to be stepped, or the ticket
//! that is to be collected, and is told what came of it. The client's request, of any kind, as far as it has come; and asking a
//! server of a directory for it, over a link that is dialled and given back.
#![tactic(auto)]

mod answering;
mod binding;
mod client;
mod ending;
mod engine;
mod hearing;
mod leading;
mod listening;
mod looking;
mod task;

pub use binding::bind_at;
pub use client::Client;
pub use ending::SessionEnd;
pub use engine::{Engine, Turn};
pub use looking::fetch_at;
