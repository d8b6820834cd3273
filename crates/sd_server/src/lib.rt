//! The daemon on its socket: the loop that lets clients in, each in a thread of its own at one desk, and the word `serve`, from its
//! configuration to its status.
#![tactic(auto)]

mod beginning;
mod command;
mod daemon;
mod host;
mod notices;
mod opening;
mod refusals;
mod serving;
mod store;
mod visit;

pub use beginning::{BAD_STORE, DOOR_FAULT, REFUSED, STORE_FAULT};
pub use command::serve;
pub use host::Host;
pub use notices::Notice;
pub use serving::ServeEnd;
pub use visit::Equipment;
