//! The system as the daemon's host: its files, its clock, connections to the servers, the socket, the store, and the log on standard
//! error.
#![tactic(auto)]

mod equipment;
mod host;
mod keeper;
mod links;

pub use equipment::{Health, SystemClock, SystemTools, WatchedDialer};
pub use host::{FileSource, SystemHost};
pub use keeper::WatchedKeeper;
