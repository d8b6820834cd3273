//! A server of the directory that a file holds: the word `directory`, from the LDIF to the status.
#![tactic(auto)]

mod addresses;
mod network;
mod reading;
mod refusals;
mod server;
mod serving;
mod tcp;

pub use addresses::is_address;
pub use network::Network;
pub use refusals::{DOOR_FAULT, REFUSED};
pub use server::directory;
pub use serving::serve_clients;
pub use tcp::TcpNetwork;
