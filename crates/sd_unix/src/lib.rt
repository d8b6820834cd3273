//! Doors for clients on Unix sockets: one for the administrator, one for every user of the host.
#![tactic(auto)]

mod caller;
mod connection;
mod doors;
mod entrance;
mod floor;
mod frames;
mod hall;
mod limits;
mod line;
mod lobby;
mod pending;
mod public_door;
mod quick;
mod socket;

pub use connection::{ClientSink, ClientSource};
pub use doors::UnixDoors;
pub use frames::{MOST_BODY, Progress, Visitor, frame_progress, is_login, is_wrong};
pub use limits::{has_place, is_turn_over, may_guess, may_linger};
pub use line::{Line, MOST_IN_LINE};
pub use lobby::{Guest, Lobby, MOST_GUESTS, Stage};
pub use pending::Pending;
