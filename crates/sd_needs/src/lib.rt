// Which entries of a journal a later reply can look at. A forget keeps these and no others.
#![tactic(auto)]

pub mod answers;
pub mod logins;
pub mod needs;
pub mod readings;
pub mod requests;
pub mod servers;
pub mod tickets;
pub mod voids;

pub use needs::{forgotten, is_needed, needed};
