//! What a lookup and a bind at one server of a directory in memory come to, asked over a link and a client.
#![tactic(auto)]

mod binding;
mod keeping;
mod looking;
mod plain;
mod room;

pub use binding::bound_at;
pub use keeping::{ShortDirectory, short_directory};
pub use looking::fetched_at;
pub use plain::PlainLink;
