//! The client of a directory: searches and binds over a link (RFC 4511), and what came of them.
#![tactic(auto)]

mod buffer;
mod client;
mod copying;
mod exchange;
mod reading;
mod step;
mod unbinding;

pub use client::{Client, decides_once};
