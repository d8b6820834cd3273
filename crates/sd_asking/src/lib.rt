//! What one search or one bind over a client comes to where its link tells the directory behind it.
#![tactic(auto)]

mod binding;
mod laws;
mod searching;

pub use binding::bind;
pub use laws::decides_alone;
pub use searching::search;
