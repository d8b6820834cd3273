//! What the tools read: a configuration (sssd.conf(5)) and the entries of a directory (RFC 2849); and how they end where an
//! input was not taken.
#![tactic(auto)]

mod endings;
mod inputs;

pub use endings::{Ending, REFUSED, ending_with, stopped};
pub use inputs::{Inputs, Stop, read_inputs};
