// The tools that speak to the daemon on its socket: what their words ask, the frames that they send, and what they print.
#![tactic(auto)]

pub mod endings;
pub mod links;
pub mod options;
pub mod passwords;
pub mod queries;
pub mod tools;

pub use endings::{
    BAD_LINE, BAD_REPLY, DONE, NO_DAEMON, NO_MEMORY, READ_FAULT, Status, TOO_LONG, USAGE,
    WRITE_FAULT,
};
pub use tools::{cache, has_form_of_cache, has_form_of_query, query};
