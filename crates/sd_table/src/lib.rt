// The request table: which requests are open for which keys, which tickets wait for them, and what they came to.
#![tactic(auto)]

pub mod keys;
pub mod requests;
pub mod tickets;
pub mod waited;

pub use requests::Requests;
pub use waited::Waited;
