// Logins and account checks: clients' requests, from the question to what the client is told.
#![tactic(auto)]

pub mod access;
pub mod closing;
pub mod found_user;
pub mod login;
pub mod proving;

pub use access::AccessTask;
pub use login::LoginTask;
