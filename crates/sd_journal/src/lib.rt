// What a journal says, read from the list of its entries: each definition of the abstract daemon, computed.
#![tactic(auto)]

pub mod answers;
pub mod keys;
pub mod logins;
pub mod past;
pub mod requests;
pub mod servers;
