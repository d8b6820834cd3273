// Failover: which server of a domain is asked, by the falls of servers that were told.
#![tactic(auto)]

pub mod falls;
pub mod servers;

pub use falls::Fall;
pub use servers::Servers;
