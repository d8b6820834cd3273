//! Links to LDAP servers over TCP, or through Unix sockets. No call waits for a server without a bound, so a server that
//! is silent fails like one that is down.
#![tactic(auto)]

mod dialer;
mod kind;
mod link;
mod links;
mod share;
mod wire;

pub use dialer::TcpDialer;
pub use link::TcpLink;
pub use links::Links;
