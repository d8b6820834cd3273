//! A directory in memory that answers LDAP messages as the definitions of `sd_match` say.
#![tactic(auto)]

mod answering;
mod binding;
mod directory;
mod ending;
mod fault;
mod searching;
mod sending;
mod serving;
mod stepping;

pub use directory::Directory;
pub use ending::LinkEnd;
pub use fault::StubFault;
pub use serving::serve_link;

/// How a server of a directory behaves.
#[derive(Clone, Copy, PartialEq, Eq)]
pub enum Mode {
    Up,
    /// It takes no link.
    Down,
    /// The link ends after the first byte of a reply.
    Cut,
    /// The outer length of each message is indefinite.
    Indef,
    /// The outer length of each message has four octets.
    Long,
    /// Each bind and search is answered by this code.
    Code(u32),
}
