//! What a search comes to.
use sd_base::Why;
use sd_ldap::DirEntries;

/// What a search of a directory came to.
#[derive(Drop)]
pub enum Searched {
    /// The entries received, in their order, where the result code was 0.
    Entries(DirEntries),
    /// Another result code (RFC 4511 appendix A).
    Code(u32),
    Failed(Why),
    Memory,
}
