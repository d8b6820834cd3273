//! Messages and their operations (RFC 4511 section 4).
use crate::entry::DirEntry;
use crate::filter::Filter;
use crate::result::LdapResult;
use sd_base::{Text, Texts};

/// A search (RFC 4511 section 4.5.1).
pub struct SearchRequest {
    pub base: Text,
    /// 0 the base alone, 1 one level below it, 2 the base and all below it.
    pub scope: u8,
    /// When aliases are followed, 0 to 3.
    pub deref: u8,
    /// At most so many entries, where it is not 0.
    pub size: u32,
    /// At most so many seconds, where it is not 0.
    pub time: u32,
    pub types_only: bool,
    pub filter: Filter,
    pub attributes: Texts,
}

impl Drop for SearchRequest {
    fn drop(self) {
        let SearchRequest {
            base: _,
            scope: _,
            deref: _,
            size: _,
            time: _,
            types_only: _,
            filter: _,
            attributes: _,
        } = self;
    }
}

/// What a message asks or answers.
#[derive(Drop)]
pub enum Operation {
    /// Version, name and simple password (section 4.2).
    BindRequest(u8, Text, Text),
    BindResponse(LdapResult),
    Unbind,
    Search(SearchRequest),
    Entry(DirEntry),
    Done(LdapResult),
    /// A reference to another server, of which nothing is kept.
    Reference,
    /// An operation of another tag, of which nothing is kept.
    Other(u8),
}

#[derive(Drop)]
pub struct Message {
    pub id: u32,
    pub operation: Operation,
}

/// Where a search begins, how far it goes, and how aliases are followed.
#[derive(Drop)]
pub struct Span {
    pub base: Text,
    pub scope: u8,
    pub deref: u8,
}

/// How many entries, how many seconds, and whether without values.
#[derive(Drop)]
pub struct Bounds {
    pub size: u32,
    pub time: u32,
    pub types_only: bool,
}
