//! LDAP messages (RFC 4511) in a profile of their own, with their bytes read and written exactly.
#![tactic(auto)]

mod decoding;
mod encoding;
mod entry;
mod fault;
mod filter;
mod filter_reading;
mod filter_writing;
mod message;
mod message_reading;
mod parts;
mod result;
mod writing;

pub use decoding::{Decoded, MAX_LENGTH, decode};
pub use encoding::{EncodeFault, encode, write_message};
pub use entry::{Attribute, Attributes, DirEntries, DirEntry};
pub use fault::ReadFault;
pub use filter::Filter;
pub use message::{Message, Operation, SearchRequest};
pub use result::LdapResult;
