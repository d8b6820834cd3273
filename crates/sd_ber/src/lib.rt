//! Elements of the Basic Encoding Rules (ITU-T X.690) in the profile of LDAP: definite lengths of at
//! most four octets, and tags of one octet.
#![tactic(auto)]

mod fault;
mod header;
mod reader;
mod writing;

pub use fault::BerFault;
pub use header::{Header, read_header};
pub use reader::{Reader, Tlv, integer, reads_back};
pub use writing::write_tlv;
