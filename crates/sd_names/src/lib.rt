//! Names of entries: a DN in lower case, by which it is found in a map.
#![tactic(auto)]

mod dn_set;
mod naming;

pub use dn_set::DnSet;
pub use naming::{Level, Name, Part, name_of};
