// Sudo rules as a directory has them (sudoers.ldap(5)), and which of them apply to a user.
#![tactic(auto)]

pub mod applying;
pub mod roles;

pub use applying::{Asker, Nets, applies};
pub use roles::{Role, RoleFault, read_role};
