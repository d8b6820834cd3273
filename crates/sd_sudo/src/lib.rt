//! The sudo rules that apply to a user of a directory in memory, part by part (sudoers.ldap(5)): who asks, the rules, the
//! netgroups of which they speak, and which of them apply in which order.
#![tactic(auto)]

mod answer;
mod applied;
mod asker;
mod lookups;
mod nets;
mod printing;
mod roles;
mod rules;
mod searches;
mod tool;
mod words;

pub use answer::{Answer, look};
pub use applied::rules_applied;
pub use asker::{asker_of, user_named};
pub use lookups::Halt;
pub use nets::{nets_asked, nets_with};
pub use printing::printed;
pub use roles::roles_under;
pub use sd_roles::{Asker, Nets, Role, RoleFault, applies, read_role};
pub use tool::{NO_USER, sudo_tool};
