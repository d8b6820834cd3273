// The text of a scenario: its configuration, its lines and blocks, the first line without a form, and the entries that its lines put
// and take out.
#![tactic(auto)]

pub mod blocks;
mod entries;
pub mod faults;
pub mod head;
mod names;
mod rules;

pub use blocks::{Next, Statement, first_statement, reads_blocks_whole};
pub use entries::{group_entry, host_entry, service_entry, user_entry};
pub use faults::{ConfigRead, Scope, config_of, first_bad, first_bad_behind};
pub use head::{Head, Origin, head_of};
pub use rules::{dn_of, rule_entry};
