//! Records of entries: users and groups (RFC 2307), hosts, access rules and services (FreeIPA's schema).
#![tactic(auto)]

ghost use Rattle.std.specs.Prelude.{◌≡◌};
ghost use Rattle.sd_schema.specs.declared.Unfit.TheVariants as faults;

use sd_base::{Memory, Text};

mod access;
mod accounts;
mod places;
mod values;

pub use access::{host, rule, service};
pub use accounts::{group, user};

/// Why an entry is no record that was asked for.
#[derive(Drop)]
pub enum Unfit {
    /// The first attribute that is missing or does not fit: `objectClass`, and then those of the record in their order.
    Attribute(Text),
    Memory,
}

impl From<Memory> for Unfit {
    ghost from_gives = { λ _ fault. fault ≡ faults.Memory };

    fn from(_error: Memory) -> Unfit {
        Unfit::Memory
    }
}
