// Distinguished names of a directory (RFC 4514, in a profile of this project's own).
#![tactic(auto)]

ghost use Rattle.std.specs.Prelude.{◌≡◌, ℕ, List, IfOk};

use sd_base::{Copied, Items, Memory, Text};

pub mod bytes;
pub mod compare;
pub mod read;
pub mod texts;

pub use compare::{Leaf, dn_equal, is_at_or_under, is_under, leaf_under};
pub use read::{is_dn, read_dn};
pub use texts::{same_dn_text, spelled, spells_dn};

/// An attribute's type and its value, of which nothing is escaped.
pub struct Pair {
    pub name: Text,
    pub value: Text,
}

impl Drop for Pair {
    fn drop(self) {
        let Pair { name: _, value: _ } = self;
    }
}

impl Copied for Pair {
    fn copy(&self) -> Result<Pair, Memory> {
        Ok(Pair {
            name: self.name.copy()?,
            value: self.value.copy()?,
        })
    }
}

/// The pairs of one relative distinguished name, as they were written.
pub type Rdn = Items<Pair>;

/// The relative distinguished names of an entry, its own first.
pub type Dn = Items<Rdn>;

/// Why a text was not read.
#[derive(Clone, Copy, PartialEq, Eq)]
pub enum DnFault {
    /// The place of the first byte with which no DN goes on, or the length where the text ends too soon.
    BadDn(u64),
    Memory,
}

impl From<Memory> for DnFault {
    ghost use Rattle.std.specs.Prelude.{◌≡◌};
    ghost use Rattle.sd_dn.specs.declared.DnFault.TheVariants as faults;

    ghost from_gives = { λ _ fault. fault ≡ faults.Memory };

    fn from(_error: Memory) -> DnFault {
        DnFault::Memory
    }
}
