//! Directory entries from a text in the LDAP Data Interchange Format (RFC 2849), in a profile of its own.
#![tactic(auto)]

ghost use Rattle.std.specs.Prelude.{◌≡◌};
ghost use Rattle.sd_ldif.specs.declared.LdifFault.TheVariants as faults;

use sd_base::Memory;
use std::alloc::AllocError;

mod forms;
mod lines;
mod reading;
mod records;

pub use reading::read_ldif;

/// Why a text was not read. A line that others continue is told by its own number; numbers count from 1.
#[derive(Clone, Copy, PartialEq, Eq)]
pub enum LdifFault {
    /// The line of this number has no form.
    BadLine(u32),
    /// The line of this number has a value that is no base64.
    BadBase64(u32),
    /// The line of this number begins a record and is no `dn:` line.
    NoDn(u32),
    Memory,
}

impl From<Memory> for LdifFault {
    ghost from_gives = { λ _ fault. fault ≡ faults.Memory };

    fn from(_error: Memory) -> LdifFault {
        LdifFault::Memory
    }
}

impl From<AllocError> for LdifFault {
    ghost from_gives = { λ _ fault. fault ≡ faults.Memory };

    fn from(_error: AllocError) -> LdifFault {
        LdifFault::Memory
    }
}
