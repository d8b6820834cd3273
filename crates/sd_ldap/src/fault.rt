//! Why a message could not be read.
ghost use Rattle.std.specs.Prelude.{◌≡◌};
ghost use Rattle.sd_ldap.specs.declared.fault.ReadFault.TheVariants as faults;

use sd_base::Memory;
use std::alloc::{AllocError, AllocFailed};

#[derive(Clone, Copy, PartialEq, Eq)]
pub enum ReadFault {
    Memory,
    /// The place of the tag of the first wrong element, or of the end where one is missing.
    Bad(u64),
}

impl From<Memory> for ReadFault {
    ghost from_gives = { λ _ fault. fault ≡ faults.Memory };

    fn from(_memory: Memory) -> ReadFault {
        ReadFault::Memory
    }
}

impl From<AllocError> for ReadFault {
    ghost from_gives = { λ _ fault. fault ≡ faults.Memory };

    fn from(_error: AllocError) -> ReadFault {
        ReadFault::Memory
    }
}

impl<T: Drop> From<AllocFailed<T>> for ReadFault {
    ghost from_gives = { λ _ fault. fault ≡ faults.Memory };

    fn from(_error: AllocFailed<T>) -> ReadFault {
        ReadFault::Memory
    }
}
