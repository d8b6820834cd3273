//! Why a request has no answer.
ghost use Rattle.std.specs.Prelude.{◌≡◌};
ghost use Rattle.sd_stub.specs.declared.fault.StubFault.TheVariants as faults;

use sd_base::Memory;

#[derive(Clone, Copy, PartialEq, Eq)]
pub enum StubFault {
    /// It is no message: the place of the first wrong element, the end of a request that is less than a
    /// message, or the end of the message where more follows.
    Bad(u64),
    Memory,
}

impl From<Memory> for StubFault {
    ghost from_gives = { λ _ fault. fault ≡ faults.Memory };

    fn from(_memory: Memory) -> StubFault {
        StubFault::Memory
    }
}
