//! Where the blobs of rows are kept.
ghost use Rattle.std.specs.Prelude.{◌≡◌, ℕ, Bool, List, IfOk, IfSome, OnOk, OnErr};
ghost use Rattle.std.specs.declared.option.Option.{Option};
ghost use Rattle.sd_keeper.specs.Keeping as keeping;

use sd_base::{Blobs, Memory};

/// Why a keeper does not do as asked.
#[derive(Clone, Copy, PartialEq, Eq)]
pub enum KeeperFault {
    /// The keeper failed.
    Failed,
    /// Want of memory.
    Memory,
}

impl From<Memory> for KeeperFault {
    ghost use Rattle.std.specs.Prelude.{◌≡◌};
    ghost use Rattle.sd_keeper.specs.declared.keeper.KeeperFault.TheVariants as faults;

    ghost from_gives = { λ _ fault. fault ≡ faults.Memory };

    fn from(_memory: Memory) -> KeeperFault {
        KeeperFault::Memory
    }
}

/// Keeps blobs.
pub trait Keeper {
    /// The blobs that are kept, where the keeper tells them.
    ghost told: { Self → Option (List (List ℕ)) };
    /// Whether the last call failed.
    ghost failed: { Self → Bool };
    /// How many calls have failed. A count at the greatest u64 stands still.
    ghost faults: { Self → ℕ };

    /// The blobs that are kept.
    fn read(&mut self) -> Result<Blobs, KeeperFault>
        ensures blobs { IfOk result (λ blobs. IfSome (told self.old) (λ kept. blobs ≡ kept)) }
        ensures same { told self.new ≡ told self.old }
        ensures last { failed self.new ≡ keeping.has_failed result }
        ensures cause { keeping.HasCause (faults self.old) (faults self.new) result };

    /// Keeps these blobs in place of all others. After a refusal what is told is as before.
    fn write(&mut self, blobs: &Blobs) -> Result<(), KeeperFault>
        ensures kept { OnOk result (told self.new ≡ keeping.replaced (told self.old) blobs.now) }
        ensures same { OnErr result (told self.new ≡ told self.old) }
        ensures last { failed self.new ≡ keeping.has_failed result }
        ensures cause { keeping.HasCause (faults self.old) (faults self.new) result };
}
