//! A keeper in memory, of which some calls fail.
ghost use Rattle.std.specs.Prelude.{◌≡◌, false, Some};

use crate::keeper::{Keeper, KeeperFault};
use sd_base::{Blobs, Copied, Numbers};

/// Blobs in memory. It tells them.
pub struct MemoryKeeper {
    blobs: Blobs,
    calls: u64,
    failing: Numbers,
    faults: u64,
    failed: bool,
}

impl Drop for MemoryKeeper {
    fn drop(self) {
        let MemoryKeeper {
            blobs: _,
            calls: _,
            failing: _,
            faults: _,
            failed: _,
        } = self;
    }
}

impl MemoryKeeper {
    /// A keeper of these blobs. The calls whose numbers are listed, counted from 1, are to fail.
    pub fn new(blobs: Blobs, failing: Numbers) -> MemoryKeeper
        ensures told { ⟦<MemoryKeeper as Keeper>⟧.told result ≡ Some blobs }
        ensures failed { ⟦<MemoryKeeper as Keeper>⟧.failed result ≡ false }
        ensures faults { ⟦<MemoryKeeper as Keeper>⟧.faults result ≡ 0 }
    {
        MemoryKeeper {
            blobs,
            calls: 0,
            failing,
            faults: 0,
            failed: false,
        }
    }

    /// The blobs that are kept.
    pub fn blobs(&self) -> &Blobs
        ensures { ⟦<MemoryKeeper as Keeper>⟧.told self.now ≡ Some result.now }
    {
        &self.blobs
    }
}

fn lists(numbers: &Numbers, call: u64) -> bool {
    numbers.items().iter().any(|n| u64::from(*n) == call)
}

impl Keeper for MemoryKeeper {
    ghost told = { λ k. Some k.blobs };

    ghost failed = { λ k. k.failed };

    ghost faults = { λ k. k.faults };

    fn read(&mut self) -> Result<Blobs, KeeperFault> {
        self.calls = self.calls.saturating_add(1);
        if lists(&self.failing, self.calls) {
            self.faults = self.faults.saturating_add(1);
            self.failed = true;
            return Err(KeeperFault::Failed);
        }
        self.failed = false;
        Ok(self.blobs.copy()?)
    }

    fn write(&mut self, blobs: &Blobs) -> Result<(), KeeperFault> {
        self.calls = self.calls.saturating_add(1);
        if lists(&self.failing, self.calls) {
            self.faults = self.faults.saturating_add(1);
            self.failed = true;
            return Err(KeeperFault::Failed);
        }
        self.failed = false;
        self.blobs = blobs.copy()?;
        Ok(())
    }
}
