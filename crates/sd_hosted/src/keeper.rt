// The keeper of a worked store.
ghost use Rattle.std.specs.Prelude.{◌≡◌, false, None};

use sd_base::{Blobs, Numbers};
use sd_keeper::{Keeper, KeeperFault, MemoryKeeper};

/// A keeper in memory that counts its failures, and tells no blobs.
#[derive(Drop)]
pub struct CountedKeeper {
    keeper: MemoryKeeper,
    faults: u64,
    failed: bool,
}

impl CountedKeeper {
    /// A keeper of these blobs. The calls whose numbers are listed, counted from 1, are to fail.
    pub fn new(blobs: Blobs, failing: Numbers) -> CountedKeeper
        ensures unfailed { ⟦<CountedKeeper as Keeper>⟧.failed result ≡ false }
        ensures uncounted { ⟦<CountedKeeper as Keeper>⟧.faults result ≡ 0 }
    {
        CountedKeeper {
            keeper: MemoryKeeper::new(blobs, failing),
            faults: 0,
            failed: false,
        }
    }

    pub fn blobs(&self) -> &Blobs {
        self.keeper.blobs()
    }

    /// How many calls have failed.
    pub fn faults(&self) -> u64
        ensures { result ≡ ⟦<CountedKeeper as Keeper>⟧.faults self.now }
    {
        self.faults
    }

    /// Whether the last call failed.
    pub fn has_failed(&self) -> bool
        ensures { result ≡ ⟦<CountedKeeper as Keeper>⟧.failed self.now }
    {
        self.failed
    }
}

impl Keeper for CountedKeeper {
    ghost told = { λ _. None };

    ghost failed = { λ k. k.failed };

    ghost faults = { λ k. k.faults };

    fn read(&mut self) -> Result<Blobs, KeeperFault> {
        let read = self.keeper.read();
        self.failed = matches!(read, Err(KeeperFault::Failed));
        if self.failed {
            self.faults = self.faults.saturating_add(1);
        }
        read
    }

    fn write(&mut self, blobs: &Blobs) -> Result<(), KeeperFault> {
        let written = self.keeper.write(blobs);
        self.failed = matches!(written, Err(KeeperFault::Failed));
        if self.failed {
            self.faults = self.faults.saturating_add(1);
        }
        written
    }
}
