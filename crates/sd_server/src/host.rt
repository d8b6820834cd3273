//! What the daemon asks of the host that it serves.
ghost use Rattle.std.specs.Prelude.{◌≡◌, ◌≤◌, ◌<◌, ℕ, List, Bool, IfOk, OnErr, OnOk};
ghost use Rattle.std.specs.declared.option.Option.{Option};
ghost use Rattle.sd_base.specs.Causes.{Rose};
ghost use Rattle.sd_server.specs.Counting.{Counts, Tells};
ghost use Rattle.sd_server.specs.HostStores.{IsUnused, Stored, TakesKeeper, TellsMaking};

use crate::notices::Notice;
use crate::visit::Equipment;
use sd_base::{Source, SourceFailed};
use sd_doors::{DoorFailed, Doors};
use sd_keeper::{Keeper, KeeperFault};

/// Where the daemon's configuration, its seed, its kept rows and its clients come from. It counts the faults of each kind.
pub trait Host {
    type File: Source + Drop;

    type Door: Doors + Drop;

    type Tools: Equipment + Drop;

    type Store: Keeper + Drop;

    /// The bytes of the file at a path, where they are told.
    ghost text_at: { Self → List ℕ → Option (List ℕ) };
    /// How many reads of files, and of the seed, have failed. A count at the greatest u64 stands still.
    ghost source_faults: { Self → ℕ };
    /// How many doors could not be made, or failed. A count at the greatest u64 stands still.
    ghost door_faults: { Self → ℕ };
    /// Whether doors that were handed back gave a connection.
    ghost gave: { Self → Bool };
    /// Whether doors that were handed back answered that none will come.
    ghost ended: { Self → Bool };
    /// What is told of its store.
    ghost stored: { Self → Stored };

    /// The file at a path, at its beginning.
    fn file(&mut self, path: &str) -> Result<Self::File, SourceFailed>
        ensures text { IfOk result (λ file. Self.File.left file ≡ text_at self.old path.now) }
        ensures texts { text_at self.new ≡ text_at self.old }
        ensures unfailed { IfOk result (λ file. Self.File.faults file ≡ 0) }
        ensures failed { OnErr result (Rose (source_faults self.old) (source_faults self.new)) }
        ensures later { source_faults self.old ≤ source_faults self.new }
        ensures doors { door_faults self.new ≡ door_faults self.old }
        ensures store { stored self.new ≡ stored self.old };

    /// Takes a file back; a fault is counted where one of its reads failed.
    fn done_file(&mut self, file: Self::File)
        ensures counted { Counts (source_faults self.old) (source_faults self.new) (Self.File.faults file) }
        ensures doors { door_faults self.new ≡ door_faults self.old }
        ensures store { stored self.new ≡ stored self.old };

    /// Bytes that nobody can guess: the seed of the salts of stored hashes.
    fn seed(&mut self) -> Result<[u8; 32], SourceFailed>
        ensures failed { OnErr result (Rose (source_faults self.old) (source_faults self.new)) }
        ensures later { source_faults self.old ≤ source_faults self.new }
        ensures doors { door_faults self.new ≡ door_faults self.old }
        ensures store { stored self.new ≡ stored self.old };

    /// A keeper over the store at a path, on which no call has failed.
    fn keeper(&mut self, path: &str) -> Result<Self::Store, KeeperFault>
        ensures unused { IfOk result (λ keeper. IsUnused (Self.Store.told keeper) (stored self.old).blobs (Self.Store.faults keeper) (Self.Store.failed keeper)) }
        ensures making { TellsMaking (stored self.old) (stored self.new) result }
        ensures doors { door_faults self.new ≡ door_faults self.old };

    /// Takes a keeper back, and closes it.
    fn done_keeper(&mut self, keeper: Self::Store)
        ensures store { TakesKeeper (stored self.old) (stored self.new) (Self.Store.told keeper) (Self.Store.faults keeper) (Self.Store.failed keeper) }
        ensures doors { door_faults self.new ≡ door_faults self.old }
        ensures told { (gave self.new ≡ gave self.old) × (ended self.new ≡ ended self.old) };

    /// Doors on the socket at a path, through which nobody has come.
    fn listen(&mut self, path: &str) -> Result<Self::Door, DoorFailed>
        ensures unfailed { IfOk result (λ doors. Self.Door.faults doors ≡ 0) }
        ensures failed { OnErr result (Rose (door_faults self.old) (door_faults self.new)) }
        ensures later { door_faults self.old ≤ door_faults self.new }
        ensures store { stored self.new ≡ stored self.old };

    /// What sessions are made with.
    fn equipment(&mut self) -> Self::Tools
        ensures doors { door_faults self.new ≡ door_faults self.old }
        ensures store { stored self.new ≡ stored self.old };

    /// Takes doors back, and closes them.
    fn done_doors(&mut self, doors: Self::Door)
        ensures counted { Counts (door_faults self.old) (door_faults self.new) (Self.Door.faults doors) }
        ensures tells { Tells (gave self.new) (ended self.new) (Self.Door.gave doors) (Self.Door.ended doors) }
        ensures store { stored self.new ≡ stored self.old };

    /// Writes a line into the log, where the host has one. One that cannot be written is left out.
    fn log(&mut self, _notice: Notice)
        ensures sources { source_faults self.new ≡ source_faults self.old }
        ensures doors { door_faults self.new ≡ door_faults self.old }
        ensures told { (gave self.new ≡ gave self.old) × (ended self.new ≡ ended self.old) }
        ensures store { stored self.new ≡ stored self.old }
    {}
}
