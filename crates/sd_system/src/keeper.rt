// The keeper of the daemon's rows.
ghost use Rattle.std.specs.Prelude.{◌≡◌, false, IfOk, None};

use sd_base::Blobs;
use sd_keeper::{Keeper, KeeperFault};
use sd_store::SqliteKeeper;
use std::io::Eprint;

/// A keeper over a SQLite file that logs when it can be written no more, and when it can again.
#[derive(Drop)]
pub struct WatchedKeeper<'r> {
    rt: &'r HostRuntime,
    keeper: SqliteKeeper<'r>,
    is_unwritten: bool,
}

impl<'r> WatchedKeeper<'r> {
    /// A keeper over the file at this path, which is made where nothing stands there.
    pub fn open(rt: &'r HostRuntime, path: &str) -> Result<WatchedKeeper<'r>, KeeperFault>
        ensures unfailed { IfOk result (λ keeper. ⟦<WatchedKeeper<'r> as Keeper>⟧.failed keeper ≡ false) }
        ensures uncounted { IfOk result (λ keeper. ⟦<WatchedKeeper<'r> as Keeper>⟧.faults keeper ≡ 0) }
    {
        match SqliteKeeper::open(rt, path) {
            Ok(keeper) => Ok(WatchedKeeper {
                rt,
                keeper,
                is_unwritten: false,
            }),
            Err(fault) => Err(fault),
        }
    }

    /// How many calls have failed.
    pub fn faults(&self) -> u64
        ensures { result ≡ ⟦<WatchedKeeper<'r> as Keeper>⟧.faults self.now }
    {
        self.keeper.faults()
    }

    /// Whether the last call failed.
    pub fn has_failed(&self) -> bool
        ensures { result ≡ ⟦<WatchedKeeper<'r> as Keeper>⟧.failed self.now }
    {
        self.keeper.has_failed()
    }

    /// Logs what is news.
    fn note(&mut self, is_unwritten: bool)
        ensures { self.new.keeper ≡ self.old.keeper }
    {
        if is_unwritten != self.is_unwritten {
            let news = if is_unwritten {
                "cannot be written"
            } else {
                "is written again"
            };
            let _ = eprintln!(self.rt; "bixethomi: the store {news}");
        }
        self.is_unwritten = is_unwritten;
    }
}

impl<'r> Keeper for WatchedKeeper<'r> {
    ghost told = { λ _. None };

    ghost failed = { λ k. ⟦<SqliteKeeper<'r> as Keeper>⟧.failed k.keeper };

    ghost faults = { λ k. ⟦<SqliteKeeper<'r> as Keeper>⟧.faults k.keeper };

    fn read(&mut self) -> Result<Blobs, KeeperFault> {
        self.keeper.read()
    }

    fn write(&mut self, blobs: &Blobs) -> Result<(), KeeperFault> {
        let done = self.keeper.write(blobs);
        self.note(done.is_err());
        done
    }
}
