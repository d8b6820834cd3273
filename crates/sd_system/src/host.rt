// The host that the daemon serves.
ghost use Rattle.std.specs.Prelude.{◌≡◌, false, None};

use crate::equipment::{Health, SystemTools};
use crate::keeper::WatchedKeeper;
use crate::links::links_beside;
use sd_base::{Source, SourceFailed};
use sd_doors::{DoorFailed, Doors};
use sd_keeper::KeeperFault;
use sd_server::{Host, Notice};
use sd_tcp::Links;
use sd_unix::UnixDoors;
use std::alloc::{Alloc, Global};
use std::fs::{File, Files};
use std::io::{Eprint, Read};
use std::net::Net;
use std::random::RandomSource;
use std::sync::Wait;
use std::time::Clock;

/// A file that is read from its beginning. It tells no content.
#[derive(Drop)]
pub struct FileSource<F: Read + Drop> {
    file: F,
    faults: u64,
}

impl<F: Read + Drop> Source for FileSource<F> {
    ghost left = { λ _. None };

    ghost faults = { λ s. s.faults };

    fn take(&mut self, buf: &mut [u8]) -> Result<usize, SourceFailed> {
        match self.file.read(buf) {
            Ok(count) => Ok(count),
            Err(_) => {
                self.faults = self.faults.saturating_add(1);
                Err(SourceFailed)
            }
        }
    }
}

/// The system as the daemon's host. It counts faults, logs on standard error, and tells no content.
#[derive(Drop)]
pub struct SystemHost<'r, R> {
    rt: &'r R,
    /// What the store's keeper is made with.
    system: &'r HostRuntime,
    health: &'r Health,
    /// Where servers are reached through sockets, once the doors are open.
    links: Option<Links>,
    source_faults: u64,
    door_faults: u64,
    gave: bool,
    store_faults: u64,
    store_failed: bool,
}

impl<'r, R> SystemHost<'r, R> {
    pub fn new(rt: &'r R, system: &'r HostRuntime, health: &'r Health) -> SystemHost<'r, R> {
        SystemHost {
            rt,
            system,
            health,
            links: None,
            source_faults: 0,
            door_faults: 0,
            gave: false,
            store_faults: 0,
            store_failed: false,
        }
    }
}

impl<'r, R> Host for SystemHost<'r, R>
where
    R: Files + Net + Clock + RandomSource + Eprint + Wait + Alloc<A = Global> + Sync,
    R::Stream: Send,
{
    type File = FileSource<R::File>;

    type Door = UnixDoors<'r, R>;

    type Tools = SystemTools<'r, R>;

    type Store = WatchedKeeper<'r>;

    ghost text_at = { λ _ _. None };

    ghost source_faults = { λ h. h.source_faults };

    ghost door_faults = { λ h. h.door_faults };

    ghost gave = { λ h. h.gave };

    ghost ended = { λ _. false };

    ghost stored = { λ h. record { blobs = None; faults = h.store_faults; failed = h.store_failed } };

    fn file(&mut self, path: &str) -> Result<FileSource<R::File>, SourceFailed> {
        match File::open(self.rt, path) {
            Ok(file) => Ok(FileSource { file, faults: 0 }),
            Err(_) => {
                self.source_faults = self.source_faults.saturating_add(1);
                Err(SourceFailed)
            }
        }
    }

    fn done_file(&mut self, file: FileSource<R::File>) {
        if file.faults > 0 {
            self.source_faults = self.source_faults.saturating_add(1);
        }
    }

    fn seed(&mut self) -> Result<[u8; 32], SourceFailed> {
        let mut seed = [0u8; 32];
        match self.rt.fill_bytes(&mut seed) {
            Ok(()) => Ok(seed),
            Err(_) => {
                self.source_faults = self.source_faults.saturating_add(1);
                Err(SourceFailed)
            }
        }
    }

    fn keeper(&mut self, path: &str) -> Result<WatchedKeeper<'r>, KeeperFault> {
        let made = WatchedKeeper::open(self.system, path);
        self.store_failed = matches!(made, Err(KeeperFault::Failed));
        if self.store_failed {
            self.store_faults = self.store_faults.saturating_add(1);
        }
        made
    }

    fn done_keeper(&mut self, keeper: WatchedKeeper<'r>) {
        if keeper.faults() > 0 {
            self.store_faults = self.store_faults.saturating_add(1);
        }
        self.store_failed = keeper.has_failed();
    }

    fn listen(&mut self, path: &str) -> Result<UnixDoors<'r, R>, DoorFailed> {
        let Ok(links) = links_beside(self.rt, path) else {
            self.door_faults = self.door_faults.saturating_add(1);
            return Err(DoorFailed);
        };
        self.links = links;
        match UnixDoors::open(self.rt, path) {
            Ok(doors) => Ok(doors),
            Err(_) => {
                self.door_faults = self.door_faults.saturating_add(1);
                Err(DoorFailed)
            }
        }
    }

    fn equipment(&mut self) -> SystemTools<'r, R> {
        SystemTools::new(self.rt, self.health, self.links.take())
    }

    fn done_doors(&mut self, doors: UnixDoors<'r, R>) {
        if doors.faults() > 0 {
            self.door_faults = self.door_faults.saturating_add(1);
        }
        self.gave = self.gave || doors.has_given();
        doors.close();
    }

    fn log(&mut self, notice: Notice) {
        let _ = eprintln!(self.rt; "bixethomi: {notice}");
    }
}
