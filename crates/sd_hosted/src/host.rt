// The host of a worked daemon.
ghost use Rattle.std.specs.Prelude.{◌≡◌, false, None};

use crate::doors::{Coming, WorkedDoors};
use crate::keeper::CountedKeeper;
use sd_base::{Blobs, Copied, Memory, MemorySource, Numbers, Source, SourceFailed};
use sd_clock::{MemoryClock, OpenGate};
use sd_conf::Config;
use sd_doors::DoorFailed;
use sd_keeper::KeeperFault;
use sd_server::{Equipment, Host};
use sd_stub::{Directory, Mode};
use sd_stub_link::{StubDialer, StubServer};
use std::alloc::Global;
use std::collections::VecDeque;
use std::mem;
use std::sync::Wait;

/// What each session is made with: servers of one directory, and a clock of its own.
#[derive(Drop)]
pub struct WorkedTools<'a> {
    alloc: Global,
    directory: &'a Directory,
    mode: Mode,
    moments: Numbers,
}

fn moments_of(alloc: Global, numbers: &Numbers) -> Result<Vec<u64>, Memory> {
    let mut moments = Vec::new(alloc);
    for number in numbers.items() {
        moments.push(u64::from(*number))?;
    }
    Ok(moments)
}

impl<'a> Equipment for WorkedTools<'a> {
    type Dial = StubDialer<'a>;

    type Time = MemoryClock;

    type Watch = OpenGate;

    fn dialer(&mut self, config: &Config) -> Result<StubDialer<'a>, Memory> {
        let mut servers = Vec::new(self.alloc);
        for _ in config.servers.items() {
            servers.push(StubServer {
                directory: self.directory,
                mode: self.mode,
            })?;
        }
        let (dials, calls) = (Numbers::new(self.alloc), Numbers::new(self.alloc));
        Ok(StubDialer::new(self.alloc, servers, dials, calls))
    }

    /// A clock that stands at 0 where no memory is left for another.
    fn clock(&mut self) -> MemoryClock {
        match moments_of(self.alloc, &self.moments) {
            Ok(moments) => MemoryClock::new(moments),
            Err(Memory) => MemoryClock::new(Vec::new(self.alloc)),
        }
    }

    fn gate(&mut self) -> OpenGate {
        OpenGate
    }
}

/// The configuration, from its beginning. It tells no content.
#[derive(Drop)]
pub struct ConfSource {
    source: MemorySource,
    faults: u64,
}

impl Source for ConfSource {
    ghost left = { λ _. None };

    ghost faults = { λ s. s.faults };

    fn take(&mut self, buf: &mut [u8]) -> Result<usize, SourceFailed> {
        match self.source.take(buf) {
            Ok(count) => Ok(count),
            Err(SourceFailed) => {
                self.faults = self.faults.saturating_add(1);
                Err(SourceFailed)
            }
        }
    }
}

/// A host in memory. It tells no content.
#[derive(Drop)]
pub struct WorkedHost<'a, R> {
    pub rt: &'a R,
    pub alloc: Global,
    pub conf: Vec<u8>,
    pub directory: &'a Directory,
    pub mode: Mode,
    pub coming: VecDeque<Coming<'a>>,
    pub failing_door: Numbers,
    pub moments: Numbers,
    /// What the store has; what it has at the end, once the keeper was handed back.
    pub blobs: Blobs,
    pub failing_store: Numbers,
    pub kept: Option<CountedKeeper>,
    pub source_faults: u64,
    pub door_faults: u64,
    pub gave: bool,
    pub ended: bool,
    pub store_faults: u64,
    pub store_failed: bool,
}

impl<'a, R: Wait + Sync> Host for WorkedHost<'a, R> {
    type File = ConfSource;

    type Door = WorkedDoors<'a, R>;

    type Tools = WorkedTools<'a>;

    type Store = CountedKeeper;

    ghost text_at = { λ _ _. None };

    ghost source_faults = { λ h. h.source_faults };

    ghost door_faults = { λ h. h.door_faults };

    ghost gave = { λ h. h.gave };

    ghost ended = { λ h. h.ended };

    ghost stored = { λ h. record { blobs = None; faults = h.store_faults; failed = h.store_failed } };

    /// The configuration, whatever the path.
    fn file(&mut self, _path: &str) -> Result<ConfSource, SourceFailed> {
        let conf = mem::replace(&mut self.conf, Vec::new(self.alloc));
        Ok(ConfSource {
            source: MemorySource::new(conf, Numbers::new(self.alloc)),
            faults: 0,
        })
    }

    fn done_file(&mut self, file: ConfSource) {
        if file.faults > 0 {
            self.source_faults = self.source_faults.saturating_add(1);
        }
    }

    fn seed(&mut self) -> Result<[u8; 32], SourceFailed> {
        Ok([0x73; 32])
    }

    fn keeper(&mut self, _path: &str) -> Result<CountedKeeper, KeeperFault> {
        self.store_failed = false;
        let blobs = self.blobs.copy()?;
        Ok(CountedKeeper::new(blobs, self.failing_store.copy()?))
    }

    fn done_keeper(&mut self, keeper: CountedKeeper) {
        if keeper.faults() > 0 {
            self.store_faults = self.store_faults.saturating_add(1);
        }
        self.store_failed = keeper.has_failed();
        self.kept = Some(keeper);
    }

    fn listen(&mut self, _path: &str) -> Result<WorkedDoors<'a, R>, DoorFailed> {
        let coming = mem::replace(&mut self.coming, VecDeque::new(self.alloc));
        let failing = mem::replace(&mut self.failing_door, Numbers::new(self.alloc));
        Ok(WorkedDoors::new(self.rt, self.alloc, coming, failing))
    }

    fn equipment(&mut self) -> WorkedTools<'a> {
        WorkedTools {
            alloc: self.alloc,
            directory: self.directory,
            mode: self.mode,
            moments: mem::replace(&mut self.moments, Numbers::new(self.alloc)),
        }
    }

    fn done_doors(&mut self, doors: WorkedDoors<'a, R>) {
        if doors.faults() > 0 {
            self.door_faults = self.door_faults.saturating_add(1);
        }
        self.gave = doors.has_given();
        self.ended = doors.has_ended();
    }
}
