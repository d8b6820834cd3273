// The doors that worked clients come through.
ghost use Rattle.std.specs.Prelude.{◌≡◌, false, None};

use sd_base::{MemorySource, Numbers, Sink, SinkFailed};
use sd_doors::{DoorFailed, Doors};
use std::alloc::Global;
use std::collections::VecDeque;
use std::sync::{Mutex, Wait};

/// What one client is sent goes to its own list.
#[derive(Drop)]
pub struct ReplySink<'a, R> {
    rt: &'a R,
    sent: &'a Mutex<Vec<u8>>,
    faults: u64,
}

impl<'a, R: Wait> Sink for ReplySink<'a, R> {
    ghost held = { λ _. None };

    ghost faults = { λ s. s.faults };

    fn put(&mut self, bytes: &[u8]) -> Result<usize, SinkFailed> {
        match self.sent.lock(self.rt).extend_from_slice(bytes) {
            Ok(()) => Ok(bytes.len()),
            Err(_) => {
                self.faults = self.faults.saturating_add(1);
                Err(SinkFailed)
            }
        }
    }
}

/// A client that is to come: what it sends, and where what it is sent goes.
#[derive(Drop)]
pub struct Coming<'a> {
    pub asks: Vec<u8>,
    pub sent: &'a Mutex<Vec<u8>>,
}

/// Doors through which these clients come, in their order, and then none.
#[derive(Drop)]
pub struct WorkedDoors<'a, R> {
    rt: &'a R,
    alloc: Global,
    coming: VecDeque<Coming<'a>>,
    calls: u64,
    failing: Numbers,
    faults: u64,
    gave: bool,
    ended: bool,
}

fn lists(numbers: &Numbers, call: u64) -> bool {
    numbers.items().iter().any(|n| u64::from(*n) == call)
}

impl<'a, R: Wait> WorkedDoors<'a, R> {
    /// The calls whose numbers are listed, counted from 1, are to fail.
    pub fn new(
        rt: &'a R,
        alloc: Global,
        coming: VecDeque<Coming<'a>>,
        failing: Numbers,
    ) -> WorkedDoors<'a, R>
        ensures faults { ⟦<WorkedDoors<'a, R> as Doors>⟧.faults result ≡ 0 }
    {
        WorkedDoors {
            rt,
            alloc,
            coming,
            calls: 0,
            failing,
            faults: 0,
            gave: false,
            ended: false,
        }
    }

    /// How many calls have failed.
    pub fn faults(&self) -> u64
        ensures { result ≡ ⟦<WorkedDoors<'a, R> as Doors>⟧.faults self.now }
    {
        self.faults
    }

    /// Whether a client was given.
    pub fn has_given(&self) -> bool
        ensures { result ≡ ⟦<WorkedDoors<'a, R> as Doors>⟧.gave self.now }
    {
        self.gave
    }

    /// Whether it was answered that none will come.
    pub fn has_ended(&self) -> bool
        ensures { result ≡ ⟦<WorkedDoors<'a, R> as Doors>⟧.ended self.now }
    {
        self.ended
    }
}

impl<'a, R: Wait> Doors for WorkedDoors<'a, R> {
    type In = MemorySource;

    type Out = ReplySink<'a, R>;

    ghost gave = { λ d. d.gave };

    ghost ended = { λ d. d.ended };

    ghost faults = { λ d. d.faults };

    fn accept(&mut self) -> Result<Option<(MemorySource, ReplySink<'a, R>)>, DoorFailed> {
        self.calls = self.calls.saturating_add(1);
        if lists(&self.failing, self.calls) {
            self.faults = self.faults.saturating_add(1);
            return Err(DoorFailed);
        }
        let Some(Coming { asks, sent }) = self.coming.pop_front() else {
            self.ended = true;
            return Ok(None);
        };
        self.gave = true;
        let source = MemorySource::new(asks, Numbers::new(self.alloc));
        let sink = ReplySink {
            rt: self.rt,
            sent,
            faults: 0,
        };
        Ok(Some((source, sink)))
    }
}
