//! Doors in memory, for tests and for tables of cases.
ghost use Rattle.std.specs.Prelude.{◌≡◌, false};
ghost use Rattle.sd_doors.specs.Came.{IsUntouched};

use crate::doors::{DoorFailed, Doors};
use sd_base::{MemorySink, MemorySource, Numbers, Sink, Source};
use std::collections::VecDeque;

/// A connection that is to come: what the client sends, and where what it is sent goes.
#[derive(Drop)]
pub struct Connection {
    source: MemorySource,
    sink: MemorySink,
    ghost untouched: { IsUntouched (⟦<MemorySource as Source>⟧.faults source) (⟦<MemorySink as Sink>⟧.faults sink) },
}

/// Doors through which these connections come, in their order, and then none.
pub struct MemoryDoors {
    connections: VecDeque<Connection>,
    calls: u64,
    failing: Numbers,
    faults: u64,
    gave: bool,
    ended: bool,
}

impl Drop for MemoryDoors {
    fn drop(self) {
        let MemoryDoors {
            connections: _,
            calls: _,
            failing: _,
            faults: _,
            gave: _,
            ended: _,
        } = self;
    }
}

impl Connection {
    /// A connection of a source and a sink at which no fault is counted.
    pub fn new(source: MemorySource, sink: MemorySink) -> Connection
        requires { IsUntouched (⟦<MemorySource as Source>⟧.faults source) (⟦<MemorySink as Sink>⟧.faults sink) }
    {
        Connection { source, sink }
    }
}

impl MemoryDoors {
    /// The calls whose numbers are listed, counted from 1, are to fail.
    pub fn new(connections: VecDeque<Connection>, failing: Numbers) -> MemoryDoors
        ensures gave { ⟦<MemoryDoors as Doors>⟧.gave result ≡ false }
        ensures ended { ⟦<MemoryDoors as Doors>⟧.ended result ≡ false }
        ensures faults { ⟦<MemoryDoors as Doors>⟧.faults result ≡ 0 }
    {
        MemoryDoors {
            connections,
            calls: 0,
            failing,
            faults: 0,
            gave: false,
            ended: false,
        }
    }
}

fn lists(numbers: &Numbers, call: u64) -> bool {
    numbers.items().iter().any(|n| u64::from(*n) == call)
}

impl Doors for MemoryDoors {
    type In = MemorySource;

    type Out = MemorySink;

    ghost gave = { λ d. d.gave };

    ghost ended = { λ d. d.ended };

    ghost faults = { λ d. d.faults };

    fn accept(&mut self) -> Result<Option<(MemorySource, MemorySink)>, DoorFailed> {
        self.calls = self.calls.saturating_add(1);
        if lists(&self.failing, self.calls) {
            self.faults = self.faults.saturating_add(1);
            return Err(DoorFailed);
        }
        match self.connections.pop_front() {
            Some(Connection { source, sink }) => {
                self.gave = true;
                Ok(Some((source, sink)))
            }
            None => {
                self.ended = true;
                Ok(None)
            }
        }
    }
}
