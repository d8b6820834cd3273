// Runs of steps of one kind over a core that knows users, and what they come to.
ghost use Rattle.std.specs.Prelude.{◌<◌, ◌^◌, length, IfOk};

use crate::pace_events::{events, is_taken, known, unknown};
use crate::pace_kinds::{Kind, is_wanted, kind_of};
use crate::pace_world::{rows, settings};
use sd_base::Memory;
use sd_core::Core;
use sd_pieces::{cut, read_number};
use sd_rules::{Event, Journal, Reply};
use sd_steps::output::{print, print_line, print_number};
use std::alloc::Global;
use std::time::Instant;

/// What a run came to.
#[derive(Clone, Copy, PartialEq, Eq)]
struct Came {
    /// How many steps came to what they should; of a forget, how many entries it dropped.
    wanted: u64,
    /// How many entries the journal has then.
    entries: u64,
    /// How long a step took.
    nanoseconds: u64,
}

/// A step of an event that every journal takes.
fn step(core: &mut Core, event: Event) -> Option<Reply> {
    if !is_taken(&event) {
        return None;
    }
    match core.step(0, event) {
        Ok(given) => Some(given.reply),
        Err(_) => None,
    }
}

/// A core that knows so many users, and has so many entries at least.
fn core_of(alloc: Global, kind: Kind, users: u32, entries: u32) -> Result<Core, Memory> {
    let rows = rows(alloc, kind, users)?;
    if rows.len() > 1 << 30 {
        return Err(Memory);
    }
    let Ok(mut core) = Core::open(alloc, settings(alloc)?, rows) else {
        return Err(Memory);
    };
    for place in users..entries {
        step(&mut core, known(alloc, place, users)?);
    }
    if kind == Kind::Joined {
        step(&mut core, unknown(alloc)?);
    }
    Ok(core)
}

/// Makes the steps, and counts those that come to what they should.
fn make(kind: Kind, core: &mut Core, events: Vec<Event>) -> u64 {
    let mut wanted = 0u64;
    for event in events {
        if let Some(reply) = step(core, event) {
            if is_wanted(kind, reply) {
                wanted = wanted.saturating_add(1);
            }
        }
    }
    wanted
}

/// What steps or a forget came to.
struct Done {
    wanted: u64,
    /// The entries that were handed back. They are let go once the time was taken, as the daemon lets them go once it has given the turn
    /// back.
    dropped: Journal,
}

impl Drop for Done {
    fn drop(self) {
        let Done {
            wanted: _,
            dropped: _,
        } = self;
    }
}

fn forget(core: &mut Core) -> Result<Done, Memory> {
    let dropped = core.forget()?;
    Ok(Done {
        wanted: dropped.len() as u64,
        dropped,
    })
}

fn work(alloc: Global, kind: Kind, core: &mut Core, events: Vec<Event>) -> Result<Done, Memory> {
    match kind {
        Kind::Forget => forget(core),
        _ => Ok(Done {
            wanted: make(kind, core, events),
            dropped: Journal::new(alloc),
        }),
    }
}

fn nanoseconds(rt: &HostRuntime, begun: &Instant) -> u64 {
    match begun.elapsed(rt) {
        Ok(time) => u64::try_from(time.as_nanos()).unwrap_or(u64::MAX),
        Err(_) => 0,
    }
}

fn run(
    rt: &HostRuntime,
    kind: Kind,
    users: u32,
    entries: u32,
    steps: u32,
) -> Result<Option<Came>, Memory> {
    let alloc = rt.alloc();
    let mut core = core_of(alloc, kind, users, entries)?;
    let events = events(alloc, kind, core.next_number(), steps, users)?;
    let Ok(begun) = Instant::now(rt) else {
        return Ok(None);
    };
    let done = work(alloc, kind, &mut core, events)?;
    let time = nanoseconds(rt, &begun);
    Ok(Some(Came {
        wanted: done.wanted,
        entries: core.journal().len() as u64,
        nanoseconds: time / u64::from(steps.max(1)),
    }))
}

fn number(word: Option<&[u8]>) -> (u32, Option<&[u8]>) {
    let (digits, rest) = cut(b' ', word.unwrap_or(b""));
    (read_number(digits).unwrap_or(0), rest)
}

/// What the run of a line came to, where it is one.
fn run_line(rt: &HostRuntime, line: &[u8]) -> Result<Option<Came>, Memory> {
    let (word, rest) = cut(b' ', line);
    let (users, rest) = number(rest);
    let (entries, rest) = number(rest);
    let (steps, _) = number(rest);
    match kind_of(word) {
        Some(kind) => run(rt, kind, users, entries, steps),
        None => Ok(None),
    }
}

fn print_came(out: &mut Vec<u8>, line: &[u8], came: &Came, is_timed: bool) -> Result<(), Memory> {
    print(out, line)?;
    print(out, b":")?;
    print_number(out, came.wanted)?;
    print(out, b" as wanted,")?;
    print_number(out, came.entries)?;
    print(out, b" entries")?;
    if is_timed {
        print(out, b",")?;
        print_number(out, came.nanoseconds)?;
        print(out, b" ns each")?;
    }
    print(out, b"\n")
}

/// Makes a run, `KIND USERS ENTRIES STEPS`, and prints what it came to, and how long a step took where that is asked.
pub fn print_pace(
    rt: &HostRuntime,
    out: &mut Vec<u8>,
    line: &[u8],
    is_timed: bool,
) -> Result<(), Memory> {
    match run_line(rt, line)? {
        Some(came) => print_came(out, line, &came, is_timed),
        None => print_line(out, b"no run"),
    }
}
