// A session, over a core of its own or at a desk.
ghost use Rattle.std.specs.Prelude.{◌≡◌, IfOk};
ghost use Rattle.sd_desk.specs.Desks.{IsOwn, HoldsNoTurn};

use crate::case::Case;
use crate::dialer::NotedDialer;
use crate::line::Calls;
use crate::streams::{PieceSink, PieceSource};
use crate::trouble::Trouble;
use crate::world::{config_of, core_of};
use sd_base::Memory;
use sd_clock::{MemoryClock, OpenGate};
use sd_conf::Config;
use sd_core::Core;
use sd_creds::Salts;
use sd_desk::{Desk, DeskSeat};
use sd_engine::SessionEnd;
use sd_session::{session, solo_session};
use sd_stub::Directory;
use sd_wire::push_entry;
use std::alloc::Global;
use std::sync::Wait;

/// What a session came to.
pub struct Visit {
    pub written: Vec<u8>,
    pub asked: Vec<u8>,
    pub faults: u64,
    pub end: SessionEnd,
    /// The lines of the journal.
    pub journal: Vec<u8>,
}

impl Drop for Visit {
    fn drop(self) {
        let Visit {
            written: _,
            asked: _,
            faults: _,
            end: _,
            journal: _,
        } = self;
    }
}

/// What a session is served with.
#[derive(Drop)]
struct Outside<'d> {
    source: PieceSource,
    sink: PieceSink,
    dialer: NotedDialer<'d>,
    clock: MemoryClock,
}

const SALTS: [u8; 32] = [0x73; 32];

fn source_of(alloc: Global, case: &Case, trouble: Trouble) -> Result<PieceSource, Memory> {
    let mut bytes = Vec::new(alloc);
    bytes.extend_from_slice(case.sent.as_slice())?;
    Ok(PieceSource {
        bytes,
        at: 0,
        most: case.most_taken,
        trouble,
        calls: 0,
        faults: 0,
    })
}

fn sink_of(alloc: Global, case: &Case, trouble: Trouble) -> PieceSink {
    PieceSink {
        bytes: Vec::new(alloc),
        most: case.most_put,
        trouble,
        calls: 0,
        faults: 0,
    }
}

fn dialer_of<'d>(
    alloc: Global,
    case: &Case,
    directory: &'d Directory,
    trouble: Trouble,
) -> NotedDialer<'d> {
    NotedDialer {
        alloc,
        directory,
        trouble,
        most: case.most_received,
        asked: Vec::new(alloc),
        calls: Calls {
            dials: 0,
            sends: 0,
            receives: 0,
        },
        faults: 0,
    }
}

fn clock_of(alloc: Global, case: &Case) -> Result<MemoryClock, Memory> {
    let mut moments = Vec::new(alloc);
    for moment in case.moments.iter() {
        moments.push(*moment)?;
    }
    Ok(MemoryClock::new(moments))
}

fn outside_of<'d>(
    alloc: Global,
    case: &Case,
    directory: &'d Directory,
    trouble: Trouble,
) -> Result<Outside<'d>, Memory> {
    let source = source_of(alloc, case, trouble)?;
    let clock = clock_of(alloc, case)?;
    Ok(Outside {
        source,
        sink: sink_of(alloc, case, trouble),
        dialer: dialer_of(alloc, case, directory, trouble),
        clock,
    })
}

fn journal_of(alloc: Global, core: &Core) -> Result<Vec<u8>, Memory> {
    let mut out = Vec::new(alloc);
    for entry in core.journal() {
        out.extend_from_slice(b"  ")?;
        push_entry(alloc, &mut out, entry)?;
        out.push(b'\n')?;
    }
    Ok(out)
}

fn visit_of(outside: Outside<'_>, end: SessionEnd, journal: Vec<u8>) -> Visit {
    let Outside {
        source: _,
        sink,
        dialer,
        clock: _,
    } = outside;
    Visit {
        written: sink.bytes,
        asked: dialer.asked,
        faults: dialer.faults,
        end,
        journal,
    }
}

/// Serves a client over a core.
fn serve_alone(
    alloc: Global,
    core: &mut Core,
    config: &Config,
    outside: &mut Outside<'_>,
) -> SessionEnd {
    solo_session(
        alloc,
        core,
        config,
        &Salts::new(SALTS),
        &mut outside.source,
        &mut outside.sink,
        &mut outside.dialer,
        &mut outside.clock,
    )
}

fn visit_alone(alloc: Global, case: &Case, mut outside: Outside<'_>) -> Result<Visit, Memory> {
    let config = config_of(alloc, case.conf.as_slice())?;
    let mut core = core_of(alloc, &config)?;
    let end = serve_alone(alloc, &mut core, &config, &mut outside);
    let journal = journal_of(alloc, &core)?;
    Ok(visit_of(outside, end, journal))
}

/// Serves a client at a desk.
fn serve_seated<R: Wait>(
    rt: &R,
    alloc: Global,
    desk: &Desk,
    seat: DeskSeat,
    outside: &mut Outside<'_>,
) -> SessionEnd
    requires own { IsOwn desk.now seat }
    requires free { HoldsNoTurn seat }
{
    let (_seat, end) = session(
        rt,
        alloc,
        desk,
        seat,
        &mut outside.source,
        &mut outside.sink,
        &mut outside.dialer,
        &mut outside.clock,
        &OpenGate,
    );
    end
}

/// A desk, and its first seat.
fn desk_of(alloc: Global, text: &[u8]) -> Result<(Desk, DeskSeat), Memory>
    ensures { IfOk result (λ made. IsOwn made.0 made.1 × HoldsNoTurn made.1) }
{
    let config = config_of(alloc, text)?;
    let core = core_of(alloc, &config)?;
    Desk::new(alloc, core, config, Salts::new(SALTS))
}

/// The journal of a desk at its end.
fn close(alloc: Global, desk: Desk, seat: DeskSeat) -> Result<Vec<u8>, Memory>
    requires own { IsOwn desk seat }
    requires free { HoldsNoTurn seat }
{
    match desk.close(seat) {
        Ok(core) => journal_of(alloc, &core),
        Err(_held) => Err(Memory),
    }
}

fn visit_desk<R: Wait>(
    rt: &R,
    alloc: Global,
    case: &Case,
    mut outside: Outside<'_>,
) -> Result<Visit, Memory> {
    let (desk, mut first) = desk_of(alloc, case.conf.as_slice())?;
    let second = desk.split(&mut first);
    let end = serve_seated(rt, alloc, &desk, second, &mut outside);
    let journal = close(alloc, desk, first)?;
    Ok(visit_of(outside, end, journal))
}

/// A session of a case in which this goes wrong.
pub fn visited<R: Wait>(
    rt: &R,
    alloc: Global,
    case: &Case,
    directory: &Directory,
    trouble: Trouble,
) -> Result<Visit, Memory> {
    let outside = outside_of(alloc, case, directory, trouble)?;
    if case.is_at_desk {
        visit_desk(rt, alloc, case, outside)
    } else {
        visit_alone(alloc, case, outside)
    }
}
