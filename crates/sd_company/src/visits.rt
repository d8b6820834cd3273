// One client's visit to a desk, in memory.
ghost use Rattle.std.specs.Prelude.{◌≡◌};
ghost use Rattle.sd_desk.specs.Desks.{IsOwn, HoldsNoTurn};

use sd_base::{Memory, MemorySink, MemorySource, Numbers};
use sd_clock::{Gate, MemoryClock};
use sd_desk::{Desk, DeskSeat};
use sd_engine::SessionEnd;
use sd_session::session;
use sd_stub::{Directory, Mode};
use sd_stub_link::{StubDialer, StubServer};
use std::alloc::Global;
use std::sync::Wait;

/// What a visit came to.
pub struct Visit {
    /// The bytes written.
    pub written: Vec<u8>,
    pub end: SessionEnd,
}

impl Drop for Visit {
    fn drop(self) {
        let Visit { written: _, end: _ } = self;
    }
}

/// The frame of a question for a user of at most 252 bytes.
pub fn question(alloc: Global, user: &[u8]) -> Result<Vec<u8>, Memory> {
    let length = u8::try_from(user.len()).unwrap_or(u8::MAX);
    let mut frame = Vec::new(alloc);
    frame.extend_from_slice(&[0, 0, 0, length.saturating_add(3), 1, 0, length])?;
    frame.extend_from_slice(user)?;
    Ok(frame)
}

/// A dialer of one server, which is up.
fn dialer_of(alloc: Global, directory: &Directory) -> Result<StubDialer<'_>, Memory> {
    let mut servers = Vec::new(alloc);
    servers.push(StubServer {
        directory,
        mode: Mode::Up,
    })?;
    let (failing, refusing) = (Numbers::new(alloc), Numbers::new(alloc));
    Ok(StubDialer::new(alloc, servers, failing, refusing))
}

fn visit_of(alloc: Global, sink: &MemorySink, end: SessionEnd) -> Result<Visit, Memory> {
    let mut written = Vec::new(alloc);
    written.extend_from_slice(sink.bytes())?;
    Ok(Visit { written, end })
}

/// Serves a client who sends these bytes and nothing more. The clock says 0.
pub fn serve<R: Wait, G: Gate>(
    rt: &R,
    alloc: Global,
    desk: &Desk,
    seat: DeskSeat,
    directory: &Directory,
    bytes: Vec<u8>,
    gate: &G,
) -> Result<Visit, Memory>
    requires own { IsOwn desk.now seat }
    requires free { HoldsNoTurn seat }
{
    let mut source = MemorySource::new(bytes, Numbers::new(alloc));
    let mut sink = MemorySink::new(Vec::new(alloc), Numbers::new(alloc));
    let mut dialer = dialer_of(alloc, directory)?;
    let mut clock = MemoryClock::new(Vec::new(alloc));
    let (_seat, end) = session(
        rt,
        alloc,
        desk,
        seat,
        &mut source,
        &mut sink,
        &mut dialer,
        &mut clock,
        gate,
    );
    visit_of(alloc, &sink, end)
}

/// The text of the reply in front, which is shorter than 256 bytes, and what comes behind it.
pub fn cut_reply(bytes: &[u8]) -> Option<(&[u8], &[u8])> {
    let [0, 0, 0, length, rest @ ..] = bytes else {
        return None;
    };
    let length = usize::from(*length);
    if length > rest.len() {
        return None;
    }
    Some(rest.split_at(length))
}

/// Appends what was written, without the lengths of the replies, and how the session ended.
pub fn tell(alloc: Global, out: &mut Vec<u8>, name: &str, visit: &Visit) -> Result<(), Memory> {
    out.extend_from_slice(name.as_bytes())?;
    out.push(b':')?;
    let mut left = visit.written.as_slice();
    for _ in 0..visit.written.len() {
        let Some((reply, rest)) = cut_reply(left) else {
            break;
        };
        out.push(b' ')?;
        out.extend_from_slice(reply)?;
        out.push(b',')?;
        left = rest;
    }
    let end = visit.end;
    out.extend_from_slice(format!(in alloc; " {end:?}\n")?.as_bytes())?;
    Ok(())
}
