//! One of the sessions.
ghost use Rattle.std.specs.Prelude.{◌≡◌};
ghost use Rattle.sd_desk.specs.Desks.{IsOwn, HoldsNoTurn};

use crate::replies::{Replies, replies_in};
use sd_base::{Memory, MemorySink, MemorySource, Numbers};
use sd_clock::{Gate, MemoryClock};
use sd_desk::{Desk, DeskSeat};
use sd_engine::SessionEnd;
use sd_session::session;
use sd_stub::{Directory, Mode};
use sd_stub_link::{StubDialer, StubServer};
use std::alloc::Global;
use std::sync::Wait;

/// A client at the desk, and what it sends. All else that its session works with is made in the session's own thread.
pub struct Visit<'d> {
    pub desk: &'d Desk,
    pub seat: DeskSeat,
    pub directory: &'d Directory,
    pub input: Vec<u8>,
    ghost own: { IsOwn desk.now seat },
    ghost free: { HoldsNoTurn seat },
}

impl Drop for Visit<'_> {
    fn drop(self) {
        let Visit {
            desk: _,
            seat: _,
            directory: _,
            input: _,
        } = self;
    }
}

/// A dialer of one server, of which no call is to fail.
fn dialer_to(alloc: Global, directory: &Directory) -> Result<StubDialer<'_>, Memory> {
    let mut servers = Vec::new(alloc);
    servers.push(StubServer {
        directory,
        mode: Mode::Up,
    })?;
    Ok(StubDialer::new(alloc, servers, Numbers::new(alloc), Numbers::new(alloc)))
}

/// Serves a client to its end, at the moment 0.
fn serve<R: Wait, G: Gate>(
    rt: &R,
    alloc: Global,
    desk: &Desk,
    seat: DeskSeat,
    source: &mut MemorySource,
    sink: &mut MemorySink,
    dialer: &mut StubDialer<'_>,
    gate: &G,
) -> SessionEnd
    requires own { IsOwn desk.now seat }
    requires free { HoldsNoTurn seat }
{
    let mut clock = MemoryClock::new(Vec::new(alloc));
    let (_seat, end) = session(
        rt, alloc, desk, seat, source, sink, dialer, &mut clock, gate,
    );
    end
}

impl<'d> Visit<'d> {
    /// Serves the client to its end, and tells what the replies say. An end before that of the input is one for want of memory.
    pub fn run<R: Wait, G: Gate>(self, rt: &R, alloc: Global, gate: &G) -> Result<Replies, Memory> {
        let Visit {
            desk,
            seat,
            directory,
            input,
        } = self;
        let mut source = MemorySource::new(input, Numbers::new(alloc));
        let mut sink = MemorySink::new(Vec::new(alloc), Numbers::new(alloc));
        let mut dialer = dialer_to(alloc, directory)?;
        let end = serve(
            rt,
            alloc,
            desk,
            seat,
            &mut source,
            &mut sink,
            &mut dialer,
            gate,
        );
        if end != SessionEnd::Closed || sink.starved() || dialer.starved() {
            return Err(Memory);
        }
        replies_in(sink.bytes())
    }
}
