//! Listening for the next frame.
ghost use Rattle.std.specs.Prelude.{◌≡◌, ◌≤◌, length, true};
ghost use Rattle.sd_base.specs.Causes.{Rose};
ghost use Rattle.sd_wire.specs.Frames.{BeginsWith, IsCarried, IsCut, frame_of};
ghost use Rattle.sd_engine.specs.Listening.{IsHeard, Listens, end_of};

use crate::ending::SessionEnd;
use sd_base::Source;
use sd_inbox::{Inbox, LIMIT, Taken};
use sd_wire::{Framed, Request, read_frame};
use std::alloc::Global;

/// What came of listening.
#[derive(Drop)]
pub enum Listened {
    /// A frame was there.
    Heard(Request),
    /// Bytes came.
    Waits,
    Ended(SessionEnd),
}

/// The end of an input that ended with these bytes.
fn end_of(unread: &[u8]) -> SessionEnd
    ensures { result ≡ end_of unread.now }
{
    if unread.is_empty() {
        return SessionEnd::Closed;
    }
    SessionEnd::Cut
}

/// Takes bytes where no frame is whole.
fn take_more<S: Source>(inbox: &mut Inbox, source: &mut S) -> Listened
    requires { IsCut inbox.old.bytes }
    ensures listens { Listens result inbox.old inbox.new (S.left source.old) (S.left source.new) (Rose (S.faults source.old) (S.faults source.new)) }
    ensures later { S.faults source.old ≤ S.faults source.new }
{
    match inbox.take_more(source) {
        Taken::Bytes => Listened::Waits,
        Taken::End => Listened::Ended(end_of(inbox.unread())),
        Taken::Over => Listened::Ended(SessionEnd::Long(LIMIT as u64)),
        Taken::Failed => Listened::Ended(SessionEnd::ReadFault),
        Taken::Memory => Listened::Ended(SessionEnd::Memory),
    }
}

/// Passes the frame of a request.
fn pass_frame(inbox: &mut Inbox, request: Request, used: u64) -> Listened
    requires carried { IsCarried request }
    requires begins { BeginsWith inbox.old.bytes request }
    requires used { used ≡ length (frame_of request) }
    ensures { IsHeard result request inbox.old inbox.new }
{
    inbox.pass(used as usize);
    Listened::Heard(request)
}

/// Reads the frame in front, or takes more bytes.
pub fn listen<S: Source>(alloc: Global, inbox: &mut Inbox, source: &mut S) -> Listened
    ensures listens { Listens result inbox.old inbox.new (S.left source.old) (S.left source.new) (Rose (S.faults source.old) (S.faults source.new)) }
    ensures later { S.faults source.old ≤ S.faults source.new }
{
    match read_frame(alloc, inbox.unread()) {
        Framed::Frame(request, used) => pass_frame(inbox, request, used),
        Framed::More => take_more(inbox, source),
        Framed::Bad => Listened::Ended(SessionEnd::BadFrame(inbox.place())),
        Framed::Memory => Listened::Ended(SessionEnd::Memory),
    }
}
