//! The directory as a server of one link.
ghost use Rattle.std.specs.Prelude.{◌≡◌, ℕ, ◌+◌, ◌≤◌, IfSome};
ghost use Rattle.sd_stub.specs.Saying.{ended_of};
ghost use Rattle.sd_stub.specs.Passing.{IsBadAt};
ghost use Rattle.sd_stub.specs.Serving.{ServedOver, IsToldEnd};

use crate::directory::Directory;
use crate::ending::LinkEnd;
use crate::stepping::{Stop, answer_all};
use sd_base::{Sink, Source};
use sd_inbox::{Taken, drop_front, take_more};

/// How many bytes are read over one link: 1 GiB. One more may be taken, by which it is known that the input goes on.
const LIMIT: usize = 1_073_741_824;

/// The end of an input that ended before these bytes became a message.
fn ended(unread: &[u8]) -> LinkEnd
    ensures { result ≡ ended_of unread.now }
{
    if unread.is_empty() {
        return LinkEnd::Closed;
    }
    LinkEnd::Cut
}

/// The place in the input of a fault behind so many bytes. No input is so long that its number is wanting.
fn bad_at(before: usize, at: u64) -> LinkEnd
    ensures { IsBadAt result (before + at) }
{
    match at.checked_add(before as u64) {
        Some(place) => LinkEnd::Bad(place),
        None => LinkEnd::Memory,
    }
}

/// Serves a directory over one link: answers the messages of the input in order, each as soon as it is there, until
/// the input ends, the client unbinds, or a fault comes (RFC 4511 section 4.1.1).
pub fn serve_link<S: Source, W: Sink>(
    directory: &Directory,
    source: &mut S,
    sink: &mut W,
) -> LinkEnd
    // Of a source that tells its bytes: the input decides the end and the answers, however it is cut.
    ensures told { IfSome (S.left source.old) (λ input. IsToldEnd directory.now result input (W.held sink.old) (W.held sink.new)) }
    // Of every source there are bytes that decide the same; where it tells its bytes they are those that were taken.
    ensures served { ServedOver S.left S.faults W.held W.faults directory.now result source.old source.new sink.old sink.new }
    ensures reads_later { S.faults source.old ≤ S.faults source.new }
    ensures writes_later { W.faults sink.old ≤ W.faults sink.new }
{
    serve(directory, source, sink)
}

/// Answers message after message.
fn serve<S: Source, W: Sink>(directory: &Directory, source: &mut S, sink: &mut W) -> LinkEnd
    ensures served { ServedOver S.left S.faults W.held W.faults directory.now result source.old source.new sink.old sink.new }
    ensures reads_later { S.faults source.old ≤ S.faults source.new }
    ensures writes_later { W.faults sink.old ≤ W.faults sink.new }
{
    let mut unread = Vec::new(directory.allocator());
    let mut place = 0;
    loop {
        let (used, stop) = answer_all(directory, &unread, sink);
        place += used;
        drop_front(&mut unread, used);
        match stop {
            Stop::Waits => {}
            Stop::Unbound => return LinkEnd::Unbound,
            Stop::Bad(at) => return bad_at(place, at),
            Stop::WriteFault => return LinkEnd::WriteFault,
            Stop::Memory => return LinkEnd::Memory,
        }
        let room = LIMIT - place - unread.len();
        match take_more(source, &mut unread, room) {
            Taken::Bytes => {}
            Taken::End => return ended(&unread),
            Taken::Over => return LinkEnd::Long(LIMIT as u64),
            Taken::Failed => return LinkEnd::ReadFault,
            Taken::Memory => return LinkEnd::Memory,
        }
    }
}
