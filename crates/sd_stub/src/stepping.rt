//! Answering the messages that bytes begin with.
ghost use Rattle.std.specs.Prelude.{◌≡◌, ℕ, ◌≤◌, length};
ghost use Rattle.sd_base.specs.Causes.{Rose};
ghost use Rattle.sd_ldap.specs.Values.{message_value, operation_value};
ghost use Rattle.sd_ldap.specs.MessageReading.{whole, decode_of};
ghost use Rattle.sd_stub.specs.Saying.{is_unbind};
ghost use Rattle.sd_stub.specs.Passing.{Goes, PassesTo};

use crate::directory::Directory;
use sd_base::{Sink, WriteFault, write_all};
use sd_ldap::{Decoded, Message, Operation, decode};

/// Why answering stops.
#[derive(Clone, Copy, PartialEq, Eq)]
pub enum Stop {
    /// Less than a whole message is there.
    Waits,
    Unbound,
    /// What is there is no message: the place of the first wrong element.
    Bad(u64),
    WriteFault,
    Memory,
}

/// What came of the message in front.
#[derive(Clone, Copy, PartialEq, Eq)]
pub enum Front {
    /// It was answered; the number of its bytes.
    Passed(u64),
    Stopped(Stop),
}

fn is_unbind(operation: &Operation) -> bool
    ensures { result ≡ is_unbind (operation_value operation.now) }
{
    matches!(operation, Operation::Unbind)
}

/// Answers a message of so many bytes.
fn answer_message<W: Sink>(
    directory: &Directory,
    message: &Message,
    used: u64,
    sink: &mut W,
) -> Front
    ensures goes { Goes directory.now result (whole (message_value message.now) used) (W.held sink.old) (W.held sink.new) (Rose (W.faults sink.old) (W.faults sink.new)) }
    ensures later { W.faults sink.old ≤ W.faults sink.new }
{
    if is_unbind(&message.operation) {
        return Front::Stopped(Stop::Unbound);
    }
    let Ok(bytes) = directory.replies(message) else {
        return Front::Stopped(Stop::Memory);
    };
    match write_all(sink, &bytes) {
        Ok(()) => Front::Passed(used),
        Err(WriteFault) => Front::Stopped(Stop::WriteFault),
    }
}

/// Answers the message in front.
fn answer_front<W: Sink>(directory: &Directory, bytes: &[u8], sink: &mut W) -> Front
    ensures goes { Goes directory.now result (decode_of bytes.now) (W.held sink.old) (W.held sink.new) (Rose (W.faults sink.old) (W.faults sink.new)) }
    ensures later { W.faults sink.old ≤ W.faults sink.new }
{
    match decode(directory.allocator(), bytes) {
        Decoded::Whole(message, used) => answer_message(directory, &message, used, sink),
        Decoded::More => Front::Stopped(Stop::Waits),
        Decoded::Bad(at) => Front::Stopped(Stop::Bad(at)),
        Decoded::Memory => Front::Stopped(Stop::Memory),
    }
}

/// Answers the messages in front, up to where it has to stop; how many bytes they take.
pub fn answer_all<W: Sink>(directory: &Directory, bytes: &[u8], sink: &mut W) -> (usize, Stop)
    ensures passes { PassesTo directory.now bytes.now result.0 result.1 (W.held sink.old) (W.held sink.new) (Rose (W.faults sink.old) (W.faults sink.new)) }
    ensures within { result.0 ≤ length bytes.now }
    ensures later { W.faults sink.old ≤ W.faults sink.new }
{
    let mut used = 0;
    loop {
        let (_, rest) = bytes.split_at(used);
        match answer_front(directory, rest, sink) {
            Front::Passed(count) => used += count as usize,
            Front::Stopped(stop) => return (used, stop),
        }
    }
}
