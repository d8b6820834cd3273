// How a tool ends: its status and what it writes.
ghost use Rattle.std.specs.Prelude.{◌≡◌, ◌≢◌, ◌⊎◌, ◌++◌, IfOk, IsOk, Err};
ghost use Rattle.std.specs.Io.KnownBytes.{Appends};
ghost use Rattle.sd_base.specs.Causes.{Rose};
ghost use Rattle.sd_base.specs.Written.{AppendsFront};
ghost use Rattle.sd_tools.specs.Endings as endings;
ghost use Rattle.sd_tools.specs.Replies as replies;

use crate::links::TalkFault;
use sd_base::{Bytes, Memory, Sink, Text, WriteFault, write_all};
use sd_wire::fields::{push_bytes, push_number};
use std::alloc::Global;

/// The status that a program ends with.
pub type Status = u8;

/// The work was done.
pub const DONE: Status = 0;

/// The words have no form.
pub const USAGE: Status = 2;

/// The source failed.
pub const READ_FAULT: Status = 3;

/// The sink failed, or it took nothing of a nonempty piece.
pub const WRITE_FAULT: Status = 4;

/// A line of the input has no form.
pub const BAD_LINE: Status = 5;

/// Want of memory.
pub const NO_MEMORY: Status = 7;

/// The input passes its limit.
pub const TOO_LONG: Status = 8;

/// The link failed before the last reply was whole.
pub const NO_DAEMON: Status = 13;

/// What came begins no reply.
pub const BAD_REPLY: Status = 14;

/// Writes what a tool writes, and gives its status.
pub fn end<W: Sink>(sink: &mut W, status: Status, output: &[u8]) -> Status
    requires { status ≢ WRITE_FAULT }
    ensures status { (result ≡ status) ⊎ (result ≡ WRITE_FAULT) }
    ensures written { result ≢ WRITE_FAULT → (result ≡ status) × Appends (W.held sink.old) (W.held sink.new) output.now }
    ensures fault { result ≡ WRITE_FAULT → Rose (W.faults sink.old) (W.faults sink.new) × AppendsFront (W.held sink.old) (W.held sink.new) output.now }
{
    match write_all(sink, output) {
        Ok(()) => status,
        Err(WriteFault) => WRITE_FAULT,
    }
}

/// What is written where a line of the input has no form, by its number, counted from 1.
pub fn bad_line(alloc: Global, number: u64) -> Result<Bytes, Memory>
    ensures { IfOk result (λ output. output ≡ endings.bad_line number) }
{
    let mut output = Vec::new(alloc);
    push_bytes(&mut output, b"bad line ")?;
    push_number(alloc, &mut output, number)?;
    push_bytes(&mut output, b"\n")?;
    Bytes::from_bytes(alloc, output.as_slice())
}

/// The texts of replies, each with the end of a line, and an ending.
fn output_of(alloc: Global, texts: &[Text], ending: &[u8]) -> Result<Vec<u8>, Memory>
    ensures { IfOk result (λ output. output.items ≡ replies.lines_of texts.now ++ ending.now) }
{
    let mut output = Vec::new(alloc);
    for text in texts {
        push_bytes(&mut output, text.bytes())?;
        push_bytes(&mut output, b"\n")?;
    }
    push_bytes(&mut output, ending)?;
    Ok(output)
}

/// Prints the texts of replies, and how the talk over the link ended.
fn print_texts<W: Sink>(
    alloc: Global,
    sink: &mut W,
    texts: &[Text],
    status: Status,
    ending: &[u8],
) -> Status
    requires write { status ≢ WRITE_FAULT }
    requires memory { status ≢ NO_MEMORY }
    ensures status { (result ≡ status) ⊎ (result ≡ WRITE_FAULT) ⊎ (result ≡ NO_MEMORY) }
    ensures written { result ≢ WRITE_FAULT → result ≢ NO_MEMORY → (result ≡ status) × Appends (W.held sink.old) (W.held sink.new) (replies.lines_of texts.now ++ ending.now) }
    ensures fault { result ≡ WRITE_FAULT → Rose (W.faults sink.old) (W.faults sink.new) × AppendsFront (W.held sink.old) (W.held sink.new) (replies.lines_of texts.now ++ ending.now) }
    ensures no_memory { result ≡ NO_MEMORY → sink.new ≡ sink.old }
{
    match output_of(alloc, texts, ending) {
        Ok(output) => end(sink, status, output.as_slice()),
        Err(Memory) => NO_MEMORY,
    }
}

/// Prints the texts of replies, and how the talk over the link ended.
pub fn finish<W: Sink>(
    alloc: Global,
    sink: &mut W,
    texts: &[Text],
    talk: Result<(), TalkFault>,
) -> Status
    ensures status { endings.IsTalkStatus result }
    ensures done { result ≡ DONE → IsOk talk × Appends (W.held sink.old) (W.held sink.new) (replies.lines_of texts.now) }
    ensures no_daemon { result ≡ NO_DAEMON → (talk ≡ Err TalkFault.Link) × Appends (W.held sink.old) (W.held sink.new) (replies.lines_of texts.now ++ endings.no_daemon) }
    ensures bad_reply { result ≡ BAD_REPLY → (talk ≡ Err TalkFault.BadReply) × Appends (W.held sink.old) (W.held sink.new) (replies.lines_of texts.now ++ endings.bad_reply) }
    ensures write_fault { result ≡ WRITE_FAULT → Rose (W.faults sink.old) (W.faults sink.new) × AppendsFront (W.held sink.old) (W.held sink.new) (replies.lines_of texts.now ++ endings.ending_of talk) }
    ensures no_memory { result ≡ NO_MEMORY → sink.new ≡ sink.old }
{
    match talk {
        Ok(()) => print_texts(alloc, sink, texts, DONE, b""),
        Err(TalkFault::Link) => print_texts(alloc, sink, texts, NO_DAEMON, b"no daemon\n"),
        Err(TalkFault::BadReply) => print_texts(alloc, sink, texts, BAD_REPLY, b"bad reply\n"),
        Err(TalkFault::Memory) => NO_MEMORY,
    }
}
