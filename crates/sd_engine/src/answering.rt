//! Writing what a client is told.
ghost use Rattle.std.specs.Prelude.{◌≡◌, ◌≤◌, IfOk};
ghost use Rattle.sd_base.specs.Causes.{Rose};
ghost use Rattle.sd_engine.specs.Answering.{Answers, reply_of};

use sd_base::{Memory, Sink, Text, WriteFault, write_all};
use sd_rules::Said;
use sd_wire::write_reply;
use std::alloc::Global;

/// What came of an answer.
#[derive(Clone, Copy, Debug, PartialEq, Eq)]
pub enum Answered {
    Whole,
    /// The sink failed, or it took nothing of a nonempty piece.
    Fault,
    /// Nothing was written.
    Memory,
}

/// How many bytes most replies have at most.
const USUAL_ROOM: usize = 256;

/// The reply frame of what a client is told.
#[tactic(auto, unfolding(crate::specs::Answering::reply_of))]
fn reply_frame(alloc: Global, pwfield: &Text, said: &Said) -> Result<Vec<u8>, Memory>
    ensures { IfOk result (λ frame. frame.items ≡ reply_of pwfield.now said.now) }
{
    let mut frame = Vec::with_capacity(alloc, USUAL_ROOM)?;
    write_reply(alloc, &mut frame, said, pwfield)?;
    Ok(frame)
}

/// Writes the reply frame of what a client is told.
pub fn answer<W: Sink>(alloc: Global, sink: &mut W, pwfield: &Text, said: &Said) -> Answered
    ensures answers { Answers result (reply_of pwfield.now said.now) (W.held sink.old) (W.held sink.new) (Rose (W.faults sink.old) (W.faults sink.new)) }
    ensures later { W.faults sink.old ≤ W.faults sink.new }
{
    let Ok(frame) = reply_frame(alloc, pwfield, said) else {
        return Answered::Memory;
    };
    match write_all(sink, &frame) {
        Ok(()) => Answered::Whole,
        Err(WriteFault) => Answered::Fault,
    }
}
