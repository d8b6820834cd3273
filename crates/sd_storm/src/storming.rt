//! The word `storm`.
ghost use Rattle.std.specs.Prelude.{◌≡◌, ◌≢◌, IfOk};
ghost use Rattle.std.specs.Io.KnownBytes.{Appends};
ghost use Rattle.sd_base.specs.Causes.{Rose};
ghost use Rattle.sd_base.specs.Written.{AppendsFront};
ghost use Rattle.sd_storm.specs.Endings.{IsStatus};
ghost use Rattle.sd_storm.specs.Lines.{storm_lines};

use crate::account::account_of;
use crate::asked::users_asked;
use crate::lines::lines_of;
use crate::sessions::asked_at_once;
use sd_base::{Memory, Sink};
use sd_clock::Gate;
use sd_tools::endings::end;
use sd_tools::{DONE, NO_MEMORY, Status, WRITE_FAULT};
use std::alloc::Global;
use std::sync::Wait;
use std::thread::Threads;

/// What is printed once the sessions have ended. Where memory is not wanting they come to what the load says.
#[tactic(auto, unfolding(crate::specs::Lines::storm_lines))]
fn output_of<R, G>(rt: &R, alloc: Global, requests: u32, gate: &G) -> Result<Vec<u8>, Memory>
where
    R: Threads + Wait + Sync,
    G: Gate + Sync,
    ensures { IfOk result (λ text. text.items ≡ storm_lines requests) }
{
    let users = users_asked(alloc, requests)?;
    let expected = account_of(users.as_slice());
    if asked_at_once(rt, alloc, users.as_slice(), gate)? != expected {
        return Err(Memory);
    }
    lines_of(alloc, requests, expected)
}

/// Asks for so many users over eight sessions in threads at one desk, and prints how many were found, how many were not, and how often
/// the directory was asked. All sessions share the gate. A session that does not come to its end counts as want of memory.
pub fn storm<R, W, G>(rt: &R, alloc: Global, requests: u32, sink: &mut W, gate: &G) -> Status
where
    R: Threads + Wait + Sync,
    W: Sink,
    G: Gate + Sync,
    ensures status { IsStatus result }

    // The four lines of so many requests were written.
    ensures done { result ≡ DONE → Appends (W.held sink.old) (W.held sink.new) (storm_lines requests) }

    // The sink failed in this call, or took nothing of a nonempty piece. A front of the lines was written.
    ensures write_fault { result ≡ WRITE_FAULT → Rose (W.faults sink.old) (W.faults sink.new)
        × AppendsFront (W.held sink.old) (W.held sink.new) (storm_lines requests) }

    // Want of memory. Nothing is written.
    ensures no_memory { result ≡ NO_MEMORY → sink.new ≡ sink.old }
{
    match output_of(rt, alloc, requests, gate) {
        Ok(text) => end(sink, DONE, text.as_slice()),
        Err(Memory) => NO_MEMORY,
    }
}
