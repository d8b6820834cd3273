// The word `storm`.
ghost use Rattle.std.specs.Prelude.{◌≡◌, ◌≢◌, map, string_bytes};
ghost use Rattle.sd_base.specs.Causes.{Rose};
ghost use Rattle.sd_storm.specs.Words.{requests_of};
ghost use Rattle.sd_serve.specs.Promises.{Loads};
ghost use Rattle.sd_serve.specs.Words.{kind_of, operand_of};

use crate::words::{Kind, operand_of};
use sd_base::Sink;
use sd_clock::Gate;
use sd_storm::{requests_of, storm};
use sd_tools::{NO_MEMORY, Status, USAGE, WRITE_FAULT};
use std::alloc::Global;
use std::sync::Wait;
use std::thread::Threads;

/// Loads sessions with as many requests as words say.
#[tactic(auto, using(crate::proofs::Spoken::has_number))]
pub fn storm_by<R, W, G>(rt: &R, alloc: Global, words: &[String], sink: &mut W, gate: &G) -> Status
where
    R: Threads + Wait + Sync,
    W: Sink,
    G: Gate + Sync,
    requires { kind_of (map string_bytes words.now) ≡ Kind.Storm }
    ensures loads { Loads W.held (requests_of (operand_of (map string_bytes words.now))) sink.old sink.new result }
    ensures known { result ≢ USAGE }
    ensures write_fault { result ≡ WRITE_FAULT → Rose (W.faults sink.old) (W.faults sink.new) }
    ensures no_memory { result ≡ NO_MEMORY → sink.new ≡ sink.old }
{
    let (number, _) = operand_of(words);
    let Some(requests) = requests_of(number.as_bytes()) else {
        unreachable!();
    };
    storm(rt, alloc, requests, sink, gate)
}
