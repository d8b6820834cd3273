//! The tools `netgroup` and `innetgr`.
ghost use Rattle.std.specs.Prelude.{◌≡◌, ◌≢◌, ◌⊎◌, ℕ, List, map, string_bytes, codes, IfOk, IfErr, IfSome, Err, None};
ghost use Rattle.std.specs.Io.KnownBytes.{Appends};
ghost use Rattle.sd_base.specs.Causes.{Rose};
ghost use Rattle.sd_base.specs.Written.{AppendsFront};
ghost use Rattle.sd_tools.specs.Endings as endings;
ghost use Rattle.sd_netgroup.specs.Words as forms;
ghost use Rattle.sd_inputs.specs.Inputs.{AreInputs, StopsAt};
ghost use Rattle.sd_netgroup.specs.Endings.{Tells, Ends, IsEnding, OfInputs, OfDirectory, IsPrinted, IsStatus};

use crate::directory::{Answer, look};
use crate::printing::printed;
use crate::words::{Question, question_of};
use sd_base::{Memory, Sink, Source};
use sd_inputs::{Ending, Inputs, Stop, ending_with, read_inputs, stopped};
use sd_tools::endings::end;
use sd_tools::{DONE, NO_MEMORY, READ_FAULT, Status, USAGE, WRITE_FAULT};
use std::alloc::Global;

/// No netgroup has the name.
pub const NO_NETGROUP: Status = 15;

/// A search meets a limit of the directory.
pub const DIRECTORY_LIMIT: Status = 16;

/// What an answer is told by.
fn told(alloc: Global, question: &Question, answer: &Answer) -> Result<Ending, Memory>
    ensures ends { (conf ldif : List ℕ) → Tells conf ldif question.now answer.now → IfOk result (λ ending. Ends question.now conf ldif ending.status ending.output) }
    ensures known { IfOk result (λ ending. IsEnding ending.status) }
{
    match answer {
        Answer::Found(triples) => ending_with(
            alloc,
            DONE,
            &printed(alloc, triples, &question.member)?,
        ),
        Answer::Absent => ending_with(alloc, NO_NETGROUP, b"no netgroup\n"),
        Answer::Limit => ending_with(alloc, DIRECTORY_LIMIT, b"directory limit\n"),
    }
}

/// What the inputs say of a netgroup, once they were read.
#[tactic(auto, using(crate::proofs::Tools::tells))]
fn ending_for(alloc: Global, question: &Question, inputs: &Inputs) -> Result<Ending, Memory>
    ensures ends { (conf ldif : List ℕ) → AreInputs conf ldif inputs.now → IfOk result (λ ending. Ends question.now conf ldif ending.status ending.output) }
    ensures known { IfOk result (λ ending. IsEnding ending.status) }
{
    let answer = look(
        alloc,
        inputs.entries.items(),
        &inputs.config.base,
        &question.name,
    )?;
    told(alloc, question, &answer)
}

/// What the inputs say of a netgroup, the configuration first.
#[tactic(auto, using(crate::proofs::Tools::read_ends, crate::proofs::Tools::no_cause))]
fn answered<S: Source>(
    alloc: Global,
    question: &Question,
    conf: &mut S,
    ldif: &mut S,
) -> Result<Ending, Stop>
    ensures ends { IfOk result (λ ending. IfSome (S.left conf.old) (λ c. IfSome (S.left ldif.old) (λ l. Ends question.now c l ending.status ending.output))) }
    ensures known { IfOk result (λ ending. IsEnding ending.status) }
    ensures stops { IfErr result (λ stop. IfSome (S.left conf.old) (λ c. IfSome (S.left ldif.old) (λ l. StopsAt stop c l))) }
    ensures fault { result ≡ Err Stop.ReadFault → Rose (S.faults conf.old) (S.faults conf.new) ⊎ Rose (S.faults ldif.old) (S.faults ldif.new) }
{
    let inputs = read_inputs(alloc, conf, ldif)?;
    match ending_for(alloc, question, &inputs) {
        Ok(ending) => Ok(ending),
        Err(Memory) => Err(Stop::Memory),
    }
}

/// How the tools end once the words were read.
fn ending_of<S: Source>(
    alloc: Global,
    question: &Question,
    conf: &mut S,
    ldif: &mut S,
) -> Result<Ending, Stop>
    ensures ends { IfOk result (λ ending. IfSome (S.left conf.old) (λ c. IfSome (S.left ldif.old) (λ l. Ends question.now c l ending.status ending.output))) }
    ensures known { IfOk result (λ ending. IsEnding ending.status) }
    ensures stops { IfErr result (λ stop. (stop ≡ Stop.Memory) ⊎ ((stop ≡ Stop.ReadFault) × (Rose (S.faults conf.old) (S.faults conf.new) ⊎ Rose (S.faults ldif.old) (S.faults ldif.new)))) }
{
    match answered(alloc, question, conf, ldif) {
        Ok(ending) => Ok(ending),
        Err(stop) => stopped(alloc, stop),
    }
}

/// The triples of a netgroup, or whether a host, a user and a domain are in it, as the words ask: it is sought in
/// the directory of the entries that `ldif` has, at or under the search base that `conf` has.
pub fn netgroup_tool<S: Source, W: Sink>(
    alloc: Global,
    words: &[String],
    conf: &mut S,
    ldif: &mut S,
    sink: &mut W,
) -> Status
    ensures status { IsStatus result }

    // The triples of the netgroup in the entries of the LDIF read whole were written, or the answer by them.
    ensures done { result ≡ DONE → OfInputs (forms.question_of (map string_bytes words.now)) (S.left conf.old) (S.left ldif.old)
        (λ q c l. (output : List ℕ) × OfDirectory c l (IsPrinted q output) × Appends (W.held sink.old) (W.held sink.new) output) }

    // Each other ending comes by its cause, and what it writes is written; where the sink fails, a front of it.
    ensures ends { IsEnding result → OfInputs (forms.question_of (map string_bytes words.now)) (S.left conf.old) (S.left ldif.old)
        (λ q c l. (output : List ℕ) × Ends q c l result output × Appends (W.held sink.old) (W.held sink.new) output) }
    ensures write_fault { result ≡ WRITE_FAULT → Rose (W.faults sink.old) (W.faults sink.new) × OfInputs (forms.question_of (map string_bytes words.now)) (S.left conf.old) (S.left ldif.old)
        (λ q c l. (status : ℕ) × (output : List ℕ) × Ends q c l status output × AppendsFront (W.held sink.old) (W.held sink.new) output) }

    // The words have no form: nothing is read, and `usage` is written, where the sink takes it.
    ensures usage { result ≡ USAGE → (forms.question_of (map string_bytes words.now) ≡ None) × Appends (W.held sink.old) (W.held sink.new) endings.usage }
    ensures usage_exactly { forms.question_of (map string_bytes words.now) ≡ None → (conf.new ≡ conf.old) × (ldif.new ≡ ldif.old) × (result ≢ WRITE_FAULT → result ≢ NO_MEMORY → result ≡ USAGE) }

    // An input could not be read. Nothing is written.
    ensures read_fault { result ≡ READ_FAULT → (Rose (S.faults conf.old) (S.faults conf.new) ⊎ Rose (S.faults ldif.old) (S.faults ldif.new)) × (sink.new ≡ sink.old) }

    // Want of memory. Nothing is written.
    ensures no_memory { result ≡ NO_MEMORY → sink.new ≡ sink.old }
{
    let question = match question_of(alloc, words) {
        Ok(Some(question)) => question,
        Ok(None) => return end(sink, USAGE, b"usage\n"),
        Err(Memory) => return NO_MEMORY,
    };
    match ending_of(alloc, &question, conf, ldif) {
        Ok(ending) => end(sink, ending.status, ending.output.bytes()),
        Err(Stop::ReadFault) => READ_FAULT,
        Err(_) => NO_MEMORY,
    }
}
