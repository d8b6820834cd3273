//! The tool `sudo`.
ghost use Rattle.std.specs.Prelude.{◌≡◌, ◌≢◌, ◌⊎◌, ℕ, List, map, string_bytes, codes, IfOk, IfErr, IfSome, Err, None};
ghost use Rattle.std.specs.Io.KnownBytes.{Appends};
ghost use Rattle.sd_base.specs.Causes.{Rose};
ghost use Rattle.sd_base.specs.Written.{AppendsFront};
ghost use Rattle.sd_tools.specs.Endings as endings;
ghost use Rattle.sd_inputs.specs.Inputs.{AreInputs, StopsAt};
ghost use Rattle.sd_sudo.specs.Words as forms;
ghost use Rattle.sd_sudo.specs.Endings.{Tells, Ends, IsEnding, OfInputs, OfDirectory, ArePrinted, IsStatus};

use crate::answer::{Answer, look};
use crate::lookups::Halt;
use crate::printing::printed;
use crate::words::user_asked;
use sd_base::{Memory, Sink, Source, Text};
use sd_inputs::{Ending, Inputs, Stop, ending_with, read_inputs, stopped};
use sd_netgroup::DIRECTORY_LIMIT;
use sd_tools::endings::end;
use sd_tools::{DONE, NO_MEMORY, READ_FAULT, Status, USAGE, WRITE_FAULT};
use std::alloc::Global;

/// Nobody has the name, or more than one, or the configuration keeps it out.
pub const NO_USER: Status = 17;

/// What an answer is told by.
fn told(alloc: Global, answer: Result<Answer, Halt>) -> Result<Ending, Memory>
    ensures ends { (conf ldif user : List ℕ) → Tells conf ldif user answer → IfOk result (λ ending. Ends user conf ldif ending.status ending.output) }
    ensures known { IfOk result (λ ending. IsEnding ending.status) }
{
    match answer {
        Ok(Answer::Rules(roles)) => ending_with(alloc, DONE, &printed(alloc, &roles)?),
        Ok(Answer::NoUser) => ending_with(alloc, NO_USER, b"no user\n"),
        Err(Halt::Limit) => ending_with(alloc, DIRECTORY_LIMIT, b"directory limit\n"),
        Err(Halt::Memory) => Err(Memory),
    }
}

/// What the inputs say of a user's rules, once they were read.
fn ending_for(alloc: Global, user: &Text, inputs: &Inputs) -> Result<Ending, Memory>
    ensures ends { (conf ldif : List ℕ) → AreInputs conf ldif inputs.now → IfOk result (λ ending. Ends user.now conf ldif ending.status ending.output) }
    ensures known { IfOk result (λ ending. IsEnding ending.status) }
{
    let answer = look(alloc, &inputs.config, inputs.entries.items(), user);
    told(alloc, answer)
}

#[tactic(auto, using(crate::proofs::Ends::read_ends, crate::proofs::Ends::no_cause))]
/// What the inputs say of a user's rules, the configuration first.
fn answered<S: Source>(
    alloc: Global,
    user: &Text,
    conf: &mut S,
    ldif: &mut S,
) -> Result<Ending, Stop>
    ensures ends { IfOk result (λ ending. IfSome (S.left conf.old) (λ c. IfSome (S.left ldif.old) (λ l. Ends user.now c l ending.status ending.output))) }
    ensures known { IfOk result (λ ending. IsEnding ending.status) }
    ensures stops { IfErr result (λ stop. IfSome (S.left conf.old) (λ c. IfSome (S.left ldif.old) (λ l. StopsAt stop c l))) }
    ensures fault { result ≡ Err Stop.ReadFault → Rose (S.faults conf.old) (S.faults conf.new) ⊎ Rose (S.faults ldif.old) (S.faults ldif.new) }
{
    let inputs = read_inputs(alloc, conf, ldif)?;
    match ending_for(alloc, user, &inputs) {
        Ok(ending) => Ok(ending),
        Err(Memory) => Err(Stop::Memory),
    }
}

/// How the tool ends once the words were read.
fn ending_of<S: Source>(
    alloc: Global,
    user: &Text,
    conf: &mut S,
    ldif: &mut S,
) -> Result<Ending, Stop>
    ensures ends { IfOk result (λ ending. IfSome (S.left conf.old) (λ c. IfSome (S.left ldif.old) (λ l. Ends user.now c l ending.status ending.output))) }
    ensures known { IfOk result (λ ending. IsEnding ending.status) }
    ensures stops { IfErr result (λ stop. (stop ≡ Stop.Memory) ⊎ ((stop ≡ Stop.ReadFault) × (Rose (S.faults conf.old) (S.faults conf.new) ⊎ Rose (S.faults ldif.old) (S.faults ldif.new)))) }
{
    match answered(alloc, user, conf, ldif) {
        Ok(ending) => Ok(ending),
        Err(stop) => stopped(alloc, stop),
    }
}

/// The sudo rules that apply to a user, as the words ask: those of the directory of the entries that `ldif` has, at or
/// under the search base that `conf` has. What the rules hand to sudo is printed unread.
pub fn sudo_tool<S: Source, W: Sink>(
    alloc: Global,
    words: &[String],
    conf: &mut S,
    ldif: &mut S,
    sink: &mut W,
) -> Status
    ensures status { IsStatus result }

    // The rules that apply to the user, by the entries of the LDIF read whole, were written.
    ensures done { result ≡ DONE → OfInputs (forms.user_asked (map string_bytes words.now)) (S.left conf.old) (S.left ldif.old)
        (λ u c l. (output : List ℕ) × OfDirectory c l (ArePrinted u output) × Appends (W.held sink.old) (W.held sink.new) output) }

    // Each other ending comes by its cause, and what it writes is written; where the sink fails, a front of it.
    ensures ends { IsEnding result → OfInputs (forms.user_asked (map string_bytes words.now)) (S.left conf.old) (S.left ldif.old)
        (λ u c l. (output : List ℕ) × Ends u c l result output × Appends (W.held sink.old) (W.held sink.new) output) }
    ensures write_fault { result ≡ WRITE_FAULT → Rose (W.faults sink.old) (W.faults sink.new) × OfInputs (forms.user_asked (map string_bytes words.now)) (S.left conf.old) (S.left ldif.old)
        (λ u c l. (status : ℕ) × (output : List ℕ) × Ends u c l status output × AppendsFront (W.held sink.old) (W.held sink.new) output) }

    // The words have no form: nothing is read, and `usage` is written, where the sink takes it.
    ensures usage { result ≡ USAGE → (forms.user_asked (map string_bytes words.now) ≡ None) × Appends (W.held sink.old) (W.held sink.new) endings.usage }
    ensures usage_exactly { forms.user_asked (map string_bytes words.now) ≡ None → (conf.new ≡ conf.old) × (ldif.new ≡ ldif.old) × (result ≢ WRITE_FAULT → result ≢ NO_MEMORY → result ≡ USAGE) }

    // An input could not be read. Nothing is written.
    ensures read_fault { result ≡ READ_FAULT → (Rose (S.faults conf.old) (S.faults conf.new) ⊎ Rose (S.faults ldif.old) (S.faults ldif.new)) × (sink.new ≡ sink.old) }

    // Want of memory. Nothing is written.
    ensures no_memory { result ≡ NO_MEMORY → sink.new ≡ sink.old }
{
    let user = match user_asked(alloc, words) {
        Ok(Some(user)) => user,
        Ok(None) => return end(sink, USAGE, b"usage\n"),
        Err(Memory) => return NO_MEMORY,
    };
    match ending_of(alloc, &user, conf, ldif) {
        Ok(ending) => end(sink, ending.status, ending.output.bytes()),
        Err(Stop::ReadFault) => READ_FAULT,
        Err(_) => NO_MEMORY,
    }
}
