// The scenario command.
ghost use Rattle.std.specs.Prelude.{◌≡◌, ◌≢◌, ◌≤◌, ◌<◌, ◌^◌, ◌⊎◌, List, ℕ, [], length, map, true, false, string_bytes, IfSome, IsSome, Some, None, codes};
ghost use Rattle.std.specs.Io.KnownBytes.{Appends};
ghost use Rattle.sd_base.specs.Causes.{Rose};
ghost use Rattle.sd_base.specs.Written.{AppendsFront};
ghost use Rattle.sd_scenario.specs.Endings as endings;
ghost use Rattle.sd_tools.specs.Endings as tools;
ghost use Rattle.sd_layout.specs.Faults as lines;
ghost use Rattle.sd_world.specs.Endings as played;
ghost use Rattle.sd_world.specs.Transcript as script;

use sd_base::{Memory, ReadEnd, Sink, Source, read_all};
use sd_tools::endings::{
    BAD_LINE, DONE, NO_MEMORY, READ_FAULT, Status, TOO_LONG, USAGE, WRITE_FAULT, end,
};
use sd_world::{JOURNAL_FULL, LIMIT, ending_of};
use std::alloc::Global;

/// Whether the words are the one word `scenario`.
fn is_scenario(words: &[String]) -> bool
    ensures { result ≡ endings.is_scenario (map string_bytes words.now) }
{
    let [word] = words else {
        return false;
    };
    word.as_bytes() == b"scenario".as_slice()
}

#[tactic(auto, using(crate::proofs::Statuses::ending_is_status, sd_world::proofs::LineLaws::transcript_bounded))]
/// Carries out the scenario that the source gives, and writes what it prints to the sink.
pub fn scenario<S: Source, W: Sink>(
    alloc: Global,
    words: &[String],
    source: &mut S,
    sink: &mut W,
) -> Status
    ensures status { endings.IsStatus result }

    // The whole input was taken, it is at most 16 MiB, each line has a form, and the whole transcript was written.
    ensures done { result ≡ DONE → IfSome (S.left source.old) (λ text.
        (S.left source.new ≡ Some [])
        × (length text ≤ LIMIT)
        × (lines.first_bad text ≡ None)
        × ((script.transcript text).is_full ≡ false)
        × Appends (W.held sink.old) (W.held sink.new) (script.transcript text).text) }

    // The words are not the one word `scenario`: nothing is read, and `usage` is written, where the sink takes it.
    ensures usage { result ≡ USAGE → (endings.is_scenario (map string_bytes words.now) ≡ false)
        × Appends (W.held sink.old) (W.held sink.new) tools.usage }
    ensures usage_exactly { endings.is_scenario (map string_bytes words.now) ≡ false → (source.new ≡ source.old)
        × (result ≢ WRITE_FAULT → result ≡ USAGE) }

    // The source failed in this call. Nothing is written.
    ensures read_fault { result ≡ READ_FAULT → Rose (S.faults source.old) (S.faults source.new) × (sink.new ≡ sink.old) }

    // The sink failed in this call, or took nothing of a nonempty piece. A front of the output was written.
    ensures write_fault { result ≡ WRITE_FAULT → Rose (W.faults sink.old) (W.faults sink.new)
        × IfSome (S.left source.old) (λ text. AppendsFront (W.held sink.old) (W.held sink.new)
        (endings.ending_by_words (endings.is_scenario (map string_bytes words.now)) text).output) }

    // The input is at most 16 MiB, line n is the first without a form, and `bad line n` alone is written.
    ensures bad_line { result ≡ BAD_LINE → IfSome (S.left source.old) (λ text.
        (length text ≤ LIMIT)
        × ((n : ℕ) × (lines.first_bad text ≡ Some n) × Appends (W.held sink.old) (W.held sink.new) (tools.bad_line n))) }

    // Whatever the text, its tasks come to rest: the bound on their moves is not used up.
    ensures bounded { (text : List ℕ) → (script.transcript text).is_endless ≡ false }

    // A step of the transcript is refused as full. The transcript is written, whose last line is `journal full n`.
    ensures journal_full { result ≡ JOURNAL_FULL → IfSome (S.left source.old) (λ text.
        (length text ≤ LIMIT)
        × (lines.first_bad text ≡ None)
        × ((script.transcript text).is_full ≡ true)
        × Appends (W.held sink.old) (W.held sink.new) (script.transcript text).text) }

    // Want of memory. Nothing is written.
    ensures no_memory { result ≡ NO_MEMORY → sink.new ≡ sink.old }

    // The input passes 16 MiB, and `too long` is written.
    ensures too_long { result ≡ TOO_LONG → IfSome (S.left source.old) (λ text. LIMIT < length text)
        × Appends (W.held sink.old) (W.held sink.new) tools.too_long }

    // With no fault counted and memory enough, the words and the text decide the status: each cause brings its own.
    ensures exactly { IfSome (S.left source.old) (λ text.
        ¬ (Rose (S.faults source.old) (S.faults source.new)) → ¬ (Rose (W.faults sink.old) (W.faults sink.new)) → result ≢ NO_MEMORY →
        result ≡ (endings.ending_by_words (endings.is_scenario (map string_bytes words.now)) text).status) }

    // Lines that all have forms, within 16 MiB, with no fault counted, are done or end by a full journal.
    ensures complete { IfSome (S.left source.old) (λ text.
        endings.is_scenario (map string_bytes words.now) ≡ true → length text ≤ LIMIT → lines.first_bad text ≡ None →
        ¬ (Rose (S.faults source.old) (S.faults source.new)) → ¬ (Rose (W.faults sink.old) (W.faults sink.new)) → result ≢ NO_MEMORY →
        result ≡ played.status_by_journal (script.transcript text).is_full) }
{
    if !is_scenario(words) {
        return end(sink, USAGE, b"usage\n");
    }
    let text = match read_all(alloc, source, LIMIT) {
        Ok(text) => text,
        Err(ReadEnd::Failed) => return READ_FAULT,
        Err(ReadEnd::TooLong) => return end(sink, TOO_LONG, b"too long\n"),
        Err(ReadEnd::Memory) => return NO_MEMORY,
    };
    match ending_of(alloc, text.as_slice()) {
        Ok(ending) => end(sink, ending.status, ending.output.bytes()),
        Err(Memory) => NO_MEMORY,
    }
}
