// The lines of a row: who makes which call.
ghost use Rattle.std.specs.Prelude.{IfOk, IfSome};
ghost use Rattle.sd_rules.specs.Steps.{Daemon};
ghost use Rattle.sd_desk.specs.Steps.{MayStep};

use sd_base::{Memory, Text};
use sd_pieces::{cut, read_number};
use sd_rules::{Answered, Event, Key};
use std::alloc::Global;

/// Which of two seats makes a call.
#[derive(Clone, Copy)]
pub enum Who {
    First,
    Second,
}

/// A call on a desk.
#[derive(Clone, Copy)]
pub enum Call<'a> {
    /// A step of the event that these words name.
    Step(&'a [u8]),
    TryStep(&'a [u8]),
    Collect(u64),
    Rest,
    Forget,
    Kept,
    Stopping,
    /// The words are no call's.
    None,
}

/// What stands in front of the first space, and what stands behind it.
fn cut_word(words: &[u8]) -> (&[u8], &[u8]) {
    let (word, rest) = cut(b' ', words);
    (word, rest.unwrap_or(b""))
}

fn number(word: &[u8]) -> u64 {
    u64::from(read_number(word).unwrap_or(0))
}

fn call_of(words: &[u8]) -> Call<'_> {
    let (word, rest) = cut_word(words);
    match word {
        b"step" => Call::Step(rest),
        b"try_step" => Call::TryStep(rest),
        b"collect" => Call::Collect(number(rest)),
        b"rest" => Call::Rest,
        b"forget" => Call::Forget,
        b"kept" => Call::Kept,
        b"stopping" => Call::Stopping,
        _ => Call::None,
    }
}

/// Whose call a line has, and which: it is the first seat's where it does not begin with `B`.
pub fn read_line(line: &[u8]) -> (Who, Call<'_>) {
    let (who, rest) = cut_word(line);
    match who {
        b"B" => (Who::Second, call_of(rest)),
        _ => (Who::First, call_of(rest)),
    }
}

/// The event of a number alone; `answer` says that the directory did not find what the request asks for.
fn numbered(word: &[u8], number: u64) -> Option<Event>
    ensures { IfSome result (λ event. (seen : Daemon) → MayStep seen event) }
{
    match word {
        b"pick" => Some(Event::Pick(number)),
        b"answer" => Some(Event::Answer(number, Answered::Absent)),
        b"abandon" => Some(Event::Abandon(number)),
        b"collect" => Some(Event::Collect(number)),
        b"leave" => Some(Event::Leave(number)),
        b"stop" => Some(Event::Stop),
        _ => None,
    }
}

/// The event that words name. Any seat may hand it to its desk.
pub fn event_of(alloc: Global, words: &[u8]) -> Result<Option<Event>, Memory>
    ensures { IfOk result (λ found. IfSome found (λ event. (seen : Daemon) → MayStep seen event)) }
{
    let (word, rest) = cut_word(words);
    match word {
        b"ask" => Ok(Some(Event::Ask(Key::User(Text::from_bytes(alloc, rest)?)))),
        _ => Ok(numbered(word, number(rest))),
    }
}
