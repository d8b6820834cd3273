// Which invalidations a later reply can look at.
ghost use Rattle.std.specs.Prelude.{◌≡◌, reverse, None};
ghost use Rattle.std.specs.Option.{option_map};
ghost use Rattle.sd_rules.specs.declared.replies.Entry.{Entry};
ghost use Rattle.sd_rules.specs.Needed as needed;
ghost use Rattle.sd_journal.specs.Seen as seen;

use crate::answers::is_newest_answer;
use crate::readings::is_number;
use crate::requests::is_after_asking;
use sd_journal::keys::covers;
use sd_journal::past::{Standing, answer_in};
use sd_rules::{Entry, Event, What};

/// Whether two invalidations name the same.
fn same_what(a: &What, b: &What) -> bool
    ensures { result ≡ needed.same_what a.now b.now }
{
    a == b
}

fn is_void_of(what: &What, event: &Event) -> bool
    ensures { result ≡ needed.is_void_of what.now event.now }
{
    match event {
        Event::Void(other) => same_what(other, what),
        _ => false,
    }
}

/// The number of the last invalidation that names the same.
fn last_void(entries: &[Entry], what: &What) -> Option<u64>
    ensures { result ≡ needed.last_where (λ (x : Entry). needed.is_void_of what.now x.event) (reverse entries.now) }
{
    for place in (0..entries.len()).rev() {
        let entry = &entries[place];
        if is_void_of(what, &entry.event) {
            return Some(entry.number);
        }
    }
    None
}

pub fn is_last_void(all: &[Entry], what: &What, entry: &Entry) -> bool
    ensures { result ≡ needed.is_last_void (reverse all.now) what.now entry.now }
{
    is_void_of(what, &entry.event) && is_number(entry.number, last_void(all, what))
}

/// Whether an invalidation covers an answer, where there is one.
pub fn is_covered(what: &What, answer: Option<Standing<'_>>) -> bool
    ensures { result ≡ needed.is_covered what.now (option_map seen.standing answer.entry) }
{
    match answer {
        Some(a) => covers(what, a.own, a.answered),
        None => false,
    }
}

/// Whether an invalidation covers an answer before it that is the newest of a key.
fn covers_newest(all: &[Entry], what: &What, before: &[Entry]) -> bool
    ensures { result ≡ needed.covers_newest (reverse all.now) what.now (reverse before.now) }
{
    for place in (0..before.len()).rev() {
        let (earlier, entry) = (&before[..place], &before[place]);
        if is_newest_answer(all, earlier, entry) && is_covered(what, answer_in(earlier, entry)) {
            return true;
        }
    }
    false
}

/// Whether an entry is the last invalidation that names the same, and covers the newest answer of a key or stands after the
/// asking of an open request; `before` are the entries before it.
pub fn is_void_needed(all: &[Entry], before: &[Entry], entry: &Entry) -> bool
    ensures { result ≡ needed.is_void_needed (reverse all.now) (reverse before.now) entry.now entry.now.event }
{
    match &entry.event {
        Event::Void(what) => {
            is_last_void(all, what, entry)
                && (covers_newest(all, what, before) || is_after_asking(all, entry.number))
        }
        _ => false,
    }
}
