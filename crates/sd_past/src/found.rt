// What the answer of a number found: by its entry, or by what an index keeps of it.
ghost use Rattle.std.specs.Prelude.{◌≡◌, true, reverse};
ghost use Rattle.std.specs.Option.{option_copied};
ghost use Rattle.sd_rules.specs.Steps as steps;
ghost use Rattle.sd_voids.specs.Entries.{falls};
ghost use Rattle.sd_index.specs.Table.{Indexes};

use sd_base::Shared;
use sd_index::Index;
use sd_rules::{Answered, Entry, Event, Key, Record, Row};
use sd_voids::entries::event_at;

fn record_in_answer(answered: &Answered) -> Option<&Shared<Record>>
    ensures { option_copied result ≡ steps.record_in_answer answered.now }
{
    match answered {
        Answered::Found(found) => Some(found),
        Answered::Absent => None,
    }
}

fn record_of(event: &Event) -> Option<&Shared<Record>>
    ensures { option_copied result ≡ steps.record_of event.now }
{
    match event {
        Event::Answer(_, answered) => record_in_answer(answered),
        Event::Kept(Row::Answer(_, _, _, answered, _)) => record_in_answer(answered),
        _ => None,
    }
}

/// The record that the entry of a number holds.
pub fn record_at(entries: &[Entry], number: u64) -> Option<&Shared<Record>>
    requires { falls (reverse entries.now) ≡ true }
    ensures { option_copied result ≡ steps.record_in (steps.event_at (reverse entries.now) number) }
{
    match event_at(entries, number) {
        Some(event) => record_of(event),
        None => None,
    }
}

/// The record that the entry of a number holds. Where it is the newest answer of the key, the index has it and no entry is read.
pub fn record_by<'a>(
    entries: &'a [Entry],
    index: &'a Index,
    key: Option<&Key>,
    number: u64,
) -> Option<&'a Shared<Record>>
    requires falls { falls (reverse entries.now) ≡ true }
    requires indexes { Indexes (reverse entries.now) index.now }
    ensures { option_copied result ≡ steps.record_in (steps.event_at (reverse entries.now) number) }
{
    if let Some(key) = key {
        if let Some(kept) = index.newest(key) {
            if kept.number == number {
                return record_in_answer(&kept.answered);
            }
        }
    }
    record_at(entries, number)
}
