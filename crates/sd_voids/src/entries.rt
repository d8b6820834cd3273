// The entry of a number, tried where it stands if no number is missing, and sought by halves, since the numbers of a journal rise.
ghost use Rattle.std.specs.Prelude.{◌≡◌, ◌<◌, ◌≤◌, true, length, reverse, Some, IfSome};
ghost use Rattle.std.specs.Option.{option_copied};
ghost use Rattle.sd_rules.specs.Past as past;
ghost use Rattle.sd_rules.specs.Steps as steps;
ghost use Rattle.sd_voids.specs.Entries as found;

use sd_rules::{Entry, Event, Key};

/// The half of some entries in which the entry of a number stands, if it is among them.
fn half(part: &[Entry], number: u64) -> &[Entry]
    requires many { 1 < length part.now }
    requires falls { found.falls (reverse part.now) ≡ true }
    ensures searches { found.Searches result.now part.now number }
    ensures shorter { length result.now < length part.now }
{
    let (older, newer) = part.split_at(part.len() / 2);
    let first = &newer[0];
    if first.number <= number { newer } else { older }
}

#[tactic(auto, using(crate::proofs::Halves::of_one))]
fn only(part: &[Entry], number: u64) -> Option<&Entry>
    requires { length part.now ≤ 1 }
    ensures { option_copied result ≡ found.entry_at (reverse part.now) number }
{
    match part {
        [] => None,
        [entry, ..] => {
            if entry.number == number {
                Some(entry)
            } else {
                None
            }
        }
    }
}

#[tactic(auto, using(crate::proofs::Halves::searches_on, crate::proofs::Halves::searches_all))]
fn entry_by_halves(entries: &[Entry], number: u64) -> Option<&Entry>
    requires { found.falls (reverse entries.now) ≡ true }
    ensures { option_copied result ≡ found.entry_at (reverse entries.now) number }
{
    let mut part = entries;
    while part.len() > 1 {
        part = half(part, number);
    }
    only(part, number)
}

/// The entry of a number, if it stands at this place.
#[tactic(auto, using(crate::proofs::Halves::found_at))]
fn entry_if_at(entries: &[Entry], place: u64, number: u64) -> Option<&Entry>
    requires { found.falls (reverse entries.now) ≡ true }
    ensures { IfSome (option_copied result) (λ entry. found.entry_at (reverse entries.now) number ≡ Some entry) }
{
    let place = place as usize;
    if place >= entries.len() {
        return None;
    }
    let entry = &entries[place];
    if entry.number == number {
        Some(entry)
    } else {
        None
    }
}

/// The entry of a number in a list whose numbers rise. It is tried first where it stands if no number behind the first one is
/// missing, or none before the last one: so a journal of which nothing was forgotten is not searched, nor what came since.
pub fn entry_of(entries: &[Entry], number: u64) -> Option<&Entry>
    requires { found.falls (reverse entries.now) ≡ true }
    ensures { option_copied result ≡ found.entry_at (reverse entries.now) number }
{
    let ([first, ..], [.., last]) = (entries, entries) else {
        return entry_by_halves(entries, number);
    };
    if let Some(entry) = entry_if_at(entries, number.saturating_sub(first.number), number) {
        return Some(entry);
    }
    let later = last.number.saturating_sub(number).saturating_add(1);
    let place = (entries.len() as u64).saturating_sub(later);
    if let Some(entry) = entry_if_at(entries, place, number) {
        return Some(entry);
    }
    entry_by_halves(entries, number)
}

/// The event of the entry of a number.
#[tactic(auto, using(crate::proofs::FallLaws::event_at_is))]
pub fn event_at(entries: &[Entry], number: u64) -> Option<&Event>
    requires { found.falls (reverse entries.now) ≡ true }
    ensures { option_copied result ≡ steps.event_at (reverse entries.now) number }
{
    match entry_of(entries, number) {
        Some(entry) => Some(&entry.event),
        None => None,
    }
}

/// The key that an event asks for.
fn key_asked(event: &Event) -> Option<&Key>
    ensures { option_copied result ≡ past.key_asked event.now }
{
    match event {
        Event::Ask(key) => Some(key),
        _ => None,
    }
}

/// The key of a request.
#[tactic(auto, using(crate::proofs::FallLaws::key_of_is))]
pub fn key_of(entries: &[Entry], request: u64) -> Option<&Key>
    requires { found.falls (reverse entries.now) ≡ true }
    ensures { option_copied result ≡ past.key_of (reverse entries.now) request }
{
    match entry_of(entries, request) {
        Some(entry) => key_asked(&entry.event),
        None => None,
    }
}

fn fall_from(mut next: u64, entries: &[Entry]) -> bool
    ensures { result ≡ found.numbers_fall next (reverse entries.now) }
{
    for place in (0..entries.len()).rev() {
        let number = entries[place].number;
        if number >= next {
            return false;
        }
        next = number;
    }
    true
}

/// Whether the numbers of a list rise, and stay below the next one.
pub fn numbers_fall(next: u64, entries: &[Entry]) -> bool
    ensures exact { result ≡ found.numbers_fall next (reverse entries.now) }
    ensures rise { result ≡ true → found.falls (reverse entries.now) ≡ true }
{
    fall_from(next, entries)
}
