// Which entries a later reply can look at for their own sake.
ghost use Rattle.std.specs.Prelude.{◌≡◌, ◌<◌, List, true, length, reverse, take, slice_index_or, IfOk, None};
ghost use Rattle.sd_rules.specs.declared.replies.Entry.{Entry};
ghost use Rattle.sd_rules.specs.Needed as needed;
ghost use Rattle.sd_needs.specs.Looks as looks;
ghost use Rattle.sd_findings.specs.Briefs as briefs;
ghost use Rattle.sd_findings.specs.Findings as findings;
ghost use Rattle.sd_sieve.specs.Readings as readings;
ghost use Rattle.sd_findings.specs.Whole as held;

use crate::reads::{Looked, none_looked, note_looked};
use crate::voids::is_void_needed;
use sd_base::Memory;
use sd_findings::briefs::brief_at;
use sd_findings::findings::Findings;
use sd_findings::marks::is_newest_at;
use sd_findings::servers::is_fall_needed;
use sd_findings::users::{is_login_needed, is_wrong_needed};
use sd_findings::whole::{Whole, is_open, waits_for};
use sd_needs::needs::is_stop;
use sd_needs::readings::{is_number, user_guessed, user_logged_in};
use sd_needs::requests;
use sd_needs::servers::is_online;
use sd_rules::{Entry, Event};
use std::alloc::Global;

/// The request or attempt that an entry may serve while it is open.
fn served(event: &Event) -> Option<u64>
    ensures { result ≡ readings.served event.now }
{
    match event {
        Event::Answer(request, _) | Event::Pick(request) | Event::Fall(request, _, _) => Some(
            *request,
        ),
        _ => None,
    }
}

/// Whether an open request or attempt still looks at an entry that is not its leading one.
#[tactic(auto, using(crate::proofs::ServeLaws::serves_none, crate::proofs::ServeLaws::serves_shut))]
fn serves_open(whole: Whole<'_>, entry: &Entry) -> bool
    requires { held.IsIndexed whole }
    ensures { result ≡ needed.serves_open (held.past_of whole.entry) entry.now entry.now.event }
{
    match served(&entry.event) {
        Some(request) => is_open(whole, request) && requests::serves_open(whole.entries, entry),
        None => false,
    }
}

fn is_last(all: &[Entry], entry: &Entry) -> bool
    ensures { result ≡ needed.is_last (reverse all.now) entry.now }
{
    match all {
        [] => false,
        [.., last] => last.number == entry.number,
    }
}

fn is_last_stop(found: &Findings, entry: &Entry) -> bool
    ensures { (all : List Entry) → findings.IsFound all found.now → result ≡ needed.is_last_stop (reverse all) entry.now }
{
    is_stop(&entry.event) && is_number(entry.number, found.walk.notes.stop)
}

fn is_of_end(all: &[Entry], found: &Findings, entry: &Entry) -> bool
    requires { findings.IsFound all.now found.now }
    ensures { result ≡ looks.is_of_end (reverse all.now) entry.now }
{
    is_last_stop(found, entry) || is_last(all, entry)
}

/// Whether a later verdict on a login can look at the entry at a place, or it is of the end.
fn is_of_logins(whole: Whole<'_>, found: &Findings, place: usize, entry: &Entry) -> bool
    requires index { held.IsIndexed whole }
    requires found { findings.IsFound whole.entries.now found.now }
    requires within { place < length whole.entries.now }
    requires at { entry.now ≡ slice_index_or whole.entries.now place entry.now }
    ensures { result ≡ looks.is_of_logins (held.past_of whole.entry) (reverse (take place whole.entry.entries.now)) entry.now }
{
    let all = whole.entries;
    let user = user_logged_in(&all[..place], entry);
    if is_login_needed(&found.walk.outline.users, entry.number, user) {
        return true;
    }
    is_wrong_needed(&found.walk.outline.users, entry, user_guessed(&entry.event))
        || is_of_end(all, found, entry)
}

fn has(numbers: &[u64], number: u64) -> bool
    ensures { result ≡ findings.is_among number numbers.now }
{
    numbers.iter().any(|n| *n == number)
}

/// Whether some ticket that waits will look at the entry of a number.
fn serves_waiting(found: &Findings, number: u64) -> bool
    ensures { (all : List Entry) → findings.IsFound all found.now → result ≡ needed.serves_waiting (reverse all) number (reverse all) }
{
    has(found.walk.notes.awaited.as_slice(), number)
}

fn is_of_clients(whole: Whole<'_>, found: &Findings, place: usize, entry: &Entry) -> bool
    requires index { held.IsIndexed whole }
    requires found { findings.IsFound whole.entries.now found.now }
    requires within { place < length whole.entries.now }
    requires at { entry.now ≡ slice_index_or whole.entries.now place entry.now }
    ensures { result ≡ looks.is_of_clients (held.past_of whole.entry) (reverse (take place whole.entry.entries.now)) entry.now }
{
    waits_for(whole, entry.number).is_some()
        || serves_waiting(found, entry.number)
        || is_of_logins(whole, found, place, entry)
}

fn is_last_online(found: &Findings, entry: &Entry) -> bool
    ensures { (all : List Entry) → findings.IsFound all found.now → result ≡ needed.is_last_online (reverse all) entry.now }
{
    is_online(&entry.event) && is_number(entry.number, found.walk.notes.online)
}

fn is_of_servers(whole: Whole<'_>, found: &Findings, place: usize, entry: &Entry) -> bool
    requires index { held.IsIndexed whole }
    requires found { findings.IsFound whole.entries.now found.now }
    requires within { place < length whole.entries.now }
    requires at { entry.now ≡ slice_index_or whole.entries.now place entry.now }
    ensures { result ≡ looks.is_of_servers (held.past_of whole.entry) (reverse (take place whole.entry.entries.now)) entry.now }
{
    is_fall_needed(&found.walk.outline.falls, entry)
        || is_last_online(found, entry)
        || is_number(entry.number, found.walk.notes.outage)
        || is_of_clients(whole, found, place, entry)
}

/// Whether the entry at a place is looked at for its own sake.
fn is_looked_at(whole: Whole<'_>, found: &Findings, place: usize, entry: &Entry) -> bool
    requires index { held.IsIndexed whole }
    requires found { findings.IsFound whole.entries.now found.now }
    requires within { place < length whole.entries.now }
    requires at { entry.now ≡ slice_index_or whole.entries.now place entry.now }
    ensures { result ≡ needed.is_looked_at (held.past_of whole.entry) (reverse (take place whole.entry.entries.now)) entry.now }
{
    let all = whole.entries;
    is_newest_at(all, found.walk.outline.newest.as_slice(), place, entry)
        || is_void_needed(all, found, place, entry)
        || is_open(whole, entry.number)
        || serves_open(whole, entry)
        || is_of_servers(whole, found, place, entry)
}

fn is_last_number(all: &[Entry], number: u64) -> bool
    ensures { result ≡ needed.is_number number (needed.last_where (λ (x : Entry). true) (reverse all.now)) }
{
    match all {
        [] => false,
        [.., last] => last.number == number,
    }
}

/// Whether the entry of a number is looked at for its number.
fn is_number_looked_at(whole: Whole<'_>, found: &Findings, number: u64) -> bool
    requires index { held.IsIndexed whole }
    requires found { findings.IsFound whole.entries.now found.now }
    ensures { result ≡ briefs.is_number_looked_at (held.past_of whole.entry) number }
{
    is_open(whole, number)
        || is_number(number, found.walk.notes.outage)
        || waits_for(whole, number).is_some()
        || serves_waiting(found, number)
        || is_last_number(whole.entries, number)
}

/// Whether the entry at a place is looked at. A plain one is not read for it.
#[tactic(auto, using(crate::proofs::BriefLaws::plain_looked))]
fn is_found_looked_at(whole: Whole<'_>, found: &Findings, place: usize, entry: &Entry) -> bool
    requires index { held.IsIndexed whole }
    requires found { findings.IsFound whole.entries.now found.now }
    requires within { place < length whole.entries.now }
    requires at { entry.now ≡ slice_index_or whole.entries.now place entry.now }
    ensures { result ≡ needed.is_looked_at (held.past_of whole.entry) (reverse (take place whole.entry.entries.now)) entry.now }
{
    let brief = brief_at(whole.entries, &found.walk.briefs, place, entry);
    if brief.traits.is_plain {
        is_number_looked_at(whole, found, brief.number)
    } else {
        is_looked_at(whole, found, place, entry)
    }
}

/// Finds the entries that are looked at, and what is read with them.
pub fn looked_of(alloc: Global, whole: Whole<'_>, found: &Findings) -> Result<Looked, Memory>
    requires index { held.IsIndexed whole }
    requires found { findings.IsFound whole.entries.now found.now }
    ensures { IfOk result (λ made. readings.AreLooked (held.past_of whole.entry) (held.past_of whole.entry) made) }
{
    let all = whole.entries;
    let mut looked = none_looked(alloc, all.len())?;
    for place in 0..all.len() {
        let entry = &all[place];
        let is_read = is_found_looked_at(whole, found, place, entry);
        note_looked(&mut looked, is_read, entry)?;
    }
    Ok(looked)
}
