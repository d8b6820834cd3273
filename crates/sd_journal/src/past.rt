// What the entries made so far say of keys: their answers, invalidations and outages.
ghost use Rattle.std.specs.Prelude.{◌≡◌, reverse, None};
ghost use Rattle.std.specs.Option.{option_copied, option_map};
ghost use Rattle.sd_rules.specs.Past as past;
ghost use Rattle.sd_journal.specs.Seen as seen;

use crate::keys::{covers, speaks_of};
use sd_rules::limits::is_within;
use sd_rules::{Answered, Entry, Event, Key, Reply, Row};

/// An answer as it stands among the entries: its number and moment, its own key, and whether a kept row marks it as
/// invalidated.
#[derive(Clone, Copy)]
pub struct Standing<'a> {
    pub number: u64,
    pub moment: u64,
    pub own: &'a Key,
    pub answered: &'a Answered,
    pub marked: bool,
}

pub fn is_closed(reply: Reply) -> bool
    ensures { result ≡ past.is_closed reply }
{
    matches!(reply, Reply::Closed)
}

pub fn is_shut(reply: Reply) -> bool
    ensures { result ≡ past.is_shut reply }
{
    matches!(reply, Reply::Shut(_))
}

/// The key that an event asks for.
fn key_asked(event: &Event) -> Option<&Key>
    ensures { option_copied result ≡ past.key_asked event.now }
{
    match event {
        Event::Ask(key) => Some(key),
        _ => None,
    }
}

/// The key of a request.
pub fn key_of(entries: &[Entry], request: u64) -> Option<&Key>
    ensures { option_copied result ≡ past.key_of (reverse entries.now) request }
{
    for place in (0..entries.len()).rev() {
        let entry = &entries[place];
        if entry.number == request {
            return key_asked(&entry.event);
        }
    }
    None
}

/// An answer as the answer to the key of its request, where it has one.
fn answer_under<'a>(
    entry: &'a Entry,
    answered: &'a Answered,
    own: Option<&'a Key>,
) -> Option<Standing<'a>>
    ensures { option_map seen.standing result ≡ past.answer_under entry.now answered.now (option_copied own.entry) }
{
    match own {
        Some(own) => Some(Standing {
            number: entry.number,
            moment: entry.moment,
            own,
            answered,
            marked: false,
        }),
        None => None,
    }
}

/// The answer that an entry holds; `before` are the entries before it.
pub fn answer_in<'a>(before: &'a [Entry], entry: &'a Entry) -> Option<Standing<'a>>
    ensures { option_map seen.standing result ≡ past.answer_in (reverse before.now) entry.now }
{
    match &entry.event {
        Event::Answer(request, answered) => {
            if is_closed(entry.reply) {
                answer_under(entry, answered, key_of(before, *request))
            } else {
                None
            }
        }
        Event::Kept(Row::Answer(_, _, own, answered, marked)) => Some(Standing {
            number: entry.number,
            moment: entry.moment,
            own,
            answered,
            marked: *marked,
        }),
        _ => None,
    }
}

fn spoken<'a>(key: &Key, answer: Option<Standing<'a>>) -> Option<Standing<'a>>
    ensures { option_map seen.standing result ≡ past.spoken key.now (option_map seen.standing answer.entry) }
{
    match answer {
        Some(a) => {
            if speaks_of(a.own, a.answered, key) {
                Some(a)
            } else {
                None
            }
        }
        None => None,
    }
}

/// The newest answer of a key: the last that speaks of it.
pub fn newest<'a>(entries: &'a [Entry], key: &Key) -> Option<Standing<'a>>
    ensures { option_map seen.standing result ≡ past.newest (reverse entries.now) key.now }
{
    for place in (0..entries.len()).rev() {
        let found = spoken(key, answer_in(&entries[..place], &entries[place]));
        if found.is_some() {
            return found;
        }
    }
    None
}

/// Whether an event is an invalidation that covers what was answered to a key.
pub fn voids(event: &Event, own: &Key, answered: &Answered) -> bool
    ensures { result ≡ past.voids event.now own.now answered.now }
{
    match event {
        Event::Void(what) => covers(what, own, answered),
        _ => false,
    }
}

fn is_void_after(entries: &[Entry], answer: Standing<'_>) -> bool
    ensures { result ≡ past.is_void_after (reverse entries.now) (seen.standing answer.entry) }
{
    for place in (0..entries.len()).rev() {
        let entry = &entries[place];
        if entry.number == answer.number {
            return false;
        }
        if voids(&entry.event, answer.own, answer.answered) {
            return true;
        }
    }
    false
}

/// Whether an answer is invalidated.
pub fn is_voided(entries: &[Entry], answer: Standing<'_>) -> bool
    ensures { result ≡ past.is_voided (reverse entries.now) (seen.standing answer.entry) }
{
    answer.marked || is_void_after(entries, answer)
}

/// Whether an entry of this event and reply records an outage.
pub fn records_outage(event: &Event, reply: Reply) -> bool
    ensures { result ≡ past.records_outage event.now reply }
{
    match event {
        Event::Outage(_) => is_closed(reply) || is_shut(reply),
        Event::Offline => true,
        _ => false,
    }
}

/// Whether it ends the outage that stands.
pub fn ends_outage(event: &Event, reply: Reply) -> bool
    ensures { result ≡ past.ends_outage event.now reply }
{
    match event {
        Event::Answer(_, _) => is_closed(reply),
        Event::Online => true,
        _ => false,
    }
}

/// The number of the outage that stands at a moment.
pub fn outage_at(timeout: u32, entries: &[Entry], moment: u64) -> Option<u64>
    ensures { result ≡ past.outage_at timeout (reverse entries.now) moment }
{
    for place in (0..entries.len()).rev() {
        let entry = &entries[place];
        if records_outage(&entry.event, entry.reply) {
            let stands = is_within(entry.moment, u64::from(timeout), moment);
            return if stands { Some(entry.number) } else { None };
        }
        if ends_outage(&entry.event, entry.reply) {
            return None;
        }
    }
    None
}
