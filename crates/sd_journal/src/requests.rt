// Requests, login attempts and tickets: which are open, which wait, what they came to.
ghost use Rattle.std.specs.Prelude.{◌≡◌, ◌≤◌, length, reverse, is_some, None};
ghost use Rattle.std.specs.Option.{option_copied};
ghost use Rattle.sd_rules.specs.Requests as requests;

use crate::past::{is_closed, is_shut};
use sd_rules::{Answered, Entry, Event, Key, Outcome, Reply, Verdict};

fn is_lead(reply: Reply) -> bool
    ensures { result ≡ requests.is_lead reply }
{
    matches!(reply, Reply::Lead(_) | Reply::Refresh(_, _))
}

fn is_bind(reply: Reply) -> bool
    ensures { result ≡ requests.is_bind reply }
{
    matches!(reply, Reply::Bind(_) | Reply::Cached(_, _))
}

pub fn is_try_accepted(reply: Reply) -> bool
    ensures { result ≡ requests.is_try_accepted reply }
{
    matches!(reply, Reply::Tried(Verdict::Accepted))
}

/// Whether an entry closes the request or attempt of a number.
pub fn closes(event: &Event, reply: Reply, number: u64) -> bool
    ensures { result ≡ requests.closes event.now reply number }
{
    match event {
        Event::Answer(n, _) | Event::Refuse(n, _) | Event::Abandon(n) | Event::LoginOnline(n, _) =>
            *n == number && is_closed(reply),
        Event::Outage(n) => *n == number && (is_closed(reply) || is_shut(reply)),
        Event::LoginTry(n, _, _) => *n == number && is_try_accepted(reply),
        _ => false,
    }
}

/// The entry of a number, where nothing has closed that number since.
fn unclosed(entries: &[Entry], number: u64) -> Option<&Entry>
    ensures { option_copied result ≡ requests.unclosed (reverse entries.now) number }
{
    for place in (0..entries.len()).rev() {
        let entry = &entries[place];
        if closes(&entry.event, entry.reply, number) {
            return None;
        }
        if entry.number == number {
            return Some(entry);
        }
    }
    None
}

fn opens_request(event: &Event, reply: Reply) -> bool
    ensures { result ≡ requests.opens_request event.now reply }
{
    match event {
        Event::Ask(_) => is_lead(reply),
        _ => false,
    }
}

fn opens_attempt(event: &Event, reply: Reply) -> bool
    ensures { result ≡ requests.opens_attempt event.now reply }
{
    match event {
        Event::LoginOpen(_) => is_bind(reply),
        _ => false,
    }
}

/// Whether a request of this number is open.
pub fn is_open_request(entries: &[Entry], number: u64) -> bool
    ensures { result ≡ requests.is_open_request (reverse entries.now) number }
{
    match unclosed(entries, number) {
        Some(entry) => opens_request(&entry.event, entry.reply),
        None => false,
    }
}

/// Whether a login attempt of this number is open.
pub fn is_open_attempt(entries: &[Entry], number: u64) -> bool
    ensures { result ≡ requests.is_open_attempt (reverse entries.now) number }
{
    match unclosed(entries, number) {
        Some(entry) => opens_attempt(&entry.event, entry.reply),
        None => false,
    }
}

/// Whether a request or a login attempt of this number is open.
pub fn is_open(entries: &[Entry], number: u64) -> bool
    ensures { result ≡ requests.is_open (reverse entries.now) number }
{
    is_open_request(entries, number) || is_open_attempt(entries, number)
}

fn asks_for(event: &Event, key: &Key) -> bool
    ensures { result ≡ requests.asks_for event.now key.now }
{
    match event {
        Event::Ask(asked) => asked == key,
        _ => false,
    }
}

/// The request that is open for a key.
pub fn open_for(entries: &[Entry], key: &Key) -> Option<u64>
    ensures { result ≡ requests.open_for (reverse entries.now) key.now }
{
    for place in (0..entries.len()).rev() {
        let entry = &entries[place];
        if asks_for(&entry.event, key) && is_open_request(entries, entry.number) {
            return Some(entry.number);
        }
    }
    None
}

pub fn is_took(reply: Reply) -> bool
    ensures { result ≡ requests.is_took reply }
{
    matches!(reply, Reply::Took(_))
}

fn is_left(reply: Reply) -> bool
    ensures { result ≡ requests.is_left reply }
{
    matches!(reply, Reply::Left)
}

/// Whether an entry ends the waiting of a ticket.
fn ends_waiting(event: &Event, reply: Reply, ticket: u64) -> bool
    ensures { result ≡ requests.ends_waiting event.now reply ticket }
{
    match event {
        Event::Collect(t) => *t == ticket && is_took(reply),
        Event::Leave(t) => *t == ticket && is_left(reply),
        _ => false,
    }
}

fn joined(reply: Reply) -> Option<u64>
    ensures { result ≡ requests.joined reply }
{
    match reply {
        Reply::Join(request, _) => Some(request),
        _ => None,
    }
}

/// The request that a ticket waits for, where it waits.
pub fn waits_for(entries: &[Entry], ticket: u64) -> Option<u64>
    ensures { result ≡ requests.waits_for (reverse entries.now) ticket }
{
    for place in (0..entries.len()).rev() {
        let entry = &entries[place];
        if ends_waiting(&entry.event, entry.reply, ticket) {
            return None;
        }
        if entry.number == ticket {
            return joined(entry.reply);
        }
    }
    None
}

fn reserves(entries: &[Entry], number: u64) -> bool
    ensures { result ≡ requests.reserves (reverse entries.now) number }
{
    is_open(entries, number) || waits_for(entries, number).is_some()
}

/// How many places are reserved: one for each open request, open attempt and waiting ticket.
pub fn reserved_places(entries: &[Entry]) -> usize
    ensures exact { result ≡ requests.reserved_places (reverse entries.now) }
    ensures bound { result ≤ length entries.now }
{
    let mut count = 0;
    for place in (0..entries.len()).rev() {
        if reserves(entries, entries[place].number) {
            count += 1;
        }
    }
    count
}

/// What the entry of this number, which closes a request, gives to it.
fn outcome_by(number: u64, event: &Event, reply: Reply) -> Outcome
    ensures { result ≡ requests.outcome_by number event.now reply }
{
    match event {
        Event::Answer(_, Answered::Found(_)) => Outcome::Found(number),
        Event::Answer(_, Answered::Absent) => Outcome::Absent(number),
        Event::Refuse(_, refusal) => Outcome::Refused(*refusal),
        Event::Outage(_) => match reply {
            Reply::Shut(outcome) => outcome,
            _ => Outcome::Dropped(number),
        },
        _ => Outcome::Dropped(number),
    }
}

/// The outcome of a closed request.
pub fn outcome_of(entries: &[Entry], request: u64) -> Outcome
    ensures { result ≡ requests.outcome_of (reverse entries.now) request }
{
    for place in (0..entries.len()).rev() {
        let entry = &entries[place];
        if closes(&entry.event, entry.reply, request) {
            return outcome_by(entry.number, &entry.event, entry.reply);
        }
    }
    Outcome::Dropped(request)
}
