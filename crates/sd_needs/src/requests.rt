// What an open request or login attempt looks at.
ghost use Rattle.std.specs.Prelude.{◌≡◌, reverse, None};
ghost use Rattle.sd_rules.specs.declared.replies.Entry.{Entry};
ghost use Rattle.sd_rules.specs.Needed as needed;
ghost use Rattle.sd_rules.specs.Servers as servers;
ghost use Rattle.sd_rules.specs.Steps as steps;

use crate::readings::is_number;
use crate::servers::is_noted;
use sd_journal::requests::{is_open, is_open_request};
use sd_rules::{Entry, Event, Reply};

pub fn is_again(reply: Reply) -> bool
    ensures { result ≡ steps.is_again reply }
{
    matches!(reply, Reply::Again(_))
}

/// Whether an entry is an answer to the request that was replied Again.
fn asks_again(event: &Event, reply: Reply, request: u64) -> bool
    ensures { result ≡ steps.asks_again event.now reply request }
{
    match event {
        Event::Answer(r, _) => *r == request && is_again(reply),
        _ => false,
    }
}

/// Whether an entry asks for a request, or asks again.
fn is_asking(entry: &Entry, request: u64) -> bool
    ensures { result ≡ steps.is_asking entry.now request }
{
    entry.number == request || asks_again(&entry.event, entry.reply, request)
}

/// The number of the last asking of a request.
pub fn last_asking(entries: &[Entry], request: u64) -> Option<u64>
    ensures { result ≡ needed.last_where (λ (x : Entry). steps.is_asking x request) (reverse entries.now) }
{
    for place in (0..entries.len()).rev() {
        let entry = &entries[place];
        if is_asking(entry, request) {
            return Some(entry.number);
        }
    }
    None
}

fn is_asked_by(asking: Option<u64>, number: u64) -> bool
    ensures { result ≡ needed.is_asked_by asking number }
{
    match asking {
        Some(asking) => asking < number,
        None => false,
    }
}

/// Whether the entry of a number stands after the last asking of an open request.
pub fn is_after_asking(all: &[Entry], number: u64) -> bool
    ensures { result ≡ needed.is_after_asking (reverse all.now) number (reverse all.now) }
{
    for place in (0..all.len()).rev() {
        let request = all[place].number;
        if is_open_request(all, request) && is_asked_by(last_asking(all, request), number) {
            return true;
        }
    }
    false
}

fn last_again(entries: &[Entry], request: u64) -> Option<u64>
    ensures { result ≡ needed.last_where (λ (x : Entry). steps.asks_again x.event x.reply request) (reverse entries.now) }
{
    for place in (0..entries.len()).rev() {
        let entry = &entries[place];
        if asks_again(&entry.event, entry.reply, request) {
            return Some(entry.number);
        }
    }
    None
}

/// Whether an entry is the last answer to the request that was replied Again.
pub fn is_last_again(all: &[Entry], request: u64, entry: &Entry) -> bool
    ensures { result ≡ needed.is_last_again (reverse all.now) request entry.now }
{
    asks_again(&entry.event, entry.reply, request)
        && is_number(entry.number, last_again(all, request))
}

fn is_pick_of(event: &Event, request: u64) -> bool
    ensures { result ≡ servers.is_pick_of event.now request }
{
    match event {
        Event::Pick(r) => *r == request,
        _ => false,
    }
}

fn last_pick(entries: &[Entry], request: u64) -> Option<u64>
    ensures { result ≡ needed.last_where (λ (x : Entry). servers.is_pick_of x.event request) (reverse entries.now) }
{
    for place in (0..entries.len()).rev() {
        let entry = &entries[place];
        if is_pick_of(&entry.event, request) {
            return Some(entry.number);
        }
    }
    None
}

fn is_last_pick(all: &[Entry], request: u64, entry: &Entry) -> bool
    ensures { result ≡ needed.is_last_pick (reverse all.now) request entry.now }
{
    is_pick_of(&entry.event, request) && is_number(entry.number, last_pick(all, request))
}

/// Whether an open request or attempt still looks at an entry that is not its leading one.
pub fn serves_open(all: &[Entry], entry: &Entry) -> bool
    ensures { result ≡ needed.serves_open (reverse all.now) entry.now entry.now.event }
{
    match &entry.event {
        Event::Answer(request, _) => is_open(all, *request) && is_last_again(all, *request, entry),
        Event::Pick(request) => is_open(all, *request) && is_last_pick(all, *request, entry),
        Event::Fall(request, _, _) => is_open(all, *request) && is_noted(entry.reply),
        _ => false,
    }
}
