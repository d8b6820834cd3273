// What a journal says of servers and outages that a later reply can look at.
ghost use Rattle.std.specs.Prelude.{◌≡◌, reverse, None};
ghost use Rattle.sd_rules.specs.declared.replies.Entry.{Entry};
ghost use Rattle.sd_rules.specs.Needed as needed;
ghost use Rattle.sd_rules.specs.Servers as servers;

use crate::readings::is_number;
use sd_journal::past::{ends_outage, records_outage};
use sd_rules::{Entry, Event, Reply, Row};

pub fn is_noted(reply: Reply) -> bool
    ensures { result ≡ servers.is_noted reply }
{
    matches!(reply, Reply::Noted)
}

fn is_fall_of(event: &Event, reply: Reply, server: u32) -> bool
    ensures { result ≡ servers.is_fall_of event.now reply server }
{
    match event {
        Event::Fall(_, i, _) => *i == server && is_noted(reply),
        Event::Kept(Row::Fall(_, _, i)) => *i == server,
        _ => false,
    }
}

pub fn is_online(event: &Event) -> bool
    ensures { result ≡ servers.is_online event.now }
{
    matches!(event, Event::Online)
}

/// The number of the last fall of a server since the last word that the directory can be reached.
pub fn last_fall(entries: &[Entry], server: u32) -> Option<u64>
    ensures { result ≡ needed.last_fall (reverse entries.now) server }
{
    for place in (0..entries.len()).rev() {
        let entry = &entries[place];
        if is_online(&entry.event) {
            return None;
        }
        if is_fall_of(&entry.event, entry.reply, server) {
            return Some(entry.number);
        }
    }
    None
}

/// Whether an entry is the last fall of its server.
pub fn is_fall_needed(all: &[Entry], entry: &Entry) -> bool
    ensures { result ≡ needed.is_fall_needed (reverse all.now) entry.now entry.now.event }
{
    match &entry.event {
        Event::Fall(_, server, _) => is_number(entry.number, last_fall(all, *server)),
        Event::Kept(Row::Fall(_, _, server)) => is_number(entry.number, last_fall(all, *server)),
        _ => false,
    }
}

/// The number of the last word that the directory can be reached.
pub fn last_online(entries: &[Entry]) -> Option<u64>
    ensures { result ≡ needed.last_where (λ (x : Entry). servers.is_online x.event) (reverse entries.now) }
{
    for place in (0..entries.len()).rev() {
        let entry = &entries[place];
        if is_online(&entry.event) {
            return Some(entry.number);
        }
    }
    None
}

/// Whether an entry is the last word that the directory can be reached.
pub fn is_last_online(all: &[Entry], entry: &Entry) -> bool
    ensures { result ≡ needed.is_last_online (reverse all.now) entry.now }
{
    is_online(&entry.event) && is_number(entry.number, last_online(all))
}

/// The number of the last outage that nothing has ended since, however long ago.
pub fn last_outage(entries: &[Entry]) -> Option<u64>
    ensures { result ≡ needed.last_outage (reverse entries.now) }
{
    for place in (0..entries.len()).rev() {
        let entry = &entries[place];
        if records_outage(&entry.event, entry.reply) {
            return Some(entry.number);
        }
        if ends_outage(&entry.event, entry.reply) {
            return None;
        }
    }
    None
}
