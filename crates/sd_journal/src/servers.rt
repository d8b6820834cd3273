// Which server a request or an attempt is sent to.
ghost use Rattle.std.specs.Prelude.{◌≡◌, ◌+◌, ◌^◌, ◌<◌, reverse, None};
ghost use Rattle.sd_rules.specs.Servers as servers;

use sd_rules::limits::is_within;
use sd_rules::{Entry, Event, Reply, Row, Settings};

/// How many seconds a fall keeps its server from every request.
const FALL_SECONDS: u64 = 30;

fn is_noted(reply: Reply) -> bool
    ensures { result ≡ servers.is_noted reply }
{
    matches!(reply, Reply::Noted)
}

fn falls_under(event: &Event, reply: Reply, request: u64, server: u32) -> bool
    ensures { result ≡ servers.falls_under event.now reply request server }
{
    match event {
        Event::Fall(r, i, _) => *r == request && *i == server && is_noted(reply),
        _ => false,
    }
}

fn has_fallen_under(entries: &[Entry], request: u64, server: u32) -> bool
    ensures { result ≡ servers.has_fallen_under (reverse entries.now) request server }
{
    for place in (0..entries.len()).rev() {
        let entry = &entries[place];
        if falls_under(&entry.event, entry.reply, request, server) {
            return true;
        }
    }
    false
}

fn is_fall_of(event: &Event, reply: Reply, server: u32) -> bool
    ensures { result ≡ servers.is_fall_of event.now reply server }
{
    match event {
        Event::Fall(_, i, _) => *i == server && is_noted(reply),
        Event::Kept(Row::Fall(_, _, i)) => *i == server,
        _ => false,
    }
}

fn is_online(event: &Event) -> bool
    ensures { result ≡ servers.is_online event.now }
{
    matches!(event, Event::Online)
}

/// Whether a server fell less than 30 seconds before t, after the last Online entry.
fn has_fallen_lately(entries: &[Entry], t: u64, server: u32) -> bool
    ensures { result ≡ servers.has_fallen_lately (reverse entries.now) t server }
{
    for place in (0..entries.len()).rev() {
        let entry = &entries[place];
        if is_online(&entry.event) {
            return false;
        }
        if is_fall_of(&entry.event, entry.reply, server)
            && is_within(entry.moment, FALL_SECONDS, t)
        {
            return true;
        }
    }
    false
}

fn is_down(entries: &[Entry], request: u64, t: u64, server: u32) -> bool
    ensures { result ≡ servers.is_down (reverse entries.now) request t server }
{
    has_fallen_under(entries, request, server) || has_fallen_lately(entries, t, server)
}

/// The server for a request or an attempt, counted from 0, primaries first.
pub fn picked_server(settings: &Settings, entries: &[Entry], request: u64, t: u64) -> Option<u32>
    requires { settings.now.primaries + settings.now.backups < 2 ^ 32 }
    ensures { result ≡ servers.picked_server settings.now (reverse entries.now) request t }
{
    let count = settings.primaries + settings.backups;
    (0..count).find(|server| !is_down(entries, request, t, *server))
}

fn is_pick_of(event: &Event, request: u64) -> bool
    ensures { result ≡ servers.is_pick_of event.now request }
{
    match event {
        Event::Pick(r) => *r == request,
        _ => false,
    }
}

fn is_server(reply: Reply, server: u32) -> bool
    ensures { result ≡ servers.is_server reply server }
{
    match reply {
        Reply::Server(i) => i == server,
        _ => false,
    }
}

/// Whether the last pick of a request or an attempt gave this server.
pub fn was_picked(entries: &[Entry], request: u64, server: u32) -> bool
    ensures { result ≡ servers.was_picked (reverse entries.now) request server }
{
    for place in (0..entries.len()).rev() {
        let entry = &entries[place];
        if is_pick_of(&entry.event, request) {
            return is_server(entry.reply, server);
        }
    }
    false
}
