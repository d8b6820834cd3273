// The entries that tell of servers, by themselves: a pick looks at no others.
ghost use Rattle.std.specs.Prelude.{◌≡◌, ◌+◌, ◌≤◌, IfOk, IsOk, OnOk, true, false, reverse, vec_len, vec_capacity};
ghost use Rattle.sd_rules.specs.Servers as servers;
ghost use Rattle.sd_index.specs.Signals as told;

use sd_base::Memory;
use sd_rules::{Entry, Event, Reply, Row};

fn is_noted(reply: Reply) -> bool
    ensures { result ≡ servers.is_noted reply }
{
    matches!(reply, Reply::Noted)
}

fn is_signal(event: &Event, reply: Reply) -> bool
    ensures { result ≡ told.is_signal event.now reply }
{
    match event {
        Event::Fall(_, _, _) => is_noted(reply),
        Event::Kept(Row::Fall(_, _, _)) | Event::Online => true,
        _ => false,
    }
}

/// The event of an entry that tells of servers, again: it holds no text, so this takes no memory.
fn told(event: &Event, reply: Reply) -> Option<Event>
    ensures { result ≡ told.told event.now reply }
{
    match event {
        Event::Fall(request, server, why) if is_noted(reply) => {
            Some(Event::Fall(*request, *server, *why))
        }
        Event::Kept(Row::Fall(number, moment, server)) => {
            Some(Event::Kept(Row::Fall(*number, *moment, *server)))
        }
        Event::Online => Some(Event::Online),
        _ => None,
    }
}

/// A copy of an entry that tells of servers.
fn signal_of(entry: &Entry) -> Option<Entry>
    ensures { result ≡ told.signal_of entry.now }
{
    match told(&entry.event, entry.reply) {
        Some(event) => Some(Entry {
            number: entry.number,
            moment: entry.moment,
            event,
            reply: entry.reply,
        }),
        None => None,
    }
}

/// Makes room for an entry, where it tells of servers.
pub fn make_room(signals: &mut Vec<Entry>, entry: &Entry) -> Result<(), Memory>
    ensures same { signals.new.items ≡ signals.old.items }
    ensures room { OnOk result (told.tells_of_servers entry.now ≡ true → vec_len signals.new + 1 ≤ vec_capacity signals.new) }
    ensures free { told.tells_of_servers entry.now ≡ false → IsOk result }
{
    if is_signal(&entry.event, entry.reply) {
        signals.reserve(1)?;
    }
    Ok(())
}

/// Puts an entry behind the others, where it tells of servers. There is room for it.
pub fn note(signals: &mut Vec<Entry>, entry: &Entry)
    requires { told.tells_of_servers entry.now ≡ true → vec_len signals.old + 1 ≤ vec_capacity signals.old }
    ensures { reverse signals.new.items ≡ told.signals_after (reverse signals.old.items) entry.now }
{
    if let Some(signal) = signal_of(entry) {
        signals.push_reserved(signal);
    }
}
