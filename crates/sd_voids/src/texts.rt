// How much text events hold, in bytes, with eight more for each text. A sum past the greatest u64 stands still there.
ghost use Rattle.std.specs.Prelude.{◌≡◌, ◌-◌, ◌^◌, min, reverse};
ghost use Rattle.sd_rules.specs.TextBytes as bytes;

use sd_keeping::text_bytes::{of_answered, of_key, of_row, of_text};
use sd_rules::{Entry, Event, What};

fn of_what(what: &What) -> u64
    ensures { result ≡ min (bytes.bytes_of_what what.now) (2 ^ 64 - 1) }
{
    match what {
        What::User(name) | What::Group(name) => of_text(name),
        _ => 0,
    }
}

/// The text bytes of an event.
pub fn of_event(event: &Event) -> u64
    ensures { result ≡ min (bytes.bytes_of_event event.now) (2 ^ 64 - 1) }
{
    match event {
        Event::Ask(key) => of_key(key),
        Event::Answer(_, answered) => of_answered(answered),
        Event::Void(what) => of_what(what),
        Event::LoginOpen(user) | Event::LoginLook(user) | Event::LoginGuess(user, _, _) => {
            of_text(user)
        }
        Event::Access(user, service) => of_text(user).saturating_add(of_text(service)),
        Event::Kept(row) => of_row(row),
        _ => 0,
    }
}

/// The text bytes of all entries.
pub fn of_entries(entries: &[Entry]) -> u64
    ensures { result ≡ min (bytes.text_bytes (reverse entries.now)) (2 ^ 64 - 1) }
{
    let mut total = 0u64;
    for place in 0..entries.len() {
        total = total.saturating_add(of_event(&entries[place].event));
    }
    total
}
