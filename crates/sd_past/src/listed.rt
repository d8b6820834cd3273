// The entries as a list alone: whatever is asked of them is sought in it.
ghost use Rattle.std.specs.Prelude.{◌≡◌, ◌+◌, ◌≤◌, ◌∷◌, ◌++◌, [], length, true, reverse, vec_capacity, IfOk, IfErr, IsOk, OnErr, OnOk};
ghost use Rattle.std.specs.Option.{option_map};
ghost use Rattle.sd_rules.specs.Needed as needed;
ghost use Rattle.sd_rules.specs.Requests as requests;
ghost use Rattle.sd_voids.specs.Entries.{numbers_fall};
ghost use Rattle.sd_past.specs.Closing.{closes_place, HasRoom};

use crate::found::record_at;
use crate::past::{Forgotten, Past};
use crate::room::{copied, make_room, with_room};
use sd_base::{Memory, Shared};
use sd_journal::past::{Standing, newest, outage_at};
use sd_journal::requests::{is_open, is_open_attempt, is_open_request, reserved_places, waits_for};
use sd_journal::{answers, past, servers};
use sd_keeping::rows_of;
use sd_needs::{forgotten, needed};
use sd_rules::{Entry, Event, Key, Record, Reply, Rows, Settings};
use sd_voids::texts::of_entries;
use std::alloc::Global;
use std::marker::Model;

/// The list of the entries; contracts see them, the newest first.
pub struct ListedPast {
    /// The oldest first, with room for those that close what is open.
    entries: Vec<Entry>,
}

impl Drop for ListedPast {
    fn drop(self) {
        let ListedPast { entries: _ } = self;
    }
}

impl Model for ListedPast {
    ghost use Rattle.std.specs.Prelude.{List, reverse, vec_capacity};
    ghost use Rattle.sd_rules.specs.declared.replies.Entry.{Entry};
    ghost use Rattle.sd_past.specs.Closing.{HasRoom};

    ghost Value = { List Entry };

    ghost view = { λ p. reverse p.entries.items };

    ghost invariant = { λ p. HasRoom (reverse p.entries.items) (vec_capacity p.entries) };
}

fn closes_listed(entries: &[Entry], event: &Event) -> bool
    ensures { result ≡ closes_place (reverse entries.now) event.now }
{
    match event {
        Event::Abandon(number) => is_open(entries, *number),
        Event::Leave(ticket) => waits_for(entries, *ticket).is_some(),
        _ => false,
    }
}

/// Puts an entry behind the others, or hands its event back for want of memory. Places are not counted: each entry reserves one at most.
fn put_listed(entries: &mut Vec<Entry>, entry: Entry) -> Result<(), Event>
    requires room { HasRoom (reverse entries.old.items) (vec_capacity entries.old) }
    requires numbers { numbers_fall entry.number (reverse entries.old.items) ≡ true }
    requires back { closes_place (reverse entries.old.items) entry.event ≡ true → requests.reserved_places (entry ∷ reverse entries.old.items) + 1 ≤ requests.reserved_places (reverse entries.old.items) }
    ensures ok { OnOk result (entries.new.items ≡ entries.old.items ++ entry ∷ []) }
    ensures err { IfErr result (λ event. (entries.new.items ≡ entries.old.items) × (event ≡ entry.event)) }
    ensures room { HasRoom (reverse entries.new.items) (vec_capacity entries.new) }
    ensures closing { closes_place (reverse entries.old.items) entry.event ≡ true → IsOk result }
{
    if closes_listed(entries.as_slice(), &entry.event) {
        entries.push_reserved(entry);
        return Ok(());
    }
    let places = entries.as_slice().len();
    match make_room(entries, places) {
        Ok(()) => {
            entries.push_reserved(entry);
            Ok(())
        }
        Err(_) => Err(entry.event),
    }
}

impl ListedPast {
    /// Puts other entries in the place of all.
    fn keep(&mut self, entries: Vec<Entry>)
        requires { HasRoom (reverse entries.items) (vec_capacity entries) }
        ensures { self.new ≡ reverse entries.items }
    {
        self.entries = entries;
    }
}

impl Past for ListedPast {
    ghost entries = { λ p. p };

    fn open(_alloc: Global, list: Vec<Entry>, _secret: &[u8]) -> Result<ListedPast, Memory> {
        let entries = with_room(list)?;
        Ok(ListedPast { entries })
    }

    fn list(&self) -> &[Entry] {
        self.entries.as_slice()
    }

    fn reserved_places(&self) -> usize {
        reserved_places(self.entries.as_slice())
    }

    fn is_open_request(&self, number: u64) -> bool {
        is_open_request(self.entries.as_slice(), number)
    }

    fn is_open_attempt(&self, number: u64) -> bool {
        is_open_attempt(self.entries.as_slice(), number)
    }

    fn waits_for(&self, ticket: u64) -> Option<u64> {
        waits_for(self.entries.as_slice(), ticket)
    }

    fn newest(&self, key: &Key) -> Option<Standing<'_>> {
        newest(self.entries.as_slice(), key)
    }

    fn record(&self, _key: Option<&Key>, number: u64) -> Option<&Shared<Record>> {
        record_at(self.entries.as_slice(), number)
    }

    fn outage_at(&self, timeout: u32, moment: u64) -> Option<u64> {
        outage_at(timeout, self.entries.as_slice(), moment)
    }

    fn reply_to_ask(&self, settings: &Settings, number: u64, moment: u64, key: &Key) -> Reply {
        answers::reply_to_ask(settings, self.entries.as_slice(), number, moment, key)
    }

    fn picked_server(&self, settings: &Settings, request: u64, moment: u64) -> Option<u32> {
        servers::picked_server(settings, self.entries.as_slice(), request, moment)
    }

    fn rows(&self, alloc: Global, next: u64, floor: u64) -> Result<Rows, Memory> {
        rows_of(alloc, next, floor, self.entries.as_slice())
    }

    fn put(&mut self, entry: Entry) -> Result<(), Event> {
        put_listed(&mut self.entries, entry)
    }

    fn forget(&mut self, alloc: Global) -> Result<Forgotten, Memory> {
        let dropped = forgotten(alloc, self.entries.as_slice())?;
        let dropped = copied(alloc, dropped.items())?;
        let kept = needed(alloc, self.entries.as_slice())?;
        let kept = copied(alloc, kept.items())?;
        self.keep(kept);
        let text_bytes = of_entries(dropped.as_slice());
        Ok(Forgotten {
            dropped,
            text_bytes,
        })
    }
}
