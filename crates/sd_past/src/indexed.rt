// The entries with an index beside their list: what a step asks costs no walk over them.
ghost use Rattle.std.specs.Prelude.{◌≡◌, ◌+◌, ◌≤◌, ◌∷◌, ◌++◌, [], List, length, true, reverse, vec_capacity, IfOk, IfErr, IsOk, OnErr, OnOk};
ghost use Rattle.std.specs.Option.{option_map};
ghost use Rattle.sd_rules.specs.declared.replies.Entry.{Entry};
ghost use Rattle.sd_rules.specs.Needed as needed;
ghost use Rattle.sd_rules.specs.Requests as requests;
ghost use Rattle.sd_forgetting.specs.Kept.{IsKeptOf};
ghost use Rattle.sd_voids.specs.Entries.{falls, numbers_fall};
ghost use Rattle.sd_index.specs.Table.{Indexes, takes_none};
ghost use Rattle.sd_past.specs.Closing.{closes_place, HasRoom};
ghost use Rattle.sd_past.specs.Forgetting.{AreForgotten};

use crate::found::record_by;
use crate::past::{Forgotten, Past};
use crate::room::{make_room, with_room};
use crate::rows::rows_of;
use crate::standings::newest_by;
use sd_base::{Memory, Shared};
use sd_cache::Primed;
use sd_findings::whole::Whole;
use sd_index::Index;
use sd_journal::past::Standing;
use sd_rules::{Entry, Event, Key, Record, Reply, Rows, Settings};
use sd_sieve::{Plan, Sifted, plan_of, sift};
use std::alloc::Global;
use std::marker::Model;
use std::mem;

/// The list of the entries and its index; contracts see the entries, the newest first.
pub struct IndexedPast {
    /// The oldest first, with room for those that close what is open.
    entries: Vec<Entry>,
    index: Index,
    hasher: Primed,
}

impl Drop for IndexedPast {
    fn drop(self) {
        let IndexedPast {
            entries: _,
            index: _,
            hasher: _,
        } = self;
    }
}

impl Model for IndexedPast {
    ghost use Rattle.std.specs.Prelude.{List, reverse, vec_capacity};
    ghost use Rattle.sd_rules.specs.declared.replies.Entry.{Entry};
    ghost use Rattle.sd_index.specs.Table.{Indexes};
    ghost use Rattle.sd_past.specs.Closing.{HasRoom};

    ghost Value = { List Entry };

    ghost view = { λ p. reverse p.entries.items };

    ghost invariant = { λ p. (Indexes (reverse p.entries.items) p.index) × (HasRoom (reverse p.entries.items) (vec_capacity p.entries)) };
}

/// Whether an event closes what is open or lets a ticket go.
fn closes_indexed(index: &Index, event: &Event) -> bool
    ensures { (past : List Entry) → Indexes past index.now → result ≡ closes_place past event.now }
{
    match event {
        Event::Abandon(number) => index.is_open_request(*number) || index.is_open_attempt(*number),
        Event::Leave(ticket) => index.waits_for(*ticket).is_some(),
        _ => false,
    }
}

/// Makes room for an entry that closes nothing, and for what is reserved then.
fn make_room_for(entries: &mut Vec<Entry>, index: &Index) -> Result<(), Memory>
    requires { Indexes (reverse entries.old.items) index.now }
    ensures same { entries.new.items ≡ entries.old.items }
    ensures room { OnOk result (length entries.new.items + requests.reserved_places (reverse entries.old.items) + 2 ≤ vec_capacity entries.new) }
    ensures capacity { vec_capacity entries.old ≤ vec_capacity entries.new }
{
    let places = index.reserved_places();
    make_room(entries, places)
}

/// Puts an entry for which there is room behind the others, and into the index.
fn push_indexed(entries: &mut Vec<Entry>, index: &mut Index, entry: Entry) -> Result<(), Event>
    requires room { length entries.old.items + 1 ≤ vec_capacity entries.old }
    requires numbers { numbers_fall entry.number (reverse entries.old.items) ≡ true }
    requires indexes { Indexes (reverse entries.old.items) index.old }
    ensures ok { OnOk result (entries.new.items ≡ entries.old.items ++ entry ∷ []) }
    ensures indexes { OnOk result (Indexes (entry ∷ reverse entries.old.items) index.new) }
    ensures err { IfErr result (λ event. (entries.new.items ≡ entries.old.items) × (event ≡ entry.event)) }
    ensures same { OnErr result (index.new ≡ index.old) }
    ensures capacity { vec_capacity entries.new ≡ vec_capacity entries.old }
    ensures free { takes_none entry ≡ true → IsOk result }
{
    match index.append(entries.as_slice(), &entry) {
        Ok(()) => {
            entries.push_reserved(entry);
            Ok(())
        }
        Err(_) => Err(entry.event),
    }
}

/// Puts an entry behind the others and into the index, or hands its event back for want of memory.
fn put_indexed(entries: &mut Vec<Entry>, index: &mut Index, entry: Entry) -> Result<(), Event>
    requires room { HasRoom (reverse entries.old.items) (vec_capacity entries.old) }
    requires numbers { numbers_fall entry.number (reverse entries.old.items) ≡ true }
    requires indexes { Indexes (reverse entries.old.items) index.old }
    requires back { closes_place (reverse entries.old.items) entry.event ≡ true → requests.reserved_places (entry ∷ reverse entries.old.items) + 1 ≤ requests.reserved_places (reverse entries.old.items) }
    requires none { closes_place (reverse entries.old.items) entry.event ≡ true → takes_none entry ≡ true }
    ensures ok { OnOk result (entries.new.items ≡ entries.old.items ++ entry ∷ []) }
    ensures err { IfErr result (λ event. (entries.new.items ≡ entries.old.items) × (event ≡ entry.event)) }
    ensures room { HasRoom (reverse entries.new.items) (vec_capacity entries.new) }
    ensures indexes { Indexes (reverse entries.new.items) index.new }
    ensures closing { closes_place (reverse entries.old.items) entry.event ≡ true → IsOk result }
{
    if closes_indexed(index, &entry.event) {
        return push_indexed(entries, index, entry);
    }
    match make_room_for(entries, index) {
        Ok(()) => push_indexed(entries, index, entry),
        Err(_) => Err(entry.event),
    }
}

/// The list for the entries that a forget keeps, with room for as many as there are and for those that close what is open.
fn room_of(alloc: Global, entries: &[Entry], index: &Index) -> Result<Vec<Entry>, Memory>
    requires { Indexes (reverse entries.now) index.now }
    ensures none { IfOk result (λ made. made.items ≡ []) }
    ensures room { IfOk result (λ made. length entries.now + requests.reserved_places (reverse entries.now) ≤ vec_capacity made) }
{
    let mut made = Vec::new(alloc);
    made.reserve(entries.len() + index.reserved_places())?;
    Ok(made)
}

/// Forgets the entries that no later event can look at, and hands them back. All memory is taken before an entry is moved.
fn forget_indexed(
    alloc: Global,
    hasher: Primed,
    entries: &mut Vec<Entry>,
    index: &mut Index,
) -> Result<Forgotten, Memory>
    requires indexes { Indexes (reverse entries.old.items) index.old }
    requires shown { IsKeptOf (reverse entries.old.items) (needed.needed (reverse entries.old.items)) }
    requires room { HasRoom (reverse entries.old.items) (vec_capacity entries.old) }
    ensures kept { OnOk result (reverse entries.new.items ≡ needed.needed (reverse entries.old.items)) }
    ensures back { IfOk result (λ made. AreForgotten (reverse entries.old.items) made) }
    ensures unchanged { OnErr result (entries.new.items ≡ entries.old.items) }
    ensures indexes { Indexes (reverse entries.new.items) index.new }
    ensures room { HasRoom (reverse entries.new.items) (vec_capacity entries.new) }
{
    let Plan { marks, remade } = plan_of(alloc, hasher, entries.as_slice(), index)?;
    let kept = room_of(alloc, entries.as_slice(), index)?;
    let all = mem::replace(entries, Vec::new(alloc));
    let Sifted {
        kept,
        dropped,
        text_bytes,
    } = sift(all, marks.as_slice(), kept);
    *entries = kept;
    index.remake(remade);
    Ok(Forgotten {
        dropped,
        text_bytes,
    })
}

impl Past for IndexedPast {
    ghost entries = { λ p. p };

    fn open(alloc: Global, list: Vec<Entry>, secret: &[u8]) -> Result<IndexedPast, Memory> {
        let hasher = Primed::new(secret);
        let index = Index::of(alloc, hasher, list.as_slice())?;
        let entries = with_room(list)?;
        Ok(IndexedPast {
            entries,
            index,
            hasher,
        })
    }

    fn list(&self) -> &[Entry] {
        self.entries.as_slice()
    }

    fn reserved_places(&self) -> usize {
        self.index.reserved_places()
    }

    fn is_open_request(&self, number: u64) -> bool {
        self.index.is_open_request(number)
    }

    fn is_open_attempt(&self, number: u64) -> bool {
        self.index.is_open_attempt(number)
    }

    fn waits_for(&self, ticket: u64) -> Option<u64> {
        self.index.waits_for(ticket)
    }

    fn newest(&self, key: &Key) -> Option<Standing<'_>> {
        newest_by(&self.index, key)
    }

    fn record(&self, key: Option<&Key>, number: u64) -> Option<&Shared<Record>> {
        record_by(self.entries.as_slice(), &self.index, key, number)
    }

    fn outage_at(&self, timeout: u32, moment: u64) -> Option<u64> {
        self.index.outage_at(timeout, moment)
    }

    fn reply_to_ask(&self, settings: &Settings, number: u64, moment: u64, key: &Key) -> Reply {
        self.index.reply_to_ask(settings, number, moment, key)
    }

    fn picked_server(&self, settings: &Settings, request: u64, moment: u64) -> Option<u32> {
        self.index.picked_server(settings, request, moment)
    }

    fn rows(&self, alloc: Global, next: u64, floor: u64) -> Result<Rows, Memory> {
        let whole = Whole {
            entries: self.entries.as_slice(),
            index: &self.index,
        };
        rows_of(alloc, self.hasher, next, floor, whole)
    }

    fn put(&mut self, entry: Entry) -> Result<(), Event> {
        put_indexed(&mut self.entries, &mut self.index, entry)
    }

    fn forget(&mut self, alloc: Global) -> Result<Forgotten, Memory> {
        forget_indexed(alloc, self.hasher, &mut self.entries, &mut self.index)
    }
}
