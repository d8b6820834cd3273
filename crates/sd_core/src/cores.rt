// A core: it answers from the entries made so far.
ghost use Rattle.std.specs.Prelude.{◌≡◌, ◌↔◌, ◌||◌, ℕ, ◌+◌, ◌-◌, ◌*◌, ◌^◌, ◌<◌, ◌≤◌, [], ◌∷◌, true, false, length, reverse, min, sum_by, vec_capacity, None, IfOk, IfErr, IfSome, IsOk, IsSome, OnErr, OnOk};
ghost use Rattle.sd_rules.specs.KeptRows as kept;
ghost use Rattle.sd_rules.specs.Needed as needed;
ghost use Rattle.sd_rules.specs.Reaching as reaching;
ghost use Rattle.sd_rules.specs.Requests as requests;
ghost use Rattle.sd_rules.specs.Steps as steps;
ghost use Rattle.sd_rules.specs.TextBytes as bytes;
ghost use Rattle.sd_index.specs.Table.{takes_none};
ghost use Rattle.sd_past.specs.Closing.{closes_place};
ghost use Rattle.sd_core.specs.Held as held;
ghost use Rattle.sd_core.specs.Laws as laws;
ghost use Rattle.sd_core.specs.Looks as looks;
ghost use Rattle.sd_core.specs.Opens as opens;
ghost use Rattle.sd_core.specs.Sound as sound;
ghost use Rattle.sd_core.specs.declared.cores.OpenFault.TheVariants as faults;

use crate::given::given_by;
use crate::opens::is_open;
use crate::replies::{reply_to, reply_to_collect};
use sd_base::Memory;
use sd_books::{Compiled, LoginBook, NoBook, Ruling, Unkept, UserBook, keep, ruling_by};
use sd_journal::requests::is_took;
use sd_keeping::{OpenJournal, bad_row, opened};
use sd_past::{Forgotten, IndexedPast, ListedPast, Past};
use sd_rules::{Entry, Event, Given, Journal, Key, Refused, Rows, Settings, StepFault};
use sd_voids::texts::{of_entries, of_event};
use std::alloc::Global;
use std::marker::Model;

/// How many text bytes the events of a journal may hold.
const TEXT_LIMIT: u64 = 512 * 1024 * 1024;

/// A core over the entries made so far, kept one way or another.
#[derive(Drop)]
pub struct EntryCore<P: Past, R: Ruling, L: LoginBook> {
    alloc: Global,
    settings: Settings,
    next: u64,
    floor: u64,
    text_bytes: u64,
    has_stopped: bool,
    past: P,
    ruling: R,
    logins: L,
}

impl<P: Past, R: Ruling, L: LoginBook> Model for EntryCore<P, R, L> {
    ghost use Rattle.sd_rules.specs.declared.keys.Key.TheVariants as keys;
    ghost use Rattle.sd_rules.specs.Past as answers;
    ghost use Rattle.sd_rules.specs.Steps as steps;
    ghost use Rattle.sd_core.specs.Held as held;

    ghost Value = { steps.Daemon };

    ghost view = { λ c. held.daemon_of c.settings c.next c.floor (P.entries c.past) };

    ghost invariant = { λ c. (held.IsHeld c.settings c.next c.floor c.text_bytes c.has_stopped (P.entries c.past)) × ((R.Says c.ruling (answers.newest (P.entries c.past) keys.Rules)) × (L.Says c.logins (P.entries c.past))) };
}

/// A core that seeks each answer in the list of its entries, and reads the access rules and the logins there.
pub type PlainCore = EntryCore<ListedPast, Unkept, NoBook>;

/// A core that answers from an index beside the list and from marks of users, without a walk, and checks accounts by compiled rules.
pub type IndexedCore = EntryCore<IndexedPast, Compiled, UserBook>;

/// Why a core is not opened.
#[derive(Clone, Copy, PartialEq, Eq)]
pub enum OpenFault {
    /// The first row that is against the rules for kept rows, by its place, counted from 0.
    BadRows(u32),
    /// Want of memory.
    Memory,
}

impl From<Memory> for OpenFault {
    ghost from_gives = { λ _ fault. fault ≡ faults.Memory };

    fn from(_memory: Memory) -> OpenFault {
        OpenFault::Memory
    }
}

/// What a ticket waits for.
#[derive(Clone, Copy, PartialEq, Eq)]
pub enum Look {
    /// This request, which is open.
    Running(u64),
    /// A request that is closed: the outcome can be collected.
    Closed,
    /// No ticket of this number waits.
    NoTicket,
}

fn look_by<P: Past>(past: &P, request: Option<u64>) -> Look
    ensures { result ≡ looks.look_by (P.entries past.now) request }
{
    match request {
        Some(request) => {
            if past.is_open_request(request) {
                Look::Running(request)
            } else {
                Look::Closed
            }
        }
        None => Look::NoTicket,
    }
}

fn is_stop(event: &Event) -> bool
    ensures { result ≡ looks.is_stop event.now }
{
    matches!(event, Event::Stop)
}

/// Whether the word to end stands after one more event.
fn stops_after(event: &Event, before: bool) -> bool
    ensures { result ≡ (looks.is_stop event.now || before) }
{
    is_stop(event) || before
}

fn has_stopped(entries: &[Entry]) -> bool
    ensures { result ≡ looks.has_stopped (reverse entries.now) }
{
    for place in (0..entries.len()).rev() {
        if is_stop(&entries[place].event) {
            return true;
        }
    }
    false
}

fn next_moment(floor: u64, entries: &[Entry], now: u64) -> u64
    ensures { result ≡ steps.moment_after floor (reverse entries.now) now }
{
    match entries {
        [] => now.max(floor),
        [.., last] => now.max(floor).max(last.moment),
    }
}

/// Whether an event gives back a reserved place.
fn gives_back<P: Past>(past: &P, event: &Event) -> bool
    ensures { result ≡ steps.gives_back (P.entries past.now) event.now }
{
    match event {
        Event::Abandon(number) => is_open(past, *number),
        Event::Leave(ticket) => past.waits_for(*ticket).is_some(),
        Event::Collect(ticket) => is_took(reply_to_collect(past, past.waits_for(*ticket))),
        _ => false,
    }
}

impl<P: Past, R: Ruling, L: LoginBook> EntryCore<P, R, L> {
    /// A core with kept rows: an entry for each but the head. Without rows it has none. At most 64 servers. Where keys and names are
    /// hashed, the secret keeps whoever chooses them from choosing their hashes.
    pub fn open_keyed(
        alloc: Global,
        settings: Settings,
        rows: Rows,
        secret: &[u8],
    ) -> Result<EntryCore<P, R, L>, OpenFault>
        requires servers { settings.primaries + settings.backups ≤ 64 }
        requires few { length rows < 2 ^ 32 }
        ensures opened { IfOk result (λ core. core ≡ kept.opened settings rows) }
        ensures good { OnOk result (kept.bad_row rows ≡ None) }
        ensures fault { IfErr result (opens.FaultOf rows) }
        ensures kept { IfOk result laws.IsKept }
    {
        if let Some(place) = bad_row(&rows) {
            return Err(OpenFault::BadRows(place as u32));
        }
        let OpenJournal {
            next,
            floor,
            entries,
        } = opened(alloc, &rows)?;
        let text_bytes = of_entries(entries.as_slice());
        let has_stopped = has_stopped(entries.as_slice());
        let logins = L::read(alloc, entries.as_slice())?;
        let past = P::open(alloc, entries, secret)?;
        let ruling = R::of(alloc, past.newest(&Key::Rules))?;
        Ok(EntryCore {
            alloc,
            settings,
            next,
            floor,
            text_bytes,
            has_stopped,
            past,
            ruling,
            logins,
        })
    }

    /// A core with kept rows, whose hashes may be known.
    pub fn open(
        alloc: Global,
        settings: Settings,
        rows: Rows,
    ) -> Result<EntryCore<P, R, L>, OpenFault>
        requires servers { settings.primaries + settings.backups ≤ 64 }
        requires few { length rows < 2 ^ 32 }
        ensures opened { IfOk result (λ core. core ≡ kept.opened settings rows) }
        ensures good { OnOk result (kept.bad_row rows ≡ None) }
        ensures fault { IfErr result (opens.FaultOf rows) }
        ensures kept { IfOk result laws.IsKept }
    {
        EntryCore::open_keyed(alloc, settings, rows, &[])
    }

    /// The entries made so far, the oldest first.
    pub fn journal(&self) -> &[Entry]
        ensures { reverse result.now ≡ self.now.past }
    {
        self.past.list()
    }

    /// The rows that are kept of the journal over a restart.
    pub fn kept(&self) -> Result<Rows, Memory>
        ensures rows { IfOk result (λ rows. rows ≡ kept.rows_of self.now) }
        ensures few { IfOk result (λ rows. length rows < 2 ^ 32) }
        ensures texts { IfOk result (λ rows. sum_by bytes.bytes_of_row rows ≤ 512 * 1024 * 1024) }
    {
        self.past.rows(self.alloc, self.next, self.floor)
    }

    /// What a ticket waits for. It makes no entry and takes no memory.
    pub fn look(&self, ticket: u64) -> Look
        ensures { result ≡ looks.look_of self.now.past ticket }
    {
        look_by(&self.past, self.past.waits_for(ticket))
    }

    /// Whether the operator's word to end the daemon was given.
    pub fn stopping(&self) -> bool
        ensures { result ≡ looks.has_stopped self.now.past }
    {
        self.has_stopped
    }

    /// The number of the next entry.
    #[tactic(auto, using(crate::proofs::Room::next_is_above))]
    pub fn next_number(&self) -> u64
        ensures number { result ≡ steps.next_number self.now }
        ensures next { result ≡ self.now.next }
        ensures sound { sound.IsSound self.now }
    {
        self.next
    }

    /// The entries kept and the places reserved.
    fn full_count(&self) -> u64
        ensures { result ≡ steps.full_count self.now }
    {
        self.past.list().len() as u64 + self.past.reserved_places() as u64
    }

    /// Places are counted only where they could be too few: each entry reserves at most one.
    fn lacks_places(&self, limit: u128) -> bool
        requires { limit ≡ self.now.settings.journal_limit }
        ensures { result ≡ steps.lacks_places self.now }
    {
        let entries = self.past.list();
        limit < 2 * (entries.len() as u128) + 2 && limit < u128::from(self.full_count()) + 2
    }

    fn lacks_text(&self, event: &Event) -> bool
        ensures { result ≡ steps.lacks_text self.now event.now }
    {
        TEXT_LIMIT < self.text_bytes.saturating_add(of_event(event))
    }

    /// Whether the numbers are at their end; places are counted as in `lacks_places`.
    fn lacks_numbers(&self) -> bool
        ensures { result ≡ steps.lacks_numbers self.now }
    {
        let last = u128::from(u64::MAX);
        let next = u128::from(self.next_number());
        let entries = self.past.list();
        last < next + entries.len() as u128 + 2
            && last < next + self.past.reserved_places() as u128 + 2
    }

    /// Whether the journal has no room for an event.
    fn is_full(&self, event: &Event) -> bool
        ensures exact { result ≡ steps.is_full self.now event.now }
        ensures small { self.now.settings.journal_limit < 2 ^ 32 }
    {
        let limit = u128::from(self.settings.journal_limit);
        !gives_back(&self.past, event)
            && (self.lacks_places(limit) || self.lacks_text(event) || self.lacks_numbers())
    }

    fn moment_of(&self, now: u64) -> u64
        ensures moment { result ≡ steps.moment_of self.now now }
        ensures sound { sound.IsSound self.now }
        ensures kept { laws.IsKept self.now }
    {
        next_moment(self.floor, self.past.list(), now)
    }

    /// What the step of an event would give.
    fn given(&self, moment: u64, event: &Event) -> Result<Given, Memory>
        ensures made { IfOk result (λ given. given ≡ steps.given_by self.now.past (steps.next_number self.now) (steps.reply_to self.now.settings self.now.past (steps.next_number self.now) moment event.now)) }
        ensures closing { closes_place self.now.past event.now ≡ true → IsOk result }
    {
        let number = self.next_number();
        let reply = reply_to(
            self.alloc,
            &self.settings,
            &self.past,
            &self.ruling,
            &self.logins,
            number,
            moment,
            event,
        )?;
        given_by(&self.past, number, event, reply)
    }

    /// Puts an entry at the end of the journal, or hands its event back for want of memory.
    fn append(&mut self, entry: Entry) -> Result<(), Event>
        requires sound { sound.IsSound (steps.recorded self.old entry) }
        requires kept { laws.IsKept (steps.recorded self.old entry) }
        requires back { closes_place self.old.past entry.event ≡ true → requests.reserved_places (entry ∷ self.old.past) + 1 ≤ requests.reserved_places self.old.past }
        requires none { closes_place self.old.past entry.event ≡ true → takes_none entry ≡ true }
        ensures ok { OnOk result (self.new ≡ steps.recorded self.old entry) }
        ensures err { IfErr result (λ event. (self.new ≡ self.old) × (event ≡ entry.event)) }
        ensures closing { closes_place self.old.past entry.event ≡ true → IsOk result }
    {
        let next = entry.number + 1;
        let text_bytes = self.text_bytes + of_event(&entry.event);
        let has_stopped = stops_after(&entry.event, self.has_stopped);
        let Ok(ruling) = ruling_by(self.alloc, &self.past, &entry) else {
            return Err(entry.event);
        };
        self.logins.put(&mut self.past, entry)?;
        keep(&mut self.ruling, ruling);
        self.next = next;
        self.text_bytes = text_bytes;
        self.has_stopped = has_stopped;
        Ok(())
    }

    /// Makes the entry of an event and gives what it says; `now` is the moment handed in, in seconds. A full journal refuses before
    /// memory is asked for. A refused step leaves the core as it was and hands the event back. An Abandon of what is open and a Leave
    /// of a ticket that waits take no memory.
    pub fn step(&mut self, now: u64, event: Event) -> Result<Given, Refused>
        requires { steps.is_steppable self.old.past event ≡ true }
        ensures made { OnOk result (self.new ≡ steps.after self.old now event) }
        ensures given { IfOk result (λ given. given ≡ steps.given self.old now event) }
        ensures room { OnOk result (steps.is_full self.old event ≡ false) }
        ensures full { steps.is_full self.old event ≡ true → IfErr result (λ refused. refused.fault ≡ StepFault.JournalFull (steps.full_count self.old)) }
        ensures full_only { IfErr result (λ refused. (n : ℕ) → refused.fault ≡ StepFault.JournalFull n → (steps.is_full self.old event ≡ true) × (n ≡ steps.full_count self.old)) }
        ensures back { IfErr result (λ refused. refused.event ≡ event) }
        ensures unchanged { OnErr result (self.new ≡ self.old) }
        ensures closing { closes_place self.old.past event ≡ true → IsOk result }
        ensures of_kind { IfOk result (λ given. sound.found_fits self.old.past event given.found ≡ true) }
        ensures texts { bytes.text_bytes self.new.past ≤ 512 * 1024 * 1024 }
    {
        let moment = self.moment_of(now);
        if self.is_full(&event) {
            let fault = StepFault::JournalFull(self.full_count());
            return Err(Refused { fault, event });
        }
        let Ok(given) = self.given(moment, &event) else {
            let fault = StepFault::Memory;
            return Err(Refused { fault, event });
        };
        let entry = Entry {
            number: given.number,
            moment,
            event,
            reply: given.reply,
        };
        match self.append(entry) {
            Ok(()) => Ok(given),
            Err(event) => Err(Refused {
                fault: StepFault::Memory,
                event,
            }),
        }
    }

    /// Forgets the entries that no later event can look at, and hands them back, the oldest first. For want of memory all are kept.
    pub fn forget(&mut self) -> Result<Journal, Memory>
        ensures forgotten { OnOk result (self.new ≡ reaching.after_forget self.old) }
        ensures back { IfOk result (λ dropped. reverse dropped ≡ needed.forgotten self.old.past) }
        ensures unchanged { OnErr result (self.new ≡ self.old) }
    {
        let Forgotten {
            dropped,
            text_bytes,
        } = self.logins.forget(self.alloc, &mut self.past)?;
        // Whether a word to end came stays as it is, since the last one is kept.
        self.text_bytes = self.text_bytes.saturating_sub(text_bytes);
        Ok(Journal::from(dropped))
    }
}
