// What a question and the test for room ask of a journal, kept beside its list.
ghost use Rattle.std.specs.Prelude.{◌≡◌, ◌+◌, ◌-◌, ◌*◌, ◌^◌, ◌<◌, [], ◌∷◌, true, false, min, nat_lt, length, reverse, List, IfOk, IsOk, OnOk, OnErr};
ghost use Rattle.std.specs.Option.{option_copied, option_map};
ghost use Rattle.sd_rules.specs.declared.replies.Entry.{Entry};
ghost use Rattle.sd_rules.specs.Answers as answers;
ghost use Rattle.sd_rules.specs.Past as journal;
ghost use Rattle.sd_rules.specs.Requests as requests;
ghost use Rattle.sd_rules.specs.Servers as picks;
ghost use Rattle.sd_cache.specs.Cache.{HoldsNewest};
ghost use Rattle.sd_cache.specs.Kept.{kept_of};
ghost use Rattle.sd_index.specs.Asked as asked;
ghost use Rattle.sd_voids.specs.Entries.{falls, numbers_fall};
ghost use Rattle.sd_index.specs.Filed.{is_filed};
ghost use Rattle.sd_voids.specs.Voids.{HoldsVoids};

use crate::answers::put_answer;
use crate::asked::{is_filtered, reply_by_newest};
use crate::outages::{Outage, outage_after, standing_at};
use crate::places::{Place, has_attempt, has_request, make_room, place_of, running, settle, waits};
use crate::remade::Remade;
use crate::signals;
use sd_base::Memory;
use sd_cache::{Cache, Newest, Primed};
use sd_journal::servers;
use sd_rules::{Entry, Event, Key, Reply, Settings};
use sd_voids::voids::Voids;
use std::alloc::Global;
use std::marker::Model;

/// What is kept beside a journal, which contracts see as a table that says what the journal says.
pub struct Index {
    cache: Cache,
    voids: Voids,
    outage: Option<Outage>,
    /// The oldest first.
    places: Vec<Place>,
    /// The entries that tell of servers, the oldest first.
    signals: Vec<Entry>,
}

impl Drop for Index {
    fn drop(self) {
        let Index {
            cache: _,
            voids: _,
            outage: _,
            places: _,
            signals: _,
        } = self;
    }
}

impl Model for Index {
    ghost use Rattle.std.specs.Prelude.{reverse};
    ghost use Rattle.sd_index.specs.Table.{Table};

    ghost Value = { Table };

    ghost view = { λ i. record { answers = i.cache; bounds = i.voids; outage = i.outage; places = i.places.items; signals = reverse i.signals.items } };
}

/// The number below which what is kept of an answer is voided.
fn bound_of(voids: &Voids, answer: Option<&Newest>) -> u64
    ensures { result ≡ asked.bound_for voids.now (option_copied answer.entry) }
{
    match answer {
        Some(answer) => voids.bound(answer.own.value(), &answer.answered),
        None => 0,
    }
}

/// Files what an entry says of a key or of a name.
fn file(cache: &mut Cache, voids: &mut Voids, before: &[Entry], entry: &Entry) -> Result<(), Memory>
    requires { numbers_fall entry.now.number (reverse before.now) ≡ true }
    ensures answers { OnOk result (HoldsNewest (reverse before.now) cache.old → HoldsNewest (entry.now ∷ reverse before.now) cache.new) }
    ensures bounds { OnOk result (HoldsVoids (reverse before.now) voids.old → HoldsVoids (entry.now ∷ reverse before.now) voids.new) }
    ensures same_answers { OnErr result (cache.new ≡ cache.old) }
    ensures same_bounds { OnErr result (voids.new ≡ voids.old) }
    ensures free { is_filed entry.now.event ≡ false → IsOk result }
{
    match &entry.event {
        Event::Void(what) => voids.note(what, entry.number),
        _ => put_answer(cache, before, entry),
    }
}

impl Index {
    ghost use Rattle.sd_rules.specs.Needed.{needed};
    ghost use Rattle.sd_forgetting.specs.Kept.{IsKeptOf};
    ghost use Rattle.sd_index.specs.Table.{Indexes, Remakes, reply_in, takes_none};

    /// The index of a journal with no entries; keys and names are hashed so.
    #[tactic(auto, using(crate::proofs::TableLaws::indexes_none))]
    pub fn new(alloc: Global, hasher: Primed) -> Index
        ensures { Indexes [] result }
    {
        Index {
            cache: Cache::new(alloc, hasher),
            voids: Voids::new(alloc, hasher),
            outage: None,
            places: Vec::new(alloc),
            signals: Vec::new(alloc),
        }
    }

    /// Keeps what one more entry says; `before` are the entries before it, whose index this is. An entry of which nothing is kept
    /// takes no memory.
    pub fn append(&mut self, before: &[Entry], entry: &Entry) -> Result<(), Memory>
        requires indexes { Indexes (reverse before.now) self.old }
        requires numbers { numbers_fall entry.now.number (reverse before.now) ≡ true }
        ensures ok { OnOk result (Indexes (entry.now ∷ reverse before.now) self.new) }
        ensures err { OnErr result (self.new ≡ self.old) }
        ensures free { takes_none entry.now ≡ true → IsOk result }
    {
        let place = place_of(entry)?;
        make_room(&mut self.places, &place)?;
        signals::make_room(&mut self.signals, entry)?;
        file(&mut self.cache, &mut self.voids, before, entry)?;
        settle(&mut self.places, &entry.event, entry.reply, place);
        signals::note(&mut self.signals, entry);
        self.outage = outage_after(self.outage, entry);
        Ok(())
    }

    /// The index of a list of entries, the oldest first.
    #[tactic(auto, using(sd_voids::proofs::Halves::numbers_before, crate::proofs::TableLaws::indexes_more, crate::proofs::TableLaws::indexes_none))]
    pub fn of(alloc: Global, hasher: Primed, entries: &[Entry]) -> Result<Index, Memory>
        requires { falls (reverse entries.now) ≡ true }
        ensures { IfOk result (λ index. Indexes (reverse entries.now) index) }
    {
        let mut index = Index::new(alloc, hasher);
        for place in 0..entries.len() {
            index.append(&entries[..place], &entries[place])?;
        }
        Ok(index)
    }

    /// Puts what was made anew in the place of what there was.
    fn put(&mut self, remade: Remade)
        ensures { self.new ≡ record self.old { bounds = remade.bounds; signals = remade.signals } }
    {
        let (voids, signals) = remade.into_parts();
        self.voids = voids;
        self.signals = signals;
    }

    /// Turns the index of a journal into that of the entries which a forget keeps of it; what is made anew is theirs.
    pub fn remake(&mut self, remade: Remade)
        ensures { (whole : List Entry) → Indexes whole self.old → IsKeptOf whole (needed whole) → Remakes (needed whole) remade → Indexes (needed whole) self.new }
    {
        self.put(remade);
    }

    fn reply(&self, settings: &Settings, number: u64, moment: u64, key: &Key) -> Reply
        ensures { result ≡ reply_in self.now settings.now number moment key.now }
    {
        if is_filtered(settings, key) {
            return Reply::Filtered;
        }
        let answer = self.cache.newest(key);
        let bound = bound_of(&self.voids, answer);
        let outage = standing_at(self.outage, settings.offline_timeout, moment);
        let running = running(self.places.as_slice(), key);
        reply_by_newest(settings, number, moment, answer, bound, outage, running)
    }

    /// The reply to a question at a moment; `number` is that of the new entry.
    pub fn reply_to_ask(&self, settings: &Settings, number: u64, moment: u64, key: &Key) -> Reply
        ensures { (past : List Entry) → Indexes past self.now → result ≡ answers.reply_to_ask settings.now past number moment key.now }
    {
        self.reply(settings, number, moment, key)
    }

    /// The newest answer of a key.
    pub fn newest(&self, key: &Key) -> Option<&Newest>
        ensures { (past : List Entry) → Indexes past self.now → option_copied result ≡ option_map kept_of (journal.newest past key.now) }
    {
        self.cache.newest(key)
    }

    /// The newest answer of a key and its place among those that are kept, where it is looked for first right behind another place.
    pub fn newest_behind(&self, place: usize, key: &Key) -> Option<(usize, &Newest)>
        ensures { (past : List Entry) → Indexes past self.now → option_map (λ p. p.1.now) result ≡ option_map kept_of (journal.newest past key.now) }
    {
        self.cache.newest_behind(place, key)
    }

    /// The number of the outage that stands at a moment.
    pub fn outage_at(&self, timeout: u32, moment: u64) -> Option<u64>
        ensures { (past : List Entry) → Indexes past self.now → result ≡ journal.outage_at timeout past moment }
    {
        standing_at(self.outage, timeout, moment)
    }

    /// Whether a request of this number is open.
    pub fn is_open_request(&self, number: u64) -> bool
        ensures { (past : List Entry) → Indexes past self.now → result ≡ requests.is_open_request past number }
    {
        has_request(self.places.as_slice(), number)
    }

    /// Whether a login attempt of this number is open.
    pub fn is_open_attempt(&self, number: u64) -> bool
        ensures { (past : List Entry) → Indexes past self.now → result ≡ requests.is_open_attempt past number }
    {
        has_attempt(self.places.as_slice(), number)
    }

    /// The request that a ticket waits for, where it waits.
    pub fn waits_for(&self, ticket: u64) -> Option<u64>
        ensures { (past : List Entry) → Indexes past self.now → result ≡ requests.waits_for past ticket }
    {
        waits(self.places.as_slice(), ticket)
    }

    /// The server for a request or an attempt at a moment, counted from 0, primaries first.
    pub fn picked_server(&self, settings: &Settings, request: u64, moment: u64) -> Option<u32>
        requires { settings.now.primaries + settings.now.backups < 2 ^ 32 }
        ensures { (past : List Entry) → Indexes past self.now → result ≡ picks.picked_server settings.now past request moment }
    {
        servers::picked_server(settings, self.signals.as_slice(), request, moment)
    }

    fn count(&self) -> usize
        ensures { result ≡ length self.now.places }
    {
        self.places.as_slice().len()
    }

    /// How many places are reserved.
    pub fn reserved_places(&self) -> usize
        ensures { (past : List Entry) → Indexes past self.now → result ≡ requests.reserved_places past }
    {
        self.count()
    }
}
