// What a core asks of the entries made so far.
ghost use Rattle.std.specs.Prelude.{◌≡◌, ◌+◌, ◌<◌, ◌≤◌, ◌^◌, ◌∷◌, List, true, reverse, IfOk, IfErr, IsOk, OnErr, OnOk};
ghost use Rattle.std.specs.Option.{option_copied, option_map};
ghost use Rattle.sd_rules.specs.declared.replies.Entry.{Entry};
ghost use Rattle.sd_rules.specs.Answers as answers;
ghost use Rattle.sd_rules.specs.Needed as needed;
ghost use Rattle.sd_rules.specs.Past as past;
ghost use Rattle.sd_rules.specs.Requests as requests;
ghost use Rattle.sd_rules.specs.Servers as servers;
ghost use Rattle.sd_rules.specs.Steps as steps;
ghost use Rattle.sd_journal.specs.Seen as seen;
ghost use Rattle.sd_keeping.specs.Counts as counts;
ghost use Rattle.sd_forgetting.specs.Kept.{IsKeptOf};
ghost use Rattle.sd_voids.specs.Entries.{falls, numbers_fall};
ghost use Rattle.sd_index.specs.Table.{takes_none};
ghost use Rattle.sd_past.specs.Closing.{closes_place};
ghost use Rattle.sd_past.specs.Forgetting.{AreForgotten};
ghost use Rattle.sd_past.specs.Kept.{Keeps};

use sd_base::{Memory, Shared};
use sd_journal::past::Standing;
use sd_rules::{Entry, Event, Key, Record, Reply, Rows, Settings};
use std::alloc::Global;

/// What a forget hands back.
#[derive(Drop)]
pub struct Forgotten {
    /// The entries, the oldest first.
    pub dropped: Vec<Entry>,
    /// How much text they hold, in bytes, with eight more for each text.
    pub text_bytes: u64,
}

/// The entries made so far, whose numbers rise.
pub trait Past: Drop {
    /// The entries, the newest first.
    ghost entries: { Self → List Entry };

    /// These entries, the oldest first. Keys and names are hashed by the secret, where they are.
    fn open(alloc: Global, list: Vec<Entry>, secret: &[u8]) -> Result<Self, Memory>
        requires { falls (reverse list.items) ≡ true }
        ensures { IfOk result (λ made. entries made ≡ reverse list.items) };

    /// The entries, the oldest first.
    fn list(&self) -> &[Entry]
        ensures { reverse result.now ≡ entries self.now };

    /// How many places are reserved.
    fn reserved_places(&self) -> usize
        ensures { result ≡ requests.reserved_places (entries self.now) };

    /// Whether a request of this number is open.
    fn is_open_request(&self, number: u64) -> bool
        ensures { result ≡ requests.is_open_request (entries self.now) number };

    /// Whether a login attempt of this number is open.
    fn is_open_attempt(&self, number: u64) -> bool
        ensures { result ≡ requests.is_open_attempt (entries self.now) number };

    /// The request that a ticket waits for, where it waits.
    fn waits_for(&self, ticket: u64) -> Option<u64>
        ensures { result ≡ requests.waits_for (entries self.now) ticket };

    /// The newest answer of a key.
    fn newest(&self, key: &Key) -> Option<Standing<'_>>
        ensures { option_map seen.standing result ≡ past.newest (entries self.now) key.now };

    /// The record that the entry of a number holds. It is found soonest where it is the newest answer of the key, if one is named.
    fn record(&self, key: Option<&Key>, number: u64) -> Option<&Shared<Record>>
        requires { falls (entries self.now) ≡ true }
        ensures { option_copied result ≡ steps.record_in (steps.event_at (entries self.now) number) };

    /// The number of the outage that stands at a moment.
    fn outage_at(&self, timeout: u32, moment: u64) -> Option<u64>
        ensures { result ≡ past.outage_at timeout (entries self.now) moment };

    /// The reply to a question at a moment; `number` is that of the new entry.
    fn reply_to_ask(&self, settings: &Settings, number: u64, moment: u64, key: &Key) -> Reply
        ensures { result ≡ answers.reply_to_ask settings.now (entries self.now) number moment key.now };

    /// The server for a request or an attempt at a moment, counted from 0, primaries first.
    fn picked_server(&self, settings: &Settings, request: u64, moment: u64) -> Option<u32>
        requires { settings.now.primaries + settings.now.backups < 2 ^ 32 }
        ensures { result ≡ servers.picked_server settings.now (entries self.now) request moment };

    /// The rows that are kept of the entries over a restart. The next entry has at least the number `next` and a moment, in seconds, of
    /// at least `floor`.
    fn rows(&self, alloc: Global, next: u64, floor: u64) -> Result<Rows, Memory>
        requires numbers { steps.number_after next (entries self.now) < 2 ^ 64 }
        requires guesses { counts.HasCounts (entries self.now) }
        ensures { IfOk result (λ rows. Keeps next floor (entries self.now) rows) };

    /// Puts an entry behind the others, or hands its event back for want of memory. One that closes what is open has its room already.
    fn put(&mut self, entry: Entry) -> Result<(), Event>
        requires numbers { numbers_fall entry.number (entries self.old) ≡ true }
        requires back { closes_place (entries self.old) entry.event ≡ true → requests.reserved_places (entry ∷ entries self.old) + 1 ≤ requests.reserved_places (entries self.old) }
        requires none { closes_place (entries self.old) entry.event ≡ true → takes_none entry ≡ true }
        ensures ok { OnOk result (entries self.new ≡ entry ∷ entries self.old) }
        ensures err { IfErr result (λ event. (entries self.new ≡ entries self.old) × (event ≡ entry.event)) }
        ensures closing { closes_place (entries self.old) entry.event ≡ true → IsOk result };

    /// Forgets the entries that no later event can look at, and hands them back, the oldest first. What is kept shows all that the
    /// whole does.
    fn forget(&mut self, alloc: Global) -> Result<Forgotten, Memory>
        requires shown { IsKeptOf (entries self.old) (needed.needed (entries self.old)) }
        ensures kept { OnOk result (entries self.new ≡ needed.needed (entries self.old)) }
        ensures back { IfOk result (λ made. AreForgotten (entries self.old) made) }
        ensures unchanged { OnErr result (entries self.new ≡ entries self.old) };
}
