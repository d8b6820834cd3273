// The daemon's core, as the layers above use it.
ghost use Rattle.std.specs.Prelude.{◌≡◌, ℕ, ◌+◌, ◌*◌, ◌^◌, ◌<◌, ◌≤◌, true, false, length, reverse, sum_by, None, IfOk, IfErr, IsOk, OnErr, OnOk};
ghost use Rattle.sd_rules.specs.KeptRows as kept;
ghost use Rattle.sd_rules.specs.Needed as needed;
ghost use Rattle.sd_rules.specs.Reaching as reaching;
ghost use Rattle.sd_rules.specs.Steps as steps;
ghost use Rattle.sd_rules.specs.TextBytes as bytes;
ghost use Rattle.sd_forgetting.specs.Kept as shown;
ghost use Rattle.sd_past.specs.Closing.{closes_place};
ghost use Rattle.sd_core.specs.Growth as growth;
ghost use Rattle.sd_core.specs.Laws as laws;
ghost use Rattle.sd_core.specs.Looks as looks;
ghost use Rattle.sd_core.specs.Opens as opens;
ghost use Rattle.sd_core.specs.Sound as sound;

use crate::cores::{IndexedCore, Look, OpenFault};
use sd_base::Memory;
use sd_rules::{Entry, Event, Given, Journal, Refused, Rows, Settings, StepFault};
use std::alloc::Global;
use std::marker::Model;

/// The core of the daemon: the one journal and the replies to events.
pub struct Core {
    indexed: IndexedCore,
}

impl Drop for Core {
    fn drop(self) {
        let Core { indexed: _ } = self;
    }
}

impl Model for Core {
    ghost use Rattle.sd_rules.specs.Steps as steps;
    ghost use Rattle.sd_core.specs.Laws as laws;

    ghost Value = { steps.Daemon };

    ghost view = { λ c. c.indexed };

    ghost invariant = { λ c. laws.IsKept c.indexed };
}

impl Core {
    /// A core with kept rows: an entry for each but the head. Without rows it has none. At most 64 servers.
    pub fn open(alloc: Global, settings: Settings, rows: Rows) -> Result<Core, OpenFault>
        requires servers { settings.primaries + settings.backups ≤ 64 }
        requires few { length rows < 2 ^ 32 }
        ensures opened { IfOk result (λ core. core ≡ kept.opened settings rows) }
        ensures good { OnOk result (kept.bad_row rows ≡ None) }
        ensures fault { IfErr result (opens.FaultOf rows) }
        ensures kept { IfOk result laws.IsKept }
    {
        let indexed = IndexedCore::open(alloc, settings, rows)?;
        Ok(Core { indexed })
    }

    /// The same, for names that come from outside: whoever chooses them cannot choose their hashes without the secret.
    pub fn open_keyed(
        alloc: Global,
        settings: Settings,
        rows: Rows,
        secret: &[u8],
    ) -> Result<Core, OpenFault>
        requires servers { settings.primaries + settings.backups ≤ 64 }
        requires few { length rows < 2 ^ 32 }
        ensures opened { IfOk result (λ core. core ≡ kept.opened settings rows) }
        ensures good { OnOk result (kept.bad_row rows ≡ None) }
        ensures fault { IfErr result (opens.FaultOf rows) }
        ensures kept { IfOk result laws.IsKept }
    {
        let indexed = IndexedCore::open_keyed(alloc, settings, rows, secret)?;
        Ok(Core { indexed })
    }

    /// The entries made so far, the oldest first.
    pub fn journal(&self) -> &[Entry]
        ensures { reverse result.now ≡ self.now.past }
    {
        self.indexed.journal()
    }

    /// The rows that are kept of the journal over a restart.
    pub fn kept(&self) -> Result<Rows, Memory>
        ensures rows { IfOk result (λ rows. rows ≡ kept.rows_of self.now) }
        ensures few { IfOk result (λ rows. length rows < 2 ^ 32) }
        ensures texts { IfOk result (λ rows. sum_by bytes.bytes_of_row rows ≤ 512 * 1024 * 1024) }

        // Of a journal for which all laws hold.
        ensures lawful { laws.IsKept self.now }
    {
        self.indexed.kept()
    }

    /// The number of the next entry.
    pub fn next_number(&self) -> u64
        ensures number { result ≡ self.now.next }
        ensures kept { laws.IsKept self.now }
        ensures sound { sound.IsSound self.now }
    {
        self.indexed.next_number()
    }

    /// What a ticket waits for. It makes no entry and takes no memory.
    pub fn look(&self, ticket: u64) -> Look
        ensures { result ≡ looks.look_of self.now.past ticket }
    {
        self.indexed.look(ticket)
    }

    /// Whether the operator's word to end the daemon was given.
    pub fn stopping(&self) -> bool
        ensures { result ≡ looks.has_stopped self.now.past }
    {
        self.indexed.stopping()
    }

    /// Makes the entry of an event and gives what it says; `now` is the moment handed in, in seconds. A full journal refuses before
    /// memory is asked for. A refused step leaves the core as it was and hands the event back. An Abandon of what is open and a Leave
    /// of a ticket that waits take no memory.
    pub fn step(&mut self, now: u64, event: Event) -> Result<Given, Refused>
        requires { steps.is_steppable self.old.past event ≡ true }
        ensures made { OnOk result (self.new ≡ steps.after self.old now event) }
        ensures given { IfOk result (λ given. given ≡ steps.given self.old now event) }
        ensures room { OnOk result (steps.is_full self.old event ≡ false) }
        ensures full { steps.is_full self.old event ≡ true → IfErr result (λ refused. refused.fault ≡ StepFault.JournalFull (steps.full_count self.old)) }
        ensures full_only { IfErr result (λ refused. (n : ℕ) → refused.fault ≡ StepFault.JournalFull n → (steps.is_full self.old event ≡ true) × (n ≡ steps.full_count self.old)) }
        ensures back { IfErr result (λ refused. refused.event ≡ event) }
        ensures unchanged { OnErr result (self.new ≡ self.old) }
        ensures closing { closes_place self.old.past event ≡ true → IsOk result }
        ensures texts { bytes.text_bytes self.new.past ≤ 512 * 1024 * 1024 }

        // What follows from the definitions, for every journal that the core keeps.
        ensures laws { IfOk result (laws.FollowsLaws self.old now event) }
        ensures outcomes { OnOk result (laws.KeepsOutcomes self.old.past self.new.past) }
        ensures kept { laws.IsKept self.new }

        // The journal grows by legal entries, whether the step is made or refused.
        ensures reached { reaching.Reaches self.old self.new }
        ensures legal { growth.KeepsGrown self.old self.new }
        ensures part { growth.KeepsPart self.old self.new }
    {
        self.indexed.step(now, event)
    }

    /// Forgets the entries that no later event can look at, and hands them back, the oldest first. For want of memory all are kept.
    pub fn forget(&mut self) -> Result<Journal, Memory>
        ensures forgotten { OnOk result (self.new ≡ reaching.after_forget self.old) }
        ensures back { IfOk result (λ dropped. reverse dropped ≡ needed.forgotten self.old.past) }
        ensures unchanged { OnErr result (self.new ≡ self.old) }

        // Whether entries were forgotten or not.
        ensures shown { shown.Keeps self.old self.new }
        ensures kept { laws.IsKept self.new }
        ensures reached { reaching.Reaches self.old self.new }
        ensures part { growth.KeepsPart self.old self.new }
    {
        self.indexed.forget()
    }
}
