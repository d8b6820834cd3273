//! The core, as the turn shares it.
ghost use Rattle.std.specs.Prelude.{◌≡◌, ℕ, ◌<◌, ◌≤◌, ◌^◌, ◌*◌, true, false, IfOk, IfErr, OnOk, OnErr, length, reverse, sum_by};
ghost use Rattle.sd_rules.specs.KeptRows as kept;
ghost use Rattle.sd_rules.specs.Needed as needed;
ghost use Rattle.sd_rules.specs.Reaching as reaching;
ghost use Rattle.sd_rules.specs.Steps as steps;
ghost use Rattle.sd_rules.specs.TextBytes as bytes;
ghost use Rattle.sd_past.specs.Closing.{closes_place};
ghost use Rattle.sd_core.specs.Laws as laws;
ghost use Rattle.sd_core.specs.Looks as looks;
ghost use Rattle.sd_desk.specs.Steps.{HasBoundedTexts, WasFull};

use crate::counts::Counts;
use sd_base::Memory;
use sd_core::{Core, Look};
use sd_rules::{Entry, Event, Given, Journal, LoginResult, Refused, Rows, Settings, StepFault};
use sd_turn::Chronicle;
use std::alloc::Global;

/// What no step and no forget changes. Contracts alone read it: no value is made.
pub struct Basis {
    pub settings: Settings,
    /// The moment that every entry has at least, in seconds.
    pub floor: u64,
}

/// A core whose journal is a history of numbered entries.
#[derive(Drop)]
pub struct SharedCore {
    pub(crate) core: Box<Core>,
    /// How many entries the last forget left; at first, how many the core came with.
    pub(crate) left: usize,
    /// How many logins came with a hash to be kept.
    pub(crate) hashes: u64,
    ghost above: { 0 < core.value.next },
}

impl Chronicle for SharedCore {
    ghost use Rattle.sd_core.specs.Laws.{IsKept};
    ghost use Rattle.sd_rules.specs.Reaching.{Reaches};
    ghost use Rattle.sd_rules.proofs.ReachingLaws.{reaches_self, reaches_through};
    ghost use Rattle.sd_desk.specs.Journals.{basis_of, history_of, daemon_of};

    type Entry = Entry;

    type Setting = Basis;

    ghost setting = { λ v. basis_of v.core.value };

    ghost history = { λ v. history_of v.core.value };

    ghost number = { λ e. e.number };

    ghost follows = { λ b x y. Reaches (daemon_of b x) (daemon_of b y) };

    ghost fits = { λ b x. IsKept (daemon_of b x) };

    fn next_number(&self) -> u64 {
        self.core.next_number()
    }

    ghost follows_itself = { λ b x. reaches_self (daemon_of b x) };

    ghost follows_through = { λ b x y z p q. reaches_through (daemon_of b x) (daemon_of b y) (daemon_of b z) p q };
}

/// Whether an event is a login that a server took, with a hash to be kept.
fn brings_hash(event: &Event) -> bool {
    match event {
        Event::LoginOnline(_, said) => matches!(said.value(), LoginResult::Right(Some(_))),
        _ => false,
    }
}

impl SharedCore {
    /// A core that nothing was forgotten of yet.
    pub(crate) fn new(alloc: Global, core: Core) -> Result<SharedCore, Memory>
        ensures { IfOk result (λ made. made.core.value ≡ core) }
    {
        // A number of its own is above 0.
        core.next_number();
        let left = core.journal().len();
        Ok(SharedCore {
            core: Box::new(alloc, core)?,
            left,
            hashes: 0,
        })
    }

    /// What a seat that gives this core back knows of its journal.
    pub(crate) fn counts(&self) -> Counts
        ensures kept { laws.IsKept self.now.core.value }
        ensures next { result.next ≡ self.now.core.value.next }
        ensures entries { result.entries ≡ length self.now.core.value.past }
        ensures left { result.left ≡ self.now.left }
        ensures hashes { result.hashes ≡ self.now.hashes }
    {
        Counts {
            next: self.core.next_number(),
            entries: self.core.journal().len(),
            left: self.left,
            hashes: self.hashes,
        }
    }

    /// What a ticket waits for.
    pub(crate) fn look(&self, ticket: u64) -> Look
        ensures { result ≡ looks.look_of self.now.core.value.past ticket }
    {
        self.core.look(ticket)
    }

    /// Whether the operator's word to end the daemon was given.
    pub(crate) fn stopping(&self) -> bool
        ensures { result ≡ looks.has_stopped self.now.core.value.past }
    {
        self.core.stopping()
    }

    /// The rows that are kept of the journal.
    pub(crate) fn kept(&self) -> Result<Rows, Memory>
        ensures rows { IfOk result (λ rows. rows ≡ kept.rows_of self.now.core.value) }
        ensures few { IfOk result (λ rows. length rows < 2 ^ 32) }
        ensures texts { IfOk result (λ rows. sum_by bytes.bytes_of_row rows ≤ 512 * 1024 * 1024) }
    {
        self.core.kept()
    }

    /// One step of the core.
    pub(crate) fn step(&mut self, now: u64, event: Event) -> Result<Given, Refused>
        requires { steps.is_steppable self.old.core.value.past event ≡ true }
        ensures made { OnOk result (self.new.core.value ≡ steps.after self.old.core.value now event) }
        ensures given { IfOk result (λ given. given ≡ steps.given self.old.core.value now event) }
        ensures room { OnOk result (steps.is_full self.old.core.value event ≡ false) }
        ensures full { IfErr result (λ refused. (n : ℕ) → refused.fault ≡ StepFault.JournalFull n → WasFull self.old.core.value event n) }
        ensures memory { IfErr result (λ refused. refused.fault ≡ StepFault.Memory → steps.is_full self.old.core.value event ≡ false) }
        ensures back { IfErr result (λ refused. refused.event ≡ event) }
        ensures unchanged { OnErr result (self.new.core.value ≡ self.old.core.value) }
        ensures closing { OnErr result (closes_place self.old.core.value.past event ≡ false) }
        ensures laws { IfOk result (laws.FollowsLaws self.old.core.value now event) }
        ensures texts { IfOk result (HasBoundedTexts event) }
        ensures reached { reaching.Reaches self.old.core.value self.new.core.value }
    {
        self.hashes = self.hashes.saturating_add(u64::from(brings_hash(&event)));
        // The core's texts are bounded, and so are those of what it gives.
        self.core.next_number();
        self.core.step(now, event)
    }

    /// Forgets what no later event can look at, and hands it back, the oldest first. For want of memory all is kept.
    pub(crate) fn forget(&mut self) -> Result<Journal, Memory>
        ensures forgotten { OnOk result (self.new.core.value ≡ reaching.after_forget self.old.core.value) }
        ensures back { IfOk result (λ dropped. reverse dropped ≡ needed.forgotten self.old.core.value.past) }
        ensures unchanged { OnErr result (self.new.core.value ≡ self.old.core.value) }
        ensures reached { reaching.Reaches self.old.core.value self.new.core.value }
        ensures basis { (self.new.core.value.settings ≡ self.old.core.value.settings) × (self.new.core.value.floor ≡ self.old.core.value.floor) × (self.new.core.value.next ≡ self.old.core.value.next) }
    {
        let dropped = self.core.forget()?;
        self.left = self.core.journal().len();
        Ok(dropped)
    }
}
