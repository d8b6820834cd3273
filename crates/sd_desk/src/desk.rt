//! The desk, and the calls of its seats.
ghost use Rattle.std.specs.Prelude.{◌≡◌, ◌≤◌, length};
ghost use Rattle.sd_turn.specs.Seats as seats;

use crate::refusals::{CollectFault, DeskFault, DeskRefused};
use crate::seat::DeskSeat;
use crate::shared::SharedCore;
use sd_base::Memory;
use sd_conf::Config;
use sd_core::{Core, Look};
use sd_creds::Salts;
use sd_rules::{Event, Given, Journal, Refused, Rows, StepFault};
use sd_turn::{Busy, Held, Turn, TurnHeld};
use std::alloc::Global;
use std::sync::Wait;

/// One core under a turn, with what all its sessions read.
pub struct Desk {
    turn: Turn<SharedCore>,
    config: Config,
    salts: Salts,
    ghost settings: { (seats.opening turn).core.value.settings ≡ config.settings },
    ghost pwfield: { length config.pwfield ≤ 255 },
}

impl Drop for Desk {
    fn drop(self) {
        let Desk {
            turn: _,
            config: _,
            salts: _,
        } = self;
    }
}

impl Desk {
    ghost use Rattle.std.specs.Prelude.{◌≡◌, ◌≢◌, ◌⊎◌, ◌+◌, ◌^◌, ◌<◌, ◌≤◌, ◌++◌, ℕ, length, sum_by, [], ◌∷◌, true, false, map, Contains, IfOk, IfErr, IsOk, OnOk, OnErr, Some, None};
    ghost use Rattle.sd_turn.specs.Counts.{AreDistinct, AreAllBetween};
    ghost use Rattle.sd_turn.specs.Seats as seats;
    ghost use Rattle.sd_rules.specs.Reaching.{Reaches};
    ghost use Rattle.sd_rules.specs.Steps as steps;
    ghost use Rattle.sd_past.specs.Closing.{closes_place};
    ghost use Rattle.sd_core.specs.Laws.{IsKept};
    ghost use Rattle.sd_core.specs.Looks.{has_stopped};
    ghost use Rattle.sd_rules.specs.KeptRows.{rows_of};
    ghost use Rattle.sd_rules.specs.TextBytes.{bytes_of_row};
    ghost use Rattle.sd_rules.specs.Requests.{waits_for};
    ghost use Rattle.sd_desk.specs.Desks.{opening, front, mine, name, splits, out, takes, found, IsOwn, HoldsNoTurn, IsSameSeat, HasWon, SameTries, IsFirst, IsSplit, IsJoined, numbers, config_of, salts_of};
    ghost use Rattle.sd_desk.specs.Holding.{Holds, MayGive};
    ghost use Rattle.sd_desk.specs.Steps.{MayStep, MadeOver, MadeEntry, Collected, Forgot, WasFull, IsPending, most_text};

    fn try_take(&self, seat: &mut DeskSeat) -> Result<Held<SharedCore>, Busy>
        requires own { IsOwn self.now seat.old }
        requires free { HoldsNoTurn seat.old }
        ensures own { IsOwn self.now seat.new }
        ensures same { IsSameSeat seat.old seat.new }
        ensures mine { mine seat.new ≡ mine seat.old }
        ensures front { front self.now seat.new ≡ front self.now seat.old }
        ensures step { takes seat.new ≡ takes seat.old + 1 }
        ensures won { OnOk result (found seat.new ≡ 0) }
        ensures holds { IfOk result (λ held. Holds self.now seat.new held.value.core.value) }
        ensures busy { OnErr result ((found seat.new ≢ 0) × HoldsNoTurn seat.new) }
    {
        self.turn.try_take(&mut seat.seat)
    }

    fn take<R: Wait>(&self, rt: &R, seat: &mut DeskSeat) -> Held<SharedCore>
        requires own { IsOwn self.now seat.old }
        requires free { HoldsNoTurn seat.old }
        ensures own { IsOwn self.now seat.new }
        ensures same { IsSameSeat seat.old seat.new }
        ensures mine { mine seat.new ≡ mine seat.old }
        ensures front { front self.now seat.new ≡ front self.now seat.old }
        ensures won { HasWon seat.old seat.new }
        ensures holds { Holds self.now seat.new result.value.core.value }
    {
        self.turn.take(rt, &mut seat.seat)
    }

    /// The journal of the core that is given back is the seat's front from then on.
    fn give(&self, seat: &mut DeskSeat, mut held: Held<SharedCore>)
        requires { MayGive self.now seat.old held.value.core.value }
        ensures own { IsOwn self.now seat.new }
        ensures free { HoldsNoTurn seat.new }
        ensures same { IsSameSeat seat.old seat.new }
        ensures tries { SameTries seat.old seat.new }
        ensures mine { mine seat.new ≡ mine seat.old }
        ensures front { front self.now seat.new ≡ held.value.core.value }
        ensures reaches { Reaches (front self.now seat.old) held.value.core.value }
        ensures kept { IsKept (front self.now seat.new) }
    {
        let counts = held.value().counts();
        self.turn.give(&mut seat.seat, held);
        seat.counts = counts;
    }

    /// Makes one step under the turn that the seat holds, and gives the turn back.
    fn step_held(
        &self,
        seat: &mut DeskSeat,
        mut held: Held<SharedCore>,
        now: u64,
        event: Event,
    ) -> Result<Given, Refused>
        requires holds { Holds self.now seat.old held.value.core.value }
        requires may { steps.is_steppable held.value.core.value.past event ≡ true }
        ensures own { IsOwn self.now seat.new }
        ensures free { HoldsNoTurn seat.new }
        ensures same { IsSameSeat seat.old seat.new }
        ensures tries { SameTries seat.old seat.new }
        ensures reaches { Reaches (front self.now seat.old) (front self.now seat.new) }
        ensures made { IfOk result (λ given.
            MadeOver held.value.core.value (front self.now seat.new) (mine seat.old) (mine seat.new) now event given) }
        ensures front { OnErr result (front self.now seat.new ≡ held.value.core.value) }
        ensures mine { OnErr result (mine seat.new ≡ mine seat.old) }
        ensures back { IfErr result (λ refused. refused.event ≡ event) }
        ensures full { IfErr result (λ refused. (n : ℕ) → refused.fault ≡ StepFault.JournalFull n → WasFull held.value.core.value event n) }
        ensures memory { IfErr result (λ refused. refused.fault ≡ StepFault.Memory → steps.is_full held.value.core.value event ≡ false) }
        ensures closing { OnErr result (closes_place held.value.core.value.past event ≡ false) }
        ensures kept { IsKept (front self.now seat.new) }
    {
        match held.value().step(now, event) {
            Ok(given) => {
                self.turn.append(&mut seat.seat, &mut held);
                self.give(seat, held);
                Ok(given)
            }
            Err(refused) => {
                self.give(seat, held);
                Err(refused)
            }
        }
    }

    /// Makes one step, and waits for nobody. `now` is the moment handed in, in seconds.
    pub fn try_step(
        &self,
        seat: &mut DeskSeat,
        now: u64,
        event: Event,
    ) -> Result<Given, DeskRefused>
        requires own { IsOwn self.now seat.old }
        requires free { HoldsNoTurn seat.old }
        requires may { MayStep (front self.now seat.old) event }
        ensures own { IsOwn self.now seat.new }
        ensures free { HoldsNoTurn seat.new }
        ensures same { IsSameSeat seat.old seat.new }
        ensures step { takes seat.new ≡ takes seat.old + 1 }
        ensures reaches { Reaches (front self.now seat.old) (front self.now seat.new) }

        // One entry was made over the journal that was found.
        ensures won { OnOk result (found seat.new ≡ 0) }
        ensures made { IfOk result (λ given.
            MadeEntry (front self.now seat.old) (front self.now seat.new) (mine seat.old) (mine seat.new) now event given) }

        // None was made.
        ensures mine { OnErr result (mine seat.new ≡ mine seat.old) }
        ensures back { IfErr result (λ refused. refused.event ≡ event) }
        ensures busy { IfErr result (λ refused. refused.fault ≡ DeskFault.Busy
            → (found seat.new ≢ 0) × (front self.now seat.new ≡ front self.now seat.old)) }
        ensures full { IfErr result (λ refused. (n : ℕ) → refused.fault ≡ DeskFault.JournalFull n
            → (found seat.new ≡ 0) × WasFull (front self.now seat.new) event n) }
        ensures memory { IfErr result (λ refused. refused.fault ≡ DeskFault.Memory
            → (found seat.new ≡ 0) × (steps.is_full (front self.now seat.new) event ≡ false)) }
        ensures kept { found seat.new ≡ 0 → IsKept (front self.now seat.new) }
    {
        let Ok(held) = self.try_take(seat) else {
            return Err(DeskRefused {
                fault: DeskFault::Busy,
                event,
            });
        };
        match self.step_held(seat, held, now, event) {
            Ok(given) => Ok(given),
            Err(refused) => Err(DeskRefused::from(refused)),
        }
    }

    /// Makes one step, however long it has to wait for the turn. `now` is the moment handed in, in seconds.
    pub fn step<R: Wait>(
        &self,
        rt: &R,
        seat: &mut DeskSeat,
        now: u64,
        event: Event,
    ) -> Result<Given, Refused>
        requires own { IsOwn self.now seat.old }
        requires free { HoldsNoTurn seat.old }
        requires may { MayStep (front self.now seat.old) event }
        ensures own { IsOwn self.now seat.new }
        ensures free { HoldsNoTurn seat.new }
        ensures same { IsSameSeat seat.old seat.new }
        ensures won { HasWon seat.old seat.new }
        ensures reaches { Reaches (front self.now seat.old) (front self.now seat.new) }
        ensures made { IfOk result (λ given.
            MadeEntry (front self.now seat.old) (front self.now seat.new) (mine seat.old) (mine seat.new) now event given) }

        // No entry was made.
        ensures mine { OnErr result (mine seat.new ≡ mine seat.old) }
        ensures back { IfErr result (λ refused. refused.event ≡ event) }
        ensures full { IfErr result (λ refused. (n : ℕ) → refused.fault ≡ StepFault.JournalFull n → WasFull (front self.now seat.new) event n) }
        ensures memory { IfErr result (λ refused. refused.fault ≡ StepFault.Memory → steps.is_full (front self.now seat.new) event ≡ false) }

        // An Abandon of what is open in the journal that was found, and a Leave of a ticket that waits in it, are made.
        ensures closing { OnErr result (closes_place (front self.now seat.new).past event ≡ false) }

        // Numbers rise in the journal that is the seat's front then, and all else holds of it that a core keeps.
        ensures kept { IsKept (front self.now seat.new) }
    {
        let held = self.take(rt, seat);
        self.step_held(seat, held, now, event)
    }

    /// Takes the outcome of a ticket, and waits for nobody: a ticket whose request is open makes no entry.
    pub fn collect(&self, seat: &mut DeskSeat, now: u64, ticket: u64) -> Result<Given, CollectFault>
        requires own { IsOwn self.now seat.old }
        requires free { HoldsNoTurn seat.old }
        ensures own { IsOwn self.now seat.new }
        ensures free { HoldsNoTurn seat.new }
        ensures same { IsSameSeat seat.old seat.new }
        ensures step { takes seat.new ≡ takes seat.old + 1 }
        ensures reaches { Reaches (front self.now seat.old) (front self.now seat.new) }

        // One entry was made over the journal that was found, in which the ticket's request was not open.
        ensures won { OnOk result (found seat.new ≡ 0) }
        ensures made { IfOk result (λ given.
            Collected (front self.now seat.old) (front self.now seat.new) (mine seat.old) (mine seat.new) now ticket given) }

        // None was made.
        ensures mine { OnErr result (mine seat.new ≡ mine seat.old) }
        ensures busy { IfErr result (λ fault. fault ≡ CollectFault.Busy
            → (found seat.new ≢ 0) × (front self.now seat.new ≡ front self.now seat.old)) }
        ensures pending { IfErr result (λ fault. (request : ℕ) → fault ≡ CollectFault.Pending request
            → (found seat.new ≡ 0) × IsPending (front self.now seat.new).past ticket request) }
        ensures pending_only { IfErr result (λ fault. found seat.new ≡ 0 → (request : ℕ)
            → IsPending (front self.now seat.new).past ticket request → fault ≡ CollectFault.Pending request) }
        ensures full { IfErr result (λ fault. (n : ℕ) → fault ≡ CollectFault.JournalFull n
            → (found seat.new ≡ 0) × WasFull (front self.now seat.new) (Event.Collect ticket) n
            × (waits_for (front self.now seat.new).past ticket ≡ None)) }
        ensures memory { IfErr result (λ fault. fault ≡ CollectFault.Memory
            → (found seat.new ≡ 0) × (steps.is_full (front self.now seat.new) (Event.Collect ticket) ≡ false)) }
        ensures kept { found seat.new ≡ 0 → IsKept (front self.now seat.new) }
    {
        let Ok(mut held) = self.try_take(seat) else {
            return Err(CollectFault::Busy);
        };
        if let Look::Running(request) = held.value().look(ticket) {
            self.give(seat, held);
            return Err(CollectFault::Pending(request));
        }
        match self.step_held(seat, held, now, Event::Collect(ticket)) {
            Ok(given) => Ok(given),
            Err(refused) => Err(CollectFault::from(refused)),
        }
    }

    /// Sleeps until an entry was made that the seat's front does not have. Nothing is said of when it wakes.
    pub fn rest<R: Wait>(&self, rt: &R, seat: &mut DeskSeat)
        requires own { IsOwn self.now seat.old }
        requires free { HoldsNoTurn seat.old }
        ensures own { IsOwn self.now seat.new }
        ensures free { HoldsNoTurn seat.new }
        ensures same { IsSameSeat seat.old seat.new }
        ensures tries { SameTries seat.old seat.new }
        ensures front { front self.now seat.new ≡ front self.now seat.old }
        ensures mine { mine seat.new ≡ mine seat.old }
    {
        self.turn.rest(rt, &mut seat.seat);
    }

    /// Whether the operator's word to end the daemon was given.
    pub fn stopping<R: Wait>(&self, rt: &R, seat: &mut DeskSeat) -> bool
        requires own { IsOwn self.now seat.old }
        requires free { HoldsNoTurn seat.old }
        ensures own { IsOwn self.now seat.new }
        ensures free { HoldsNoTurn seat.new }
        ensures same { IsSameSeat seat.old seat.new }
        ensures won { HasWon seat.old seat.new }
        ensures reaches { Reaches (front self.now seat.old) (front self.now seat.new) }
        ensures mine { mine seat.new ≡ mine seat.old }
        ensures stopping { result ≡ has_stopped (front self.now seat.new).past }
        ensures kept { IsKept (front self.now seat.new) }
    {
        let mut held = self.take(rt, seat);
        let stopping = held.value().stopping();
        self.give(seat, held);
        stopping
    }

    /// Forgets what no later event can look at, and hands it back, the oldest first. For want of memory all is kept.
    pub fn forget<R: Wait>(&self, rt: &R, seat: &mut DeskSeat) -> Result<Journal, Memory>
        requires own { IsOwn self.now seat.old }
        requires free { HoldsNoTurn seat.old }
        ensures own { IsOwn self.now seat.new }
        ensures free { HoldsNoTurn seat.new }
        ensures same { IsSameSeat seat.old seat.new }
        ensures won { HasWon seat.old seat.new }
        ensures reaches { Reaches (front self.now seat.old) (front self.now seat.new) }
        ensures mine { mine seat.new ≡ mine seat.old }
        ensures forgot { IfOk result (Forgot (front self.now seat.old) (front self.now seat.new)) }
        ensures kept { IsKept (front self.now seat.new) }
    {
        let mut held = self.take(rt, seat);
        let dropped = held.value().forget();
        self.give(seat, held);
        dropped
    }

    /// The rows that are kept of the journal over a restart.
    pub fn kept<R: Wait>(&self, rt: &R, seat: &mut DeskSeat) -> Result<Rows, Memory>
        requires own { IsOwn self.now seat.old }
        requires free { HoldsNoTurn seat.old }
        ensures own { IsOwn self.now seat.new }
        ensures free { HoldsNoTurn seat.new }
        ensures same { IsSameSeat seat.old seat.new }
        ensures won { HasWon seat.old seat.new }
        ensures reaches { Reaches (front self.now seat.old) (front self.now seat.new) }
        ensures mine { mine seat.new ≡ mine seat.old }
        ensures rows { IfOk result (λ rows. rows ≡ rows_of (front self.now seat.new)) }
        ensures few { IfOk result (λ rows. length rows < 2 ^ 32) }
        ensures texts { IfOk result (λ rows. sum_by bytes_of_row rows ≤ most_text) }
        ensures kept { IsKept (front self.now seat.new) }
    {
        let mut held = self.take(rt, seat);
        let rows = held.value().kept();
        self.give(seat, held);
        rows
    }

    /// A new seat with the same front, and no entries of its own.
    pub fn split(&self, seat: &mut DeskSeat) -> DeskSeat
        requires own { IsOwn self.now seat.old }
        requires free { HoldsNoTurn seat.old }
        ensures own { IsOwn self.now seat.new × IsOwn self.now result }
        ensures free { HoldsNoTurn seat.new × HoldsNoTurn result }
        ensures seats { IsSplit seat.old seat.new result }
        ensures out { Contains (out seat.new) (name result) }
    {
        let counts = seat.counts;
        DeskSeat {
            seat: self.turn.split(&mut seat.seat),
            counts,
        }
    }

    /// Ends a seat that is out. The other has then the entries of both, and the later front.
    pub fn join(&self, seat: &mut DeskSeat, other: DeskSeat)
        requires own { IsOwn self.now seat.old × IsOwn self.now other }
        requires free { HoldsNoTurn seat.old × HoldsNoTurn other }
        requires out { Contains (out seat.old) (name other) }
        ensures own { IsOwn self.now seat.new }
        ensures free { HoldsNoTurn seat.new }
        ensures seat { IsJoined seat.old other seat.new }
        ensures apart { AreDistinct (numbers (mine seat.new)) }
        ensures front { (front self.now seat.new ≡ front self.now seat.old) ⊎ (front self.now seat.new ≡ front self.now other) }
        ensures reaches { Reaches (front self.now seat.old) (front self.now seat.new) }
        ensures reaches_other { Reaches (front self.now other) (front self.now seat.new) }
    {
        let DeskSeat {
            seat: theirs,
            counts,
        } = other;
        let own = seat.counts;
        self.turn.join(&mut seat.seat, theirs);
        seat.counts = own.later(counts);
    }

    /// A desk of a core, with what its sessions read, and its first seat.
    pub fn new(
        alloc: Global,
        core: Core,
        config: Config,
        salts: Salts,
    ) -> Result<(Desk, DeskSeat), Memory>
        requires settings { core.settings ≡ config.settings }
        requires pwfield { length config.pwfield ≤ 255 }
        ensures own { IfOk result (λ made. IsOwn made.0 made.1) }
        ensures free { IfOk result (λ made. HoldsNoTurn made.1) }
        ensures first { IfOk result (λ made. IsFirst made.1) }
        ensures front { IfOk result (λ made. front made.0 made.1 ≡ core) }
        ensures opening { IfOk result (λ made. opening made.0 ≡ core) }
        ensures config { IfOk result (λ made. config_of made.0 ≡ config) }
        ensures salts { IfOk result (λ made. salts_of made.0 ≡ salts) }
    {
        let shared = SharedCore::new(alloc, core)?;
        let counts = shared.counts();
        let (turn, seat) = Turn::new(alloc, shared)?;
        Ok((
            Desk {
                turn,
                config,
                salts,
            },
            DeskSeat { seat, counts },
        ))
    }

    /// What the daemon runs by.
    pub fn config(&self) -> &Config
        ensures config { result.now ≡ config_of self.now }
        ensures settings { result.now.settings ≡ (opening self.now).settings }
        ensures pwfield { length result.now.pwfield ≤ 255 }
    {
        &self.config
    }

    /// What makes the salts of login attempts.
    pub fn salts(&self) -> &Salts
        ensures { result.now ≡ salts_of self.now }
    {
        &self.salts
    }

    /// Ends the desk and gives its core. Where another seat holds the turn, the core is gone with it.
    pub fn close(self, seat: DeskSeat) -> Result<Core, TurnHeld>
        requires own { IsOwn self seat }
        requires free { HoldsNoTurn seat }
        ensures reached { IfOk result (λ core. Reaches (front self seat) core) }
        ensures held { IfErr result (λ end. end.found ≡ 1) }

        // The first seat, once no other is out, has the core, and each number that was given.
        ensures first { name seat ≡ [] → out seat ≡ [] → IsOk result }
        ensures all { name seat ≡ [] → out seat ≡ [] → IfOk result (λ core.
            AreAllBetween (opening self).next core.next (numbers (mine seat))) }
    {
        let Desk {
            turn,
            config: _,
            salts: _,
        } = self;
        let DeskSeat { seat, counts: _ } = seat;
        let SharedCore {
            core,
            left: _,
            hashes: _,
        } = turn.close(seat)?;
        Ok(Box::into_inner(core))
    }
}
