//! The steps of a session at a desk.
ghost use Rattle.std.specs.Prelude.{◌≡◌, ℕ, false, None, IfOk, IfErr, OnErr};
ghost use Rattle.sd_rules.specs.Requests.{waits_for};
ghost use Rattle.sd_core.specs.Laws.{IsKept};
ghost use Rattle.sd_rules.specs.Reaching.{Reaches};
ghost use Rattle.sd_desk.specs.Desks.{front, mine, IsOwn, HoldsNoTurn, IsSameSeat};
ghost use Rattle.sd_desk.specs.Steps.{MayStep, MadeEntry, FullAfterForget};
ghost use Rattle.sd_past.specs.Closing.{closes_place};
ghost use Rattle.sd_session.specs.Closing.{IsOver};
ghost use Rattle.sd_session.specs.Desks as desks;

use crate::stepping::end_of;
use sd_clock::Clock;
use sd_desk::{CollectFault, Desk, DeskSeat};
use sd_engine::SessionEnd;
use sd_rules::{Event, Given, Refused, StepFault};
use std::hint::spin_loop;
use std::sync::Wait;

/// Forgets where the journal has grown to one and a half times what the last forget left and a thousand entries more. What is
/// forgotten is let go outside the turn.
pub fn forget_where_grown<R: Wait>(rt: &R, desk: &Desk, seat: &mut DeskSeat)
    requires own { IsOwn desk.now seat.old }
    requires free { HoldsNoTurn seat.old }
    ensures own { IsOwn desk.now seat.new }
    ensures free { HoldsNoTurn seat.new }
    ensures same { IsSameSeat seat.old seat.new }
    ensures reaches { Reaches (front desk.now seat.old) (front desk.now seat.new) }
    ensures mine { mine seat.new ≡ mine seat.old }
{
    if seat.has_grown() {
        let _ = desk.forget(rt, seat);
    }
}

/// The same refusal, for want of memory.
fn for_memory(refused: Refused) -> Refused
    ensures fault { result.fault ≡ StepFault.Memory }
    ensures event { result.event ≡ refused.event }
{
    Refused {
        fault: StepFault::Memory,
        event: refused.event,
    }
}

/// Forgets and tries a step again that was refused as full.
fn step_after_forget<R: Wait>(
    rt: &R,
    desk: &Desk,
    seat: &mut DeskSeat,
    now: u64,
    refused: Refused,
) -> Result<Given, Refused>
    requires own { IsOwn desk.now seat.old }
    requires free { HoldsNoTurn seat.old }
    requires may { MayStep (front desk.now seat.old) refused.event }
    requires closing { closes_place (front desk.now seat.old).past refused.event ≡ false }
    ensures own { IsOwn desk.now seat.new }
    ensures free { HoldsNoTurn seat.new }
    ensures same { IsSameSeat seat.old seat.new }
    ensures reaches { Reaches (front desk.now seat.old) (front desk.now seat.new) }
    ensures made { IfOk result (λ given. MadeEntry (front desk.now seat.old) (front desk.now seat.new) (mine seat.old) (mine seat.new) now refused.event given) }
    ensures mine { OnErr result (mine seat.new ≡ mine seat.old) }
    ensures over { OnErr result (IsOver (front desk.now seat.old) (front desk.now seat.new) refused.event) }
    ensures back { IfErr result (λ again. again.event ≡ refused.event) }
    ensures full { IfErr result (λ again. (n : ℕ) → again.fault ≡ StepFault.JournalFull n → FullAfterForget (front desk.now seat.old) (front desk.now seat.new) refused.event n) }
{
    if refused.fault == StepFault::Memory {
        return Err(for_memory(refused));
    }
    if desk.forget(rt, seat).is_err() {
        return Err(for_memory(refused));
    }
    desk.step(rt, seat, now, refused.event)
}

/// Makes one step. Where the journal has no room it forgets once, and tries the step again.
fn step_with_room<R: Wait>(
    rt: &R,
    desk: &Desk,
    seat: &mut DeskSeat,
    now: u64,
    event: Event,
) -> Result<Given, Refused>
    requires own { IsOwn desk.now seat.old }
    requires free { HoldsNoTurn seat.old }
    requires may { MayStep (front desk.now seat.old) event }
    ensures own { IsOwn desk.now seat.new }
    ensures free { HoldsNoTurn seat.new }
    ensures same { IsSameSeat seat.old seat.new }
    ensures reaches { Reaches (front desk.now seat.old) (front desk.now seat.new) }
    ensures made { IfOk result (λ given. MadeEntry (front desk.now seat.old) (front desk.now seat.new) (mine seat.old) (mine seat.new) now event given) }
    ensures mine { OnErr result (mine seat.new ≡ mine seat.old) }
    ensures over { OnErr result (IsOver (front desk.now seat.old) (front desk.now seat.new) event) }
    ensures full { IfErr result (λ refused. (n : ℕ) → refused.fault ≡ StepFault.JournalFull n → FullAfterForget (front desk.now seat.old) (front desk.now seat.new) event n) }
{
    match desk.step(rt, seat, now, event) {
        Ok(given) => Ok(given),
        Err(refused) => step_after_forget(rt, desk, seat, now, refused),
    }
}

/// One step at a desk, at a reading of the clock of its own. Where the journal has no room it forgets once, and tries again.
pub fn step<R: Wait, C: Clock>(
    rt: &R,
    desk: &Desk,
    seat: &mut DeskSeat,
    clock: &mut C,
    event: Event,
) -> Result<Given, SessionEnd>
    requires own { IsOwn desk.now seat.old }
    requires free { HoldsNoTurn seat.old }
    requires may { MayStep (front desk.now seat.old) event }
    requires collects { desks.MayCollect (front desk.now seat.old) event }
    ensures own { IsOwn desk.now seat.new }
    ensures free { HoldsNoTurn seat.new }
    ensures same { IsSameSeat seat.old seat.new }
    ensures made { IfOk result (λ given. desks.MakesStep C.Clock desk.now event given seat.old clock.old seat.new clock.new) }
    ensures refused { IfErr result (λ end. desks.RefusesStep C.Clock desk.now event end seat.old clock.old seat.new clock.new) }
    ensures over { OnErr result (IsOver (front desk.now seat.old) (front desk.now seat.new) event) }
    ensures full { IfErr result (λ end. (n : ℕ) → end ≡ SessionEnd.JournalFull n → FullAfterForget (front desk.now seat.old) (front desk.now seat.new) event n) }
{
    let now = clock.now();
    match step_with_room(rt, desk, seat, now, event) {
        Ok(given) => Ok(given),
        Err(refused) => Err(end_of(refused.fault)),
    }
}

/// Why a ticket was not collected at one try.
#[derive(Clone, Copy, PartialEq, Eq)]
pub enum Uncollected {
    /// Its request is open, or another session held the turn.
    Waits,
    /// The journal has no room for the entry.
    Full,
    Memory,
}

/// One try to collect a ticket, at a reading of the clock of its own. Where its request is open it sleeps until an entry was made.
pub fn try_collect<R: Wait, C: Clock>(
    rt: &R,
    desk: &Desk,
    seat: &mut DeskSeat,
    clock: &mut C,
    ticket: u64,
) -> Result<Given, Uncollected>
    requires own { IsOwn desk.now seat.old }
    requires free { HoldsNoTurn seat.old }
    ensures own { IsOwn desk.now seat.new }
    ensures free { HoldsNoTurn seat.new }
    ensures same { IsSameSeat seat.old seat.new }
    ensures made { IfOk result (λ given. desks.MakesStep C.Clock desk.now (Event.Collect ticket) given seat.old clock.old seat.new clock.new) }
    ensures waited { OnErr result (desks.MakesNoStep C.Clock desk.now seat.old clock.old seat.new clock.new) }
    // Where the journal has no room the ticket waits for nothing.
    ensures full { IfErr result (λ why. why ≡ Uncollected.Full → IsKept (front desk.now seat.new) × (waits_for (front desk.now seat.new).past ticket ≡ None)) }
{
    let now = clock.now();
    match desk.collect(seat, now, ticket) {
        Ok(given) => Ok(given),
        Err(CollectFault::Pending(_request)) => {
            desk.rest(rt, seat);
            Err(Uncollected::Waits)
        }
        Err(CollectFault::Busy) => {
            spin_loop();
            Err(Uncollected::Waits)
        }
        Err(CollectFault::JournalFull(_places)) => Err(Uncollected::Full),
        Err(CollectFault::Memory) => Err(Uncollected::Memory),
    }
}
