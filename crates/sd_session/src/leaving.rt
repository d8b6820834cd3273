//! What a session at a desk gives up at its end.
ghost use Rattle.std.specs.Prelude.{◌≡◌, ℕ, true, [], ◌∷◌, Some};
ghost use Rattle.sd_rules.specs.Reaching.{Reaches};
ghost use Rattle.sd_desk.specs.Desks.{front, IsOwn, HoldsNoTurn, IsSameSeat};
ghost use Rattle.sd_desk.specs.Steps.{MayStep};
ghost use Rattle.sd_session.specs.Closing.{GivesUp, HasLeft, IsOver, IsShut, WasGiven};
ghost use Rattle.sd_session.specs.Desks as desks;
ghost use Rattle.sd_session.specs.Holding.{lists};
ghost use Rattle.sd_session.specs.Withdrawing as withdrawing;

use crate::seated::step;
use sd_clock::Clock;
use sd_desk::{Desk, DeskSeat};
use sd_rules::Event;
use std::sync::Wait;

/// Tries a step, whose reply nobody waits for.
fn try_step<R: Wait, C: Clock>(
    rt: &R,
    desk: &Desk,
    seat: &mut DeskSeat,
    clock: &mut C,
    event: Event,
)
    requires own { IsOwn desk.now seat.old }
    requires free { HoldsNoTurn seat.old }
    requires may { MayStep (front desk.now seat.old) event }
    requires gives_up { withdrawing.gives_up event ≡ true }
    ensures own { IsOwn desk.now seat.new }
    ensures free { HoldsNoTurn seat.new }
    ensures same { IsSameSeat seat.old seat.new }
    ensures withdraws { withdrawing.Withdraws desks.at_desk (event ∷ []) (front desk.now seat.old) (front desk.now seat.new) (desks.trace_at (C.readings clock.old) seat.old) (desks.trace_at (C.readings clock.new) seat.new) }
    ensures reaches { Reaches (front desk.now seat.old) (front desk.now seat.new) }
    ensures over { IsOver (front desk.now seat.old) (front desk.now seat.new) event }
{
    let _ = step(rt, desk, seat, clock, event);
}

/// Abandons requests and attempts, in order.
fn abandon_all<R: Wait, C: Clock>(
    rt: &R,
    desk: &Desk,
    seat: &mut DeskSeat,
    clock: &mut C,
    numbers: &[u64],
)
    requires own { IsOwn desk.now seat.old }
    requires free { HoldsNoTurn seat.old }
    ensures own { IsOwn desk.now seat.new }
    ensures free { HoldsNoTurn seat.new }
    ensures same { IsSameSeat seat.old seat.new }
    ensures withdraws { withdrawing.Withdraws desks.at_desk (withdrawing.abandoning numbers.now) (front desk.now seat.old) (front desk.now seat.new) (desks.trace_at (C.readings clock.old) seat.old) (desks.trace_at (C.readings clock.new) seat.new) }
    ensures reaches { Reaches (front desk.now seat.old) (front desk.now seat.new) }
    ensures abandoned { (n : ℕ) → lists numbers.now n ≡ true → WasGiven n (front desk.now seat.old) → IsShut n (front desk.now seat.new) }
{
    for number in numbers {
        try_step(rt, desk, seat, clock, Event::Abandon(*number));
    }
}

/// Lets a ticket leave.
fn leave<R: Wait, C: Clock>(
    rt: &R,
    desk: &Desk,
    seat: &mut DeskSeat,
    clock: &mut C,
    ticket: Option<u64>,
)
    requires own { IsOwn desk.now seat.old }
    requires free { HoldsNoTurn seat.old }
    ensures own { IsOwn desk.now seat.new }
    ensures free { HoldsNoTurn seat.new }
    ensures same { IsSameSeat seat.old seat.new }
    ensures withdraws { withdrawing.Withdraws desks.at_desk (withdrawing.leaving ticket) (front desk.now seat.old) (front desk.now seat.new) (desks.trace_at (C.readings clock.old) seat.old) (desks.trace_at (C.readings clock.new) seat.new) }
    ensures reaches { Reaches (front desk.now seat.old) (front desk.now seat.new) }
    ensures left { (n : ℕ) → ticket ≡ Some n → WasGiven n (front desk.now seat.old) → HasLeft n (front desk.now seat.new) }
{
    if let Some(ticket) = ticket {
        try_step(rt, desk, seat, clock, Event::Leave(ticket));
    }
}

/// Abandons what a session leads, and lets the ticket leave that it waits with.
pub fn leave_desk<R: Wait, C: Clock>(
    rt: &R,
    desk: &Desk,
    seat: &mut DeskSeat,
    clock: &mut C,
    leads: &[u64],
    ticket: Option<u64>,
)
    requires own { IsOwn desk.now seat.old }
    requires free { HoldsNoTurn seat.old }
    ensures own { IsOwn desk.now seat.new }
    ensures free { HoldsNoTurn seat.new }
    ensures same { IsSameSeat seat.old seat.new }
    ensures withdraws { withdrawing.Withdraws desks.at_desk (withdrawing.giving_up leads.now ticket) (front desk.now seat.old) (front desk.now seat.new) (desks.trace_at (C.readings clock.old) seat.old) (desks.trace_at (C.readings clock.new) seat.new) }
    ensures gives_up { GivesUp (front desk.now seat.old) (front desk.now seat.new) leads.now ticket }
{
    abandon_all(rt, desk, seat, clock, leads);
    leave(rt, desk, seat, clock, ticket);
}
