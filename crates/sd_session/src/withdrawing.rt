//! What a session gives up at its end.
ghost use Rattle.std.specs.Prelude.{◌≡◌, ℕ, true, [], ◌∷◌, Some};
ghost use Rattle.sd_rules.specs.Reaching.{Reaches};
ghost use Rattle.sd_rules.specs.Steps as steps;
ghost use Rattle.sd_core.specs.Growth as growth;
ghost use Rattle.sd_session.specs.Closing.{GivesUp, HasLeft, IsOver, IsShut, WasGiven};
ghost use Rattle.sd_session.specs.Holding.{lists};
ghost use Rattle.sd_session.specs.Sessions as sessions;
ghost use Rattle.sd_session.specs.Withdrawing as withdrawing;

use crate::stepping::step;
use sd_clock::Clock;
use sd_core::Core;
use sd_engine::SessionEnd;
use sd_rules::Event;

/// Whether an end leaves something to give up.
pub fn is_abrupt(end: SessionEnd) -> bool
    ensures { result ≡ withdrawing.is_abrupt end }
{
    matches!(end, SessionEnd::JournalFull(_) | SessionEnd::Memory)
}

/// Tries a step, whose reply nobody waits for.
fn try_step<C: Clock>(core: &mut Core, clock: &mut C, event: Event)
    requires steppable { steps.is_steppable core.old.past event ≡ true }
    requires gives_up { withdrawing.gives_up event ≡ true }
    ensures withdraws { withdrawing.Withdraws sessions.alone (event ∷ []) core.old core.new (sessions.trace_of (C.readings clock.old) core.old) (sessions.trace_of (C.readings clock.new) core.new) }
    ensures grown { growth.KeepsGrown core.old core.new }
    ensures reaches { Reaches core.old core.new }
    ensures over { IsOver core.old core.new event }
{
    let _ = step(core, clock, event);
}

/// Abandons requests and attempts, in order.
fn abandon_all<C: Clock>(core: &mut Core, clock: &mut C, numbers: &[u64])
    ensures withdraws { withdrawing.Withdraws sessions.alone (withdrawing.abandoning numbers.now) core.old core.new (sessions.trace_of (C.readings clock.old) core.old) (sessions.trace_of (C.readings clock.new) core.new) }
    ensures grown { growth.KeepsGrown core.old core.new }
    ensures reaches { Reaches core.old core.new }
    ensures abandoned { (n : ℕ) → lists numbers.now n ≡ true → WasGiven n core.old → IsShut n core.new }
{
    for number in numbers {
        try_step(core, clock, Event::Abandon(*number));
    }
}

/// Lets a ticket leave.
fn leave<C: Clock>(core: &mut Core, clock: &mut C, ticket: Option<u64>)
    ensures withdraws { withdrawing.Withdraws sessions.alone (withdrawing.leaving ticket) core.old core.new (sessions.trace_of (C.readings clock.old) core.old) (sessions.trace_of (C.readings clock.new) core.new) }
    ensures grown { growth.KeepsGrown core.old core.new }
    ensures reaches { Reaches core.old core.new }
    ensures left { (n : ℕ) → ticket ≡ Some n → WasGiven n core.old → HasLeft n core.new }
{
    if let Some(ticket) = ticket {
        try_step(core, clock, Event::Leave(ticket));
    }
}

/// Abandons what a session leads, and lets the ticket leave that it waits with.
pub fn withdraw<C: Clock>(core: &mut Core, clock: &mut C, leads: &[u64], ticket: Option<u64>)
    ensures withdraws { withdrawing.Withdraws sessions.alone (withdrawing.giving_up leads.now ticket) core.old core.new (sessions.trace_of (C.readings clock.old) core.old) (sessions.trace_of (C.readings clock.new) core.new) }
    ensures grown { growth.KeepsGrown core.old core.new }
    ensures gives_up { GivesUp core.old core.new leads.now ticket }
{
    abandon_all(core, clock, leads);
    leave(core, clock, ticket);
}
