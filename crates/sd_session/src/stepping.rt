//! The steps of a session over a core.
ghost use Rattle.std.specs.Prelude.{◌≡◌, true, false, IfOk, IfErr, OnErr};
ghost use Rattle.sd_rules.specs.Steps as steps;
ghost use Rattle.sd_core.specs.Growth as growth;
ghost use Rattle.sd_session.specs.Closing.{IsOver};
ghost use Rattle.sd_session.specs.Sessions as sessions;
ghost use Rattle.sd_session.specs.Stepping as stepping;

use sd_clock::Clock;
use sd_core::Core;
use sd_engine::SessionEnd;
use sd_rules::{Event, Given, StepFault};

/// The end of a session whose step was refused.
pub fn end_of(fault: StepFault) -> SessionEnd
    ensures { result ≡ stepping.end_of fault }
{
    match fault {
        StepFault::JournalFull(count) => SessionEnd::JournalFull(count),
        StepFault::Memory => SessionEnd::Memory,
    }
}

/// One step of a core, at a reading of the clock of its own.
pub fn step<C: Clock>(core: &mut Core, clock: &mut C, event: Event) -> Result<Given, SessionEnd>
    requires { steps.is_steppable core.old.past event ≡ true }
    ensures made { IfOk result (λ given. stepping.IsMade sessions.alone core.old event given core.new (sessions.trace_of (C.readings clock.old) core.old) (sessions.trace_of (C.readings clock.new) core.new)) }
    ensures refused { IfErr result (λ end. stepping.IsRefused sessions.alone core.old event end core.new (sessions.trace_of (C.readings clock.old) core.old) (sessions.trace_of (C.readings clock.new) core.new)) }
    // An Abandon of what is open, and a Leave of a ticket that waits, are never refused.
    ensures over { OnErr result (IsOver core.old core.new event) }
    ensures grown { growth.KeepsGrown core.old core.new }
{
    // What a core keeps is known of it from its number on.
    core.next_number();
    let now = clock.now();
    match core.step(now, event) {
        Ok(given) => Ok(given),
        Err(refused) => Err(end_of(refused.fault)),
    }
}
