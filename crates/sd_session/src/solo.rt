//! A session over a core of its own.
ghost use Rattle.std.specs.Prelude.{◌≡◌, true};
ghost use Rattle.std.specs.Option.{ForSome};
ghost use Rattle.sd_rules.specs.declared.events.Event.TheVariants as events;
ghost use Rattle.sd_core.specs.Growth as growth;
ghost use Rattle.sd_session.specs.Spoken.{IsSpoken};
ghost use Rattle.sd_engine.specs.Engines as engines;
ghost use Rattle.sd_session.specs.Closing.{GivesUp};
ghost use Rattle.sd_session.specs.Running as running;
ghost use Rattle.sd_session.specs.Solo as solo;
ghost use Rattle.sd_session.specs.Withdrawing as withdrawing;

use crate::stepping::step;
use crate::telling::tell;
use crate::withdrawing::{is_abrupt, withdraw};
use sd_base::{Sink, Source};
use sd_clock::{Clock, OpenGate};
use sd_conf::Config;
use sd_core::Core;
use sd_creds::Salts;
use sd_dial::Dialer;
use sd_engine::{Engine, SessionEnd, Turn};
use sd_rules::Event;
use std::alloc::Global;

/// Steps the event that the engine named, and tells it what the step gives; the end of the session where there is one.
fn carry_out<C: Clock>(
    core: &mut Core,
    engine: &mut Engine,
    clock: &mut C,
    event: Event,
) -> Option<SessionEnd>
    requires { running.Awaits core.old engine.old event }
    ensures turned { solo.StepsOn C.Clock result engine.old core.old clock.old engine.new core.new clock.new }
    ensures grown { growth.KeepsGrown core.old core.new }
{
    match step(core, clock, event) {
        Ok(given) => tell(engine, given),
        Err(end) => Some(end),
    }
}

/// Collects the ticket that the engine named. Nobody else closes its request, so it is collected at once.
fn collect<C: Clock>(
    core: &mut Core,
    engine: &mut Engine,
    clock: &mut C,
    ticket: u64,
) -> Option<SessionEnd>
    requires { running.Awaits core.old engine.old (events.Collect ticket) }
    ensures turned { solo.StepsOn C.Clock result engine.old core.old clock.old engine.new core.new clock.new }
    ensures grown { growth.KeepsGrown core.old core.new }
{
    carry_out(core, engine, clock, Event::Collect(ticket))
}

/// One turn of the engine, with the step that it names; the end of the session where there is one.
fn turn<S: Source, W: Sink, D: Dialer, C: Clock>(
    core: &mut Core,
    engine: &mut Engine,
    config: &Config,
    salts: &Salts,
    source: &mut S,
    sink: &mut W,
    dialer: &mut D,
    clock: &mut C,
) -> Option<SessionEnd>
    requires { ForSome engine.old.client (λ client. IsSpoken core.old client.course) }
    ensures turned { solo.Turned S.Source W.Sink D.Dialer C.Clock salts.now config.now result
        engine.old core.old source.old sink.old dialer.old clock.old
        engine.new core.new source.new sink.new dialer.new clock.new }
    ensures grown { growth.KeepsGrown core.old core.new }
{
    match engine.turn(config, salts, source, sink, dialer, &OpenGate) {
        Turn::Again => None,
        Turn::Step(event) => carry_out(core, engine, clock, event),
        Turn::Collect(ticket) => collect(core, engine, clock, ticket),
        Turn::Ended(end) => Some(end),
    }
}

/// Turns the engine until the session ends.
fn run<S: Source, W: Sink, D: Dialer, C: Clock>(
    core: &mut Core,
    engine: &mut Engine,
    config: &Config,
    salts: &Salts,
    source: &mut S,
    sink: &mut W,
    dialer: &mut D,
    clock: &mut C,
) -> SessionEnd
    requires { engine.old ≡ engines.begun }
    ensures ran { solo.RanTo S.Source W.Sink D.Dialer C.Clock salts.now config.now result
        core.old source.old sink.old dialer.old clock.old
        engine.new core.new source.new sink.new dialer.new clock.new }
    ensures grown { growth.KeepsGrown core.old core.new }
{
    for round in 0..u64::MAX {
        match turn(core, engine, config, salts, source, sink, dialer, clock) {
            Some(end) => return end,
            None => {}
        }
    }
    // No input of 1 GiB has so many turns.
    SessionEnd::Memory
}

#[tactic(auto, using(crate::proofs::GivingUp::may_try, crate::proofs::GivingUp::keeps_all))]
/// Gives up what a session leads and waits with, where its end leaves something.
fn give_up<C: Clock>(core: &mut Core, engine: &Engine, clock: &mut C, end: SessionEnd)
    ensures withdraws { solo.MayTry C.Clock end (withdrawing.giving_up engine.now.leads engine.now.ticket) core.old clock.old core.new clock.new }
    ensures gives_up { withdrawing.is_abrupt end ≡ true → GivesUp core.old core.new engine.now.leads engine.now.ticket }
    ensures grown { growth.KeepsGrown core.old core.new }
{
    if !is_abrupt(end) {
        return;
    }
    withdraw(core, clock, engine.leads(), engine.ticket());
}

/// Serves one connection over a core: hears the requests of its input frame by frame, carries each out, and writes its reply, until
/// the input ends, a stop was answered, or a fault comes.
pub fn solo_session<S: Source, W: Sink, D: Dialer, C: Clock>(
    alloc: Global,
    core: &mut Core,
    config: &Config,
    salts: &Salts,
    source: &mut S,
    sink: &mut W,
    dialer: &mut D,
    clock: &mut C,
) -> SessionEnd
    ensures session { solo.Session S.Source W.Sink D.Dialer C.Clock salts.now config.now result
        core.old source.old sink.old dialer.old clock.old
        core.new source.new sink.new dialer.new clock.new }
    // The new journal is the old one, followed by entries that each have the number, the moment and the reply that the rules give.
    ensures journal { growth.IsGrown core.old core.new }
{
    let mut engine = Engine::new(alloc);
    let end = run(
        core,
        &mut engine,
        config,
        salts,
        source,
        sink,
        dialer,
        clock,
    );
    give_up(core, &engine, clock, end);
    engine.discard();
    end
}
