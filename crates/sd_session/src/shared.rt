//! A session over a desk, at a seat of its own.
ghost use Rattle.std.specs.Prelude.{◌≡◌, true};
ghost use Rattle.std.specs.Option.{ForSome};
ghost use Rattle.sd_rules.specs.declared.events.Event.TheVariants as events;
ghost use Rattle.sd_rules.specs.Reaching.{Reaches};
ghost use Rattle.sd_desk.specs.Desks.{front, IsOwn, HoldsNoTurn, IsSameSeat};
ghost use Rattle.sd_engine.specs.Engines as engines;
ghost use Rattle.sd_session.specs.Desks as desks;
ghost use Rattle.sd_session.specs.Closing.{GivesUp};
ghost use Rattle.sd_session.specs.Running as running;
ghost use Rattle.sd_session.specs.Spoken.{IsSpoken};
ghost use Rattle.sd_session.specs.Withdrawing as withdrawing;

use crate::leaving::leave_desk;
use crate::seated::{Uncollected, forget_where_grown, step, try_collect};
use crate::telling::tell;
use crate::withdrawing::is_abrupt;
use sd_base::{Sink, Source};
use sd_clock::{Clock, Gate};
use sd_conf::Config;
use sd_creds::Salts;
use sd_desk::{Desk, DeskSeat};
use sd_dial::Dialer;
use sd_engine::{Engine, SessionEnd, Turn};
use sd_rules::Event;
use std::alloc::Global;
use std::sync::Wait;

/// Steps the event that the engine named, and tells it what the step gives; the end of the session where there is one.
fn carry_out<R: Wait, C: Clock>(
    rt: &R,
    desk: &Desk,
    seat: &mut DeskSeat,
    engine: &mut Engine,
    clock: &mut C,
    event: Event,
) -> Option<SessionEnd>
    requires own { IsOwn desk.now seat.old }
    requires free { HoldsNoTurn seat.old }
    requires awaits { running.Awaits (front desk.now seat.old) engine.old event }
    requires collects { desks.MayCollect (front desk.now seat.old) event }
    ensures own { IsOwn desk.now seat.new }
    ensures free { HoldsNoTurn seat.new }
    ensures same { IsSameSeat seat.old seat.new }
    ensures turned { desks.StepsOn C.Clock desk.now result engine.old seat.old clock.old engine.new seat.new clock.new }
{
    match step(rt, desk, seat, clock, event) {
        Ok(given) => tell(engine, given),
        Err(end) => Some(end),
    }
}

/// Collects the ticket that the engine named, once its request is closed, and tells the engine what that gives. It sleeps meanwhile.
fn collect<R: Wait, C: Clock>(
    rt: &R,
    desk: &Desk,
    seat: &mut DeskSeat,
    engine: &mut Engine,
    clock: &mut C,
    ticket: u64,
) -> Option<SessionEnd>
    requires own { IsOwn desk.now seat.old }
    requires free { HoldsNoTurn seat.old }
    requires awaits { running.Awaits (front desk.now seat.old) engine.old (events.Collect ticket) }
    ensures own { IsOwn desk.now seat.new }
    ensures free { HoldsNoTurn seat.new }
    ensures same { IsSameSeat seat.old seat.new }
    ensures turned { desks.StepsOn C.Clock desk.now result engine.old seat.old clock.old engine.new seat.new clock.new }
{
    for _ in rt.forever() {
        match try_collect(rt, desk, seat, clock, ticket) {
            Ok(given) => return tell(engine, given),
            Err(Uncollected::Waits) => {}
            Err(Uncollected::Full) => {
                return carry_out(rt, desk, seat, engine, clock, Event::Collect(ticket));
            }
            Err(Uncollected::Memory) => return Some(SessionEnd::Memory),
        }
    }
    unreachable!()
}

/// One turn of the engine, with the step that it names; the end of the session where there is one.
fn turn<R: Wait, S: Source, W: Sink, D: Dialer, C: Clock, G: Gate>(
    rt: &R,
    desk: &Desk,
    seat: &mut DeskSeat,
    engine: &mut Engine,
    config: &Config,
    salts: &Salts,
    source: &mut S,
    sink: &mut W,
    dialer: &mut D,
    clock: &mut C,
    gate: &G,
) -> Option<SessionEnd>
    requires own { IsOwn desk.now seat.old }
    requires free { HoldsNoTurn seat.old }
    requires spoken { ForSome engine.old.client (λ client. IsSpoken (front desk.now seat.old) client.course) }
    ensures own { IsOwn desk.now seat.new }
    ensures free { HoldsNoTurn seat.new }
    ensures same { IsSameSeat seat.old seat.new }
    ensures turned { desks.Turned S.Source W.Sink D.Dialer C.Clock desk.now salts.now config.now result
        engine.old seat.old source.old sink.old dialer.old clock.old
        engine.new seat.new source.new sink.new dialer.new clock.new }
{
    match engine.turn(config, salts, source, sink, dialer, gate) {
        Turn::Again => None,
        Turn::Step(event) => carry_out(rt, desk, seat, engine, clock, event),
        Turn::Collect(ticket) => collect(rt, desk, seat, engine, clock, ticket),
        Turn::Ended(end) => Some(end),
    }
}

/// Turns the engine until the session ends.
fn run<R: Wait, S: Source, W: Sink, D: Dialer, C: Clock, G: Gate>(
    rt: &R,
    desk: &Desk,
    seat: &mut DeskSeat,
    engine: &mut Engine,
    config: &Config,
    salts: &Salts,
    source: &mut S,
    sink: &mut W,
    dialer: &mut D,
    clock: &mut C,
    gate: &G,
) -> SessionEnd
    requires own { IsOwn desk.now seat.old }
    requires free { HoldsNoTurn seat.old }
    requires begun { engine.old ≡ engines.begun }
    ensures own { IsOwn desk.now seat.new }
    ensures free { HoldsNoTurn seat.new }
    ensures same { IsSameSeat seat.old seat.new }
    ensures ran { desks.RanTo S.Source W.Sink D.Dialer C.Clock desk.now salts.now config.now result
        seat.old source.old sink.old dialer.old clock.old
        engine.new seat.new source.new sink.new dialer.new clock.new }
{
    for round in 0..u64::MAX {
        forget_where_grown(rt, desk, seat);
        match turn(
            rt, desk, seat, engine, config, salts, source, sink, dialer, clock, gate,
        ) {
            Some(end) => return end,
            None => {}
        }
    }
    // No input of 1 GiB has so many turns.
    SessionEnd::Memory
}

/// Gives up what a session leads and waits with, where its end leaves something.
#[tactic(auto, using(crate::proofs::GivingUp::may_try, crate::proofs::GivingUp::keeps_all))]
fn give_up<R: Wait, C: Clock>(
    rt: &R,
    desk: &Desk,
    seat: &mut DeskSeat,
    engine: &Engine,
    clock: &mut C,
    end: SessionEnd,
)
    requires own { IsOwn desk.now seat.old }
    requires free { HoldsNoTurn seat.old }
    ensures own { IsOwn desk.now seat.new }
    ensures free { HoldsNoTurn seat.new }
    ensures same { IsSameSeat seat.old seat.new }
    ensures withdraws { desks.MayTry C.Clock desk.now end (withdrawing.giving_up engine.now.leads engine.now.ticket) seat.old clock.old seat.new clock.new }
    ensures gives_up { withdrawing.is_abrupt end ≡ true → GivesUp (front desk.now seat.old) (front desk.now seat.new) engine.now.leads engine.now.ticket }
{
    if !is_abrupt(end) {
        return;
    }
    leave_desk(rt, desk, seat, clock, engine.leads(), engine.ticket());
}

/// Serves one connection at a desk: hears the requests of its input frame by frame, carries each out, and writes its reply, until the
/// input ends, a stop was answered, or a fault comes. The seat is handed back. Between its calls on the desk the seat holds no turn, so
/// a directory is asked outside it.
pub fn session<R: Wait, S: Source, W: Sink, D: Dialer, C: Clock, G: Gate>(
    rt: &R,
    alloc: Global,
    desk: &Desk,
    mut seat: DeskSeat,
    source: &mut S,
    sink: &mut W,
    dialer: &mut D,
    clock: &mut C,
    gate: &G,
) -> (DeskSeat, SessionEnd)
    requires own { IsOwn desk.now seat }
    requires free { HoldsNoTurn seat }
    ensures own { IsOwn desk.now result.0 }
    ensures free { HoldsNoTurn result.0 }
    ensures same { IsSameSeat seat result.0 }
    ensures session { desks.Session S.Source W.Sink D.Dialer C.Clock desk.now result.1
        seat source.old sink.old dialer.old clock.old
        result.0 source.new sink.new dialer.new clock.new }
    // Every reply that is written is the abstract daemon's reply at an own entry in the one journal, after all that was seen.
    ensures headline { desks.Headline S.Source W.Sink D.Dialer C.Clock desk.now
        seat source.old sink.old dialer.old clock.old
        result.0 source.new sink.new dialer.new clock.new }
    // The journal handed back is one that the journal handed in became.
    ensures reaches { Reaches (front desk.now seat) (front desk.now result.0) }
{
    let config = desk.config();
    let salts = desk.salts();
    let mut engine = Engine::new(alloc);
    let end = run(
        rt,
        desk,
        &mut seat,
        &mut engine,
        config,
        salts,
        source,
        sink,
        dialer,
        clock,
        gate,
    );
    give_up(rt, desk, &mut seat, &engine, clock, end);
    engine.discard();
    (seat, end)
}
