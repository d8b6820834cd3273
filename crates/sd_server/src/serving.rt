//! The loop that lets clients in.
ghost use Rattle.std.specs.Prelude.{◌≡◌, ◌≤◌, true, IfErr, OnOk};
ghost use Rattle.sd_base.specs.Causes.{Rose};
ghost use Rattle.sd_desk.specs.Desks.{front, IsOwn, HoldsNoTurn};
ghost use Rattle.sd_server.specs.Ends.{EndsBy};
ghost use Rattle.sd_server.specs.Stores.{told_by, HoldsOldOrReached, IsLater, Stays};

use crate::store::{LastFlush, store_in_time};
use crate::visit::{Equipment, Place, Visit};
use core::thread::{Anything, Stack};
use sd_base::{Sink, Source};
use sd_clock::{Clock, Gate};
use sd_desk::{Desk, DeskSeat};
use sd_dial::Dialer;
use sd_doors::{DoorFailed, Doors};
use sd_keeper::Keeper;
use std::alloc::Global;
use std::sync::Wait;
use std::sync::atomic::AtomicUsize;
use std::thread;
use std::thread::{Scope, Threads};

/// How many sessions run in threads of their own. One more runs where clients are let in, and nobody comes in
/// meanwhile.
const MOST_SESSIONS: usize = 64;

/// The stack of a session's thread, in bytes. Lookups, nested groups, logins and account checks were seen to touch
/// 76 KiB of it; the rest is margin.
const SESSION_STACK: usize = 1024 * 1024;

/// Why no more clients are let in.
#[derive(Clone, Copy, PartialEq, Eq)]
pub enum ServeEnd {
    /// The operator's word to end the daemon was given.
    Stopped,
    /// No connection will come.
    NoneToCome,
    /// No connection could be accepted.
    DoorFailed,
}

/// Serves a client in a thread of its own; here, where so many sessions run already or no thread can be made.
fn start<'s, Env, R, S, W, D, C, G>(
    rt: &'s R,
    alloc: Global,
    scope: &Scope<'s, Env>,
    running: &'s AtomicUsize,
    visit: Visit<'s, S, W, D, C, G>,
)
where
    R: Threads + Wait + Sync,
    S: Source + Send + Drop + 's,
    W: Sink + Send + Drop + 's,
    D: Dialer + Send + Drop + 's,
    D::Line: Send,
    C: Clock + Send + Drop + 's,
    G: Gate + Send + Drop + 's,
{
    let Some(place) = Place::take(running, MOST_SESSIONS) else {
        visit.run(rt, alloc);
        return;
    };
    let job = move || {
        visit.run(rt, alloc);
        drop(place);
    };
    let stack = Stack::new().stack_size(SESSION_STACK);
    if let Err(refused) = stack.spawn_scoped_with(scope, Anything, job) {
        (refused.value)();
    }
}

/// Serves a client with a seat of its own. One for whom no memory is left is sent away.
fn welcome<'s, Env, R, S, W, Q>(
    rt: &'s R,
    alloc: Global,
    scope: &Scope<'s, Env>,
    desk: &'s Desk,
    seat: &mut DeskSeat,
    running: &'s AtomicUsize,
    source: S,
    sink: W,
    equipment: &mut Q,
)
where
    R: Threads + Wait + Sync,
    S: Source + Send + Drop + 's,
    W: Sink + Send + Drop + 's,
    Q: Equipment,
    Q::Dial: 's,
    Q::Time: 's,
    Q::Watch: 's,
    <Q::Dial as Dialer>::Line: Send,
    requires own { IsOwn desk.now seat.old }
    requires free { HoldsNoTurn seat.old }
    ensures { IsLater desk.now seat.old seat.new }
{
    let Ok(dialer) = equipment.dialer(desk.config()) else {
        return;
    };
    let visit = Visit {
        desk,
        seat: desk.split(seat),
        source,
        sink,
        dialer,
        clock: equipment.clock(),
        gate: equipment.gate(),
    };
    start(rt, alloc, scope, running, visit);
}

/// Has the journal forget what it does not need, where it has grown.
fn forget_in_time<R: Wait>(rt: &R, desk: &Desk, seat: &mut DeskSeat)
    requires own { IsOwn desk.now seat.old }
    requires free { HoldsNoTurn seat.old }
    ensures { IsLater desk.now seat.old seat.new }
{
    if seat.has_grown() {
        let _ = desk.forget(rt, seat);
    }
}

/// What is done once a client was let in: the journal forgets, and the store gets its rows, each in its time. Tells whether the
/// operator's word to end the daemon was given; then nothing of this is done.
fn look_after<R: Wait, K: Keeper>(
    rt: &R,
    alloc: Global,
    desk: &Desk,
    seat: &mut DeskSeat,
    keeper: &mut Option<K>,
    moment: u64,
    last: &mut LastFlush,
) -> bool
    requires own { IsOwn desk.now seat.old }
    requires free { HoldsNoTurn seat.old }
    ensures seat { IsLater desk.now seat.old seat.new }
    ensures stored { HoldsOldOrReached (front desk.now seat.old) (told_by K.told keeper.old) (told_by K.told keeper.new) }
    ensures stays { Stays K.faults keeper.old keeper.new }
{
    if desk.stopping(rt, seat) {
        return true;
    }
    forget_in_time(rt, desk, seat);
    store_in_time(rt, alloc, desk, seat, keeper, moment, last);
    false
}

/// Lets the next client in; tells why none comes.
fn let_next_in<'s, Env, R, D, Q>(
    rt: &'s R,
    alloc: Global,
    scope: &Scope<'s, Env>,
    desk: &'s Desk,
    seat: &mut DeskSeat,
    running: &'s AtomicUsize,
    doors: &mut D,
    equipment: &mut Q,
) -> Result<(), ServeEnd>
where
    R: Threads + Wait + Sync,
    D: Doors,
    D::In: Send + Drop + 's,
    D::Out: Send + Drop + 's,
    Q: Equipment,
    Q::Dial: 's,
    Q::Time: 's,
    Q::Watch: 's,
    <Q::Dial as Dialer>::Line: Send,
    requires own { IsOwn desk.now seat.old }
    requires free { HoldsNoTurn seat.old }
    ensures came { OnOk result (D.gave doors.new ≡ true) }
    ensures end { IfErr result (λ end. EndsBy end (D.gave doors.new) (D.ended doors.new) (Rose (D.faults doors.old) (D.faults doors.new))) }
    ensures later { D.faults doors.old ≤ D.faults doors.new }
    ensures seat { IsLater desk.now seat.old seat.new }
{
    match doors.accept() {
        Ok(Some((source, sink))) => {
            welcome(
                rt, alloc, scope, desk, seat, running, source, sink, equipment,
            );
            Ok(())
        }
        Ok(None) => Err(ServeEnd::NoneToCome),
        Err(DoorFailed) => Err(ServeEnd::DoorFailed),
    }
}

/// Lets clients in until no more are to come.
fn let_in<'s, Env, R, D, Q, K>(
    rt: &'s R,
    alloc: Global,
    scope: &Scope<'s, Env>,
    desk: &'s Desk,
    seat: &mut DeskSeat,
    running: &'s AtomicUsize,
    doors: &mut D,
    mut equipment: Q,
    keeper: &mut Option<K>,
) -> ServeEnd
where
    R: Threads + Wait + Sync,
    D: Doors,
    D::In: Send + Drop + 's,
    D::Out: Send + Drop + 's,
    Q: Equipment + Drop,
    Q::Dial: 's,
    Q::Time: 's,
    Q::Watch: 's,
    <Q::Dial as Dialer>::Line: Send,
    K: Keeper,
    requires own { IsOwn desk.now seat.old }
    requires free { HoldsNoTurn seat.old }
    ensures end { EndsBy result (D.gave doors.new) (D.ended doors.new) (Rose (D.faults doors.old) (D.faults doors.new)) }
    ensures seat { IsLater desk.now seat.old seat.new }
    ensures stored { HoldsOldOrReached (front desk.now seat.old) (told_by K.told keeper.old) (told_by K.told keeper.new) }
    ensures stays { Stays K.faults keeper.old keeper.new }
{
    let mut clock = equipment.clock();
    let mut last = LastFlush {
        moment: clock.now(),
        hashes: seat.counts().hashes,
    };
    for _ in rt.forever() {
        if let Err(end) = let_next_in(
            rt,
            alloc,
            scope,
            desk,
            seat,
            running,
            doors,
            &mut equipment,
        ) {
            return end;
        }
        if look_after(rt, alloc, desk, seat, keeper, clock.now(), &mut last) {
            return ServeEnd::Stopped;
        }
        let limit = desk.config().settings.journal_limit;
        equipment.note_room(seat.counts().entries, limit);
    }
    unreachable!()
}

/// What is left once no more clients are let in.
#[derive(Drop)]
pub struct Served<D: Drop, K: Drop> {
    pub end: ServeEnd,
    pub seat: DeskSeat,
    pub doors: D,
    pub keeper: Option<K>,
}

/// Lets clients in until no more are to come, and tells the doors so.
fn serve_to_end<'s, Env, R, D, Q, K>(
    rt: &'s R,
    alloc: Global,
    scope: &Scope<'s, Env>,
    desk: &'s Desk,
    mut seat: DeskSeat,
    running: &'s AtomicUsize,
    mut doors: D,
    equipment: Q,
    mut keeper: Option<K>,
) -> Served<D, K>
where
    R: Threads + Wait + Sync,
    D: Doors + Drop,
    D::In: Send + Drop + 's,
    D::Out: Send + Drop + 's,
    Q: Equipment + Drop,
    Q::Dial: 's,
    Q::Time: 's,
    Q::Watch: 's,
    <Q::Dial as Dialer>::Line: Send,
    K: Keeper + Drop,
    requires own { IsOwn desk.now seat }
    requires free { HoldsNoTurn seat }
    ensures end { EndsBy result.end (D.gave result.doors) (D.ended result.doors) (Rose (D.faults doors) (D.faults result.doors)) }
    ensures seat { IsLater desk.now seat result.seat }
    ensures stored { HoldsOldOrReached (front desk.now seat) (told_by K.told keeper) (told_by K.told result.keeper) }
    ensures stays { Stays K.faults keeper result.keeper }
{
    let end = let_in(
        rt,
        alloc,
        scope,
        desk,
        &mut seat,
        running,
        &mut doors,
        equipment,
        &mut keeper,
    );
    doors.wind_down();
    Served {
        end,
        seat,
        doors,
        keeper,
    }
}

/// Serves the clients that come through doors until the operator's word to end the daemon was given, or no more
/// come, and then until each session has ended. Meanwhile a keeper gets the rows of the journal now and then: at most once a
/// minute, or once a second where logins brought hashes; one that fails is tried again.
pub fn serve_clients<R, D, Q, K>(
    rt: &R,
    alloc: Global,
    desk: &Desk,
    seat: DeskSeat,
    doors: D,
    equipment: Q,
    keeper: Option<K>,
) -> Served<D, K>
where
    R: Threads + Wait + Sync,
    D: Doors + Drop,
    D::In: Send + Drop,
    D::Out: Send + Drop,
    Q: Equipment + Drop,
    <Q::Dial as Dialer>::Line: Send,
    K: Keeper + Drop,
    requires own { IsOwn desk.now seat }
    requires free { HoldsNoTurn seat }
    ensures end { EndsBy result.end (D.gave result.doors) (D.ended result.doors) (Rose (D.faults doors) (D.faults result.doors)) }
    ensures seat { IsLater desk.now seat result.seat }
    ensures stored { HoldsOldOrReached (front desk.now seat) (told_by K.told keeper) (told_by K.told result.keeper) }
    ensures stays { Stays K.faults keeper result.keeper }
{
    let running = AtomicUsize::new(0);
    let running = &running;
    thread::scope(
        thread::scope_env(),
        rt,
        move |scope| -> Served<D, K>
            requires { IsOwn desk.now seat × HoldsNoTurn seat }
            ensures end { EndsBy result.end (D.gave result.doors) (D.ended result.doors) (Rose (D.faults doors) (D.faults result.doors)) }
            ensures seat { IsLater desk.entry.now seat result.seat }
            ensures stored { HoldsOldOrReached (front desk.entry.now seat) (told_by K.told keeper) (told_by K.told result.keeper) }
            ensures stays { Stays K.faults keeper result.keeper }
        {
            serve_to_end(
                rt, alloc, scope, desk, seat, running, doors, equipment, keeper,
            )
        },
    )
}
