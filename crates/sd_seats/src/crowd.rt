// Four threads that lead, join and collect over one desk.
ghost use Rattle.std.specs.Prelude.{◌≡◌, IfOk};
ghost use Rattle.sd_desk.specs.Desks.{front, name, IsOwn, HoldsNoTurn, IsSameSeat};
ghost use Rattle.sd_desk.specs.Steps.{MayStep};

use crate::desks::opened;
use crate::rows::are_all;
use sd_base::Memory;
use sd_core::Core;
use sd_desk::{CollectFault, Desk, DeskSeat};
use sd_rules::{Answered, Event, Key, Reply};
use std::alloc::Global;
use std::sync::{Mutex, Wait};
use std::thread::{Threads, join};

/// How many threads there are.
const THREADS: u64 = 4;

/// The entries of a user: one question leads and the others join; a pick, an answer, and a collect of each that joined.
const ENTRIES: u64 = 2 * THREADS + 1;

/// Makes one step, and tells its reply.
fn step<R: Wait>(
    rt: &R,
    desk: &Desk,
    seat: &mut DeskSeat,
    numbers: &Mutex<Vec<u64>>,
    event: Event,
) -> Result<Reply, Memory>
    requires own { IsOwn desk.now seat.old × HoldsNoTurn seat.old }
    requires may { MayStep (front desk.now seat.old) event }
    ensures { IsOwn desk.now seat.new × HoldsNoTurn seat.new × IsSameSeat seat.old seat.new }
{
    match desk.step(rt, seat, 0, event) {
        Ok(given) => {
            numbers.lock(rt).push(given.number)?;
            Ok(given.reply)
        }
        Err(_refused) => Err(Memory),
    }
}

/// Rests until the seat has seen so many entries.
fn rest_until<R: Wait>(rt: &R, desk: &Desk, seat: &mut DeskSeat, entries: u64)
    requires { IsOwn desk.now seat.old × HoldsNoTurn seat.old }
    ensures { IsOwn desk.now seat.new × HoldsNoTurn seat.new × IsSameSeat seat.old seat.new }
{
    for _ in rt.forever() {
        let _ = desk.stopping(rt, seat);
        if seat.counts().next > entries {
            break;
        }
        desk.rest(rt, seat);
    }
}

/// Answers a request once all other threads wait for it.
fn lead<R: Wait>(
    rt: &R,
    desk: &Desk,
    seat: &mut DeskSeat,
    numbers: &Mutex<Vec<u64>>,
    request: u64,
    user: u32,
) -> Result<(), Memory>
    requires { IsOwn desk.now seat.old × HoldsNoTurn seat.old }
    ensures { IsOwn desk.now seat.new × HoldsNoTurn seat.new × IsSameSeat seat.old seat.new }
{
    rest_until(rt, desk, seat, ENTRIES * u64::from(user) + THREADS);
    step(rt, desk, seat, numbers, Event::Pick(request))?;
    step(
        rt,
        desk,
        seat,
        numbers,
        Event::Answer(request, Answered::Absent),
    )?;
    Ok(())
}

/// Tries to collect a ticket, and rests where its request is open.
fn try_collect<R: Wait>(
    rt: &R,
    desk: &Desk,
    seat: &mut DeskSeat,
    numbers: &Mutex<Vec<u64>>,
    ticket: u64,
) -> Result<bool, Memory>
    requires { IsOwn desk.now seat.old × HoldsNoTurn seat.old }
    ensures { IsOwn desk.now seat.new × HoldsNoTurn seat.new × IsSameSeat seat.old seat.new }
{
    match desk.collect(seat, 0, ticket) {
        Ok(given) => {
            numbers.lock(rt).push(given.number)?;
            Ok(true)
        }
        Err(CollectFault::Pending(_request)) => {
            desk.rest(rt, seat);
            Ok(false)
        }
        Err(CollectFault::Busy) => Ok(false),
        Err(_fault) => Err(Memory),
    }
}

/// Collects a ticket once its request is closed.
fn collect<R: Wait>(
    rt: &R,
    desk: &Desk,
    seat: &mut DeskSeat,
    numbers: &Mutex<Vec<u64>>,
    ticket: u64,
) -> Result<(), Memory>
    requires { IsOwn desk.now seat.old × HoldsNoTurn seat.old }
    ensures { IsOwn desk.now seat.new × HoldsNoTurn seat.new × IsSameSeat seat.old seat.new }
{
    for _ in rt.forever() {
        if try_collect(rt, desk, seat, numbers, ticket)? {
            return Ok(());
        }
    }
    unreachable!()
}

/// Looks one user up: leads, or joins who leads.
fn look_up<R: Wait>(
    rt: &R,
    desk: &Desk,
    seat: &mut DeskSeat,
    numbers: &Mutex<Vec<u64>>,
    user: u32,
) -> Result<(), Memory>
    requires { IsOwn desk.now seat.old × HoldsNoTurn seat.old }
    ensures { IsOwn desk.now seat.new × HoldsNoTurn seat.new × IsSameSeat seat.old seat.new }
{
    match step(rt, desk, seat, numbers, Event::Ask(Key::Uid(user)))? {
        Reply::Lead(request) => lead(rt, desk, seat, numbers, request, user),
        Reply::Join(_request, ticket) => collect(rt, desk, seat, numbers, ticket),
        _ => Ok(()),
    }
}

/// Looks all users below a number up.
fn look_all_up<R: Wait>(
    rt: &R,
    desk: &Desk,
    mut seat: DeskSeat,
    numbers: &Mutex<Vec<u64>>,
    users: u32,
) -> DeskSeat
    requires { IsOwn desk.now seat × HoldsNoTurn seat }
    ensures { IsOwn desk.now result × HoldsNoTurn result × IsSameSeat seat result }
{
    for user in 0..users {
        // A refused call leaves its number out, which is seen at the end.
        let _ = look_up(rt, desk, &mut seat, numbers, user);
    }
    seat
}

/// Two threads look all users up.
fn two<R: Threads + Wait + Sync>(
    rt: &R,
    desk: &Desk,
    mut seat: DeskSeat,
    numbers: &Mutex<Vec<u64>>,
    users: u32,
) -> DeskSeat
    requires { IsOwn desk.now seat × HoldsNoTurn seat }
    ensures { IsOwn desk.now result × HoldsNoTurn result × (name result ≡ name seat) }
{
    let other = desk.split(&mut seat);
    let (mut seat, other) = join(
        rt,
        || -> DeskSeat
            requires { IsOwn desk.now seat × HoldsNoTurn seat }
            ensures { IsOwn desk.entry.now result × HoldsNoTurn result × IsSameSeat seat result }
        { look_all_up(rt, desk, seat, numbers, users) },
        || -> DeskSeat
            requires { IsOwn desk.now other × HoldsNoTurn other }
            ensures { IsOwn desk.entry.now result × HoldsNoTurn result × IsSameSeat other result }
        { look_all_up(rt, desk, other, numbers, users) },
    );
    desk.join(&mut seat, other);
    seat
}

/// Three threads look all users up.
fn three<R: Threads + Wait + Sync>(
    rt: &R,
    desk: &Desk,
    mut seat: DeskSeat,
    numbers: &Mutex<Vec<u64>>,
    users: u32,
) -> DeskSeat
    requires { IsOwn desk.now seat × HoldsNoTurn seat }
    ensures { IsOwn desk.now result × HoldsNoTurn result × (name result ≡ name seat) }
{
    let other = desk.split(&mut seat);
    let (mut seat, other) = join(
        rt,
        || -> DeskSeat
            requires { IsOwn desk.now seat × HoldsNoTurn seat }
            ensures { IsOwn desk.entry.now result × HoldsNoTurn result × IsSameSeat seat result }
        { look_all_up(rt, desk, seat, numbers, users) },
        || -> DeskSeat
            requires { IsOwn desk.now other × HoldsNoTurn other }
            ensures { IsOwn desk.entry.now result × HoldsNoTurn result × (name result ≡ name other) }
        { two(rt, desk, other, numbers, users) },
    );
    desk.join(&mut seat, other);
    seat
}

/// Four threads look all users up.
fn four<R: Threads + Wait + Sync>(
    rt: &R,
    desk: &Desk,
    mut seat: DeskSeat,
    numbers: &Mutex<Vec<u64>>,
    users: u32,
) -> DeskSeat
    requires { IsOwn desk.now seat × HoldsNoTurn seat }
    ensures { IsOwn desk.now result × HoldsNoTurn result }
{
    let other = desk.split(&mut seat);
    let (mut seat, other) = join(
        rt,
        || -> DeskSeat
            requires { IsOwn desk.now seat × HoldsNoTurn seat }
            ensures { IsOwn desk.entry.now result × HoldsNoTurn result × IsSameSeat seat result }
        { look_all_up(rt, desk, seat, numbers, users) },
        || -> DeskSeat
            requires { IsOwn desk.now other × HoldsNoTurn other }
            ensures { IsOwn desk.entry.now result × HoldsNoTurn result × (name result ≡ name other) }
        { three(rt, desk, other, numbers, users) },
    );
    desk.join(&mut seat, other);
    seat
}

/// The journal once four threads have looked all users up; none where the turn was taken at the end.
fn journal_of<R: Threads + Wait + Sync>(
    rt: &R,
    alloc: Global,
    numbers: &Mutex<Vec<u64>>,
    users: u32,
) -> Result<Option<Core>, Memory> {
    let (desk, seat) = opened(alloc, 1_000_000)?;
    let seat = four(rt, &desk, seat, numbers, users);
    Ok(desk.close(seat).ok())
}

/// How many entries of a journal led a request, joined one, and collected a ticket.
struct Tally {
    led: u64,
    joined: u64,
    collected: u64,
}

fn tally_of(core: &Core) -> Tally {
    let mut tally = Tally {
        led: 0,
        joined: 0,
        collected: 0,
    };
    for entry in core.journal() {
        match entry.reply {
            Reply::Lead(_) => tally.led = tally.led.saturating_add(1),
            Reply::Join(_, _) => tally.joined = tally.joined.saturating_add(1),
            Reply::Took(_) => tally.collected = tally.collected.saturating_add(1),
            _ => {}
        }
    }
    tally
}

fn tell(alloc: Global, core: &Core, mut numbers: Vec<u64>) -> Result<String, Memory> {
    let entries = core.journal().len();
    let Tally {
        led,
        joined,
        collected,
    } = tally_of(core);
    let own = if numbers.len() == entries && are_all(&mut numbers)? {
        "all, none twice"
    } else {
        "not all"
    };
    Ok(format!(in alloc;
        "{entries} entries: {led} led, {joined} joined, {collected} collected\nthe seats' own numbers from 1 to {entries}: {own}\n"
    )?)
}

/// What four threads make of so many users: one leads each, and the others wait for it.
pub fn play_four<R: Threads + Wait + Sync>(
    rt: &R,
    alloc: Global,
    users: u32,
) -> Result<String, Memory> {
    let numbers = Mutex::new(Vec::new(alloc));
    match journal_of(rt, alloc, &numbers, users)? {
        Some(core) => tell(alloc, &core, numbers.into_inner()),
        None => Ok(String::from_str(alloc, "the turn was taken at the end\n")?),
    }
}
