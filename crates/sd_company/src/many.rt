// Sixty-four sessions at one desk that ask for thirty-two users at once.
ghost use Rattle.std.specs.Prelude.{◌≡◌};
ghost use Rattle.sd_desk.specs.Desks.{IsOwn, HoldsNoTurn};

use crate::company::{Company, User, welcome};
use crate::desks::opened;
use crate::steps::rest_until;
use crate::visits::{Visit, cut_reply};
use sd_base::Memory;
use sd_core::Core;
use sd_desk::{Desk, DeskSeat};
use sd_engine::SessionEnd;
use sd_rules::Reply;
use std::alloc::Global;
use std::sync::Wait;
use std::sync::atomic::Ordering;
use std::thread;
use std::thread::{Scope, Threads};

/// How many users are asked for, each by two sessions.
const USERS: u32 = 32;

fn users_of(alloc: Global) -> Result<Vec<User>, Memory> {
    let mut users = Vec::new(alloc);
    for user in 0..USERS {
        users.push(User::new(alloc, user)?)?;
    }
    Ok(users)
}

/// Lets a client in for each user.
fn welcome_all<'s, Env, R: Threads + Wait + Sync>(
    rt: &'s R,
    alloc: Global,
    scope: &Scope<'s, Env>,
    desk: &'s Desk,
    seat: &mut DeskSeat,
    company: &'s Company,
    users: &'s [User],
)
    requires own { IsOwn desk.now seat.old }
    requires free { HoldsNoTurn seat.old }
    ensures own { IsOwn desk.now seat.new }
    ensures free { HoldsNoTurn seat.new }
{
    for user in users {
        welcome(rt, alloc, scope, desk, seat, company, user);
    }
}

/// Lets two clients in for each user, and opens the gate once each has asked: a user's first session leads and picks a server, the
/// second joins.
fn gather<'s, Env, R: Threads + Wait + Sync>(
    rt: &'s R,
    alloc: Global,
    scope: &Scope<'s, Env>,
    desk: &'s Desk,
    mut seat: DeskSeat,
    company: &'s Company,
    users: &'s [User],
)
    requires own { IsOwn desk.now seat }
    requires free { HoldsNoTurn seat }
{
    welcome_all(rt, alloc, scope, desk, &mut seat, company, users);
    welcome_all(rt, alloc, scope, desk, &mut seat, company, users);
    rest_until(rt, desk, &mut seat, 3 * u64::from(USERS));
    company.hold.open();
}

/// Lets all clients in, and goes on once each was served.
fn meet<R: Threads + Wait + Sync>(
    rt: &R,
    alloc: Global,
    desk: &Desk,
    seat: DeskSeat,
    company: &Company,
    users: &[User],
)
    requires own { IsOwn desk.now seat }
    requires free { HoldsNoTurn seat }
{
    thread::scope(
        thread::scope_env(),
        rt,
        move |scope|
            requires { IsOwn desk.now seat × HoldsNoTurn seat }
        { gather(rt, alloc, scope, desk, seat, company, users) },
    );
}

/// How many entries of a journal led a request, and how many collected a ticket.
struct Tally {
    led: u64,
    collected: u64,
}

fn tally_of(core: &Core) -> Tally {
    let mut tally = Tally {
        led: 0,
        collected: 0,
    };
    for entry in core.journal() {
        match entry.reply {
            Reply::Lead(_) => tally.led = tally.led.saturating_add(1),
            Reply::Took(_) => tally.collected = tally.collected.saturating_add(1),
            _ => {}
        }
    }
    tally
}

fn tell_journal(alloc: Global, core: &Core, out: &mut Vec<u8>) -> Result<(), Memory> {
    let entries = core.journal().len();
    let Tally { led, collected } = tally_of(core);
    let said = format!(in alloc; "{entries} entries: {led} led, {collected} collected\n")?;
    out.extend_from_slice(said.as_bytes())?;
    Ok(())
}

/// Whether a session ended with its input, after the one reply that its user was found.
fn has_found(visit: &Visit) -> bool {
    match cut_reply(visit.written.as_slice()) {
        Some((reply, rest)) => {
            visit.end == SessionEnd::Closed && reply.starts_with(b"found ") && rest.is_empty()
        }
        None => false,
    }
}

/// Whether there are two visits, in which the user was found, and the same was told.
fn agree(visits: &[Visit]) -> bool {
    match visits {
        [first, second] => {
            has_found(first) && has_found(second) && first.written == second.written
        }
        _ => false,
    }
}

/// For how many users the directory was asked once, and for how many both sessions were told the same.
fn tell_users<R: Wait>(
    rt: &R,
    alloc: Global,
    company: &Company,
    users: &[User],
    out: &mut Vec<u8>,
) -> Result<(), Memory> {
    let (mut once, mut agreed) = (0u32, 0u32);
    for user in users {
        if user.asked.load(Ordering::SeqCst) == 1 {
            once = once.saturating_add(1);
        }
        if agree(user.visits.lock(rt).as_slice()) {
            agreed = agreed.saturating_add(1);
        }
    }
    let gave_up = company.hold.gave_up();
    let said = format!(in alloc;
        "users whom the directory was asked for once: {once} of {USERS}\nusers of whom both sessions were told the same: {agreed}\na session went on before all had asked: {gave_up}\n"
    )?;
    out.extend_from_slice(said.as_bytes())?;
    Ok(())
}

/// Plays the sixty-four sessions.
pub fn play_many<R: Threads + Wait + Sync>(
    rt: &R,
    alloc: Global,
    out: &mut Vec<u8>,
) -> Result<(), Memory> {
    let company = Company::new(alloc, USERS)?;
    let users = users_of(alloc)?;
    let (desk, mut first) = opened(alloc, 10_000)?;
    let seat = desk.split(&mut first);
    meet(rt, alloc, &desk, seat, &company, users.as_slice());
    match desk.close(first) {
        Ok(core) => tell_journal(alloc, &core, out)?,
        Err(_held) => out.extend_from_slice(b"the turn was taken at the end\n")?,
    }
    tell_users(rt, alloc, &company, users.as_slice(), out)
}
