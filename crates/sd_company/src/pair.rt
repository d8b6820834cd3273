// Two sessions at one desk, the first held before the directory until the second has written its reply.
ghost use Rattle.std.specs.Prelude.{◌≡◌};
ghost use Rattle.sd_desk.specs.Desks.{IsOwn, HoldsNoTurn};

use crate::company::{Company, User, tell_visits, welcome};
use crate::desks::opened;
use crate::visits::{Visit, question, serve, tell};
use sd_base::Memory;
use sd_clock::OpenGate;
use sd_desk::{Desk, DeskSeat};
use std::alloc::Global;
use std::sync::Wait;
use std::thread;
use std::thread::{Scope, Threads};

/// Lets the first client in, and serves the second once the first is held: where that one has its reply, the gate is opened.
fn visit_meanwhile<'s, Env, R: Threads + Wait + Sync>(
    rt: &'s R,
    alloc: Global,
    scope: &Scope<'s, Env>,
    desk: &'s Desk,
    mut seat: DeskSeat,
    company: &'s Company,
    held: &'s User,
    bytes: Vec<u8>,
) -> Result<Visit, Memory>
    requires own { IsOwn desk.now seat }
    requires free { HoldsNoTurn seat }
{
    welcome(rt, alloc, scope, desk, &mut seat, company, held);
    company.hold.wait_for_one();
    let visit = serve(rt, alloc, desk, seat, &company.directory, bytes, &OpenGate)?;
    if !visit.written.is_empty() {
        company.hold.open();
    }
    Ok(visit)
}

/// What the second visit came to, once both have ended.
fn meet<R: Threads + Wait + Sync>(
    rt: &R,
    alloc: Global,
    company: &Company,
    held: &User,
    bytes: Vec<u8>,
) -> Result<Visit, Memory> {
    let (desk, seat) = opened(alloc, 1000)?;
    let desk = &desk;
    thread::scope(
        thread::scope_env(),
        rt,
        move |scope| -> Result<Visit, Memory>
            requires { IsOwn desk.now seat × HoldsNoTurn seat }
        { visit_meanwhile(rt, alloc, scope, desk, seat, company, held, bytes) },
    )
}

/// Plays the two sessions.
pub fn play_pair<R: Threads + Wait + Sync>(
    rt: &R,
    alloc: Global,
    out: &mut Vec<u8>,
) -> Result<(), Memory> {
    let company = Company::new(alloc, 2)?;
    let held = User::new(alloc, 0)?;
    let second = meet(rt, alloc, &company, &held, question(alloc, b"u1")?)?;
    tell(alloc, out, "second", &second)?;
    tell_visits(rt, alloc, out, "first", &held)?;
    let said: &[u8] = if company.hold.gave_up() {
        b"the first went on before the second had written\n"
    } else {
        b"the first was held until the second had written\n"
    };
    out.extend_from_slice(said)?;
    Ok(())
}
