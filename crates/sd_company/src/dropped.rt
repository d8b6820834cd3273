// A session that joins the request of a leader who gives it up.
ghost use Rattle.std.specs.Prelude.{◌≡◌};
ghost use Rattle.sd_desk.specs.Desks.{IsOwn, HoldsNoTurn};

use crate::company::{Company, User, tell_visits, welcome};
use crate::desks::opened;
use crate::steps::{close, rest_until, step};
use sd_base::{Memory, Text};
use sd_desk::{Desk, DeskSeat};
use sd_rules::{Event, Key};
use std::alloc::Global;
use std::sync::Wait;
use std::thread;
use std::thread::{Scope, Threads};

/// Lets a client in who asks for a user, and abandons the first request once the client waits for it.
fn give_up<'s, Env, R: Threads + Wait + Sync>(
    rt: &'s R,
    alloc: Global,
    scope: &Scope<'s, Env>,
    desk: &'s Desk,
    mut seat: DeskSeat,
    company: &'s Company,
    user: &'s User,
)
    requires own { IsOwn desk.now seat }
    requires free { HoldsNoTurn seat }
{
    welcome(rt, alloc, scope, desk, &mut seat, company, user);
    rest_until(rt, desk, &mut seat, 2);
    step(rt, desk, &mut seat, Event::Abandon(1));
}

/// Lets the client be served to the end.
fn meet<R: Threads + Wait + Sync>(
    rt: &R,
    alloc: Global,
    desk: &Desk,
    seat: DeskSeat,
    company: &Company,
    user: &User,
)
    requires own { IsOwn desk.now seat }
    requires free { HoldsNoTurn seat }
{
    thread::scope(
        thread::scope_env(),
        rt,
        move |scope|
            requires { IsOwn desk.now seat × HoldsNoTurn seat }
        { give_up(rt, alloc, scope, desk, seat, company, user) },
    );
}

/// Another seat leads the request for a user, a session joins it, and the other seat gives it up.
pub fn play_dropped<R: Threads + Wait + Sync>(
    rt: &R,
    alloc: Global,
    out: &mut Vec<u8>,
) -> Result<(), Memory> {
    let company = Company::new(alloc, 1)?;
    let user = User::new(alloc, 0)?;
    let asked = Event::Ask(Key::User(Text::from_bytes(alloc, b"u0")?));
    let (desk, mut first) = opened(alloc, 100)?;
    step(rt, &desk, &mut first, asked);
    let seat = desk.split(&mut first);
    meet(rt, alloc, &desk, seat, &company, &user);
    tell_visits(rt, alloc, out, "session", &user)?;
    close(alloc, desk, first, out)
}
