//! The sessions in threads.
ghost use Rattle.std.specs.Prelude.{◌≡◌};
ghost use Rattle.sd_desk.specs.Desks.{IsOwn, HoldsNoTurn};

use crate::account::Account;
use crate::desks::{close_desk, default_config, open_desk};
use crate::inputs::inputs_of;
use crate::replies::Replies;
use crate::users::known_users;
use crate::visit::Visit;
use sd_base::Memory;
use sd_clock::Gate;
use sd_conf::Config;
use sd_desk::{Desk, DeskSeat};
use sd_stub::Directory;
use std::alloc::Global;
use std::sync::Wait;
use std::thread;
use std::thread::Threads;

/// A client for each input, at a seat of its own.
fn visits_of<'d>(
    alloc: Global,
    desk: &'d Desk,
    seat: &mut DeskSeat,
    directory: &'d Directory,
    inputs: Vec<Vec<u8>>,
) -> Result<Vec<Visit<'d>>, Memory>
    requires own { IsOwn desk.now seat.old }
    requires free { HoldsNoTurn seat.old }
    ensures own { IsOwn desk.now seat.new }
    ensures free { HoldsNoTurn seat.new }
{
    let mut visits = Vec::new(alloc);
    for input in inputs {
        let own = desk.split(seat);
        visits.push(Visit {
            desk,
            seat: own,
            directory,
            input,
        })?;
    }
    Ok(visits)
}

/// Serves each client in a thread of its own, and tells what all replies say.
fn serve_all<R, G>(
    rt: &R,
    alloc: Global,
    visits: Vec<Visit<'_>>,
    gate: &G,
) -> Result<Replies, Memory>
where
    R: Threads + Wait + Sync,
    G: Gate + Sync,
{
    let served = thread::map_vec(
        rt,
        visits,
        &|visit: Visit<'_>| -> Result<Replies, Memory> { visit.run(rt, alloc, gate) },
    )?;
    let mut all = Replies::NOTHING;
    for replies in served {
        all = all.and(replies?);
    }
    Ok(all)
}

/// What all replies say where these users are asked for over eight sessions at once, at a desk.
fn visit_desk<R, G>(
    rt: &R,
    alloc: Global,
    desk: &Desk,
    seat: &mut DeskSeat,
    directory: &Directory,
    users: &[u32],
    gate: &G,
) -> Result<Replies, Memory>
where
    R: Threads + Wait + Sync,
    G: Gate + Sync,
    requires own { IsOwn desk.now seat.old }
    requires free { HoldsNoTurn seat.old }
    ensures own { IsOwn desk.now seat.new }
    ensures free { HoldsNoTurn seat.new }
{
    let inputs = inputs_of(alloc, users)?;
    let visits = visits_of(alloc, desk, seat, directory, inputs)?;
    serve_all(rt, alloc, visits, gate)
}

/// What the sessions come to at a desk of their own, which is closed behind them.
fn ask_directory<R, G>(
    rt: &R,
    alloc: Global,
    config: Config,
    directory: &Directory,
    users: &[u32],
    gate: &G,
) -> Result<Account, Memory>
where
    R: Threads + Wait + Sync,
    G: Gate + Sync,
{
    let (desk, mut seat) = open_desk(alloc, config)?;
    let replies = visit_desk(rt, alloc, &desk, &mut seat, directory, users, gate);
    let leads = close_desk(desk, seat)?;
    let replies = replies?;
    Ok(Account {
        found: replies.found,
        none: replies.none,
        leads,
    })
}

/// What it comes to where these users are asked for over eight sessions at once: what all replies say, and how often a request was led.
pub fn asked_at_once<R, G>(
    rt: &R,
    alloc: Global,
    users: &[u32],
    gate: &G,
) -> Result<Account, Memory>
where
    R: Threads + Wait + Sync,
    G: Gate + Sync,
{
    let config = default_config(alloc)?;
    let directory = known_users(alloc, &config.base)?;
    ask_directory(rt, alloc, config, &directory, users, gate)
}
