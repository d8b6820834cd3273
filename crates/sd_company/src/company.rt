// Clients of one desk, each in a thread of its own, who ask for users of one directory behind a gate.
ghost use Rattle.std.specs.Prelude.{◌≡◌};
ghost use Rattle.sd_desk.specs.Desks.{IsOwn, HoldsNoTurn};

use crate::desks::directory_of;
use crate::gates::{HeldGate, Hold};
use crate::visits::{Visit, question, serve, tell};
use core::thread::{Anything, Stack};
use sd_base::Memory;
use sd_desk::{Desk, DeskSeat};
use sd_stub::Directory;
use std::alloc::Global;
use std::sync::atomic::AtomicU64;
use std::sync::{Mutex, Wait};
use std::thread::{Scope, Threads};

/// The stack of a session's thread, in bytes.
const STACK: usize = 1024 * 1024;

/// A user: how often the directory was asked for it, and what the visits for it came to.
#[derive(Drop)]
pub struct User {
    pub name: String,
    pub asked: AtomicU64,
    pub visits: Mutex<Vec<Visit>>,
}

impl User {
    /// The user `u0`, `u1` and so on.
    pub fn new(alloc: Global, user: u32) -> Result<User, Memory> {
        Ok(User {
            name: format!(in alloc; "u{user}")?,
            asked: AtomicU64::new(0),
            visits: Mutex::new(Vec::new(alloc)),
        })
    }
}

/// What all sessions share.
pub struct Company {
    pub directory: Directory,
    pub hold: Hold,
}

impl Drop for Company {
    fn drop(self) {
        let Company {
            directory: _,
            hold: _,
        } = self;
    }
}

impl Company {
    /// A directory of the users `u0` and so on, so many, behind a gate.
    pub fn new(alloc: Global, users: u32) -> Result<Company, Memory> {
        Ok(Company {
            directory: directory_of(alloc, users)?,
            hold: Hold::new(),
        })
    }
}

/// A client who asks for a user, with a seat.
#[derive(Drop)]
struct Guest<'c> {
    desk: &'c Desk,
    seat: DeskSeat,
    company: &'c Company,
    user: &'c User,
    ghost own: { IsOwn desk.now seat },
    ghost free: { HoldsNoTurn seat },
}

impl<'c> Guest<'c> {
    /// Visits the desk behind the gate.
    fn visit<R: Wait>(self, rt: &R, alloc: Global) -> Result<(), Memory> {
        let Guest {
            desk,
            seat,
            company,
            user,
        } = self;
        let bytes = question(alloc, user.name.as_bytes())?;
        let gate = HeldGate {
            hold: &company.hold,
            asked: &user.asked,
        };
        let visit = serve(rt, alloc, desk, seat, &company.directory, bytes, &gate)?;
        user.visits.lock(rt).push(visit)?;
        Ok(())
    }
}

/// Lets a client in who asks for a user: in a thread of its own, or here, where none can be made.
pub fn welcome<'s, Env, R: Threads + Wait + Sync>(
    rt: &'s R,
    alloc: Global,
    scope: &Scope<'s, Env>,
    desk: &'s Desk,
    seat: &mut DeskSeat,
    company: &'s Company,
    user: &'s User,
)
    requires own { IsOwn desk.now seat.old }
    requires free { HoldsNoTurn seat.old }
    ensures own { IsOwn desk.now seat.new }
    ensures free { HoldsNoTurn seat.new }
{
    let guest = Guest {
        desk,
        seat: desk.split(seat),
        company,
        user,
    };
    start(rt, alloc, scope, guest);
}

fn start<'s, Env, R: Threads + Wait + Sync>(
    rt: &'s R,
    alloc: Global,
    scope: &Scope<'s, Env>,
    guest: Guest<'s>,
) {
    let job = move || {
        // A visit that found no memory is missing at the end.
        let _ = guest.visit(rt, alloc);
    };
    let stack = Stack::new().stack_size(STACK);
    if let Err(refused) = stack.spawn_scoped_with(scope, Anything, job) {
        (refused.value)();
    }
}

/// Appends what the visits for a user came to.
pub fn tell_visits<R: Wait>(
    rt: &R,
    alloc: Global,
    out: &mut Vec<u8>,
    name: &str,
    user: &User,
) -> Result<(), Memory> {
    let visits = user.visits.lock(rt);
    for visit in visits.iter() {
        tell(alloc, out, name, visit)?;
    }
    Ok(())
}
