// The events of a run.
ghost use Rattle.std.specs.Prelude.{◌≡◌, List, true};
ghost use Rattle.sd_rules.specs.declared.replies.Entry.{Entry};
ghost use Rattle.sd_rules.specs.Steps.{is_steppable};

use crate::pace_kinds::Kind;
use crate::pace_world::{HASH, name, text};
use sd_base::Memory;
use sd_rules::{Event, Key};
use std::alloc::Global;

/// Whether every journal takes a step of an event, whatever it holds.
pub fn is_taken(event: &Event) -> bool
    ensures { result ≡ true → (past : List Entry) → is_steppable past event.now ≡ true }
{
    matches!(
        event,
        Event::Ask(_)
            | Event::Leave(_)
            | Event::LoginLook(_)
            | Event::LoginGuess(_, _, _)
            | Event::Access(_, _)
    )
}

/// A user who is asked for at a step: neighbouring steps ask for users that stand far apart.
fn user_at(step: u32, users: u32) -> u32 {
    let place = u64::from(step) * 7919;
    if users == 0 {
        0
    } else {
        (place % u64::from(users)) as u32
    }
}

/// A question for a user whom the core knows.
pub fn known(alloc: Global, step: u32, users: u32) -> Result<Event, Memory> {
    let name = name(alloc, user_at(step, users))?;
    Ok(Event::Ask(Key::User(name)))
}

/// A question for a user whom it does not know.
pub fn unknown(alloc: Global) -> Result<Event, Memory> {
    Ok(Event::Ask(Key::User(text(alloc, b"newcomer")?)))
}

/// A step of a kind; `next` is the number of the entry that the first of them makes.
fn event_of(alloc: Global, kind: Kind, next: u64, step: u32, users: u32) -> Result<Event, Memory> {
    match kind {
        Kind::Joined if step % 2 == 0 => unknown(alloc),
        Kind::Joined => {
            let ticket = next.saturating_add(u64::from(step)).saturating_sub(1);
            Ok(Event::Leave(ticket))
        }
        Kind::Look => Ok(Event::LoginLook(name(alloc, 0)?)),
        Kind::Guess => Ok(Event::LoginGuess(name(alloc, 0)?, HASH, false)),
        Kind::Access100 | Kind::Access1000 => {
            Ok(Event::Access(name(alloc, 0)?, text(alloc, b"sshd")?))
        }
        _ => known(alloc, step, users),
    }
}

/// All steps of a run.
pub fn events(
    alloc: Global,
    kind: Kind,
    next: u64,
    steps: u32,
    users: u32,
) -> Result<Vec<Event>, Memory> {
    let mut events = Vec::new(alloc);
    for step in 0..steps {
        events.push(event_of(alloc, kind, next, step, users)?)?;
    }
    Ok(events)
}
