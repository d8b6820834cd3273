// A session at a desk whose journal is full.
ghost use Rattle.std.specs.Prelude.{◌≡◌};

use crate::desks::{directory_of, opened};
use crate::steps::{close, step};
use crate::visits::{question, serve, tell};
use sd_base::Memory;
use sd_clock::OpenGate;
use sd_rules::{Event, Key};
use std::alloc::Global;
use std::sync::Wait;

fn questions(alloc: Global, user: &[u8], times: u32) -> Result<Vec<u8>, Memory> {
    let mut bytes = Vec::new(alloc);
    for _ in 0..times {
        bytes.extend_from_slice(question(alloc, user)?.as_slice())?;
    }
    Ok(bytes)
}

/// Six questions of one session over a journal of eight entries: it forgets where the journal is full.
pub fn play_forgetting<R: Wait>(rt: &R, alloc: Global, out: &mut Vec<u8>) -> Result<(), Memory> {
    let directory = directory_of(alloc, 0)?;
    let bytes = questions(alloc, b"bob", 6)?;
    let (desk, mut first) = opened(alloc, 8)?;
    let second = desk.split(&mut first);
    let visit = serve(rt, alloc, &desk, second, &directory, bytes, &OpenGate)?;
    tell(alloc, out, "session", &visit)?;
    close(alloc, desk, first, out)
}

/// A session over a journal of four entries in which another seat leads a request: nothing can be forgotten, so the session gives
/// up what it leads, and ends.
pub fn play_full<R: Wait>(rt: &R, alloc: Global, out: &mut Vec<u8>) -> Result<(), Memory> {
    let directory = directory_of(alloc, 1)?;
    let bytes = question(alloc, b"u0")?;
    let (desk, mut first) = opened(alloc, 4)?;
    let second = desk.split(&mut first);
    step(rt, &desk, &mut first, Event::Ask(Key::Uid(7)));
    let visit = serve(rt, alloc, &desk, second, &directory, bytes, &OpenGate)?;
    step(rt, &desk, &mut first, Event::Abandon(1));
    tell(alloc, out, "session", &visit)?;
    close(alloc, desk, first, out)
}
