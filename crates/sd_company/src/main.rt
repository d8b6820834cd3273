// Plays sessions side by side at one desk, in memory: a gate that holds one of two, sixty-four at once, a full journal, and a leader that
// gives up. Standard output gets what the sessions wrote and how they ended.
#![tactic(auto)]

mod company;
mod desks;
mod dropped;
mod full;
mod gates;
mod many;
mod pair;
mod steps;
mod visits;

use dropped::play_dropped;
use full::{play_forgetting, play_full};
use many::play_many;
use pair::play_pair;
use sd_base::{Memory, WriterSink, write_all};
use std::alloc::Global;
use std::process::ExitCode;
use std::sync::Wait;
use std::thread::Threads;

fn name(out: &mut Vec<u8>, text: &[u8]) -> Result<(), Memory> {
    out.extend_from_slice(b"== ")?;
    out.extend_from_slice(text)?;
    out.push(b'\n')?;
    Ok(())
}

fn play<R: Threads + Wait + Sync>(rt: &R, alloc: Global) -> Result<Vec<u8>, Memory> {
    let mut out = Vec::new(alloc);
    name(
        &mut out,
        b"two sessions, the first held before the directory",
    )?;
    play_pair(rt, alloc, &mut out)?;
    name(&mut out, b"64 sessions that ask for 32 users at once")?;
    play_many(rt, alloc, &mut out)?;
    name(&mut out, b"six questions over a journal of eight entries")?;
    play_forgetting(rt, alloc, &mut out)?;
    name(
        &mut out,
        b"a journal that is full and has nothing to forget",
    )?;
    play_full(rt, alloc, &mut out)?;
    name(&mut out, b"a leader that gives up")?;
    play_dropped(rt, alloc, &mut out)?;
    Ok(out)
}

fn main(rt: HostRuntime) -> ExitCode {
    let mut sink = WriterSink::new(rt.stdout());
    let Ok(out) = play(&rt, rt.alloc()) else {
        return ExitCode::from(7);
    };
    match write_all(&mut sink, out.as_slice()) {
        Ok(()) => ExitCode::from(0),
        Err(_) => ExitCode::from(4),
    }
}
