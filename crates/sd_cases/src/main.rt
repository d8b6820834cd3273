// Plays worked journals, and rows and restarts of them, on both cores: standard input has settings, steps and rows, standard output gets
// the entries and the rows that they make.
//
// The lines are those of sd_steps, and these.
// - `kept` prints the rows that are kept, and `reopen` opens the cores again with them, as a restart does. `row ..` has a row as `kept`
//   prints it, and `open` opens the cores with the rows of these lines, or prints the place of the first that is against the rules,
//   counted from 0.
// - `restarted` prints what the journal would be after a restart that keeps all that it can: the number and the moment of its next entry,
//   and each entry's number and reply.
// - `marks NOW USER ENTRY` prints what the marks of sd_creds, made of the journal, say of a user: the hash entry, the login that is
//   cached, and the verdicts on a right guess, a wrong one and a right try.
// - `asked NOW KEY` prints what sd_journal replies to a question at this moment, also at one before the last entry's, as where a clock
//   went back; a step has the last entry's moment then.
// - `waits` and `servers` print fixed calls of a request table (sd_table) and of the servers of a domain (sd_failover), which need no
//   journal, and what each gives.
// - `pace KIND USERS ENTRIES STEPS` makes steps of one kind (pace_kinds.rt) over a core of their own: it is opened with so many kept
//   users, asked for them until it has so many entries, and then the steps are made. It prints what the steps came to; with the word
//   `times` as the program's argument also how long one of them took, in nanoseconds: their events are made before.
#![tactic(auto)]

mod asked;
mod calls;
mod keeping;
mod marks;
mod pace_events;
mod pace_kinds;
mod pace_world;
mod paces;
mod play;
mod restarted;
mod row_lines;
mod rows;
mod servers;
mod waits;

use play::Play;
use sd_base::{Memory, ReaderSource, WriterSink};
use sd_plays::{Failure, print, read};
use sd_steps::words::cut;
use std::env;
use std::process::ExitCode;

/// Whether the program's argument is `times`.
fn is_timed(rt: &HostRuntime) -> bool {
    let Ok(mut words) = env::args(rt) else {
        return false;
    };
    let _program = words.next();
    match words.next() {
        Some(word) => word.as_str() == "times",
        None => false,
    }
}

/// What the lines of a text print.
fn play_all(rt: &HostRuntime, text: &[u8]) -> Result<Vec<u8>, Memory> {
    let mut play = Play::new(rt.alloc(), is_timed(rt))?;
    let mut left = text;
    for _ in 0..text.len() {
        if left.is_empty() {
            break;
        }
        let (line, rest) = cut(left, b'\n');
        play.line(rt, line)?;
        left = rest;
    }
    Ok(play.printed())
}

fn made(rt: &HostRuntime) -> Result<Vec<u8>, Failure> {
    let text = read(rt.alloc(), &mut ReaderSource::new(rt.stdin()))?;
    Ok(play_all(rt, text.as_slice())?)
}

fn main(rt: HostRuntime) -> ExitCode {
    print(&mut WriterSink::new(rt.stdout()), made(&rt))
}
