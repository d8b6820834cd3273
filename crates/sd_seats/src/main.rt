// Plays seats at one desk: standard input has worked rows, standard output gets what each call gave.
//
// A line `== LIMIT NAME` begins a row, over a journal that takes LIMIT entries: the lines up to the next such line. `A CALL` is a call
// of the first seat, `B CALL` of the second. At its end the second seat is joined into the first, and the desk is closed. Behind the
// rows four threads lead, join and collect at one desk, and two append to a list of numbers by turns.
#![tactic(auto)]

mod calls;
mod crowd;
mod desks;
mod rows;
mod turns;

use crowd::play_four;
use rows::play_row;
use sd_base::{Memory, ReaderSource, WriterSink, read_all, write_all};
use sd_pieces::{cut, read_number};
use std::alloc::Global;
use std::process::ExitCode;
use std::sync::Wait;
use std::thread::Threads;
use std::time::Clock;
use turns::print_turns;

/// The longest input, in bytes.
const LIMIT: usize = 1 << 20;

/// How many users the four threads look up.
const USERS: u32 = 60;

/// The lines up to the next name, and what comes from there on.
fn cut_row(text: &[u8]) -> (&[u8], &[u8]) {
    let mut is_first = true;
    for place in 0..text.len() {
        if is_first && text[place..].starts_with(b"== ") {
            return (&text[..place], &text[place..]);
        }
        is_first = text[place] == b'\n';
    }
    (text, b"")
}

/// The number behind the first space of a name.
fn limit_of(name: &[u8]) -> u32 {
    let (_, words) = cut(b' ', name);
    let (word, _) = cut(b' ', words.unwrap_or(b""));
    read_number(word).unwrap_or(0)
}

fn play_rows<R: Wait>(rt: &R, alloc: Global, text: &[u8], out: &mut Vec<u8>) -> Result<(), Memory> {
    let mut left = text;
    for _ in 0..text.len() {
        if left.is_empty() {
            break;
        }
        let (name, rest) = cut(b'\n', left);
        let (row, rest) = cut_row(rest.unwrap_or(b""));
        out.extend_from_slice(name)?;
        out.push(b'\n')?;
        play_row(rt, alloc, limit_of(name), row, out)?;
        left = rest;
    }
    Ok(())
}

fn play<R: Threads + Wait + Clock + Sync>(
    rt: &R,
    alloc: Global,
    text: &[u8],
) -> Result<Vec<u8>, Memory> {
    let mut out = Vec::new(alloc);
    play_rows(rt, alloc, text, &mut out)?;
    out.extend_from_slice(b"== four threads and 60 users\n")?;
    out.extend_from_slice(play_four(rt, alloc, USERS)?.as_bytes())?;
    out.extend_from_slice(b"== two threads and a list of numbers\n")?;
    print_turns(rt, alloc, &mut out)?;
    Ok(out)
}

fn main(rt: HostRuntime) -> ExitCode {
    let alloc = rt.alloc();
    let mut source = ReaderSource::new(rt.stdin());
    let mut sink = WriterSink::new(rt.stdout());
    let Ok(text) = read_all(alloc, &mut source, LIMIT) else {
        return ExitCode::from(3);
    };
    let Ok(out) = play(&rt, alloc, text.as_slice()) else {
        return ExitCode::from(7);
    };
    match write_all(&mut sink, out.as_slice()) {
        Ok(()) => ExitCode::from(0),
        Err(_) => ExitCode::from(4),
    }
}
