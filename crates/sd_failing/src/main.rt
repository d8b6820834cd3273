// Plays sessions of which some call fails: standard input has many, standard output gets what each comes to.
//
// A line `== NAME` begins a case. The lines behind it say what its sessions find, in any order but for the runs:
//   over core       the session has a core of its own, `over desk` a seat at a desk
//   conf LINE       this line ends the configuration
//   ask REQUEST     the client sends this request, in the words of `query`
//   moments N N ..  what the clock says, the last of them from then on
//   takes N         a take of the source gives at most N bytes; so do `puts N` of the sink and `receives N` of a line
//   each CALL N     N runs: the first call fails, the second, and so on to the N-th; CALL is take, put, dial, send or receive
//   from CALL N     N runs: all calls from the first on fail, from the second on, and so on
//   cut N           N runs: each line ends before its first byte, behind the first, and so on to N - 1
//   byte PLACE N    a run: the byte at this place of each answer, counted from 0, is N
//   others          a run: in place of each answer messages of another id come, without end
//   none            a run in which nothing fails
//
// For each run stand: its name; what the client was told, a line for each reply, and the digits of what is no whole reply; how the
// session ended; what the servers were asked; the faults that the dialer counted; and the journal, a line for each entry.
#![tactic(auto)]

mod case;
mod dialer;
mod line;
mod requests;
mod streams;
mod telling;
mod trouble;
mod visits;
mod world;

use case::Case;
use sd_base::{Memory, ReadEnd, ReaderSource, WriterSink, read_all, write_all};
use sd_pieces::cut;
use sd_stub::Directory;
use std::alloc::Global;
use std::process::ExitCode;
use std::sync::Wait;
use telling::tell;
use trouble::Trouble;
use visits::visited;
use world::directory_of;

/// The longest input, in bytes.
const LIMIT: usize = 1 << 20;

/// Plays a run, and tells what it came to.
fn play_run<R: Wait>(
    rt: &R,
    alloc: Global,
    case: &Case,
    directory: &Directory,
    trouble: Trouble,
    out: &mut Vec<u8>,
) -> Result<(), Memory> {
    let visit = visited(rt, alloc, case, directory, trouble)?;
    tell(alloc, out, trouble, &visit)
}

/// Plays the runs of a case.
fn play_case<R: Wait>(
    rt: &R,
    alloc: Global,
    case: &Case,
    directory: &Directory,
    out: &mut Vec<u8>,
) -> Result<(), Memory> {
    for trouble in case.runs.iter() {
        play_run(rt, alloc, case, directory, *trouble, out)?;
    }
    Ok(())
}

/// Takes a line in. The name of the next case ends the one before, which is played.
fn take_line<R: Wait>(
    rt: &R,
    alloc: Global,
    case: &mut Case,
    directory: &Directory,
    line: &[u8],
    out: &mut Vec<u8>,
) -> Result<(), Memory> {
    if !line.starts_with(b"== ") {
        return case.take(alloc, line);
    }
    play_case(rt, alloc, case, directory, out)?;
    out.extend_from_slice(line)?;
    out.push(b'\n')?;
    *case = Case::new(alloc)?;
    Ok(())
}

/// What all cases of a text come to.
fn play_all<R: Wait>(rt: &R, alloc: Global, text: &[u8]) -> Result<Vec<u8>, Memory> {
    let directory = directory_of(alloc)?;
    let mut out = Vec::new(alloc);
    let mut case = Case::new(alloc)?;
    let mut left = Some(text);
    for _ in 0..=text.len() {
        let Some(lines) = left else {
            break;
        };
        let (line, rest) = cut(b'\n', lines);
        take_line(rt, alloc, &mut case, &directory, line, &mut out)?;
        left = rest;
    }
    play_case(rt, alloc, &case, &directory, &mut out)?;
    Ok(out)
}

fn main(rt: HostRuntime) -> ExitCode {
    let alloc = rt.alloc();
    let mut source = ReaderSource::new(rt.stdin());
    let mut sink = WriterSink::new(rt.stdout());
    let text = match read_all(alloc, &mut source, LIMIT) {
        Ok(text) => text,
        Err(ReadEnd::Memory) => return ExitCode::from(7),
        Err(_) => return ExitCode::from(3),
    };
    let Ok(out) = play_all(&rt, alloc, text.as_slice()) else {
        return ExitCode::from(7);
    };
    match write_all(&mut sink, out.as_slice()) {
        Ok(()) => ExitCode::from(0),
        Err(_) => ExitCode::from(4),
    }
}
