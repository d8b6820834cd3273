// Plays daemons whose host is in memory: standard input has many, standard output gets what each writes and leaves.
//
// A line `== NAME` begins a daemon. The lines behind it say what it finds, in any order:
//   conf LINE       this line ends its configuration
//   down            its server takes no link
//   store           it is given an empty store, `store again` what the daemon before left
//   blob HEX        these octets stand in its store, behind others
//   fail store N    the N-th call on its store fails, counted from 1; so does the N-th accept of `fail door N`
//   moment N        what each clock says first, and so on, a line for each reading; the last of them from then on
//   client          a client comes; `ask REQUEST` is what the last client asks, in the words of `query`
//   silent          what clients are told is not printed, only whether all were told the same
//
// Behind the name stand what the daemon wrote, `= STATUS`, what each client was told, a line for each reply, and the blobs that
// its store has at the end, a line for each: its first octet, which tells the kind of row, and how many octets it has. In front of
// all stands how the word `directory` ends, over doors in memory and over TCP.
#![tactic(auto)]

mod case;
mod directories;
mod doors;
mod host;
mod keeper;
mod play;
mod requests;

use case::Case;
use directories::print_directories;
use play::Player;
use sd_base::{Memory, ReaderSource, WriterSink};
use sd_plays::{Failure, cut_line, cut_text, print, read};
use std::alloc::Global;
use std::net::{Net, TcpListener, TcpStream};
use std::process::ExitCode;
use std::sync::Wait;
use std::thread::Threads;
use std::time::Clock;

/// How the word `directory` ends, and what all daemons of a text write and leave.
fn play_all<R>(rt: &R, alloc: Global, text: &[u8]) -> Result<Vec<u8>, Memory>
where
    R: Threads + Wait + Net<Listener = TcpListener, Stream = TcpStream> + Clock + Sync,
{
    let mut out = Vec::new(alloc);
    print_directories(rt, alloc, &mut out)?;
    let mut player = Player::new(rt, alloc)?;
    let mut left = text;
    for _ in 0..text.len() {
        if left.is_empty() {
            break;
        }
        let (name, rest) = cut_line(left);
        let (body, rest) = cut_text(rest);
        out.extend_from_slice(name)?;
        out.push(b'\n')?;
        player.play(Case::of(alloc, body)?, &mut out)?;
        left = rest;
    }
    Ok(out)
}

/// What the daemons of an input write and leave.
fn made<R>(rt: &R, alloc: Global, text: Result<Vec<u8>, Failure>) -> Result<Vec<u8>, Failure>
where
    R: Threads + Wait + Net<Listener = TcpListener, Stream = TcpStream> + Clock + Sync,
{
    let text = text?;
    Ok(play_all(rt, alloc, text.as_slice())?)
}

fn main(rt: HostRuntime) -> ExitCode {
    let text = read(rt.alloc(), &mut ReaderSource::new(rt.stdin()));
    print(
        &mut WriterSink::new(rt.stdout()),
        made(&rt, rt.alloc(), text),
    )
}
