// Binds over the lines of a dialer in memory.
use crate::hex::{cut_word, number, numbers};
use crate::output::{print_line, print_number};
use sd_base::Memory;
use sd_dial::Dialer;
use sd_link::Link;
use sd_stub::{Directory, Mode};
use sd_stub_link::{StubDialer, StubServer};
use std::alloc::Global;

/// A bind without a name and a password.
const BIND: &[u8] = b"\x30\x0c\x02\x01\x01\x60\x07\x02\x01\x03\x04\x00\x80\x00";

fn servers(alloc: Global, directory: &Directory) -> Result<Vec<StubServer<'_>>, Memory> {
    let mut servers = Vec::new(alloc);
    for mode in [Mode::Up, Mode::Down] {
        servers.push(StubServer { directory, mode })?;
    }
    Ok(servers)
}

/// What a bind over a line comes to.
fn word_of<L: Link>(line: &mut L) -> &'static [u8] {
    let mut buf = [0u8; 64];
    if line.send(BIND).is_err() {
        b"not sent"
    } else if line.receive(&mut buf).is_err() {
        b"nothing received"
    } else {
        b"received"
    }
}

/// What a bind at a server comes to.
fn bind_word<D: Dialer>(dialer: &mut D, server: u32) -> &'static [u8] {
    let Ok(mut line) = dialer.dial(server) else {
        return b"no line";
    };
    let word = word_of(&mut line);
    dialer.done(line);
    word
}

/// What binds at servers come to, one behind the other.
pub fn print_dialled(
    alloc: Global,
    out: &mut Vec<u8>,
    directory: &Directory,
    words: &[u8],
) -> Result<(), Memory> {
    let (dials, words) = cut_word(words);
    let (calls, words) = cut_word(words);
    let mut dialer = StubDialer::new(
        alloc,
        servers(alloc, directory)?,
        numbers(alloc, b',', dials)?,
        numbers(alloc, b',', calls)?,
    );
    let mut left = words;
    for _ in 0..words.len() {
        if left.is_empty() {
            break;
        }
        let (server, rest) = cut_word(left);
        print_line(out, bind_word(&mut dialer, number(server)))?;
        left = rest;
    }
    if dialer.starved() {
        return Err(Memory);
    }
    print_number(alloc, out, "faults", dialer.faults())
}
