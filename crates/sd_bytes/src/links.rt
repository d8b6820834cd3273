// Links to a server in memory, of each mode.
ghost use Rattle.std.specs.Prelude.{◌≡◌, false};
ghost use Rattle.sd_stub_link.specs.Modes.{is_down};

use crate::hex::{bytes_of, cut_word, number};
use crate::output::{print_bytes, print_line, print_number};
use sd_base::{Memory, Numbers};
use sd_link::Link;
use sd_stub::{Directory, Mode};
use sd_stub_link::StubLink;
use std::alloc::Global;

/// How many receives are made at most.
const RECEIVES: usize = 64;

/// The mode of a word; another word is the code that all is answered by.
fn mode_of(word: &[u8]) -> Mode
    ensures { is_down result ≡ false }
{
    match word {
        b"up" => Mode::Up,
        b"cut" => Mode::Cut,
        b"indef" => Mode::Indef,
        b"long" => Mode::Long,
        code => Mode::Code(number(code)),
    }
}

/// Sends each piece.
fn send_all(
    alloc: Global,
    out: &mut Vec<u8>,
    link: &mut StubLink<'_>,
    words: &[u8],
) -> Result<(), Memory> {
    let mut left = words;
    for _ in 0..words.len() {
        if left.is_empty() {
            break;
        }
        let (word, rest) = cut_word(left);
        if link.send(bytes_of(alloc, word)?.as_slice()).is_err() {
            print_line(out, b"not sent")?;
        }
        left = rest;
    }
    Ok(())
}

/// What comes over a link in pieces of seven bytes, up to the first receive that fails.
fn receive_all(alloc: Global, link: &mut StubLink<'_>) -> Result<Vec<u8>, Memory> {
    let mut bytes = Vec::new(alloc);
    let mut buf = [0u8; 7];
    for _ in 0..RECEIVES {
        let Ok(count) = link.receive(&mut buf) else {
            break;
        };
        bytes.extend_from_slice(&buf[..count])?;
    }
    Ok(bytes)
}

/// What comes over a link when pieces were sent.
pub fn print_link(
    alloc: Global,
    out: &mut Vec<u8>,
    directory: &Directory,
    words: &[u8],
) -> Result<(), Memory> {
    let (mode, pieces) = cut_word(words);
    let mut link = StubLink::new(alloc, directory, mode_of(mode), Numbers::new(alloc));
    send_all(alloc, out, &mut link, pieces)?;
    let bytes = receive_all(alloc, &mut link)?;
    if link.starved() {
        return Err(Memory);
    }
    print_bytes(alloc, out, "received", bytes.as_slice())?;
    print_number(alloc, out, "faults", link.faults())
}
