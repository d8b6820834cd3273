// What each line does.
use crate::dialling::print_dialled;
use crate::directories::{directory_of, print_answer, print_served};
use crate::elements::{print_elements, print_head, print_integer};
use crate::hashes::{print_changes, print_hash, print_read, print_salt};
use crate::hex::{bytes_of, cut_word};
use crate::links::print_link;
use crate::messages::{print_message, print_same};
use crate::output::{print, print_line, print_number};
use crate::searches::{print_bind, print_searched};
use crate::stores::{keeper_of, print_flush, print_load, print_reload};
use sd_base::Memory;
use sd_keeper::MemoryKeeper;
use sd_pieces::cut;
use sd_stub::Directory;
use std::alloc::Global;

/// The directory, the keeper, and what was printed.
pub struct Play {
    directory: Directory,
    keeper: MemoryKeeper,
    out: Vec<u8>,
}

impl Drop for Play {
    fn drop(self) {
        let Play {
            directory: _,
            keeper: _,
            out: _,
        } = self;
    }
}

/// The lines in front of the first dot alone, and what comes behind it.
fn cut_entries(text: &[u8]) -> (&[u8], &[u8]) {
    let count = text.len();
    for place in 0..count {
        if text[place..].starts_with(b"\n.\n") {
            return (&text[..place + 1], &text[count.min(place + 3)..]);
        }
    }
    (text, b"")
}

/// The bytes that a line gives to a word: its own behind `read`, else those of its digits.
fn bytes_for(alloc: Global, word: &[u8], words: &[u8]) -> Result<Vec<u8>, Memory> {
    match word {
        b"read" => Ok(Vec::from_slice(alloc, words)?),
        _ => bytes_of(alloc, words),
    }
}

/// What bytes alone come to.
fn print_of(
    alloc: Global,
    out: &mut Vec<u8>,
    directory: &Directory,
    word: &[u8],
    bytes: &[u8],
) -> Result<(), Memory> {
    match word {
        b"elements" => print_elements(alloc, out, bytes),
        b"integer" => print_integer(alloc, out, bytes),
        b"element" => print_head(alloc, out, bytes),
        b"message" => print_message(alloc, out, bytes),
        b"same" => print_same(alloc, out, bytes),
        b"answer" => print_answer(alloc, out, directory, bytes),
        b"search" => print_searched(alloc, out, bytes, false),
        b"again" => print_searched(alloc, out, bytes, true),
        b"read" => print_read(out, bytes),
        _ => Ok(()),
    }
}

/// What the first bytes alone come to, by how many they are, where that is not what one byte less came to.
fn print_cuts(
    alloc: Global,
    out: &mut Vec<u8>,
    directory: &Directory,
    words: &[u8],
) -> Result<(), Memory> {
    let (word, words) = cut_word(words);
    let bytes = bytes_for(alloc, word, words)?;
    let bytes = bytes.as_slice();
    let mut last = Vec::new(alloc);
    for count in 0..bytes.len() {
        let mut printed = Vec::new(alloc);
        print_of(alloc, &mut printed, directory, word, &bytes[..count])?;
        if printed.as_slice() != last.as_slice() {
            print_number(alloc, out, "from", count as u64)?;
            print(out, printed.as_slice())?;
        }
        last = printed;
    }
    print_number(alloc, out, "below", bytes.len() as u64)
}

impl Play {
    pub fn new(alloc: Global) -> Result<Play, Memory> {
        Ok(Play {
            directory: Directory::new(alloc, Vec::new(alloc))?,
            keeper: keeper_of(alloc, b"")?,
            out: Vec::new(alloc),
        })
    }

    pub fn printed(self) -> Vec<u8> {
        let Play {
            directory: _,
            keeper: _,
            out,
        } = self;
        out
    }

    fn word(&mut self, alloc: Global, word: &[u8], words: &[u8]) -> Result<(), Memory> {
        match word {
            b"serve" => print_served(alloc, &mut self.out, &self.directory, words),
            b"link" => print_link(alloc, &mut self.out, &self.directory, words),
            b"dialer" => print_dialled(alloc, &mut self.out, &self.directory, words),
            b"cuts" => print_cuts(alloc, &mut self.out, &self.directory, words),
            b"changes" => print_changes(alloc, &mut self.out, words),
            b"hash" => print_hash(alloc, &mut self.out, words),
            b"salt" => print_salt(alloc, &mut self.out, words),
            b"bind" => print_bind(alloc, &mut self.out, words),
            b"load" => print_load(alloc, &mut self.out, words),
            b"keeper" => {
                self.keeper = keeper_of(alloc, words)?;
                Ok(())
            }
            b"flush" => print_flush(alloc, &mut self.out, &mut self.keeper, words),
            b"reload" => print_reload(alloc, &mut self.out, &mut self.keeper),
            _ => {
                let bytes = bytes_for(alloc, word, words)?;
                print_of(
                    alloc,
                    &mut self.out,
                    &self.directory,
                    word,
                    bytes.as_slice(),
                )
            }
        }
    }

    /// Carries out the first line, or the block that begins there, and gives what comes behind it.
    pub fn line<'a>(&mut self, alloc: Global, text: &'a [u8]) -> Result<&'a [u8], Memory> {
        let (line, rest) = cut(b'\n', text);
        let rest = rest.unwrap_or(b"");
        print_line(&mut self.out, line)?;
        if line == b"entries".as_slice() {
            let (entries, behind) = cut_entries(rest);
            self.directory = directory_of(alloc, entries)?;
            return Ok(behind);
        }
        let (word, words) = cut_word(line);
        self.word(alloc, word, words)?;
        Ok(rest)
    }
}
