// Plays worked bytes: standard input has bytes in hexadecimal digits, standard output gets what they come to as elements of BER, as
// messages of LDAP, at a directory, over links, in hashes of passwords, and as rows of a store.
//
// BYTES are words of hexadecimal digits, two for each byte; a word `N*DIGITS` stands for its bytes N times. Each word of BLOBS is one
// blob, and `-` is one without bytes.
//   elements BYTES         the tag and the length of each element in front, and what is behind them
//   integer BYTES          the number of an element with these contents
//   element BYTES          the octets in front of these contents, as an element of the tag 4
//   message BYTES          whether a message stands in front, and how many bytes it takes
//   same BYTES             whether each of the messages that these are is written as it was read
//   entries                the lines up to a dot alone are LDIF: the directory from here on has their entries; at first it has none
//   answer BYTES           what the directory answers
//   serve READ WRITE BYTES what is written over a link of this input, and how it ends; the READ-th read and the WRITE-th write fail
//   link MODE PIECES       what comes over a link to a server of a mode when these pieces were sent; words are pieces here
//   dialer DIALS CALLS SERVERS
//                          what binds at the servers of these numbers come to, one behind the other, where the dials and the calls of
//                          two lists of numbers, with commas between, fail: server 0 is up, 1 is down, there are no others
//   search BYTES           what a search comes to over a link that gives these bytes and ends, and then one more
//   again BYTES            the same over a link that gives these bytes again and again
//   hash SALT WORD         the text of the hash of a password with a salt in digits
//   read TEXT              whether a text is that of a hash
//   changes TEXT           of the texts that differ from this one, a hash's, in that one byte is one greater, those that are read: the
//                          place of that byte, then the bytes of salt and digest that are others, each with its place and its value
//   salt SEED N            the salt of the attempt of this number, made of a seed in digits
//   cuts WORD BYTES        what the line of a word, one with bytes or a text alone, says of the first bytes, of none and of more up to
//                          all but the last: from how many on it says so, and below how many that ends
//   bind NAME WORD BYTES   what a bind comes to over a link that gives these bytes, and what was sent with the unbind behind it
//   load BLOBS             the rows of a store of these blobs and the blobs that they are written as, or why it has none
//   keeper CALLS           the keeper from here on is one that keeps nothing, and the calls of these numbers fail; at first none fails
//   flush BLOBS            whether the keeper takes the rows of these blobs, and what it keeps then
//   reload                 what a load of the keeper's own blobs comes to, and what it keeps then
//
// Each line is printed, and what it comes to behind it; empty lines, and those that begin with `#`, are only printed.
#![tactic(auto)]

mod canned;
mod dialling;
mod directories;
mod elements;
mod hashes;
mod hex;
mod links;
mod messages;
mod output;
mod play;
mod searches;
mod stores;

use play::Play;
use sd_base::{Memory, ReaderSource, WriterSink};
use sd_plays::{Failure, print, read};
use std::alloc::Global;
use std::process::ExitCode;

/// What all lines print.
fn play_all(alloc: Global, text: &[u8]) -> Result<Vec<u8>, Memory> {
    let mut play = Play::new(alloc)?;
    let mut left = text;
    for _ in 0..text.len() {
        if left.is_empty() {
            break;
        }
        left = play.line(alloc, left)?;
    }
    Ok(play.printed())
}

fn made(rt: &HostRuntime) -> Result<Vec<u8>, Failure> {
    let text = read(rt.alloc(), &mut ReaderSource::new(rt.stdin()))?;
    Ok(play_all(rt.alloc(), text.as_slice())?)
}

fn main(rt: HostRuntime) -> ExitCode {
    print(&mut WriterSink::new(rt.stdout()), made(&rt))
}
