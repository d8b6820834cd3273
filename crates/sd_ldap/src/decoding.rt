//! Messages from the bytes of a stream.
ghost use Rattle.std.specs.Prelude.{◌≡◌, ◌≢◌, ℕ, List, ◌++◌};
ghost use Rattle.sd_ber.specs.Reading.{start_of, element_at, header_at};
ghost use Rattle.sd_ldap.specs.MessageReading.{decode_of, framed, outer_of, content_of, message_in};
ghost use Rattle.sd_ldap.specs.Decoding.{IsDecoded};
ghost use Rattle.sd_ldap.specs.Laws.{Stays};

use crate::fault::ReadFault;
use crate::message::Message;
use crate::message_reading::message;
use sd_ber::{BerFault, Reader, read_header};
use std::alloc::Global;

/// The greatest length of a message's contents: 16 MiB.
pub const MAX_LENGTH: usize = 16_777_216;

/// What bytes begin with.
#[derive(Drop)]
pub enum Decoded {
    /// A message, and how many bytes it takes.
    Whole(Message, u64),
    /// Less than a whole message.
    More,
    /// No message: the place of the first wrong element.
    Bad(u64),
    Memory,
}

/// The message that bytes begin with (RFC 4511 sections 4.1.1 and 5.1).
pub fn decode(alloc: Global, bytes: &[u8]) -> Decoded
    ensures exact { IsDecoded result (decode_of bytes.now) }
    // However a stream is cut, only what is unfinished waits for more.
    ensures stays { Stays bytes.now }
{
    start(alloc, bytes)
}

#[tactic(auto, unfolding(crate::specs::MessageReading::decode_of))]
fn start(alloc: Global, bytes: &[u8]) -> Decoded
    ensures { IsDecoded result (decode_of bytes.now) }
{
    let [first, ..] = bytes else {
        return Decoded::More;
    };
    if *first != 0x30 {
        return Decoded::Bad(0);
    }
    behind_tag(alloc, bytes)
}

fn behind_tag(alloc: Global, bytes: &[u8]) -> Decoded
    ensures { IsDecoded result (framed bytes.now (header_at 0 bytes.now)) }
{
    match read_header(0, bytes) {
        Ok(header) => {
            if header.length > MAX_LENGTH {
                return Decoded::Bad(1);
            }
            outer(alloc, bytes)
        }
        Err(BerFault::Short) => Decoded::More,
        Err(_) => Decoded::Bad(1),
    }
}

/// The outer element, where all of it is there.
fn outer(alloc: Global, bytes: &[u8]) -> Decoded
    ensures { IsDecoded result (outer_of (element_at (start_of bytes.now))) }
{
    let mut reader = Reader::new(bytes);
    match reader.open() {
        Some((_, contents)) => content(alloc, contents, reader.place()),
        None => Decoded::More,
    }
}

fn content(alloc: Global, contents: Reader<'_>, used: u64) -> Decoded
    ensures { IsDecoded result (content_of used (message_in contents.entry)) }
{
    match message(alloc, contents) {
        Ok(message) => Decoded::Whole(message, used),
        Err(ReadFault::Bad(at)) => Decoded::Bad(at),
        Err(ReadFault::Memory) => Decoded::Memory,
    }
}
