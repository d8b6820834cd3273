// Messages of LDAP.
use crate::output::{print_line, print_number};
use sd_base::Memory;
use sd_ldap::{Decoded, EncodeFault, Message, decode, encode, write_message};
use std::alloc::Global;

/// Whether a message stands in front.
pub fn print_message(alloc: Global, out: &mut Vec<u8>, bytes: &[u8]) -> Result<(), Memory> {
    match decode(alloc, bytes) {
        Decoded::Whole(_, used) => print_number(alloc, out, "whole", used),
        Decoded::More => print_line(out, b"more"),
        Decoded::Bad(place) => print_number(alloc, out, "bad", place),
        Decoded::Memory => Err(Memory),
    }
}

/// Whether a message is written as these bytes, by both calls that write one.
fn is_written(alloc: Global, message: &Message, own: &[u8]) -> Result<bool, Memory> {
    let bytes = write_message(alloc, message)?;
    match encode(alloc, message) {
        Ok(again) => Ok(bytes.as_slice() == own && again.as_slice() == own),
        Err(EncodeFault::TooLong) => Ok(false),
        Err(EncodeFault::Memory) => Err(Memory),
    }
}

/// Prints what becomes of the message in front, and gives what comes behind it.
fn print_first<'a>(alloc: Global, out: &mut Vec<u8>, bytes: &'a [u8]) -> Result<&'a [u8], Memory> {
    let Decoded::Whole(message, used) = decode(alloc, bytes) else {
        print_line(out, b"no message")?;
        return Ok(b"");
    };
    let (own, rest) = bytes.split_at(bytes.len().min(used as usize));
    if is_written(alloc, &message, own)? {
        print_line(out, b"as read")?;
    } else {
        print_line(out, b"otherwise")?;
    }
    Ok(rest)
}

/// Whether each of some messages is written as it was read.
pub fn print_same(alloc: Global, out: &mut Vec<u8>, bytes: &[u8]) -> Result<(), Memory> {
    let mut left = bytes;
    for _ in 0..bytes.len() {
        if left.is_empty() {
            break;
        }
        left = print_first(alloc, out, left)?;
    }
    Ok(())
}
