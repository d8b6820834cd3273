// What is printed.
use sd_base::{Blobs, Memory};
use std::alloc::Global;

/// The most bytes of which the digits are printed.
const MOST: usize = 512;

const DIGITS: [u8; 16] = *b"0123456789abcdef";

pub fn print(out: &mut Vec<u8>, bytes: &[u8]) -> Result<(), Memory> {
    out.extend_from_slice(bytes)?;
    Ok(())
}

pub fn print_line(out: &mut Vec<u8>, line: &[u8]) -> Result<(), Memory> {
    print(out, line)?;
    print(out, b"\n")
}

/// A line of a word and a number.
pub fn print_number(
    alloc: Global,
    out: &mut Vec<u8>,
    word: &str,
    number: u64,
) -> Result<(), Memory> {
    print(out, format!(in alloc; "{word} {number}\n")?.as_bytes())
}

fn print_digits(out: &mut Vec<u8>, bytes: &[u8]) -> Result<(), Memory> {
    for byte in bytes {
        out.push(DIGITS[(byte / 16) as usize])?;
        out.push(DIGITS[(byte % 16) as usize])?;
    }
    Ok(())
}

/// A line of a word, a count of bytes, and the digits of the first of them.
pub fn print_bytes(
    alloc: Global,
    out: &mut Vec<u8>,
    word: &str,
    bytes: &[u8],
) -> Result<(), Memory> {
    let count = bytes.len();
    print(out, format!(in alloc; "{word} {count} ")?.as_bytes())?;
    print_digits(out, &bytes[..count.min(MOST)])?;
    print(out, b"\n")
}

/// A line of a word and the digits of each blob.
pub fn print_blobs(out: &mut Vec<u8>, word: &[u8], blobs: &Blobs) -> Result<(), Memory> {
    print(out, word)?;
    for blob in blobs.items() {
        print(out, b" ")?;
        print_digits(out, blob.bytes())?;
    }
    print(out, b"\n")
}
