// What is printed of a session.
use crate::trouble::{Call, Trouble};
use crate::visits::Visit;
use sd_base::Memory;
use sd_engine::SessionEnd;
use sd_wire::number_of_four;
use std::alloc::Global;

fn word_of(call: Call) -> &'static str {
    match call {
        Call::Take => "take",
        Call::Put => "put",
        Call::Dial => "dial",
        Call::Send => "send",
        Call::Receive => "receive",
    }
}

/// The name of a run.
fn name_of(alloc: Global, trouble: Trouble) -> Result<String, Memory> {
    Ok(match trouble {
        Trouble::Nothing => String::from_str(alloc, "nothing fails")?,
        Trouble::Once(call, number) => {
            let word = word_of(call);
            format!(in alloc; "{word} {number}")?
        }
        Trouble::From(call, number) => {
            let word = word_of(call);
            format!(in alloc; "{word} {number} and on")?
        }
        Trouble::Cut(length) => format!(in alloc; "cut behind {length}")?,
        Trouble::Byte(place, byte) => format!(in alloc; "byte {place} is {byte}")?,
        Trouble::Others => String::from_str(alloc, "messages of another id without end")?,
    })
}

fn end_of(alloc: Global, end: SessionEnd) -> Result<String, Memory> {
    Ok(format!(in alloc; "{end:?}")?)
}

/// The reply in front, and what comes behind it; none where it is not whole.
fn cut_whole(bytes: &[u8]) -> Option<(&[u8], &[u8])> {
    let (length, rest) = bytes.split_at_checked(4)?;
    rest.split_at_checked(number_of_four(length) as usize)
}

fn push_line(out: &mut Vec<u8>, word: &[u8], text: &[u8]) -> Result<(), Memory> {
    out.extend_from_slice(word)?;
    out.extend_from_slice(text)?;
    out.push(b'\n')?;
    Ok(())
}

fn digit(half: u8) -> u8 {
    match half {
        0..=9 => b'0' + half,
        _ => b'a'.saturating_add(half.saturating_sub(10)),
    }
}

/// The bytes of what is no whole reply, in hexadecimal digits.
fn push_part(out: &mut Vec<u8>, part: &[u8]) -> Result<(), Memory> {
    out.extend_from_slice(b"part ")?;
    for byte in part {
        out.push(digit(byte >> 4))?;
        out.push(digit(byte & 15))?;
    }
    out.push(b'\n')?;
    Ok(())
}

fn push_told(out: &mut Vec<u8>, written: &[u8]) -> Result<(), Memory> {
    let mut left = written;
    for _ in 0..written.len() {
        let Some((reply, rest)) = cut_whole(left) else {
            break;
        };
        push_line(out, b"told ", reply)?;
        left = rest;
    }
    if !left.is_empty() {
        push_part(out, left)?;
    }
    Ok(())
}

/// Appends what a session came to.
pub fn tell(
    alloc: Global,
    out: &mut Vec<u8>,
    trouble: Trouble,
    visit: &Visit,
) -> Result<(), Memory> {
    push_line(out, b"- ", name_of(alloc, trouble)?.as_bytes())?;
    push_told(out, visit.written.as_slice())?;
    push_line(out, b"end ", end_of(alloc, visit.end)?.as_bytes())?;
    push_line(out, b"asked ", visit.asked.as_slice())?;
    let faults = visit.faults;
    push_line(out, b"faults ", format!(in alloc; "{faults}")?.as_bytes())?;
    out.extend_from_slice(visit.journal.as_slice())?;
    Ok(())
}
