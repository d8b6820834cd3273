//! What a client was told, by the beginning of its reply's text.
use crate::news::Told;
use sd_base::{Memory, Text};
use sd_pieces::{cut, number_up_to};
use std::alloc::Global;

/// A word, and what is behind the space after it.
fn word_in(text: &[u8]) -> (&[u8], &[u8]) {
    match cut(b' ', text) {
        (word, Some(rest)) => (word, rest),
        (word, None) => (word, b"".as_slice()),
    }
}

/// The number in front, and what is behind the space after it.
fn number_in(text: &[u8]) -> (u64, &[u8]) {
    let (word, rest) = word_in(text);
    (number_up_to(u64::MAX, word).unwrap_or(0), rest)
}

fn old(text: &[u8]) -> Told {
    let (entry, rest) = number_in(text);
    Told::Old(entry, number_in(rest).0)
}

fn old_none(text: &[u8]) -> Told {
    let (entry, rest) = number_in(text);
    Told::OldNone(entry, number_in(rest).0)
}

fn accepted(text: &[u8]) -> Told {
    let (place, rest) = word_in(text);
    let entry = number_in(rest).0;
    if place == b"online".as_slice() {
        Told::AcceptedOnline(entry)
    } else {
        Told::AcceptedOffline(entry)
    }
}

fn wrong(text: &[u8]) -> Told {
    let (place, rest) = word_in(text);
    let entry = number_in(rest).0;
    if place == b"online".as_slice() {
        Told::WrongOnline(entry)
    } else {
        Told::WrongOffline(entry)
    }
}

fn blocked(text: &[u8]) -> Told {
    if text == b"online".as_slice() {
        Told::BlockedOnline
    } else {
        Told::Blocked(number_in(text).0)
    }
}

fn granted(alloc: Global, text: &[u8]) -> Result<Told, Memory> {
    let (entry, rest) = number_in(text);
    let (by, name) = word_in(rest);
    if by == b"permit".as_slice() {
        return Ok(Told::GrantedPermit(entry));
    }
    if by == b"simple".as_slice() {
        return Ok(Told::GrantedSimple(entry));
    }
    Ok(Told::GrantedRule(entry, Text::from_bytes(alloc, name)?))
}

fn denied(text: &[u8]) -> Told {
    if text == b"empty".as_slice() {
        return Told::DeniedEmpty;
    }
    let (entry, by) = number_in(text);
    if by == b"deny".as_slice() {
        return Told::DeniedDeny(entry);
    }
    if by == b"simple".as_slice() {
        return Told::DeniedSimple(entry);
    }
    Told::DeniedNoRule(entry)
}

/// What a login was told.
fn login_told(word: &[u8], rest: &[u8]) -> Told {
    if word == b"accepted".as_slice() {
        return accepted(rest);
    }
    if word == b"wrong".as_slice() {
        return wrong(rest);
    }
    if word == b"expired".as_slice() {
        return Told::Expired(number_in(rest).0);
    }
    if word == b"blocked".as_slice() {
        return blocked(rest);
    }
    if word == b"nohash".as_slice() {
        return Told::NoHash;
    }
    Told::Other
}

/// What came to nothing.
fn failure_told(word: &[u8], rest: &[u8]) -> Told {
    if word == b"dark".as_slice() {
        return Told::Dark(number_in(rest).0);
    }
    if word == b"filtered".as_slice() {
        return Told::Filtered;
    }
    if word == b"refused".as_slice() {
        return Told::Refused(number_in(rest).0);
    }
    if word == b"many".as_slice() {
        return Told::Many(number_in(rest).0);
    }
    if word == b"dropped".as_slice() {
        return Told::Dropped(number_in(rest).0);
    }
    login_told(word, rest)
}

/// What a client was told, by the beginning of the reply's text, up to where a record begins.
pub fn told_of(alloc: Global, text: &[u8]) -> Result<Told, Memory> {
    let (word, rest) = word_in(text);
    if word == b"found".as_slice() {
        return Ok(Told::Found(number_in(rest).0));
    }
    if word == b"none".as_slice() {
        return Ok(Told::Absent(number_in(rest).0));
    }
    if word == b"old".as_slice() {
        return Ok(old(rest));
    }
    if word == b"oldnone".as_slice() {
        return Ok(old_none(rest));
    }
    if word == b"granted".as_slice() {
        return granted(alloc, rest);
    }
    if word == b"denied".as_slice() {
        return Ok(denied(rest));
    }
    if word == b"done".as_slice() {
        return Ok(Told::Done(number_in(rest).0));
    }
    Ok(failure_told(word, rest))
}
