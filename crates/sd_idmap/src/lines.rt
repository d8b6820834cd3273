// The lines of the input, each by itself.
ghost use Rattle.std.specs.Prelude.{◌≡◌, ℕ, ◌<◌, ◌≤◌, ◌^◌, ◌-◌, ◌+◌, ◌==◌, ◌∷◌, length, IfOk, IfSome, true};
ghost use Rattle.std.specs.List.{list_all};
ghost use Rattle.std.specs.Option.{option_copied};
ghost use Rattle.sd_idmap.specs.Lines as lines;
ghost use Rattle.sd_idmap.specs.Reading as reading;

use crate::reading::{SidFault, is_digit, read_sid};
use crate::sids::Sid;
use sd_base::Memory;
use sd_pieces::{cut, value_of};
use std::alloc::Global;

/// What a line asks for.
#[derive(Drop)]
pub enum Line {
    /// Nothing: the line is empty or a comment.
    Skipped,
    /// A slice for this domain.
    Domain(Sid),
    /// The number of this SID.
    Id(Sid),
    /// The SID of this number.
    Number(u32),
    /// The line has no form.
    Bad,
}

/// The first line of some bytes, and what comes behind it, where there is more.
pub fn cut_line(bytes: &[u8]) -> (&[u8], Option<&[u8]>)
    ensures pieces { lines.lines_of bytes.now ≡ result.0.now ∷ lines.lines_in (option_copied result.1) }
    ensures shorter { IfSome (option_copied result.1) (λ rest. length rest < length bytes.now) }
{
    cut(b'\n', bytes)
}

fn are_digits(word: &[u8]) -> bool
    ensures { result ≡ list_all reading.is_digit word.now }
{
    word.iter().all(|byte| is_digit(*byte))
}

/// Whether digits have no zero in front, but for a 0 alone.
fn is_canonical(word: &[u8]) -> bool
    ensures { result ≡ lines.is_canonical word.now }
{
    match word {
        [] => false,
        [digit] => is_digit(*digit),
        [first, ..] => *first != b'0' && are_digits(word),
    }
}

/// A number of 32 bits in decimal, without a sign or a leading zero.
fn number_of(word: &[u8]) -> Option<u32>
    ensures { result ≡ lines.number_of word.now }
{
    if !is_canonical(word) {
        return None;
    }
    let value = value_of(word);
    if value <= u128::from(u32::MAX) {
        Some(value as u32)
    } else {
        None
    }
}

/// The SID that a text spells, where it spells one.
fn sid_in(alloc: Global, text: &[u8]) -> Result<Option<Sid>, Memory>
    ensures { IfOk result (λ sid. sid ≡ reading.sid_in text.now) }
{
    match read_sid(alloc, text) {
        Ok(sid) => Ok(Some(sid)),
        Err(SidFault::BadSid(_)) => Ok(None),
        Err(SidFault::Memory) => Err(Memory),
    }
}

fn domain_form(sid: Option<Sid>) -> Line
    ensures read { result ≡ lines.domain_form sid }
    ensures fit { lines.is_fit result ≡ true }
{
    match sid {
        Some(sid) => {
            if sid.is_of_a_domain() {
                Line::Domain(sid)
            } else {
                Line::Bad
            }
        }
        None => Line::Bad,
    }
}

fn id_form(sid: Option<Sid>) -> Line
    ensures read { result ≡ lines.id_form sid }
    ensures fit { lines.is_fit result ≡ true }
{
    match sid {
        Some(sid) => Line::Id(sid),
        None => Line::Bad,
    }
}

fn number_form(number: Option<u32>) -> Line
    ensures read { result ≡ lines.number_form number }
    ensures fit { lines.is_fit result ≡ true }
{
    match number {
        Some(number) => Line::Number(number),
        None => Line::Bad,
    }
}

/// What a word, and what stands behind the space that ends it, ask for.
fn form(alloc: Global, word: &[u8], rest: &[u8]) -> Result<Line, Memory>
    ensures read { IfOk result (λ line. line ≡ lines.form word.now rest.now) }
    ensures fit { IfOk result (λ line. lines.is_fit line ≡ true) }
{
    if word == b"domain".as_slice() {
        return Ok(domain_form(sid_in(alloc, rest)?));
    }
    if word == b"id".as_slice() {
        return Ok(id_form(sid_in(alloc, rest)?));
    }
    if word == b"sid".as_slice() {
        return Ok(number_form(number_of(rest)));
    }
    Ok(Line::Bad)
}

/// Whether a line asks for nothing.
fn is_skipped(line: &[u8]) -> bool
    ensures { result ≡ lines.is_skipped line.now }
{
    match line {
        [] => true,
        [first, ..] => *first == b'#',
    }
}

/// What a line asks for.
pub fn line_of(alloc: Global, line: &[u8]) -> Result<Line, Memory>
    ensures read { IfOk result (λ read. read ≡ lines.line_of line.now) }
    ensures fit { IfOk result (λ read. lines.is_fit read ≡ true) }
{
    if is_skipped(line) {
        return Ok(Line::Skipped);
    }
    match cut(b' ', line) {
        (word, Some(rest)) => form(alloc, word, rest),
        (_word, None) => Ok(Line::Bad),
    }
}

/// Whether a line has no form.
fn is_bad(line: &Line) -> bool
    ensures { result ≡ lines.is_bad line.now }
{
    matches!(line, Line::Bad)
}

/// The number of the first line without a form, counted from 1.
pub fn first_bad(alloc: Global, text: &[u8]) -> Result<Option<u64>, Memory>
    requires { length text.now < 2 ^ 32 }
    ensures { IfOk result (λ number. number ≡ lines.first_bad text.now) }
{
    let mut number = 1u64;
    let mut left = Some(text);
    while let Some(bytes) = left {
        let (line, rest) = cut_line(bytes);
        if is_bad(&line_of(alloc, line)?) {
            return Ok(Some(number));
        }
        number += 1;
        left = rest;
    }
    Ok(None)
}
