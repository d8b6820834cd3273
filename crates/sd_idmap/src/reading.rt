// Reading a SID from its text.
ghost use Rattle.std.specs.Prelude.{◌≡◌, ℕ, ◌+◌, ◌<◌, ◌≤◌, ◌^◌, ◌⊎◌, length, List, IfOk, Some, None, Err};
ghost use Rattle.std.specs.Option.{option_map};
ghost use Rattle.sd_idmap.specs.Reading as reading;
ghost use Rattle.sd_idmap.specs.Grammar.{Spells, IsFirstBad, Reads};
ghost use Rattle.sd_idmap.specs.declared.sids.Sid.{Sid};

use crate::sids::{Domain, Sid};
use sd_base::Memory;
use std::alloc::Global;

/// Why a text was not read.
#[derive(Clone, Copy, PartialEq, Eq)]
pub enum SidFault {
    /// The place of the first byte with which no SID goes on, or the length where the text ends too soon.
    BadSid(u64),
    Memory,
}

impl From<Memory> for SidFault {
    ghost use Rattle.std.specs.Prelude.{◌≡◌};
    ghost use Rattle.sd_idmap.specs.declared.reading.SidFault.TheVariants as faults;

    ghost from_gives = { λ _ fault. fault ≡ faults.Memory };

    fn from(_error: Memory) -> SidFault {
        SidFault::Memory
    }
}

/// Where reading stands.
#[derive(Clone, Copy, PartialEq, Eq)]
pub enum Stage {
    /// So many bytes of `S-1-` were read.
    Lead(u8),
    /// A number has to begin.
    Begin,
    /// Behind digits of this value.
    Number(u64),
}

/// What the next byte does.
#[derive(Clone, Copy, PartialEq, Eq)]
pub enum Next {
    /// Reading stands there now.
    Goes(Stage),
    /// This number is whole, and another one has to begin.
    Ends(u64),
}

pub fn is_digit(byte: u8) -> bool
    ensures { result ≡ reading.is_digit byte }
{
    b'0' <= byte && byte <= b'9'
}

/// The greatest number behind so many others: an authority has 48 bits, a part 32.
fn greatest(count: usize) -> u64
    ensures { result ≡ reading.greatest count }
{
    if count == 0 {
        (1 << 48) - 1
    } else {
        (1 << 32) - 1
    }
}

fn in_lead(read: u8, byte: u8) -> Option<Next>
    ensures { result ≡ reading.in_lead read byte }
{
    if read == 0 && byte == b'S' {
        return Some(Next::Goes(Stage::Lead(1)));
    }
    if read == 1 && byte == b'-' {
        return Some(Next::Goes(Stage::Lead(2)));
    }
    if read == 2 && byte == b'1' {
        return Some(Next::Goes(Stage::Lead(3)));
    }
    if read == 3 && byte == b'-' {
        return Some(Next::Goes(Stage::Begin));
    }
    None
}

fn first_digit(byte: u8) -> Option<Next>
    ensures { result ≡ reading.first_digit byte }
{
    if is_digit(byte) {
        Some(Next::Goes(Stage::Number(u64::from(byte - b'0'))))
    } else {
        None
    }
}

fn one_more_digit(count: usize, number: u64, digit: u8) -> Option<Next>
    ensures { result ≡ reading.one_more_digit count number digit }
{
    let more = number.saturating_mul(10).saturating_add(u64::from(digit));
    if 0 < number && more <= greatest(count) {
        Some(Next::Goes(Stage::Number(more)))
    } else {
        None
    }
}

fn in_number(count: usize, number: u64, byte: u8) -> Option<Next>
    ensures { result ≡ reading.in_number count number byte }
{
    if is_digit(byte) {
        return one_more_digit(count, number, byte - b'0');
    }
    if byte == b'-' && count < 15 {
        Some(Next::Ends(number))
    } else {
        None
    }
}

/// What a byte does behind so many whole numbers.
fn next_at(count: usize, stage: Stage, byte: u8) -> Option<Next>
    ensures { result ≡ reading.next_at count stage byte }
{
    match stage {
        Stage::Lead(read) => in_lead(read, byte),
        Stage::Begin => first_digit(byte),
        Stage::Number(number) => in_number(count, number, byte),
    }
}

/// One byte further: where reading stands then, unless no SID goes on so.
fn step(whole: &mut Domain, stage: Stage, byte: u8) -> Result<Option<Stage>, Memory>
    ensures { IfOk result (λ reached. reading.step (reading.at whole.old stage) byte ≡ option_map (λ s. reading.at whole.new s) reached) }
{
    match next_at(whole.numbers().len(), stage, byte) {
        Some(Next::Goes(stage)) => Ok(Some(stage)),
        Some(Next::Ends(number)) => {
            whole.push(number)?;
            Ok(Some(Stage::Begin))
        }
        None => Ok(None),
    }
}

/// The SID where the text may end: behind a number that is a part.
fn ended(whole: Domain, stage: Stage) -> Option<Sid>
    ensures { result ≡ reading.ended whole stage }
{
    let Stage::Number(number) = stage else {
        return None;
    };
    if whole.numbers().is_empty() || number > u64::from(u32::MAX) {
        return None;
    }
    Some(Sid {
        domain: whole,
        rid: number as u32,
    })
}

#[tactic(auto, using(crate::proofs::RunLaws::run_push))]
/// Reads a text from its first byte to its end.
fn read_text(alloc: Global, text: &[u8]) -> Result<Sid, SidFault>
    ensures made { IfOk result (λ sid. reading.sid_in text.now ≡ Some sid) }
    ensures bad { (place : ℕ) → result ≡ Err (SidFault.BadSid place) → reading.IsBadAt text.now place }
{
    let mut whole = Domain::new(alloc);
    let mut stage = Stage::Lead(0);
    for (place, byte) in text.iter().enumerate() {
        match step(&mut whole, stage, *byte)? {
            Some(reached) => stage = reached,
            None => return Err(SidFault::BadSid(place as u64)),
        }
    }
    match ended(whole, stage) {
        Some(sid) => Ok(sid),
        None => Err(SidFault::BadSid(text.len() as u64)),
    }
}

/// Reads a SID from its text, which is `S-1-`, an authority and 1 to 15 parts, parted by hyphens.
pub fn read_sid(alloc: Global, text: &[u8]) -> Result<Sid, SidFault>
    // What is read is spelled so, and it is what the left to right reading gives.
    ensures read { IfOk result (λ sid. Spells text.now sid) }
    ensures found { IfOk result (λ sid. reading.sid_in text.now ≡ Some sid) }
    // What is spelled so is read.
    ensures all { (sid : Sid) → Spells text.now sid → Reads result sid }
    // What no SID spells is refused at the first byte with which no SID goes on.
    ensures bad { (place : ℕ) → result ≡ Err (SidFault.BadSid place) → IsFirstBad text.now place }
    ensures none { (place : ℕ) → result ≡ Err (SidFault.BadSid place) → reading.sid_in text.now ≡ None }
{
    read_text(alloc, text)
}
