// Reading a triple from its text.
ghost use Rattle.std.specs.Prelude.{◌≡◌, ℕ, ◌++◌, ◌∷◌, [], if◌then◌else◌, true, false, length, IfOk, OnOk, Some, None, Err};
ghost use Rattle.std.specs.Option.{option_map};
ghost use Rattle.sd_triples.specs.Reading as reading;
ghost use Rattle.sd_triples.specs.Grammar.{Spells, IsFirstBad, Reads, is_reserved};
ghost use Rattle.sd_triples.specs.declared.triples.Triple.{Triple};

use crate::triples::{Triple, triple_of};
use sd_base::Memory;
use std::alloc::Global;

/// Why a text was not read.
#[derive(Clone, Copy, PartialEq, Eq)]
pub enum TripleFault {
    /// The place of the first byte with which no triple goes on, or the length where the text ends too soon.
    BadTriple(u64),
    Memory,
}

impl From<Memory> for TripleFault {
    ghost use Rattle.std.specs.Prelude.{◌≡◌};
    ghost use Rattle.sd_triples.specs.declared.reading.TripleFault.TheVariants as faults;

    ghost from_gives = { λ _ fault. fault ≡ faults.Memory };

    fn from(_error: Memory) -> TripleFault {
        TripleFault::Memory
    }
}

/// Where reading stands.
#[derive(Clone, Copy, PartialEq, Eq)]
pub enum Stage {
    /// In front of the text.
    Start,
    Host,
    User,
    Domain,
    /// Behind the closing parenthesis.
    End,
}

/// The fields so far, with their spaces, and where reading stands.
#[derive(Drop)]
pub struct Reader {
    host: Vec<u8>,
    user: Vec<u8>,
    domain: Vec<u8>,
    stage: Stage,
}

/// Whether no field may have the byte.
fn is_reserved(byte: u8) -> bool
    ensures { result ≡ is_reserved byte }
{
    byte == b'(' || byte == b')' || byte == b','
}

/// Puts a byte into a field, unless it may have none there.
fn push_plain(field: &mut Vec<u8>, byte: u8) -> Result<bool, Memory>
    ensures plain { IfOk result (λ goes. goes ≡ (if is_reserved byte then false else true)) }
    ensures field { IfOk result (λ goes. field.new.items ≡ (if is_reserved byte then field.old.items else field.old.items ++ byte ∷ [])) }
{
    if is_reserved(byte) {
        return Ok(false);
    }
    field.push(byte)?;
    Ok(true)
}

impl Reader {
    ghost use Rattle.sd_triples.specs.Reading.{progress, start, step};

    fn new(alloc: Global) -> Reader
        ensures { progress result ≡ start }
    {
        Reader {
            host: Vec::new(alloc),
            user: Vec::new(alloc),
            domain: Vec::new(alloc),
            stage: Stage::Start,
        }
    }

    fn to_stage(&mut self, stage: Stage) -> bool
        ensures answer { result ≡ true }
        ensures reader { self.new ≡ record self.old { stage = stage } }
    {
        self.stage = stage;
        true
    }

    fn in_host(&mut self, byte: u8) -> Result<bool, Memory>
        requires { self.old.stage ≡ Stage.Host }
        ensures { IfOk result (λ goes. step (progress self.old) byte ≡ (if goes then Some (progress self.new) else None)) }
    {
        if byte == b',' {
            return Ok(self.to_stage(Stage::User));
        }
        push_plain(&mut self.host, byte)
    }

    fn in_user(&mut self, byte: u8) -> Result<bool, Memory>
        requires { self.old.stage ≡ Stage.User }
        ensures { IfOk result (λ goes. step (progress self.old) byte ≡ (if goes then Some (progress self.new) else None)) }
    {
        if byte == b',' {
            return Ok(self.to_stage(Stage::Domain));
        }
        push_plain(&mut self.user, byte)
    }

    fn in_domain(&mut self, byte: u8) -> Result<bool, Memory>
        requires { self.old.stage ≡ Stage.Domain }
        ensures { IfOk result (λ goes. step (progress self.old) byte ≡ (if goes then Some (progress self.new) else None)) }
    {
        if byte == b')' {
            return Ok(self.to_stage(Stage::End));
        }
        push_plain(&mut self.domain, byte)
    }

    /// Takes the next byte; false where it has no place.
    fn take(&mut self, byte: u8) -> Result<bool, Memory>
        ensures { IfOk result (λ goes. step (progress self.old) byte ≡ (if goes then Some (progress self.new) else None)) }
    {
        match self.stage {
            Stage::Start => {
                if byte == b'(' {
                    return Ok(self.to_stage(Stage::Host));
                }
                Ok(false)
            }
            Stage::Host => self.in_host(byte),
            Stage::User => self.in_user(byte),
            Stage::Domain => self.in_domain(byte),
            Stage::End => Ok(false),
        }
    }

    /// The triple, where the text may end here.
    fn finish(&self, alloc: Global) -> Result<Option<Triple>, Memory>
        ensures { IfOk result (λ triple. triple ≡ reading.ended (progress self.now)) }
    {
        match self.stage {
            Stage::End => Ok(Some(triple_of(
                alloc,
                self.host.as_slice(),
                self.user.as_slice(),
                self.domain.as_slice(),
            )?)),
            _ => Ok(None),
        }
    }
}

/// Reads a text from its first byte to its end.
fn read_text(alloc: Global, text: &[u8]) -> Result<Triple, TripleFault>
    ensures made { IfOk result (λ triple. reading.triple_in text.now ≡ Some triple) }
    ensures bad { (place : ℕ) → result ≡ Err (TripleFault.BadTriple place) → reading.IsBadAt text.now place }
{
    let mut reader = Reader::new(alloc);
    for (place, byte) in text.iter().enumerate() {
        let goes = reader.take(*byte)?;
        if !goes {
            return Err(TripleFault::BadTriple(place as u64));
        }
    }
    let ended = reader.finish(alloc)?;
    match ended {
        Some(triple) => Ok(triple),
        None => Err(TripleFault::BadTriple(text.len() as u64)),
    }
}

/// Reads a triple from its text: `(HOST,USER,DOMAIN)`, with spaces round the fields that do not count.
pub fn read_triple(alloc: Global, text: &[u8]) -> Result<Triple, TripleFault>
    // What is read is spelled so, and it is what the left to right reading gives.
    ensures read { IfOk result (λ triple. Spells text.now triple) }
    ensures found { IfOk result (λ triple. reading.triple_in text.now ≡ Some triple) }
    // What is spelled so is read.
    ensures all { (triple : Triple) → Spells text.now triple → Reads result triple }
    // What no triple spells is refused at the first byte with which no triple goes on.
    ensures bad { (place : ℕ) → result ≡ Err (TripleFault.BadTriple place) → IsFirstBad text.now place }
    ensures none { (place : ℕ) → result ≡ Err (TripleFault.BadTriple place) → reading.triple_in text.now ≡ None }
{
    read_text(alloc, text)
}
