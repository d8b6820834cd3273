// Reading a DN from its text.
ghost use Rattle.std.specs.Prelude.{◌↔◌, IsTrue, ◌≡◌, ℕ, Bool, List, [], length, IfOk, OnOk, Err, ◌≢◌};
ghost use Rattle.sd_dn.specs.Grammar.{Spells, Reads, IsFirstBad};
ghost use Rattle.sd_dn.specs.Reading as reading;
ghost use Rattle.sd_dn.specs.declared.Pair.{Pair};
ghost use Rattle.sd_dn.specs.declared.read.Stage.TheVariants as stages;

use crate::bytes::{hex_pair, is_reserved, is_special, is_type_byte};
use crate::{Dn, DnFault, Pair, Rdn};
use sd_base::{Memory, Text};
use std::alloc::Global;
use std::mem;

/// What the byte before left open.
#[derive(Clone, Copy, PartialEq, Eq)]
enum Stage {
    Start,
    BeforeType,
    Type,
    BeforeEquals,
    Value,
    Escape,
    Hex(u8),
}

/// What was read so far: whole RDNs, whole pairs of the RDN at hand, and the parts of the pair at hand.
#[derive(Drop)]
struct Reader {
    alloc: Global,
    dn: Dn,
    rdn: Rdn,
    name: Vec<u8>,
    value: Vec<u8>,
    // the length of the value without the spaces at its end that no backslash stands before
    solid: usize,
    stage: Stage,
}

impl Reader {
    fn new(alloc: Global) -> Reader
        ensures { reading.progress result ≡ reading.Start [] [] }
    {
        Reader {
            alloc,
            dn: Dn::new(alloc),
            rdn: Rdn::new(alloc),
            name: Vec::new(alloc),
            value: Vec::new(alloc),
            solid: 0,
            stage: Stage::Start,
        }
    }

    /// Takes the next byte; false where it has no place.
    fn take(&mut self, byte: u8) -> Result<bool, Memory>
        ensures { reading.Steps result self.new (reading.step (reading.progress self.old) byte) }
    {
        match self.stage {
            Stage::Start => self.begin_type(byte),
            Stage::BeforeType => self.before_type(byte),
            Stage::Type => self.in_type(byte),
            Stage::BeforeEquals => Ok(self.end_type(byte)),
            Stage::Value => self.in_value(byte),
            Stage::Escape => self.in_escape(byte),
            Stage::Hex(high) => self.in_hex(high, byte),
        }
    }

    fn begin_type(&mut self, byte: u8) -> Result<bool, Memory>
        ensures { reading.Steps result self.new (reading.type_begun self.old.dn self.old.rdn byte) }
    {
        if !is_type_byte(byte) {
            return Ok(false);
        }
        self.name.clear();
        self.name.push(byte)?;
        self.stage = Stage::Type;
        Ok(true)
    }

    fn before_type(&mut self, byte: u8) -> Result<bool, Memory>
        requires { self.old.stage ≡ stages.BeforeType }
        ensures { reading.Steps result self.new (reading.step (reading.progress self.old) byte) }
    {
        if byte == b' ' {
            return Ok(true);
        }
        self.begin_type(byte)
    }

    fn in_type(&mut self, byte: u8) -> Result<bool, Memory>
        requires { self.old.stage ≡ stages.Type }
        ensures { reading.Steps result self.new (reading.step (reading.progress self.old) byte) }
    {
        if is_type_byte(byte) {
            self.name.push(byte)?;
            return Ok(true);
        }
        Ok(self.end_type(byte))
    }

    fn end_type(&mut self, byte: u8) -> bool
        ensures { reading.type_ended self.old.dn self.old.rdn self.old.name.items byte ≡ reading.went result self.new }
    {
        match byte {
            b'=' => {
                self.value.clear();
                self.solid = 0;
                self.stage = Stage::Value;
                true
            }
            b' ' => {
                self.stage = Stage::BeforeEquals;
                true
            }
            _ => false,
        }
    }

    fn in_value(&mut self, byte: u8) -> Result<bool, Memory>
        requires { self.old.stage ≡ stages.Value }
        ensures { reading.Steps result self.new (reading.step (reading.progress self.old) byte) }
    {
        match byte {
            b',' => {
                self.end_rdn()?;
                Ok(true)
            }
            b'+' => {
                self.end_pair()?;
                Ok(true)
            }
            b'\\' => {
                self.stage = Stage::Escape;
                Ok(true)
            }
            b' ' => self.push_space(),
            _ => self.push_plain(byte),
        }
    }

    /// The pair at hand is whole, and another one of its RDN follows.
    fn end_pair(&mut self) -> Result<(), Memory>
        ensures { OnOk result (reading.progress self.new ≡ reading.pair_ended self.old.dn self.old.rdn self.old.name.items self.old.value.items self.old.solid) }
    {
        self.value.truncate(self.solid);
        let pair = self.pair()?;
        self.rdn.push(pair)?;
        self.stage = Stage::BeforeType;
        Ok(())
    }

    /// The RDN at hand is whole, and another one follows.
    fn end_rdn(&mut self) -> Result<(), Memory>
        ensures { OnOk result (reading.progress self.new ≡ reading.rdn_ended self.old.dn self.old.rdn self.old.name.items self.old.value.items self.old.solid) }
    {
        self.end_pair()?;
        let rdn = mem::replace(&mut self.rdn, Rdn::new(self.alloc));
        self.dn.push(rdn)?;
        Ok(())
    }

    /// The pair at hand.
    fn pair(&self) -> Result<Pair, Memory>
        ensures { IfOk result (λ pair. pair ≡ reading.pair_made self.now.name.items self.now.value.items) }
    {
        Ok(Pair {
            name: Text::from_bytes(self.alloc, &self.name)?,
            value: Text::from_bytes(self.alloc, &self.value)?,
        })
    }

    /// Takes a space, which belongs to the value unless it stands before or behind it.
    fn push_space(&mut self) -> Result<bool, Memory>
        requires { self.old.stage ≡ stages.Value }
        ensures { reading.Steps result self.new (reading.value_taken self.old.dn self.old.rdn self.old.name.items self.old.value.items self.old.solid 32) }
    {
        if !self.value.is_empty() {
            self.value.push(b' ')?;
        }
        Ok(true)
    }

    /// Takes a byte that stands for itself.
    fn push_plain(&mut self, byte: u8) -> Result<bool, Memory>
        requires { byte ≢ 32 }
        ensures { reading.Steps result self.new (reading.value_taken self.old.dn self.old.rdn self.old.name.items self.old.value.items self.old.solid byte) }
    {
        if is_reserved(byte) || self.value.is_empty() && byte == b'#' {
            return Ok(false);
        }
        self.grow(byte)?;
        Ok(true)
    }

    fn in_escape(&mut self, byte: u8) -> Result<bool, Memory>
        requires { self.old.stage ≡ stages.Escape }
        ensures { reading.Steps result self.new (reading.step (reading.progress self.old) byte) }
    {
        if is_special(byte) {
            self.grow(byte)?;
            return Ok(true);
        }
        if byte.is_ascii_hexdigit() {
            self.stage = Stage::Hex(byte);
            return Ok(true);
        }
        Ok(false)
    }

    fn in_hex(&mut self, high: u8, byte: u8) -> Result<bool, Memory>
        requires { self.old.stage ≡ stages.Hex high }
        ensures { reading.Steps result self.new (reading.step (reading.progress self.old) byte) }
    {
        match hex_pair(high, byte) {
            Some(meant) => {
                self.grow(meant)?;
                Ok(true)
            }
            None => Ok(false),
        }
    }

    /// Puts a byte at the value's end that stays there.
    fn grow(&mut self, byte: u8) -> Result<(), Memory>
        ensures { OnOk result (reading.progress self.new ≡ reading.grown self.old.dn self.old.rdn self.old.name.items self.old.value.items byte) }
    {
        self.value.push(byte)?;
        self.solid = self.value.len();
        self.stage = Stage::Value;
        Ok(())
    }

    /// The DN, where the text may end here.
    fn finish(self, length: usize) -> Result<Dn, DnFault>
        ensures { reading.Gives length result (reading.run (reading.progress self) []) }
    {
        match self.stage {
            Stage::Start => Ok(self.dn),
            Stage::Value => self.last(),
            _ => Err(DnFault::BadDn(length as u64)),
        }
    }

    /// The DN that ends with the pair at hand.
    fn last(self) -> Result<Dn, DnFault>
        requires { self.stage ≡ stages.Value }
        ensures { reading.Gives 0 result (reading.run (reading.progress self) []) }
    {
        let pair = self.pair()?;
        let mut rdn = self.rdn;
        let mut dn = self.dn;
        rdn.push(pair)?;
        dn.push(rdn)?;
        Ok(dn)
    }
}

/// Reads a DN from its text (RFC 4514, in the profile of the grammar in `specs/`).
pub fn read_dn(alloc: Global, text: &[u8]) -> Result<Dn, DnFault>
    // What is read is spelled so.
    ensures read { IfOk result (λ dn. Spells text.now dn) }
    // What is spelled so is read.
    ensures all { (dn : List (List Pair)) → Spells text.now dn → Reads result dn }
    // What no DN spells is refused at the first byte with which no DN goes on.
    ensures bad { (place : ℕ) → result ≡ Err (DnFault.BadDn place) → IsFirstBad text.now place }
{
    read_text(alloc, text)
}

/// Whether a text is a DN's.
pub fn is_dn(alloc: Global, text: &[u8]) -> Result<bool, Memory>
    ensures test { IfOk result (λ is. is ≡ reading.is_dn text.now) }
    ensures exact { IfOk result (λ is. IsTrue is ↔ ((dn : List (List Pair)) × Spells text.now dn)) }
{
    tested(alloc, text)
}

fn tested(alloc: Global, text: &[u8]) -> Result<bool, Memory>
    ensures { IfOk result (λ is. is ≡ reading.is_dn text.now) }
{
    match read_text(alloc, text) {
        Ok(_) => Ok(true),
        Err(DnFault::BadDn(_)) => Ok(false),
        Err(DnFault::Memory) => Err(Memory),
    }
}

/// A text spells one DN at most.
pub fn one_dn()
    ensures { (text : List ℕ) (a b : List (List Pair)) → Spells text a → Spells text b → a ≡ b }
{}

/// Reads a text from its first byte to its end.
fn read_text(alloc: Global, text: &[u8]) -> Result<Dn, DnFault>
    ensures { reading.Gives (length text.now) result (reading.run (reading.Start [] []) text.now) }
{
    let mut reader = Reader::new(alloc);
    for (place, byte) in text.iter().enumerate() {
        if !reader.take(*byte)? {
            return Err(DnFault::BadDn(place as u64));
        }
    }
    reader.finish(text.len())
}
