//! The name of a DN.
ghost use Rattle.std.specs.Prelude.{◌≡◌, List, map, IfOk};
ghost use Rattle.sd_dn.specs.declared.Pair.{Pair};
ghost use Rattle.sd_names.specs.Naming.{lower, lower_pair, lower_dn, parts};

use sd_base::{Memory, Text};
use sd_dn::{Dn, Pair};
use std::alloc::Global;

/// A type and its value, in lower case.
#[derive(Drop, PartialEq, Eq, Hash)]
pub struct Part {
    pub name: Text,
    pub value: Text,
}

/// A relative distinguished name, in lower case.
#[derive(PartialEq, Eq, Hash)]
pub struct Level {
    pub parts: Vec<Part>,
}

impl Drop for Level {
    fn drop(self) {
        let Level { parts: _ } = self;
    }
}

/// The name of an entry, its DN in lower case: two entries have equal names where their texts spell equal DNs.
#[derive(PartialEq, Eq, Hash)]
pub struct Name {
    pub levels: Vec<Level>,
}

impl Drop for Name {
    fn drop(self) {
        let Name { levels: _ } = self;
    }
}

fn lower(alloc: Global, text: &Text) -> Result<Text, Memory>
    ensures { IfOk result (λ made. made ≡ lower text.now) }
{
    let mut bytes = Vec::new(alloc);
    for byte in text.bytes() {
        bytes.push(byte.to_ascii_lowercase())?;
    }
    Ok(Text::from_bytes(alloc, &bytes)?)
}

fn part_of(alloc: Global, pair: &Pair) -> Result<Part, Memory>
    ensures { IfOk result (λ part. part ≡ lower_pair pair.now) }
{
    Ok(Part {
        name: lower(alloc, &pair.name)?,
        value: lower(alloc, &pair.value)?,
    })
}

fn level_of(alloc: Global, rdn: &[Pair]) -> Result<Level, Memory>
    ensures { IfOk result (λ level. level.parts.items ≡ map lower_pair rdn.now) }
{
    let mut parts = Vec::new(alloc);
    for pair in rdn {
        parts.push(part_of(alloc, pair)?)?;
    }
    Ok(Level { parts })
}

/// The name of a DN.
pub fn name_of(alloc: Global, dn: &Dn) -> Result<Name, Memory>
    ensures { IfOk result (λ name. parts name ≡ lower_dn dn.now) }
{
    let mut levels = Vec::new(alloc);
    for rdn in dn.items() {
        levels.push(level_of(alloc, rdn.items())?)?;
    }
    Ok(Name { levels })
}
