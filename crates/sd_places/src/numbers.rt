//! Numbers by which an entry is found.
ghost use Rattle.std.specs.Prelude.{◌≡◌, ◌<◌, ◌^◌, ◌*◌, ◌++◌, Bool, false, if◌then◌else◌, List, map, IfOk, OnOk};
ghost use Rattle.sd_dn.specs.Texts.{spelled};
ghost use Rattle.sd_match.specs.Matching.{holds_dns, holds_numbers};
ghost use Rattle.sd_names.specs.Naming.{lower, lower_pair, lower_dn};
ghost use Rattle.sd_places.specs.Numbers as numbers;

use sd_base::{Memory, Text};
use sd_dn::compare::same_text;
use sd_dn::{Dn, Pair, spelled};
use sd_ldap::{Attribute, DirEntry};
use std::alloc::Global;

/// All numbers are below it. It is a prime, so that numbers lie apart.
const PRIME: u64 = 4_294_967_291;

fn raised(decimal: bool, number: u32) -> u64
    ensures value { result ≡ (if decimal then number * 10 else number * 257) }
    ensures bound { result < 2 ^ 48 }
{
    if decimal {
        return number as u64 * 10;
    }
    number as u64 * 257
}

#[tactic(auto, unfolding(crate::specs::Numbers::one_more))]
fn one_more(decimal: bool, number: u32, byte: u8) -> u32
    ensures { result ≡ numbers.one_more decimal number byte }
{
    let raised = raised(decimal, number);
    let digit = byte.saturating_sub(48) as u64;
    ((raised + digit) % PRIME) as u32
}

#[tactic(auto, unfolding(crate::specs::Numbers::mixed))]
fn mixed(a: u32, b: u32) -> u32
    ensures { result ≡ numbers.mixed a b }
{
    ((a as u64 * 65599 + b as u64) % PRIME) as u32
}

fn text_number(decimal: bool, text: &[u8]) -> u32
    ensures { result ≡ numbers.bytes_number decimal (lower text.now) }
{
    let mut number = 0;
    for byte in text {
        number = one_more(decimal, number, byte.to_ascii_lowercase());
    }
    number
}

fn part_number(pair: &Pair) -> u32
    ensures { result ≡ numbers.part_number (lower_pair pair.now) }
{
    let name = text_number(false, pair.name.bytes());
    let value = text_number(false, pair.value.bytes());
    mixed(name, value)
}

fn level_number(rdn: &[Pair]) -> u32
    ensures { result ≡ numbers.level_number (map lower_pair rdn.now) }
{
    let mut number = 1;
    for pair in rdn {
        number = mixed(number, part_number(pair));
    }
    number
}

/// That of a DN.
fn dn_number(dn: &Dn) -> u32
    ensures { result ≡ numbers.levels_number (lower_dn dn.now) }
{
    let levels = dn.items();
    let mut number = 2;
    for place in (0..levels.len()).rev() {
        let own = level_number(levels[place].items());
        number = mixed(number, own);
    }
    number
}

/// Those of a DN and of all above it.
fn base_numbers(alloc: Global, dn: &Dn) -> Result<Vec<u32>, Memory>
    ensures { IfOk result (λ made. made.items ≡ numbers.base_numbers (lower_dn dn.now)) }
{
    let levels = dn.items();
    let mut number = 2;
    let mut made = Vec::new(alloc);
    made.push(number)?;
    for place in (0..levels.len()).rev() {
        let own = level_number(levels[place].items());
        number = mixed(number, own);
        made.push(number)?;
    }
    Ok(made)
}

/// That of the base of a search.
pub fn base_number(base: &Option<Dn>) -> u32
    ensures { result ≡ numbers.base_number base.now }
{
    match base {
        Some(dn) => dn_number(dn),
        None => 0,
    }
}

/// Whether the values of an attribute are DNs.
pub fn holds_dns(name: &[u8]) -> bool
    ensures { result ≡ holds_dns name.now }
{
    same_text(name, b"member")
        || same_text(name, b"memberOf")
        || same_text(name, b"memberUser")
        || same_text(name, b"memberHost")
        || same_text(name, b"memberService")
}

/// Whether the values of an attribute are numbers.
fn holds_numbers(name: &[u8]) -> bool
    ensures { result ≡ holds_numbers name.now }
{
    same_text(name, b"uidNumber") || same_text(name, b"gidNumber")
}

fn dn_value_number(name: &[u8], dn: &Option<Dn>) -> u32
    ensures { result ≡ numbers.dn_value_number name.now dn.now }
{
    match dn {
        Some(dn) => mixed(text_number(false, name), dn_number(dn)),
        None => 0,
    }
}

fn text_value_number(decimal: bool, name: &[u8], value: &[u8]) -> u32
    ensures { result ≡ numbers.text_value_number decimal name.now value.now }
{
    mixed(text_number(false, name), text_number(decimal, value))
}

/// That of a value of an attribute.
pub fn value_number(alloc: Global, name: &[u8], value: &[u8]) -> Result<u32, Memory>
    ensures { IfOk result (λ number. number ≡ numbers.value_number name.now value.now) }
{
    if holds_dns(name) {
        let dn = spelled(alloc, value)?;
        return Ok(dn_value_number(name, &dn));
    }
    Ok(text_value_number(holds_numbers(name), name, value))
}

fn put_values(
    alloc: Global,
    made: &mut Vec<u32>,
    name: &Text,
    values: &[Text],
) -> Result<(), Memory>
    ensures { OnOk result (made.new.items ≡ made.old.items ++ numbers.values_numbers name.now values.now) }
{
    for value in values {
        let number = value_number(alloc, name.bytes(), value.bytes())?;
        made.push(number)?;
    }
    Ok(())
}

fn put_attributes(
    alloc: Global,
    made: &mut Vec<u32>,
    attributes: &[Attribute],
) -> Result<(), Memory>
    ensures { OnOk result (made.new.items ≡ made.old.items ++ numbers.attributes_numbers attributes.now) }
{
    for attribute in attributes {
        put_values(alloc, made, &attribute.name, attribute.values.items())?;
    }
    Ok(())
}

fn place_numbers(alloc: Global, dn: &Option<Dn>) -> Result<Vec<u32>, Memory>
    ensures { IfOk result (λ made. made.items ≡ numbers.place_numbers dn.now) }
{
    match dn {
        Some(dn) => Ok(base_numbers(alloc, dn)?),
        None => Ok(Vec::new(alloc)),
    }
}

/// Those of an entry whose text spells this DN, or none.
pub fn entry_numbers(alloc: Global, entry: &DirEntry, dn: &Option<Dn>) -> Result<Vec<u32>, Memory>
    requires { dn.now ≡ spelled entry.now.dn }
    ensures { IfOk result (λ made. made.items ≡ numbers.entry_numbers entry.now) }
{
    let mut made = place_numbers(alloc, dn)?;
    put_attributes(alloc, &mut made, entry.attributes.items())?;
    Ok(made)
}
