//! The parts that messages are made of.
ghost use Rattle.std.specs.Prelude.{◌≡◌, ◌≤◌, ℕ, length, IfOk, Result};
ghost use Rattle.sd_ber.specs.Reading.{Reading};
ghost use Rattle.sd_ldap.specs.Monad.{Fails, Makes, Gives, GivesPart, Passes, IsEnd, ended};
ghost use Rattle.sd_ldap.specs.Parts.{part_at, expected, text_in, within, number_in, truth_of, truth_in, texts_in, tag_in, passed, attribute_in, attributes_in, entry_in, result_in};

use crate::entry::{Attribute, Attributes, DirEntry};
use crate::fault::ReadFault;
use crate::result::LdapResult;
use sd_base::{Text, Texts};
use sd_ber::{Reader, Tlv, integer};
use std::alloc::Global;

/// The next element: its tag and its contents.
#[tactic(auto, unfolding(crate::specs::Parts::part_at))]
pub fn part<'a>(reader: &mut Reader<'a>) -> Result<(u8, Reader<'a>), ReadFault>
    ensures { GivesPart result reader.new (part_at reader.old) }
{
    let at = reader.place();
    match reader.open() {
        Some(found) => Ok(found),
        None => Err(ReadFault::Bad(at)),
    }
}

/// The contents of the next element, which has this tag.
#[tactic(auto, unfolding(crate::specs::Parts::expected))]
pub fn expected<'a>(reader: &mut Reader<'a>, tag: u8) -> Result<Reader<'a>, ReadFault>
    ensures { Gives (λ r. r) result reader.new (expected tag reader.old) }
{
    let at = reader.place();
    let (found, contents) = part(reader)?;
    if found != tag {
        return Err(ReadFault::Bad(at));
    }
    Ok(contents)
}

/// Nothing may follow.
pub fn end(reader: &Reader<'_>) -> Result<(), ReadFault>
    ensures { IsEnd result reader.now }
{
    if !reader.is_empty() {
        return Err(ReadFault::Bad(reader.place()));
    }
    Ok(())
}

#[tactic(auto, unfolding(crate::specs::Parts::text_in))]
pub fn text(alloc: Global, reader: &mut Reader<'_>, tag: u8) -> Result<Text, ReadFault>
    ensures { Gives (λ t. t) result reader.new (text_in tag reader.old) }
{
    let contents = expected(reader, tag)?;
    Ok(Text::from_bytes(alloc, contents.rest())?)
}

/// A number within bounds, from an element at a place.
fn within(at: u64, least: u32, most: u32, value: i64) -> Result<u32, ReadFault>
    ensures exact { Makes (λ n. n) result (within at least most value) }
    ensures bounds { IfOk result (λ n. n ≤ most) }
{
    if value < i64::from(least) || value > i64::from(most) {
        return Err(ReadFault::Bad(at));
    }
    Ok(value as u32)
}

#[tactic(auto, unfolding(crate::specs::Parts::number_in))]
pub fn number(reader: &mut Reader<'_>, tag: u8, least: u32, most: u32) -> Result<u32, ReadFault>
    ensures exact { Gives (λ n. n) result reader.new (number_in tag least most reader.old) }
    ensures bounds { IfOk result (λ n. n ≤ most) }
{
    let at = reader.place();
    let contents = expected(reader, tag)?;
    let tlv = Tlv {
        tag,
        at,
        body: contents.rest(),
    };
    let Ok(value) = integer(&tlv) else {
        return Err(ReadFault::Bad(at));
    };
    within(at, least, most, value)
}

/// FALSE for the octet 0, and TRUE for others.
fn truth_of(at: u64, octets: &[u8]) -> Result<bool, ReadFault>
    ensures { Makes (λ b. b) result (truth_of at octets.now) }
{
    match octets {
        [octet] => Ok(*octet != 0),
        _ => Err(ReadFault::Bad(at)),
    }
}

#[tactic(auto, unfolding(crate::specs::Parts::truth_in))]
pub fn truth(reader: &mut Reader<'_>) -> Result<bool, ReadFault>
    ensures { Gives (λ b. b) result reader.new (truth_in reader.old) }
{
    let at = reader.place();
    let contents = expected(reader, 1)?;
    truth_of(at, contents.rest())
}

/// Texts to the end.
pub fn texts(alloc: Global, mut reader: Reader<'_>) -> Result<Texts, ReadFault>
    ensures { Makes (λ ts. ts) result (texts_in reader.entry) }
{
    let mut texts = Texts::new(alloc);
    let count = reader.rest().len();
    for _ in 0..count {
        if reader.is_empty() {
            return Ok(texts);
        }
        texts.push(text(alloc, &mut reader, 4)?)?;
    }
    end(&reader)?;
    Ok(texts)
}

/// The tag of the next element, which is read over.
#[tactic(auto, unfolding(crate::specs::Parts::tag_in))]
fn skip(reader: &mut Reader<'_>) -> Result<u8, ReadFault>
    ensures { Gives (λ tag. tag) result reader.new (tag_in reader.old) }
{
    let (tag, _) = part(reader)?;
    Ok(tag)
}

/// Elements of any kind to the end, read over.
pub fn pass(reader: &mut Reader<'_>) -> Result<(), ReadFault>
    ensures { Passes result (passed reader.old) }
{
    let count = reader.rest().len();
    for _ in 0..count {
        if reader.is_empty() {
            return Ok(());
        }
        skip(reader)?;
    }
    end(reader)
}

/// A type and a set of values (RFC 4511 section 4.1.7).
#[tactic(auto, unfolding(crate::specs::Parts::attribute_in))]
fn attribute(alloc: Global, reader: &mut Reader<'_>) -> Result<Attribute, ReadFault>
    ensures { Gives (λ a. a) result reader.new (attribute_in reader.old) }
{
    let mut parts = expected(reader, 0x30)?;
    let name = text(alloc, &mut parts, 4)?;
    let set = expected(&mut parts, 0x31)?;
    let values = texts(alloc, set)?;
    end(&parts)?;
    Ok(Attribute { name, values })
}

/// Attributes to the end.
fn attributes(alloc: Global, mut reader: Reader<'_>) -> Result<Attributes, ReadFault>
    ensures { Makes (λ list. list) result (attributes_in reader.entry) }
{
    let mut attributes = Attributes::new(alloc);
    let count = reader.rest().len();
    for _ in 0..count {
        if reader.is_empty() {
            return Ok(attributes);
        }
        attributes.push(attribute(alloc, &mut reader)?)?;
    }
    end(&reader)?;
    Ok(attributes)
}

#[tactic(auto, unfolding(crate::specs::Parts::entry_in))]
pub fn entry(alloc: Global, mut reader: Reader<'_>) -> Result<DirEntry, ReadFault>
    ensures { Makes (λ found. found) result (entry_in reader.entry) }
{
    let dn = text(alloc, &mut reader, 4)?;
    let list = expected(&mut reader, 0x30)?;
    let attributes = attributes(alloc, list)?;
    end(&reader)?;
    Ok(DirEntry { dn, attributes })
}

#[tactic(auto, unfolding(crate::specs::Parts::result_in))]
pub fn result(alloc: Global, mut reader: Reader<'_>) -> Result<LdapResult, ReadFault>
    ensures { Makes (λ found. found) result (result_in reader.entry) }
{
    let code = number(&mut reader, 10, 0, u32::MAX)?;
    let dn = text(alloc, &mut reader, 4)?;
    let message = text(alloc, &mut reader, 4)?;
    pass(&mut reader)?;
    Ok(LdapResult { code, dn, message })
}
