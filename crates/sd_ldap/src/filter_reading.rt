//! How filters are read (RFC 4511 section 4.5.1.7).
ghost use Rattle.std.specs.Prelude.{◌≡◌, ℕ, List, Option, length, IfOk, MatchResult, map};
ghost use Rattle.sd_ber.specs.Reading.{Reading};
ghost use Rattle.sd_ldap.specs.Monad.{Fails, Makes, Gives, all_of};
ghost use Rattle.sd_ldap.specs.Filters.{FilterValue, filter_value, filter_values};
ghost use Rattle.sd_ldap.specs.FilterReading.{pair_in, begins_with, optional_in, run_in, pieces_in, has_part, substrings_in, comparison_of, negation_in, filter_of, filter_in};

use crate::fault::ReadFault;
use crate::filter::{Filter, Pieces};
use crate::parts::{end, expected, part, text};
use sd_base::{Memory, Text, Texts};
use sd_ber::Reader;
use std::alloc::Global;

/// An attribute and a value, and no more.
#[tactic(auto, unfolding(crate::specs::FilterReading::pair_in))]
fn pair(alloc: Global, mut reader: Reader<'_>) -> Result<(Text, Text), ReadFault>
    ensures { Makes (λ p. p) result (pair_in reader.entry) }
{
    let name = text(alloc, &mut reader, 4)?;
    let value = text(alloc, &mut reader, 4)?;
    end(&reader)?;
    Ok((name, value))
}

/// Whether the next byte is this tag.
fn begins(reader: &Reader<'_>, tag: u8) -> bool
    ensures { result ≡ begins_with tag reader.now.rest }
{
    match reader.rest() {
        [first, ..] => *first == tag,
        _ => false,
    }
}

/// The text of the next element, where it has this tag; else nothing is read.
#[tactic(auto, unfolding(crate::specs::FilterReading::optional_in))]
fn optional(alloc: Global, reader: &mut Reader<'_>, tag: u8) -> Result<Option<Text>, Memory>
    ensures { IfOk result (λ found. optional_in tag reader.old ≡ (found, reader.new)) }
{
    if !begins(reader, tag) {
        return Ok(None);
    }
    match reader.open() {
        Some((_, contents)) => Ok(Some(Text::from_bytes(alloc, contents.rest())?)),
        None => Ok(None),
    }
}

/// The texts of the next elements of a tag.
fn run(alloc: Global, reader: &mut Reader<'_>, tag: u8) -> Result<Texts, Memory>
    ensures { IfOk result (λ found. run_in tag (length reader.old.rest) reader.old ≡ (found, reader.new)) }
{
    let mut texts = Texts::new(alloc);
    let count = reader.rest().len();
    for _ in 0..count {
        match optional(alloc, reader, tag)? {
            Some(text) => texts.push(text)?,
            None => return Ok(texts),
        }
    }
    Ok(texts)
}

#[tactic(auto, unfolding(crate::specs::FilterReading::pieces_in))]
fn all_pieces(alloc: Global, mut reader: Reader<'_>) -> Result<Pieces, ReadFault>
    ensures { Makes (λ p. p) result (pieces_in reader.entry) }
{
    let initial = optional(alloc, &mut reader, 0x80)?;
    let any = run(alloc, &mut reader, 0x81)?;
    let last = optional(alloc, &mut reader, 0x82)?;
    end(&reader)?;
    Ok(Pieces { initial, any, last })
}

/// Whether there is a part.
fn has_part(pieces: &Pieces) -> bool
    ensures { result ≡ has_part pieces.now.initial pieces.now.any pieces.now.last }
{
    pieces.initial.is_some() || pieces.any.len() > 0 || pieces.last.is_some()
}

/// An attribute and parts, of which one is there; the filter itself is at a place.
#[tactic(auto, unfolding(crate::specs::FilterReading::substrings_in))]
fn substrings(alloc: Global, at: u64, mut reader: Reader<'_>) -> Result<Filter, ReadFault>
    ensures { Makes filter_value result (substrings_in at reader.entry) }
{
    let name = text(alloc, &mut reader, 4)?;
    let list = expected(&mut reader, 0x30)?;
    let pieces = all_pieces(alloc, list)?;
    if !has_part(&pieces) {
        return Err(ReadFault::Bad(at));
    }
    end(&reader)?;
    Ok(Filter::Substrings(name, pieces.initial, pieces.any, pieces.last))
}

/// A filter of at most so many levels.
#[cycle(reading)]
pub fn filter(alloc: Global, reader: &mut Reader<'_>, levels: u32) -> Result<Filter, ReadFault>
    ensures { Gives filter_value result reader.new (filter_in levels reader.old) }
{
    let at = reader.place();
    if levels == 0 {
        return Err(ReadFault::Bad(at));
    }
    let (tag, contents) = part(reader)?;
    contained(alloc, at, tag, contents, levels - 1)
}

/// A filter by its tag and its contents; the filters in it have at most so many levels.
#[cycle(reading)]
#[tactic(auto, unfolding(crate::specs::FilterReading::filter_of))]
fn contained(
    alloc: Global,
    at: u64,
    tag: u8,
    contents: Reader<'_>,
    levels: u32,
) -> Result<Filter, ReadFault>
    ensures { Makes filter_value result (filter_of (λ inner. filter_in levels inner) at tag contents.entry) }
{
    match tag {
        0xa0 => Ok(Filter::And(filters(alloc, contents, levels)?)),
        0xa1 => Ok(Filter::Or(filters(alloc, contents, levels)?)),
        0xa2 => negation(alloc, contents, levels),
        0xa4 => substrings(alloc, at, contents),
        0x87 => Ok(Filter::Present(Text::from_bytes(alloc, contents.rest())?)),
        0xa8 | 0xa9 => Ok(Filter::Unsupported),
        _ => comparison(alloc, at, tag, contents),
    }
}

/// A filter that compares an attribute with a value.
#[tactic(auto, unfolding(crate::specs::FilterReading::comparison_of))]
fn comparison(alloc: Global, at: u64, tag: u8, contents: Reader<'_>) -> Result<Filter, ReadFault>
    ensures { Makes filter_value result (comparison_of at tag contents.entry) }
{
    if tag != 0xa3 && tag != 0xa5 && tag != 0xa6 {
        return Err(ReadFault::Bad(at));
    }
    let (name, value) = pair(alloc, contents)?;
    match tag {
        0xa3 => Ok(Filter::Equal(name, value)),
        0xa5 => Ok(Filter::AtLeast(name, value)),
        _ => Ok(Filter::AtMost(name, value)),
    }
}

/// The one filter that is turned round.
#[cycle(reading)]
fn negation(alloc: Global, mut reader: Reader<'_>, levels: u32) -> Result<Filter, ReadFault>
    ensures { Makes filter_value result (negation_in (λ inner. filter_in levels inner) reader.entry) }
{
    let inner = filter(alloc, &mut reader, levels)?;
    end(&reader)?;
    Ok(Filter::Not(Box::new(alloc, inner)?))
}

/// Filters to the end.
#[cycle(reading)]
fn filters(alloc: Global, mut reader: Reader<'_>, levels: u32) -> Result<Vec<Filter>, ReadFault>
    ensures { Makes (λ v. map filter_value v.items) result (all_of (λ inner. filter_in levels inner) reader.entry) }
{
    let mut filters = Vec::new(alloc);
    let count = reader.rest().len();
    for _ in 0..count {
        if reader.is_empty() {
            return Ok(filters);
        }
        filters.push(filter(alloc, &mut reader, levels)?)?;
    }
    end(&reader)?;
    Ok(filters)
}
