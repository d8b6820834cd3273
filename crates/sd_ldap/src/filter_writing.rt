//! Filters as bytes (RFC 4511 section 4.5.1.7).
ghost use Rattle.std.specs.Prelude.{◌≡◌, ℕ, List, ◌++◌, OnOk, Option};
ghost use Rattle.sd_ldap.specs.Filters.{filter_value, filter_values};
ghost use Rattle.sd_ldap.specs.Spelling.{inside, text_bytes, optional_bytes, pieces_bytes, pair_bytes, filter_bytes, filters_bytes};

use crate::filter::Filter;
use crate::writing::{put_inside, put_text, put_texts};
use sd_base::{Memory, Text, Texts};
use std::alloc::Global;

fn put_pair(
    alloc: Global,
    out: &mut Vec<u8>,
    tag: u8,
    name: &Text,
    value: &Text,
) -> Result<(), Memory>
    ensures { OnOk result (out.new.items ≡ out.old.items ++ inside tag (pair_bytes name.now value.now)) }
{
    let mut contents = Vec::new(alloc);
    put_text(&mut contents, 4, name)?;
    put_text(&mut contents, 4, value)?;
    put_inside(out, tag, &contents)
}

fn put_optional(out: &mut Vec<u8>, tag: u8, text: &Option<Text>) -> Result<(), Memory>
    ensures { OnOk result (out.new.items ≡ out.old.items ++ optional_bytes tag text.now) }
{
    match text {
        Some(text) => put_text(out, tag, text),
        None => Ok(()),
    }
}

fn put_pieces(
    out: &mut Vec<u8>,
    initial: &Option<Text>,
    any: &Texts,
    last: &Option<Text>,
) -> Result<(), Memory>
    ensures { OnOk result (out.new.items ≡ out.old.items ++ pieces_bytes initial.now any.now last.now) }
{
    put_optional(out, 0x80, initial)?;
    put_texts(out, 0x81, any.items())?;
    put_optional(out, 0x82, last)
}

fn put_substrings(
    alloc: Global,
    out: &mut Vec<u8>,
    name: &Text,
    pieces: &[u8],
) -> Result<(), Memory>
    ensures { OnOk result (out.new.items ≡ out.old.items ++ inside 164 (text_bytes 4 name.now ++ inside 48 pieces.now)) }
{
    let mut contents = Vec::new(alloc);
    put_text(&mut contents, 4, name)?;
    put_inside(&mut contents, 0x30, pieces)?;
    put_inside(out, 0xa4, &contents)
}

#[cycle(writing)]
pub fn put_filter(alloc: Global, out: &mut Vec<u8>, filter: &Filter) -> Result<(), Memory>
    ensures { OnOk result (out.new.items ≡ out.old.items ++ filter_bytes (filter_value filter.now)) }
{
    match filter {
        Filter::And(inner) => put_filters(alloc, out, 0xa0, inner),
        Filter::Or(inner) => put_filters(alloc, out, 0xa1, inner),
        Filter::Not(inner) => {
            let mut contents = Vec::new(alloc);
            put_filter(alloc, &mut contents, inner)?;
            put_inside(out, 0xa2, &contents)
        }
        Filter::Equal(name, value) => put_pair(alloc, out, 0xa3, name, value),
        Filter::Substrings(name, initial, any, last) => {
            let mut pieces = Vec::new(alloc);
            put_pieces(&mut pieces, initial, any, last)?;
            put_substrings(alloc, out, name, &pieces)
        }
        Filter::AtLeast(name, value) => put_pair(alloc, out, 0xa5, name, value),
        Filter::AtMost(name, value) => put_pair(alloc, out, 0xa6, name, value),
        Filter::Present(name) => put_text(out, 0x87, name),
        Filter::Unsupported => put_inside(out, 0xa9, &[]),
    }
}

#[cycle(writing)]
fn put_filters(
    alloc: Global,
    out: &mut Vec<u8>,
    tag: u8,
    filters: &Vec<Filter>,
) -> Result<(), Memory>
    ensures { OnOk result (out.new.items ≡ out.old.items ++ inside tag (filters_bytes (filter_values filters.now.items))) }
{
    let mut contents = Vec::new(alloc);
    for filter in filters {
        put_filter(alloc, &mut contents, filter)?;
    }
    put_inside(out, tag, &contents)
}
