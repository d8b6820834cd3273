//! Where the entries that a search finds are looked for.
ghost use Rattle.std.specs.Prelude.{◌≡◌, ◌≢◌, ◌⊎◌, ℕ, [], true, false, IfOk};
ghost use Rattle.std.specs.List.{list_any};
ghost use Rattle.sd_dn.specs.Comparing.{ends_with};
ghost use Rattle.sd_dn.specs.Texts.{spelled, both_meet};
ghost use Rattle.sd_ldap.specs.declared.entry.DirEntry.{DirEntry};
ghost use Rattle.sd_ldap.specs.Filters.{filter_value, filter_values};
ghost use Rattle.sd_ldap.specs.Values.{search_value};
ghost use Rattle.sd_match.specs.Matching.{holds_dns, has_value, equals, matches, all_match};
ghost use Rattle.sd_match.specs.Answering.{is_found};
ghost use Rattle.sd_places.specs.Covers.{AreEnough, at_slot, passes_at, present};
ghost use Rattle.sd_places.specs.Index.{IsIndex, found_under};

use crate::index::Index;
use crate::numbers::{base_number, holds_dns, value_number};
use crate::placed::Placed;
use sd_base::{Memory, Text};
use sd_dn::Dn;
use sd_ldap::{Filter, SearchRequest};
use std::alloc::Global;

/// So few entries are looked at one by one.
const FEW: usize = 8;

fn is_under_at(slots: &[Option<Placed>], place: usize, base: &Option<Dn>) -> bool
    ensures { result ≡ passes_at (λ (e : DirEntry). both_meet ends_with (spelled e.dn) base.now) (at_slot slots.now place) }
{
    match slots.get(place) {
        Some(Some(placed)) => placed.is_at_or_under(base),
        _ => false,
    }
}

/// Whether an entry at one of the places is at or under the base.
fn has_base(slots: &[Option<Placed>], places: &[usize], base: &Option<Dn>) -> bool
    ensures { result ≡ list_any (λ (p : ℕ). passes_at (λ (e : DirEntry). both_meet ends_with (spelled e.dn) base.now) (at_slot slots.now p)) places.now }
{
    places.iter().any(|place| is_under_at(slots, *place, base))
}

/// Whether an entry is at or under the base.
pub fn has_base_in(slots: &[Option<Placed>], index: &Index, base: &Option<Dn>) -> bool
    requires { IsIndex index.now slots.now }
    ensures { result ≡ list_any (λ (e : DirEntry). both_meet ends_with (spelled e.dn) base.now) (present slots.now) }
{
    let places = index.places(base_number(base));
    has_base(slots, places, base)
}

/// Whether all entries that have a value of an attribute are found under its number.
fn is_sure(index: &Index, name: &Text) -> bool
    ensures { result ≡ true → (holds_dns name.now ≡ false) ⊎ (found_under index.now 0 ≡ []) }
{
    if !holds_dns(name.bytes()) {
        return true;
    }
    index.places(0).is_empty()
}

/// Of two numbers under which all is that a search finds the one with fewer places: a known one, and that of a value
/// that all that it finds have.
fn narrowed(
    alloc: Global,
    slots: &[Option<Placed>],
    index: &Index,
    request: &SearchRequest,
    name: &Text,
    value: &Text,
    best: u32,
) -> Result<u32, Memory>
    requires index { IsIndex index.now slots.now }
    requires best { AreEnough (λ (e : DirEntry). is_found (search_value request.now) e) slots.now (found_under index.now best) }
    requires implied { (e : DirEntry) → is_found (search_value request.now) e ≡ true → has_value name.now (equals name.now value.now) e.attributes ≡ true }
    ensures { IfOk result (λ number. AreEnough (λ (e : DirEntry). is_found (search_value request.now) e) slots.now (found_under index.now number)) }
{
    if slots.len() <= FEW {
        return Ok(best);
    }
    let number = value_number(alloc, name.bytes(), value.bytes())?;
    if number == 0 {
        return Ok(best);
    }
    if !is_sure(index, name) {
        return Ok(best);
    }
    if index.places(number).len() >= index.places(best).len() {
        return Ok(best);
    }
    Ok(number)
}

/// The same by a filter that all that a search finds passes.
fn narrowed_by(
    alloc: Global,
    slots: &[Option<Placed>],
    index: &Index,
    request: &SearchRequest,
    filter: &Filter,
    best: u32,
) -> Result<u32, Memory>
    requires index { IsIndex index.now slots.now }
    requires best { AreEnough (λ (e : DirEntry). is_found (search_value request.now) e) slots.now (found_under index.now best) }
    requires implied { (e : DirEntry) → is_found (search_value request.now) e ≡ true → matches (filter_value filter.now) e.attributes ≡ true }
    ensures { IfOk result (λ number. AreEnough (λ (e : DirEntry). is_found (search_value request.now) e) slots.now (found_under index.now number)) }
{
    match filter {
        Filter::Equal(name, value) => narrowed(alloc, slots, index, request, name, value, best),
        _ => Ok(best),
    }
}

/// The same by filters that all that a search finds passes.
fn narrowed_by_all(
    alloc: Global,
    slots: &[Option<Placed>],
    index: &Index,
    request: &SearchRequest,
    filters: &Vec<Filter>,
    best: u32,
) -> Result<u32, Memory>
    requires index { IsIndex index.now slots.now }
    requires best { AreEnough (λ (e : DirEntry). is_found (search_value request.now) e) slots.now (found_under index.now best) }
    requires implied { (e : DirEntry) → is_found (search_value request.now) e ≡ true → all_match (filter_values filters.now.items) e.attributes ≡ true }
    ensures { IfOk result (λ number. AreEnough (λ (e : DirEntry). is_found (search_value request.now) e) slots.now (found_under index.now number)) }
{
    let mut number = best;
    for filter in filters {
        let next = narrowed_by(alloc, slots, index, request, filter, number)?;
        number = next;
    }
    Ok(number)
}

/// A number under which all is that a search finds: that of the base, or of a value that it asks for.
pub fn narrowest(
    alloc: Global,
    slots: &[Option<Placed>],
    index: &Index,
    request: &SearchRequest,
    base: &Option<Dn>,
) -> Result<u32, Memory>
    requires index { IsIndex index.now slots.now }
    requires base { base.now ≡ spelled request.now.base }
    ensures { IfOk result (λ number. AreEnough (λ (e : DirEntry). is_found (search_value request.now) e) slots.now (found_under index.now number)) }
{
    let number = number_of_base(slots, index, request, base);
    match &request.filter {
        Filter::And(filters) => narrowed_by_all(alloc, slots, index, request, filters, number),
        _ => narrowed_by(alloc, slots, index, request, &request.filter, number),
    }
}

/// The number of the base of a search.
fn number_of_base(
    slots: &[Option<Placed>],
    index: &Index,
    request: &SearchRequest,
    base: &Option<Dn>,
) -> u32
    requires index { IsIndex index.now slots.now }
    requires base { base.now ≡ spelled request.now.base }
    ensures { AreEnough (λ (e : DirEntry). is_found (search_value request.now) e) slots.now (found_under index.now result) }
{
    index.check();
    base_number(base)
}
