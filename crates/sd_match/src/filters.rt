//! Filters over the attributes of an entry.
ghost use Rattle.std.specs.Prelude.{◌≡◌, ℕ, List, Bool, ◌&&◌};
ghost use Rattle.std.specs.List.{list_any};
ghost use Rattle.sd_dn.specs.Comparing.{same_text};
ghost use Rattle.sd_ldap.specs.Filters.{filter_value, filter_values};
ghost use Rattle.sd_match.specs.Matching.{has_value, passes, matches, all_match, one_matches, has_unsupported, some_unsupported};

use crate::values::passes;
use sd_base::Text;
use sd_dn::compare::same_text;
use sd_ldap::{Attribute, DirEntry, Filter};

/// Whether an entry is one that a filter asks for. A part of the filter that is not supported matches nothing.
pub fn matches(filter: &Filter, entry: &DirEntry) -> bool
    ensures { result ≡ matches (filter_value filter.now) entry.now.attributes }
{
    filter_matches(filter, entry.attributes.items())
}

#[cycle(matching)]
fn filter_matches(filter: &Filter, attributes: &[Attribute]) -> bool
    ensures { result ≡ matches (filter_value filter.now) attributes.now }
{
    match filter {
        Filter::And(inner) => all_match(inner, attributes),
        Filter::Or(inner) => one_matches(inner, attributes),
        Filter::Not(inner) => !filter_matches(inner, attributes),
        Filter::Equal(name, _) => has_value(attributes, name, filter),
        Filter::Substrings(name, _, _, _) => has_value(attributes, name, filter),
        Filter::AtLeast(name, _) => has_value(attributes, name, filter),
        Filter::AtMost(name, _) => has_value(attributes, name, filter),
        Filter::Present(name) => has_value(attributes, name, filter),
        Filter::Unsupported => false,
    }
}

#[cycle(matching)]
fn all_match(filters: &Vec<Filter>, attributes: &[Attribute]) -> bool
    ensures { result ≡ all_match (filter_values filters.now.items) attributes.now }
{
    for filter in filters {
        if !filter_matches(filter, attributes) {
            return false;
        }
    }
    true
}

#[cycle(matching)]
fn one_matches(filters: &Vec<Filter>, attributes: &[Attribute]) -> bool
    ensures { result ≡ one_matches (filter_values filters.now.items) attributes.now }
{
    for filter in filters {
        if filter_matches(filter, attributes) {
            return true;
        }
    }
    false
}

/// Whether an attribute of this name has a value that a filter asks for.
fn has_value(attributes: &[Attribute], name: &Text, filter: &Filter) -> bool
    ensures { result ≡ has_value name.now (passes (filter_value filter.now)) attributes.now }
{
    attributes
        .iter()
        .any(|attribute| own_value(attribute, name, filter))
}

fn own_value(attribute: &Attribute, name: &Text, filter: &Filter) -> bool
    ensures { result ≡ (same_text attribute.now.name name.now && list_any (passes (filter_value filter.now)) attribute.now.values) }
{
    same_text(attribute.name.bytes(), name.bytes()) && one_passes(attribute.values.items(), filter)
}

fn one_passes(values: &[Text], filter: &Filter) -> bool
    ensures { result ≡ list_any (passes (filter_value filter.now)) values.now }
{
    values.iter().any(|value| passes(filter, value.bytes()))
}

/// Whether a filter has a part that is not supported.
#[cycle(supporting)]
pub fn has_unsupported(filter: &Filter) -> bool
    ensures { result ≡ has_unsupported (filter_value filter.now) }
{
    match filter {
        Filter::And(inner) => some_unsupported(inner),
        Filter::Or(inner) => some_unsupported(inner),
        Filter::Not(inner) => has_unsupported(inner),
        Filter::Equal(_, _) => false,
        Filter::Substrings(_, _, _, _) => false,
        Filter::AtLeast(_, _) => false,
        Filter::AtMost(_, _) => false,
        Filter::Present(_) => false,
        Filter::Unsupported => true,
    }
}

#[cycle(supporting)]
fn some_unsupported(filters: &Vec<Filter>) -> bool
    ensures { result ≡ some_unsupported (filter_values filters.now.items) }
{
    for filter in filters {
        if has_unsupported(filter) {
            return true;
        }
    }
    false
}
