//! Requests copied, since a message owns its request.
ghost use Rattle.std.specs.Prelude.{◌≡◌, IfOk};
ghost use Rattle.sd_ldap.specs.Filters.{filter_value, filter_values};
ghost use Rattle.sd_ldap.specs.Values.{search_value};

use sd_base::{Copied, Memory, Text};
use sd_ldap::{Filter, SearchRequest};
use std::alloc::Global;

fn copy_optional(text: &Option<Text>) -> Result<Option<Text>, Memory>
    ensures { IfOk result (λ made. made ≡ text.now) }
{
    match text {
        Some(text) => Ok(Some(text.copy()?)),
        None => Ok(None),
    }
}

#[cycle(copying)]
fn copy_filter(alloc: Global, filter: &Filter) -> Result<Filter, Memory>
    ensures { IfOk result (λ made. filter_value made ≡ filter_value filter.now) }
{
    Ok(match filter {
        Filter::And(inner) => Filter::And(copy_filters(alloc, inner)?),
        Filter::Or(inner) => Filter::Or(copy_filters(alloc, inner)?),
        Filter::Not(inner) => Filter::Not(Box::new(alloc, copy_filter(alloc, inner)?)?),
        Filter::Equal(name, value) => Filter::Equal(name.copy()?, value.copy()?),
        Filter::Substrings(name, initial, any, last) => Filter::Substrings(
            name.copy()?,
            copy_optional(initial)?,
            any.copy()?,
            copy_optional(last)?,
        ),
        Filter::AtLeast(name, value) => Filter::AtLeast(name.copy()?, value.copy()?),
        Filter::AtMost(name, value) => Filter::AtMost(name.copy()?, value.copy()?),
        Filter::Present(name) => Filter::Present(name.copy()?),
        Filter::Unsupported => Filter::Unsupported,
    })
}

#[cycle(copying)]
fn copy_filters(alloc: Global, filters: &Vec<Filter>) -> Result<Vec<Filter>, Memory>
    ensures { IfOk result (λ made. filter_values made.items ≡ filter_values filters.now.items) }
{
    let mut copies = Vec::new(alloc);
    for filter in filters {
        copies.push(copy_filter(alloc, filter)?)?;
    }
    Ok(copies)
}

/// A copy of the request.
pub fn copy_request(alloc: Global, request: &SearchRequest) -> Result<SearchRequest, Memory>
    ensures { IfOk result (λ made. search_value made ≡ search_value request.now) }
{
    Ok(SearchRequest {
        base: request.base.copy()?,
        scope: request.scope,
        deref: request.deref,
        size: request.size,
        time: request.time,
        types_only: request.types_only,
        filter: copy_filter(alloc, &request.filter)?,
        attributes: request.attributes.copy()?,
    })
}
