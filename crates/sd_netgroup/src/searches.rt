//! The search for the netgroups of a name.
ghost use Rattle.std.specs.Prelude.{◌≡◌, ◌≤◌, ℕ, List, [], ◌∷◌, ◌++◌, IfOk, map, codes};
ghost use Rattle.sd_ldap.specs.Filters.{filter_value, equal};
ghost use Rattle.sd_ldap.specs.Values.{search_value};
ghost use Rattle.sd_ldap.specs.Sound.{IsSoundSearch};
ghost use Rattle.sd_netgroup.specs.Searches as searches;

use sd_base::{Copied, Memory, Text, Texts};
use sd_ldap::{Filter, SearchRequest};
use std::alloc::Global;

/// The scope of a base and all below it (RFC 4511 section 4.5.1.2).
const WHOLE_SUBTREE: u8 = 2;

/// `(NAME=VALUE)`
fn equality(alloc: Global, name: &[u8], value: &[u8]) -> Result<Filter, Memory>
    ensures { IfOk result (λ filter. filter_value filter ≡ equal name.now value.now) }
{
    Ok(Filter::Equal(
        Text::from_bytes(alloc, name)?,
        Text::from_bytes(alloc, value)?,
    ))
}

/// `(&(objectClass=nisNetgroup)(cn=NAME))`
fn net_filter(alloc: Global, name: &[u8]) -> Result<Filter, Memory>
    ensures { IfOk result (λ filter. filter_value filter ≡ searches.net_filter name.now) }
{
    let mut parts = Vec::new(alloc);
    parts.push(equality(alloc, b"objectClass", b"nisNetgroup")?)?;
    parts.push(equality(alloc, b"cn", name)?)?;
    Ok(Filter::And(parts))
}

fn asked_attributes(alloc: Global) -> Result<Texts, Memory>
    ensures { IfOk result (λ texts. texts ≡ searches.asked_attributes) }
{
    let mut texts = Texts::new(alloc);
    texts.push(Text::from_bytes(alloc, b"objectClass")?)?;
    texts.push(Text::from_bytes(alloc, b"cn")?)?;
    texts.push(Text::from_bytes(alloc, b"nisNetgroupTriple")?)?;
    texts.push(Text::from_bytes(alloc, b"memberNisNetgroup")?)?;
    Ok(texts)
}

/// The search for the netgroups of a name at or under a base, without limits.
pub fn net_search(alloc: Global, base: &Text, name: &Text) -> Result<SearchRequest, Memory>
    ensures search { IfOk result (λ request. search_value request ≡ searches.net_search base.now name.now) }
    ensures sound { IfOk result (λ request. IsSoundSearch (search_value request)) }
{
    let filter = net_filter(alloc, name.bytes())?;
    let attributes = asked_attributes(alloc)?;
    Ok(SearchRequest {
        base: base.copy()?,
        scope: WHOLE_SUBTREE,
        deref: 0,
        size: 0,
        time: 0,
        types_only: false,
        filter,
        attributes,
    })
}
