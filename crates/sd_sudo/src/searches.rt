//! The search for sudo rules.
ghost use Rattle.std.specs.Prelude.{◌≡◌, ◌≤◌, List, ℕ, [], ◌∷◌, ◌++◌, IfOk, OnOk, map, codes};
ghost use Rattle.sd_ldap.specs.Filters.{filter_value};
ghost use Rattle.sd_ldap.specs.Values.{search_value};
ghost use Rattle.sd_ldap.specs.Sound.{IsSoundSearch};
ghost use Rattle.sd_fetch.specs.Searches.{of_class};
ghost use Rattle.sd_sudo.specs.Searches as searches;

use sd_base::{Copied, Memory, Text, Texts};
use sd_ldap::{Filter, SearchRequest};
use std::alloc::Global;

/// The scope of a base and all below it (RFC 4511 section 4.5.1.2).
const WHOLE_SUBTREE: u8 = 2;

fn texts_of(alloc: Global, names: &[&[u8]]) -> Result<Texts, Memory>
    ensures { IfOk result (λ texts. texts ≡ map (λ n. n.now) names.now) }
{
    let mut texts = Texts::new(alloc);
    for name in names {
        texts.push(Text::from_bytes(alloc, name)?)?;
    }
    Ok(texts)
}

/// The attributes that are asked for, the class in front.
#[tactic(auto, unfolding(crate::specs::Searches::asked_attributes))]
fn asked_attributes(alloc: Global) -> Result<Texts, Memory>
    ensures { IfOk result (λ texts. texts ≡ searches.asked_attributes) }
{
    texts_of(
        alloc,
        &[
            b"objectClass".as_slice(),
            b"cn".as_slice(),
            b"sudoUser".as_slice(),
            b"sudoOrder".as_slice(),
            b"sudoHost".as_slice(),
            b"sudoCommand".as_slice(),
            b"sudoRunAsUser".as_slice(),
            b"sudoRunAsGroup".as_slice(),
            b"sudoOption".as_slice(),
        ],
    )
}

/// `(objectClass=sudoRole)`
fn role_filter(alloc: Global) -> Result<Filter, Memory>
    ensures { IfOk result (λ filter. filter_value filter ≡ of_class (codes "sudoRole")) }
{
    Ok(Filter::Equal(
        Text::from_bytes(alloc, b"objectClass")?,
        Text::from_bytes(alloc, b"sudoRole")?,
    ))
}

/// The search for the sudo rules at or under a base, without limits.
pub fn role_search(alloc: Global, base: &Text) -> Result<SearchRequest, Memory>
    ensures search { IfOk result (λ request. search_value request ≡ searches.role_search base.now) }
    ensures sound { IfOk result (λ request. IsSoundSearch (search_value request)) }
{
    let filter = role_filter(alloc)?;
    let attributes = asked_attributes(alloc)?;
    Ok(SearchRequest {
        base: base.copy()?,
        scope: WHOLE_SUBTREE,
        deref: 0,
        size: 0,
        time: 0,
        types_only: false,
        filter,
        attributes,
    })
}
