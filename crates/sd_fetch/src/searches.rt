//! The searches that lookups send.
ghost use Rattle.std.specs.Prelude.{◌≡◌, ◌≤◌, ℕ, List, [], ◌∷◌, ◌++◌, false, IfOk, OnOk, map, codes};
ghost use Rattle.std.specs.Fmt.{decimal};
ghost use Rattle.sd_ldap.specs.Filters.{filter_value, equal, present};
ghost use Rattle.sd_ldap.specs.Values.{search_value};
ghost use Rattle.sd_ldap.specs.Sound.{IsSoundSearch, levels_of, HasParts};
ghost use Rattle.sd_schema.specs.Places.{at_base};
ghost use Rattle.sd_nested.specs.Searches as rounds;
ghost use Rattle.sd_fetch.specs.Searches as searches;

use sd_base::{Copied, Memory, Text, Texts};
use sd_conf::Config;
use sd_ldap::{Filter, SearchRequest};
use sd_rules::Key;
use std::alloc::Global;

/// Scopes of RFC 4511 section 4.5.1.2.
const BASE_OBJECT: u8 = 0;

const WHOLE_SUBTREE: u8 = 2;

fn texts_of(alloc: Global, names: &[&[u8]]) -> Result<Texts, Memory>
    ensures { IfOk result (λ texts. texts ≡ map (λ n. n.now) names.now) }
{
    let mut texts = Texts::new(alloc);
    for name in names {
        texts.push(Text::from_bytes(alloc, name)?)?;
    }
    Ok(texts)
}

/// An equality filter.
fn equality(alloc: Global, name: &[u8], value: &[u8]) -> Result<Filter, Memory>
    ensures { IfOk result (λ filter. filter_value filter ≡ equal name.now value.now) }
{
    Ok(Filter::Equal(
        Text::from_bytes(alloc, name)?,
        Text::from_bytes(alloc, value)?,
    ))
}

/// `(objectClass=CLASS)`
fn of_class(alloc: Global, class: &[u8]) -> Result<Filter, Memory>
    ensures { IfOk result (λ filter. filter_value filter ≡ searches.of_class class.now) }
{
    equality(alloc, b"objectClass", class)
}

/// `(&(objectClass=CLASS)(NAME=VALUE))`
fn class_with(alloc: Global, class: &[u8], name: &[u8], value: &[u8]) -> Result<Filter, Memory>
    ensures { IfOk result (λ filter. filter_value filter ≡ searches.class_with class.now name.now value.now) }
{
    let mut parts = Vec::new(alloc);
    parts.push(of_class(alloc, class)?)?;
    parts.push(equality(alloc, name, value)?)?;
    Ok(Filter::And(parts))
}

/// A search without limits.
fn search_in(base: Text, scope: u8, filter: Filter, attributes: Texts) -> SearchRequest
    ensures { search_value result ≡ record { base = base; scope = scope; deref = 0; size = 0; time = 0; types_only = false; filter = filter_value filter; attributes = attributes } }
{
    SearchRequest {
        base,
        scope,
        deref: 0,
        size: 0,
        time: 0,
        types_only: false,
        filter,
        attributes,
    }
}

/// A search of a base and all below it.
fn search_below(
    alloc: Global,
    base: &[u8],
    filter: Filter,
    attributes: Texts,
) -> Result<SearchRequest, Memory>
    ensures { IfOk result (λ request. search_value request ≡ searches.search_below base.now (filter_value filter) attributes) }
{
    let base = Text::from_bytes(alloc, base)?;
    Ok(search_in(base, WHOLE_SUBTREE, filter, attributes))
}

/// The attributes of users that are asked for, the class in front.
#[tactic(auto, unfolding(crate::specs::Searches::user_attributes))]
fn user_attributes(alloc: Global) -> Result<Texts, Memory>
    ensures { IfOk result (λ texts. texts ≡ searches.user_attributes) }
{
    texts_of(
        alloc,
        &[
            b"objectClass".as_slice(),
            b"uid".as_slice(),
            b"uidNumber".as_slice(),
            b"gidNumber".as_slice(),
            b"homeDirectory".as_slice(),
            b"gecos".as_slice(),
            b"loginShell".as_slice(),
        ],
    )
}

/// The attributes of groups that are asked for, the class in front.
#[tactic(auto, unfolding(crate::specs::Searches::group_attributes))]
fn group_attributes(alloc: Global) -> Result<Texts, Memory>
    ensures { IfOk result (λ texts. texts ≡ searches.group_attributes) }
{
    texts_of(
        alloc,
        &[
            b"objectClass".as_slice(),
            b"cn".as_slice(),
            b"gidNumber".as_slice(),
            b"member".as_slice(),
        ],
    )
}

/// The attributes of hosts that are asked for, the class in front.
#[tactic(auto, unfolding(crate::specs::Searches::host_attributes))]
fn host_attributes(alloc: Global) -> Result<Texts, Memory>
    ensures { IfOk result (λ texts. texts ≡ searches.host_attributes) }
{
    texts_of(
        alloc,
        &[
            b"objectClass".as_slice(),
            b"fqdn".as_slice(),
            b"memberOf".as_slice(),
        ],
    )
}

/// The attributes of access rules that are asked for, the class in front.
#[tactic(auto, unfolding(crate::specs::Searches::rule_attributes))]
fn rule_attributes(alloc: Global) -> Result<Texts, Memory>
    ensures { IfOk result (λ texts. texts ≡ searches.rule_attributes) }
{
    texts_of(
        alloc,
        &[
            b"objectClass".as_slice(),
            b"cn".as_slice(),
            b"ipaEnabledFlag".as_slice(),
            b"accessRuleType".as_slice(),
            b"memberUser".as_slice(),
            b"userCategory".as_slice(),
            b"memberHost".as_slice(),
            b"hostCategory".as_slice(),
            b"memberService".as_slice(),
            b"serviceCategory".as_slice(),
        ],
    )
}

/// The attributes of services that are asked for, the class in front.
#[tactic(auto, unfolding(crate::specs::Searches::service_attributes))]
fn service_attributes(alloc: Global) -> Result<Texts, Memory>
    ensures { IfOk result (λ texts. texts ≡ searches.service_attributes) }
{
    texts_of(
        alloc,
        &[
            b"objectClass".as_slice(),
            b"cn".as_slice(),
            b"memberOf".as_slice(),
        ],
    )
}

fn user_search(
    alloc: Global,
    base: &Text,
    name: &[u8],
    value: &[u8],
) -> Result<SearchRequest, Memory>
    ensures { IfOk result (λ request. search_value request ≡ searches.user_search base.now name.now value.now) }
{
    let filter = class_with(alloc, b"posixAccount", name, value)?;
    search_below(alloc, base.bytes(), filter, user_attributes(alloc)?)
}

fn group_search(
    alloc: Global,
    base: &Text,
    name: &[u8],
    value: &[u8],
) -> Result<SearchRequest, Memory>
    ensures { IfOk result (λ request. search_value request ≡ searches.group_search base.now name.now value.now) }
{
    let filter = class_with(alloc, b"posixGroup", name, value)?;
    search_below(alloc, base.bytes(), filter, group_attributes(alloc)?)
}

fn host_search(alloc: Global, base: &Text, hostname: &[u8]) -> Result<SearchRequest, Memory>
    ensures { IfOk result (λ request. search_value request ≡ searches.host_search base.now hostname.now) }
{
    let filter = class_with(alloc, b"ipaHost", b"fqdn", hostname)?;
    search_below(alloc, base.bytes(), filter, host_attributes(alloc)?)
}

/// A place of the tree, in front of the base; where that is empty, the comma falls away.
fn place_at(alloc: Global, front: &[u8], base: &Text) -> Result<Text, Memory>
    ensures { IfOk result (λ text. text ≡ at_base front.now base.now) }
{
    let mut place = Vec::new(alloc);
    place.extend_from_slice(front)?;
    if !base.bytes().is_empty() {
        place.push(b',')?;
        place.extend_from_slice(base.bytes())?;
    }
    Text::from_bytes(alloc, &place)
}

/// Where access rules are.
pub fn rules_place(alloc: Global, base: &Text) -> Result<Text, Memory>
    ensures { IfOk result (λ text. text ≡ searches.rules_place base.now) }
{
    place_at(alloc, b"cn=hbac", base)
}

/// Where the services of access rules are.
pub fn services_place(alloc: Global, base: &Text) -> Result<Text, Memory>
    ensures { IfOk result (λ text. text ≡ searches.services_place base.now) }
{
    place_at(alloc, b"cn=hbacservices,cn=hbac", base)
}

fn rules_search(alloc: Global, base: &Text) -> Result<SearchRequest, Memory>
    ensures { IfOk result (λ request. search_value request ≡ searches.rules_search base.now) }
{
    let place = rules_place(alloc, base)?;
    let filter = of_class(alloc, b"ipaHBACRule")?;
    search_below(alloc, place.bytes(), filter, rule_attributes(alloc)?)
}

/// The search for the services of access rules.
pub fn services_search(alloc: Global, base: &Text) -> Result<SearchRequest, Memory>
    ensures services { IfOk result (λ request. search_value request ≡ searches.services_search base.now) }
    ensures sound { IfOk result (λ request. IsSoundSearch (search_value request)) }
{
    let place = services_place(alloc, base)?;
    let filter = of_class(alloc, b"ipaHBACService")?;
    search_below(alloc, place.bytes(), filter, service_attributes(alloc)?)
}

fn number_text(alloc: Global, number: u32) -> Result<Text, Memory>
    ensures { IfOk result (λ text. text ≡ decimal number) }
{
    let digits = number.to_string(alloc)?;
    Text::from_bytes(alloc, digits.as_bytes())
}

fn key_search(alloc: Global, config: &Config, key: &Key) -> Result<SearchRequest, Memory>
    ensures { IfOk result (λ request. search_value request ≡ searches.first_search config.now key.now) }
{
    let base = &config.base;
    match key {
        Key::User(name) => user_search(alloc, base, b"uid", name.bytes()),
        Key::Uid(uid) => {
            let number = number_text(alloc, *uid)?;
            user_search(alloc, base, b"uidNumber", number.bytes())
        }
        Key::Group(name) => group_search(alloc, base, b"cn", name.bytes()),
        Key::Gid(gid) => {
            let number = number_text(alloc, *gid)?;
            group_search(alloc, base, b"gidNumber", number.bytes())
        }
        Key::GroupsOf(name) => user_search(alloc, base, b"uid", name.bytes()),
        Key::Host => host_search(alloc, base, config.settings.hostname.bytes()),
        Key::Rules => rules_search(alloc, base),
    }
}

/// The first search for a key.
pub fn first_search(alloc: Global, config: &Config, key: &Key) -> Result<SearchRequest, Memory>
    ensures first { IfOk result (λ request. search_value request ≡ searches.first_search config.now key.now) }
    ensures sound { IfOk result (λ request. IsSoundSearch (search_value request)) }
{
    key_search(alloc, config, key)
}

/// The attributes that the rounds of nested groups ask for.
fn round_attributes(alloc: Global) -> Result<Texts, Memory>
    ensures { IfOk result (λ texts. texts ≡ rounds.asked_attributes) }
{
    texts_of(
        alloc,
        &[
            b"objectClass".as_slice(),
            b"uid".as_slice(),
            b"uidNumber".as_slice(),
            b"gidNumber".as_slice(),
            b"homeDirectory".as_slice(),
            b"cn".as_slice(),
            b"member".as_slice(),
        ],
    )
}

/// `(objectClass=*)`
fn any_class(alloc: Global) -> Result<Filter, Memory>
    ensures { IfOk result (λ filter. filter_value filter ≡ present (codes "objectClass")) }
{
    Ok(Filter::Present(Text::from_bytes(alloc, b"objectClass")?))
}

/// The search for the entry at a DN.
#[tactic(auto, using(crate::proofs::Requests::read_of))]
pub fn read_search(alloc: Global, dn: &Text) -> Result<SearchRequest, Memory>
    ensures read { IfOk result (λ request. search_value request ≡ rounds.read_search dn.now) }
    ensures sound { IfOk result (λ request. IsSoundSearch (search_value request)) }
{
    let filter = any_class(alloc)?;
    let attributes = round_attributes(alloc)?;
    Ok(search_in(dn.copy()?, BASE_OBJECT, filter, attributes))
}

/// `(|(objectClass=posixGroup)(objectClass=groupOfNames))`
fn group_filter(alloc: Global) -> Result<Filter, Memory>
    ensures { IfOk result (λ filter. filter_value filter ≡ rounds.group_filter) }
{
    let mut classes = Vec::new(alloc);
    classes.push(of_class(alloc, b"posixGroup")?)?;
    classes.push(of_class(alloc, b"groupOfNames")?)?;
    Ok(Filter::Or(classes))
}

fn holder_filter(alloc: Global, dn: &[u8]) -> Result<Filter, Memory>
    ensures { IfOk result (λ filter. filter_value filter ≡ (rounds.holder_search [] dn.now).filter) }
{
    let mut parts = Vec::new(alloc);
    parts.push(group_filter(alloc)?)?;
    parts.push(equality(alloc, b"member", dn)?)?;
    Ok(Filter::And(parts))
}

/// The search for the groups that hold a DN.
pub fn holder_search(alloc: Global, base: &Text, dn: &Text) -> Result<SearchRequest, Memory>
    ensures holders { IfOk result (λ request. search_value request ≡ rounds.holder_search base.now dn.now) }
    ensures sound { IfOk result (λ request. IsSoundSearch (search_value request)) }
{
    let filter = holder_filter(alloc, dn.bytes())?;
    let attributes = round_attributes(alloc)?;
    Ok(search_in(base.copy()?, WHOLE_SUBTREE, filter, attributes))
}
