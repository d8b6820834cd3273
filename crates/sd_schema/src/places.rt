//! Places of the directory (FreeIPA's tree), and the things that DNs name there.
ghost use Rattle.std.specs.Prelude.{◌≡◌, ℕ, List, [], ◌++◌, Option, Some, None, IfOk, OnOk, codes};
ghost use Rattle.std.specs.Option.{option_copied};
ghost use Rattle.sd_schema.specs.Places as places;

use sd_base::{Memory, Text, Texts};
use sd_dn::compare::same_text;
use sd_dn::{Dn, DnFault, leaf_under, read_dn};
use sd_ldap::{Attribute, DirEntry};
use std::alloc::Global;

/// Where things of one sort lie.
#[derive(Clone, Copy, PartialEq, Eq)]
pub enum Place {
    Users,
    Groups,
    Hosts,
    HostGroups,
    Services,
    ServiceGroups,
}

/// The place, without the search base behind it.
fn front_of(place: Place) -> &'static [u8]
    ensures { result.now ≡ places.front_of place }
{
    match place {
        Place::Users => b"cn=users,cn=accounts",
        Place::Groups => b"cn=groups,cn=accounts",
        Place::Hosts => b"cn=computers,cn=accounts",
        Place::HostGroups => b"cn=hostgroups,cn=accounts",
        Place::Services => b"cn=hbacservices,cn=hbac",
        Place::ServiceGroups => b"cn=hbacservicegroups,cn=hbac",
    }
}

/// The attribute that names things there.
fn naming_of(place: Place) -> &'static [u8]
    ensures { result.now ≡ places.naming_of place }
{
    match place {
        Place::Users => b"uid",
        Place::Groups => b"cn",
        Place::Hosts => b"fqdn",
        Place::HostGroups => b"cn",
        Place::Services => b"cn",
        Place::ServiceGroups => b"cn",
    }
}

/// A place's text at a search base.
fn at_base(alloc: Global, front: &[u8], base: &[u8]) -> Result<Vec<u8>, Memory>
    ensures { IfOk result (λ text. text.items ≡ places.at_base front.now base.now) }
{
    let mut text = Vec::from_slice(alloc, front)?;
    if !base.is_empty() {
        text.push(b',')?;
        text.extend_from_slice(base)?;
    }
    Ok(text)
}

/// The DN that a text is, where it is one.
fn dn_in(alloc: Global, text: &[u8]) -> Result<Option<Dn>, Memory>
    ensures { IfOk result (λ dn. dn ≡ places.dn_in text.now) }
{
    match read_dn(alloc, text) {
        Ok(dn) => Ok(Some(dn)),
        Err(DnFault::BadDn(_place)) => Ok(None),
        Err(DnFault::Memory) => Err(Memory),
    }
}

fn place_in(alloc: Global, base: &[u8], place: Place) -> Result<Option<Dn>, Memory>
    ensures { IfOk result (λ dn. dn ≡ places.place_in base.now place) }
{
    let text = at_base(alloc, front_of(place), base)?;
    dn_in(alloc, text.as_slice())
}

fn leaf_name(alloc: Global, dn: &Dn, container: &Dn, naming: &[u8]) -> Result<Option<Text>, Memory>
    ensures { IfOk result (λ name. name ≡ places.named_leaf naming.now (places.leaf_in container.now (Some dn.now))) }
{
    match leaf_under(dn, container) {
        Some(leaf) if same_text(leaf.name, naming) => {
            Ok(Some(Text::from_bytes(alloc, leaf.value)?))
        }
        _ => Ok(None),
    }
}

/// The name of the thing that a DN names, directly under a place.
fn named(alloc: Global, container: &Dn, naming: &[u8], text: &[u8]) -> Result<Option<Text>, Memory>
    ensures { IfOk result (λ name. name ≡ places.named container.now naming.now text.now) }
{
    match dn_in(alloc, text)? {
        Some(dn) => leaf_name(alloc, &dn, container, naming),
        None => Ok(None),
    }
}

fn push_name(names: &mut Texts, name: Option<Text>) -> Result<(), Memory>
    ensures { OnOk result (names.new ≡ names.old ++ places.with_name name []) }
{
    match name {
        Some(name) => names.push(name),
        None => Ok(()),
    }
}

fn push_names(
    alloc: Global,
    names: &mut Texts,
    container: &Dn,
    naming: &[u8],
    values: &[Text],
) -> Result<(), Memory>
    ensures { OnOk result (names.new ≡ names.old ++ places.names_of container.now naming.now values.now) }
{
    for value in values {
        let name = named(alloc, container, naming, value.bytes())?;
        push_name(names, name)?;
    }
    Ok(())
}

fn push_own(
    alloc: Global,
    names: &mut Texts,
    container: &Dn,
    naming: &[u8],
    name: &[u8],
    attribute: &Attribute,
) -> Result<(), Memory>
    ensures { OnOk result (names.new ≡ names.old ++ places.own_names container.now naming.now name.now attribute.now) }
{
    if !same_text(attribute.name.bytes(), name) {
        return Ok(());
    }
    push_names(alloc, names, container, naming, attribute.values.items())
}

fn names_under(
    alloc: Global,
    container: &Dn,
    naming: &[u8],
    name: &[u8],
    attributes: &[Attribute],
) -> Result<Texts, Memory>
    ensures { IfOk result (λ names. names ≡ places.names_under container.now naming.now name.now attributes.now) }
{
    let mut names = Texts::new(alloc);
    for attribute in attributes {
        push_own(alloc, &mut names, container, naming, name, attribute)?;
    }
    Ok(names)
}

/// The names of the things at a place that the values of an attribute name.
pub fn names_at(
    alloc: Global,
    base: &Text,
    place: Place,
    name: &[u8],
    entry: &DirEntry,
) -> Result<Texts, Memory>
    ensures { IfOk result (λ names. names ≡ places.names_at base.now place name.now entry.now.attributes) }
{
    match place_in(alloc, base.bytes(), place)? {
        Some(container) => names_under(
            alloc,
            &container,
            naming_of(place),
            name,
            entry.attributes.items(),
        ),
        None => Ok(Texts::new(alloc)),
    }
}
