//! The distinguished names of users, groups, hosts, services and rules.
ghost use Rattle.std.specs.Prelude.{◌≡◌, ◌++◌, IfOk, OnOk, codes};
ghost use Rattle.sd_layout.specs.Names as names;

use sd_base::{Memory, Text};
use std::alloc::Global;

/// Appends bytes.
fn append(out: &mut Vec<u8>, bytes: &[u8]) -> Result<(), Memory>
    ensures { OnOk result (out.new.items ≡ out.old.items ++ bytes.now) }
{
    out.extend_from_slice(bytes)?;
    Ok(())
}

/// The bytes of two pieces.
pub fn joined(alloc: Global, front: &[u8], back: &[u8]) -> Result<Text, Memory>
    ensures { IfOk result (λ text. text ≡ front.now ++ back.now) }
{
    let mut bytes = Vec::new(alloc);
    append(&mut bytes, front)?;
    append(&mut bytes, back)?;
    Text::from_bytes(alloc, bytes.as_slice())
}

/// A place below the base.
fn below(alloc: Global, place: &[u8], base: &Text) -> Result<Text, Memory>
    ensures { IfOk result (λ text. text ≡ names.below place.now base.now) }
{
    if base.bytes().is_empty() {
        return Text::from_bytes(alloc, place);
    }
    let behind = joined(alloc, b",", base.bytes())?;
    joined(alloc, place, behind.bytes())
}

/// The name of a thing at a place.
fn leaf(
    alloc: Global,
    attribute: &[u8],
    name: &Text,
    place: &[u8],
    base: &Text,
) -> Result<Text, Memory>
    ensures { IfOk result (λ text. text ≡ names.leaf attribute.now name.now place.now base.now) }
{
    let place = below(alloc, place, base)?;
    let behind = joined(alloc, b",", place.bytes())?;
    let value = joined(alloc, name.bytes(), behind.bytes())?;
    let value = joined(alloc, b"=", value.bytes())?;
    joined(alloc, attribute, value.bytes())
}

/// The DN of a user below a base.
pub fn user_dn(alloc: Global, base: &Text, name: &Text) -> Result<Text, Memory>
    ensures { IfOk result (λ dn. dn ≡ names.user_dn base.now name.now) }
{
    leaf(alloc, b"uid", name, b"cn=users,cn=accounts", base)
}

/// The DN of a group below a base.
pub fn group_dn(alloc: Global, base: &Text, name: &Text) -> Result<Text, Memory>
    ensures { IfOk result (λ dn. dn ≡ names.group_dn base.now name.now) }
{
    leaf(alloc, b"cn", name, b"cn=groups,cn=accounts", base)
}

/// The DN of a host below a base.
pub fn host_dn(alloc: Global, base: &Text, name: &Text) -> Result<Text, Memory>
    ensures { IfOk result (λ dn. dn ≡ names.host_dn base.now name.now) }
{
    leaf(alloc, b"fqdn", name, b"cn=computers,cn=accounts", base)
}

/// The DN of a host group below a base.
pub fn host_group_dn(alloc: Global, base: &Text, name: &Text) -> Result<Text, Memory>
    ensures { IfOk result (λ dn. dn ≡ names.host_group_dn base.now name.now) }
{
    leaf(alloc, b"cn", name, b"cn=hostgroups,cn=accounts", base)
}

/// The DN of a service below a base.
pub fn service_dn(alloc: Global, base: &Text, name: &Text) -> Result<Text, Memory>
    ensures { IfOk result (λ dn. dn ≡ names.service_dn base.now name.now) }
{
    leaf(alloc, b"cn", name, b"cn=hbacservices,cn=hbac", base)
}

/// The DN of a service group below a base.
pub fn service_group_dn(alloc: Global, base: &Text, name: &Text) -> Result<Text, Memory>
    ensures { IfOk result (λ dn. dn ≡ names.service_group_dn base.now name.now) }
{
    leaf(alloc, b"cn", name, b"cn=hbacservicegroups,cn=hbac", base)
}

/// The DN of an access rule below a base.
pub fn rule_dn(alloc: Global, base: &Text, name: &Text) -> Result<Text, Memory>
    ensures { IfOk result (λ dn. dn ≡ names.rule_dn base.now name.now) }
{
    leaf(alloc, b"cn", name, b"cn=hbac", base)
}
