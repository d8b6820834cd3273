//! The entries that lines put.
ghost use Rattle.std.specs.Prelude.{◌≡◌, ◌++◌, [], ◌∷◌, IfOk, OnOk, codes};
ghost use Rattle.std.specs.Fmt.{decimal};
ghost use Rattle.sd_layout.specs.Entries as entries;

use crate::names::{
    group_dn, host_dn, host_group_dn, joined, service_dn, service_group_dn, user_dn,
};
use sd_base::{Copied, Memory, Text, Texts};
use sd_ldap::{Attribute, Attributes, DirEntry};
use sd_lines::{GroupLine, HostLine, Member, ServiceLine, UserLine};
use std::alloc::Global;

/// Appends an attribute.
pub fn push_values(
    alloc: Global,
    attributes: &mut Attributes,
    name: &[u8],
    values: Texts,
) -> Result<(), Memory>
    ensures { OnOk result (attributes.new ≡ attributes.old ++ entries.attribute name.now values ∷ []) }
{
    attributes.push(Attribute {
        name: Text::from_bytes(alloc, name)?,
        values,
    })
}

/// Appends an attribute, unless it has no value.
pub fn push_filled(
    alloc: Global,
    attributes: &mut Attributes,
    name: &[u8],
    values: Texts,
) -> Result<(), Memory>
    ensures { OnOk result (attributes.new ≡ attributes.old ++ entries.filled name.now values) }
{
    if values.is_empty() {
        return Ok(());
    }
    push_values(alloc, attributes, name, values)
}

/// Appends an attribute of one value.
pub fn push_value(
    alloc: Global,
    attributes: &mut Attributes,
    name: &[u8],
    value: Text,
) -> Result<(), Memory>
    ensures { OnOk result (attributes.new ≡ attributes.old ++ entries.single name.now value ∷ []) }
{
    let mut values = Texts::new(alloc);
    values.push(value)?;
    push_values(alloc, attributes, name, values)
}

/// Appends an attribute of one value, which is these bytes.
pub fn push_bytes(
    alloc: Global,
    attributes: &mut Attributes,
    name: &[u8],
    value: &[u8],
) -> Result<(), Memory>
    ensures { OnOk result (attributes.new ≡ attributes.old ++ entries.single name.now value.now ∷ []) }
{
    push_value(alloc, attributes, name, Text::from_bytes(alloc, value)?)
}

/// Appends an attribute of one value, which is a number in decimal.
pub fn push_number(
    alloc: Global,
    attributes: &mut Attributes,
    name: &[u8],
    number: u32,
) -> Result<(), Memory>
    ensures { OnOk result (attributes.new ≡ attributes.old ++ entries.single name.now (decimal number) ∷ []) }
{
    let digits = number.to_string(alloc)?;
    push_bytes(alloc, attributes, name, digits.as_bytes())
}

/// Appends an attribute of one value, which is this text.
pub fn push_text(
    alloc: Global,
    attributes: &mut Attributes,
    name: &[u8],
    value: &Text,
) -> Result<(), Memory>
    ensures { OnOk result (attributes.new ≡ attributes.old ++ entries.single name.now value.now ∷ []) }
{
    push_value(alloc, attributes, name, value.copy()?)
}

/// Appends a password, where there is one.
pub fn push_password(
    alloc: Global,
    attributes: &mut Attributes,
    password: &Option<Text>,
) -> Result<(), Memory>
    ensures { OnOk result (attributes.new ≡ attributes.old ++ entries.password_of password.now) }
{
    match password {
        Some(password) => push_text(alloc, attributes, b"userPassword", password),
        None => Ok(()),
    }
}

/// The entry of a user below a base.
pub fn user_entry(alloc: Global, base: &Text, line: &UserLine) -> Result<DirEntry, Memory>
    ensures { IfOk result (λ entry. entry ≡ entries.user_entry base.now line.now) }
{
    let name = &line.name;
    let mut attributes = Attributes::new(alloc);
    push_bytes(alloc, &mut attributes, b"objectClass", b"posixAccount")?;
    push_text(alloc, &mut attributes, b"uid", name)?;
    push_text(alloc, &mut attributes, b"cn", name)?;
    push_number(alloc, &mut attributes, b"uidNumber", line.uid)?;
    push_number(alloc, &mut attributes, b"gidNumber", line.gid)?;
    let home = joined(alloc, b"/home/", name.bytes())?;
    push_value(alloc, &mut attributes, b"homeDirectory", home)?;
    push_bytes(alloc, &mut attributes, b"loginShell", b"/bin/sh")?;
    push_password(alloc, &mut attributes, &line.password)?;
    Ok(DirEntry {
        dn: user_dn(alloc, base, name)?,
        attributes,
    })
}

fn member_dn(alloc: Global, base: &Text, member: &Member) -> Result<Text, Memory>
    ensures { IfOk result (λ dn. dn ≡ entries.member_dn base.now member.now) }
{
    match member {
        Member::User(name) => user_dn(alloc, base, name),
        Member::Group(name) => group_dn(alloc, base, name),
    }
}

/// The DNs of a group's members.
fn member_dns(alloc: Global, base: &Text, members: &[Member]) -> Result<Texts, Memory>
    ensures { IfOk result (λ dns. dns ≡ entries.member_dns base.now members.now) }
{
    let mut dns = Texts::new(alloc);
    for member in members {
        dns.push(member_dn(alloc, base, member)?)?;
    }
    Ok(dns)
}

/// The classes of a group.
fn group_classes(alloc: Global) -> Result<Texts, Memory>
    ensures { IfOk result (λ classes. classes ≡ codes "posixGroup" ∷ codes "groupOfNames" ∷ []) }
{
    let mut classes = Texts::new(alloc);
    classes.push(Text::from_bytes(alloc, b"posixGroup")?)?;
    classes.push(Text::from_bytes(alloc, b"groupOfNames")?)?;
    Ok(classes)
}

/// The entry of a group below a base.
pub fn group_entry(alloc: Global, base: &Text, line: &GroupLine) -> Result<DirEntry, Memory>
    ensures { IfOk result (λ entry. entry ≡ entries.group_entry base.now line.now) }
{
    let mut attributes = Attributes::new(alloc);
    push_values(
        alloc,
        &mut attributes,
        b"objectClass",
        group_classes(alloc)?,
    )?;
    push_text(alloc, &mut attributes, b"cn", &line.name)?;
    push_number(alloc, &mut attributes, b"gidNumber", line.gid)?;
    let members = member_dns(alloc, base, line.members.items())?;
    push_filled(alloc, &mut attributes, b"member", members)?;
    Ok(DirEntry {
        dn: group_dn(alloc, base, &line.name)?,
        attributes,
    })
}

/// The DNs of host groups.
fn host_group_dns(alloc: Global, base: &Text, names: &[Text]) -> Result<Texts, Memory>
    ensures { IfOk result (λ dns. dns ≡ entries.host_group_dns base.now names.now) }
{
    let mut dns = Texts::new(alloc);
    for name in names {
        dns.push(host_group_dn(alloc, base, name)?)?;
    }
    Ok(dns)
}

/// The entry of a host below a base.
pub fn host_entry(alloc: Global, base: &Text, line: &HostLine) -> Result<DirEntry, Memory>
    ensures { IfOk result (λ entry. entry ≡ entries.host_entry base.now line.now) }
{
    let mut attributes = Attributes::new(alloc);
    push_bytes(alloc, &mut attributes, b"objectClass", b"ipaHost")?;
    push_text(alloc, &mut attributes, b"fqdn", &line.name)?;
    let groups = host_group_dns(alloc, base, line.groups.items())?;
    push_filled(alloc, &mut attributes, b"memberOf", groups)?;
    Ok(DirEntry {
        dn: host_dn(alloc, base, &line.name)?,
        attributes,
    })
}

/// The DNs of service groups.
fn service_group_dns(alloc: Global, base: &Text, names: &[Text]) -> Result<Texts, Memory>
    ensures { IfOk result (λ dns. dns ≡ entries.service_group_dns base.now names.now) }
{
    let mut dns = Texts::new(alloc);
    for name in names {
        dns.push(service_group_dn(alloc, base, name)?)?;
    }
    Ok(dns)
}

/// The entry of a service below a base.
pub fn service_entry(alloc: Global, base: &Text, line: &ServiceLine) -> Result<DirEntry, Memory>
    ensures { IfOk result (λ entry. entry ≡ entries.service_entry base.now line.now) }
{
    let mut attributes = Attributes::new(alloc);
    push_bytes(alloc, &mut attributes, b"objectClass", b"ipaHBACService")?;
    push_text(alloc, &mut attributes, b"cn", &line.name)?;
    let groups = service_group_dns(alloc, base, line.groups.items())?;
    push_filled(alloc, &mut attributes, b"memberOf", groups)?;
    Ok(DirEntry {
        dn: service_dn(alloc, base, &line.name)?,
        attributes,
    })
}
