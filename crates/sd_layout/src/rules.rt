//! The entries of access rules.
ghost use Rattle.std.specs.Prelude.{◌≡◌, ◌++◌, [], ◌∷◌, IfOk, OnOk, codes};
ghost use Rattle.sd_layout.specs.Entries as entries;

use crate::entries::{push_bytes, push_filled, push_text};
use crate::names::{
    group_dn, host_dn, host_group_dn, rule_dn, service_dn, service_group_dn, user_dn,
};
use sd_base::{Memory, Text, Texts};
use sd_ldap::{Attributes, DirEntry};
use sd_lines::{Item, Kind, RuleLine, Side, Whom};
use std::alloc::Global;

fn category_name(side: Side) -> &'static [u8]
    ensures { result.now ≡ entries.category_name side }
{
    match side {
        Side::User => b"userCategory",
        Side::Host => b"hostCategory",
        Side::Service => b"serviceCategory",
    }
}

fn member_name(side: Side) -> &'static [u8]
    ensures { result.now ≡ entries.member_name side }
{
    match side {
        Side::User => b"memberUser",
        Side::Host => b"memberHost",
        Side::Service => b"memberService",
    }
}

/// The DN of what a side is about.
fn thing_dn(alloc: Global, base: &Text, side: Side, name: &Text) -> Result<Text, Memory>
    ensures { IfOk result (λ dn. dn ≡ entries.thing_dn base.now side name.now) }
{
    match side {
        Side::User => user_dn(alloc, base, name),
        Side::Host => host_dn(alloc, base, name),
        Side::Service => service_dn(alloc, base, name),
    }
}

/// The DN of a group of what a side is about.
fn things_dn(alloc: Global, base: &Text, side: Side, name: &Text) -> Result<Text, Memory>
    ensures { IfOk result (λ dn. dn ≡ entries.things_dn base.now side name.now) }
{
    match side {
        Side::User => group_dn(alloc, base, name),
        Side::Host => host_group_dn(alloc, base, name),
        Side::Service => service_group_dn(alloc, base, name),
    }
}

fn is_side(a: Side, b: Side) -> bool
    ensures { result ≡ entries.is_side a b }
{
    a == b
}

/// Appends `all`, where a condition meets all of its side.
fn push_category(alloc: Global, values: &mut Texts, whom: &Whom) -> Result<(), Memory>
    ensures { OnOk result (values.new ≡ values.old ++ entries.with_category whom.now []) }
{
    match whom {
        Whom::All => values.push(Text::from_bytes(alloc, b"all")?),
        _ => Ok(()),
    }
}

/// The values of the category of a side.
fn categories(alloc: Global, side: Side, items: &[Item]) -> Result<Texts, Memory>
    ensures { IfOk result (λ values. values ≡ entries.categories side items.now) }
{
    let mut values = Texts::new(alloc);
    for item in items {
        if is_side(side, item.side) {
            push_category(alloc, &mut values, &item.whom)?;
        }
    }
    Ok(values)
}

/// Appends the DN that a condition names.
fn push_named(
    alloc: Global,
    base: &Text,
    side: Side,
    values: &mut Texts,
    whom: &Whom,
) -> Result<(), Memory>
    ensures { OnOk result (values.new ≡ values.old ++ entries.with_member base.now side whom.now []) }
{
    match whom {
        Whom::All => Ok(()),
        Whom::Name(name) => values.push(thing_dn(alloc, base, side, name)?),
        Whom::Group(name) => values.push(things_dn(alloc, base, side, name)?),
    }
}

/// The DNs that the conditions of a side name.
fn named(alloc: Global, base: &Text, side: Side, items: &[Item]) -> Result<Texts, Memory>
    ensures { IfOk result (λ values. values ≡ entries.named base.now side items.now) }
{
    let mut values = Texts::new(alloc);
    for item in items {
        if is_side(side, item.side) {
            push_named(alloc, base, side, &mut values, &item.whom)?;
        }
    }
    Ok(values)
}

/// Appends the attributes of a side.
fn push_side(
    alloc: Global,
    base: &Text,
    attributes: &mut Attributes,
    side: Side,
    items: &[Item],
) -> Result<(), Memory>
    ensures { OnOk result (attributes.new ≡ attributes.old ++ entries.side_attributes base.now side items.now) }
{
    let all = categories(alloc, side, items)?;
    push_filled(alloc, attributes, category_name(side), all)?;
    let some = named(alloc, base, side, items)?;
    push_filled(alloc, attributes, member_name(side), some)
}

fn flag_of(is_enabled: bool) -> &'static [u8]
    ensures { result.now ≡ entries.flag_of is_enabled }
{
    if is_enabled { b"TRUE" } else { b"FALSE" }
}

/// The entry of an access rule below a base.
pub fn rule_entry(alloc: Global, base: &Text, line: &RuleLine) -> Result<DirEntry, Memory>
    ensures { IfOk result (λ entry. entry ≡ entries.rule_entry base.now line.now) }
{
    let items = line.items.items();
    let flag = flag_of(line.is_enabled);
    let mut attributes = Attributes::new(alloc);
    push_bytes(alloc, &mut attributes, b"objectClass", b"ipaHBACRule")?;
    push_text(alloc, &mut attributes, b"cn", &line.name)?;
    push_bytes(alloc, &mut attributes, b"ipaEnabledFlag", flag)?;
    push_bytes(alloc, &mut attributes, b"accessRuleType", b"allow")?;
    push_side(alloc, base, &mut attributes, Side::User, items)?;
    push_side(alloc, base, &mut attributes, Side::Host, items)?;
    push_side(alloc, base, &mut attributes, Side::Service, items)?;
    Ok(DirEntry {
        dn: rule_dn(alloc, base, &line.name)?,
        attributes,
    })
}

/// The DN of the entry of a kind and a name, below a base.
pub fn dn_of(alloc: Global, base: &Text, kind: Kind, name: &Text) -> Result<Text, Memory>
    ensures { IfOk result (λ dn. dn ≡ entries.dn_of base.now kind name.now) }
{
    match kind {
        Kind::User => user_dn(alloc, base, name),
        Kind::Group => group_dn(alloc, base, name),
        Kind::Host => host_dn(alloc, base, name),
        Kind::Service => service_dn(alloc, base, name),
        Kind::Rule => rule_dn(alloc, base, name),
    }
}
