//! What entries are called, and what groups say of their members.
ghost use Rattle.std.specs.Prelude.{◌≡◌, ◌++◌, ℕ, List, Option, OnOk, codes};
ghost use Rattle.std.specs.Option.{option_copied};
ghost use Rattle.sd_entry.specs.Values.{first_of};
ghost use Rattle.sd_nested.specs.Named.{is_group, own_members, member_values, group_values, number_from, called, group_ref};
ghost use Rattle.sd_nested.specs.Directions.{user_ref};

use sd_base::{Copied, Memory, Text, Texts};
use sd_dn::compare::same_text;
use sd_entry::{first_value, fits_user, has_class, read_number};
use sd_ldap::{Attribute, DirEntry};
use sd_rules::{GroupRef, GroupRefs};

/// Whether an entry is a group (RFC 2307 section 4, RFC 4519 section 3.5).
fn is_group(entry: &DirEntry) -> bool
    ensures { result ≡ is_group entry.now.attributes }
{
    has_class(entry, b"posixGroup") || has_class(entry, b"groupOfNames")
}

fn push_all(texts: &mut Texts, more: &[Text]) -> Result<(), Memory>
    ensures { OnOk result (texts.new ≡ texts.old ++ more.now) }
{
    for text in more {
        texts.push(text.copy()?)?;
    }
    Ok(())
}

fn push_own_members(values: &mut Texts, attribute: &Attribute) -> Result<(), Memory>
    ensures { OnOk result (values.new ≡ values.old ++ own_members attribute.now) }
{
    if !same_text(attribute.name.bytes(), b"member") {
        return Ok(());
    }
    push_all(values, attribute.values.items())
}

fn push_members(values: &mut Texts, attributes: &[Attribute]) -> Result<(), Memory>
    ensures { OnOk result (values.new ≡ values.old ++ member_values attributes.now) }
{
    for attribute in attributes {
        push_own_members(values, attribute)?;
    }
    Ok(())
}

/// Puts the member values of a group at the end of a list.
pub fn push_group_values(values: &mut Texts, entry: &DirEntry) -> Result<(), Memory>
    ensures { OnOk result (values.new ≡ values.old ++ group_values entry.now) }
{
    if !is_group(entry) {
        return Ok(());
    }
    push_members(values, entry.attributes.items())
}

fn push_called(refs: &mut GroupRefs, name: Option<&Text>, gid: Option<u32>) -> Result<(), Memory>
    ensures { OnOk result (refs.new ≡ refs.old ++ called (option_copied name.entry) gid) }
{
    match name {
        Some(name) => refs.push(GroupRef {
            name: name.copy()?,
            gid,
        }),
        None => Ok(()),
    }
}

/// Puts a user's name at the end of a list.
pub fn push_user(refs: &mut GroupRefs, entry: &DirEntry) -> Result<(), Memory>
    ensures { OnOk result (refs.new ≡ refs.old ++ user_ref entry.now) }
{
    if !fits_user(entry) {
        return Ok(());
    }
    push_called(refs, first_value(entry, b"uid"), None)
}

/// The first number of a group, where it is one.
fn first_gid(entry: &DirEntry) -> Option<u32>
    ensures { result ≡ number_from (first_of (codes "gidNumber") entry.now.attributes) }
{
    match first_value(entry, b"gidNumber") {
        Some(text) => read_number(text.bytes()),
        None => None,
    }
}

/// Puts a group's name and number at the end of a list.
pub fn push_group(refs: &mut GroupRefs, entry: &DirEntry) -> Result<(), Memory>
    ensures { OnOk result (refs.new ≡ refs.old ++ group_ref entry.now) }
{
    let Some(name) = first_value(entry, b"cn") else {
        return Ok(());
    };
    if name.bytes().is_empty() {
        return Ok(());
    }
    push_called(refs, Some(name), first_gid(entry))
}
