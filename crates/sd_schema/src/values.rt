//! What the attributes of an entry hold, beyond what `sd_entry` reads.
ghost use Rattle.std.specs.Prelude.{◌≡◌, ℕ, List, Option, Some, None, Err, codes, IfOk, IfErr};
ghost use Rattle.std.specs.Option.{option_copied};
ghost use Rattle.std.specs.List.{list_any, find};
ghost use Rattle.sd_rules.specs.Keys.{same_name};
ghost use Rattle.sd_dn.specs.Comparing as comparing;
ghost use Rattle.sd_entry.specs.Values.{first_of};
ghost use Rattle.sd_entry.specs.Values as entries;
ghost use Rattle.sd_schema.specs.Values as values;

use crate::Unfit;
use sd_base::{Copied, Memory, Text};
use sd_dn::compare::same_text;
use sd_entry::{first_value, has_class, read_number};
use sd_ldap::{Attribute, DirEntry};
use std::alloc::Global;

/// The refusal of an attribute.
pub fn unfit(alloc: Global, name: &[u8]) -> Unfit
    ensures { values.IsUnfit result name.now }
{
    match Text::from_bytes(alloc, name) {
        Ok(name) => Unfit::Attribute(name),
        Err(Memory) => Unfit::Memory,
    }
}

/// Refuses an entry that is not of a class.
pub fn of_class(alloc: Global, entry: &DirEntry, class: &[u8]) -> Result<(), Unfit>
    ensures { values.Answers (λ x. x) result (values.of_class class.now entry.now.attributes) }
{
    if !has_class(entry, class) {
        return Err(unfit(alloc, b"objectClass"));
    }
    Ok(())
}

/// A copy of a text that an attribute has to hold.
pub fn wanted(alloc: Global, name: &[u8], text: Option<&Text>) -> Result<Text, Unfit>
    ensures { values.Answers (λ x. x) result (values.wanted name.now (option_copied text.entry)) }
{
    match text {
        Some(text) => Ok(text.copy()?),
        None => Err(unfit(alloc, name)),
    }
}

/// A number that an attribute has to hold.
pub fn wanted_number(alloc: Global, name: &[u8], number: Option<u32>) -> Result<u32, Unfit>
    ensures { values.Answers (λ x. x) result (values.wanted name.now number) }
{
    match number {
        Some(number) => Ok(number),
        None => Err(unfit(alloc, name)),
    }
}

/// Whether one of the texts is this, byte for byte.
pub fn is_among(texts: &[Text], text: &Text) -> bool
    ensures { result ≡ list_any (λ value. same_name value text.now) texts.now }
{
    texts.iter().any(|value| value == text)
}

fn own_holds(attribute: &Attribute, name: &[u8], text: &Text) -> bool
    ensures { result ≡ values.own_holds name.now text.now attribute.now }
{
    same_text(attribute.name.bytes(), name) && is_among(attribute.values.items(), text)
}

fn any_holds(attributes: &[Attribute], name: &[u8], text: &Text) -> bool
    ensures { result ≡ values.holds name.now text.now attributes.now }
{
    attributes
        .iter()
        .any(|attribute| own_holds(attribute, name, text))
}

/// Whether an attribute of an entry has this value, byte for byte.
pub fn holds(entry: &DirEntry, name: &[u8], text: &Text) -> bool
    ensures { result ≡ values.holds name.now text.now entry.now.attributes }
{
    any_holds(entry.attributes.items(), name, text)
}

fn like_among<'a>(texts: &'a [Text], text: &[u8]) -> Option<&'a Text>
    ensures { option_copied result ≡ find (λ value. comparing.same_text value text.now) texts.now }
{
    texts.iter().find(|value| same_text(value.bytes(), text))
}

fn own_like<'a>(attribute: &'a Attribute, name: &[u8], text: &[u8]) -> Option<&'a Text>
    ensures { option_copied result ≡ values.own_like name.now text.now attribute.now }
{
    if !same_text(attribute.name.bytes(), name) {
        return None;
    }
    like_among(attribute.values.items(), text)
}

fn first_among<'a>(attributes: &'a [Attribute], name: &[u8], text: &[u8]) -> Option<&'a Text>
    ensures { option_copied result ≡ values.first_like name.now text.now attributes.now }
{
    for attribute in attributes {
        if let Some(first) = own_like(attribute, name, text) {
            return Some(first);
        }
    }
    None
}

/// The first value of an attribute that is this text without ASCII case.
pub fn first_like<'a>(entry: &'a DirEntry, name: &[u8], text: &[u8]) -> Option<&'a Text>
    ensures { option_copied result ≡ values.first_like name.now text.now entry.now.attributes }
{
    first_among(entry.attributes.items(), name, text)
}

/// The first value of an attribute, where it is not empty.
pub fn filled<'a>(entry: &'a DirEntry, name: &[u8]) -> Option<&'a Text>
    ensures { option_copied result ≡ values.filled (first_of name.now entry.now.attributes) }
{
    match first_value(entry, name) {
        Some(value) if !value.bytes().is_empty() => Some(value),
        _ => None,
    }
}

/// The first value of an attribute, where it is a number.
pub fn number_at(entry: &DirEntry, name: &[u8]) -> Option<u32>
    ensures { result ≡ values.number_at name.now entry.now.attributes }
{
    match first_value(entry, name) {
        Some(value) => read_number(value.bytes()),
        None => None,
    }
}

/// The first value of an attribute, or the empty text.
pub fn text_of(alloc: Global, entry: &DirEntry, name: &[u8]) -> Result<Text, Memory>
    ensures { IfOk result (λ text. text ≡ values.text_of (first_of name.now entry.now.attributes)) }
{
    match first_value(entry, name) {
        Some(value) => value.copy(),
        None => Text::from_bytes(alloc, &[]),
    }
}

/// Whether the first value of an attribute is this text without ASCII case.
pub fn is_like(entry: &DirEntry, name: &[u8], text: &[u8]) -> bool
    ensures { result ≡ values.is_like text.now (first_of name.now entry.now.attributes) }
{
    match first_value(entry, name) {
        Some(value) => same_text(value.bytes(), text),
        None => false,
    }
}

fn any_like(texts: &[Text], text: &[u8]) -> bool
    ensures { result ≡ entries.has_text text.now texts.now }
{
    texts.iter().any(|value| same_text(value.bytes(), text))
}

fn own_says(attribute: &Attribute, name: &[u8], text: &[u8]) -> bool
    ensures { result ≡ entries.own_says name.now text.now attribute.now }
{
    same_text(attribute.name.bytes(), name) && any_like(attribute.values.items(), text)
}

fn any_says(attributes: &[Attribute], name: &[u8], text: &[u8]) -> bool
    ensures { result ≡ entries.says name.now text.now attributes.now }
{
    attributes
        .iter()
        .any(|attribute| own_says(attribute, name, text))
}

/// Whether a value of an attribute is this text without ASCII case.
pub fn says(entry: &DirEntry, name: &[u8], text: &[u8]) -> bool
    ensures { result ≡ entries.says name.now text.now entry.now.attributes }
{
    any_says(entry.attributes.items(), name, text)
}
