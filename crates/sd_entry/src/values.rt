//! What an entry's attributes hold. Names and classes are compared without ASCII case.
ghost use Rattle.std.specs.Prelude.{◌≡◌, ℕ, List, Option, codes};
ghost use Rattle.std.specs.Option.{option_copied};
ghost use Rattle.sd_entry.specs.Values.{own_first, first_of, has_text, own_says, says, has_class};

use sd_base::Text;
use sd_dn::compare::same_text;
use sd_ldap::{Attribute, DirEntry};

/// The first value of an attribute, where it has this name.
fn own_first<'a>(attribute: &'a Attribute, name: &[u8]) -> Option<&'a Text>
    ensures { option_copied result ≡ own_first name.now attribute.now }
{
    if !same_text(attribute.name.bytes(), name) {
        return None;
    }
    attribute.values.get(0)
}

fn first_among<'a>(attributes: &'a [Attribute], name: &[u8]) -> Option<&'a Text>
    ensures { option_copied result ≡ first_of name.now attributes.now }
{
    for attribute in attributes {
        if let Some(first) = own_first(attribute, name) {
            return Some(first);
        }
    }
    None
}

/// The first value of an attribute of an entry.
pub fn first_value<'a>(entry: &'a DirEntry, name: &[u8]) -> Option<&'a Text>
    ensures { option_copied result ≡ first_of name.now entry.now.attributes }
{
    first_among(entry.attributes.items(), name)
}

fn has_text(values: &[Text], text: &[u8]) -> bool
    ensures { result ≡ has_text text.now values.now }
{
    values.iter().any(|value| same_text(value.bytes(), text))
}

fn own_says(attribute: &Attribute, name: &[u8], text: &[u8]) -> bool
    ensures { result ≡ own_says name.now text.now attribute.now }
{
    same_text(attribute.name.bytes(), name) && has_text(attribute.values.items(), text)
}

fn says(attributes: &[Attribute], name: &[u8], text: &[u8]) -> bool
    ensures { result ≡ says name.now text.now attributes.now }
{
    attributes
        .iter()
        .any(|attribute| own_says(attribute, name, text))
}

/// Whether an entry is of a class.
pub fn has_class(entry: &DirEntry, class: &[u8]) -> bool
    ensures { result ≡ has_class class.now entry.now.attributes }
{
    says(entry.attributes.items(), b"objectClass", class)
}
