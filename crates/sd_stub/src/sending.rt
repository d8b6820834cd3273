//! What is sent of an entry.
ghost use Rattle.std.specs.Prelude.{◌≡◌, ℕ, Bool, List, [], not, ◌&&◌, ◌||◌, ◌++◌, map, filter, codes, IfOk, OnOk};
ghost use Rattle.std.specs.List.{list_any};
ghost use Rattle.sd_dn.specs.Comparing.{same_text};
ghost use Rattle.sd_ldap.specs.declared.entry.Attribute.{Attribute};
ghost use Rattle.sd_ldap.specs.Values.{search_value};
ghost use Rattle.sd_match.specs.Answering.{asks_for_all, is_asked, is_sent, sent_values, sent_attribute, sent_attributes, sent};

use crate::binding::{is_among, is_password};
use sd_base::{Copied, Memory, Text, Texts};
use sd_dn::compare::same_text;
use sd_ldap::{Attribute, Attributes, DirEntry, SearchRequest};
use std::alloc::Global;

fn asks_for_all(asked: &[Text]) -> bool
    ensures { result ≡ asks_for_all asked.now }
{
    asked.is_empty() || is_among(asked, b"*")
}

fn names(asked: &[Text], name: &[u8]) -> bool
    ensures { result ≡ list_any (λ text. same_text text name.now) asked.now }
{
    asked.iter().any(|text| same_text(text.bytes(), name))
}

fn is_sent(asked: &[Text], attribute: &Attribute) -> bool
    ensures { result ≡ is_sent asked.now attribute.now }
{
    !is_password(attribute) && (asks_for_all(asked) || names(asked, attribute.name.bytes()))
}

fn sent_values(alloc: Global, types_only: bool, values: &Texts) -> Result<Texts, Memory>
    ensures { IfOk result (λ made. made ≡ sent_values types_only values.now) }
{
    if types_only {
        return Ok(Texts::new(alloc));
    }
    values.copy()
}

fn sent_attribute(
    alloc: Global,
    types_only: bool,
    attribute: &Attribute,
) -> Result<Attribute, Memory>
    ensures { IfOk result (λ made. made ≡ sent_attribute types_only attribute.now) }
{
    Ok(Attribute {
        name: attribute.name.copy()?,
        values: sent_values(alloc, types_only, &attribute.values)?,
    })
}

fn sent_attributes(
    alloc: Global,
    request: &SearchRequest,
    attributes: &[Attribute],
) -> Result<Attributes, Memory>
    ensures { IfOk result (λ made. made ≡ sent_attributes request.now.types_only request.now.attributes attributes.now) }
{
    let mut sent = Attributes::new(alloc);
    for attribute in attributes {
        if is_sent(request.attributes.items(), attribute) {
            sent.push(sent_attribute(alloc, request.types_only, attribute)?)?;
        }
    }
    Ok(sent)
}

/// The attributes that a search asks for, in the entry's order and spelling.
pub fn sent(alloc: Global, request: &SearchRequest, entry: &DirEntry) -> Result<DirEntry, Memory>
    ensures { IfOk result (λ made. made ≡ sent (search_value request.now) entry.now) }
{
    Ok(DirEntry {
        dn: entry.dn.copy()?,
        attributes: sent_attributes(alloc, request, entry.attributes.items())?,
    })
}
