//! Messages as bytes.
ghost use Rattle.std.specs.Prelude.{◌≡◌, ◌≤◌, ◌<◌, ℕ, List, [], ◌∷◌, ◌++◌, length, OnOk, IfOk, Err};
ghost use Rattle.sd_ber.specs.Octets.{element};
ghost use Rattle.sd_ldap.specs.Values.{search_value, operation_value, message_value};
ghost use Rattle.sd_ldap.specs.Spelling.{octets_of, number_bytes, text_bytes, truth_bytes, inside, texts_bytes, attribute_bytes, attributes_bytes, entry_bytes, result_bytes, optional_bytes, pieces_bytes, pair_bytes, filter_bytes, filters_bytes, span_bytes, bounds_bytes, search_bytes, operation_contents, operation_tag, operation_bytes, content_bytes, message_bytes};
ghost use Rattle.sd_ldap.specs.Sound.{IsSound};

use crate::entry::{Attribute, DirEntry};
use crate::filter_writing::put_filter;
use crate::message::{Message, Operation, SearchRequest};
use crate::result::LdapResult;
use sd_base::{Memory, Text};
use sd_ber::write_tlv;
use std::alloc::Global;

/// A number in the fewest octets that keep its sign (X.690 section 8.3).
#[tactic(auto, unfolding(crate::specs::Spelling::number_bytes))]
fn put_number(out: &mut Vec<u8>, tag: u8, n: u32) -> Result<(), Memory>
    ensures { OnOk result (out.new.items ≡ out.old.items ++ number_bytes tag n) }
{
    let [a, b, c, d] = n.to_be_bytes();
    let octets = [0, a, b, c, d];
    if n < 0x80 {
        return write_tlv(out, tag, &octets[4..]);
    }
    if n < 0x8000 {
        return write_tlv(out, tag, &octets[3..]);
    }
    if n < 0x80_0000 {
        return write_tlv(out, tag, &octets[2..]);
    }
    if n < 0x8000_0000 {
        return write_tlv(out, tag, &octets[1..]);
    }
    write_tlv(out, tag, &octets)
}

#[tactic(auto, unfolding(crate::specs::Spelling::text_bytes))]
pub fn put_text(out: &mut Vec<u8>, tag: u8, text: &Text) -> Result<(), Memory>
    ensures { OnOk result (out.new.items ≡ out.old.items ++ text_bytes tag text.now) }
{
    write_tlv(out, tag, text.bytes())
}

#[tactic(auto, unfolding(crate::specs::Spelling::truth_bytes))]
fn put_truth(out: &mut Vec<u8>, truth: bool) -> Result<(), Memory>
    ensures { OnOk result (out.new.items ≡ out.old.items ++ truth_bytes truth) }
{
    if truth {
        return write_tlv(out, 1, &[0xff]);
    }
    write_tlv(out, 1, &[0])
}

#[tactic(auto, unfolding(crate::specs::Spelling::inside))]
pub fn put_inside(out: &mut Vec<u8>, tag: u8, contents: &[u8]) -> Result<(), Memory>
    ensures { OnOk result (out.new.items ≡ out.old.items ++ inside tag contents.now) }
{
    write_tlv(out, tag, contents)
}

pub fn put_texts(out: &mut Vec<u8>, tag: u8, texts: &[Text]) -> Result<(), Memory>
    ensures { OnOk result (out.new.items ≡ out.old.items ++ texts_bytes tag texts.now) }
{
    for text in texts {
        put_text(out, tag, text)?;
    }
    Ok(())
}

fn put_attribute(alloc: Global, out: &mut Vec<u8>, attribute: &Attribute) -> Result<(), Memory>
    ensures { OnOk result (out.new.items ≡ out.old.items ++ attribute_bytes attribute.now) }
{
    let mut values = Vec::new(alloc);
    put_texts(&mut values, 4, attribute.values.items())?;
    let mut contents = Vec::new(alloc);
    put_text(&mut contents, 4, &attribute.name)?;
    put_inside(&mut contents, 0x31, &values)?;
    put_inside(out, 0x30, &contents)
}

fn put_attributes(alloc: Global, out: &mut Vec<u8>, attributes: &[Attribute]) -> Result<(), Memory>
    ensures { OnOk result (out.new.items ≡ out.old.items ++ attributes_bytes attributes.now) }
{
    for attribute in attributes {
        put_attribute(alloc, out, attribute)?;
    }
    Ok(())
}

fn put_entry(alloc: Global, out: &mut Vec<u8>, entry: &DirEntry) -> Result<(), Memory>
    ensures { OnOk result (out.new.items ≡ out.old.items ++ entry_bytes entry.now) }
{
    let mut attributes = Vec::new(alloc);
    put_attributes(alloc, &mut attributes, entry.attributes.items())?;
    put_text(out, 4, &entry.dn)?;
    put_inside(out, 0x30, &attributes)
}

fn put_result(out: &mut Vec<u8>, told: &LdapResult) -> Result<(), Memory>
    ensures { OnOk result (out.new.items ≡ out.old.items ++ result_bytes told.now) }
{
    put_number(out, 10, told.code)?;
    put_text(out, 4, &told.dn)?;
    put_text(out, 4, &told.message)
}

/// Where a search begins, how far it goes, and how aliases are followed.
fn put_span(out: &mut Vec<u8>, request: &SearchRequest) -> Result<(), Memory>
    ensures { OnOk result (out.new.items ≡ out.old.items ++ span_bytes request.now.base request.now.scope request.now.deref) }
{
    put_text(out, 4, &request.base)?;
    put_number(out, 10, u32::from(request.scope))?;
    put_number(out, 10, u32::from(request.deref))
}

/// How many entries, how many seconds, and whether without values.
fn put_bounds(out: &mut Vec<u8>, request: &SearchRequest) -> Result<(), Memory>
    ensures { OnOk result (out.new.items ≡ out.old.items ++ bounds_bytes request.now.size request.now.time request.now.types_only) }
{
    put_number(out, 2, request.size)?;
    put_number(out, 2, request.time)?;
    put_truth(out, request.types_only)
}

fn put_search(alloc: Global, out: &mut Vec<u8>, request: &SearchRequest) -> Result<(), Memory>
    ensures { OnOk result (out.new.items ≡ out.old.items ++ search_bytes (search_value request.now)) }
{
    let mut attributes = Vec::new(alloc);
    put_texts(&mut attributes, 4, request.attributes.items())?;
    put_span(out, request)?;
    put_bounds(out, request)?;
    put_filter(alloc, out, &request.filter)?;
    put_inside(out, 0x30, &attributes)
}

fn put_bind(out: &mut Vec<u8>, version: u8, name: &Text, password: &Text) -> Result<(), Memory>
    ensures { OnOk result (out.new.items ≡ out.old.items ++ (number_bytes 2 version ++ (text_bytes 4 name.now ++ text_bytes 128 password.now))) }
{
    put_number(out, 2, u32::from(version))?;
    put_text(out, 4, name)?;
    put_text(out, 0x80, password)
}

/// The tag of an operation, whose contents are put at the end.
fn put_contents(alloc: Global, out: &mut Vec<u8>, operation: &Operation) -> Result<u8, Memory>
    ensures { IfOk result (λ tag. (out.new.items ≡ out.old.items ++ operation_contents (operation_value operation.now)) × (tag ≡ operation_tag (operation_value operation.now))) }
{
    match operation {
        Operation::BindRequest(version, name, password) => {
            put_bind(out, *version, name, password)?;
            Ok(0x60)
        }
        Operation::BindResponse(told) => {
            put_result(out, told)?;
            Ok(0x61)
        }
        Operation::Unbind => Ok(0x42),
        Operation::Search(request) => {
            put_search(alloc, out, request)?;
            Ok(0x63)
        }
        Operation::Entry(entry) => {
            put_entry(alloc, out, entry)?;
            Ok(0x64)
        }
        Operation::Done(told) => {
            put_result(out, told)?;
            Ok(0x65)
        }
        Operation::Reference => Ok(0x73),
        Operation::Other(tag) => Ok(*tag),
    }
}

fn put_operation(alloc: Global, out: &mut Vec<u8>, operation: &Operation) -> Result<(), Memory>
    ensures { OnOk result (out.new.items ≡ out.old.items ++ operation_bytes (operation_value operation.now)) }
{
    let mut contents = Vec::new(alloc);
    let tag = put_contents(alloc, &mut contents, operation)?;
    put_inside(out, tag, &contents)
}

/// The contents of a message.
pub fn contents(alloc: Global, message: &Message) -> Result<Vec<u8>, Memory>
    ensures { IfOk result (λ v. v.items ≡ content_bytes (message_value message.now)) }
{
    let mut out = Vec::new(alloc);
    put_number(&mut out, 2, message.id)?;
    put_operation(alloc, &mut out, &message.operation)?;
    Ok(out)
}

/// The bytes of a message of these contents.
pub fn framed(alloc: Global, contents: &[u8]) -> Result<Vec<u8>, Memory>
    ensures { IfOk result (λ v. v.items ≡ inside 48 contents.now) }
{
    let mut out = Vec::new(alloc);
    put_inside(&mut out, 0x30, contents)?;
    Ok(out)
}
