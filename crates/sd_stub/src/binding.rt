//! Binds.
ghost use Rattle.std.specs.Prelude.{◌≡◌, ℕ, Bool, List, Option, ◌&&◌, codes, slice_get, IfOk};
ghost use Rattle.std.specs.List.{list_any};
ghost use Rattle.std.specs.Cmp.Lexicographic.{pointwise};
ghost use Rattle.sd_dn.specs.Comparing.{same_dn};
ghost use Rattle.sd_dn.specs.Texts.{spelled, both_meet, same_dn_text};
ghost use Rattle.sd_match.specs.Answering.{same_bytes, is_password, has_password, is_right, bind_code};
ghost use Rattle.sd_ldap.specs.declared.entry.DirEntry.{DirEntry};
ghost use Rattle.sd_places.specs.Covers.{at_slot, passes_at, present};
ghost use Rattle.sd_places.specs.Naming.{AreNamed};

use sd_base::{Memory, Text};
use sd_dn::compare::same_text;
use sd_dn::{Dn, spelled};
use sd_ldap::{Attribute, DirEntry};
use sd_places::{Names, Placed, place_of};
use std::alloc::Global;

pub fn is_password(attribute: &Attribute) -> bool
    ensures { result ≡ is_password attribute.now }
{
    same_text(attribute.name.bytes(), b"userPassword")
}

/// Whether a text is among others, byte for byte.
pub fn is_among(values: &[Text], text: &[u8]) -> bool
    ensures { result ≡ list_any (λ value. same_bytes value text.now) values.now }
{
    values.iter().any(|value| value.bytes() == text)
}

fn holds_password(attribute: &Attribute, password: &[u8]) -> bool
    ensures { result ≡ (is_password attribute.now && list_any (λ value. same_bytes value password.now) attribute.now.values) }
{
    is_password(attribute) && is_among(attribute.values.items(), password)
}

fn has_password(entry: &DirEntry, password: &[u8]) -> bool
    ensures { result ≡ has_password password.now entry.now }
{
    entry
        .attributes
        .items()
        .iter()
        .any(|attribute| holds_password(attribute, password))
}

fn accepts(placed: &Placed, name: &Option<Dn>, password: &[u8]) -> bool
    ensures { result ≡ (both_meet same_dn (spelled placed.now.dn) name.now && has_password password.now placed.now) }
{
    placed.is_named(name) && has_password(placed.entry(), password)
}

fn accepts_at(slots: &[Option<Placed>], place: usize, name: &Option<Dn>, password: &[u8]) -> bool
    ensures { result ≡ passes_at (λ (e : DirEntry). both_meet same_dn (spelled e.dn) name.now && has_password password.now e) (at_slot slots.now place) }
{
    match slots.get(place) {
        Some(Some(placed)) => accepts(placed, name, password),
        _ => false,
    }
}

/// Whether a password is right for the entry of a DN.
#[tactic(auto, using(sd_places::proofs::Slots::right_alone, sd_places::proofs::Slots::right_nowhere))]
fn is_right(
    alloc: Global,
    slots: &[Option<Placed>],
    names: &Names,
    name: &Option<Dn>,
    password: &[u8],
) -> Result<bool, Memory>
    requires { AreNamed names.now.entries slots.now }
    ensures { IfOk result (λ is. is ≡ list_any (λ (e : DirEntry). both_meet same_dn (spelled e.dn) name.now && has_password password.now e) (present slots.now)) }
{
    match place_of(alloc, slots, names, name)? {
        Some(place) => Ok(accepts_at(slots, place, name, password)),
        None => Ok(false),
    }
}

/// The result code of a simple bind.
pub fn bind_code(
    alloc: Global,
    slots: &[Option<Placed>],
    names: &Names,
    name: &Text,
    password: &Text,
) -> Result<u32, Memory>
    requires { AreNamed names.now.entries slots.now }
    ensures { IfOk result (λ code. code ≡ bind_code (present slots.now) name.now password.now) }
{
    if password.bytes().is_empty() {
        return Ok(if name.bytes().is_empty() { 0 } else { 53 });
    }
    let dn = spelled(alloc, name.bytes())?;
    if is_right(alloc, slots, names, &dn, password.bytes())? {
        return Ok(0);
    }
    Ok(49)
}
