//! Whether a value is one that a filter asks for.
ghost use Rattle.std.specs.Prelude.{◌≡◌, ℕ, List, Bool, Option, length, codes};
ghost use Rattle.sd_ldap.specs.Filters.{filter_value};
ghost use Rattle.sd_match.specs.Matching.{passes, holds_dns, holds_numbers, equal_dns, equal_numbers, equals, bytes_up_to, up_to};

use crate::numbers::{are_digits, is_short_number, same_number, value_of};
use crate::substrings::is_composed;
use sd_dn::compare::same_text;
use sd_dn::{same_dn_text, spells_dn};
use sd_ldap::Filter;

/// Whether a filter of one attribute asks for this value.
pub fn passes(filter: &Filter, value: &[u8]) -> bool
    ensures { result ≡ passes (filter_value filter.now) value.now }
{
    match filter {
        Filter::And(_) => false,
        Filter::Or(_) => false,
        Filter::Not(_) => false,
        Filter::Equal(name, asked) => equals(name.bytes(), asked.bytes(), value),
        Filter::Substrings(_, initial, any, last) => is_composed(initial, any.items(), last, value),
        Filter::AtLeast(_, asked) => up_to(asked.bytes(), value),
        Filter::AtMost(_, asked) => up_to(value, asked.bytes()),
        Filter::Present(_) => true,
        Filter::Unsupported => false,
    }
}

/// Whether the values of an attribute are DNs.
fn holds_dns(name: &[u8]) -> bool
    ensures { result ≡ holds_dns name.now }
{
    same_text(name, b"member")
        || same_text(name, b"memberOf")
        || same_text(name, b"memberUser")
        || same_text(name, b"memberHost")
        || same_text(name, b"memberService")
}

/// Whether the values of an attribute are numbers.
fn holds_numbers(name: &[u8]) -> bool
    ensures { result ≡ holds_numbers name.now }
{
    same_text(name, b"uidNumber") || same_text(name, b"gidNumber")
}

fn equal_dns(a: &[u8], b: &[u8]) -> bool
    ensures { result ≡ equal_dns a.now b.now }
{
    if spells_dn(a) && spells_dn(b) {
        return same_dn_text(a, b);
    }
    same_text(a, b)
}

fn equal_numbers(a: &[u8], b: &[u8]) -> bool
    ensures { result ≡ equal_numbers a.now b.now }
{
    if are_digits(a) && are_digits(b) {
        return same_number(a, b);
    }
    same_text(a, b)
}

/// Whether a value of an attribute equals the one asked for.
fn equals(name: &[u8], asked: &[u8], value: &[u8]) -> bool
    ensures { result ≡ equals name.now asked.now value.now }
{
    if holds_dns(name) {
        return equal_dns(value, asked);
    }
    if holds_numbers(name) {
        return equal_numbers(value, asked);
    }
    same_text(value, asked)
}

/// Whether a text is not behind another, byte for byte.
fn bytes_up_to(a: &[u8], b: &[u8]) -> bool
    ensures { result ≡ bytes_up_to a.now b.now }
{
    for place in 0..a.len() {
        if place >= b.len() {
            return false;
        }
        if a[place] > b[place] {
            return false;
        }
        if a[place] < b[place] {
            return true;
        }
    }
    true
}

/// Whether a value is not above another.
fn up_to(a: &[u8], b: &[u8]) -> bool
    ensures { result ≡ up_to a.now b.now }
{
    if is_short_number(a) && is_short_number(b) {
        return value_of(a) <= value_of(b);
    }
    bytes_up_to(a, b)
}
