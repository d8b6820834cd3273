//! Which entries are users.
ghost use Rattle.std.specs.Prelude.{◌≡◌, ℕ, List, Option, codes};
ghost use Rattle.sd_entry.specs.Values.{first_of};
ghost use Rattle.sd_entry.specs.Users.{is_filled, holds_number, has_user_values, is_user};

use crate::values::{first_value, has_class};
use sd_ldap::DirEntry;
use sd_pieces::read_number;

/// Whether the first value of an attribute is there and not empty.
fn is_filled(entry: &DirEntry, name: &[u8]) -> bool
    ensures { result ≡ is_filled (first_of name.now entry.now.attributes) }
{
    match first_value(entry, name) {
        Some(value) => value.bytes().len() >= 1,
        None => false,
    }
}

/// Whether the first value of an attribute is there and a number.
fn holds_number(entry: &DirEntry, name: &[u8]) -> bool
    ensures { result ≡ holds_number (first_of name.now entry.now.attributes) }
{
    match first_value(entry, name) {
        Some(value) => read_number(value.bytes()).is_some(),
        None => false,
    }
}

/// The first uid and home directory are not empty, and the first numbers are numbers.
fn has_user_values(entry: &DirEntry) -> bool
    ensures { result ≡ has_user_values entry.now.attributes }
{
    is_filled(entry, b"uid")
        && holds_number(entry, b"uidNumber")
        && holds_number(entry, b"gidNumber")
        && is_filled(entry, b"homeDirectory")
}

/// Whether an entry has the class and the attributes of a user (RFC 2307 section 4).
pub fn fits_user(entry: &DirEntry) -> bool
    ensures { result ≡ is_user entry.now.attributes }
{
    has_class(entry, b"posixAccount") && has_user_values(entry)
}
