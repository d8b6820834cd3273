// Sudo rules, read from entries.
ghost use Rattle.std.specs.Prelude.{◌≡◌, ◌++◌, ◌<◌, ◌^◌, ◌∷◌, [], IfOk, IfSome, OnOk, Some, None, Err};
ghost use Rattle.std.specs.Option.{option_copied};
ghost use Rattle.sd_roles.specs.Roles as roles;

use sd_base::{Copied, Memory, Text, Texts};
use sd_dn::compare::same_text;
use sd_entry::{first_value, has_class, read_number};
use sd_ldap::{Attribute, Attributes, DirEntry};
use std::alloc::Global;

/// A sudo rule.
pub struct Role {
    pub name: Text,
    /// Rules of a greater order come later. 0 where the entry has none that is a number of one to nine digits.
    pub order: i32,
    /// The values of `sudoUser`.
    pub users: Texts,
    /// What sudo itself judges: hosts, commands, users and groups to run as, options, with all their values.
    pub handed: Attributes,
}

impl Drop for Role {
    fn drop(self) {
        let Role {
            name: _,
            order: _,
            users: _,
            handed: _,
        } = self;
    }
}

/// Why an entry is no rule.
#[derive(Clone, Copy, PartialEq, Eq)]
pub enum RoleFault {
    /// It is not of class `sudoRole`, or its first `cn` is missing or empty.
    Unfit,
    Memory,
}

impl From<Memory> for RoleFault {
    ghost use Rattle.std.specs.Prelude.{◌≡◌};
    ghost use Rattle.sd_roles.specs.declared.roles.RoleFault.TheVariants as faults;

    ghost from_gives = { λ _ fault. fault ≡ faults.Memory };

    fn from(_error: Memory) -> RoleFault {
        RoleFault::Memory
    }
}

/// A number of one to nine digits.
fn small_number(digits: &[u8]) -> Option<u32>
    ensures value { result ≡ roles.small_number digits.now }
    ensures small { IfSome result (λ n. n < 2 ^ 31) }
{
    if digits.len() > 9 {
        return None;
    }
    match read_number(digits) {
        Some(number) => {
            if number <= 999_999_999 {
                Some(number)
            } else {
                None
            }
        }
        None => None,
    }
}

fn above(number: Option<u32>) -> i32
    requires { IfSome number (λ n. n < 2 ^ 31) }
    ensures { result ≡ roles.above number }
{
    match number {
        Some(number) => number as i32,
        None => 0,
    }
}

fn below(number: Option<u32>) -> i32
    requires { IfSome number (λ n. n < 2 ^ 31) }
    ensures { result ≡ roles.below number }
{
    match number {
        Some(number) => 0 - number as i32,
        None => 0,
    }
}

/// An order: an optional `-` and one to nine digits, else 0.
fn order_in(text: &[u8]) -> i32
    ensures { result ≡ roles.order_in text.now }
{
    match text {
        [] => 0,
        [first, digits @ ..] => {
            if *first == b'-' {
                below(small_number(digits))
            } else {
                above(small_number(text))
            }
        }
    }
}

fn order_of(text: Option<&Text>) -> i32
    ensures { result ≡ roles.order_of (option_copied text.entry) }
{
    match text {
        Some(text) => order_in(text.bytes()),
        None => 0,
    }
}

/// Appends the values of an attribute, where it has the name.
fn push_own(values: &mut Texts, attribute: &Attribute, name: &[u8]) -> Result<(), Memory>
    ensures { OnOk result (values.new ≡ values.old ++ roles.own_values name.now attribute.now) }
{
    if !same_text(attribute.name.bytes(), name) {
        return Ok(());
    }
    for value in attribute.values.items() {
        values.push(value.copy()?)?;
    }
    Ok(())
}

/// All values of the attributes of a name, which is compared without ASCII case.
fn values_of(alloc: Global, entry: &DirEntry, name: &[u8]) -> Result<Texts, Memory>
    ensures { IfOk result (λ values. values ≡ roles.values_of name.now entry.now.attributes) }
{
    let mut values = Texts::new(alloc);
    for attribute in entry.attributes.items() {
        push_own(&mut values, attribute, name)?;
    }
    Ok(values)
}

/// Appends an attribute of this name with all its values.
fn push_handed(
    alloc: Global,
    handed: &mut Attributes,
    entry: &DirEntry,
    name: &[u8],
) -> Result<(), Memory>
    ensures { OnOk result (handed.new ≡ handed.old ++ roles.handed_as name.now entry.now.attributes ∷ []) }
{
    let values = values_of(alloc, entry, name)?;
    let name = Text::from_bytes(alloc, name)?;
    handed.push(Attribute { name, values })
}

fn handed_of(alloc: Global, entry: &DirEntry) -> Result<Attributes, Memory>
    ensures { IfOk result (λ handed. handed ≡ roles.handed_of entry.now.attributes) }
{
    let mut handed = Attributes::new(alloc);
    push_handed(alloc, &mut handed, entry, b"sudoHost")?;
    push_handed(alloc, &mut handed, entry, b"sudoCommand")?;
    push_handed(alloc, &mut handed, entry, b"sudoRunAsUser")?;
    push_handed(alloc, &mut handed, entry, b"sudoRunAsGroup")?;
    push_handed(alloc, &mut handed, entry, b"sudoOption")?;
    Ok(handed)
}

/// The rule of this name that an entry has.
fn role_named(alloc: Global, entry: &DirEntry, name: &Text) -> Result<Role, Memory>
    ensures { IfOk result (λ role. role ≡ roles.role_named entry.now name.now) }
{
    Ok(Role {
        name: name.copy()?,
        order: order_of(first_value(entry, b"sudoOrder")),
        users: values_of(alloc, entry, b"sudoUser")?,
        handed: handed_of(alloc, entry)?,
    })
}

/// Reads a sudo rule.
pub fn read_role(alloc: Global, entry: &DirEntry) -> Result<Role, RoleFault>
    ensures ok { IfOk result (λ role. roles.role_of entry.now ≡ Some role) }
    ensures unfit { result ≡ Err RoleFault.Unfit → roles.role_of entry.now ≡ None }
{
    if !has_class(entry, b"sudoRole") {
        return Err(RoleFault::Unfit);
    }
    let Some(name) = first_value(entry, b"cn") else {
        return Err(RoleFault::Unfit);
    };
    if name.bytes().is_empty() {
        return Err(RoleFault::Unfit);
    }
    Ok(role_named(alloc, entry, name)?)
}
