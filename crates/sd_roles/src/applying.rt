// Whether a sudo rule applies to a user.
ghost use Rattle.std.specs.Prelude.{◌≡◌, ◌==◌, true};
ghost use Rattle.std.specs.List.{list_any, list_all};
ghost use Rattle.sd_entry.specs.Values as values;
ghost use Rattle.sd_roles.specs.Applying as applying;

use crate::roles::Role;
use sd_base::{Numbers, Texts};
use sd_entry::read_number;
use sd_rules::User;

/// Who asks for rules.
pub struct Asker {
    pub user: User,
    /// The numbers of the user's groups, the own one among them.
    pub gids: Numbers,
    /// The names of these groups.
    pub groups: Texts,
}

impl Drop for Asker {
    fn drop(self) {
        let Asker {
            user: _,
            gids: _,
            groups: _,
        } = self;
    }
}

/// The names of the netgroups in which the user stands.
pub type Nets = Texts;

fn is_digit(byte: u8) -> bool
    ensures { result ≡ values.is_digit byte }
{
    b'0' <= byte && byte <= b'9'
}

fn are_digits(digits: &[u8]) -> bool
    ensures { result ≡ list_all values.is_digit digits.now }
{
    digits.iter().all(|byte| is_digit(*byte))
}

/// Whether a text is one to ten digits.
fn is_id(digits: &[u8]) -> bool
    ensures { result ≡ applying.is_id digits.now }
{
    1 <= digits.len() && digits.len() <= 10 && are_digits(digits)
}

/// Whether one to ten digits stand for a number.
fn is_number(digits: &[u8], number: u32) -> bool
    requires { applying.is_id digits.now ≡ true }
    ensures { result ≡ (number == values.value_of digits.now) }
{
    match read_number(digits) {
        Some(read) => number == read,
        None => false,
    }
}

fn has(names: &Texts, name: &[u8]) -> bool
    ensures { result ≡ applying.has names.now name.now }
{
    names.items().iter().any(|other| name == other.bytes())
}

/// Whether one of the numbers is that of one to ten digits.
fn has_number(numbers: &Numbers, digits: &[u8]) -> bool
    requires { applying.is_id digits.now ≡ true }
    ensures { result ≡ list_any (λ number. number == values.value_of digits.now) numbers.now }
{
    numbers
        .items()
        .iter()
        .any(|number| is_number(digits, *number))
}

/// What stands behind a `%`: whether it names one of the asker's groups.
fn names_group(asker: &Asker, text: &[u8]) -> bool
    ensures { result ≡ applying.names_group asker.now text.now }
{
    let [first, rest @ ..] = text else {
        return has(&asker.groups, text);
    };
    if *first == b'#' && is_id(rest) {
        return has_number(&asker.gids, rest);
    }
    if *first == b':' {
        return false;
    }
    has(&asker.groups, text)
}

fn names_by_sign(asker: &Asker, nets: &Nets, value: &[u8]) -> bool
    ensures { result ≡ applying.names_by_sign asker.now nets.now value.now }
{
    let [first, rest @ ..] = value else {
        return value == asker.user.name.bytes();
    };
    if *first == b'#' && is_id(rest) {
        return is_number(rest, asker.user.uid);
    }
    if *first == b'%' {
        return names_group(asker, rest);
    }
    if *first == b'+' {
        return has(nets, rest);
    }
    value == asker.user.name.bytes()
}

/// Whether a value names the asker.
fn names(asker: &Asker, nets: &Nets, value: &[u8]) -> bool
    ensures { result ≡ applying.names asker.now nets.now value.now }
{
    if value == b"ALL".as_slice() {
        return true;
    }
    names_by_sign(asker, nets, value)
}

/// Whether a value without a leading `!` names the asker.
fn grants(asker: &Asker, nets: &Nets, value: &[u8]) -> bool
    ensures { result ≡ applying.grants asker.now nets.now value.now }
{
    match value {
        [b'!', ..] => false,
        _ => names(asker, nets, value),
    }
}

/// Whether a value is `!` and a text that names the asker.
fn refuses(asker: &Asker, nets: &Nets, value: &[u8]) -> bool
    ensures { result ≡ applying.refuses asker.now nets.now value.now }
{
    match value {
        [b'!', text @ ..] => names(asker, nets, text),
        _ => false,
    }
}

fn is_granted(users: &Texts, asker: &Asker, nets: &Nets) -> bool
    ensures { result ≡ list_any (applying.grants asker.now nets.now) users.now }
{
    for value in users.items() {
        if grants(asker, nets, value.bytes()) {
            return true;
        }
    }
    false
}

fn is_refused(users: &Texts, asker: &Asker, nets: &Nets) -> bool
    ensures { result ≡ list_any (applying.refuses asker.now nets.now) users.now }
{
    for value in users.items() {
        if refuses(asker, nets, value.bytes()) {
            return true;
        }
    }
    false
}

/// Whether a rule applies: a value names the asker, and none refuses by `!`. It takes no memory.
pub fn applies(role: &Role, asker: &Asker, nets: &Nets) -> bool
    ensures { result ≡ applying.applies role.now asker.now nets.now }
{
    is_granted(&role.users, asker, nets) && !is_refused(&role.users, asker, nets)
}
