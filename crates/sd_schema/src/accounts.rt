//! Users and groups.
ghost use Rattle.std.specs.Prelude.{◌≡◌, ℕ, List, [], Option, Some, None, IfOk, codes};
ghost use Rattle.std.specs.Option.{option_copied};
ghost use Rattle.sd_schema.specs.Values as values;
ghost use Rattle.sd_schema.specs.Accounts as accounts;

use crate::Unfit;
use crate::values::{filled, holds, is_among, number_at, of_class, text_of, wanted, wanted_number};
use sd_base::{Copied, Memory, Text, Texts};
use sd_conf::Config;
use sd_entry::first_value;
use sd_ldap::DirEntry;
use sd_rules::{Group, Key, User};
use std::alloc::Global;

/// What a user has to have.
#[derive(Drop)]
pub struct Account {
    pub name: Text,
    pub uid: u32,
    pub gid: u32,
    pub home: Text,
}

/// A name that one of the attribute's values is.
fn held_name<'a>(entry: &DirEntry, attribute: &[u8], name: &'a Text) -> Option<&'a Text>
    ensures { option_copied result ≡ accounts.held_name attribute.now name.now entry.now.attributes }
{
    if holds(entry, attribute, name) {
        Some(name)
    } else {
        None
    }
}

fn unless_among<'a>(filtered: &Texts, name: &'a Text) -> Option<&'a Text>
    ensures { option_copied result ≡ accounts.unfiltered filtered.now (Some name.now) }
{
    if is_among(filtered.items(), name) {
        None
    } else {
        Some(name)
    }
}

/// A name that is not kept out.
fn unfiltered<'a>(filtered: &Texts, name: Option<&'a Text>) -> Option<&'a Text>
    ensures { option_copied result ≡ accounts.unfiltered filtered.now (option_copied name.entry) }
{
    match name {
        Some(name) => unless_among(filtered, name),
        None => None,
    }
}

fn user_name<'a>(entry: &'a DirEntry, filtered: &Texts, key: &'a Key) -> Option<&'a Text>
    ensures { option_copied result ≡ accounts.user_name entry.now.attributes filtered.now key.now }
{
    match key {
        Key::User(name) => held_name(entry, b"uid", name),
        Key::Uid(_) => unfiltered(filtered, filled(entry, b"uid")),
        Key::GroupsOf(name) => held_name(entry, b"uid", name),
        Key::Group(_) => None,
        Key::Gid(_) => None,
        Key::Host => None,
        Key::Rules => None,
    }
}

/// A number that is the one asked for.
fn equal_to(asked: u32, number: Option<u32>) -> Option<u32>
    ensures { result ≡ accounts.equal_to asked number }
{
    match number {
        Some(number) if number == asked => Some(number),
        _ => None,
    }
}

fn user_number(entry: &DirEntry, key: &Key) -> Option<u32>
    ensures { result ≡ accounts.user_number entry.now.attributes key.now }
{
    match key {
        Key::Uid(uid) => equal_to(*uid, number_at(entry, b"uidNumber")),
        _ => number_at(entry, b"uidNumber"),
    }
}

fn account_of(alloc: Global, entry: &DirEntry, key: &Key, config: &Config) -> Result<Account, Unfit>
    ensures { values.Answers (λ x. x) result (accounts.account_of entry.now.attributes config.now.settings key.now) }
{
    of_class(alloc, entry, b"posixAccount")?;
    let name = wanted(
        alloc,
        b"uid",
        user_name(entry, &config.settings.filter_users, key),
    )?;
    let uid = wanted_number(alloc, b"uidNumber", user_number(entry, key))?;
    let gid = wanted_number(alloc, b"gidNumber", number_at(entry, b"gidNumber"))?;
    let home = wanted(alloc, b"homeDirectory", filled(entry, b"homeDirectory"))?;
    Ok(Account {
        name,
        uid,
        gid,
        home,
    })
}

fn user_made(alloc: Global, entry: &DirEntry, account: Account) -> Result<User, Memory>
    ensures { IfOk result (λ made. made ≡ accounts.user_made entry.now.dn entry.now.attributes account) }
{
    let Account {
        name,
        uid,
        gid,
        home,
    } = account;
    Ok(User {
        dn: entry.dn.copy()?,
        name,
        uid,
        gid,
        gecos: text_of(alloc, entry, b"gecos")?,
        home,
        shell: text_of(alloc, entry, b"loginShell")?,
    })
}

/// The user that an entry is (posixAccount, RFC 2307 section 4), where the key asks for it: by a name that is one of
/// the values of `uid`, or by its number, where its first `uid` is not in `filter_users`. A key that asks for no
/// user is refused at `uid`.
pub fn user(alloc: Global, entry: &DirEntry, key: &Key, config: &Config) -> Result<User, Unfit>
    ensures { values.Answers (λ x. x) result (accounts.fitting_user entry.now.dn entry.now.attributes config.now.settings key.now) }
{
    let account = account_of(alloc, entry, key, config)?;
    Ok(user_made(alloc, entry, account)?)
}

fn group_name<'a>(entry: &'a DirEntry, filtered: &Texts, key: &'a Key) -> Option<&'a Text>
    ensures { option_copied result ≡ accounts.group_name entry.now.attributes filtered.now key.now }
{
    match key {
        Key::Group(name) => held_name(entry, b"cn", name),
        Key::Gid(_) => unfiltered(filtered, first_value(entry, b"cn")),
        Key::User(_) => None,
        Key::Uid(_) => None,
        Key::GroupsOf(_) => None,
        Key::Host => None,
        Key::Rules => None,
    }
}

fn group_number(entry: &DirEntry, key: &Key) -> Option<u32>
    ensures { result ≡ accounts.group_number entry.now.attributes key.now }
{
    match key {
        Key::Gid(gid) => equal_to(*gid, number_at(entry, b"gidNumber")),
        _ => number_at(entry, b"gidNumber"),
    }
}

/// The group that an entry is (posixGroup, RFC 2307 section 4), where the key asks for it: by a name that is one of
/// the values of `cn`, or by its number, where its first `cn` is not in `filter_groups`. Its members are left empty.
/// A key that asks for no group is refused at `cn`.
pub fn group(alloc: Global, entry: &DirEntry, key: &Key, config: &Config) -> Result<Group, Unfit>
    ensures { values.Answers (λ x. x) result (accounts.fitting_group entry.now.dn entry.now.attributes config.now.settings key.now) }
{
    of_class(alloc, entry, b"posixGroup")?;
    let name = wanted(
        alloc,
        b"cn",
        group_name(entry, &config.settings.filter_groups, key),
    )?;
    let gid = wanted_number(alloc, b"gidNumber", group_number(entry, key))?;
    Ok(Group {
        dn: entry.dn.copy()?,
        name,
        gid,
        members: Texts::new(alloc),
    })
}
