//! Which entries fit a key, and the records that they are.
ghost use Rattle.std.specs.Prelude.{◌≡◌, ◌++◌, ℕ, List, map, filter, IfOk, OnOk};
ghost use Rattle.sd_rules.specs.declared.records.Record.TheVariants as records;
ghost use Rattle.sd_fetch.specs.Lookup.{is_fit, user_of, group_of, host_of, rule_of, service_of, fits, found_from, with_members, with_groups, listed};

use sd_base::{Memory, Shared, Texts};
use sd_conf::Config;
use sd_ldap::DirEntry;
use sd_rules::{Fetched, GroupRefs, Groups, Key, Record, RuleList, ServiceList};
use sd_schema::{Unfit, group, host, rule, service, user};
use std::alloc::Global;

fn fits_user(alloc: Global, entry: &DirEntry, key: &Key, config: &Config) -> Result<bool, Memory>
    ensures { IfOk result (λ fit. fit ≡ is_fit (user_of config.now key.now entry.now)) }
{
    match user(alloc, entry, key, config) {
        Ok(_) => Ok(true),
        Err(Unfit::Attribute(_)) => Ok(false),
        Err(Unfit::Memory) => Err(Memory),
    }
}

fn fits_group(alloc: Global, entry: &DirEntry, key: &Key, config: &Config) -> Result<bool, Memory>
    ensures { IfOk result (λ fit. fit ≡ is_fit (group_of config.now key.now entry.now)) }
{
    match group(alloc, entry, key, config) {
        Ok(_) => Ok(true),
        Err(Unfit::Attribute(_)) => Ok(false),
        Err(Unfit::Memory) => Err(Memory),
    }
}

fn fits_host(alloc: Global, entry: &DirEntry, config: &Config) -> Result<bool, Memory>
    ensures { IfOk result (λ fit. fit ≡ is_fit (host_of config.now entry.now)) }
{
    match host(alloc, entry, config) {
        Ok(_) => Ok(true),
        Err(Unfit::Attribute(_)) => Ok(false),
        Err(Unfit::Memory) => Err(Memory),
    }
}

fn fits_key(alloc: Global, entry: &DirEntry, key: &Key, config: &Config) -> Result<bool, Memory>
    ensures { IfOk result (λ fit. fit ≡ fits config.now key.now entry.now) }
{
    match key {
        Key::User(_) => fits_user(alloc, entry, key, config),
        Key::Uid(_) => fits_user(alloc, entry, key, config),
        Key::Group(_) => fits_group(alloc, entry, key, config),
        Key::Gid(_) => fits_group(alloc, entry, key, config),
        Key::GroupsOf(_) => fits_user(alloc, entry, key, config),
        Key::Host => fits_host(alloc, entry, config),
        Key::Rules => Ok(false),
    }
}

/// The entries that fit a key, in their order.
pub fn fitting<'a>(
    alloc: Global,
    entries: &'a [DirEntry],
    key: &Key,
    config: &Config,
) -> Result<Vec<&'a DirEntry>, Memory>
    ensures { IfOk result (λ those. map (λ e. e.now) those.items ≡ filter (λ e. fits config.now key.now e) entries.now) }
{
    let mut those = Vec::new(alloc);
    for entry in entries {
        if fits_key(alloc, entry, key, config)? {
            those.push(entry)?;
        }
    }
    Ok(those)
}

/// A record, as it is handed on.
pub fn found_record(alloc: Global, found: Record) -> Result<Fetched, Memory>
    ensures { IfOk result (λ fetched. fetched ≡ Fetched.Found found) }
{
    Ok(Fetched::Found(Shared::new(alloc, found)?))
}

/// A user by an entry.
pub fn user_found(
    alloc: Global,
    entry: &DirEntry,
    key: &Key,
    config: &Config,
) -> Result<Fetched, Memory>
    ensures { IfOk result (λ fetched. fetched ≡ found_from records.User (user_of config.now key.now entry.now)) }
{
    match user(alloc, entry, key, config) {
        Ok(found) => found_record(alloc, Record::User(found)),
        Err(Unfit::Attribute(_)) => Ok(Fetched::Absent),
        Err(Unfit::Memory) => Err(Memory),
    }
}

/// A group by its entry and its members.
pub fn group_found(
    alloc: Global,
    entry: &DirEntry,
    key: &Key,
    config: &Config,
    members: Texts,
) -> Result<Fetched, Memory>
    ensures { IfOk result (λ fetched. fetched ≡ found_from (with_members members) (group_of config.now key.now entry.now)) }
{
    match group(alloc, entry, key, config) {
        Ok(mut found) => {
            found.members = members;
            found_record(alloc, Record::Group(found))
        }
        Err(Unfit::Attribute(_)) => Ok(Fetched::Absent),
        Err(Unfit::Memory) => Err(Memory),
    }
}

/// The groups of a user by its entry and what they are.
pub fn groups_found(
    alloc: Global,
    entry: &DirEntry,
    key: &Key,
    config: &Config,
    groups: GroupRefs,
) -> Result<Fetched, Memory>
    ensures { IfOk result (λ fetched. fetched ≡ found_from (with_groups groups) (user_of config.now key.now entry.now)) }
{
    match user(alloc, entry, key, config) {
        Ok(found) => found_record(
            alloc,
            Record::Groups(Groups {
                user: found.into_name(),
                groups,
            }),
        ),
        Err(Unfit::Attribute(_)) => Ok(Fetched::Absent),
        Err(Unfit::Memory) => Err(Memory),
    }
}

/// The host by an entry.
pub fn host_found(alloc: Global, entry: &DirEntry, config: &Config) -> Result<Fetched, Memory>
    ensures { IfOk result (λ fetched. fetched ≡ found_from records.Host (host_of config.now entry.now)) }
{
    match host(alloc, entry, config) {
        Ok(found) => found_record(alloc, Record::Host(found)),
        Err(Unfit::Attribute(_)) => Ok(Fetched::Absent),
        Err(Unfit::Memory) => Err(Memory),
    }
}

/// Puts the access rule that an entry is, where it fits, at the end of a list.
pub fn push_rule(
    alloc: Global,
    rules: &mut RuleList,
    entry: &DirEntry,
    config: &Config,
) -> Result<(), Memory>
    ensures { OnOk result (rules.new ≡ rules.old ++ listed (rule_of config.now entry.now)) }
{
    match rule(alloc, entry, config) {
        Ok(found) => rules.push(found),
        Err(Unfit::Attribute(_)) => Ok(()),
        Err(Unfit::Memory) => Err(Memory),
    }
}

/// Puts the service that an entry is, where it fits, at the end of a list.
pub fn push_service(
    alloc: Global,
    services: &mut ServiceList,
    entry: &DirEntry,
    config: &Config,
) -> Result<(), Memory>
    ensures { OnOk result (services.new ≡ services.old ++ listed (service_of config.now entry.now)) }
{
    match service(alloc, entry, config) {
        Ok(found) => services.push(found),
        Err(Unfit::Attribute(_)) => Ok(()),
        Err(Unfit::Memory) => Err(Memory),
    }
}
