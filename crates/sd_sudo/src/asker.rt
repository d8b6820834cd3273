//! Who asks: a user, and the groups that the user is in.
ghost use Rattle.std.specs.Prelude.{◌≡◌, ◌⊎◌, ◌++◌, ◌∷◌, IfOk, IfErr, OnOk};
ghost use Rattle.std.specs.Option.{option_copied};
ghost use Rattle.sd_rules.specs.declared.keys.Key.TheVariants as keys;
ghost use Rattle.sd_places.specs.Keeping.{kept};
ghost use Rattle.sd_sudo.specs.Listing.{listed};
ghost use Rattle.sd_sudo.specs.Lookups.{HaltsBy, Meets, Passes};
ghost use Rattle.sd_sudo.specs.Askers as askers;

use crate::lookups::{Halt, look_up};
use sd_base::{Copied, Memory, Numbers, Shared, Text, Texts};
use sd_conf::Config;
use sd_ldap::DirEntry;
use sd_roles::Asker;
use sd_rules::{Group, GroupRefs, Key, Record, User};
use std::alloc::Global;

fn record_in(found: Option<&Shared<Record>>) -> Option<&Record>
    ensures { option_copied result ≡ option_copied found.entry }
{
    match found {
        Some(found) => Some(found.value()),
        None => None,
    }
}

fn user_in(found: Option<&Record>) -> Result<Option<User>, Memory>
    ensures { IfOk result (λ user. user ≡ askers.user_in (option_copied found.entry)) }
{
    match found {
        Some(Record::User(user)) => Ok(Some(user.copy()?)),
        _ => Ok(None),
    }
}

fn groups_in(alloc: Global, found: Option<&Record>) -> Result<GroupRefs, Memory>
    ensures { IfOk result (λ groups. groups ≡ askers.groups_in (option_copied found.entry)) }
{
    match found {
        Some(Record::Groups(groups)) => groups.groups.copy(),
        _ => Ok(GroupRefs::new(alloc)),
    }
}

fn group_in(found: Option<&Record>) -> Result<Option<Group>, Memory>
    ensures { IfOk result (λ group. group ≡ askers.group_in (option_copied found.entry)) }
{
    match found {
        Some(Record::Group(group)) => Ok(Some(group.copy()?)),
        _ => Ok(None),
    }
}

/// The one user of a name.
pub fn user_named(
    alloc: Global,
    config: &Config,
    entries: &[DirEntry],
    name: &Text,
) -> Result<Option<User>, Halt>
    ensures user { IfOk result (λ user. Passes config.now (kept entries.now) (keys.User name.now) × (user ≡ askers.user_named config.now (kept entries.now) name.now)) }
    ensures halt { IfErr result (λ halt. HaltsBy halt (Meets config.now (kept entries.now) (keys.User name.now))) }
{
    let key = Key::User(name.copy()?);
    let found = look_up(alloc, config, entries, &key)?;
    let user = user_in(record_in(found.as_ref()))?;
    Ok(user)
}

/// The groups that the user of a name is in by paths of members.
fn groups_of(
    alloc: Global,
    config: &Config,
    entries: &[DirEntry],
    name: &Text,
) -> Result<GroupRefs, Halt>
    ensures groups { IfOk result (λ groups. Passes config.now (kept entries.now) (keys.GroupsOf name.now) × (groups ≡ askers.groups_of config.now (kept entries.now) name.now)) }
    ensures halt { IfErr result (λ halt. HaltsBy halt (Meets config.now (kept entries.now) (keys.GroupsOf name.now))) }
{
    let key = Key::GroupsOf(name.copy()?);
    let found = look_up(alloc, config, entries, &key)?;
    let groups = groups_in(alloc, record_in(found.as_ref()))?;
    Ok(groups)
}

/// The one group of a number.
fn group_of(
    alloc: Global,
    config: &Config,
    entries: &[DirEntry],
    gid: u32,
) -> Result<Option<Group>, Halt>
    ensures group { IfOk result (λ group. Passes config.now (kept entries.now) (keys.Gid gid) × (group ≡ askers.group_of config.now (kept entries.now) gid)) }
    ensures halt { IfErr result (λ halt. HaltsBy halt (Meets config.now (kept entries.now) (keys.Gid gid))) }
{
    let found = look_up(alloc, config, entries, &Key::Gid(gid))?;
    let group = group_in(record_in(found.as_ref()))?;
    Ok(group)
}

fn push_number(numbers: &mut Numbers, number: Option<u32>) -> Result<(), Memory>
    ensures { OnOk result (numbers.new ≡ numbers.old ++ listed number) }
{
    match number {
        Some(number) => numbers.push(number),
        None => Ok(()),
    }
}

/// The user's own number, and those of the groups that have one.
fn gids_with(alloc: Global, own: u32, groups: &GroupRefs) -> Result<Numbers, Memory>
    ensures { IfOk result (λ gids. gids ≡ askers.gids_with own groups.now) }
{
    let mut gids = Numbers::new(alloc);
    gids.push(own)?;
    for group in groups.items() {
        push_number(&mut gids, group.gid)?;
    }
    Ok(gids)
}

fn push_name(names: &mut Texts, group: Option<Group>) -> Result<(), Memory>
    ensures { OnOk result (names.new ≡ names.old ++ askers.name_of group) }
{
    match group {
        Some(group) => names.push(group.into_name()),
        None => Ok(()),
    }
}

fn names_of(alloc: Global, groups: &GroupRefs) -> Result<Texts, Memory>
    ensures { IfOk result (λ names. names ≡ askers.names_of groups.now) }
{
    let mut names = Texts::new(alloc);
    for group in groups.items() {
        names.push(group.name.copy()?)?;
    }
    Ok(names)
}

/// The names of the groups, and that of the user's own group.
fn names_with(alloc: Global, groups: &GroupRefs, own: Option<Group>) -> Result<Texts, Memory>
    ensures { IfOk result (λ names. names ≡ askers.names_with groups.now own) }
{
    let mut names = names_of(alloc, groups)?;
    push_name(&mut names, own)?;
    Ok(names)
}

fn asker_with(
    alloc: Global,
    user: User,
    groups: &GroupRefs,
    own: Option<Group>,
) -> Result<Asker, Memory>
    ensures { IfOk result (λ asker. asker ≡ askers.asker_with user groups.now own) }
{
    let gids = gids_with(alloc, user.gid, groups)?;
    let groups = names_with(alloc, groups, own)?;
    Ok(Asker { user, gids, groups })
}

#[tactic(auto, using(crate::proofs::Halts::groups_halt, crate::proofs::Halts::group_halt))]
/// The user of a name as the one who asks: with the groups by paths of members, and the own one where there is one
/// group of its number.
pub fn asker_of(
    alloc: Global,
    config: &Config,
    entries: &[DirEntry],
    name: &Text,
    user: User,
) -> Result<Asker, Halt>
    ensures groups { IfOk result (λ asker. Passes config.now (kept entries.now) (keys.GroupsOf name.now)) }
    ensures own_group { IfOk result (λ asker. Passes config.now (kept entries.now) (keys.Gid user.gid)) }
    ensures asker { IfOk result (λ asker. asker ≡ askers.asker_of config.now (kept entries.now) name.now user) }
    ensures halt { IfErr result (λ halt. HaltsBy halt (Meets config.now (kept entries.now) (keys.GroupsOf name.now) ⊎ Meets config.now (kept entries.now) (keys.Gid user.gid))) }
{
    let groups = groups_of(alloc, config, entries, name)?;
    let own = group_of(alloc, config, entries, user.gid)?;
    Ok(asker_with(alloc, user, &groups, own)?)
}
