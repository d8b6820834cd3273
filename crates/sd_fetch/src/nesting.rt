//! What an entry that fits is found as, with what nested groups say of it.
ghost use Rattle.std.specs.Prelude.{◌≡◌, ℕ, List, true, IfOk};
ghost use Rattle.sd_dn.specs.Reading.{is_dn};
ghost use Rattle.sd_rules.specs.declared.records.GroupRef.{GroupRef};
ghost use Rattle.sd_asking.specs.Settled.{OverTold};
ghost use Rattle.sd_fetch.specs.Exchanging.{telling};
ghost use Rattle.sd_fetch.specs.Rounding.{early_of};
ghost use Rattle.sd_fetch.specs.Told.{reads_of, holders_of};
ghost use Rattle.sd_fetch.specs.Lookup.{members_in, groups_in, group_with_members, user_with_groups, found_as, found_from, with_members, with_groups, user_of, group_of};
ghost use Rattle.sd_fetch.specs.Looked.{IsFoundAs};
ghost use Rattle.sd_fetch.specs.Further.{Further, further_of};

use crate::finding::Early;
use crate::fitting::{group_found, groups_found, host_found, user_found};
use crate::rounds::{read_groups, read_members};
use sd_base::Texts;
use sd_client::Client;
use sd_conf::Config;
use sd_dial::DirectoryLink;
use sd_dn::texts::spelled;
use sd_ldap::DirEntry;
use sd_rules::{Fetched, GroupRefs, Key};
use std::alloc::Global;

#[tactic(auto, using(crate::proofs::Furthers::reads_further, crate::proofs::Furthers::no_base_further, crate::proofs::Furthers::starved_further, crate::proofs::Furthers::members_by_base))]
/// The members of a group; where the base is no DN, nothing is under it.
fn members_of<L: DirectoryLink>(
    alloc: Global,
    client: &mut Client<L>,
    config: &Config,
    group: &DirEntry,
) -> Result<Texts, Early>
    ensures further { Further (telling L.DirectoryLink) client.old client.new (early_of result) (λ told. reads_of config.now told group.now) }
    ensures members { OverTold L.DirectoryLink client.old (λ b. IfOk result (λ names. names ≡ members_in config.now b.entries group.now)) }
{
    match spelled(alloc, config.base.bytes())? {
        Some(base) => read_members(alloc, client, config, &base, group),
        None => Ok(Texts::new(alloc)),
    }
}

/// The groups of a user.
#[tactic(auto, using(crate::proofs::Furthers::holders_further))]
fn groups_of<L: DirectoryLink>(
    alloc: Global,
    client: &mut Client<L>,
    config: &Config,
    user: &DirEntry,
) -> Result<GroupRefs, Early>
    ensures further { Further (telling L.DirectoryLink) client.old client.new (early_of result) (λ told. holders_of config.now told user.now) }
    ensures groups { OverTold L.DirectoryLink client.old (λ b. is_dn user.now.dn ≡ true → IfOk result (λ groups. groups ≡ groups_in config.now b.entries user.now)) }
{
    read_groups(alloc, client, config, user)
}

/// A group by its entry, with its members.
fn found_group<L: DirectoryLink>(
    alloc: Global,
    client: &mut Client<L>,
    key: &Key,
    config: &Config,
    entry: &DirEntry,
) -> Result<Fetched, Early>
    ensures further { Further (telling L.DirectoryLink) client.old client.new (early_of result) (λ told. reads_of config.now told entry.now) }
    ensures found { OverTold L.DirectoryLink client.old (λ b. IfOk result (λ fetched. fetched ≡ group_with_members config.now key.now b.entries entry.now)) }
    ensures some { IfOk result (λ fetched. (members : List (List ℕ)) × (fetched ≡ found_from (with_members members) (group_of config.now key.now entry.now))) }
{
    let members = members_of(alloc, client, config, entry)?;
    Ok(group_found(alloc, entry, key, config, members)?)
}

/// A user by its entry, with its groups.
fn found_groups<L: DirectoryLink>(
    alloc: Global,
    client: &mut Client<L>,
    key: &Key,
    config: &Config,
    entry: &DirEntry,
) -> Result<Fetched, Early>
    ensures further { Further (telling L.DirectoryLink) client.old client.new (early_of result) (λ told. holders_of config.now told entry.now) }
    ensures found { OverTold L.DirectoryLink client.old (λ b. is_dn entry.now.dn ≡ true → IfOk result (λ fetched. fetched ≡ user_with_groups config.now key.now b.entries entry.now)) }
    ensures some { IfOk result (λ fetched. (groups : List GroupRef) × (fetched ≡ found_from (with_groups groups) (user_of config.now key.now entry.now))) }
{
    let groups = groups_of(alloc, client, config, entry)?;
    Ok(groups_found(alloc, entry, key, config, groups)?)
}

/// What the one entry that fits a key is found as.
pub fn found<L: DirectoryLink>(
    alloc: Global,
    client: &mut Client<L>,
    key: &Key,
    config: &Config,
    entry: &DirEntry,
) -> Result<Fetched, Early>
    ensures further { Further (telling L.DirectoryLink) client.old client.new (early_of result) (λ told. further_of config.now key.now entry.now told) }
    ensures found { OverTold L.DirectoryLink client.old (λ b. is_dn entry.now.dn ≡ true → IfOk result (λ fetched. fetched ≡ found_as config.now key.now b.entries entry.now)) }
    ensures one { IfOk result (λ fetched. IsFoundAs config.now key.now entry.now fetched) }
{
    match key {
        Key::User(_) => Ok(user_found(alloc, entry, key, config)?),
        Key::Uid(_) => Ok(user_found(alloc, entry, key, config)?),
        Key::Group(_) => found_group(alloc, client, key, config, entry),
        Key::Gid(_) => found_group(alloc, client, key, config, entry),
        Key::GroupsOf(_) => found_groups(alloc, client, key, config, entry),
        Key::Host => Ok(host_found(alloc, entry, config)?),
        Key::Rules => Ok(Fetched::Absent),
    }
}
