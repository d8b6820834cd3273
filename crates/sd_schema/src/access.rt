//! This host, access rules and services.
ghost use Rattle.std.specs.Prelude.{◌≡◌, ℕ, List, Option, IfOk, codes};
ghost use Rattle.sd_entry.specs.Values as entries;
ghost use Rattle.sd_schema.specs.Values as values;
ghost use Rattle.sd_schema.specs.Access as access;

use crate::Unfit;
use crate::places::{Place, names_at};
use crate::values::{first_like, is_like, of_class, says, wanted};
use sd_base::{Memory, Text};
use sd_conf::Config;
use sd_entry::first_value;
use sd_ldap::DirEntry;
use sd_rules::{Element, Host, Rule, Service};
use std::alloc::Global;

/// The host that an entry is (ipaHost), where it has the name of this host, without ASCII case; its groups are the
/// host groups that `memberOf` names.
pub fn host(alloc: Global, entry: &DirEntry, config: &Config) -> Result<Host, Unfit>
    ensures { values.Answers (λ x. x) result (access.fitting_host entry.now.attributes config.now.base config.now.settings.hostname) }
{
    of_class(alloc, entry, b"ipaHost")?;
    let own = first_like(entry, b"fqdn", config.settings.hostname.bytes());
    let name = wanted(alloc, b"fqdn", own)?;
    let groups = names_at(alloc, &config.base, Place::HostGroups, b"memberOf", entry)?;
    Ok(Host { name, groups })
}

/// The attributes of one side of a rule, and where the things and the groups lie that it names.
#[derive(Clone, Copy)]
struct Side {
    category: &'static [u8],
    member: &'static [u8],
    things: Place,
    groups: Place,
}

fn element(alloc: Global, entry: &DirEntry, base: &Text, side: Side) -> Result<Element, Memory>
    ensures { IfOk result (λ made. made ≡ access.element_made entry.now.attributes base.now side.category.now side.member.now side.things side.groups) }
{
    Ok(Element {
        all: says(entry, side.category, b"all"),
        names: names_at(alloc, base, side.things, side.member, entry)?,
        groups: names_at(alloc, base, side.groups, side.member, entry)?,
    })
}

fn users(alloc: Global, entry: &DirEntry, base: &Text) -> Result<Element, Memory>
    ensures { IfOk result (λ made. made ≡ access.element_made entry.now.attributes base.now (codes "userCategory") (codes "memberUser") Place.Users Place.Groups) }
{
    let side = Side {
        category: b"userCategory",
        member: b"memberUser",
        things: Place::Users,
        groups: Place::Groups,
    };
    element(alloc, entry, base, side)
}

fn hosts(alloc: Global, entry: &DirEntry, base: &Text) -> Result<Element, Memory>
    ensures { IfOk result (λ made. made ≡ access.element_made entry.now.attributes base.now (codes "hostCategory") (codes "memberHost") Place.Hosts Place.HostGroups) }
{
    let side = Side {
        category: b"hostCategory",
        member: b"memberHost",
        things: Place::Hosts,
        groups: Place::HostGroups,
    };
    element(alloc, entry, base, side)
}

fn services(alloc: Global, entry: &DirEntry, base: &Text) -> Result<Element, Memory>
    ensures { IfOk result (λ made. made ≡ access.element_made entry.now.attributes base.now (codes "serviceCategory") (codes "memberService") Place.Services Place.ServiceGroups) }
{
    let side = Side {
        category: b"serviceCategory",
        member: b"memberService",
        things: Place::Services,
        groups: Place::ServiceGroups,
    };
    element(alloc, entry, base, side)
}

fn is_enabled(entry: &DirEntry) -> bool
    ensures { result ≡ access.is_enabled entry.now.attributes }
{
    is_like(entry, b"ipaEnabledFlag", b"TRUE") && is_like(entry, b"accessRuleType", b"allow")
}

/// The access rule that an entry is (ipaHBACRule). It is enabled where it is an enabled rule that allows; each side
/// has the names and groups that its member attribute names at their places, other DNs are passed over.
pub fn rule(alloc: Global, entry: &DirEntry, config: &Config) -> Result<Rule, Unfit>
    ensures { values.Answers (λ x. x) result (access.fitting_rule entry.now.attributes config.now.base) }
{
    of_class(alloc, entry, b"ipaHBACRule")?;
    let name = wanted(alloc, b"cn", first_value(entry, b"cn"))?;
    Ok(Rule {
        name,
        enabled: is_enabled(entry),
        users: users(alloc, entry, &config.base)?,
        hosts: hosts(alloc, entry, &config.base)?,
        services: services(alloc, entry, &config.base)?,
    })
}

/// The service that an entry is (ipaHBACService); its groups are the service groups that `memberOf` names.
pub fn service(alloc: Global, entry: &DirEntry, config: &Config) -> Result<Service, Unfit>
    ensures { values.Answers (λ x. x) result (access.fitting_service entry.now.attributes config.now.base) }
{
    of_class(alloc, entry, b"ipaHBACService")?;
    let name = wanted(alloc, b"cn", first_value(entry, b"cn"))?;
    let groups = names_at(
        alloc,
        &config.base,
        Place::ServiceGroups,
        b"memberOf",
        entry,
    )?;
    Ok(Service { name, groups })
}
