//! The access rules and their services among entries.
ghost use Rattle.std.specs.Prelude.{◌≡◌, ◌++◌, ℕ, List, Option, Some, None, filter, IfOk, OnOk};
ghost use Rattle.std.specs.List.{flat_map};
ghost use Rattle.sd_dn.specs.Texts.{spelled, both_meet};
ghost use Rattle.sd_dn.specs.Comparing.{is_below};
ghost use Rattle.sd_fetch.specs.Lookup.{listed, rule_of, service_of, rules_among, services_among};
ghost use Rattle.sd_fetch.specs.Searches as searches;

use crate::fitting::{push_rule, push_service};
use crate::searches::{rules_place, services_place};
use sd_base::{Memory, Text};
use sd_conf::Config;
use sd_dn::Dn;
use sd_dn::compare::is_under;
use sd_dn::texts::spelled;
use sd_ldap::DirEntry;
use sd_rules::{RuleList, ServiceList};
use std::alloc::Global;

/// Whether both are DNs, and the first is strictly under the second.
fn are_placed(dn: &Option<Dn>, place: &Option<Dn>) -> bool
    ensures { result ≡ both_meet is_below dn.now place.now }
{
    match (dn, place) {
        (Some(dn), Some(place)) => is_under(dn, place),
        _ => false,
    }
}

fn is_placed(alloc: Global, entry: &DirEntry, place: &Option<Dn>) -> Result<bool, Memory>
    ensures { IfOk result (λ placed. placed ≡ both_meet is_below (spelled entry.now.dn) place.now) }
{
    let dn = spelled(alloc, entry.dn.bytes())?;
    Ok(are_placed(&dn, place))
}

fn rules_under(
    alloc: Global,
    entries: &[DirEntry],
    place: &Option<Dn>,
    config: &Config,
) -> Result<RuleList, Memory>
    ensures { IfOk result (λ rules. rules ≡ flat_map (λ e. listed (rule_of config.now e)) (filter (λ e. both_meet is_below (spelled e.dn) place.now) entries.now)) }
{
    let mut rules = RuleList::new(alloc);
    for entry in entries {
        if is_placed(alloc, entry, place)? {
            push_rule(alloc, &mut rules, entry, config)?;
        }
    }
    Ok(rules)
}

fn services_under(
    alloc: Global,
    entries: &[DirEntry],
    place: &Option<Dn>,
    config: &Config,
) -> Result<ServiceList, Memory>
    ensures { IfOk result (λ services. services ≡ flat_map (λ e. listed (service_of config.now e)) (filter (λ e. both_meet is_below (spelled e.dn) place.now) entries.now)) }
{
    let mut services = ServiceList::new(alloc);
    for entry in entries {
        if is_placed(alloc, entry, place)? {
            push_service(alloc, &mut services, entry, config)?;
        }
    }
    Ok(services)
}

fn dn_of(alloc: Global, text: &Text) -> Result<Option<Dn>, Memory>
    ensures { IfOk result (λ dn. dn ≡ spelled text.now) }
{
    spelled(alloc, text.bytes())
}

/// The access rules under their place.
pub fn rules_of(alloc: Global, entries: &[DirEntry], config: &Config) -> Result<RuleList, Memory>
    ensures { IfOk result (λ rules. rules ≡ rules_among config.now entries.now) }
{
    let place = rules_place(alloc, &config.base)?;
    let dn = dn_of(alloc, &place)?;
    rules_under(alloc, entries, &dn, config)
}

/// The services under their place.
pub fn services_of(
    alloc: Global,
    entries: &[DirEntry],
    config: &Config,
) -> Result<ServiceList, Memory>
    ensures { IfOk result (λ services. services ≡ services_among config.now entries.now) }
{
    let place = services_place(alloc, &config.base)?;
    let dn = dn_of(alloc, &place)?;
    services_under(alloc, entries, &dn, config)
}
