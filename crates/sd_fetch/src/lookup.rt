//! The lookup of a key.
ghost use Rattle.std.specs.Prelude.{◌≡◌, true, filter, IfOk};
ghost use Rattle.sd_rules.specs.Lookups.{is_fetched_of_kind};
ghost use Rattle.sd_asking.specs.Settled.{OverTold};
ghost use Rattle.sd_fetch.specs.Exchanging.{telling};
ghost use Rattle.sd_rules.specs.declared.keys.Key.TheVariants as keys;
ghost use Rattle.sd_fetch.specs.Searches.{first_search, services_search, is_of_one};
ghost use Rattle.sd_fetch.specs.Early.{Tried};
ghost use Rattle.sd_fetch.specs.Rounding.{early_of};
ghost use Rattle.sd_fetch.specs.Further.{Further, further_among, found_among, have_dns};
ghost use Rattle.sd_fetch.specs.Sought.{Sought, SoughtInTold, LookedInTold};
ghost use Rattle.sd_fetch.specs.Lookup.{fits};
ghost use Rattle.sd_fetch.specs.Looked.{Looked, IsOneOf};

use crate::finding::{Early, find};
use crate::fitting::{fitting, found_record};
use crate::nesting::found;
use crate::rules::{rules_of, services_of};
use crate::searches::{first_search, services_search};
use sd_client::Client;
use sd_conf::Config;
use sd_dial::DirectoryLink;
use sd_ldap::{DirEntries, DirEntry};
use sd_rules::{Fetched, Key, Record, RuleBook};
use std::alloc::Global;

/// What the entries that a search came to are found as.
fn choose<L: DirectoryLink>(
    alloc: Global,
    client: &mut Client<L>,
    key: &Key,
    config: &Config,
    entries: &[DirEntry],
) -> Result<Fetched, Early>
    ensures further { Further (telling L.DirectoryLink) client.old client.new (early_of result) (λ told. further_among config.now key.now entries.now told) }
    ensures found { OverTold L.DirectoryLink client.old (λ b. have_dns entries.now ≡ true → IfOk result (λ fetched. fetched ≡ found_among config.now key.now entries.now b.entries)) }
    ensures one { IfOk result (λ fetched. IsOneOf config.now key.now (filter (λ e. fits config.now key.now e) entries.now) fetched) }
{
    let those = fitting(alloc, entries, key, config)?;
    match those.as_slice() {
        [] => Ok(Fetched::Absent),
        [entry] => found(alloc, client, key, config, entry),
        more => Ok(Fetched::Many(more.len().min(u32::MAX as usize) as u32)),
    }
}

/// The entries of the first search for a key.
fn seek<L: DirectoryLink>(
    alloc: Global,
    client: &mut Client<L>,
    key: &Key,
    config: &Config,
) -> Result<DirEntries, Early>
    ensures { Tried (telling L.DirectoryLink) client.old (first_search config.now key.now) result client.new }
{
    let request = first_search(alloc, config, key)?;
    find(alloc, client, &request)
}

/// The entries of the search for the services of access rules.
fn seek_services<L: DirectoryLink>(
    alloc: Global,
    client: &mut Client<L>,
    config: &Config,
) -> Result<DirEntries, Early>
    ensures { Tried (telling L.DirectoryLink) client.old (services_search config.now.base) result client.new }
{
    let request = services_search(alloc, &config.base)?;
    find(alloc, client, &request)
}

/// The lookup of one thing.
fn fetch_one<L: DirectoryLink>(
    alloc: Global,
    client: &mut Client<L>,
    key: &Key,
    config: &Config,
) -> Result<Fetched, Early>
    requires { is_of_one key.now ≡ true }
    ensures sought { Sought (telling L.DirectoryLink) config.now key.now client.old result client.new }
    ensures told { SoughtInTold L.DirectoryLink config.now key.now client.old result client.new }
{
    let entries = seek(alloc, client, key, config)?;
    choose(alloc, client, key, config, entries.items())
}

/// The lookup of all access rules and their services.
fn fetch_rules<L: DirectoryLink>(
    alloc: Global,
    client: &mut Client<L>,
    config: &Config,
) -> Result<Fetched, Early>
    ensures sought { Sought (telling L.DirectoryLink) config.now keys.Rules client.old result client.new }
    ensures told { SoughtInTold L.DirectoryLink config.now keys.Rules client.old result client.new }
{
    let entries = seek(alloc, client, &Key::Rules, config)?;
    let rules = rules_of(alloc, entries.items(), config)?;
    let others = seek_services(alloc, client, config)?;
    let services = services_of(alloc, others.items(), config)?;
    let fetched = found_record(alloc, Record::Rules(RuleBook { rules, services }))?;
    Ok(fetched)
}

fn fetch_key<L: DirectoryLink>(
    alloc: Global,
    client: &mut Client<L>,
    key: &Key,
    config: &Config,
) -> Result<Fetched, Early>
    ensures sought { Sought (telling L.DirectoryLink) config.now key.now client.old result client.new }
    ensures told { SoughtInTold L.DirectoryLink config.now key.now client.old result client.new }
{
    match key {
        Key::Rules => fetch_rules(alloc, client, config),
        _ => fetch_one(alloc, client, key, config),
    }
}

#[tactic(auto, using(crate::proofs::Looking::kind_ok, crate::proofs::Looking::looked_ok, crate::proofs::Looking::looked_refused, crate::proofs::Looking::looked_failed, crate::proofs::Looking::looked_starved, crate::proofs::Looking::told_ok))]
/// Looks a key up at a directory over a client. A code of a busy or unavailable server (51, 52) is a failure,
/// no such object (32) counts as no entries, and other codes are refusals (RFC 4511 appendix A). Entries that
/// do not fit the key are passed over.
pub fn fetch<L: DirectoryLink>(
    alloc: Global,
    client: &mut Client<L>,
    key: &Key,
    config: &Config,
) -> Fetched
    ensures kind { is_fetched_of_kind key.now result ≡ true }
    // Over any link: the searches made, in order, and how they came to the result.
    ensures looked { Looked (telling L.DirectoryLink) config.now key.now client.old result client.new }
    // Over a link that tells the directory behind it: the lookup in its entries, unless a search meets a limit.
    ensures told { LookedInTold L.DirectoryLink config.now key.now client.old result client.new }
{
    match fetch_key(alloc, client, key, config) {
        Ok(fetched) => fetched,
        Err(Early::Refused(code)) => Fetched::Refused(code),
        Err(Early::Failed(why)) => Fetched::Failed(why),
        Err(Early::Memory) => Fetched::Memory,
    }
}
