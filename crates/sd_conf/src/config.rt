// The configuration, and reading it.
ghost use Rattle.std.specs.Prelude.{◌≡◌, ℕ, List, [], length, map, IfOk, OnOk, ◌++◌, unwrap_or};
ghost use Rattle.sd_conf.specs.Lines as forms;
ghost use Rattle.sd_conf.specs.Options as table;
ghost use Rattle.sd_conf.specs.Chosen as chosen;
ghost use Rattle.sd_conf.specs.Config as config;

use crate::ConfFault;
use crate::choices::{Choices, told};
use crate::lines::{Entry, entries};
use crate::options::{ConfOption, row_of};
use crate::servers::ServerList;
use crate::texts::items;
use sd_base::{Copied, Memory, Text, Texts};
use sd_rules::{Settings, SimpleLists};
use std::alloc::Global;

/// What the daemon runs by.
pub struct Config {
    pub settings: Settings,
    /// The name of the one domain.
    pub domain: Text,
    /// The search base, a DN: ldap_search_base.
    pub base: Text,
    /// The primaries, and then the backups.
    pub servers: ServerList,
    /// How deep groups may stand in groups: ldap_group_nesting_level.
    pub level: u32,
    /// What stands for a password: pwfield.
    pub pwfield: Text,
    /// How many lines have a key that is no option's, in the sections that are read.
    pub unknown: u32,
}

impl Drop for Config {
    fn drop(self) {
        let Config {
            settings: _,
            domain: _,
            base: _,
            servers: _,
            level: _,
            pwfield: _,
            unknown: _,
        } = self;
    }
}

/// The users and the groups that two options list.
fn users_and_groups(
    alloc: Global,
    choices: &Choices<'_>,
    users: ConfOption,
    groups: ConfOption,
    otherwise: &[u8],
) -> Result<(Texts, Texts), Memory>
    ensures users { IfOk result (λ found. found.0 ≡ chosen.texts (chosen.chosen choices.now) users otherwise.now) }
    ensures groups { IfOk result (λ found. found.1 ≡ chosen.texts (chosen.chosen choices.now) groups otherwise.now) }
{
    let users = choices.texts(alloc, users, otherwise)?;
    let groups = choices.texts(alloc, groups, otherwise)?;
    Ok((users, groups))
}

fn simple_lists(alloc: Global, choices: &Choices<'_>) -> Result<SimpleLists, Memory>
    ensures { IfOk result (λ lists. lists ≡ config.simple_lists (chosen.chosen choices.now)) }
{
    let (allow_users, allow_groups) = users_and_groups(
        alloc,
        choices,
        ConfOption::SimpleAllowUsers,
        ConfOption::SimpleAllowGroups,
        &[],
    )?;
    let (deny_users, deny_groups) = users_and_groups(
        alloc,
        choices,
        ConfOption::SimpleDenyUsers,
        ConfOption::SimpleDenyGroups,
        &[],
    )?;
    Ok(SimpleLists {
        allow_users,
        deny_users,
        allow_groups,
        deny_groups,
    })
}

/// The settings that have these parts.
fn settings_of(
    choices: &Choices<'_>,
    counts: (u32, u32),
    filtered: (Texts, Texts),
    simple: SimpleLists,
    hostname: Text,
) -> Settings
    ensures { result ≡ record (config.settings (chosen.chosen choices.now)) { primaries = counts.0; backups = counts.1; filter_users = filtered.0; filter_groups = filtered.1; simple = simple; hostname = hostname } }
{
    let timeout = choices.number(ConfOption::EntryCacheTimeout, 5400);
    Settings {
        user_timeout: choices.number(ConfOption::EntryCacheUserTimeout, timeout),
        group_timeout: choices.number(ConfOption::EntryCacheGroupTimeout, timeout),
        negative_timeout: choices.number(ConfOption::EntryNegativeTimeout, 15),
        nowait: choices.number(ConfOption::EntryCacheNowaitPercentage, 50),
        offline_timeout: choices.number(ConfOption::OfflineTimeout, 60),
        hbac_refresh: choices.number(ConfOption::IpaHbacRefresh, 5),
        expiration_days: choices.number(ConfOption::OfflineCredentialsExpiration, 0),
        attempts: choices.number(ConfOption::OfflineFailedLoginAttempts, 0),
        delay_minutes: choices.number(ConfOption::OfflineFailedLoginDelay, 5),
        cached_auth_timeout: choices.number(ConfOption::CachedAuthTimeout, 0),
        journal_limit: choices.number(ConfOption::JournalLimit, 1_000_000),
        primaries: counts.0,
        backups: counts.1,
        cache_credentials: choices.flag(ConfOption::CacheCredentials),
        filter_users: filtered.0,
        filter_groups: filtered.1,
        access: choices.access(),
        simple,
        hostname,
    }
}

fn settings(
    alloc: Global,
    choices: &Choices<'_>,
    primaries: u32,
    backups: u32,
) -> Result<Settings, Memory>
    requires primaries { primaries ≡ length (chosen.primaries (chosen.chosen choices.now)) }
    requires backups { backups ≡ length (chosen.backups (chosen.chosen choices.now)) }
    ensures { IfOk result (λ made. made ≡ config.settings (chosen.chosen choices.now)) }
{
    let filtered = users_and_groups(
        alloc,
        choices,
        ConfOption::FilterUsers,
        ConfOption::FilterGroups,
        b"root",
    )?;
    let simple = simple_lists(alloc, choices)?;
    let hostname = choices.text(alloc, ConfOption::IpaHostname, &[])?;
    Ok(settings_of(choices, (primaries, backups), filtered, simple, hostname))
}

fn append(servers: &mut ServerList, others: &ServerList) -> Result<(), Memory>
    ensures { OnOk result (servers.new ≡ servers.old ++ others.now) }
{
    for server in others.items() {
        servers.push(server.copy()?)?;
    }
    Ok(())
}

/// Appends the backups, and tells how many they are.
fn append_backups(
    alloc: Global,
    choices: &Choices<'_>,
    servers: &mut ServerList,
) -> Result<u32, Memory>
    ensures servers { OnOk result (servers.new ≡ servers.old ++ chosen.backups (chosen.chosen choices.now)) }
    ensures count { IfOk result (λ count. count ≡ length (chosen.backups (chosen.chosen choices.now))) }
{
    let backups = choices.backups(alloc)?;
    append(servers, &backups)?;
    Ok(backups.len() as u32)
}

fn base(alloc: Global, choices: &Choices<'_>) -> Result<Text, Memory>
    ensures { IfOk result (λ base. base ≡ unwrap_or (chosen.base (chosen.chosen choices.now)) []) }
{
    match choices.base(alloc)? {
        Some(base) => Ok(base),
        None => Text::from_bytes(alloc, &[]),
    }
}

fn domain_and_base(alloc: Global, choices: &Choices<'_>) -> Result<(Text, Text), Memory>
    ensures domain { IfOk result (λ found. found.0 ≡ choices.now.domain.now) }
    ensures base { IfOk result (λ found. found.1 ≡ unwrap_or (chosen.base (chosen.chosen choices.now)) []) }
{
    let domain = Text::from_bytes(alloc, choices.domain)?;
    let base = base(alloc, choices)?;
    Ok((domain, base))
}

fn servers_and_settings(
    alloc: Global,
    choices: &Choices<'_>,
) -> Result<(ServerList, Settings), Memory>
    ensures servers { IfOk result (λ made. made.0 ≡ chosen.primaries (chosen.chosen choices.now) ++ chosen.backups (chosen.chosen choices.now)) }
    ensures settings { IfOk result (λ made. made.1 ≡ config.settings (chosen.chosen choices.now)) }
{
    let mut servers = choices.primaries(alloc)?;
    let primaries = servers.len() as u32;
    let backups = append_backups(alloc, choices, &mut servers)?;
    let settings = settings(alloc, choices, primaries, backups)?;
    Ok((servers, settings))
}

fn whole_config(alloc: Global, choices: &Choices<'_>) -> Result<Config, Memory>
    ensures { IfOk result (λ made. made ≡ config.config (chosen.chosen choices.now)) }
{
    let pwfield = choices.text(alloc, ConfOption::Pwfield, b"*")?;
    let (domain, base) = domain_and_base(alloc, choices)?;
    let (servers, settings) = servers_and_settings(alloc, choices)?;
    Ok(Config {
        settings,
        domain,
        base,
        servers,
        level: choices.number(ConfOption::LdapGroupNestingLevel, 2),
        pwfield,
        unknown: choices.unknown(),
    })
}

fn missing(alloc: Global, option: ConfOption) -> ConfFault
    ensures { config.Fails result (Err (ConfFault.Missing (table.line_of option).key)) }
{
    match Text::from_bytes(alloc, row_of(option).key) {
        Ok(name) => ConfFault::Missing(name),
        Err(Memory) => ConfFault::Memory,
    }
}

fn where_complete(alloc: Global, choices: &Choices<'_>) -> Result<Config, ConfFault>
    ensures { config.Answers result (config.where_complete (chosen.chosen choices.now) (chosen.missing (chosen.chosen choices.now))) }
{
    match choices.missing(alloc)? {
        Some(option) => Err(missing(alloc, option)),
        None => Ok(whole_config(alloc, choices)?),
    }
}

fn of_domain(alloc: Global, choices: &Choices<'_>) -> Result<Config, ConfFault>
    ensures { config.Answers result (config.of_domain (chosen.chosen choices.now)) }
{
    match choices.bad_value(alloc)? {
        Some(line) => Err(ConfFault::BadValue(line)),
        None => where_complete(alloc, choices),
    }
}

fn domains<'a>(alloc: Global, choices: &Choices<'a>) -> Result<Vec<&'a [u8]>, Memory>
    ensures { IfOk result (λ found. map (λ x. x.now) found.items ≡ chosen.texts (chosen.chosen choices.now) ConfOption.Domains []) }
{
    match choices.value(ConfOption::Domains) {
        Some(list) => items(alloc, list),
        None => items(alloc, &[]),
    }
}

fn of_domains<'a>(
    alloc: Global,
    choices: &mut Choices<'a>,
    domains: &[&'a [u8]],
) -> Result<Config, ConfFault>
    ensures { config.Answers result (config.of_domains (forms.settings_seen choices.old.entries.items) (map (λ x. x.now) domains.now)) }
{
    match domains {
        [] => Err(ConfFault::NoDomain),
        [domain] => {
            choices.domain = domain;
            of_domain(alloc, choices)
        }
        _ => Err(ConfFault::ManyDomains(told(domains.len()))),
    }
}

fn of_entries(alloc: Global, entries: Vec<Entry<'_>>) -> Result<Config, ConfFault>
    ensures { config.Answers result (config.of_settings (forms.settings_seen entries.entry.items)) }
{
    let mut choices = Choices {
        entries,
        domain: &[],
    };
    let domains = domains(alloc, &choices)?;
    of_domains(alloc, &mut choices, &domains)
}

/// Reads a configuration, or tells why it is refused: first a line without a form or a key before any
/// section, then the domains, then the least line of a bad value, then the first option that is missing.
pub fn read_conf(alloc: Global, text: &[u8]) -> Result<Config, ConfFault>
    ensures { config.Answers result (config.conf_of text.now) }
{
    match entries(alloc, text) {
        Ok(entries) => of_entries(alloc, entries),
        Err(fault) => Err(fault),
    }
}
