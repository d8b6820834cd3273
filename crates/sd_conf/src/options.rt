// The table of the options: where each stands, its key, and what its value may be.
ghost use Rattle.std.specs.Prelude.{◌≡◌, ℕ, Bool, List, Option, length, codes};
ghost use Rattle.std.specs.Option.{option_copied};
ghost use Rattle.sd_conf.specs.Lines as forms;
ghost use Rattle.sd_conf.specs.Options as options;

use crate::lines::Entry;

/// The sections that are read: `sssd`, `nss`, `pam`, and the one of the domain.
#[derive(Clone, Copy)]
pub enum Part {
    Sssd,
    Nss,
    Pam,
    Domain,
}

/// What a value may be.
#[derive(Clone, Copy)]
pub enum Rule {
    /// Any text.
    Any,
    /// A number from the least to the greatest.
    Number(u32, u32),
    /// TRUE or FALSE.
    Flag,
    /// `ldap` or `ipa`.
    IdProvider,
    /// Any text but `none`.
    AuthProvider,
    /// `permit`, `deny`, `simple` or `ipa`.
    AccessProvider,
    /// A text of so many bytes, from the least to the greatest.
    Length(usize, usize),
    /// A list of `ldap://HOST` with `:PORT` and a last `/` allowed, of 64 servers at most.
    Uris,
    /// A list of host names, 64 at most.
    Hosts,
    /// A distinguished name.
    Dn,
}

/// An option, by its key in sssd.conf(5).
#[derive(Clone, Copy)]
pub enum ConfOption {
    Domains,
    Services,
    ConfigFileVersion,
    JournalLimit,
    EntryNegativeTimeout,
    EntryCacheNowaitPercentage,
    FilterUsers,
    FilterGroups,
    Pwfield,
    OfflineCredentialsExpiration,
    OfflineFailedLoginAttempts,
    OfflineFailedLoginDelay,
    IdProvider,
    AuthProvider,
    AccessProvider,
    EntryCacheTimeout,
    EntryCacheUserTimeout,
    EntryCacheGroupTimeout,
    CacheCredentials,
    CachedAuthTimeout,
    OfflineTimeout,
    LdapUri,
    LdapBackupUri,
    IpaServer,
    IpaBackupServer,
    IpaDomain,
    IpaHostname,
    LdapSearchBase,
    LdapGroupNestingLevel,
    IpaHbacRefresh,
    SimpleAllowUsers,
    SimpleDenyUsers,
    SimpleAllowGroups,
    SimpleDenyGroups,
}

/// All options.
pub const OPTIONS: [ConfOption; 34] = [
    ConfOption::Domains,
    ConfOption::Services,
    ConfOption::ConfigFileVersion,
    ConfOption::JournalLimit,
    ConfOption::EntryNegativeTimeout,
    ConfOption::EntryCacheNowaitPercentage,
    ConfOption::FilterUsers,
    ConfOption::FilterGroups,
    ConfOption::Pwfield,
    ConfOption::OfflineCredentialsExpiration,
    ConfOption::OfflineFailedLoginAttempts,
    ConfOption::OfflineFailedLoginDelay,
    ConfOption::IdProvider,
    ConfOption::AuthProvider,
    ConfOption::AccessProvider,
    ConfOption::EntryCacheTimeout,
    ConfOption::EntryCacheUserTimeout,
    ConfOption::EntryCacheGroupTimeout,
    ConfOption::CacheCredentials,
    ConfOption::CachedAuthTimeout,
    ConfOption::OfflineTimeout,
    ConfOption::LdapUri,
    ConfOption::LdapBackupUri,
    ConfOption::IpaServer,
    ConfOption::IpaBackupServer,
    ConfOption::IpaDomain,
    ConfOption::IpaHostname,
    ConfOption::LdapSearchBase,
    ConfOption::LdapGroupNestingLevel,
    ConfOption::IpaHbacRefresh,
    ConfOption::SimpleAllowUsers,
    ConfOption::SimpleDenyUsers,
    ConfOption::SimpleAllowGroups,
    ConfOption::SimpleDenyGroups,
];

/// A row of the table: in which section the option stands, its key, what its value may be.
#[derive(Clone, Copy)]
pub struct Row<'a> {
    pub part: Part,
    pub key: &'a [u8],
    pub rule: Rule,
}

fn listed(part: Part, key: &[u8], rule: Rule) -> Row<'_>
    ensures { options.seen_row result ≡ options.line part key.now rule }
{
    Row { part, key, rule }
}

/// The row of an option.
pub fn row_of(option: ConfOption) -> Row<'static>
    ensures { options.seen_row result ≡ options.line_of option }
{
    let count = Rule::Number(0, 0xffff_ffff);
    match option {
        ConfOption::Domains => listed(Part::Sssd, b"domains", Rule::Any),
        ConfOption::Services => listed(Part::Sssd, b"services", Rule::Any),
        ConfOption::ConfigFileVersion => listed(Part::Sssd, b"config_file_version", Rule::Any),
        ConfOption::JournalLimit => listed(
            Part::Sssd,
            b"journal_limit",
            Rule::Number(8, 1_000_000),
        ),
        ConfOption::EntryNegativeTimeout => listed(Part::Nss, b"entry_negative_timeout", count),
        ConfOption::EntryCacheNowaitPercentage => {
            listed(
                Part::Nss,
                b"entry_cache_nowait_percentage",
                Rule::Number(0, 99),
            )
        }
        ConfOption::FilterUsers => listed(Part::Nss, b"filter_users", Rule::Any),
        ConfOption::FilterGroups => listed(Part::Nss, b"filter_groups", Rule::Any),
        ConfOption::Pwfield => listed(Part::Nss, b"pwfield", Rule::Length(0, 255)),
        ConfOption::OfflineCredentialsExpiration => {
            listed(Part::Pam, b"offline_credentials_expiration", count)
        }
        ConfOption::OfflineFailedLoginAttempts => {
            listed(Part::Pam, b"offline_failed_login_attempts", count)
        }
        ConfOption::OfflineFailedLoginDelay => listed(
            Part::Pam,
            b"offline_failed_login_delay",
            count,
        ),
        ConfOption::IdProvider => listed(Part::Domain, b"id_provider", Rule::IdProvider),
        ConfOption::AuthProvider => listed(Part::Domain, b"auth_provider", Rule::AuthProvider),
        ConfOption::AccessProvider => listed(
            Part::Domain,
            b"access_provider",
            Rule::AccessProvider,
        ),
        ConfOption::EntryCacheTimeout => listed(Part::Domain, b"entry_cache_timeout", count),
        ConfOption::EntryCacheUserTimeout => listed(
            Part::Domain,
            b"entry_cache_user_timeout",
            count,
        ),
        ConfOption::EntryCacheGroupTimeout => {
            listed(Part::Domain, b"entry_cache_group_timeout", count)
        }
        ConfOption::CacheCredentials => listed(Part::Domain, b"cache_credentials", Rule::Flag),
        ConfOption::CachedAuthTimeout => listed(Part::Domain, b"cached_auth_timeout", count),
        ConfOption::OfflineTimeout => listed(Part::Domain, b"offline_timeout", count),
        ConfOption::LdapUri => listed(Part::Domain, b"ldap_uri", Rule::Uris),
        ConfOption::LdapBackupUri => listed(Part::Domain, b"ldap_backup_uri", Rule::Uris),
        ConfOption::IpaServer => listed(Part::Domain, b"ipa_server", Rule::Hosts),
        ConfOption::IpaBackupServer => listed(Part::Domain, b"ipa_backup_server", Rule::Hosts),
        ConfOption::IpaDomain => listed(Part::Domain, b"ipa_domain", Rule::Any),
        ConfOption::IpaHostname => listed(Part::Domain, b"ipa_hostname", Rule::Length(1, 255)),
        ConfOption::LdapSearchBase => listed(Part::Domain, b"ldap_search_base", Rule::Dn),
        ConfOption::LdapGroupNestingLevel => {
            listed(
                Part::Domain,
                b"ldap_group_nesting_level",
                Rule::Number(0, 100),
            )
        }
        ConfOption::IpaHbacRefresh => listed(Part::Domain, b"ipa_hbac_refresh", count),
        ConfOption::SimpleAllowUsers => listed(Part::Domain, b"simple_allow_users", Rule::Any),
        ConfOption::SimpleDenyUsers => listed(Part::Domain, b"simple_deny_users", Rule::Any),
        ConfOption::SimpleAllowGroups => listed(Part::Domain, b"simple_allow_groups", Rule::Any),
        ConfOption::SimpleDenyGroups => listed(Part::Domain, b"simple_deny_groups", Rule::Any),
    }
}

/// What stands behind a text's beginning, where it begins so.
pub fn behind<'a>(beginning: &[u8], bytes: &'a [u8]) -> Option<&'a [u8]>
    ensures { option_copied result ≡ options.behind beginning.now bytes.now }
{
    if bytes.len() < beginning.len() {
        return None;
    }
    for place in 0..beginning.len() {
        if bytes[place] != beginning[place] {
            return None;
        }
    }
    Some(&bytes[beginning.len()..])
}

fn is_domain(domain: &[u8], section: &[u8]) -> bool
    ensures { result ≡ options.is_domain domain.now (options.behind (codes "domain/") section.now) }
{
    match behind(b"domain/", section) {
        None => false,
        Some(name) => *name == *domain,
    }
}

/// Whether a section is this one, where the domain is this one.
pub fn is_section(part: Part, domain: &[u8], section: &[u8]) -> bool
    ensures { result ≡ options.is_section part domain.now section.now }
{
    match part {
        Part::Sssd => section == b"sssd".as_slice(),
        Part::Nss => section == b"nss".as_slice(),
        Part::Pam => section == b"pam".as_slice(),
        Part::Domain => is_domain(domain, section),
    }
}

/// Whether a key's line is a line of this option.
pub fn is_line_of(row: &Row<'_>, domain: &[u8], entry: &Entry<'_>) -> bool
    ensures { result ≡ options.is_line_of (options.seen_row row.now) domain.now (forms.seen entry.now) }
{
    *entry.key == *row.key && is_section(row.part, domain, entry.section)
}

/// Whether a key's line is the line of an option of the table.
pub fn is_known(domain: &[u8], entry: &Entry<'_>) -> bool
    ensures { result ≡ options.is_known domain.now (forms.seen entry.now) }
{
    OPTIONS
        .iter()
        .any(|option| is_line_of(&row_of(*option), domain, entry))
}
