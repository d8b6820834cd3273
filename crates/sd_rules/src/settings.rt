// The options that replies rest on.
use sd_base::{Copied, Memory, Text, Texts};

/// What decides account checks: access_provider of sssd.conf(5).
#[derive(Clone, Copy, PartialEq, Eq)]
pub enum AccessMode {
    Permit,
    Deny,
    Simple,
    Ipa,
}

/// The lists of sssd-simple(5).
pub struct SimpleLists {
    pub allow_users: Texts,
    pub deny_users: Texts,
    pub allow_groups: Texts,
    pub deny_groups: Texts,
}

impl Drop for SimpleLists {
    fn drop(self) {
        let SimpleLists {
            allow_users: _,
            deny_users: _,
            allow_groups: _,
            deny_groups: _,
        } = self;
    }
}

/// The options that replies rest on; times are seconds where nothing else is said.
pub struct Settings {
    /// How long a found user is fresh: entry_cache_user_timeout.
    pub user_timeout: u32,
    /// How long a found group is fresh: entry_cache_group_timeout.
    pub group_timeout: u32,
    /// How long an absence is fresh: entry_negative_timeout.
    pub negative_timeout: u32,
    /// The midpoint, in percent of the timeout, or 0 for none: entry_cache_nowait_percentage.
    pub nowait: u32,
    /// How long an outage stands: offline_timeout.
    pub offline_timeout: u32,
    /// How long this host and the access rules are fresh: ipa_hbac_refresh.
    pub hbac_refresh: u32,
    /// How many days a stored hash may be used, or 0 for ever: offline_credentials_expiration.
    pub expiration_days: u32,
    /// How many wrong guesses block, or 0 for none: offline_failed_login_attempts.
    pub attempts: u32,
    /// How many minutes a block lasts, or 0 for until an online login: offline_failed_login_delay.
    pub delay_minutes: u32,
    /// How long an online login lets its stored hash be used, or 0 for not at all: cached_auth_timeout.
    pub cached_auth_timeout: u32,
    /// How many entries the journal may have, with the places reserved.
    pub journal_limit: u32,
    /// How many servers are primaries, which have the least numbers.
    pub primaries: u32,
    /// How many servers are backups.
    pub backups: u32,
    /// Whether hashes of passwords are stored: cache_credentials.
    pub cache_credentials: bool,
    /// Users that are never looked up: filter_users.
    pub filter_users: Texts,
    /// Groups that are never looked up: filter_groups.
    pub filter_groups: Texts,
    pub access: AccessMode,
    pub simple: SimpleLists,
    /// This host's name: ipa_hostname.
    pub hostname: Text,
}

impl Drop for Settings {
    fn drop(self) {
        let Settings {
            user_timeout: _,
            group_timeout: _,
            negative_timeout: _,
            nowait: _,
            offline_timeout: _,
            hbac_refresh: _,
            expiration_days: _,
            attempts: _,
            delay_minutes: _,
            cached_auth_timeout: _,
            journal_limit: _,
            primaries: _,
            backups: _,
            cache_credentials: _,
            filter_users: _,
            filter_groups: _,
            access: _,
            simple: _,
            hostname: _,
        } = self;
    }
}

impl Copied for SimpleLists {
    fn copy(&self) -> Result<SimpleLists, Memory> {
        Ok(SimpleLists {
            allow_users: self.allow_users.copy()?,
            deny_users: self.deny_users.copy()?,
            allow_groups: self.allow_groups.copy()?,
            deny_groups: self.deny_groups.copy()?,
        })
    }
}

impl Copied for Settings {
    fn copy(&self) -> Result<Settings, Memory> {
        Ok(Settings {
            user_timeout: self.user_timeout,
            group_timeout: self.group_timeout,
            negative_timeout: self.negative_timeout,
            nowait: self.nowait,
            offline_timeout: self.offline_timeout,
            hbac_refresh: self.hbac_refresh,
            expiration_days: self.expiration_days,
            attempts: self.attempts,
            delay_minutes: self.delay_minutes,
            cached_auth_timeout: self.cached_auth_timeout,
            journal_limit: self.journal_limit,
            primaries: self.primaries,
            backups: self.backups,
            cache_credentials: self.cache_credentials,
            filter_users: self.filter_users.copy()?,
            filter_groups: self.filter_groups.copy()?,
            access: self.access,
            simple: self.simple.copy()?,
            hostname: self.hostname.copy()?,
        })
    }
}
