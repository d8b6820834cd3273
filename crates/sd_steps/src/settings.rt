// The settings of a worked journal.
use crate::words::{Words, is};
use sd_base::{Memory, Text, Texts};
use sd_rules::{AccessMode, Settings, SimpleLists};
use std::alloc::Global;

fn one(alloc: Global, word: &[u8]) -> Result<Texts, Memory> {
    let mut list = Texts::new(alloc);
    list.push(Text::from_bytes(alloc, word)?)?;
    Ok(list)
}

fn access(word: &[u8]) -> AccessMode {
    if is(word, b"deny") {
        AccessMode::Deny
    } else if is(word, b"simple") {
        AccessMode::Simple
    } else if is(word, b"ipa") {
        AccessMode::Ipa
    } else {
        AccessMode::Permit
    }
}

fn lists(alloc: Global, allow_groups: Texts) -> SimpleLists {
    SimpleLists {
        allow_users: Texts::new(alloc),
        deny_users: Texts::new(alloc),
        allow_groups,
        deny_groups: Texts::new(alloc),
    }
}

/// Numbers in this order: how long a user is fresh, nowait, offline_timeout, expiration in days, attempts, delay in minutes,
/// cached_auth_timeout, journal_limit, primaries, backups, and 1 where hashes are stored; then the mode of account checks. Root is
/// filtered, the simple list has the group `staff`, and this host is `client.test`.
pub fn read(alloc: Global, words: &mut Words<'_>) -> Result<Settings, Memory> {
    let filter_users = one(alloc, b"root")?;
    let filter_groups = one(alloc, b"root")?;
    let allow_groups = one(alloc, b"staff")?;
    let hostname = Text::from_bytes(alloc, b"client.test")?;
    Ok(Settings {
        user_timeout: words.short(),
        group_timeout: 5400,
        negative_timeout: 15,
        nowait: words.short(),
        offline_timeout: words.short(),
        hbac_refresh: 5,
        expiration_days: words.short(),
        attempts: words.short(),
        delay_minutes: words.short(),
        cached_auth_timeout: words.short(),
        journal_limit: words.short(),
        primaries: words.short(),
        backups: words.short(),
        cache_credentials: words.short() == 1,
        filter_users,
        filter_groups,
        access: access(words.word()),
        simple: lists(alloc, allow_groups),
        hostname,
    })
}
