// What the directory told: users, the groups of one of them, this host, and access rules.
ghost use Rattle.std.specs.Prelude.{◌+◌, ◌≤◌, IfOk};

use crate::pace_kinds::{Kind, rules_of};
use sd_base::{Memory, Shared, Text, Texts};
use sd_rules::{
    AccessMode, Answered, Element, GroupRef, GroupRefs, Groups, Hash, Host, Key, Record, Row, Rows,
    Rule, RuleBook, RuleList, Service, ServiceList, Settings, SimpleLists, User,
};
use std::alloc::Global;

/// The number of the entry that holds the stored hash of the first user.
pub const HASH: u64 = 4;

pub fn text(alloc: Global, bytes: &[u8]) -> Result<Text, Memory> {
    Text::from_bytes(alloc, bytes)
}

/// The name of a user, as `user000042`.
pub fn name(alloc: Global, user: u32) -> Result<Text, Memory> {
    let name = format!(in alloc; "user{user:06}")?;
    text(alloc, name.as_bytes())
}

fn user(alloc: Global, number: u32) -> Result<User, Memory> {
    let dn = format!(in alloc; "uid=user{number:06},ou=people,dc=example,dc=com")?;
    let home = format!(in alloc; "/home/user{number:06}")?;
    Ok(User {
        dn: text(alloc, dn.as_bytes())?,
        name: name(alloc, number)?,
        uid: number.saturating_add(1000),
        gid: 100,
        gecos: text(alloc, b"A user of the directory")?,
        home: text(alloc, home.as_bytes())?,
        shell: text(alloc, b"/bin/bash")?,
    })
}

fn texts(alloc: Global, words: &[&str]) -> Result<Texts, Memory> {
    let mut list = Texts::new(alloc);
    for word in words {
        list.push(text(alloc, word.as_bytes())?)?;
    }
    Ok(list)
}

fn group(alloc: Global, number: u32) -> Result<Text, Memory> {
    let name = format!(in alloc; "group{number:04}")?;
    text(alloc, name.as_bytes())
}

/// The ten groups of the first user.
fn groups(alloc: Global) -> Result<Record, Memory> {
    let mut groups = GroupRefs::new(alloc);
    for number in 0..10 {
        groups.push(GroupRef {
            name: group(alloc, number)?,
            gid: Some(number),
        })?;
    }
    Ok(Record::Groups(Groups {
        user: name(alloc, 0)?,
        groups,
    }))
}

/// A rule for two users and two groups, at the hosts of a group and by the services of a group; the last is for a group of the first user.
fn rule(alloc: Global, number: u32, count: u32) -> Result<Rule, Memory> {
    let last = number.saturating_add(1) == count;
    let name_of_rule = format!(in alloc; "rule{number:06}")?;
    let mut names = Texts::new(alloc);
    names.push(name(alloc, number.saturating_add(1))?)?;
    names.push(name(alloc, number.saturating_add(2))?)?;
    let mut of = Texts::new(alloc);
    of.push(group(alloc, number.saturating_add(100))?)?;
    let own = if last { 9 } else { number.saturating_add(200) };
    of.push(group(alloc, own)?)?;
    Ok(Rule {
        name: text(alloc, name_of_rule.as_bytes())?,
        enabled: true,
        users: Element {
            all: false,
            names,
            groups: of,
        },
        hosts: Element {
            all: false,
            names: Texts::new(alloc),
            groups: texts(alloc, &["webhosts"])?,
        },
        services: Element {
            all: false,
            names: Texts::new(alloc),
            groups: texts(alloc, &["logins"])?,
        },
    })
}

fn rules(alloc: Global, count: u32) -> Result<Record, Memory> {
    let mut rules = RuleList::new(alloc);
    for number in 0..count {
        rules.push(rule(alloc, number, count)?)?;
    }
    let mut services = ServiceList::new(alloc);
    for word in ["sshd", "login", "su", "sudo", "ftp"] {
        services.push(Service {
            name: text(alloc, word.as_bytes())?,
            groups: texts(alloc, &["logins"])?,
        })?;
    }
    Ok(Record::Rules(RuleBook { rules, services }))
}

fn host(alloc: Global) -> Result<Record, Memory> {
    Ok(Record::Host(Host {
        name: text(alloc, b"www.example.com")?,
        groups: texts(alloc, &["webhosts"])?,
    }))
}

fn found(alloc: Global, record: Record) -> Result<Answered, Memory> {
    Ok(Answered::Found(Shared::new(alloc, record)?))
}

fn found_user(alloc: Global, kind: Kind, number: u32) -> Result<Answered, Memory> {
    match kind {
        Kind::Gone => Ok(Answered::Absent),
        _ => found(alloc, Record::User(user(alloc, number)?)),
    }
}

/// The rows of what was told; where absent users are asked for, all are absent.
pub fn rows(alloc: Global, kind: Kind, users: u32) -> Result<Rows, Memory> {
    let mut rows = Rows::new(alloc);
    rows.push(Row::Head(2, u64::from(users) + 5, 0))?;
    let book = found(alloc, rules(alloc, rules_of(kind))?)?;
    rows.push(Row::Answer(1, 0, Key::Rules, book, false))?;
    let host = found(alloc, host(alloc)?)?;
    rows.push(Row::Answer(2, 0, Key::Host, host, false))?;
    let groups = found(alloc, groups(alloc)?)?;
    let key = Key::GroupsOf(name(alloc, 0)?);
    rows.push(Row::Answer(3, 0, key, groups, false))?;
    let hash = Hash {
        salt: [1; 16],
        digest: [2; 64],
    };
    let hash = Shared::new(alloc, hash)?;
    rows.push(Row::Hash(HASH, 0, name(alloc, 0)?, hash))?;
    for number in 0..users {
        let answered = found_user(alloc, kind, number)?;
        let key = Key::User(name(alloc, number)?);
        let row = Row::Answer(u64::from(number) + 5, 0, key, answered, false);
        rows.push(row)?;
    }
    Ok(rows)
}

/// Settings by which nothing that was told expires.
pub fn settings(alloc: Global) -> Result<Settings, Memory>
    ensures { IfOk result (λ settings. settings.primaries + settings.backups ≤ 64) }
{
    Ok(Settings {
        user_timeout: u32::MAX,
        group_timeout: u32::MAX,
        negative_timeout: u32::MAX,
        nowait: 0,
        offline_timeout: 60,
        hbac_refresh: u32::MAX,
        expiration_days: 0,
        attempts: 0,
        delay_minutes: 5,
        cached_auth_timeout: 0,
        journal_limit: u32::MAX,
        primaries: 1,
        backups: 0,
        cache_credentials: true,
        filter_users: Texts::new(alloc),
        filter_groups: Texts::new(alloc),
        access: AccessMode::Ipa,
        simple: SimpleLists {
            allow_users: Texts::new(alloc),
            deny_users: Texts::new(alloc),
            allow_groups: Texts::new(alloc),
            deny_groups: Texts::new(alloc),
        },
        hostname: text(alloc, b"www.example.com")?,
    })
}
