// The records of worked journals, told in a short form.
use crate::words::{Words, cut, is};
use sd_base::{Memory, Shared, Text, Texts};
use sd_rules::{
    Answered, Element, Group, GroupRef, GroupRefs, Groups, Host, Record, Rule, RuleBook, RuleList,
    Service, ServiceList, User,
};
use std::alloc::Global;

fn one(alloc: Global, name: &[u8]) -> Result<Texts, Memory> {
    let mut list = Texts::new(alloc);
    list.push(Text::from_bytes(alloc, name)?)?;
    Ok(list)
}

/// `user NAME UID`
fn user(alloc: Global, words: &mut Words<'_>) -> Result<Record, Memory> {
    let name = words.text(alloc)?;
    let dn = Text::from_bytes(alloc, b"")?;
    let gecos = Text::from_bytes(alloc, b"")?;
    let home = Text::from_bytes(alloc, b"")?;
    let shell = Text::from_bytes(alloc, b"")?;
    Ok(Record::User(User {
        dn,
        name,
        uid: words.short(),
        gid: 100,
        gecos,
        home,
        shell,
    }))
}

/// `group NAME GID`
fn group(alloc: Global, words: &mut Words<'_>) -> Result<Record, Memory> {
    let name = words.text(alloc)?;
    let dn = Text::from_bytes(alloc, b"")?;
    Ok(Record::Group(Group {
        dn,
        name,
        gid: words.short(),
        members: Texts::new(alloc),
    }))
}

/// `groups USER GROUP`
fn groups(alloc: Global, words: &mut Words<'_>) -> Result<Record, Memory> {
    let user = words.text(alloc)?;
    let name = words.text(alloc)?;
    let mut groups = GroupRefs::new(alloc);
    groups.push(GroupRef {
        name,
        gid: Some(2001),
    })?;
    Ok(Record::Groups(Groups { user, groups }))
}

/// `host NAME GROUP`
fn host(alloc: Global, words: &mut Words<'_>) -> Result<Record, Memory> {
    let name = words.text(alloc)?;
    let groups = one(alloc, words.word())?;
    Ok(Record::Host(Host { name, groups }))
}

fn everything(alloc: Global) -> Element {
    Element {
        all: true,
        names: Texts::new(alloc),
        groups: Texts::new(alloc),
    }
}

fn nothing(alloc: Global) -> Element {
    Element {
        all: false,
        names: Texts::new(alloc),
        groups: Texts::new(alloc),
    }
}

fn members(alloc: Global, group: &[u8]) -> Result<Element, Memory> {
    Ok(Element {
        all: false,
        names: Texts::new(alloc),
        groups: one(alloc, group)?,
    })
}

/// A rule for members of groups.
fn rule_by_groups(alloc: Global, name: Text) -> Result<Rule, Memory> {
    let users = members(alloc, b"staff")?;
    let hosts = members(alloc, b"webhosts")?;
    let services = members(alloc, b"shells")?;
    Ok(Rule {
        name,
        enabled: true,
        users,
        hosts,
        services,
    })
}

fn rule_for_all(alloc: Global, name: Text, enabled: bool, services: Element) -> Rule {
    Rule {
        name,
        enabled,
        users: everything(alloc),
        hosts: everything(alloc),
        services,
    }
}

/// A rule: `r1` for members of groups, `empty` without services, `off` that is not enabled, any other for everything.
fn rule(alloc: Global, name: &[u8]) -> Result<Rule, Memory> {
    let text = Text::from_bytes(alloc, name)?;
    if is(name, b"r1") {
        return rule_by_groups(alloc, text);
    }
    let services = if is(name, b"empty") {
        nothing(alloc)
    } else {
        everything(alloc)
    };
    Ok(rule_for_all(alloc, text, !is(name, b"off"), services))
}

fn services(alloc: Global) -> Result<ServiceList, Memory> {
    let name = Text::from_bytes(alloc, b"sshd")?;
    let groups = one(alloc, b"shells")?;
    let mut services = ServiceList::new(alloc);
    services.push(Service { name, groups })?;
    Ok(services)
}

fn rules(alloc: Global, names: &[u8]) -> Result<RuleList, Memory> {
    let mut rules = RuleList::new(alloc);
    let mut left = names;
    for _ in 0..names.len() {
        let (name, rest) = cut(left, b',');
        rules.push(rule(alloc, name)?)?;
        left = rest;
        if left.is_empty() {
            break;
        }
    }
    Ok(rules)
}

/// `rules NAMES`: rules by their names, which commas part, and the service `sshd` of the group `shells`.
fn book(alloc: Global, words: &mut Words<'_>) -> Result<Record, Memory> {
    let rules = rules(alloc, words.word())?;
    let services = services(alloc)?;
    Ok(Record::Rules(RuleBook { rules, services }))
}

fn record(alloc: Global, words: &mut Words<'_>) -> Result<Record, Memory> {
    let kind = words.word();
    if is(kind, b"user") {
        user(alloc, words)
    } else if is(kind, b"group") {
        group(alloc, words)
    } else if is(kind, b"groups") {
        groups(alloc, words)
    } else if is(kind, b"host") {
        host(alloc, words)
    } else {
        book(alloc, words)
    }
}

/// `found` and a record, or `absent`.
pub fn answered(alloc: Global, words: &mut Words<'_>) -> Result<Answered, Memory> {
    if is(words.word(), b"found") {
        let found = Shared::new(alloc, record(alloc, words)?)?;
        Ok(Answered::Found(found))
    } else {
        Ok(Answered::Absent)
    }
}
