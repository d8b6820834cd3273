// How much text a kept row, or a part of it, holds, in bytes, with eight more for each text. A sum past the greatest u64 stands still there.
ghost use Rattle.std.specs.Prelude.{◌≡◌, ◌+◌, ◌-◌, ◌^◌, min, sum_by};
ghost use Rattle.sd_rules.specs.TextBytes as bytes;

use sd_base::{Text, Texts};
use sd_rules::{
    Answered, Element, GroupRefs, Key, Record, Row, Rule, RuleList, Service, ServiceList, User,
};

/// What each text counts for beside its bytes.
const TEXT_OVERHEAD: u64 = 8;

/// The bytes of a text, and eight more.
pub fn of_text(text: &Text) -> u64
    ensures { result ≡ min (bytes.bytes_of_text text.now) (2 ^ 64 - 1) }
{
    (text.bytes().len() as u64).saturating_add(TEXT_OVERHEAD)
}

fn of_texts(texts: &Texts) -> u64
    ensures { result ≡ min (bytes.bytes_of_texts texts.now) (2 ^ 64 - 1) }
{
    let mut total = 0u64;
    for text in texts.items() {
        total = total.saturating_add(of_text(text));
    }
    total
}

fn of_user(user: &User) -> u64
    ensures { result ≡ min (bytes.bytes_of_user user.now) (2 ^ 64 - 1) }
{
    of_text(&user.dn)
        .saturating_add(of_text(&user.name))
        .saturating_add(of_text(&user.gecos))
        .saturating_add(of_text(&user.home))
        .saturating_add(of_text(&user.shell))
}

fn of_element(element: &Element) -> u64
    ensures { result ≡ min (bytes.bytes_of_element element.now) (2 ^ 64 - 1) }
{
    of_texts(&element.names).saturating_add(of_texts(&element.groups))
}

fn of_rule(rule: &Rule) -> u64
    ensures { result ≡ min (bytes.bytes_of_rule rule.now) (2 ^ 64 - 1) }
{
    of_text(&rule.name)
        .saturating_add(of_element(&rule.users))
        .saturating_add(of_element(&rule.hosts))
        .saturating_add(of_element(&rule.services))
}

fn of_rules(rules: &RuleList) -> u64
    ensures { result ≡ min (sum_by bytes.bytes_of_rule rules.now) (2 ^ 64 - 1) }
{
    let mut total = 0u64;
    for rule in rules.items() {
        total = total.saturating_add(of_rule(rule));
    }
    total
}

fn of_service(service: &Service) -> u64
    ensures { result ≡ min (bytes.bytes_of_service service.now) (2 ^ 64 - 1) }
{
    of_text(&service.name).saturating_add(of_texts(&service.groups))
}

fn of_services(services: &ServiceList) -> u64
    ensures { result ≡ min (sum_by bytes.bytes_of_service services.now) (2 ^ 64 - 1) }
{
    let mut total = 0u64;
    for service in services.items() {
        total = total.saturating_add(of_service(service));
    }
    total
}

fn of_refs(groups: &GroupRefs) -> u64
    ensures { result ≡ min (sum_by bytes.bytes_of_ref groups.now) (2 ^ 64 - 1) }
{
    let mut total = 0u64;
    for group in groups.items() {
        total = total.saturating_add(of_text(&group.name));
    }
    total
}

fn of_record(found: &Record) -> u64
    ensures { result ≡ min (bytes.bytes_of_record found.now) (2 ^ 64 - 1) }
{
    match found {
        Record::User(user) => of_user(user),
        Record::Group(group) => of_text(&group.dn)
            .saturating_add(of_text(&group.name))
            .saturating_add(of_texts(&group.members)),
        Record::Groups(groups) => of_text(&groups.user).saturating_add(of_refs(&groups.groups)),
        Record::Host(host) => of_text(&host.name).saturating_add(of_texts(&host.groups)),
        Record::Rules(book) => of_rules(&book.rules).saturating_add(of_services(&book.services)),
    }
}

/// The text bytes of what was answered.
pub fn of_answered(answered: &Answered) -> u64
    ensures { result ≡ min (bytes.bytes_of_answered answered.now) (2 ^ 64 - 1) }
{
    match answered {
        Answered::Found(found) => of_record(found.value()),
        Answered::Absent => 0,
    }
}

/// The text bytes of a key.
pub fn of_key(key: &Key) -> u64
    ensures { result ≡ min (bytes.bytes_of_key key.now) (2 ^ 64 - 1) }
{
    match key {
        Key::User(name) | Key::Group(name) | Key::GroupsOf(name) => of_text(name),
        _ => 0,
    }
}

/// The text bytes of a row.
pub fn of_row(row: &Row) -> u64
    ensures { result ≡ min (bytes.bytes_of_row row.now) (2 ^ 64 - 1) }
{
    match row {
        Row::Answer(_, _, key, answered, _) => of_key(key).saturating_add(of_answered(answered)),
        Row::Hash(_, _, user, _) | Row::Wrong(_, _, user, _) | Row::Online(_, _, user) => {
            of_text(user)
        }
        _ => 0,
    }
}
