// Of which keys an answer speaks, and which answers an invalidation covers.
ghost use Rattle.std.specs.Prelude.{◌≡◌};
ghost use Rattle.sd_rules.specs.Keys as keyed;

use sd_base::Text;
use sd_rules::{Answered, Key, Record, What};

/// Whether the key asks for a record of a user, by name or by number.
fn is_user_key(key: &Key) -> bool
    ensures { result ≡ keyed.is_user_key key.now }
{
    matches!(key, Key::User(_) | Key::Uid(_))
}

/// Whether the key asks for a record of a group, by name or by number.
fn is_group_key(key: &Key) -> bool
    ensures { result ≡ keyed.is_group_key key.now }
{
    matches!(key, Key::Group(_) | Key::Gid(_))
}

fn is_groups_key(key: &Key) -> bool
    ensures { result ≡ keyed.is_groups_key key.now }
{
    matches!(key, Key::GroupsOf(_))
}

fn is_user_of(key: &Key, name: &Text) -> bool
    ensures { result ≡ keyed.same_key key.now (Key.User name.now) }
{
    match key {
        Key::User(n) => n == name,
        _ => false,
    }
}

fn is_group_of(key: &Key, name: &Text) -> bool
    ensures { result ≡ keyed.same_key key.now (Key.Group name.now) }
{
    match key {
        Key::Group(n) => n == name,
        _ => false,
    }
}

fn is_groups_of(key: &Key, name: &Text) -> bool
    ensures { result ≡ keyed.same_key key.now (Key.GroupsOf name.now) }
{
    match key {
        Key::GroupsOf(n) => n == name,
        _ => false,
    }
}

fn is_user_named(answered: &Answered, name: &Text) -> bool
    ensures { result ≡ keyed.is_user_named answered.now name.now }
{
    match answered {
        Answered::Found(found) => match found.value() {
            Record::User(user) => user.name == *name,
            _ => false,
        },
        Answered::Absent => false,
    }
}

fn is_group_named(answered: &Answered, name: &Text) -> bool
    ensures { result ≡ keyed.is_group_named answered.now name.now }
{
    match answered {
        Answered::Found(found) => match found.value() {
            Record::Group(group) => group.name == *name,
            _ => false,
        },
        Answered::Absent => false,
    }
}

/// Whether a record speaks of a key by its name or its number.
fn record_speaks(found: &Record, key: &Key) -> bool
    ensures { result ≡ keyed.record_speaks found.now key.now }
{
    match found {
        Record::User(user) => match key {
            Key::User(name) => user.name == *name,
            Key::Uid(uid) => user.uid == *uid,
            _ => false,
        },
        Record::Group(group) => match key {
            Key::Group(name) => group.name == *name,
            Key::Gid(gid) => group.gid == *gid,
            _ => false,
        },
        _ => false,
    }
}

/// Whether the answer to a key speaks of another key.
pub fn speaks_of(own: &Key, answered: &Answered, key: &Key) -> bool
    ensures { result ≡ keyed.speaks_of own.now answered.now key.now }
{
    if own == key {
        return true;
    }
    match answered {
        Answered::Found(found) => record_speaks(found.value(), key),
        Answered::Absent => false,
    }
}

/// Whether an invalidation covers what was answered to a key.
pub fn covers(what: &What, own: &Key, answered: &Answered) -> bool
    ensures { result ≡ keyed.covers what.now own.now answered.now }
{
    match what {
        What::All => true,
        What::Users => is_user_key(own) || is_groups_key(own),
        What::Groups => is_group_key(own),
        What::User(name) => {
            is_user_of(own, name) || is_groups_of(own, name) || is_user_named(answered, name)
        }
        What::Group(name) => is_group_of(own, name) || is_group_named(answered, name),
    }
}
