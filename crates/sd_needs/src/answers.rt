// Which answers are the newest of a key.
ghost use Rattle.std.specs.Prelude.{◌≡◌, reverse, None};
ghost use Rattle.std.specs.Option.{option_map};
ghost use Rattle.std.specs.List.{list_any};
ghost use Rattle.sd_rules.specs.Keys as keyed;
ghost use Rattle.sd_rules.specs.Needed as needed;
ghost use Rattle.sd_rules.specs.Past as past;
ghost use Rattle.sd_journal.specs.Seen as seen;
ghost use Rattle.sd_needs.specs.Places as places;

use sd_base::Text;
use sd_journal::past::{Standing, answer_in, newest};
use sd_rules::{Answered, Entry, Key, Record};

/// A key that names a user or a group, by a name that it need not own.
#[derive(Clone, Copy)]
pub enum Named<'a> {
    User(&'a Text),
    Group(&'a Text),
}

fn is_key_named(own: &Key, named: Named<'_>) -> bool
    ensures { result ≡ keyed.same_key own.now (places.key_named named.entry) }
{
    match named {
        Named::User(name) => match own {
            Key::User(n) => n == name,
            _ => false,
        },
        Named::Group(name) => match own {
            Key::Group(n) => n == name,
            _ => false,
        },
    }
}

fn is_record_named(found: &Record, named: Named<'_>) -> bool
    ensures { result ≡ keyed.record_speaks found.now (places.key_named named.entry) }
{
    match named {
        Named::User(name) => match found {
            Record::User(user) => user.name == *name,
            _ => false,
        },
        Named::Group(name) => match found {
            Record::Group(group) => group.name == *name,
            _ => false,
        },
    }
}

/// Whether the answer to a key speaks of a user or a group that is named.
fn speaks_of_named(own: &Key, answered: &Answered, named: Named<'_>) -> bool
    ensures { result ≡ keyed.speaks_of own.now answered.now (places.key_named named.entry) }
{
    if is_key_named(own, named) {
        return true;
    }
    match answered {
        Answered::Found(found) => is_record_named(found.value(), named),
        Answered::Absent => false,
    }
}

fn spoken_of_named<'a>(named: Named<'_>, answer: Option<Standing<'a>>) -> Option<Standing<'a>>
    ensures { option_map seen.standing result ≡ past.spoken (places.key_named named.entry) (option_map seen.standing answer.entry) }
{
    match answer {
        Some(a) => {
            if speaks_of_named(a.own, a.answered, named) {
                Some(a)
            } else {
                None
            }
        }
        None => None,
    }
}

/// The newest answer of a user or a group that is named. It takes no memory, as the search by a key that owns its name would.
fn newest_named<'a>(entries: &'a [Entry], named: Named<'_>) -> Option<Standing<'a>>
    ensures { option_map seen.standing result ≡ past.newest (reverse entries.now) (places.key_named named.entry) }
{
    for place in (0..entries.len()).rev() {
        let found = spoken_of_named(named, answer_in(&entries[..place], &entries[place]));
        if found.is_some() {
            return found;
        }
    }
    None
}

fn is_number_of(number: u64, answer: Option<Standing<'_>>) -> bool
    ensures { result ≡ needed.is_number_of number (option_map seen.standing answer.entry) }
{
    match answer {
        Some(a) => a.number == number,
        None => false,
    }
}

fn is_newest_of(all: &[Entry], number: u64, key: &Key) -> bool
    ensures { result ≡ needed.is_newest_of (reverse all.now) number key.now }
{
    is_number_of(number, newest(all, key))
}

fn is_newest_of_named(all: &[Entry], number: u64, named: Named<'_>) -> bool
    ensures { result ≡ needed.is_newest_of (reverse all.now) number (places.key_named named.entry) }
{
    is_number_of(number, newest_named(all, named))
}

/// Whether the answer of a number is the newest of a key of its record.
fn is_newest_of_record(all: &[Entry], number: u64, found: &Record) -> bool
    ensures { result ≡ list_any (λ key. needed.is_newest_of (reverse all.now) number key) (needed.keys_of_record found.now) }
{
    match found {
        Record::User(user) => {
            let uid = Key::Uid(user.uid);
            is_newest_of_named(all, number, Named::User(&user.name))
                || is_newest_of(all, number, &uid)
        }
        Record::Group(group) => {
            let gid = Key::Gid(group.gid);
            is_newest_of_named(all, number, Named::Group(&group.name))
                || is_newest_of(all, number, &gid)
        }
        _ => false,
    }
}

fn is_newest_of_answered(all: &[Entry], number: u64, own: &Key, answered: &Answered) -> bool
    ensures { result ≡ list_any (λ key. needed.is_newest_of (reverse all.now) number key) (needed.keys_of_answer own.now answered.now) }
{
    if is_newest_of(all, number, own) {
        return true;
    }
    match answered {
        Answered::Found(found) => is_newest_of_record(all, number, found.value()),
        Answered::Absent => false,
    }
}

/// Whether an answer, where there is one, is the newest of a key of which it speaks.
pub fn is_newest_of_some(all: &[Entry], answer: Option<Standing<'_>>) -> bool
    ensures { result ≡ needed.is_newest_of_some (reverse all.now) (option_map seen.standing answer.entry) }
{
    match answer {
        Some(a) => is_newest_of_answered(all, a.number, a.own, a.answered),
        None => false,
    }
}

/// Whether an entry holds an answer that is the newest of a key; `before` are the entries before it.
pub fn is_newest_answer(all: &[Entry], before: &[Entry], entry: &Entry) -> bool
    ensures { result ≡ needed.is_newest_answer (reverse all.now) (reverse before.now) entry.now }
{
    is_newest_of_some(all, answer_in(before, entry))
}
