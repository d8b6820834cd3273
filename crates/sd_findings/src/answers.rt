// Which answer is the newest of a key, by the index.
ghost use Rattle.std.specs.Prelude.{◌≡◌, [], ◌∷◌, reverse, IfOk, None};
ghost use Rattle.std.specs.List.{list_any};
ghost use Rattle.std.specs.Option.{option_copied, option_map};
ghost use Rattle.sd_rules.specs.Needed as needed;
ghost use Rattle.sd_journal.specs.Seen as seen;
ghost use Rattle.sd_findings.specs.Findings as findings;
ghost use Rattle.sd_findings.specs.Whole as held;

use crate::whole::Whole;
use sd_base::{Copied, Memory};
use sd_cache::Newest;
use sd_journal::past::{Standing, answer_in};
use sd_rules::{Answered, Entry, Key, Record};

fn is_number_kept(number: u64, newest: Option<&Newest>) -> bool
    ensures { result ≡ findings.is_number_kept number (option_copied newest.entry) }
{
    match newest {
        Some(newest) => newest.number == number,
        None => false,
    }
}

/// Whether the answer of a number is the newest of a key.
fn is_newest_of(whole: Whole<'_>, number: u64, key: &Key) -> bool
    requires { held.IsIndexed whole }
    ensures { result ≡ needed.is_newest_of (held.past_of whole.entry) number key.now }
{
    is_number_kept(number, whole.index.newest(key))
}

fn is_found_kept(number: u64, found: Option<(usize, &Newest)>) -> bool
    ensures { result ≡ findings.is_number_kept number (option_map (λ p. p.1.now) found.entry) }
{
    match found {
        Some((_, newest)) => newest.number == number,
        None => false,
    }
}

/// Goes to the place where an answer was found.
fn go_near(near: &mut usize, found: Option<(usize, &Newest)>) {
    if let Some((place, _)) = found {
        *near = place;
    }
}

/// Whether the answer of a number is the newest of its own key. It is looked for first behind the one before: the index has its keys
/// in the order in which they came.
fn is_newest_of_own(whole: Whole<'_>, number: u64, key: &Key, near: &mut usize) -> bool
    requires { held.IsIndexed whole }
    ensures { result ≡ needed.is_newest_of (held.past_of whole.entry) number key.now }
{
    let found = whole.index.newest_behind(*near, key);
    go_near(near, found);
    is_found_kept(number, found)
}

fn is_newest_of_two(whole: Whole<'_>, number: u64, name: &Key, id: &Key) -> bool
    requires { held.IsIndexed whole }
    ensures { result ≡ list_any (λ key. needed.is_newest_of (held.past_of whole.entry) number key) (name.now ∷ id.now ∷ []) }
{
    is_newest_of(whole, number, name) || is_newest_of(whole, number, id)
}

/// Whether the answer of a number is the newest of a key of its record.
fn is_newest_of_record(whole: Whole<'_>, number: u64, found: &Record) -> Result<bool, Memory>
    requires { held.IsIndexed whole }
    ensures { IfOk result (λ is. is ≡ list_any (λ key. needed.is_newest_of (held.past_of whole.entry) number key) (needed.keys_of_record found.now)) }
{
    match found {
        Record::User(user) => {
            let name = Key::User(user.name.copy()?);
            let uid = Key::Uid(user.uid);
            Ok(is_newest_of_two(whole, number, &name, &uid))
        }
        Record::Group(group) => {
            let name = Key::Group(group.name.copy()?);
            let gid = Key::Gid(group.gid);
            Ok(is_newest_of_two(whole, number, &name, &gid))
        }
        _ => Ok(false),
    }
}

fn is_newest_of_answered(
    whole: Whole<'_>,
    number: u64,
    own: &Key,
    answered: &Answered,
    near: &mut usize,
) -> Result<bool, Memory>
    requires { held.IsIndexed whole }
    ensures { IfOk result (λ is. is ≡ list_any (λ key. needed.is_newest_of (held.past_of whole.entry) number key) (needed.keys_of_answer own.now answered.now)) }
{
    if is_newest_of_own(whole, number, own, near) {
        return Ok(true);
    }
    match answered {
        Answered::Found(found) => is_newest_of_record(whole, number, found.value()),
        Answered::Absent => Ok(false),
    }
}

/// Whether an answer, where there is one, is the newest of a key of which it speaks.
fn is_newest_of_some(
    whole: Whole<'_>,
    answer: Option<Standing<'_>>,
    near: &mut usize,
) -> Result<bool, Memory>
    requires { held.IsIndexed whole }
    ensures { IfOk result (λ is. is ≡ needed.is_newest_of_some (held.past_of whole.entry) (option_map seen.standing answer.entry)) }
{
    match answer {
        Some(a) => is_newest_of_answered(whole, a.number, a.own, a.answered, near),
        None => Ok(false),
    }
}

/// Whether an entry holds the newest answer of a key; `before` are the entries before it. `near` is the place in the index of the
/// last answer that was found there.
pub(crate) fn is_newest_answer(
    whole: Whole<'_>,
    before: &[Entry],
    entry: &Entry,
    near: &mut usize,
) -> Result<bool, Memory>
    requires { held.IsIndexed whole }
    ensures { IfOk result (λ is. is ≡ needed.is_newest_answer (held.past_of whole.entry) (reverse before.now) entry.now) }
{
    is_newest_of_some(whole, answer_in(before, entry), near)
}
