// Logins: stored hashes, online logins, wrong guesses, and the verdict on a password that was compared with a stored hash.
ghost use Rattle.std.specs.Prelude.{◌≡◌, reverse, Some, None, if◌then◌else◌};
ghost use Rattle.std.specs.Option.{option_copied, option_map};
ghost use Rattle.sd_rules.specs.Logins as logins;
ghost use Rattle.sd_rules.specs.Limits as limits;

use crate::past::is_closed;
use crate::requests::is_try_accepted;
use sd_base::Text;
use sd_rules::limits::{Login, only_hashed, still_cached, verdict_by_hash, verdict_by_login};
use sd_rules::{Entry, Event, LoginResult, Reply, Row, Settings, Verdict};

fn user_opened(event: &Event) -> Option<&Text>
    ensures { option_copied result ≡ logins.user_opened event.now }
{
    match event {
        Event::LoginOpen(user) => Some(user),
        _ => None,
    }
}

/// The user of a login attempt.
pub fn user_of(entries: &[Entry], attempt: u64) -> Option<&Text>
    ensures { option_copied result ≡ logins.user_of (reverse entries.now) attempt }
{
    for place in (0..entries.len()).rev() {
        let entry = &entries[place];
        if entry.number == attempt {
            return user_opened(&entry.event);
        }
    }
    None
}

fn is_attempt_of(entries: &[Entry], attempt: u64, user: &Text) -> bool
    ensures { result ≡ logins.is_attempt_of (reverse entries.now) attempt user.now }
{
    match user_of(entries, attempt) {
        Some(name) => name == user,
        None => false,
    }
}

/// Of an online login that the server accepted, whether it carries a hash.
pub fn hash_carried(outcome: &LoginResult) -> Option<bool>
    ensures { result ≡ logins.hash_carried outcome.now }
{
    match outcome {
        LoginResult::Right(hash) => Some(hash.is_some()),
        _ => None,
    }
}

fn kept_login(row: &Row, user: &Text) -> Option<bool>
    ensures { result ≡ logins.kept_login row.now user.now }
{
    match row {
        Row::Hash(_, _, name, _) => { if name == user { Some(true) } else { None } }
        Row::Online(_, _, name) => { if name == user { Some(false) } else { None } }
        _ => None,
    }
}

/// Whether an entry is an online login of the user, and then whether it carries a hash; `before` are the entries before it.
fn login_by(before: &[Entry], user: &Text, event: &Event, reply: Reply) -> Option<bool>
    ensures { result ≡ logins.login_by (reverse before.now) user.now event.now reply }
{
    match event {
        Event::LoginOnline(attempt, outcome) => {
            if is_closed(reply) && is_attempt_of(before, *attempt, user) {
                hash_carried(outcome.value())
            } else {
                None
            }
        }
        Event::Kept(row) => kept_login(row, user),
        _ => None,
    }
}

fn login_in(entry: &Entry, hashed: Option<bool>) -> Option<Login>
    ensures { option_map limits.login result ≡ logins.login_in entry.now hashed }
{
    match hashed {
        Some(hashed) => Some(Login {
            number: entry.number,
            moment: entry.moment,
            hashed,
        }),
        None => None,
    }
}

/// The last online login of a user.
pub fn last_online_login(entries: &[Entry], user: &Text) -> Option<Login>
    ensures { option_map limits.login result ≡ logins.last_online_login (reverse entries.now) user.now }
{
    for place in (0..entries.len()).rev() {
        let entry = &entries[place];
        let found = login_in(
            entry,
            login_by(&entries[..place], user, &entry.event, entry.reply),
        );
        if found.is_some() {
            return found;
        }
    }
    None
}

/// The hash entry of a user: the last online login that carries a hash.
pub fn hash_entry(entries: &[Entry], user: &Text) -> Option<Login>
    ensures { option_map limits.login result ≡ logins.hash_entry (reverse entries.now) user.now }
{
    for place in (0..entries.len()).rev() {
        let entry = &entries[place];
        let found = login_in(
            entry,
            login_by(&entries[..place], user, &entry.event, entry.reply),
        );
        let found = only_hashed(found);
        if found.is_some() {
            return found;
        }
    }
    None
}

fn is_right(outcome: &LoginResult) -> bool
    ensures { result ≡ logins.is_right outcome.now }
{
    matches!(outcome, LoginResult::Right(_))
}

fn is_accepted(reply: Reply) -> bool
    ensures { result ≡ logins.is_accepted reply }
{
    matches!(reply, Reply::Judged(Verdict::Accepted))
}

fn is_wrong(reply: Reply) -> bool
    ensures { result ≡ logins.is_wrong reply }
{
    matches!(reply, Reply::Judged(Verdict::Wrong))
}

/// Whether an entry accepts the user, online or by a stored hash; `before` are the entries before it.
pub fn accepts(before: &[Entry], user: &Text, event: &Event, reply: Reply) -> bool
    ensures { result ≡ logins.accepts (reverse before.now) user.now event.now reply }
{
    match event {
        Event::LoginOnline(attempt, outcome) => {
            is_right(outcome.value()) && is_closed(reply) && is_attempt_of(before, *attempt, user)
        }
        Event::LoginGuess(name, _, _) => is_accepted(reply) && name == user,
        Event::LoginTry(attempt, _, _) => {
            is_try_accepted(reply) && is_attempt_of(before, *attempt, user)
        }
        _ => false,
    }
}

/// How many wrong guesses of the user an entry counts for.
pub fn wrongs(user: &Text, event: &Event, reply: Reply) -> u64
    ensures { result ≡ logins.wrongs user.now event.now reply }
{
    match event {
        Event::LoginGuess(name, _, _) => {
            if is_wrong(reply) && name == user {
                1
            } else {
                0
            }
        }
        Event::Kept(Row::Wrong(_, _, name, count)) => { if name == user { *count } else { 0 } }
        _ => 0,
    }
}

/// How many guesses of the user were judged wrong since the last entry that accepted the user.
fn wrong_count(entries: &[Entry], user: &Text) -> u128
    ensures { result ≡ logins.wrong_count (reverse entries.now) user.now }
{
    let mut count = 0u128;
    for place in (0..entries.len()).rev() {
        let entry = &entries[place];
        if accepts(&entries[..place], user, &entry.event, entry.reply) {
            return count;
        }
        count += u128::from(wrongs(user, &entry.event, entry.reply));
    }
    count
}

/// The moment of the user's last wrong guess.
fn last_wrong(entries: &[Entry], user: &Text) -> Option<u64>
    ensures { result ≡ logins.last_wrong (reverse entries.now) user.now }
{
    for place in (0..entries.len()).rev() {
        let entry = &entries[place];
        if wrongs(user, &entry.event, entry.reply) != 0 {
            return Some(entry.moment);
        }
    }
    None
}

/// The hash entry of a user, where hashes are used.
pub fn usable_hash(settings: &Settings, entries: &[Entry], user: &Text) -> Option<Login>
    ensures { option_map limits.login result ≡ logins.usable_hash settings.now (reverse entries.now) user.now }
{
    if settings.cache_credentials {
        hash_entry(entries, user)
    } else {
        None
    }
}

/// The verdict on a guess that compared the password with the hash of the entry `named`.
pub fn verdict_of(
    settings: &Settings,
    entries: &[Entry],
    t: u64,
    user: &Text,
    named: u64,
    right: bool,
) -> Verdict
    ensures { result ≡ logins.verdict_of settings.now (reverse entries.now) t user.now named right }
{
    let login = usable_hash(settings, entries, user);
    let (count, last) = (wrong_count(entries, user), last_wrong(entries, user));
    verdict_by_hash(settings, t, count, last, login, named, right)
}

fn usable_login(settings: &Settings, entries: &[Entry], user: &Text) -> Option<Login>
    ensures { option_map limits.login result ≡ logins.usable_login settings.now (reverse entries.now) user.now }
{
    if settings.cache_credentials {
        only_hashed(last_online_login(entries, user))
    } else {
        None
    }
}

/// The online login whose hash a login may use while the directory can be reached.
pub fn cached_login(settings: &Settings, entries: &[Entry], t: u64, user: &Text) -> Option<u64>
    ensures { result ≡ logins.cached_login settings.now (reverse entries.now) t user.now }
{
    if settings.cached_auth_timeout == 0 {
        return None;
    }
    still_cached(settings, t, usable_login(settings, entries, user))
}

/// The verdict on a try, which compared the password with the hash of the online login `named`.
pub fn verdict_of_try(
    settings: &Settings,
    entries: &[Entry],
    t: u64,
    user: &Text,
    named: u64,
    right: bool,
) -> Verdict
    ensures { result ≡ logins.verdict_of_try settings.now (reverse entries.now) t user.now named right }
{
    let login = usable_login(settings, entries, user);
    verdict_by_login(settings, t, login, named, right)
}
