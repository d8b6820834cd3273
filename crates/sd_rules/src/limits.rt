// The limits on stored hashes: how long they may be used, and how many wrong guesses block.
ghost use Rattle.std.specs.Prelude.{◌≡◌, ◌+◌, ℕ, Some, None, if◌then◌else◌, nat_lt};
ghost use Rattle.std.specs.Option.{option_map};
ghost use Rattle.sd_rules.specs.Logins as logins;
ghost use Rattle.sd_rules.specs.Limits as seen;

use crate::replies::Verdict;
use crate::settings::Settings;

/// The seconds of a day.
const DAY: u64 = 86400;

/// The seconds of a minute.
const MINUTE: u64 = 60;

/// An online login: the number and the moment of its entry, and whether it carries a hash.
#[derive(Clone, Copy)]
pub struct Login {
    pub number: u64,
    pub moment: u64,
    pub hashed: bool,
}

/// Whether a moment t comes before the end of a span of seconds: the end is the first moment that is not within it.
pub fn is_within(begin: u64, span: u64, t: u64) -> bool
    ensures { result ≡ nat_lt t (begin + span) }
{
    t < begin || t - begin < span
}

/// The login, where it carries a hash.
pub fn only_hashed(login: Option<Login>) -> Option<Login>
    ensures { option_map seen.login result ≡ logins.only_hashed (option_map seen.login login) }
{
    match login {
        Some(l) => { if l.hashed { Some(l) } else { None } }
        None => None,
    }
}

/// The last moment at which the hash of a login may be used.
fn expiry_of(settings: &Settings, login: Login) -> u128
    ensures { result ≡ logins.expiry_of settings.now (seen.login login) }
{
    u128::from(login.moment) + u128::from(DAY * u64::from(settings.expiration_days))
}

/// The expiry of a login's hash, where it has passed.
fn expired(settings: &Settings, t: u64, login: Login) -> Option<u64>
    ensures { result ≡ (if logins.is_expired settings.now t (seen.login login) then Some (logins.expiry_of settings.now (seen.login login)) else None) }
{
    let expiry = expiry_of(settings, login);
    if settings.expiration_days != 0 && expiry < u128::from(t) {
        Some(expiry as u64)
    } else {
        None
    }
}

/// Whether so many wrong guesses block.
fn is_at_limit(settings: &Settings, wrong: u128) -> bool
    ensures { result ≡ logins.is_at_limit settings.now wrong }
{
    if settings.attempts == 0 || wrong == 0 {
        return false;
    }
    wrong % u128::from(settings.attempts) == 0
}

/// The block by a wrong guess at a moment, where it stands at t.
fn block_until(settings: &Settings, t: u64, wrong: Option<u64>) -> Option<Verdict>
    ensures { result ≡ logins.block_until settings.now t wrong }
{
    let wrong = wrong?;
    if settings.delay_minutes == 0 {
        return Some(Verdict::Blocked(None));
    }
    let delay = MINUTE * u64::from(settings.delay_minutes);
    if is_within(wrong, delay, t) {
        Some(Verdict::Blocked(Some(wrong.saturating_add(delay))))
    } else {
        None
    }
}

/// The verdict where nothing but the hash that was compared and the guess count.
fn verdict_by_guess(login: Login, named: u64, right: bool) -> Verdict
    ensures { result ≡ logins.verdict_by_guess (seen.login login) named right }
{
    if login.number != named {
        Verdict::Stale(login.number)
    } else if right {
        Verdict::Accepted
    } else {
        Verdict::Wrong
    }
}

/// The same, where no block stands.
fn verdict_unless_blocked(block: Option<Verdict>, login: Login, named: u64, right: bool) -> Verdict
    ensures { result ≡ logins.verdict_unless_blocked block (seen.login login) named right }
{
    match block {
        Some(verdict) => verdict,
        None => verdict_by_guess(login, named, right),
    }
}

/// The block that so many wrong guesses, of which the last was at a moment, bring at t.
fn block_of(settings: &Settings, t: u64, wrongs: u128, last_wrong: Option<u64>) -> Option<Verdict>
    ensures { result ≡ logins.block_of settings.now t wrongs last_wrong }
{
    if is_at_limit(settings, wrongs) {
        block_until(settings, t, last_wrong)
    } else {
        None
    }
}

/// The verdict by the hash entry, the wrong guesses and the moment of the last of them.
pub fn verdict_by_hash(
    settings: &Settings,
    t: u64,
    wrongs: u128,
    last_wrong: Option<u64>,
    login: Option<Login>,
    named: u64,
    right: bool,
) -> Verdict
    ensures { result ≡ logins.verdict_by_hash settings.now t wrongs last_wrong (option_map seen.login login) named right }
{
    match login {
        Some(l) => match expired(settings, t, l) {
            Some(expiry) => Verdict::Expired(expiry),
            None => {
                let block = block_of(settings, t, wrongs, last_wrong);
                verdict_unless_blocked(block, l, named, right)
            }
        },
        None => Verdict::Unknown,
    }
}

/// The entry of the login whose hash a login may use while the directory can be reached.
pub fn still_cached(settings: &Settings, t: u64, login: Option<Login>) -> Option<u64>
    ensures { result ≡ logins.still_cached settings.now t (option_map seen.login login) }
{
    match login {
        Some(l) => {
            if is_within(l.moment, u64::from(settings.cached_auth_timeout), t) {
                Some(l.number)
            } else {
                None
            }
        }
        None => None,
    }
}

/// The verdict on a try by the last online login.
pub fn verdict_by_login(
    settings: &Settings,
    t: u64,
    login: Option<Login>,
    named: u64,
    right: bool,
) -> Verdict
    ensures { result ≡ logins.verdict_by_login settings.now t (option_map seen.login login) named right }
{
    match login {
        Some(l) => {
            let span = u64::from(settings.cached_auth_timeout);
            if is_within(l.moment, span, t) {
                verdict_by_guess(l, named, right)
            } else {
                Verdict::Expired(l.moment.saturating_add(span))
            }
        }
        None => Verdict::Unknown,
    }
}
