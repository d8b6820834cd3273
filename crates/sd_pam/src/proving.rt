// How a login goes on once its user is found: at a server, by the hash of an online login, or by the stored hash.
ghost use Rattle.std.specs.Prelude.{◌≡◌, IfOk};
ghost use Rattle.sd_rules.specs.LoginScript as scripts;
ghost use Rattle.sd_pam.specs.Logins as seen;

use crate::found_user::FoundUser;
use crate::login::LoginWords;
use sd_base::{Copied, Memory, Shared, Text, Why};
use sd_creds::{hash, verify};
use sd_rules::{
    Bound, Event, Given, Hash, LoginResult, LoginStage, LoginStep, Need, Reply, Said, Verdict,
};

/// Result codes of RFC 4511 appendix A.1 that end a bind in their own way.
const SUCCESS: u32 = 0;

const INVALID_CREDENTIALS: u32 = 49;

const BUSY: u32 = 51;

const UNAVAILABLE: u32 = 52;

/// What a login needs next.
pub fn need(words: &LoginWords, user: &FoundUser, stage: LoginStage) -> Result<Need, Memory>
    ensures { IfOk result (λ need. need ≡ scripts.login_need (seen.words_of words.now) user.now stage) }
{
    Ok(match stage {
        LoginStage::Open => Need::Step(Event::LoginOpen(words.user.copy()?)),
        LoginStage::Try(attempt, named, right) => {
            Need::Step(Event::LoginTry(attempt, named, right))
        }
        LoginStage::Pick(attempt) => Need::Step(Event::Pick(attempt)),
        LoginStage::Bind(_, server) => Need::Bind(server, user.dn()?, words.password.copy()?),
        LoginStage::Online(attempt, said) => {
            let said = Shared::new(words.alloc, said)?;
            Need::Step(Event::LoginOnline(attempt, said))
        }
        LoginStage::Fall(attempt, server, why) => Need::Step(Event::Fall(attempt, server, why)),
        LoginStage::Outage(attempt) => Need::Step(Event::Outage(attempt)),
        LoginStage::Look => Need::Step(Event::LoginLook(words.user.copy()?)),
        LoginStage::Guess(named, right) => {
            Need::Step(Event::LoginGuess(words.user.copy()?, named, right))
        }
    })
}

/// Whether the password is right by a hash.
fn is_right_by(words: &LoginWords, hash: Hash) -> bool
    ensures { result ≡ scripts.is_right_by (seen.words_of words.now) hash }
{
    verify(&hash, words.password.bytes())
}

/// The hash that a right password leaves, where hashes are stored.
fn hash_left(words: &LoginWords, attempt: u64) -> Option<Hash>
    ensures { result ≡ scripts.hash_left (seen.words_of words.now) attempt }
{
    if words.stores {
        Some(hash(words.salts.salt(attempt), words.password.bytes()))
    } else {
        None
    }
}

fn after_cached(words: &LoginWords, attempt: u64, named: u64, hash: Option<Hash>) -> LoginStep
    ensures { result ≡ scripts.after_cached (seen.words_of words.now) attempt named hash }
{
    match hash {
        Some(hash) => LoginStep::Next(LoginStage::Try(attempt, named, is_right_by(words, hash))),
        None => LoginStep::Next(LoginStage::Pick(attempt)),
    }
}

fn after_open(words: &LoginWords, number: u64, hash: Option<Hash>, reply: Reply) -> LoginStep
    ensures { result ≡ scripts.after_open (seen.words_of words.now) number hash reply }
{
    match reply {
        Reply::Offline(_) => LoginStep::Next(LoginStage::Look),
        Reply::Cached(attempt, named) => after_cached(words, attempt, named, hash),
        Reply::Bind(attempt) => LoginStep::Next(LoginStage::Pick(attempt)),
        _ => LoginStep::Ended(Said::Dropped(number)),
    }
}

fn after_try(attempt: u64, number: u64, reply: Reply) -> LoginStep
    ensures { result ≡ scripts.after_try attempt number reply }
{
    match reply {
        Reply::Tried(Verdict::Accepted) => LoginStep::Ended(Said::AcceptedOnline(number)),
        Reply::Tried(_) => LoginStep::Next(LoginStage::Pick(attempt)),
        _ => LoginStep::Ended(Said::Dropped(number)),
    }
}

fn after_pick(attempt: u64, number: u64, reply: Reply) -> LoginStep
    ensures { result ≡ scripts.after_login_pick attempt number reply }
{
    match reply {
        Reply::Server(server) => LoginStep::Next(LoginStage::Bind(attempt, server)),
        Reply::NoServer => LoginStep::Next(LoginStage::Outage(attempt)),
        _ => LoginStep::Ended(Said::Dropped(number)),
    }
}

/// What a server said of the password, as the client is told it.
fn online_said(number: u64, said: LoginResult) -> Said
    ensures { result ≡ scripts.online_said number said }
{
    match said {
        LoginResult::Right(_) => Said::AcceptedOnline(number),
        LoginResult::Wrong => Said::WrongOnline(number),
        LoginResult::Refused(code) => Said::Refused(code),
    }
}

fn after_online(said: LoginResult, number: u64, reply: Reply) -> LoginStep
    ensures { result ≡ scripts.after_online said number reply }
{
    match reply {
        Reply::Closed => LoginStep::Ended(online_said(number, said)),
        _ => LoginStep::Ended(Said::Dropped(number)),
    }
}

fn after_fall(attempt: u64, number: u64, reply: Reply) -> LoginStep
    ensures { result ≡ scripts.after_login_fall attempt number reply }
{
    match reply {
        Reply::Noted | Reply::NotPicked => LoginStep::Next(LoginStage::Pick(attempt)),
        _ => LoginStep::Ended(Said::Dropped(number)),
    }
}

fn after_outage(attempt: u64, number: u64, reply: Reply) -> LoginStep
    ensures { result ≡ scripts.after_login_outage attempt number reply }
{
    match reply {
        Reply::Servable(_) => LoginStep::Next(LoginStage::Pick(attempt)),
        Reply::Closed => LoginStep::Next(LoginStage::Look),
        _ => LoginStep::Ended(Said::Dropped(number)),
    }
}

fn after_hash(words: &LoginWords, number: u64, named: u64, hash: Option<Hash>) -> LoginStep
    ensures { result ≡ scripts.after_hash (seen.words_of words.now) number named hash }
{
    match hash {
        Some(hash) => LoginStep::Next(LoginStage::Guess(named, is_right_by(words, hash))),
        None => LoginStep::Ended(Said::Dropped(number)),
    }
}

fn after_look(words: &LoginWords, number: u64, hash: Option<Hash>, reply: Reply) -> LoginStep
    ensures { result ≡ scripts.after_look (seen.words_of words.now) number hash reply }
{
    match reply {
        Reply::NoHash => LoginStep::Ended(Said::NoHash),
        Reply::Hash(named) => after_hash(words, number, named, hash),
        _ => LoginStep::Ended(Said::Dropped(number)),
    }
}

fn after_verdict(number: u64, verdict: Verdict) -> LoginStep
    ensures { result ≡ scripts.after_verdict number verdict }
{
    match verdict {
        Verdict::Unknown => LoginStep::Ended(Said::NoHash),
        Verdict::Expired(moment) => LoginStep::Ended(Said::Expired(moment)),
        Verdict::Blocked(until) => LoginStep::Ended(Said::Blocked(until)),
        Verdict::Stale(_) => LoginStep::Next(LoginStage::Look),
        Verdict::Accepted => LoginStep::Ended(Said::AcceptedOffline(number)),
        Verdict::Wrong => LoginStep::Ended(Said::WrongOffline(number)),
    }
}

fn after_guess(number: u64, reply: Reply) -> LoginStep
    ensures { result ≡ scripts.after_guess number reply }
{
    match reply {
        Reply::Judged(verdict) => after_verdict(number, verdict),
        _ => LoginStep::Ended(Said::Dropped(number)),
    }
}

/// How a login goes on after a reply.
pub fn replied(words: &LoginWords, stage: LoginStage, given: &Given) -> LoginStep
    ensures { result ≡ scripts.login_replied (seen.words_of words.now) stage given.now }
{
    let number = given.number;
    let reply = given.reply;
    match stage {
        LoginStage::Open => after_open(words, number, given.hash, reply),
        LoginStage::Try(attempt, _, _) => after_try(attempt, number, reply),
        LoginStage::Pick(attempt) => after_pick(attempt, number, reply),
        LoginStage::Bind(attempt, server) => LoginStep::Next(LoginStage::Bind(attempt, server)),
        LoginStage::Online(_, said) => after_online(said, number, reply),
        LoginStage::Fall(attempt, _, _) => after_fall(attempt, number, reply),
        LoginStage::Outage(attempt) => after_outage(attempt, number, reply),
        LoginStage::Look => after_look(words, number, given.hash, reply),
        LoginStage::Guess(_, _) => after_guess(number, reply),
    }
}

fn after_code(words: &LoginWords, attempt: u64, server: u32, code: u32) -> LoginStage
    ensures { result ≡ scripts.after_code (seen.words_of words.now) attempt server code }
{
    if code == SUCCESS {
        LoginStage::Online(attempt, LoginResult::Right(hash_left(words, attempt)))
    } else if code == INVALID_CREDENTIALS {
        LoginStage::Online(attempt, LoginResult::Wrong)
    } else if code == BUSY || code == UNAVAILABLE {
        LoginStage::Fall(attempt, server, Why::Code(code))
    } else {
        LoginStage::Online(attempt, LoginResult::Refused(code))
    }
}

fn after_bind(words: &LoginWords, attempt: u64, server: u32, bound: Bound) -> LoginStage
    ensures { result ≡ scripts.after_bind (seen.words_of words.now) attempt server bound }
{
    match bound {
        Bound::Code(code) => after_code(words, attempt, server, code),
        Bound::Failed(why) => LoginStage::Fall(attempt, server, why),
        Bound::Memory => LoginStage::Bind(attempt, server),
    }
}

/// How a login goes on after a bind.
pub fn bound(words: &LoginWords, stage: LoginStage, bound: Bound) -> LoginStage
    ensures { result ≡ scripts.login_bound (seen.words_of words.now) stage bound }
{
    match stage {
        LoginStage::Bind(attempt, server) => after_bind(words, attempt, server, bound),
        _ => stage,
    }
}
