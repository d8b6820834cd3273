// How a login or an account check closes: its client is told, then the answers that are past their midpoint are renewed.
ghost use Rattle.std.specs.Prelude.{◌≡◌, ℕ, true, List, [], ◌∷◌, ◌++◌, Option, Some, None, IfOk};
ghost use Rattle.sd_rules.specs.Lookups as lookups;
ghost use Rattle.sd_rules.specs.Closings as scripts;
ghost use Rattle.sd_rules.specs.declared.scripts.Led.{Led};
ghost use Rattle.sd_pam.specs.Closings as seen;

use sd_base::{Copied, Memory, Text};
use sd_nss::lookup;
use sd_rules::{Fetched, Given, Key, LookupStage, LookupStep, Need, Said};

/// What an account check looks up, in this order. A login looks up the user alone.
#[derive(Clone, Copy, PartialEq, Eq)]
pub enum Part {
    User,
    Groups,
    Host,
    Rules,
}

/// The requests that are led to renew answers, by the part that leads each.
#[derive(Clone, Copy)]
pub struct Renewals {
    pub user: Option<u64>,
    pub groups: Option<u64>,
    pub host: Option<u64>,
    pub rules: Option<u64>,
}

/// How far a login or an account check that closes has come.
#[derive(Drop)]
pub enum Closing {
    /// This is to be told to the client; then these requests are to be carried out.
    Saying(Said, Renewals),
    /// The key of this part is looked up anew; then these requests are to be carried out.
    Renewing(Part, LookupStage, Renewals),
    /// Nothing is left to do.
    Over,
}

/// No request.
pub fn no_renewals() -> Renewals
    ensures none { result ≡ record { user = None; groups = None; host = None; rules = None } }
    ensures led { (user : List ℕ) → seen.led user result ≡ [] }
    ensures free { seen.is_free Part.User result ≡ true }
{
    Renewals {
        user: None,
        groups: None,
        host: None,
        rules: None,
    }
}

/// These requests, and that of a part behind them.
#[tactic(auto, using(crate::proofs::Renewed::user_led, crate::proofs::Renewed::groups_led, crate::proofs::Renewed::host_led, crate::proofs::Renewed::rules_led))]
pub fn with_renewal(renewals: Renewals, part: Part, request: u64) -> Renewals
    requires { seen.is_free part renewals ≡ true }
    ensures led { (user : List ℕ) → seen.led user result ≡ seen.led user renewals ++ record { request = request; key = seen.key_of user part } ∷ [] }
    ensures free { seen.is_free_after part result ≡ true }
{
    match part {
        Part::User => Renewals {
            user: Some(request),
            ..renewals
        },
        Part::Groups => Renewals {
            groups: Some(request),
            ..renewals
        },
        Part::Host => Renewals {
            host: Some(request),
            ..renewals
        },
        Part::Rules => Renewals {
            rules: Some(request),
            ..renewals
        },
    }
}

/// The key of a part.
fn key_of(user: &Text, part: Part) -> Result<Key, Memory>
    ensures { IfOk result (λ key. key ≡ seen.key_of user.now part) }
{
    Ok(match part {
        Part::User => Key::User(user.copy()?),
        Part::Groups => Key::GroupsOf(user.copy()?),
        Part::Host => Key::Host,
        Part::Rules => Key::Rules,
    })
}

/// What the lookup of a part needs next.
pub fn part_need(user: &Text, part: Part, stage: &LookupStage) -> Result<Need, Memory>
    ensures { IfOk result (λ need. need ≡ lookups.lookup_need (seen.key_of user.now part) stage.now) }
{
    let key = key_of(user, part)?;
    lookup::need_of(&key, stage)
}

/// The first of the requests that are left is begun.
fn begun(renewals: Renewals) -> Closing
    ensures { (user : List ℕ) → seen.seen user result ≡ scripts.begun (seen.led user renewals) }
{
    if let Some(request) = renewals.user {
        let left = Renewals {
            user: None,
            ..renewals
        };
        return Closing::Renewing(Part::User, LookupStage::Pick(request), left);
    }
    if let Some(request) = renewals.groups {
        let left = Renewals {
            groups: None,
            ..renewals
        };
        return Closing::Renewing(Part::Groups, LookupStage::Pick(request), left);
    }
    if let Some(request) = renewals.host {
        let left = Renewals {
            host: None,
            ..renewals
        };
        return Closing::Renewing(Part::Host, LookupStage::Pick(request), left);
    }
    if let Some(request) = renewals.rules {
        let left = Renewals {
            rules: None,
            ..renewals
        };
        return Closing::Renewing(Part::Rules, LookupStage::Pick(request), left);
    }
    Closing::Over
}

/// What a lookup that renews an answer leads to.
fn carried_out(part: Part, renewals: Renewals, step: LookupStep) -> Closing
    ensures { (user : List ℕ) → seen.seen user result ≡ scripts.carried_out (seen.key_of user part) (seen.led user renewals) step }
{
    match step {
        LookupStep::Next(stage) => Closing::Renewing(part, stage, renewals),
        LookupStep::Ended(_said) => begun(renewals),
        LookupStep::Renew(_said, _request) => begun(renewals),
    }
}

/// Puts a closing where it goes on.
fn put(closing: &mut Closing, next: Closing)
    ensures { closing.new ≡ next }
{
    *closing = next;
}

/// What a closing needs next.
pub fn need(user: &Text, closing: &Closing) -> Result<Need, Memory>
    ensures { IfOk result (λ need. need ≡ scripts.closing_need (seen.seen user.now closing.now)) }
{
    match closing {
        Closing::Saying(said, _) => Ok(Need::Say(said.copy()?)),
        Closing::Renewing(part, stage, _) => part_need(user, *part, stage),
        Closing::Over => Ok(Need::End),
    }
}

/// How a closing goes on once its need is known.
pub fn told(closing: &mut Closing)
    ensures { (user : List ℕ) → seen.seen user closing.new ≡ scripts.closing_told (seen.seen user closing.old) }
{
    match closing {
        Closing::Saying(_, renewals) => {
            let renewals = *renewals;
            put(closing, begun(renewals));
        }
        _ => {}
    }
}

/// How a closing goes on after a reply, whose record it takes.
pub fn replied(closing: &mut Closing, given: &mut Given)
    ensures { (user : List ℕ) → seen.seen user closing.new ≡ scripts.closing_replied (seen.seen user closing.old) given.old }
{
    match closing {
        Closing::Renewing(part, stage, renewals) => {
            let part = *part;
            let renewals = *renewals;
            let step = lookup::replied(stage, given);
            put(closing, carried_out(part, renewals, step));
        }
        _ => {}
    }
}

/// How a closing goes on after a server's answer.
pub fn fetched(closing: &mut Closing, found: Fetched)
    ensures { (user : List ℕ) → seen.seen user closing.new ≡ scripts.closing_fetched (seen.seen user closing.old) found }
{
    match closing {
        Closing::Renewing(_, stage, _) => lookup::fetched(stage, found),
        _ => {}
    }
}
