// The task of a login.
ghost use Rattle.std.specs.Prelude.{◌≡◌, ℕ, true, List, [], ◌∷◌, Option, IfOk};
ghost use Rattle.sd_rules.specs.Lookups as lookups;
ghost use Rattle.sd_rules.specs.LoginScript as scripts;
ghost use Rattle.sd_rules.specs.Scripts.{Script, need_at, told_at, replied_at, fetched_at, bound_at, key_at, login_script};
ghost use Rattle.sd_rules.specs.declared.tasks.Said.TheVariants as says;
ghost use Rattle.sd_pam.specs.Closings.{led};
ghost use Rattle.sd_pam.specs.Logins as seen;

use crate::closing::{Closing, Part, Renewals, no_renewals, part_need, with_renewal};
use crate::found_user::FoundUser;
use crate::{closing, proving};
use sd_base::{Copied, Memory, Shared, Text};
use sd_creds::Salts;
use sd_nss::lookup;
use sd_rules::{
    Bound, Fetched, Given, LoginStage, LoginStep, LookupStage, LookupStep, Need, Record, Said, Task,
};
use std::alloc::Global;
use std::marker::Model;

/// The words of a login, and how its password is hashed.
pub struct LoginWords {
    pub alloc: Global,
    pub user: Text,
    pub password: Text,
    pub salts: Salts,
    /// Whether a password that a server accepts leaves its hash: cache_credentials of sssd.conf(5).
    pub stores: bool,
}

impl Drop for LoginWords {
    fn drop(self) {
        let LoginWords {
            alloc: _,
            user: _,
            password: _,
            salts: _,
            stores: _,
        } = self;
    }
}

/// How far a login has come.
#[derive(Drop)]
pub enum LoginCourse {
    /// The user is looked up.
    Finding(LookupStage),
    /// The user is logged in, and these requests are led to renew answers.
    Proving(FoundUser, Renewals, LoginStage),
    /// It closes.
    Closed(Closing),
}

/// A client's login.
pub struct LoginTask {
    words: LoginWords,
    course: LoginCourse,
}

impl Drop for LoginTask {
    fn drop(self) {
        let LoginTask {
            words: _,
            course: _,
        } = self;
    }
}

impl Model for LoginTask {
    ghost use Rattle.std.specs.Prelude.{◌≡◌, true};
    ghost use Rattle.sd_rules.specs.LoginScript.{is_login_of_kind};
    ghost use Rattle.sd_pam.specs.Logins.{LoginState, words_of, course_of};

    ghost Value = { LoginState };

    ghost view = { λ t. record { words = t.words; course = t.course } };

    ghost invariant = { λ t. is_login_of_kind (words_of t.words) (course_of t.words.user t.course) ≡ true };
}

/// An empty password is denied at once.
fn begun(password: &Text) -> LoginCourse
    ensures { (user : List ℕ) → seen.course_of user result ≡ scripts.login_begun password.now }
{
    match password.bytes() {
        [] => LoginCourse::Closed(Closing::Saying(Said::DeniedEmpty, no_renewals())),
        _ => LoginCourse::Finding(LookupStage::Ask),
    }
}

impl LoginTask {
    /// A login of this user. `cache` says whether hashes of passwords are stored.
    pub fn new(alloc: Global, user: Text, password: Text, salts: Salts, cache: bool) -> LoginTask
        ensures { seen.script result ≡ login_script (record { user = user; password = password; stores = cache; hashing = seen.hashing salts }) }
    {
        let course = begun(&password);
        LoginTask {
            words: LoginWords {
                alloc,
                user,
                password,
                salts,
                stores: cache,
            },
            course,
        }
    }
}

/// What follows where the directory found a record in this answer.
fn found_now(n: u64, found: Shared<Record>, renewals: Renewals) -> LoginCourse
    ensures { (user : List ℕ) → seen.course_of user result ≡ scripts.found_by (says.Found n found) (led user renewals) (lookups.dn_in found) }
{
    match FoundUser::of(found) {
        Ok(user) => LoginCourse::Proving(user, renewals, LoginStage::Open),
        Err(found) => LoginCourse::Closed(Closing::Saying(Said::Found(n, found), renewals)),
    }
}

/// What follows where the directory found a record in this answer, before the outage.
fn found_earlier(n: u64, outage: u64, found: Shared<Record>, renewals: Renewals) -> LoginCourse
    ensures { (user : List ℕ) → seen.course_of user result ≡ scripts.found_by (says.Old n outage found) (led user renewals) (lookups.dn_in found) }
{
    match FoundUser::of(found) {
        Ok(user) => LoginCourse::Proving(user, renewals, LoginStage::Open),
        Err(found) => {
            LoginCourse::Closed(Closing::Saying(Said::Old(n, outage, found), renewals))
        }
    }
}

/// What follows the outcome of the lookup of the user.
fn found_by(said: Said, renewals: Renewals) -> LoginCourse
    ensures { (user : List ℕ) → seen.course_of user result ≡ scripts.found_by said (led user renewals) (lookups.dn_said said) }
{
    match said {
        Said::Found(n, found) => found_now(n, found, renewals),
        Said::Old(n, outage, found) => found_earlier(n, outage, found, renewals),
        said => LoginCourse::Closed(Closing::Saying(said, renewals)),
    }
}

/// What a reply leads the lookup of the user to.
fn finding(step: LookupStep) -> LoginCourse
    ensures { (user : List ℕ) → seen.course_of user result ≡ scripts.finding user step }
{
    match step {
        LookupStep::Next(stage) => LoginCourse::Finding(stage),
        LookupStep::Ended(said) => found_by(said, no_renewals()),
        LookupStep::Renew(said, request) => {
            found_by(said, with_renewal(no_renewals(), Part::User, request))
        }
    }
}

/// Puts a login where it goes on.
fn put(course: &mut LoginCourse, next: LoginCourse)
    ensures { course.new ≡ next }
{
    *course = next;
}

/// How a login goes on after a reply, whose record it takes.
fn replied(words: &LoginWords, course: &mut LoginCourse, given: &mut Given)
    ensures { seen.course_of words.now.user course.new ≡ scripts.login_course_replied (seen.words_of words.now) (seen.course_of words.now.user course.old) given.old }
{
    match course {
        LoginCourse::Finding(stage) => {
            let step = lookup::replied(stage, given);
            put(course, finding(step));
        }
        LoginCourse::Proving(_, renewals, stage) => match proving::replied(words, *stage, given) {
            LoginStep::Next(next) => {
                *stage = next;
            }
            LoginStep::Ended(said) => {
                let renewals = *renewals;
                put(course, LoginCourse::Closed(Closing::Saying(said, renewals)));
            }
        },
        LoginCourse::Closed(closing) => closing::replied(closing, given),
    }
}

/// How a login goes on after a server's answer.
fn fetched(course: &mut LoginCourse, found: Fetched)
    ensures { (user : List ℕ) → seen.course_of user course.new ≡ scripts.login_course_fetched (seen.course_of user course.old) found }
{
    match course {
        LoginCourse::Finding(stage) => lookup::fetched(stage, found),
        LoginCourse::Closed(closing) => closing::fetched(closing, found),
        _ => {}
    }
}

/// How a login goes on after a bind.
fn bound_to(words: &LoginWords, course: &mut LoginCourse, answer: Bound)
    ensures { seen.course_of words.now.user course.new ≡ scripts.login_course_bound (seen.words_of words.now) (seen.course_of words.now.user course.old) answer }
{
    if let LoginCourse::Proving(_, _, stage) = course {
        *stage = proving::bound(words, *stage, answer);
    }
}

/// What a login needs next.
fn course_need(words: &LoginWords, course: &LoginCourse) -> Result<Need, Memory>
    ensures { IfOk result (λ need. need ≡ scripts.login_course_need (seen.words_of words.now) (seen.course_of words.now.user course.now)) }
{
    match course {
        LoginCourse::Finding(stage) => part_need(&words.user, Part::User, stage),
        LoginCourse::Proving(user, _, stage) => proving::need(words, user, *stage),
        LoginCourse::Closed(closing) => closing::need(&words.user, closing),
    }
}

/// How a login goes on once its need is known.
fn told(course: &mut LoginCourse)
    ensures { (user : List ℕ) → seen.course_of user course.new ≡ scripts.login_course_told (seen.course_of user course.old) }
{
    if let LoginCourse::Closed(closing) = course {
        closing::told(closing);
    }
}

impl Task for LoginTask {
    ghost script = { seen.script };

    #[tactic(auto, using(sd_rules::proofs::ScriptLaws::told_stays, sd_rules::proofs::ScriptKinds::login_told_of_kind, sd_rules::proofs::ScriptKinds::login_need_of_kind, sd_rules::proofs::ScriptKinds::login_need_tellable))]
    fn need(&mut self) -> Result<Need, Memory> {
        let need = course_need(&self.words, &self.course)?;
        told(&mut self.course);
        Ok(need)
    }

    #[tactic(auto, using(sd_rules::proofs::ScriptKinds::login_replied_of_kind))]
    fn replied(&mut self, given: Given) -> Result<(), Memory> {
        let mut given = given;
        replied(&self.words, &mut self.course, &mut given);
        Ok(())
    }

    #[tactic(auto, using(sd_rules::proofs::ScriptKinds::login_fetched_of_kind))]
    fn fetched(&mut self, found: Fetched) {
        fetched(&mut self.course, found);
    }

    #[tactic(auto, using(sd_rules::proofs::ScriptKinds::login_bound_of_kind))]
    fn bound(&mut self, bound: Bound) {
        bound_to(&self.words, &mut self.course, bound);
    }
}
