// The task of an account check.
ghost use Rattle.std.specs.Prelude.{◌≡◌, ℕ, true, not, List, [], ◌∷◌, Option, IfOk};
ghost use Rattle.sd_rules.specs.Lookups as lookups;
ghost use Rattle.sd_rules.specs.AccessScript as scripts;
ghost use Rattle.sd_rules.specs.Scripts.{Script, need_at, told_at, replied_at, fetched_at, bound_at, key_at, access_script};
ghost use Rattle.sd_rules.specs.declared.replies.Reply.TheVariants as replies;
ghost use Rattle.sd_pam.specs.Closings.{key_of, led, is_free, is_free_after};
ghost use Rattle.sd_pam.specs.Checks as seen;

use crate::closing;
use crate::closing::{Closing, Part, Renewals, no_renewals, part_need, with_renewal};
use sd_base::{Copied, Memory, Text};
use sd_nss::lookup;
use sd_rules::{
    AccessMode, Bound, By, Event, Fetched, Given, LookupStage, LookupStep, Need, NotBy, Record,
    Reply, Said, Task,
};
use std::marker::Model;

/// The words of an account check, and what decides it.
pub struct AccessWords {
    pub user: Text,
    pub service: Text,
    pub mode: AccessMode,
}

impl Drop for AccessWords {
    fn drop(self) {
        let AccessWords {
            user: _,
            service: _,
            mode: _,
        } = self;
    }
}

/// How far an account check has come.
#[derive(Drop)]
pub enum AccessCourse {
    /// The key of this part is looked up, and these requests are led to renew answers.
    Gathering(Part, Renewals, LookupStage),
    /// Access is to be asked for.
    Checking(Renewals),
    /// It closes.
    Closed(Closing),
}

/// A client's account check.
pub struct AccessTask {
    words: AccessWords,
    course: AccessCourse,
}

impl Drop for AccessTask {
    fn drop(self) {
        let AccessTask {
            words: _,
            course: _,
        } = self;
    }
}

impl Model for AccessTask {
    ghost use Rattle.std.specs.Prelude.{◌≡◌, true};
    ghost use Rattle.sd_rules.specs.AccessScript.{is_access_of_kind};
    ghost use Rattle.sd_pam.specs.Checks.{AccessState, course_of, is_in_order};

    ghost Value = { AccessState };

    ghost view = { λ t. record { words = t.words; course = t.course } };

    ghost invariant = { λ t. (is_access_of_kind (course_of t.words.user t.words.mode t.course) ≡ true) × (is_in_order t.course ≡ true) };
}

impl AccessTask {
    /// An account check of this user for this service, by what decides account checks.
    pub fn new(user: Text, service: Text, access: AccessMode) -> AccessTask
        ensures { seen.script result ≡ access_script (record { user = user; service = service; mode = access }) }
    {
        AccessTask {
            words: AccessWords {
                user,
                service,
                mode: access,
            },
            course: AccessCourse::Gathering(Part::User, no_renewals(), LookupStage::Ask),
        }
    }
}

/// Whether a record is one of a user.
fn is_user(found: &Record) -> bool
    ensures { result ≡ scripts.is_some_dn (lookups.dn_in found.now) }
{
    match found {
        Record::User(_) => true,
        _ => false,
    }
}

/// Whether an outcome found a user, in the directory now or earlier.
fn found_user(said: &Said) -> bool
    ensures { result ≡ scripts.is_some_dn (lookups.dn_said said.now) }
{
    match said {
        Said::Found(_, found) => is_user(found.value()),
        Said::Old(_, _, found) => is_user(found.value()),
        _ => false,
    }
}

/// Whether an outcome is one that an account check can't go on with.
fn is_no_answer(said: &Said) -> bool
    ensures { result ≡ scripts.is_no_answer said.now }
{
    match said {
        Said::Dark(_) => true,
        Said::Refused(_) => true,
        Said::Many(_) => true,
        Said::Dropped(_) => true,
        _ => false,
    }
}

/// Whether an outcome of the lookup of a part is the answer to the client.
fn ends_check(part: Part, said: &Said) -> bool
    ensures { (user : List ℕ) → result ≡ scripts.ends_check (key_of user part) said.now }
{
    match part {
        Part::User => !found_user(said),
        _ => is_no_answer(said),
    }
}

/// The part that follows another.
fn next_part(mode: AccessMode, part: Part) -> Option<Part>
    ensures { result ≡ seen.next_part mode part }
{
    match part {
        Part::User => match mode {
            AccessMode::Simple => Some(Part::Groups),
            AccessMode::Ipa => Some(Part::Groups),
            _ => None,
        },
        Part::Groups => match mode {
            AccessMode::Ipa => Some(Part::Host),
            _ => None,
        },
        Part::Host => Some(Part::Rules),
        Part::Rules => None,
    }
}

/// The part that follows is looked up, or access is asked for.
#[tactic(auto, using(crate::proofs::Parts::next_gathered, crate::proofs::Parts::next_free))]
fn gather(mode: AccessMode, part: Part, renewals: Renewals) -> AccessCourse
    requires { is_free_after part renewals ≡ true }
    ensures course { (user : List ℕ) → seen.course_of user mode result ≡ scripts.gather (seen.keys_after user mode part) (led user renewals) }
    ensures order { seen.is_in_order result ≡ true }
{
    match next_part(mode, part) {
        Some(next) => AccessCourse::Gathering(next, renewals, LookupStage::Ask),
        None => AccessCourse::Checking(renewals),
    }
}

/// What the outcome of the lookup of a part leads to.
fn gathered(mode: AccessMode, part: Part, renewals: Renewals, said: Said) -> AccessCourse
    requires { is_free_after part renewals ≡ true }
    ensures course { (user : List ℕ) → seen.course_of user mode result ≡ scripts.gathered (key_of user part) (seen.keys_after user mode part) (led user renewals) said }
    ensures order { seen.is_in_order result ≡ true }
{
    if ends_check(part, &said) {
        AccessCourse::Closed(Closing::Saying(said, renewals))
    } else {
        gather(mode, part, renewals)
    }
}

/// What a reply leads the lookup of a part to.
fn gathering(mode: AccessMode, part: Part, renewals: Renewals, step: LookupStep) -> AccessCourse
    requires { is_free part renewals ≡ true }
    ensures course { (user : List ℕ) → seen.course_of user mode result ≡ scripts.gathering (key_of user part) (seen.keys_after user mode part) (led user renewals) step }
    ensures order { seen.is_in_order result ≡ true }
{
    match step {
        LookupStep::Next(stage) => AccessCourse::Gathering(part, renewals, stage),
        LookupStep::Ended(said) => gathered(mode, part, renewals, said),
        LookupStep::Renew(said, request) => {
            gathered(mode, part, with_renewal(renewals, part, request), said)
        }
    }
}

/// The rule that grants, as the client is told it.
fn rule_said(number: u64, rule: &mut Option<Text>) -> Said
    ensures { result ≡ scripts.rule_said number rule.old }
{
    match rule.take() {
        Some(name) => Said::GrantedRule(number, name),
        None => Said::Dropped(number),
    }
}

fn granted_said(number: u64, rule: &mut Option<Text>, by: By) -> Said
    ensures { result ≡ scripts.access_said number rule.old (replies.Granted by) }
{
    match by {
        By::Permit => Said::GrantedPermit(number),
        By::Simple => Said::GrantedSimple(number),
        By::Rule(_, _) => rule_said(number, rule),
    }
}

/// What an account check came to, as the client is told it.
fn access_said(number: u64, rule: &mut Option<Text>, reply: Reply) -> Said
    ensures { result ≡ scripts.access_said number rule.old reply }
{
    match reply {
        Reply::Granted(by) => granted_said(number, rule, by),
        Reply::Denied(NotBy::Deny) => Said::DeniedDeny(number),
        Reply::Denied(NotBy::Simple) => Said::DeniedSimple(number),
        Reply::Denied(NotBy::NoRule) => Said::DeniedNoRule(number),
        _ => Said::Dropped(number),
    }
}

/// Puts an account check where it goes on.
fn put(course: &mut AccessCourse, next: AccessCourse)
    ensures { course.new ≡ next }
{
    *course = next;
}

/// How an account check goes on after a reply, whose record and rule name it takes.
fn replied(mode: AccessMode, course: &mut AccessCourse, given: &mut Given)
    requires { seen.is_in_order course.old ≡ true }
    ensures course { (user : List ℕ) → seen.course_of user mode course.new ≡ scripts.access_replied (seen.course_of user mode course.old) given.old }
    ensures order { seen.is_in_order course.new ≡ true }
{
    match course {
        AccessCourse::Gathering(part, renewals, stage) => {
            let part = *part;
            let renewals = *renewals;
            let step = lookup::replied(stage, given);
            put(course, gathering(mode, part, renewals, step));
        }
        AccessCourse::Checking(renewals) => {
            let renewals = *renewals;
            let said = access_said(given.number, &mut given.rule, given.reply);
            put(
                course,
                AccessCourse::Closed(Closing::Saying(said, renewals)),
            );
        }
        AccessCourse::Closed(closing) => closing::replied(closing, given),
    }
}

/// How an account check goes on after a server's answer.
fn fetched(course: &mut AccessCourse, found: Fetched)
    requires { seen.is_in_order course.old ≡ true }
    ensures course { (user : List ℕ) → (mode : AccessMode) → seen.course_of user mode course.new ≡ scripts.access_fetched (seen.course_of user mode course.old) found }
    ensures order { seen.is_in_order course.new ≡ true }
{
    match course {
        AccessCourse::Gathering(_, _, stage) => lookup::fetched(stage, found),
        AccessCourse::Closed(closing) => closing::fetched(closing, found),
        _ => {}
    }
}

/// What an account check needs next.
fn course_need(words: &AccessWords, course: &AccessCourse) -> Result<Need, Memory>
    ensures { IfOk result (λ need. need ≡ scripts.access_need (seen.words_of words.now) (seen.course_of words.now.user words.now.mode course.now)) }
{
    match course {
        AccessCourse::Gathering(part, _, stage) => part_need(&words.user, *part, stage),
        AccessCourse::Checking(_) => {
            let user = words.user.copy()?;
            Ok(Need::Step(Event::Access(user, words.service.copy()?)))
        }
        AccessCourse::Closed(closing) => closing::need(&words.user, closing),
    }
}

/// How an account check goes on once its need is known.
fn told(course: &mut AccessCourse)
    requires { seen.is_in_order course.old ≡ true }
    ensures course { (user : List ℕ) → (mode : AccessMode) → seen.course_of user mode course.new ≡ scripts.access_told (seen.course_of user mode course.old) }
    ensures order { seen.is_in_order course.new ≡ true }
{
    if let AccessCourse::Closed(closing) = course {
        closing::told(closing);
    }
}

impl Task for AccessTask {
    ghost script = { seen.script };

    #[tactic(auto, using(sd_rules::proofs::ScriptLaws::told_stays, sd_rules::proofs::ScriptKinds::access_told_of_kind, sd_rules::proofs::ScriptKinds::access_need_of_kind, sd_rules::proofs::ScriptKinds::access_need_tellable))]
    fn need(&mut self) -> Result<Need, Memory> {
        let need = course_need(&self.words, &self.course)?;
        told(&mut self.course);
        Ok(need)
    }

    #[tactic(auto, using(sd_rules::proofs::ScriptKinds::access_replied_of_kind))]
    fn replied(&mut self, given: Given) -> Result<(), Memory> {
        let mut given = given;
        replied(self.words.mode, &mut self.course, &mut given);
        Ok(())
    }

    #[tactic(auto, using(sd_rules::proofs::ScriptKinds::access_fetched_of_kind))]
    fn fetched(&mut self, found: Fetched) {
        fetched(&mut self.course, found);
    }

    // An account check waits for no bind: one that is told changes nothing.
    fn bound(&mut self, _bound: Bound)
        ensures { self.new ≡ self.old }
    {}
}
