// The task of a client's lookup.
ghost use Rattle.std.specs.Prelude.{◌≡◌, true, IfOk, OnErr, OnOk};
ghost use Rattle.sd_rules.specs.declared.keys.Key.{Key};
ghost use Rattle.sd_rules.specs.Lookups as lookups;
ghost use Rattle.sd_rules.specs.Scripts.{Script, Lookup, need_at, told_at, replied_at, fetched_at, bound_at, key_at};
ghost use Rattle.sd_nss.specs.Asked.{Asked};
ghost use Rattle.sd_nss.specs.Telling.{tells};

use crate::lookup;
use sd_base::Memory;
use sd_rules::{Bound, Fetched, Given, Key, LookupCourse, LookupStage, LookupStep, Need, Task};
use std::marker::Model;
use std::mem;

/// A client's request for a key.
pub struct NssTask {
    key: Key,
    course: LookupCourse,
}

impl Drop for NssTask {
    fn drop(self) {
        let NssTask { key: _, course: _ } = self;
    }
}

impl Model for NssTask {
    ghost use Rattle.std.specs.Prelude.{◌≡◌, true};
    ghost use Rattle.sd_rules.specs.Lookups.{is_client_key, is_course_of_kind};
    ghost use Rattle.sd_nss.specs.Asked.{Asked};

    ghost Value = { Asked };

    ghost view = { λ t. record { key = t.key; course = t.course } };

    ghost invariant = { λ t. (is_client_key t.key ≡ true) × (is_course_of_kind t.key t.course ≡ true) };
}

impl NssTask {
    /// A request for this key.
    pub fn new(key: Key) -> NssTask
        requires { lookups.is_client_key key ≡ true }
        ensures { result ≡ record { key = key; course = lookups.begun } }
    {
        NssTask {
            key,
            course: LookupCourse::Looking(LookupStage::Ask),
        }
    }
}

/// What a reply leads a lookup for a client to.
fn looked(step: LookupStep) -> LookupCourse
    ensures { result ≡ lookups.looked step }
{
    match step {
        LookupStep::Next(stage) => LookupCourse::Looking(stage),
        LookupStep::Ended(said) => LookupCourse::Saying(said),
        LookupStep::Renew(said, request) => LookupCourse::SayingFirst(said, request),
    }
}

/// What a reply leads a lookup that renews to.
fn renewed(step: LookupStep) -> LookupCourse
    ensures { result ≡ lookups.renewed step }
{
    match step {
        LookupStep::Next(stage) => LookupCourse::Renewing(stage),
        LookupStep::Ended(_said) => LookupCourse::Over,
        LookupStep::Renew(_said, _request) => LookupCourse::Over,
    }
}

/// Puts a request where it goes on.
fn put(course: &mut LookupCourse, next: LookupCourse)
    ensures { course.new ≡ next }
{
    *course = next;
}

/// How a request goes on after a reply.
fn replied(course: &mut LookupCourse, given: &mut Given)
    ensures { course.new ≡ lookups.course_replied course.old given.old }
{
    match course {
        LookupCourse::Looking(stage) => {
            let step = lookup::replied(stage, given);
            put(course, looked(step));
        }
        LookupCourse::Renewing(stage) => {
            let step = lookup::replied(stage, given);
            put(course, renewed(step));
        }
        _ => {}
    }
}

/// How a request goes on after a server's answer.
fn fetched(course: &mut LookupCourse, found: Fetched)
    ensures { course.new ≡ lookups.course_fetched course.old found }
{
    match course {
        LookupCourse::Looking(stage) => lookup::fetched(stage, found),
        LookupCourse::Renewing(stage) => lookup::fetched(stage, found),
        _ => {}
    }
}

/// What is to be told, taken out of a request that goes on after that.
fn say(course: &mut LookupCourse) -> Need
    requires { tells course.old ≡ true }
    ensures need { (key : Key) → result ≡ lookups.course_need key course.old }
    ensures told { course.new ≡ lookups.course_told course.old }
{
    match mem::replace(course, LookupCourse::Over) {
        LookupCourse::Saying(said) => Need::Say(said),
        LookupCourse::SayingFirst(said, request) => {
            put(course, LookupCourse::Renewing(LookupStage::Pick(request)));
            Need::Say(said)
        }
        _ => Need::End,
    }
}

/// What a request needs next. What is to be told counts as told from here on.
fn next_need(key: &Key, course: &mut LookupCourse) -> Result<Need, Memory>
    ensures need { IfOk result (λ need. need ≡ lookups.course_need key.now course.old) }
    ensures told { OnOk result (course.new ≡ lookups.course_told course.old) }
    ensures unchanged { OnErr result (course.new ≡ course.old) }
{
    match course {
        LookupCourse::Looking(stage) => lookup::need_of(key, stage),
        LookupCourse::Renewing(stage) => lookup::need_of(key, stage),
        LookupCourse::Over => Ok(Need::End),
        _ => Ok(say(course)),
    }
}

impl Task for NssTask {
    ghost script = { λ t. Lookup t.key t.course };

    #[tactic(auto, using(sd_rules::proofs::ScriptLaws::told_stays, sd_rules::proofs::LookupKinds::course_told_of_kind, sd_rules::proofs::LookupKinds::course_need_of_kind, sd_rules::proofs::LookupKinds::course_need_tellable))]
    fn need(&mut self) -> Result<Need, Memory> {
        next_need(&self.key, &mut self.course)
    }

    #[tactic(auto, using(sd_rules::proofs::LookupKinds::reply_keeps_kind))]
    fn replied(&mut self, given: Given) -> Result<(), Memory> {
        let mut given = given;
        replied(&mut self.course, &mut given);
        Ok(())
    }

    #[tactic(auto, using(sd_rules::proofs::LookupKinds::search_keeps_kind))]
    fn fetched(&mut self, found: Fetched) {
        fetched(&mut self.course, found);
    }

    // A lookup waits for no bind: one that is told changes nothing.
    fn bound(&mut self, _bound: Bound)
        ensures { self.new ≡ self.old }
    {}
}
