// How the lookup of a key goes on, one reply or one server's answer at a time.
ghost use Rattle.std.specs.Prelude.{◌≡◌, IfOk};
ghost use Rattle.sd_rules.specs.Lookups as lookups;

use sd_base::{Copied, Memory, Shared};
use sd_rules::{
    Answered, Event, Fetched, Given, Key, LookupStage, LookupStep, Need, Outcome, Record, Refusal,
    Reply, Said,
};
use std::mem;

/// What a lookup needs next.
pub fn need_of(key: &Key, stage: &LookupStage) -> Result<Need, Memory>
    ensures { IfOk result (λ need. need ≡ lookups.lookup_need key.now stage.now) }
{
    Ok(match stage {
        LookupStage::Ask => Need::Step(Event::Ask(key.copy()?)),
        LookupStage::Wait(ticket) => Need::Await(*ticket),
        LookupStage::Pick(request) => Need::Step(Event::Pick(*request)),
        LookupStage::Search(_, server) => Need::Fetch(*server, key.copy()?),
        LookupStage::Answer(request, answered) => {
            Need::Step(Event::Answer(*request, answered.copy()?))
        }
        LookupStage::Refuse(request, refusal) => Need::Step(Event::Refuse(*request, *refusal)),
        LookupStage::Fall(request, server, why) => {
            Need::Step(Event::Fall(*request, *server, *why))
        }
        LookupStage::Outage(request) => Need::Step(Event::Outage(*request)),
    })
}

/// The found record of the answer `n`, as a client is told it.
fn found_said(number: u64, n: u64, found: &mut Option<Shared<Record>>) -> Said
    ensures { result ≡ lookups.found_said number n found.old }
{
    match found.take() {
        Some(found) => Said::Found(n, found),
        None => Said::Dropped(number),
    }
}

/// The found record of the answer `n` in the outage `outage`, as a client is told it.
fn old_said(number: u64, n: u64, outage: u64, found: &mut Option<Shared<Record>>) -> Said
    ensures { result ≡ lookups.old_said number n outage found.old }
{
    match found.take() {
        Some(found) => Said::Old(n, outage, found),
        None => Said::Dropped(number),
    }
}

/// A refusal, as a client is told it.
fn refusal_said(refusal: Refusal) -> Said
    ensures { result ≡ lookups.refusal_said refusal }
{
    match refusal {
        Refusal::Code(code) => Said::Refused(code),
        Refusal::Many(count) => Said::Many(count),
    }
}

/// An outcome, as a client is told it.
fn outcome_said(number: u64, found: &mut Option<Shared<Record>>, outcome: Outcome) -> Said
    ensures { result ≡ lookups.outcome_said number found.old outcome }
{
    match outcome {
        Outcome::Found(n) => found_said(number, n, found),
        Outcome::Absent(n) => Said::Absent(n),
        Outcome::Refused(refusal) => refusal_said(refusal),
        Outcome::Old(n, outage) => old_said(number, n, outage, found),
        Outcome::OldGone(n, outage) => Said::OldNone(n, outage),
        Outcome::Dark(outage) => Said::Dark(outage),
        Outcome::Dropped(n) => Said::Dropped(n),
    }
}

/// An answer that the entry `number` recorded, as a client is told it.
fn answered_said(number: u64, answered: Answered) -> Said
    ensures { result ≡ lookups.answered_said number answered }
{
    match answered {
        Answered::Found(found) => Said::Found(number, found),
        Answered::Absent => Said::Absent(number),
    }
}

fn after_ask(number: u64, found: &mut Option<Shared<Record>>, reply: Reply) -> LookupStep
    ensures { result ≡ lookups.after_ask number found.old reply }
{
    match reply {
        Reply::Filtered => LookupStep::Ended(Said::Filtered),
        Reply::Fresh(n) => LookupStep::Ended(found_said(number, n, found)),
        Reply::Refresh(n, request) => LookupStep::Renew(found_said(number, n, found), request),
        Reply::Gone(n) => LookupStep::Ended(Said::Absent(n)),
        Reply::Old(n, outage) => LookupStep::Ended(old_said(number, n, outage, found)),
        Reply::OldGone(n, outage) => LookupStep::Ended(Said::OldNone(n, outage)),
        Reply::Dark(outage) => LookupStep::Ended(Said::Dark(outage)),
        Reply::Join(_, ticket) => LookupStep::Next(LookupStage::Wait(ticket)),
        Reply::Lead(request) => LookupStep::Next(LookupStage::Pick(request)),
        _ => LookupStep::Ended(Said::Dropped(number)),
    }
}

fn after_collect(
    ticket: u64,
    number: u64,
    found: &mut Option<Shared<Record>>,
    reply: Reply,
) -> LookupStep
    ensures { result ≡ lookups.after_collect ticket number found.old reply }
{
    match reply {
        Reply::NotYet(_) => LookupStep::Next(LookupStage::Wait(ticket)),
        Reply::Took(outcome) => LookupStep::Ended(outcome_said(number, found, outcome)),
        _ => LookupStep::Ended(Said::Dropped(number)),
    }
}

fn after_pick(request: u64, number: u64, reply: Reply) -> LookupStep
    ensures { result ≡ lookups.after_pick request number reply }
{
    match reply {
        Reply::Server(server) => LookupStep::Next(LookupStage::Search(request, server)),
        Reply::NoServer => LookupStep::Next(LookupStage::Outage(request)),
        _ => LookupStep::Ended(Said::Dropped(number)),
    }
}

fn after_answer(request: u64, answered: &mut Answered, number: u64, reply: Reply) -> LookupStep
    ensures { result ≡ lookups.after_answer request answered.old number reply }
{
    match reply {
        Reply::Closed => {
            let answered = mem::replace(answered, Answered::Absent);
            LookupStep::Ended(answered_said(number, answered))
        }
        Reply::Again(_) => LookupStep::Next(LookupStage::Pick(request)),
        _ => LookupStep::Ended(Said::Dropped(number)),
    }
}

fn after_refuse(refusal: Refusal, number: u64, reply: Reply) -> LookupStep
    ensures { result ≡ lookups.after_refuse refusal number reply }
{
    match reply {
        Reply::Closed => LookupStep::Ended(refusal_said(refusal)),
        _ => LookupStep::Ended(Said::Dropped(number)),
    }
}

fn after_fall(request: u64, number: u64, reply: Reply) -> LookupStep
    ensures { result ≡ lookups.after_fall request number reply }
{
    match reply {
        Reply::Noted | Reply::NotPicked => LookupStep::Next(LookupStage::Pick(request)),
        _ => LookupStep::Ended(Said::Dropped(number)),
    }
}

fn after_outage(
    request: u64,
    number: u64,
    found: &mut Option<Shared<Record>>,
    reply: Reply,
) -> LookupStep
    ensures { result ≡ lookups.after_outage request number found.old reply }
{
    match reply {
        Reply::Servable(_) => LookupStep::Next(LookupStage::Pick(request)),
        Reply::Shut(outcome) => LookupStep::Ended(outcome_said(number, found, outcome)),
        _ => LookupStep::Ended(Said::Dropped(number)),
    }
}

/// How a lookup goes on after a reply, whose record it takes.
pub fn replied(stage: &mut LookupStage, given: &mut Given) -> LookupStep
    ensures { result ≡ lookups.lookup_replied stage.old given.old }
{
    let number = given.number;
    let reply = given.reply;
    match stage {
        LookupStage::Ask => after_ask(number, &mut given.found, reply),
        LookupStage::Wait(ticket) => after_collect(*ticket, number, &mut given.found, reply),
        LookupStage::Pick(request) => after_pick(*request, number, reply),
        LookupStage::Search(request, server) => {
            LookupStep::Next(LookupStage::Search(*request, *server))
        }
        LookupStage::Answer(request, answered) => after_answer(*request, answered, number, reply),
        LookupStage::Refuse(_, refusal) => after_refuse(*refusal, number, reply),
        LookupStage::Fall(request, _, _) => after_fall(*request, number, reply),
        LookupStage::Outage(request) => after_outage(*request, number, &mut given.found, reply),
    }
}

fn after_search(request: u64, server: u32, fetched: Fetched) -> LookupStage
    ensures { result ≡ lookups.after_search request server fetched }
{
    match fetched {
        Fetched::Found(found) => LookupStage::Answer(request, Answered::Found(found)),
        Fetched::Absent => LookupStage::Answer(request, Answered::Absent),
        Fetched::Refused(code) => LookupStage::Refuse(request, Refusal::Code(code)),
        Fetched::Many(count) => LookupStage::Refuse(request, Refusal::Many(count)),
        Fetched::Failed(why) => LookupStage::Fall(request, server, why),
        Fetched::Memory => LookupStage::Search(request, server),
    }
}

/// How a lookup goes on after a server's answer.
pub fn fetched(stage: &mut LookupStage, found: Fetched)
    ensures { stage.new ≡ lookups.lookup_fetched stage.old found }
{
    if let LookupStage::Search(request, server) = stage {
        *stage = after_search(*request, *server, found);
    }
}
