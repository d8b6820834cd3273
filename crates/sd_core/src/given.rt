// What a step gives beside its reply: the record, the stored hash and the rule's name that the reply names.
ghost use Rattle.std.specs.Prelude.{◌≡◌, true, reverse, Some, None, IfOk, IsOk};
ghost use Rattle.std.specs.Option.{option_copied};
ghost use Rattle.sd_rules.specs.Steps as steps;
ghost use Rattle.sd_voids.specs.Entries.{falls};
ghost use Rattle.sd_core.specs.Numbered as replies;

use sd_base::{Copied, Memory, Shared, Text};
use sd_keeping::readings::hash_of_event;
use sd_past::Past;
use sd_past::found::record_at;
use sd_rules::{By, Entry, Event, Given, Hash, Outcome, Record, Reply, Rule};
use sd_voids::entries::event_at;

fn answer_named_by_outcome(outcome: Outcome) -> Option<u64>
    ensures { result ≡ steps.answer_named_by_outcome outcome }
{
    match outcome {
        Outcome::Found(n) | Outcome::Old(n, _) => Some(n),
        _ => None,
    }
}

fn answer_named(reply: Reply) -> Option<u64>
    ensures { result ≡ steps.answer_named reply }
{
    match reply {
        Reply::Fresh(n) | Reply::Refresh(n, _) | Reply::Old(n, _) => Some(n),
        Reply::Shut(outcome) | Reply::Took(outcome) => answer_named_by_outcome(outcome),
        _ => None,
    }
}

/// The record of the answer that the reply to an event names. A question is most likely answered by the newest answer of its key.
fn record_named<'a, P: Past>(past: &'a P, event: &Event, reply: Reply) -> Option<&'a Shared<Record>>
    requires { falls (P.entries past.now) ≡ true }
    ensures { option_copied result ≡ steps.record_named (P.entries past.now) reply }
{
    let key = match event {
        Event::Ask(key) => Some(key),
        _ => None,
    };
    match answer_named(reply) {
        Some(number) => past.record(key, number),
        None => None,
    }
}

fn login_named(reply: Reply) -> Option<u64>
    ensures { result ≡ steps.login_named reply }
{
    match reply {
        Reply::Hash(n) | Reply::Cached(_, n) => Some(n),
        _ => None,
    }
}

fn hash_at(entries: &[Entry], number: u64) -> Option<Hash>
    requires { falls (reverse entries.now) ≡ true }
    ensures { result ≡ steps.hash_in (steps.event_at (reverse entries.now) number) }
{
    match event_at(entries, number) {
        Some(event) => hash_of_event(event),
        None => None,
    }
}

fn hash_named(entries: &[Entry], reply: Reply) -> Option<Hash>
    requires { falls (reverse entries.now) ≡ true }
    ensures { result ≡ steps.hash_named (reverse entries.now) reply }
{
    match login_named(reply) {
        Some(number) => hash_at(entries, number),
        None => None,
    }
}

fn name_of_rule(rule: Option<&Rule>) -> Option<&Text>
    ensures { option_copied result ≡ steps.name_of_rule (option_copied rule.entry) }
{
    match rule {
        Some(rule) => Some(&rule.name),
        None => None,
    }
}

fn rule_of(found: &Record, place: u32) -> Option<&Text>
    ensures { option_copied result ≡ steps.rule_in (Some found.now) place }
{
    match found {
        Record::Rules(book) => name_of_rule(book.rules.get(place as usize)),
        _ => None,
    }
}

fn rule_in(found: Option<&Shared<Record>>, place: u32) -> Option<&Text>
    ensures { option_copied result ≡ steps.rule_in (option_copied found.entry) place }
{
    match found {
        Some(found) => rule_of(found.value(), place),
        None => None,
    }
}

fn rule_named(entries: &[Entry], reply: Reply) -> Option<&Text>
    requires { falls (reverse entries.now) ≡ true }
    ensures { option_copied result ≡ steps.rule_named (reverse entries.now) reply }
{
    match reply {
        Reply::Granted(By::Rule(number, place)) => rule_in(record_at(entries, number), place),
        _ => None,
    }
}

/// A copy of what is there.
fn copy_of<T: Copied>(item: Option<&T>) -> Result<Option<T>, Memory>
    ensures made { IfOk result (λ copy. copy ≡ option_copied item.entry) }
    ensures free { option_copied item.entry ≡ None → IsOk result }
{
    match item {
        Some(item) => Ok(Some(item.copy()?)),
        None => Ok(None),
    }
}

/// What an entry of this number, event and reply gives, over the entries before it.
pub fn given_by<P: Past>(
    past: &P,
    number: u64,
    event: &Event,
    reply: Reply,
) -> Result<Given, Memory>
    requires { falls (P.entries past.now) ≡ true }
    ensures made { IfOk result (λ given. given ≡ steps.given_by (P.entries past.now) number reply) }
    ensures free { replies.gives_nothing reply ≡ true → IsOk result }
{
    Ok(Given {
        number,
        reply,
        found: copy_of(record_named(past, event, reply))?,
        hash: hash_named(past.list(), reply),
        rule: copy_of(rule_named(past.list(), reply))?,
    })
}
