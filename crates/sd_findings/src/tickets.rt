// What the tickets that wait will look at.
ghost use Rattle.std.specs.Prelude.{◌≡◌, ◌++◌, reverse, OnOk, None};
ghost use Rattle.sd_rules.specs.Needed as needed;
ghost use Rattle.sd_rules.specs.Requests as requests;
ghost use Rattle.sd_findings.specs.Findings as findings;
ghost use Rattle.sd_findings.specs.Whole as held;

use crate::whole::{Whole, waits_for};
use sd_base::Memory;
use sd_journal::requests::outcome_of;
use sd_needs::tickets::{answer_of_outcome, closing_of};
use sd_rules::Entry;

/// Puts a number at the end, where there is one.
pub fn put(numbers: &mut Vec<u64>, number: Option<u64>) -> Result<(), Memory>
    ensures { OnOk result (numbers.new.items ≡ numbers.old.items ++ findings.listed number) }
{
    if let Some(number) = number {
        numbers.push(number)?;
    }
    Ok(())
}

fn closing_for(entries: &[Entry], request: Option<u64>) -> Option<u64>
    ensures { result ≡ findings.closing_for (reverse entries.now) request }
{
    match request {
        Some(request) => closing_of(entries, request),
        None => None,
    }
}

fn answer_for(entries: &[Entry], request: Option<u64>) -> Option<u64>
    ensures { result ≡ findings.answer_for (reverse entries.now) request }
{
    match request {
        Some(request) => answer_of_outcome(outcome_of(entries, request)),
        None => None,
    }
}

/// Puts at the end what a ticket will look at, where it waits.
pub fn put_awaited(numbers: &mut Vec<u64>, whole: Whole<'_>, ticket: u64) -> Result<(), Memory>
    requires { held.IsIndexed whole }
    ensures { OnOk result (numbers.new.items ≡ findings.with_awaited (held.past_of whole.entry) (requests.waits_for (held.past_of whole.entry) ticket) numbers.old.items) }
{
    let request = waits_for(whole, ticket);
    put(numbers, closing_for(whole.entries, request))?;
    put(numbers, answer_for(whole.entries, request))
}
