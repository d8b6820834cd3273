// What a ticket that waits will look at.
ghost use Rattle.std.specs.Prelude.{◌≡◌, reverse, None};
ghost use Rattle.sd_rules.specs.declared.replies.Entry.{Entry};
ghost use Rattle.sd_rules.specs.KeptRows as kept;
ghost use Rattle.sd_rules.specs.Needed as needed;
ghost use Rattle.sd_rules.specs.Requests as requests;
ghost use Rattle.sd_needs.specs.Looks as looks;

use crate::readings::is_number;
use sd_journal::requests::{closes, outcome_of, waits_for};
use sd_rules::{Entry, Outcome, Reply};

/// The number of the entry that closed a request.
pub fn closing_of(entries: &[Entry], request: u64) -> Option<u64>
    ensures { result ≡ needed.closing_of (reverse entries.now) request }
{
    for place in (0..entries.len()).rev() {
        let entry = &entries[place];
        if closes(&entry.event, entry.reply, request) {
            return Some(entry.number);
        }
    }
    None
}

/// The answer that an outcome names.
pub fn answer_of_outcome(outcome: Outcome) -> Option<u64>
    ensures { result ≡ needed.answer_of_outcome outcome }
{
    match outcome {
        Outcome::Found(number)
        | Outcome::Absent(number)
        | Outcome::Old(number, _)
        | Outcome::OldGone(number, _) => Some(number),
        _ => None,
    }
}

/// Whether a ticket that waits for this request, where it waits, will look at the entry of a number.
fn serves_ticket(all: &[Entry], number: u64, request: Option<u64>) -> bool
    ensures { result ≡ needed.serves_ticket (reverse all.now) number request }
{
    match request {
        Some(request) => {
            is_number(number, closing_of(all, request))
                || is_number(number, answer_of_outcome(outcome_of(all, request)))
        }
        None => false,
    }
}

fn is_join(reply: Reply) -> bool
    ensures { result ≡ kept.is_join (requests.joined reply) }
{
    matches!(reply, Reply::Join(_, _))
}

/// Whether some ticket that waits will look at the entry of a number, sought among the entries that joined.
fn serves_joined(all: &[Entry], number: u64) -> bool
    ensures { result ≡ looks.serves_joined (reverse all.now) number (reverse all.now) }
{
    for place in (0..all.len()).rev() {
        let entry = &all[place];
        if is_join(entry.reply) && serves_ticket(all, number, waits_for(all, entry.number)) {
            return true;
        }
    }
    false
}

/// Whether some ticket that waits will look at the entry of a number.
#[tactic(auto, using(crate::proofs::TicketLaws::same_tickets))]
pub fn serves_waiting(all: &[Entry], number: u64) -> bool
    ensures { result ≡ needed.serves_waiting (reverse all.now) number (reverse all.now) }
{
    serves_joined(all, number)
}
