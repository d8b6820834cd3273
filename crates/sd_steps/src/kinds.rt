// Which events a step takes.
ghost use Rattle.std.specs.Prelude.{◌≡◌, reverse};
ghost use Rattle.std.specs.Option.{option_copied};
ghost use Rattle.sd_rules.specs.Steps as steps;

use sd_journal::past::key_of;
use sd_journal::requests::is_open_request;
use sd_keeping::row_rules::is_answer_of_kind;
use sd_rules::{Answered, Entry, Event, Key};

fn answers_kind(own: Option<&Key>, answered: &Answered) -> bool
    ensures { result ≡ steps.answers_kind (option_copied own.entry) answered.now }
{
    match own {
        Some(key) => is_answer_of_kind(answered, key),
        None => true,
    }
}

/// Whether a step takes an event.
pub fn is_steppable(entries: &[Entry], event: &Event) -> bool
    ensures { result ≡ steps.is_steppable (reverse entries.now) event.now }
{
    match event {
        Event::Kept(_) => false,
        Event::Answer(request, answered) => {
            !is_open_request(entries, *request) || answers_kind(key_of(entries, *request), answered)
        }
        _ => true,
    }
}
