// A journal with its index, and what the index says of its numbers.
ghost use Rattle.std.specs.Prelude.{◌≡◌};
ghost use Rattle.sd_rules.specs.Requests as requests;
ghost use Rattle.sd_findings.specs.Whole as held;

use sd_index::Index;
use sd_rules::Entry;

/// The entries of a journal, the oldest first, and their index.
#[derive(Clone, Copy)]
pub struct Whole<'a> {
    pub entries: &'a [Entry],
    pub index: &'a Index,
}

/// Whether a request of this number is open.
pub fn is_open_request(whole: Whole<'_>, number: u64) -> bool
    requires { held.IsIndexed whole }
    ensures { result ≡ requests.is_open_request (held.past_of whole.entry) number }
{
    whole.index.is_open_request(number)
}

fn is_open_attempt(whole: Whole<'_>, number: u64) -> bool
    requires { held.IsIndexed whole }
    ensures { result ≡ requests.is_open_attempt (held.past_of whole.entry) number }
{
    whole.index.is_open_attempt(number)
}

/// Whether a request or a login attempt of this number is open.
pub fn is_open(whole: Whole<'_>, number: u64) -> bool
    requires { held.IsIndexed whole }
    ensures { result ≡ requests.is_open (held.past_of whole.entry) number }
{
    is_open_request(whole, number) || is_open_attempt(whole, number)
}

/// The request that a ticket waits for, where it waits.
pub fn waits_for(whole: Whole<'_>, ticket: u64) -> Option<u64>
    requires { held.IsIndexed whole }
    ensures { result ≡ requests.waits_for (held.past_of whole.entry) ticket }
{
    whole.index.waits_for(ticket)
}
