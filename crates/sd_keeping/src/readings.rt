// What the rows take from a journal, where no crate below has a call for it.
ghost use Rattle.std.specs.Prelude.{◌≡◌, ◌<◌, ◌^◌, nat_lt, reverse, not, ◌==◌, None};
ghost use Rattle.sd_rules.specs.declared.replies.Entry.{Entry};
ghost use Rattle.sd_rules.specs.Logins as logins;
ghost use Rattle.sd_rules.specs.Needed as needed;
ghost use Rattle.sd_rules.specs.Steps as steps;

use sd_base::Text;
use sd_journal::logins::{accepts, wrongs};
use sd_rules::{Entry, Event, Hash, LoginResult, Row};

/// Whether the next entry has a number of 64 bits, as it has wherever a core has room for one.
pub fn numbers_fit(next: u64, entries: &[Entry]) -> bool
    ensures { result ≡ nat_lt (steps.number_after next (reverse entries.now)) (2 ^ 64) }
{
    match entries {
        [] => true,
        [.., last] => last.number < u64::MAX,
    }
}

/// The number of the next entry.
pub fn next_number(next: u64, entries: &[Entry]) -> u64
    requires { steps.number_after next (reverse entries.now) < 2 ^ 64 }
    ensures { result ≡ steps.number_after next (reverse entries.now) }
{
    match entries {
        [] => next,
        [.., last] => next.max(last.number + 1),
    }
}

/// The least moment that the next entry has, in seconds.
pub fn least_moment(floor: u64, entries: &[Entry]) -> u64
    ensures { result ≡ steps.moment_after floor (reverse entries.now) 0 }
{
    match entries {
        [] => floor,
        [.., last] => floor.max(last.moment),
    }
}

/// How many guesses of the user were judged wrong since the last entry that accepted the user.
pub fn wrong_count(entries: &[Entry], user: &Text) -> u64
    requires { logins.wrong_count (reverse entries.now) user.now < 2 ^ 64 }
    ensures { result ≡ logins.wrong_count (reverse entries.now) user.now }
{
    let mut count = 0u64;
    for place in (0..entries.len()).rev() {
        let entry = &entries[place];
        if accepts(&entries[..place], user, &entry.event, entry.reply) {
            return count;
        }
        count += wrongs(user, &entry.event, entry.reply);
    }
    count
}

/// The number of the last entry that counts for wrong guesses of the user.
pub fn last_wrong(entries: &[Entry], user: &Text) -> Option<u64>
    ensures { result ≡ needed.last_where (λ (x : Entry). not (logins.wrongs user.now x.event x.reply == 0)) (reverse entries.now) }
{
    for place in (0..entries.len()).rev() {
        let entry = &entries[place];
        if wrongs(user, &entry.event, entry.reply) != 0 {
            return Some(entry.number);
        }
    }
    None
}

/// The hash that an entry's event holds.
pub fn hash_of_event(event: &Event) -> Option<Hash>
    ensures { result ≡ steps.hash_of_event event.now }
{
    match event {
        Event::LoginOnline(_, said) => match said.value() {
            LoginResult::Right(hash) => *hash,
            _ => None,
        },
        Event::Kept(Row::Hash(_, _, _, hash)) => Some(*hash.value()),
        _ => None,
    }
}
