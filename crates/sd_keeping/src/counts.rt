// Whether rows can hold a journal's wrong guesses.
ghost use Rattle.std.specs.Prelude.{◌≡◌, ◌^◌, nat_lt, reverse, true};
ghost use Rattle.sd_keeping.specs.Counts as counts;

use sd_rules::{Entry, Event, Row};

/// For how many wrong guesses an event can count.
fn guesses_in(event: &Event) -> u64
    ensures { result ≡ counts.guesses_in event.now }
{
    match event {
        Event::LoginGuess(_, _, _) => 1,
        Event::Kept(Row::Wrong(_, _, _, count)) => *count,
        _ => 0,
    }
}

fn all_guesses(entries: &[Entry]) -> u128
    ensures { result ≡ counts.all_guesses (reverse entries.now) }
{
    let mut total = 0u128;
    for place in (0..entries.len()).rev() {
        total += u128::from(guesses_in(&entries[place].event));
    }
    total
}

/// Whether all wrong guesses of a journal together are a number of 64 bits, as it is wherever a core made them one by one. Then
/// those of each user are.
pub fn counts_fit(entries: &[Entry]) -> bool
    ensures exact { result ≡ nat_lt (counts.all_guesses (reverse entries.now)) (2 ^ 64) }
    ensures fits { result ≡ true → counts.HasCounts (reverse entries.now) }
{
    all_guesses(entries) <= u128::from(u64::MAX)
}
