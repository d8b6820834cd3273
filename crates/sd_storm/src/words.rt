//! How many requests a word asks for.
ghost use Rattle.std.specs.Prelude.{◌≡◌};
ghost use Rattle.sd_storm.specs.Words as words;

use sd_pieces::number_up_to;

/// The most requests of a load.
const MOST_REQUESTS: u64 = 100_000;

fn leads_with_zero(word: &[u8]) -> bool
    ensures { result ≡ words.leads_with_zero word.now }
{
    !word.is_empty() && word[0] == b'0'
}

/// How many requests a word asks for, where it is a number from 1 to 100000 without a zero before its digits.
pub fn requests_of(word: &[u8]) -> Option<u32>
    ensures { result ≡ words.requests_of word.now }
{
    if leads_with_zero(word) {
        return None;
    }
    let number = number_up_to(MOST_REQUESTS, word)?;
    Some(number as u32)
}
