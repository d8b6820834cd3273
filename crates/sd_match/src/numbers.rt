//! Numbers as decimal digits.
ghost use Rattle.std.specs.Prelude.{◌≡◌, ◌≤◌, ◌==◌, ◌&&◌, ℕ, List, Bool, true, length};
ghost use Rattle.std.specs.List.{list_all};
ghost use Rattle.sd_entry.specs.Values.{is_digit, value_of};
ghost use Rattle.sd_match.specs.Matching.{are_digits, is_short_number};

pub fn are_digits(text: &[u8]) -> bool
    ensures { result ≡ are_digits text.now }
{
    !text.is_empty() && sd_pieces::are_digits(text)
}

/// Whether a text is a number of at most 19 digits.
pub fn is_short_number(text: &[u8]) -> bool
    ensures { result ≡ is_short_number text.now }
{
    are_digits(text) && text.len() <= 19
}

/// The number of at most 19 digits.
pub fn value_of(digits: &[u8]) -> u128
    requires { is_short_number digits.now ≡ true }
    ensures { result ≡ value_of digits.now }
{
    sd_pieces::value_of(digits)
}

/// Whether two numbers of any length are equal.
pub fn same_number(a: &[u8], b: &[u8]) -> bool
    requires one { are_digits a.now ≡ true }
    requires other { are_digits b.now ≡ true }
    ensures { result ≡ (value_of a.now == value_of b.now) }
{
    if a.len() < b.len() {
        return same_as_shorter(b, a);
    }
    same_as_shorter(a, b)
}

/// Whether a number is a shorter one with zeros in front.
fn same_as_shorter(long: &[u8], short: &[u8]) -> bool
    requires one { list_all is_digit long.now ≡ true }
    requires other { list_all is_digit short.now ≡ true }
    requires shorter { length short.now ≤ length long.now }
    ensures { result ≡ (value_of long.now == value_of short.now) }
{
    let (front, back) = long.split_at(long.len() - short.len());
    are_zeros(front) && back == short
}

fn are_zeros(text: &[u8]) -> bool
    ensures { result ≡ list_all (λ b. b == 48) text.now }
{
    text.iter().all(|b| *b == b'0')
}
