//! Decimal numbers without a sign.
ghost use Rattle.std.specs.Prelude.{◌≡◌, ◌^◌, ◌-◌, ℕ, List, min};
ghost use Rattle.std.specs.List.{list_all};
ghost use Rattle.sd_pieces.specs.Digits as numerals;

fn is_digit(byte: u8) -> bool
    ensures { result ≡ numerals.is_digit byte }
{
    b'0' <= byte && byte <= b'9'
}

/// Whether a text has digits alone; an empty one does.
pub fn are_digits(text: &[u8]) -> bool
    ensures { result ≡ list_all numerals.is_digit text.now }
{
    text.iter().all(|byte| is_digit(*byte))
}

/// The value of digits, or the greatest u128 where it is more.
pub fn value_of(digits: &[u8]) -> u128
    ensures { result ≡ min (numerals.value_of digits.now) (2 ^ 128 - 1) }
{
    let mut value = 0u128;
    for byte in digits {
        value = value
            .saturating_mul(10)
            .saturating_add(u128::from(byte.saturating_sub(b'0')));
    }
    value
}

/// A number of one or more digits, where it is at most the limit.
pub fn number_up_to(limit: u64, text: &[u8]) -> Option<u64>
    ensures { result ≡ numerals.number_up_to limit text.now }
{
    if text.is_empty() || !are_digits(text) {
        return None;
    }
    let value = value_of(text);
    if value <= u128::from(limit) {
        Some(value as u64)
    } else {
        None
    }
}

/// The number of one to ten digits, where it has 32 bits.
pub fn read_number(text: &[u8]) -> Option<u32>
    ensures { result ≡ numerals.number_of text.now }
{
    if text.is_empty() || text.len() > 10 || !are_digits(text) {
        return None;
    }
    let value = value_of(text);
    if value > 4_294_967_295 {
        return None;
    }
    Some(value as u32)
}
