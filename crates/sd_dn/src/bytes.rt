// The bytes of a DN's text, by what they may stand for.
ghost use Rattle.std.specs.Prelude.{◌≡◌};
ghost use Rattle.sd_dn.specs.Bytes as bytes;

/// A byte of an attribute's type: a letter, a digit, `-` or `.`.
pub fn is_type_byte(byte: u8) -> bool
    ensures { result ≡ bytes.is_type_byte byte }
{
    byte.is_ascii_alphanumeric() || byte == b'-' || byte == b'.'
}

/// A byte that stands in a value only behind a backslash.
pub fn is_reserved(byte: u8) -> bool
    ensures { result ≡ bytes.is_reserved byte }
{
    matches!(byte, b',' | b'+' | b'"' | b'\\' | b'<' | b'>' | b';')
}

/// A byte that a backslash may stand before.
pub fn is_special(byte: u8) -> bool
    ensures { result ≡ bytes.is_special byte }
{
    is_reserved(byte) || byte == b'=' || byte == b'#' || byte == b' '
}

fn hex_value(digit: u8) -> Option<u8>
    ensures { result ≡ bytes.hex_value digit }
{
    match digit {
        b'0'..=b'9' => Some(digit - b'0'),
        b'A'..=b'F' => Some(digit - b'A' + 10),
        b'a'..=b'f' => Some(digit - b'a' + 10),
        _ => None,
    }
}

/// The byte of two hexadecimal digits.
pub fn hex_pair(high: u8, low: u8) -> Option<u8>
    ensures { result ≡ bytes.hex_pair high low }
{
    let high = hex_value(high)?;
    let low = hex_value(low)?;
    Some(16 * high + low)
}
