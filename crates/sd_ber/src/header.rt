//! The tag and the length of an element (X.690 sections 8.1.2 and 8.1.3).
ghost use Rattle.std.specs.Prelude.{◌≡◌, ℕ, ◌<◌, ◌≤◌, ◌^◌, length, IfOk};
ghost use Rattle.sd_ber.specs.Octets.{number};
ghost use Rattle.sd_ber.specs.Reading.{length_at, header_at};

use crate::fault::BerFault;

/// The front of an element.
#[derive(Clone, Copy, PartialEq, Eq)]
pub struct Header {
    pub tag: u8,
    /// How many bytes tag and length take.
    pub size: usize,
    /// How many bytes the contents have.
    pub length: usize,
}

/// The number that one to four octets spell.
fn number(octets: &[u8]) -> usize
    requires { length octets.now ≤ 4 }
    ensures value { result ≡ number octets.now }
    ensures small { result < 2 ^ 32 }
{
    match octets {
        [a] => usize::from(*a),
        [a, b] => usize::from(*a) * 0x100 + usize::from(*b),
        [a, b, c] => (usize::from(*a) * 0x100 + usize::from(*b)) * 0x100 + usize::from(*c),
        [a, b, c, d] => {
            ((usize::from(*a) * 0x100 + usize::from(*b)) * 0x100 + usize::from(*c)) * 0x100
                + usize::from(*d)
        }
        _ => 0,
    }
}

/// How many octets a length takes, and the length.
fn length(at: u64, octets: &[u8]) -> Result<(usize, usize), BerFault>
    ensures exact { result ≡ length_at at octets.now }
    ensures small { IfOk result (λ found. (found.0 ≤ 5) × (found.1 < 2 ^ 32)) }
{
    let [first, more @ ..] = octets else {
        return Err(BerFault::Short);
    };
    let first = usize::from(*first);
    if first < 0x80 {
        return Ok((1, first));
    }
    if first == 0x80 {
        return Err(BerFault::Indefinite(at));
    }
    if first > 0x84 {
        return Err(BerFault::TooLong(at));
    }
    let count = first - 0x80;
    if more.len() < count {
        return Err(BerFault::Short);
    }
    Ok((count + 1, number(&more[..count])))
}

/// The tag and the length that bytes begin with; the first byte has a place.
#[tactic(auto, unfolding(crate::specs::Reading::header_at))]
pub fn read_header(at: u64, bytes: &[u8]) -> Result<Header, BerFault>
    ensures exact { result ≡ header_at at bytes.now }
    ensures small { IfOk result (λ h. (h.size ≤ 6) × (h.length < 2 ^ 32)) }
{
    let [tag, octets @ ..] = bytes else {
        return Err(BerFault::Short);
    };
    if tag % 32 == 31 {
        return Err(BerFault::BadTag(at));
    }
    let (count, length) = length(at, octets)?;
    Ok(Header {
        tag: *tag,
        size: count + 1,
        length,
    })
}
