//! Elements as bytes (X.690 section 8.1).
ghost use Rattle.std.specs.Prelude.{◌≡◌, ℕ, ◌<◌, ◌≤◌, ◌^◌, ◌+◌, List, ◌∷◌, ◌++◌, take, length, vec_len, OnOk, OnErr};
ghost use Rattle.sd_ber.specs.Octets.{without_zeros, element, length_octets};
ghost use Rattle.sd_ber.specs.Grammar.{AreOctets, IsLength};

use sd_base::Memory;

/// Octets without the zeros in front.
fn significant(octets: &[u8]) -> &[u8]
    ensures { result.now ≡ without_zeros octets.now }
{
    let mut rest = octets;
    while let [0, more @ ..] = rest {
        rest = more;
    }
    rest
}

/// Puts a length at the end.
fn put_length(out: &mut Vec<u8>, length: usize) -> Result<(), Memory>
    ensures ok { OnOk result (out.new.items ≡ out.old.items ++ length_octets length) }
    ensures kept { take (vec_len out.old) out.new.items ≡ out.old.items }
{
    if length < 0x80 {
        out.push(length as u8)?;
        return Ok(());
    }
    let octets = (length as u64).to_be_bytes();
    let octets = significant(&octets);
    out.push(0x80 + octets.len() as u8)?;
    out.extend_from_slice(octets)?;
    Ok(())
}

/// Puts an element at the end, which may stay there in part after want of memory.
fn put_element(out: &mut Vec<u8>, tag: u8, body: &[u8]) -> Result<(), Memory>
    ensures ok { OnOk result (out.new.items ≡ out.old.items ++ element tag body.now) }
    ensures kept { take (vec_len out.old) out.new.items ≡ out.old.items }
{
    out.push(tag)?;
    put_length(out, body.len())?;
    out.extend_from_slice(body)?;
    Ok(())
}

/// Writes an element at the end, its length in the fewest octets.
pub fn write_tlv(out: &mut Vec<u8>, tag: u8, body: &[u8]) -> Result<(), Memory>
    ensures ok { OnOk result (out.new.items ≡ out.old.items ++ element tag body.now) }
    ensures err { OnErr result (out.new.items ≡ out.old.items) }
    // No other octets that spell this length are fewer.
    ensures fewest { (octets : List ℕ) → AreOctets octets → IsLength octets (length body.now) → length (length_octets (length body.now)) ≤ length octets }
{
    let before = out.len();
    if put_element(out, tag, body).is_err() {
        out.truncate(before);
        return Err(Memory);
    }
    Ok(())
}
