//! Messages framed anew: their contents behind another outer length.
ghost use Rattle.std.specs.Prelude.{◌≡◌, ℕ, ◌+◌, ◌<◌, ◌^◌, List, [], ◌++◌, length, IfOk, OnOk, IfSome, Some, None};
ghost use Rattle.std.specs.Option.{option_copied};
ghost use Rattle.sd_ldap.specs.Values.{MessageValue};
ghost use Rattle.sd_ldap.specs.Spelling.{content_bytes, message_bytes};
ghost use Rattle.sd_stub_link.specs.Modes.{framed_in};
ghost use Rattle.sd_stub_link.specs.Framing.{Reframes};

use sd_base::Memory;
use sd_ber::Reader;
use std::alloc::Global;

/// How the outer length of a message is written (X.690 section 8.1.3).
#[derive(Clone, Copy)]
pub enum Outer {
    FourOctets,
    Indefinite,
}

fn put_long(out: &mut Vec<u8>, contents: &[u8]) -> Result<(), Memory>
    requires { length contents.now < 2 ^ 32 }
    ensures { OnOk result (out.new.items ≡ out.old.items ++ framed_in Outer.FourOctets contents.now) }
{
    let length = contents.len() as u32;
    out.extend_from_slice(&[0x30, 0x84])?;
    out.extend_from_slice(&length.to_be_bytes())?;
    out.extend_from_slice(contents)?;
    Ok(())
}

fn put_indefinite(out: &mut Vec<u8>, contents: &[u8]) -> Result<(), Memory>
    ensures { OnOk result (out.new.items ≡ out.old.items ++ framed_in Outer.Indefinite contents.now) }
{
    out.extend_from_slice(&[0x30, 0x80])?;
    out.extend_from_slice(contents)?;
    out.extend_from_slice(&[0, 0])?;
    Ok(())
}

fn put_framed(out: &mut Vec<u8>, outer: Outer, contents: &[u8]) -> Result<(), Memory>
    requires { length contents.now < 2 ^ 32 }
    ensures { OnOk result (out.new.items ≡ out.old.items ++ framed_in outer contents.now) }
{
    match outer {
        Outer::FourOctets => put_long(out, contents),
        Outer::Indefinite => put_indefinite(out, contents),
    }
}

/// The contents of the message in front; none at the end.
fn next_contents<'a>(reader: &mut Reader<'a>) -> Option<&'a [u8]>
    ensures first { (m : MessageValue) (more : List ℕ) → length (message_bytes m) < 2 ^ 32 → reader.old.rest ≡ message_bytes m ++ more → (option_copied result ≡ Some (content_bytes m)) × (reader.new.rest ≡ more) }
    ensures end { reader.old.rest ≡ [] → option_copied result ≡ None }
    ensures shorter { IfSome result (λ contents. length contents.now + length reader.new.rest < length reader.old.rest) }
{
    match reader.next() {
        Ok(Some(tlv)) => Some(tlv.body),
        Ok(None) => None,
        Err(_) => None,
    }
}

/// The bytes of messages, with another outer length.
pub fn reframed(alloc: Global, bytes: &[u8], outer: Outer) -> Result<Vec<u8>, Memory>
    requires { length bytes.now < 2 ^ 32 }
    ensures { IfOk result (λ v. Reframes outer bytes.now v.items) }
{
    let mut out = Vec::new(alloc);
    let mut reader = Reader::new(bytes);
    while let Some(contents) = next_contents(&mut reader) {
        put_framed(&mut out, outer, contents)?;
    }
    Ok(out)
}
