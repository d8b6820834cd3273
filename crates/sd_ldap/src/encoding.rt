//! Messages to the bytes of a stream.
ghost use Rattle.std.specs.Prelude.{◌≡◌, ◌≤◌, ◌<◌, length, IfOk, OnOk, Err};
ghost use Rattle.sd_ldap.specs.Values.{message_value};
ghost use Rattle.sd_ldap.specs.Spelling.{content_bytes, message_bytes};
ghost use Rattle.sd_ldap.specs.Sound.{IsSound};
ghost use Rattle.sd_ldap.specs.Laws.{DecodesBack, DecodedAs};
ghost use Rattle.sd_ldap.specs.declared.encoding.EncodeFault.TheVariants as faults;

use crate::decoding::MAX_LENGTH;
use crate::message::Message;
use crate::writing::{contents, framed};
use sd_base::Memory;
use std::alloc::Global;

/// Why a message has no bytes.
#[derive(Clone, Copy, PartialEq, Eq)]
pub enum EncodeFault {
    /// Its contents take more than 16 MiB.
    TooLong,
    Memory,
}

impl From<Memory> for EncodeFault {
    ghost from_gives = { λ _ fault. fault ≡ faults.Memory };

    fn from(_memory: Memory) -> EncodeFault {
        EncodeFault::Memory
    }
}

/// What is written for a sound message is decoded as that message, whole, whatever follows it: a law
/// without code.
pub fn decodes_back()
    ensures { DecodesBack }
{}

/// The bytes of a message.
pub fn encode(alloc: Global, message: &Message) -> Result<Vec<u8>, EncodeFault>
    ensures bytes { IfOk result (λ v. v.items ≡ message_bytes (message_value message.now)) }
    ensures fits { OnOk result (length (content_bytes (message_value message.now)) ≤ 16777216) }
    // A sound message is decoded from them, whole, whatever follows.
    ensures back { IsSound (message_value message.now) → IfOk result (λ v. DecodedAs (message_value message.now) v.items) }
    ensures too_long { result ≡ Err EncodeFault.TooLong → 16777216 < length (content_bytes (message_value message.now)) }
{
    let contents = contents(alloc, message)?;
    if contents.len() > MAX_LENGTH {
        return Err(EncodeFault::TooLong);
    }
    Ok(framed(alloc, &contents)?)
}

/// The bytes of a message at any length.
pub fn write_message(alloc: Global, message: &Message) -> Result<Vec<u8>, Memory>
    ensures { IfOk result (λ v. v.items ≡ message_bytes (message_value message.now)) }
{
    let contents = contents(alloc, message)?;
    framed(alloc, &contents)
}
