// The texts of stored hashes: `$sd1$`, the salt, `$`, the digest, both in base64 (RFC 4648 section 4).
ghost use Rattle.std.specs.Prelude.{◌≡◌, ◌≢◌, ◌<◌, ◌≤◌, ◌++◌, ℕ, List, length, take, codes, true, IfOk, IfErr};
ghost use Rattle.std.specs.Bool.{OnTrue};
ghost use Rattle.base64.specs.Decode.{decoded_estimate};
ghost use Rattle.base64.specs.Engines.{standard};
ghost use Rattle.base64.specs.GeneralPurpose.{encode_of, IsBytes};
ghost use Rattle.sd_creds.specs.Texts as texts;
ghost use Rattle.sd_rules.specs.declared.events.Hash.{Hash};

use base64::engine::general_purpose::STANDARD;
use sd_base::{Memory, Text};
use sd_rules::Hash;
use std::alloc::Global;

/// How long the base64 of a salt is.
const SALT_LEN: usize = 24;

/// How long the base64 of a digest is.
const DIGEST_LEN: usize = 88;

/// Why a text is not read.
#[derive(Clone, Copy, PartialEq, Eq)]
pub enum HashFault {
    /// It is no hash's.
    Bad,
}

/// The text of a hash.
pub fn hash_text(alloc: Global, hash: &Hash) -> Result<Text, Memory>
    ensures { IfOk result (λ text. text ≡ texts.text_of hash.now) }
{
    let mut text = String::from_str(alloc, "$sd1$")?;
    STANDARD.encode_string(&hash.salt, &mut text)?;
    text.push_str("$")?;
    STANDARD.encode_string(&hash.digest, &mut text)?;
    Text::from_bytes(alloc, text.as_bytes())
}

/// The rest of a text behind a front that it has to begin with.
fn behind<'a>(text: &'a [u8], front: &[u8]) -> Result<&'a [u8], HashFault>
    ensures ok { IfOk result (λ rest. text.now ≡ front.now ++ rest.now) }
    ensures bad { IfErr result (λ _. (rest : List ℕ) → text.now ≢ front.now ++ rest) }
{
    match text.strip_prefix(front) {
        Some(rest) => Ok(rest),
        None => Err(HashFault::Bad),
    }
}

/// The first bytes of a text, so many, and the rest.
fn cut(text: &[u8], size: usize) -> Result<(&[u8], &[u8]), HashFault>
    ensures ok { IfOk result (λ pieces. (text.now ≡ pieces.0.now ++ pieces.1.now) × (length pieces.0.now ≡ size)) }
    ensures bad { IfErr result (λ _. length text.now < size) }
{
    if text.len() < size {
        return Err(HashFault::Bad);
    }
    Ok(text.split_at(size))
}

/// The base64 of the salt and of the digest in a text.
fn pieces(text: &[u8]) -> Result<(&[u8], &[u8]), HashFault>
    ensures ok { IfOk result (λ p. (text.now ≡ codes "$sd1$" ++ p.0.now ++ codes "$" ++ p.1.now) × (length p.0.now ≡ SALT_LEN) × (length p.1.now ≡ DIGEST_LEN)) }
    ensures bad { IfErr result (λ _. (salt digest : List ℕ) → length salt ≡ SALT_LEN → length digest ≡ DIGEST_LEN → text.now ≢ codes "$sd1$" ++ salt ++ codes "$" ++ digest) }
{
    let front = behind(text, b"$sd1$")?;
    let (salt, rest) = cut(front, SALT_LEN)?;
    let digest = behind(rest, b"$")?;
    if digest.len() == DIGEST_LEN {
        Ok((salt, digest))
    } else {
        Err(HashFault::Bad)
    }
}

/// Whether a text is the base64 of so many bytes, which are then in the room's front.
fn decodes(text: &[u8], size: usize, room: &mut [u8]) -> bool
    requires { decoded_estimate (length text.now) ≤ length room.old }
    ensures told { OnTrue result (text.now ≡ encode_of standard (take size room.new)) }
    ensures whole { (bytes : List ℕ) → IsBytes bytes → length bytes ≡ size → text.now ≡ encode_of standard bytes → (result ≡ true) × (take size room.new ≡ bytes) }
{
    match STANDARD.decode_slice_unchecked(text, room) {
        Ok(count) => count == size,
        Err(_fault) => false,
    }
}

/// The first bytes of a room, as many as are asked for.
fn first_bytes<const N: usize>(room: &[u8]) -> [u8; N]
    requires { N ≤ length room.now }
    ensures { result ≡ take N room.now }
{
    let mut bytes = [0u8; N];
    for place in 0..N {
        bytes[place] = room[place];
    }
    bytes
}

/// The salt of which a text is the base64.
fn read_salt(text: &[u8]) -> Result<[u8; 16], HashFault>
    requires { length text.now ≡ SALT_LEN }
    ensures ok { IfOk result (λ salt. text.now ≡ encode_of standard salt) }
    ensures whole { (salt : List ℕ) → IsBytes salt → length salt ≡ 16 → text.now ≡ encode_of standard salt → result ≡ Ok salt }
{
    let mut room = [0u8; 18];
    if !decodes(text, 16, &mut room) {
        return Err(HashFault::Bad);
    }
    Ok(first_bytes(&room))
}

/// The digest of which a text is the base64.
fn read_digest(text: &[u8]) -> Result<[u8; 64], HashFault>
    requires { length text.now ≡ DIGEST_LEN }
    ensures ok { IfOk result (λ digest. text.now ≡ encode_of standard digest) }
    ensures whole { (digest : List ℕ) → IsBytes digest → length digest ≡ 64 → text.now ≡ encode_of standard digest → result ≡ Ok digest }
{
    let mut room = [0u8; 66];
    if !decodes(text, 64, &mut room) {
        return Err(HashFault::Bad);
    }
    Ok(first_bytes(&room))
}

/// The hash of which this is the text.
pub fn read_hash(text: &[u8]) -> Result<Hash, HashFault>
    ensures ok { IfOk result (λ hash. text.now ≡ texts.text_of hash) }
    ensures bad { IfErr result (λ _. texts.IsNoHash text.now) }
    ensures whole { (hash : Hash) → texts.IsHash hash → text.now ≡ texts.text_of hash → result ≡ Ok hash }
{
    let (salt, digest) = pieces(text)?;
    let salt = read_salt(salt)?;
    let digest = read_digest(digest)?;
    Ok(Hash { salt, digest })
}
