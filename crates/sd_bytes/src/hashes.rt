// Hashes of passwords, and salts.
use crate::hex::{bytes_of, cut_word, number};
use crate::output::{print, print_bytes, print_line};
use sd_base::Memory;
use sd_creds::{Salts, hash, hash_text, read_hash, verify};
use sd_rules::Hash;
use std::alloc::Global;

/// The salt of a word; bytes that are wanting are 0.
fn salt_of(alloc: Global, word: &[u8]) -> Result<[u8; 16], Memory> {
    let mut salt = [0u8; 16];
    for (to, from) in salt.iter_mut().zip(bytes_of(alloc, word)?.as_slice()) {
        *to = *from;
    }
    Ok(salt)
}

/// The seed of a word; bytes that are wanting are 0.
fn seed_of(alloc: Global, word: &[u8]) -> Result<[u8; 32], Memory> {
    let mut seed = [0u8; 32];
    for (to, from) in seed.iter_mut().zip(bytes_of(alloc, word)?.as_slice()) {
        *to = *from;
    }
    Ok(seed)
}

/// The text of the hash of a password with a salt, and whether it is read back and verified, and another password is not.
pub fn print_hash(alloc: Global, out: &mut Vec<u8>, words: &[u8]) -> Result<(), Memory> {
    let (salt, password) = cut_word(words);
    let made = hash(salt_of(alloc, salt)?, password);
    let text = hash_text(alloc, &made)?;
    print_line(out, text.bytes())?;
    if read_hash(text.bytes()) != Ok(made) {
        print_line(out, b"not read back")?;
    }
    if !verify(&made, password) {
        print_line(out, b"not verified")?;
    }
    if verify(&made, salt) {
        print_line(out, b"another one verified")?;
    }
    Ok(())
}

/// Whether a text is that of a hash.
pub fn print_read(out: &mut Vec<u8>, text: &[u8]) -> Result<(), Memory> {
    let is_hash = read_hash(text).is_ok();
    print_line(out, if is_hash { b"a hash" } else { b"no hash" })
}

/// The places and the values of the bytes that are others than these.
fn print_others(
    alloc: Global,
    out: &mut Vec<u8>,
    name: &str,
    bytes: &[u8],
    others: &[u8],
) -> Result<(), Memory> {
    for place in 0..bytes.len().min(others.len()) {
        let other = others[place];
        if bytes[place] != other {
            let text = format!(in alloc; " {name} {place} {other}")?;
            print(out, text.as_bytes())?;
        }
    }
    Ok(())
}

/// A place in a text, and what is another in the hash that is read where the byte there is one greater.
fn print_other(
    alloc: Global,
    out: &mut Vec<u8>,
    place: usize,
    own: &Hash,
    other: &Hash,
) -> Result<(), Memory> {
    print(out, format!(in alloc; "{place}")?.as_bytes())?;
    print_others(alloc, out, "salt", &own.salt, &other.salt)?;
    print_others(alloc, out, "digest", &own.digest, &other.digest)?;
    print(out, b"\n")
}

/// Which texts are still read that have one byte one greater than a hash's text, and as what.
pub fn print_changes(alloc: Global, out: &mut Vec<u8>, text: &[u8]) -> Result<(), Memory> {
    let Ok(own) = read_hash(text) else {
        return print_line(out, b"no hash");
    };
    for place in 0..text.len() {
        let mut other = Vec::from_slice(alloc, text)?;
        if let Some(byte) = other.get_mut(place) {
            *byte = byte.wrapping_add(1);
        }
        if let Ok(other) = read_hash(other.as_slice()) {
            print_other(alloc, out, place, &own, &other)?;
        }
    }
    Ok(())
}

/// The salt of the attempt of a number, made of a seed.
pub fn print_salt(alloc: Global, out: &mut Vec<u8>, words: &[u8]) -> Result<(), Memory> {
    let (seed, attempt) = cut_word(words);
    let salts = Salts::new(seed_of(alloc, seed)?);
    let salt = salts.salt(u64::from(number(attempt)));
    print_bytes(alloc, out, "salt", &salt)
}
