// What distinguished names say.
use crate::output::{print, print_line, print_number};
use sd_base::{Copied, Memory};
use sd_dn::{Dn, DnFault, dn_equal, is_at_or_under, is_dn, is_under, leaf_under, read_dn};
use sd_pieces::cut;
use sd_plays::cut_word;
use std::alloc::Global;

/// Each pair as `TYPE:VALUE+`, and `/` behind each RDN.
fn print_dn(dn: &Dn, out: &mut Vec<u8>) -> Result<(), Memory> {
    for rdn in dn.items() {
        for pair in rdn.items() {
            print(out, pair.name.bytes())?;
            print(out, b":")?;
            print(out, pair.value.bytes())?;
            print(out, b"+")?;
        }
        print(out, b"/")?;
    }
    Ok(())
}

fn print_read(dn: &Dn, is_dn: bool, out: &mut Vec<u8>) -> Result<(), Memory> {
    print(out, b"dn ")?;
    print_dn(dn, out)?;
    print(out, if is_dn { b"\n" } else { b" is no dn\n" })?;
    if dn_equal(&dn.copy()?, dn) {
        return Ok(());
    }
    print_line(out, b"differs from its copy")
}

/// The DN that a text spells, or the place at which it is refused.
pub fn print_name(alloc: Global, text: &[u8], out: &mut Vec<u8>) -> Result<(), Memory> {
    let is_dn = is_dn(alloc, text)?;
    match read_dn(alloc, text) {
        Ok(dn) => print_read(&dn, is_dn, out),
        Err(DnFault::BadDn(place)) if is_dn => print_number(alloc, out, "a dn, refused", place),
        Err(DnFault::BadDn(place)) => print_number(alloc, out, "bad dn", place),
        Err(DnFault::Memory) => Err(Memory),
    }
}

fn dn(alloc: Global, text: &[u8]) -> Result<Dn, Memory> {
    match read_dn(alloc, text) {
        Ok(dn) => Ok(dn),
        Err(DnFault::BadDn(_)) => Ok(Dn::new(alloc)),
        Err(DnFault::Memory) => Err(Memory),
    }
}

fn print_if(holds: bool, word: &[u8], out: &mut Vec<u8>) -> Result<(), Memory> {
    if holds {
        print(out, word)?;
    }
    Ok(())
}

/// The text in front of ` | `, and the text behind it.
fn cut_pair(text: &[u8]) -> (&[u8], &[u8]) {
    let (front, behind) = cut(b'|', text);
    let (_, behind) = cut_word(behind.unwrap_or(b""));
    (&front[..front.len().saturating_sub(1)], behind)
}

/// Whether the first DN equals the second, is under it, at or under it, and the leaf that it is there.
pub fn print_two(alloc: Global, texts: &[u8], out: &mut Vec<u8>) -> Result<(), Memory> {
    let (text, other) = cut_pair(texts);
    let dn = dn(alloc, text)?;
    let container = self::dn(alloc, other)?;
    print(out, b"dns")?;
    print_if(dn_equal(&dn, &container), b" equal", out)?;
    print_if(is_under(&dn, &container), b" under", out)?;
    print_if(is_at_or_under(&dn, &container), b" within", out)?;
    if let Some(leaf) = leaf_under(&dn, &container) {
        print(out, b" leaf ")?;
        print(out, leaf.name)?;
        print(out, b":")?;
        print(out, leaf.value)?;
    }
    print(out, b"\n")
}
