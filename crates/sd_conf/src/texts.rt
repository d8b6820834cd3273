// Pieces of a text, blanks and lists.
ghost use Rattle.std.specs.Prelude.{◌≡◌, ℕ, List, map, IfOk};
ghost use Rattle.sd_pieces.specs.Pieces as split;
ghost use Rattle.sd_conf.specs.Texts as texts;

use sd_base::Memory;
use sd_dn::compare::same_text;
use sd_pieces::cut;
use std::alloc::Global;

/// The pieces between the bytes that part.
pub fn pieces(alloc: Global, by: u8, bytes: &[u8]) -> Result<Vec<&[u8]>, Memory>
    ensures { IfOk result (λ found. map (λ x. x.now) found.items ≡ split.pieces by bytes.now) }
{
    let mut found = Vec::new(alloc);
    let mut left = Some(bytes);
    while let Some(rest) = left {
        let (piece, behind) = cut(by, rest);
        found.push(piece)?;
        left = behind;
    }
    Ok(found)
}

fn is_blank(byte: u8) -> bool
    ensures { result ≡ texts.is_blank byte }
{
    byte == b' ' || byte == b'\t' || byte == b'\r'
}

fn without_first_blanks(bytes: &[u8]) -> &[u8]
    ensures { result.now ≡ texts.without_first_blanks bytes.now }
{
    for (at, byte) in bytes.iter().enumerate() {
        if !is_blank(*byte) {
            return &bytes[at..];
        }
    }
    &[]
}

fn without_last_blanks(bytes: &[u8]) -> &[u8]
    ensures { result.now ≡ texts.without_last_blanks bytes.now }
{
    for at in (0..bytes.len()).rev() {
        if !is_blank(bytes[at]) {
            return &bytes[..at + 1];
        }
    }
    &[]
}

/// Without the blanks (space, tab, carriage return) at both ends.
pub fn trimmed(bytes: &[u8]) -> &[u8]
    ensures { result.now ≡ texts.trimmed bytes.now }
{
    without_last_blanks(without_first_blanks(bytes))
}

/// The items of a list with commas: trimmed, and none empty.
pub fn items(alloc: Global, bytes: &[u8]) -> Result<Vec<&[u8]>, Memory>
    ensures { IfOk result (λ found. map (λ x. x.now) found.items ≡ texts.items_of bytes.now) }
{
    let mut found = Vec::new(alloc);
    let mut left = Some(bytes);
    while let Some(rest) = left {
        let (piece, behind) = cut(b',', rest);
        let item = trimmed(piece);
        if !item.is_empty() {
            found.push(item)?;
        }
        left = behind;
    }
    Ok(found)
}

/// TRUE or FALSE, without ASCII case.
pub fn flag(bytes: &[u8]) -> Option<bool>
    ensures { result ≡ texts.flag_of bytes.now }
{
    if same_text(bytes, b"true") {
        return Some(true);
    }
    if same_text(bytes, b"false") {
        return Some(false);
    }
    None
}
