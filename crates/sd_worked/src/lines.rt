// Lines that are read one by one, and what each of them says, or why it is refused.
//
// A line `dn TEXT` has a DN, a line `dns TEXT | TEXT` two of them. A line `conf`, `config` or `ldif` begins a block,
// whose text runs to a line that is a dot alone, without the end of its last line; of a `config` everything is told, of
// a `conf` whether it is read. So does a line `record user NAME`, `record uid N`, `record group NAME`, `record gid N` or
// `record rule`, whose block is LDIF: of each entry it tells the name of the record that was asked for, or of the
// attribute that does not fit. The block of a line `nets` is LDIF too: it tells of each triple the fields, and whether it
// speaks of the host `H1`, the user `alice` and any domain, or the place of its first bad byte; and of each sudo rule the
// name, the order, how many attributes sudo is handed, and whether it applies to alice, who is 1000 in the groups 1000 and
// 2001 `staff` and in the netgroup `a`. Other lines are printed as they stand.
use crate::output::print_line;
use crate::{configs, entries, names, nets, records};
use sd_base::Memory;
use sd_plays::{cut_before, cut_line};
use std::alloc::Global;

/// The lines in front of the first dot alone, without the end of the last, and what comes behind the dot.
fn cut_block(text: &[u8]) -> (&[u8], &[u8]) {
    let (block, behind) = cut_before(text, b".\n");
    (&block[..block.len().saturating_sub(1)], cut_line(behind).1)
}

/// What a line alone says.
fn print_one(alloc: Global, line: &[u8], out: &mut Vec<u8>) -> Result<(), Memory> {
    match line {
        [b'd', b'n', b' ', text @ ..] => names::print_name(alloc, text, out),
        [b'd', b'n', b's', b' ', texts @ ..] => names::print_two(alloc, texts, out),
        _ => print_line(out, line),
    }
}

/// Says what the first line, or the block that begins there, says, and gives what comes behind it.
fn print_next<'a>(alloc: Global, text: &'a [u8], out: &mut Vec<u8>) -> Result<&'a [u8], Memory> {
    let (line, rest) = cut_line(text);
    let (block, behind) = cut_block(rest);
    match line {
        b"conf" => configs::print_verdict(alloc, block, out)?,
        b"config" => configs::print_all(alloc, block, out)?,
        b"ldif" => entries::print_all(alloc, block, out)?,
        b"nets" => nets::print_all(alloc, block, out)?,
        [b'r', b'e', b'c', b'o', b'r', b'd', b' ', asked @ ..] => {
            records::print_all(alloc, asked, block, out)?
        }
        _ => {
            print_one(alloc, line, out)?;
            return Ok(rest);
        }
    }
    Ok(behind)
}

/// Appends what all lines of a text say.
pub fn print_lines(alloc: Global, text: &[u8], out: &mut Vec<u8>) -> Result<(), Memory> {
    let mut left = text;
    for _ in 0..text.len() {
        if left.is_empty() {
            break;
        }
        left = print_next(alloc, left, out)?;
    }
    Ok(())
}
