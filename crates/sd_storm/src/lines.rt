//! What is printed.
ghost use Rattle.std.specs.Prelude.{◌≡◌, ◌++◌, IfOk, OnOk};
ghost use Rattle.sd_storm.specs.Lines as lines;

use crate::account::Account;
use sd_base::Memory;
use sd_wire::fields::{push_bytes, push_numbered};
use std::alloc::Global;

fn push_line(alloc: Global, out: &mut Vec<u8>, word: &[u8], number: u64) -> Result<(), Memory>
    ensures { OnOk result (out.new.items ≡ out.old.items ++ lines.line word.now number) }
{
    push_numbered(alloc, out, word, number)?;
    push_bytes(out, b"\n")
}

/// The lines for so many requests that came to this.
pub fn lines_of(alloc: Global, requests: u32, account: Account) -> Result<Vec<u8>, Memory>
    ensures { IfOk result (λ text. text.items ≡ lines.lines_of requests account) }
{
    let mut text = Vec::new(alloc);
    push_line(alloc, &mut text, b"requests ", u64::from(requests))?;
    push_line(alloc, &mut text, b"found ", account.found as u64)?;
    push_line(alloc, &mut text, b"none ", account.none as u64)?;
    push_line(alloc, &mut text, b"leads ", account.leads as u64)?;
    Ok(text)
}
