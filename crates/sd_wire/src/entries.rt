// The lines of a journal.
ghost use Rattle.std.specs.Prelude.{◌≡◌, ◌++◌, OnOk, IfOk};
ghost use Rattle.sd_wire.specs.EntryLines as lines;

use crate::events::push_event;
use crate::fields::{push_bytes, push_number};
use crate::replies::push_reply;
use sd_base::{Memory, Text};
use sd_rules::Entry;
use std::alloc::Global;

fn push_stamp(alloc: Global, out: &mut Vec<u8>, entry: &Entry) -> Result<(), Memory>
    ensures { OnOk result (out.new.items ≡ out.old.items ++ lines.stamp entry.now) }
{
    push_number(alloc, out, entry.number)?;
    push_bytes(out, b" ")?;
    push_number(alloc, out, entry.moment)?;
    push_bytes(out, b" ")
}

/// Appends the line of an entry, without the end of a line.
pub fn push_entry(alloc: Global, out: &mut Vec<u8>, entry: &Entry) -> Result<(), Memory>
    ensures { OnOk result (out.new.items ≡ out.old.items ++ lines.entry_line entry.now) }
{
    push_stamp(alloc, out, entry)?;
    push_event(alloc, out, &entry.event)?;
    push_bytes(out, b" ")?;
    push_reply(alloc, out, entry.reply)
}

/// The line of an entry, without the end of a line.
pub fn print_entry(alloc: Global, entry: &Entry) -> Result<Text, Memory>
    ensures { IfOk result (λ text. text ≡ lines.entry_line entry.now) }
{
    let mut out = Vec::new(alloc);
    push_entry(alloc, &mut out, entry)?;
    Text::from_bytes(alloc, out.as_slice())
}
