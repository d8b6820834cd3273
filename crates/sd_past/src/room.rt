// Room for the entries that close what is open: it is taken when a number is opened or a ticket given.
ghost use Rattle.std.specs.Prelude.{◌≡◌, ◌+◌, ◌≤◌, length, reverse, vec_capacity, IfOk, OnOk};
ghost use Rattle.sd_past.specs.Closing.{HasRoom};

use sd_base::{Copied, Memory};
use sd_rules::Entry;
use std::alloc::Global;

/// Makes room for one more entry and for so many places, and one more, which may be reserved then.
pub fn make_room(entries: &mut Vec<Entry>, places: usize) -> Result<(), Memory>
    requires { places ≤ length entries.old.items }
    ensures same { entries.new.items ≡ entries.old.items }
    ensures room { OnOk result (length entries.new.items + places + 2 ≤ vec_capacity entries.new) }
    ensures capacity { vec_capacity entries.old ≤ vec_capacity entries.new }
{
    entries.reserve(places + 2)?;
    Ok(())
}

/// The entries, with room for those that close what is open.
pub fn with_room(mut entries: Vec<Entry>) -> Result<Vec<Entry>, Memory>
    ensures same { IfOk result (λ made. made.items ≡ entries.items) }
    ensures room { IfOk result (λ made. HasRoom (reverse made.items) (vec_capacity made)) }
{
    let places = entries.as_slice().len();
    make_room(&mut entries, places)?;
    Ok(entries)
}

/// A copy of entries, with room for those that close what is open.
pub fn copied(alloc: Global, entries: &[Entry]) -> Result<Vec<Entry>, Memory>
    ensures same { IfOk result (λ made. made.items ≡ entries.now) }
    ensures room { IfOk result (λ made. HasRoom (reverse made.items) (vec_capacity made)) }
{
    let mut made = Vec::new(alloc);
    for entry in entries {
        made.push(entry.copy()?)?;
    }
    with_room(made)
}
