// The tickets that wait, by their numbers, with what is kept of their requests.
ghost use Rattle.std.specs.Prelude.{◌≡◌, ℕ, ◌+◌, ◌≤◌, ◌==◌, OnOk, OnErr, Some, None, if◌then◌else◌};
ghost use Rattle.std.specs.Map.{remove_entry};
ghost use Rattle.std.specs.Option.{option_and_then};
ghost use Rattle.std.specs.BTreeMap.{get, insert_entry, btree_map_len};
ghost use Rattle.std.specs.Ordering.{nat_cmp};
ghost use Rattle.sd_table.specs.Table.{at_number};
ghost use Rattle.sd_table.specs.Kept as kept;

use crate::waited::{Waited, count_down, count_up};
use sd_base::Memory;
use sd_rules::Outcome;
use std::collections::BTreeMap;

/// The outcome of the request that a ticket waits for, once that is closed.
pub fn outcome_of(
    tickets: &BTreeMap<u64, u64>,
    waited: &BTreeMap<u64, Waited>,
    ticket: u64,
) -> Option<Outcome>
    ensures { result ≡ option_and_then (λ number. kept.outcome_in (get nat_cmp waited.now number)) (at_number tickets.now.entries ticket) }
{
    let number = tickets.get(&ticket)?;
    waited.get(number)?.outcome
}

/// Lets a ticket wait for a request; for want of memory it does not.
pub fn add(
    tickets: &mut BTreeMap<u64, u64>,
    waited: &mut BTreeMap<u64, Waited>,
    number: u64,
    ticket: u64,
) -> Result<(), Memory>
    requires new { at_number tickets.old.entries ticket ≡ None }
    requires few { kept.ticket_count (get nat_cmp waited.old number) ≤ btree_map_len tickets.old }
    ensures tickets { OnOk result (tickets.new.entries ≡ insert_entry nat_cmp tickets.old.entries ticket number) }
    ensures waited { OnOk result ((n : ℕ) → get nat_cmp waited.new n ≡ (if n == number then Some (kept.one_more (get nat_cmp waited.old n)) else get nat_cmp waited.old n)) }
    ensures tickets_stay { OnErr result (tickets.new.entries ≡ tickets.old.entries) }
    ensures waited_stay { OnErr result ((n : ℕ) → get nat_cmp waited.new n ≡ get nat_cmp waited.old n) }
{
    tickets.insert(ticket, number)?;
    // The tickets are fewer than 2^64, and so are those of one request.
    let _all = tickets.len();
    if let Err(failed) = count_up(waited, number) {
        tickets.remove(&ticket);
        return Err(failed);
    }
    Ok(())
}

/// Lets a ticket wait no more, if it does.
pub fn remove(tickets: &mut BTreeMap<u64, u64>, waited: &mut BTreeMap<u64, Waited>, ticket: u64)
    ensures tickets { tickets.new.entries ≡ remove_entry (λ n. n == ticket) tickets.old.entries }
    ensures each { (n : ℕ) → at_number tickets.new.entries n ≡ (if n == ticket then None else at_number tickets.old.entries n) }
    ensures waited { (n : ℕ) → get nat_cmp waited.new n ≡ kept.after_leave (at_number tickets.old.entries ticket) n (get nat_cmp waited.old n) }
{
    if let Some(number) = tickets.remove(&ticket) {
        count_down(waited, number);
    }
}
