// What is kept of the requests for which tickets wait.
ghost use Rattle.std.specs.Prelude.{◌≡◌, ℕ, ◌+◌, ◌<◌, ◌^◌, ◌==◌, OnOk, OnErr, Some, if◌then◌else◌};
ghost use Rattle.std.specs.BTreeMap.{get};
ghost use Rattle.std.specs.Ordering.{nat_cmp};
ghost use Rattle.sd_table.specs.Kept as kept;

use sd_base::Memory;
use sd_rules::Outcome;
use std::collections::BTreeMap;

/// What is kept of a request for which tickets wait.
#[derive(Clone, Copy, PartialEq, Eq)]
pub struct Waited {
    /// How many tickets wait for it.
    pub tickets: u64,
    /// What it came to, once it is closed.
    pub outcome: Option<Outcome>,
}

/// Keeps the outcome of a request, if tickets wait for it.
pub fn give(waited: &mut BTreeMap<u64, Waited>, number: u64, outcome: Outcome)
    ensures { (n : ℕ) → get nat_cmp waited.new n ≡ (if n == number then kept.with_given outcome (get nat_cmp waited.old n) else get nat_cmp waited.old n) }
{
    if let Some(entry) = waited.get_mut(&number) {
        entry.outcome = Some(outcome);
    }
}

/// Counts one more ticket of a request.
pub fn count_up(waited: &mut BTreeMap<u64, Waited>, number: u64) -> Result<(), Memory>
    requires { kept.ticket_count (get nat_cmp waited.old number) + 1 < 2 ^ 64 }
    ensures ok { OnOk result ((n : ℕ) → get nat_cmp waited.new n ≡ (if n == number then Some (kept.one_more (get nat_cmp waited.old n)) else get nat_cmp waited.old n)) }
    ensures err { OnErr result ((n : ℕ) → get nat_cmp waited.new n ≡ get nat_cmp waited.old n) }
{
    let more = match waited.get(&number) {
        Some(entry) => Waited {
            tickets: entry.tickets + 1,
            ..*entry
        },
        None => Waited {
            tickets: 1,
            outcome: None,
        },
    };
    waited.insert(number, more)?;
    Ok(())
}

/// Counts one ticket of a request less.
pub fn count_down(waited: &mut BTreeMap<u64, Waited>, number: u64)
    ensures { (n : ℕ) → get nat_cmp waited.new n ≡ (if n == number then kept.one_less (get nat_cmp waited.old n) else get nat_cmp waited.old n) }
{
    match waited.get_mut(&number) {
        Some(entry) if entry.tickets > 1 => entry.tickets -= 1,
        _ => {
            waited.remove(&number);
        }
    }
}
