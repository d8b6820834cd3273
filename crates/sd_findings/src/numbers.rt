// A set of numbers.
ghost use Rattle.std.specs.Prelude.{◌≡◌, ℕ, ◌||◌, [], OnOk};
ghost use Rattle.sd_rules.specs.Needed as needed;
ghost use Rattle.sd_findings.specs.Findings.{is_among};

use indexmap::IndexSet;
use sd_base::Memory;

/// A set of numbers of entries. No client chooses them, so their hashes need no secret.
pub type Numbers = IndexSet<u64>;

/// Whether a set has a number.
pub fn has(numbers: &Numbers, number: u64) -> bool
    ensures { result ≡ is_among number numbers.now.keys }
{
    !numbers.is_empty() && numbers.contains(&number)
}

/// Puts a number into a set, where there is one.
pub fn note(numbers: &mut Numbers, number: Option<u64>) -> Result<(), Memory>
    ensures { OnOk result ((n : ℕ) → is_among n numbers.new.keys ≡ (needed.is_number n number || is_among n numbers.old.keys)) }
{
    if let Some(number) = number {
        numbers.insert(number)?;
    }
    Ok(())
}
