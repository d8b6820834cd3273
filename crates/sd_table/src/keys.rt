// The keys of the open requests by their numbers, and the numbers by the keys.
ghost use Rattle.std.specs.Prelude.{◌≡◌, ℕ, ◌==◌, OnOk, OnErr, Some, None, if◌then◌else◌};
ghost use Rattle.std.specs.Map.{remove_entry};
ghost use Rattle.std.specs.BTreeMap.{insert_entry};
ghost use Rattle.std.specs.HashMap as table;
ghost use Rattle.std.specs.Ordering.{nat_cmp};
ghost use Rattle.sd_rules.specs.declared.keys.Key.{Key};
ghost use Rattle.sd_table.specs.Table.{at_number};
ghost use Rattle.sd_table.specs.Kept.{keys_equal};

use sd_base::{Copied, Memory};
use sd_rules::Key;
use std::collections::{BTreeMap, HashMap};

/// The number that is kept for a key.
pub fn number_of(numbers: &HashMap<Key, u64>, key: &Key) -> Option<u64>
    ensures { result ≡ table.get keys_equal numbers.now key.now }
{
    numbers.get(key).copied()
}

/// Keeps the number for a key that had none.
pub fn put_number(numbers: &mut HashMap<Key, u64>, key: Key, number: u64) -> Result<(), Memory>
    ensures ok { OnOk result ((k : Key) → table.get keys_equal numbers.new k ≡ (if keys_equal key k then Some number else table.get keys_equal numbers.old k)) }
    ensures err { OnErr result ((k : Key) → table.get keys_equal numbers.new k ≡ table.get keys_equal numbers.old k) }
{
    numbers.insert(key, number)?;
    Ok(())
}

/// Keeps no number for a key any more.
pub fn drop_number(numbers: &mut HashMap<Key, u64>, key: &Key)
    ensures { (k : Key) → table.get keys_equal numbers.new k ≡ (if keys_equal key.now k then None else table.get keys_equal numbers.old k) }
{
    numbers.remove(key);
}

/// Keeps a number and its key; for want of memory neither.
pub fn add(
    keys: &mut BTreeMap<u64, Key>,
    numbers: &mut HashMap<Key, u64>,
    number: u64,
    key: &Key,
) -> Result<(), Memory>
    requires { at_number keys.old.entries number ≡ None }
    ensures keys { OnOk result (keys.new.entries ≡ insert_entry nat_cmp keys.old.entries number key.now) }
    ensures numbers { OnOk result ((k : Key) → table.get keys_equal numbers.new k ≡ (if keys_equal key.now k then Some number else table.get keys_equal numbers.old k)) }
    ensures keys_stay { OnErr result (keys.new.entries ≡ keys.old.entries) }
    ensures numbers_stay { OnErr result ((k : Key) → table.get keys_equal numbers.new k ≡ table.get keys_equal numbers.old k) }
{
    let by_key = key.copy()?;
    keys.insert(number, key.copy()?)?;
    if let Err(failed) = put_number(numbers, by_key, number) {
        keys.remove(&number);
        return Err(failed);
    }
    Ok(())
}

/// Keeps a number and its key no more.
pub fn remove(keys: &mut BTreeMap<u64, Key>, numbers: &mut HashMap<Key, u64>, number: u64)
    ensures keys { keys.new.entries ≡ remove_entry (λ n. n == number) keys.old.entries }
    ensures each { (n : ℕ) → at_number keys.new.entries n ≡ (if n == number then None else at_number keys.old.entries n) }
    ensures numbers { (key k : Key) → at_number keys.old.entries number ≡ Some key → table.get keys_equal numbers.new k ≡ (if keys_equal key k then None else table.get keys_equal numbers.old k) }
{
    if let Some(key) = keys.remove(&number) {
        drop_number(numbers, &key);
    }
}
