//! Loading rows from a keeper, and flushing rows to one.
ghost use Rattle.std.specs.Prelude.{◌≡◌, ◌≤◌, ◌⊎◌, List, true, false, Some, IfOk, IfSome, OnOk, OnErr};
ghost use Rattle.std.specs.List.{AllByRecursion};
ghost use Rattle.sd_base.specs.Causes.{Rose};
ghost use Rattle.sd_rules.specs.declared.events.Row.{Row};
ghost use Rattle.sd_keeper.specs.Blobs as kept;
ghost use Rattle.sd_keeper.specs.Keeping as keeping;
ghost use Rattle.sd_keeper.specs.declared.loading.LoadFault.TheVariants as load_faults;
ghost use Rattle.sd_keeper.specs.Spelling.{row_bytes};

use crate::field::FieldFault;
use crate::keeper::{Keeper, KeeperFault};
use crate::rows::{Version, current, read_row, write_row};
use sd_base::{Blobs, Bytes, Memory};
use sd_rules::{Row, Rows};
use std::alloc::Global;

/// Why rows are not loaded.
#[derive(Clone, Copy, Debug, PartialEq, Eq)]
pub enum LoadFault {
    /// The keeper failed.
    Failed,
    /// The blob at this place, counted from 0, is the bytes of no row.
    BadRow(u32),
    /// A blob is a head of this version, which is not known.
    BadVersion(u32),
    /// Want of memory.
    Memory,
}

impl From<Memory> for LoadFault {
    ghost from_gives = { λ _ fault. fault ≡ load_faults.Memory };

    fn from(_memory: Memory) -> LoadFault {
        LoadFault::Memory
    }
}

/// The first bytes of a head of version 1: its kind and its version.
const OLD_HEAD: [u8; 5] = [0, 0, 0, 0, 1];

/// How many bytes a head has.
const HEAD_LENGTH: usize = 21;

fn is_old_head(blob: &[u8]) -> bool
    ensures { result ≡ kept.is_old_head blob.now }
{
    blob.starts_with(&OLD_HEAD) && blob.len() == HEAD_LENGTH
}

/// The version of a store with these blobs.
fn version_of(blobs: &[Bytes]) -> Version
    ensures { result ≡ kept.version_of blobs.now }
{
    match blobs {
        [] => Version::Second,
        [first, ..] => {
            if is_old_head(first.bytes()) {
                Version::First
            } else {
                Version::Second
            }
        }
    }
}

/// The fault of a blob at a place. A place that has more than four octets is answered as want of memory.
fn bad_row(place: usize) -> LoadFault
    ensures { (result ≡ LoadFault.BadRow place) ⊎ (result ≡ LoadFault.Memory) }
{
    match u32::try_from(place) {
        Ok(place) => LoadFault::BadRow(place),
        Err(_) => LoadFault::Memory,
    }
}

/// The row that the blob at a place gives, in a store of this version; a head of version 1 gives one of version 2.
fn row_at(alloc: Global, version: Version, place: usize, blob: &[u8]) -> Result<Row, LoadFault>
    ensures says { kept.Says version place blob.now result }
    ensures back { (row : Row) → kept.IsStorable row → kept.is_of_version version row ≡ true → blob.now ≡ row_bytes row → kept.GivesBack result row }
{
    match read_row(alloc, version, blob) {
        Ok(row) => match current(row) {
            Ok(row) => Ok(row),
            Err(other) => Err(LoadFault::BadVersion(other)),
        },
        Err(FieldFault::Bad) => Err(bad_row(place)),
        Err(FieldFault::Memory) => Err(LoadFault::Memory),
    }
}

/// The rows of the blobs of a store.
pub fn read_rows(alloc: Global, blobs: &Blobs) -> Result<Rows, LoadFault>
    ensures rows { kept.Loads blobs.now result }
    ensures back { (rows : List Row) → AllByRecursion kept.IsStorable rows → blobs.now ≡ kept.blobs_of rows → kept.LoadsBack result rows }
    ensures no_keeper { kept.is_failed result ≡ false }
{
    rows_in(alloc, blobs.items())
}

fn rows_in(alloc: Global, blobs: &[Bytes]) -> Result<Rows, LoadFault>
    ensures rows { kept.Loads blobs.now result }
    ensures back { (rows : List Row) → AllByRecursion kept.IsStorable rows → blobs.now ≡ kept.blobs_of rows → kept.LoadsBack result rows }
    ensures no_keeper { kept.is_failed result ≡ false }
{
    let version = version_of(blobs);
    let mut rows = Rows::new(alloc);
    for place in 0..blobs.len() {
        let row = row_at(alloc, version, place, blobs[place].bytes())?;
        rows.push(row)?;
    }
    Ok(rows)
}

/// The blobs of rows, one for each.
pub fn write_rows(alloc: Global, rows: &Rows) -> Result<Blobs, Memory>
    ensures { IfOk result (λ blobs. blobs ≡ kept.blobs_of rows.now) }
{
    blobs_in(alloc, rows.items())
}

fn blobs_in(alloc: Global, rows: &[Row]) -> Result<Blobs, Memory>
    ensures { IfOk result (λ blobs. blobs ≡ kept.blobs_of rows.now) }
{
    let mut blobs = Blobs::new(alloc);
    for row in rows {
        blobs.push(write_row(alloc, row)?)?;
    }
    Ok(blobs)
}

/// The rows that a keeper keeps, as version 2 has them.
pub fn load<K: Keeper>(alloc: Global, keeper: &mut K) -> Result<Rows, LoadFault>
    ensures rows { IfSome (K.told keeper.old) (λ blobs. kept.Loads blobs result) }
    ensures back { (rows : List Row) → AllByRecursion kept.IsStorable rows → K.told keeper.old ≡ Some (kept.blobs_of rows) → kept.LoadsBack result rows }
    ensures same { K.told keeper.new ≡ K.told keeper.old }
    ensures failed { kept.is_failed result ≡ true → Rose (K.faults keeper.old) (K.faults keeper.new) }
    ensures later { K.faults keeper.old ≤ K.faults keeper.new }
    ensures last { K.failed keeper.new ≡ kept.is_failed result }
{
    match keeper.read() {
        Ok(blobs) => read_rows(alloc, &blobs),
        Err(KeeperFault::Failed) => Err(LoadFault::Failed),
        Err(KeeperFault::Memory) => Err(LoadFault::Memory),
    }
}

/// Has a keeper keep these rows, in place of all that it kept. After a refusal it keeps what it kept; of a keeper that tells
/// nothing, as one over a file, a refusal leaves open which of the two it keeps.
pub fn flush<K: Keeper>(alloc: Global, keeper: &mut K, rows: &Rows) -> Result<(), KeeperFault>
    ensures kept { OnOk result (K.told keeper.new ≡ keeping.replaced (K.told keeper.old) (kept.blobs_of rows.now)) }
    ensures same { OnErr result (K.told keeper.new ≡ K.told keeper.old) }
    ensures failed { keeping.has_failed result ≡ true → Rose (K.faults keeper.old) (K.faults keeper.new) }
    ensures later { K.faults keeper.old ≤ K.faults keeper.new }
    ensures last { keeping.TellsLast (K.failed keeper.old) (K.failed keeper.new) result }
{
    let blobs = write_rows(alloc, rows)?;
    keeper.write(&blobs)
}
