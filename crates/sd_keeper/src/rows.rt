//! Rows as bytes: a kind, and what it holds.
ghost use Rattle.std.specs.Prelude.{◌≡◌, ◌∷◌, ◌++◌, true, false, IfErr, IfOk, OnOk};
ghost use Rattle.sd_rules.specs.declared.events.Row.{Row};
ghost use Rattle.sd_rules.specs.declared.events.Row.TheVariants as spelled_rows;
ghost use Rattle.sd_keeper.specs.Spelling as spelling;
ghost use Rattle.sd_keeper.specs.Spelling.{row_bytes};
ghost use Rattle.sd_keeper.specs.Fitting.{IsRow};
ghost use Rattle.sd_keeper.specs.Reading as reading;
ghost use Rattle.sd_keeper.specs.Reading.{Gives};
ghost use Rattle.sd_keeper.specs.Blobs as blobs;
ghost use Rattle.sd_keeper.specs.declared.field.FieldFault.TheVariants as faults;

use crate::field::{Field, FieldFault, push_bytes};
use sd_base::{Bytes, Memory, Shared, Text};
use sd_creds::{hash_text, read_hash};
use sd_rules::{Answered, Hash, Key, Row};
use std::alloc::Global;

/// The version of a store.
#[derive(Clone, Copy, PartialEq, Eq)]
pub enum Version {
    /// It has no rows of online logins.
    First,
    /// The one that is written.
    Second,
}

/// The kind of a row, its number and its moment.
fn spell_begin(out: &mut Vec<u8>, kind: u8, number: u64, moment: u64) -> Result<(), Memory>
    ensures { OnOk result (out.new.items ≡ out.old.items ++ kind ∷ (spelling.long number ++ spelling.long moment)) }
{
    push_bytes(out, &[kind])?;
    number.spell(out)?;
    moment.spell(out)
}

fn spell_head(out: &mut Vec<u8>, version: u32, next: u64, moment: u64) -> Result<(), Memory>
    ensures { OnOk result (out.new.items ≡ out.old.items ++ row_bytes (spelled_rows.Head version next moment)) }
{
    push_bytes(out, &[0])?;
    version.spell(out)?;
    next.spell(out)?;
    moment.spell(out)
}

fn spell_answer(
    out: &mut Vec<u8>,
    key: &Key,
    answered: &Answered,
    voided: bool,
) -> Result<(), Memory>
    ensures { OnOk result (out.new.items ≡ out.old.items ++ (spelling.key key.now ++ (spelling.answer answered.now ++ spelling.flag voided))) }
{
    key.spell(out)?;
    answered.spell(out)?;
    voided.spell(out)
}

fn spell_hash(out: &mut Vec<u8>, user: &Text, hash: &Text) -> Result<(), Memory>
    ensures { OnOk result (out.new.items ≡ out.old.items ++ (spelling.text user.now ++ spelling.text hash.now)) }
{
    user.spell(out)?;
    hash.spell(out)
}

fn spell_count(out: &mut Vec<u8>, user: &Text, count: u64) -> Result<(), Memory>
    ensures { OnOk result (out.new.items ≡ out.old.items ++ (spelling.text user.now ++ spelling.long count)) }
{
    user.spell(out)?;
    count.spell(out)
}

fn spell_hash_row(
    alloc: Global,
    out: &mut Vec<u8>,
    number: u64,
    moment: u64,
    user: &Text,
    hash: &Hash,
) -> Result<(), Memory>
    ensures { OnOk result (out.new.items ≡ out.old.items ++ row_bytes (spelled_rows.Hash number moment user.now hash.now)) }
{
    let hash = hash_text(alloc, hash)?;
    spell_begin(out, 2, number, moment)?;
    spell_hash(out, user, &hash)
}

/// Puts the bytes of a row at the end.
fn spell_row(alloc: Global, out: &mut Vec<u8>, row: &Row) -> Result<(), Memory>
    ensures { OnOk result (out.new.items ≡ out.old.items ++ row_bytes row.now) }
{
    match row {
        Row::Head(version, next, moment) => spell_head(out, *version, *next, *moment),
        Row::Answer(number, moment, key, answered, voided) => {
            spell_begin(out, 1, *number, *moment)?;
            spell_answer(out, key, answered, *voided)
        }
        Row::Hash(number, moment, user, hash) => {
            spell_hash_row(alloc, out, *number, *moment, user, hash.value())
        }
        Row::Wrong(number, moment, user, count) => {
            spell_begin(out, 3, *number, *moment)?;
            spell_count(out, user, *count)
        }
        Row::Fall(number, moment, server) => {
            spell_begin(out, 4, *number, *moment)?;
            server.spell(out)
        }
        Row::Online(number, moment, user) => {
            spell_begin(out, 5, *number, *moment)?;
            user.spell(out)
        }
    }
}

/// The bytes of a row. A text or a list with 2^32 bytes or items or more is answered as want of memory.
pub fn write_row(alloc: Global, row: &Row) -> Result<Bytes, Memory>
    ensures { IfOk result (λ blob. blob ≡ row_bytes row.now) }
{
    let mut out = Vec::new(alloc);
    spell_row(alloc, &mut out, row)?;
    Bytes::from_bytes(alloc, &out)
}

#[tactic(auto, unfolding(crate::specs::Reading::head_at))]
fn read_head(alloc: Global, bytes: &[u8]) -> Result<(Row, &[u8]), FieldFault>
    ensures { Gives (λ x. (x.0, x.1.now)) result (reading.head_at bytes.now) }
{
    let ((version, (next, moment)), rest) = Field::read(alloc, bytes)?;
    Ok((Row::Head(version, next, moment), rest))
}

#[tactic(auto, unfolding(crate::specs::Reading::answer_row_at))]
fn read_answer(alloc: Global, bytes: &[u8]) -> Result<(Row, &[u8]), FieldFault>
    ensures { Gives (λ x. (x.0, x.1.now)) result (reading.answer_row_at bytes.now) }
{
    let ((number, (moment, (key, (answered, voided)))), rest) = Field::read(alloc, bytes)?;
    Ok((Row::Answer(number, moment, key, answered, voided), rest))
}

#[tactic(auto, unfolding(crate::specs::Reading::wrong_at))]
fn read_wrong(alloc: Global, bytes: &[u8]) -> Result<(Row, &[u8]), FieldFault>
    ensures { Gives (λ x. (x.0, x.1.now)) result (reading.wrong_at bytes.now) }
{
    let ((number, (moment, (user, count))), rest) = Field::read(alloc, bytes)?;
    Ok((Row::Wrong(number, moment, user, count), rest))
}

#[tactic(auto, unfolding(crate::specs::Reading::fall_at))]
fn read_fall(alloc: Global, bytes: &[u8]) -> Result<(Row, &[u8]), FieldFault>
    ensures { Gives (λ x. (x.0, x.1.now)) result (reading.fall_at bytes.now) }
{
    let ((number, (moment, server)), rest) = Field::read(alloc, bytes)?;
    Ok((Row::Fall(number, moment, server), rest))
}

#[tactic(auto, unfolding(crate::specs::Reading::online_at))]
fn read_online(alloc: Global, bytes: &[u8]) -> Result<(Row, &[u8]), FieldFault>
    ensures { Gives (λ x. (x.0, x.1.now)) result (reading.online_at bytes.now) }
{
    let ((number, (moment, user)), rest) = Field::read(alloc, bytes)?;
    Ok((Row::Online(number, moment, user), rest))
}

/// The row of this kind, which holds no hash, and what is behind it.
fn read_plain(
    alloc: Global,
    version: Version,
    kind: u8,
    bytes: &[u8],
) -> Result<(Row, &[u8]), FieldFault>
    ensures { Gives (λ x. (x.0, x.1.now)) result (reading.plain_at version kind bytes.now) }
{
    match kind {
        0 => read_head(alloc, bytes),
        1 => read_answer(alloc, bytes),
        3 => read_wrong(alloc, bytes),
        4 => read_fall(alloc, bytes),
        5 => match version {
            Version::First => Err(FieldFault::Bad),
            Version::Second => read_online(alloc, bytes),
        },
        _ => Err(FieldFault::Bad),
    }
}

/// The row of this kind, with nothing behind it.
fn plain_row(alloc: Global, version: Version, kind: u8, bytes: &[u8]) -> Result<Row, FieldFault>
    ensures { Gives (λ row. row) result (reading.whole (reading.plain_at version kind bytes.now)) }
{
    let (row, rest) = read_plain(alloc, version, kind, bytes)?;
    if rest.is_empty() {
        Ok(row)
    } else {
        Err(FieldFault::Bad)
    }
}

/// What a row of a hash holds: its number, moment and user, and the hash's text.
#[derive(Drop)]
struct Hashed {
    number: u64,
    moment: u64,
    user: Text,
    text: Text,
}

#[tactic(auto, unfolding(crate::specs::Reading::hashed_at))]
fn read_hashed(alloc: Global, bytes: &[u8]) -> Result<(Hashed, &[u8]), FieldFault>
    ensures { Gives (λ x. ((x.0.number, (x.0.moment, (x.0.user, x.0.text))), x.1.now)) result (reading.hashed_at bytes.now) }
{
    let ((number, (moment, (user, text))), rest) = Field::read(alloc, bytes)?;
    let hashed = Hashed {
        number,
        moment,
        user,
        text,
    };
    Ok((hashed, rest))
}

fn hashed_row(alloc: Global, bytes: &[u8]) -> Result<Hashed, FieldFault>
    ensures { Gives (λ x. (x.number, (x.moment, (x.user, x.text)))) result (reading.whole (reading.hashed_at bytes.now)) }
{
    let (hashed, rest) = read_hashed(alloc, bytes)?;
    if rest.is_empty() {
        Ok(hashed)
    } else {
        Err(FieldFault::Bad)
    }
}

fn hash_row_of(alloc: Global, hashed: Hashed, hash: Hash) -> Result<Row, FieldFault>
    ensures ok { IfOk result (λ row. row ≡ spelled_rows.Hash hashed.number hashed.moment hashed.user hash) }
    ensures err { IfErr result (λ fault. fault ≡ faults.Memory) }
{
    let hash = Shared::new(alloc, hash)?;
    Ok(Row::Hash(hashed.number, hashed.moment, hashed.user, hash))
}

/// The row of a hash, with nothing behind it.
fn hash_row(alloc: Global, bytes: &[u8]) -> Result<Row, FieldFault>
    ensures found { IfOk result (λ row. (2 ∷ bytes.now ≡ row_bytes row) × (blobs.is_online row ≡ false)) }
    ensures only { (row : Row) → IsRow row → 2 ∷ bytes.now ≡ row_bytes row → blobs.Reads result row }
{
    let hashed = hashed_row(alloc, bytes)?;
    match read_hash(hashed.text.bytes()) {
        Ok(hash) => hash_row_of(alloc, hashed, hash),
        Err(_) => Err(FieldFault::Bad),
    }
}

/// The kind of a row that holds a hash.
const HASH: u8 = 2;

/// The row of this kind, with nothing behind it.
fn row_by(alloc: Global, version: Version, kind: u8, bytes: &[u8]) -> Result<Row, FieldFault>
    ensures found { IfOk result (λ row. blobs.IsBlobOf version (kind ∷ bytes.now) row) }
    ensures only { (row : Row) → IsRow row → blobs.is_of_version version row ≡ true → kind ∷ bytes.now ≡ row_bytes row → blobs.Reads result row }
{
    if kind == HASH {
        hash_row(alloc, bytes)
    } else {
        plain_row(alloc, version, kind, bytes)
    }
}

/// The row whose bytes a blob is, in a store of this version.
pub fn read_row(alloc: Global, version: Version, blob: &[u8]) -> Result<Row, FieldFault>
    ensures found { IfOk result (λ row. blobs.IsBlobOf version blob.now row) }
    ensures only { (row : Row) → IsRow row → blobs.is_of_version version row ≡ true → blob.now ≡ row_bytes row → blobs.Reads result row }
{
    match blob {
        [] => Err(FieldFault::Bad),
        [kind, bytes @ ..] => row_by(alloc, version, *kind, bytes),
    }
}

fn begins_as_hash(blob: &[u8]) -> bool
    ensures { result ≡ blobs.begins_as_hash blob.now }
{
    match blob {
        [] => false,
        [kind, ..] => *kind == HASH,
    }
}

/// Whether a blob is that of a row that holds a hash, for keepers that let no old hash be read.
pub fn holds_hash(blob: &[u8]) -> bool
    ensures { (row : Row) → blob.now ≡ row_bytes row → result ≡ blobs.is_hash_row row }
{
    begins_as_hash(blob)
}

/// A row as version 2 has it, or the version of a head that is not known.
pub fn current(row: Row) -> Result<Row, u32>
    ensures { result ≡ blobs.current_of row }
{
    match row {
        Row::Head(version, next, moment) => {
            if version == 1 || version == 2 {
                Ok(Row::Head(2, next, moment))
            } else {
                Err(version)
            }
        }
        row => Ok(row),
    }
}
