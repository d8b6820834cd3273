// Blobs as rows of a store, and a keeper in memory.
use crate::hex::{bytes_of, cut_word, numbers};
use crate::output::{print_blobs, print_line};
use sd_base::{Blobs, Bytes, Memory};
use sd_keeper::{KeeperFault, LoadFault, MemoryKeeper, flush, load, read_rows, write_rows};
use sd_rules::{Row, Rows};
use std::alloc::Global;

/// The blobs of words. A word without a pair of digits, as `-`, is a blob without bytes.
fn blobs_of(alloc: Global, words: &[u8]) -> Result<Blobs, Memory> {
    let mut blobs = Blobs::new(alloc);
    let mut left = words;
    for _ in 0..words.len() {
        if left.is_empty() {
            break;
        }
        let (word, rest) = cut_word(left);
        let bytes = bytes_of(alloc, word)?;
        blobs.push(Bytes::from_bytes(alloc, bytes.as_slice())?)?;
        left = rest;
    }
    Ok(blobs)
}

/// A keeper that keeps nothing, of which the calls of these numbers fail.
pub fn keeper_of(alloc: Global, calls: &[u8]) -> Result<MemoryKeeper, Memory> {
    let calls = numbers(alloc, b' ', calls)?;
    Ok(MemoryKeeper::new(Blobs::new(alloc), calls))
}

fn print_row(alloc: Global, out: &mut Vec<u8>, row: &Row) -> Result<(), Memory> {
    print_line(out, format!(in alloc; "{row:?}")?.as_bytes())
}

fn print_rows(alloc: Global, out: &mut Vec<u8>, rows: &Rows) -> Result<(), Memory> {
    for row in rows.items() {
        print_row(alloc, out, row)?;
    }
    print_blobs(out, b"blobs", &write_rows(alloc, rows)?)
}

fn print_loaded(
    alloc: Global,
    out: &mut Vec<u8>,
    loaded: Result<Rows, LoadFault>,
) -> Result<(), Memory> {
    match loaded {
        Ok(rows) => print_rows(alloc, out, &rows),
        Err(LoadFault::Memory) => Err(Memory),
        Err(fault) => print_line(out, format!(in alloc; "{fault:?}")?.as_bytes()),
    }
}

fn print_kept(out: &mut Vec<u8>, keeper: &MemoryKeeper) -> Result<(), Memory> {
    print_blobs(out, b"kept", keeper.blobs())
}

/// The rows of a store of blobs, or why it has none.
pub fn print_load(alloc: Global, out: &mut Vec<u8>, words: &[u8]) -> Result<(), Memory> {
    let blobs = blobs_of(alloc, words)?;
    print_loaded(alloc, out, read_rows(alloc, &blobs))
}

/// Whether a keeper keeps the rows of blobs, and what it keeps then.
pub fn print_flush(
    alloc: Global,
    out: &mut Vec<u8>,
    keeper: &mut MemoryKeeper,
    words: &[u8],
) -> Result<(), Memory> {
    let blobs = blobs_of(alloc, words)?;
    let Ok(rows) = read_rows(alloc, &blobs) else {
        return print_line(out, b"no rows");
    };
    match flush(alloc, keeper, &rows) {
        Ok(()) => print_line(out, b"flushed")?,
        Err(KeeperFault::Failed) => print_line(out, b"failed")?,
        Err(KeeperFault::Memory) => return Err(Memory),
    }
    print_kept(out, keeper)
}

/// The rows of what a keeper gives, or why it has none, and what it keeps then.
pub fn print_reload(
    alloc: Global,
    out: &mut Vec<u8>,
    keeper: &mut MemoryKeeper,
) -> Result<(), Memory> {
    let loaded = load(alloc, keeper);
    print_loaded(alloc, out, loaded)?;
    print_kept(out, keeper)
}
