// Rows of a round: the moment of each is the round's number.
use sd_base::{Memory, Shared, Text};
use sd_rules::{Hash, Row, Rows};
use std::alloc::Global;

/// The version of the rows.
const VERSION: u32 = 2;

fn head(count: u32, round: u32) -> Row {
    Row::Head(VERSION, u64::from(count) + 1, u64::from(round))
}

/// A head and so many rows.
pub fn rows_of(alloc: Global, round: u32, count: u32) -> Result<Rows, Memory> {
    let mut rows = Rows::new(alloc);
    rows.push(head(count, round))?;
    for number in 0..count {
        let user = Text::from_bytes(alloc, b"a user whose name is neither long nor short")?;
        rows.push(Row::Online(u64::from(number) + 1, u64::from(round), user))?;
    }
    Ok(rows)
}

/// A head and a stored hash.
pub fn hash_of(alloc: Global, round: u32) -> Result<Rows, Memory> {
    let byte = (round % 256) as u8;
    let hash = Hash {
        salt: [byte; 16],
        digest: [byte; 64],
    };
    let user = Text::from_bytes(alloc, b"alice")?;
    let mut rows = Rows::new(alloc);
    rows.push(head(1, round))?;
    let hash = Shared::new(alloc, hash)?;
    rows.push(Row::Hash(1, u64::from(round), user, hash))?;
    Ok(rows)
}

/// The round of a row of a kind that is flushed here.
fn round_of(row: &Row) -> Option<u64> {
    match row {
        Row::Head(_, _, moment) | Row::Hash(_, moment, _, _) | Row::Online(_, moment, _) => {
            Some(*moment)
        }
        _ => None,
    }
}

fn are_of(rows: &[Row], round: u64) -> bool {
    rows.iter().all(|row| round_of(row) == Some(round))
}

/// The round that all rows are of; without rows it is 0.
pub fn one_round(rows: &[Row]) -> Option<u64> {
    let [first, ..] = rows else {
        return Some(0);
    };
    let round = round_of(first)?;
    if are_of(rows, round) {
        Some(round)
    } else {
        None
    }
}
