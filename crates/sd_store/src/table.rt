//! The table that holds blobs.
use sd_base::{Blobs, Bytes};
use sqlite::{Alter, Connection, Error, ErrorCode, Row, Transaction, params};
use std::alloc::Global;

/// Makes the table.
const CREATE: &str = "CREATE TABLE kept(place INTEGER PRIMARY KEY, body BLOB NOT NULL)";

/// What a file holds.
#[derive(Clone, Copy, PartialEq, Eq)]
pub enum Found {
    /// No table, so that it is a new store.
    Nothing,
    /// The table of blobs.
    Table,
    /// The tables of another program.
    Other,
}

const TOO_MANY: Error = Error::SqliteFailure(ErrorCode::TooBig);

const IN_TRANSACTION: Error = Error::SqliteFailure(ErrorCode::TransactionState);

fn is_table(row: &Row) -> Result<bool, Error> {
    let kind = row.get::<String>(0)?;
    let name = row.get::<String>(1)?;
    Ok(kind.as_str() == "table" && name.as_str() == "kept")
}

/// What a file holds, by its schema.
pub fn content_of<S: Alter>(conn: &mut Connection<S>) -> Result<Found, Error> {
    let schema = conn.query_all("SELECT type, name FROM sqlite_schema", &[])?;
    match schema.as_slice() {
        [] => Ok(Found::Nothing),
        [row] => Ok(if is_table(row)? {
            Found::Table
        } else {
            Found::Other
        }),
        _ => Ok(Found::Other),
    }
}

/// The blobs that a table keeps.
#[derive(Drop)]
pub struct Kept {
    /// In the order of their places.
    pub blobs: Blobs,
    /// Whether their places are 0, 1, 2 and so on, as they are written here.
    pub are_in_place: bool,
}

impl Kept {
    /// No blobs.
    pub fn nothing(alloc: Global) -> Kept {
        Kept {
            blobs: Blobs::new(alloc),
            are_in_place: true,
        }
    }

    /// The blobs alone.
    pub fn into_blobs(self) -> Blobs {
        let Kept {
            blobs,
            are_in_place: _,
        } = self;
        blobs
    }
}

fn number_of(place: usize) -> Result<i64, Error> {
    match i64::try_from(place) {
        Ok(number) => Ok(number),
        Err(_) => Err(TOO_MANY),
    }
}

fn body_of(alloc: Global, row: &Row) -> Result<Bytes, Error> {
    let body = row.get::<Vec<u8>>(1)?;
    match Bytes::from_bytes(alloc, body.as_slice()) {
        Ok(body) => Ok(body),
        Err(_) => Err(Error::SqliteFailure(ErrorCode::OutOfMemory)),
    }
}

fn push(blobs: &mut Blobs, blob: Bytes) -> Result<(), Error> {
    match blobs.push(blob) {
        Ok(()) => Ok(()),
        Err(_) => Err(Error::SqliteFailure(ErrorCode::OutOfMemory)),
    }
}

fn is_at(row: &Row, place: usize) -> Result<bool, Error> {
    let number = row.get::<i64>(0)?;
    Ok(number == number_of(place)?)
}

/// Puts the blob of a row behind those that are kept.
fn take(kept: &mut Kept, alloc: Global, row: &Row, place: usize) -> Result<(), Error> {
    kept.are_in_place = kept.are_in_place && is_at(row, place)?;
    push(&mut kept.blobs, body_of(alloc, row)?)
}

fn take_all(kept: &mut Kept, alloc: Global, rows: &[Row]) -> Result<(), Error> {
    for place in 0..rows.len() {
        take(kept, alloc, &rows[place], place)?;
    }
    Ok(())
}

fn kept_of(alloc: Global, rows: &[Row]) -> Result<Kept, Error> {
    let mut kept = Kept::nothing(alloc);
    take_all(&mut kept, alloc, rows)?;
    Ok(kept)
}

/// What the table keeps.
pub fn kept_in<S: Alter>(alloc: Global, conn: &mut Connection<S>) -> Result<Kept, Error> {
    let rows = conn.query_all("SELECT place, body FROM kept ORDER BY place", &[])?;
    kept_of(alloc, rows.as_slice())
}

fn put<S: Alter>(tx: &mut Transaction<'_, S>, place: usize, body: &[u8]) -> Result<(), Error> {
    let place = number_of(place)?;
    tx.execute(
        "INSERT OR REPLACE INTO kept (place, body) VALUES (?1, ?2)",
        params![place, body],
    )?;
    Ok(())
}

/// Writes a blob that is not at its place yet.
fn put_if_new<S: Alter>(
    tx: &mut Transaction<'_, S>,
    old: &[Bytes],
    place: usize,
    blob: &Bytes,
) -> Result<(), Error> {
    if old.get(place) == Some(blob) {
        return Ok(());
    }
    put(tx, place, blob.bytes())
}

fn put_changed<S: Alter>(
    tx: &mut Transaction<'_, S>,
    old: &[Bytes],
    blobs: &[Bytes],
) -> Result<(), Error> {
    for place in 0..blobs.len() {
        put_if_new(tx, old, place, &blobs[place])?;
    }
    Ok(())
}

/// Takes out all rows from this place on.
fn cut<S: Alter>(tx: &mut Transaction<'_, S>, place: usize) -> Result<(), Error> {
    let place = number_of(place)?;
    tx.execute("DELETE FROM kept WHERE place >= ?1", params![place])?;
    Ok(())
}

/// Turns a table that keeps some blobs at their places into one of others: what is the same is not written.
fn change<S: Alter>(
    tx: &mut Transaction<'_, S>,
    old: &[Bytes],
    blobs: &[Bytes],
) -> Result<(), Error> {
    put_changed(tx, old, blobs)?;
    if blobs.len() < old.len() {
        cut(tx, blobs.len())?;
    }
    Ok(())
}

/// Makes room by a statement, where one is given, and then turns the table, which keeps the old blobs at their places, into one of
/// the new.
fn fill<S: Alter>(
    tx: &mut Transaction<'_, S>,
    first: Option<&str>,
    old: &[Bytes],
    blobs: &[Bytes],
) -> Result<(), Error> {
    if let Some(first) = first {
        tx.execute(first, &[])?;
    }
    change(tx, old, blobs)
}

/// Likewise, in a transaction of its own. Without a commit nothing is changed; one that failed may have been made.
fn update<S: Alter>(
    conn: &mut Connection<S>,
    first: Option<&str>,
    old: &[Bytes],
    blobs: &[Bytes],
) -> Result<(), Error> {
    if !conn.is_autocommit() {
        return Err(IN_TRANSACTION);
    }
    let mut tx = conn.transaction();
    fill(&mut tx, first, old, blobs)?;
    tx.commit()
}

/// Makes the table, with these blobs.
fn create<S: Alter>(conn: &mut Connection<S>, blobs: &[Bytes]) -> Result<(), Error> {
    update(conn, Some(CREATE), &[], blobs)
}

/// The table holds these blobs now and no others, by one transaction; it is made where there is none. What it kept already is
/// not written again, unless another program chose the places.
pub fn replace<S: Alter>(
    conn: &mut Connection<S>,
    found: Found,
    kept: &Kept,
    blobs: &[Bytes],
) -> Result<(), Error> {
    match found {
        Found::Nothing => create(conn, blobs),
        Found::Table if kept.are_in_place => update(conn, None, kept.blobs.items(), blobs),
        Found::Table => update(conn, Some("DELETE FROM kept"), &[], blobs),
        Found::Other => Err(Error::SqliteFailure(ErrorCode::NotADatabase)),
    }
}
