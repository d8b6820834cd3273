//! The keeper. It holds no connection between its calls, so that the store can be read meanwhile.
ghost use Rattle.std.specs.Prelude.{◌≡◌, false, IfOk, None};
ghost use Rattle.sd_keeper.specs.Keeping as keeping;

use crate::copy::Copy;
use crate::table::{self, Found, Kept};
use crate::{copy, file};
use sd_base::{Blobs, Bytes};
use sd_keeper::{Keeper, KeeperFault, holds_hash};
use sqlite::{Alter, Connection, Error, ErrorCode, File, FileStore};
use sqlite_disk::Disk;
use std::alloc::Global;
use std::io;
use std::io::ErrorKind;

/// The store of this file, while it is open.
type Open = Connection<FileStore<File>>;

/// Why a call is refused.
#[derive(Drop)]
enum Fault {
    /// SQLite refused.
    Sql(Error),
    /// The file system refused.
    Io(io::Error),
    /// The file is no store.
    NoStore,
    Memory,
}

/// What the file holds.
#[derive(Drop)]
struct Content {
    found: Found,
    kept: Kept,
}

impl Content {
    /// No table.
    fn nothing(alloc: Global) -> Content {
        Content {
            found: Found::Nothing,
            kept: Kept::nothing(alloc),
        }
    }
}

/// Blobs in a SQLite file, as the table `kept(place INTEGER PRIMARY KEY, body BLOB NOT NULL)`. It tells no content. Each
/// refusal but want of memory counts as a fault; after one the file holds the blobs from before the call or, where a commit
/// failed, perhaps those of the call: the next call opens it anew.
#[derive(Drop)]
pub struct SqliteKeeper<'a> {
    rt: &'a HostRuntime,
    path: String,
    faults: u64,
    failed: bool,
}

fn keeper_fault(fault: &Fault) -> KeeperFault {
    match fault {
        Fault::Sql(Error::SqliteFailure(ErrorCode::OutOfMemory)) | Fault::Memory => {
            KeeperFault::Memory
        }
        Fault::Io(error) if error.kind() == ErrorKind::OutOfMemory => KeeperFault::Memory,
        _ => KeeperFault::Failed,
    }
}

fn sql<T: Drop>(done: Result<T, Error>) -> Result<T, Fault> {
    done.map_err(Fault::Sql)
}

/// What a database holds, where it is a store.
fn found_in<S: Alter>(conn: &mut Connection<S>) -> Result<Found, Fault> {
    match sql(table::content_of(conn))? {
        Found::Other => Err(Fault::NoStore),
        found => Ok(found),
    }
}

fn kept_of<S: Alter>(alloc: Global, conn: &mut Connection<S>, found: Found) -> Result<Kept, Fault> {
    if found == Found::Nothing {
        return Ok(Kept::nothing(alloc));
    }
    sql(table::kept_in(alloc, conn))
}

/// Reads a database, where it is a store.
fn content_of<S: Alter>(alloc: Global, conn: &mut Connection<S>) -> Result<Content, Fault> {
    let found = found_in(conn)?;
    let kept = kept_of(alloc, conn, found)?;
    Ok(Content { found, kept })
}

// What is called with a store of one kind of file is written over any kind of file, so that no caller proves again what such a
// store is.

/// Likewise, of one in files.
fn content_in<D: Disk + Drop>(
    alloc: Global,
    conn: &mut Connection<FileStore<D>>,
) -> Result<Content, Fault> {
    content_of(alloc, conn)
}

/// Writes these blobs over what a store in files holds, in one transaction.
fn replace<D: Disk + Drop>(
    conn: &mut Connection<FileStore<D>>,
    content: &Content,
    blobs: &[Bytes],
) -> Result<(), Fault> {
    sql(table::replace(conn, content.found, &content.kept, blobs))
}

/// Refuses a file that is no store's.
fn prepare(rt: &HostRuntime, path: &str) -> Result<(), Fault> {
    match file::prepare(rt, path) {
        Ok(true) => Ok(()),
        Ok(false) => Err(Fault::NoStore),
        Err(error) => Err(Fault::Io(error)),
    }
}

fn connect(rt: &HostRuntime, path: &str) -> Result<Open, Fault> {
    match Connection::open(rt, path) {
        Ok(conn) => Ok(conn),
        Err(error) => Err(Fault::Sql(error)),
    }
}

/// Opens the file, and reads it.
fn open(rt: &HostRuntime, path: &str) -> Result<(Open, Content), Fault> {
    prepare(rt, path)?;
    let mut conn = connect(rt, path)?;
    let content = content_in(rt.alloc(), &mut conn)?;
    Ok((conn, content))
}

fn read_file(rt: &HostRuntime, path: &str) -> Result<Blobs, Fault> {
    let (conn, content) = open(rt, path)?;
    sql(conn.close())?;
    Ok(content.kept.into_blobs())
}

fn connect_copy(rt: &HostRuntime, path: &str) -> Result<Copy, Fault> {
    match copy::open(rt, path) {
        Ok(conn) => Ok(conn),
        Err(error) => Err(Fault::Sql(error)),
    }
}

/// What the copy of a store keeps.
fn read_copy(rt: &HostRuntime, path: &str) -> Result<Blobs, Fault> {
    let mut conn = connect_copy(rt, path)?;
    let content = content_in(rt.alloc(), &mut conn)?;
    Ok(content.kept.into_blobs())
}

/// Whether a store that was refused so stands where nothing can be written, since the file system is full or read-only.
fn is_without_room(rt: &HostRuntime, path: &str, fault: &Fault) -> bool {
    match fault {
        Fault::Sql(Error::SqliteFailure(ErrorCode::DiskFull)) => true,
        Fault::Sql(Error::SqliteFailure(ErrorCode::CannotOpen)) => {
            matches!(file::is_without_room(rt, path), Ok(true))
        }
        _ => false,
    }
}

/// What a store keeps. SQLite opens a file for writing and begins a log beside it, so where that has no room a copy in memory is
/// read.
fn read(rt: &HostRuntime, path: &str) -> Result<Blobs, Fault> {
    match read_file(rt, path) {
        Err(fault) if is_without_room(rt, path, &fault) => read_copy(rt, path),
        done => done,
    }
}

/// The blobs behind the first that is this one.
fn behind<'b>(blob: &Bytes, blobs: &'b [Bytes]) -> Option<&'b [Bytes]> {
    let place = blobs.iter().position(|other| other == blob)?;
    blobs.get(place + 1..)
}

/// Whether a hash that was kept is kept no more. Blobs have the order of their rows' numbers, so that one walk tells; if they
/// had another, a hash might count as lost, and the file would be written anew without need.
fn loses_hash(old: &[Bytes], new: &[Bytes]) -> bool {
    let mut left = new;
    for blob in old {
        if holds_hash(blob.bytes()) {
            let Some(rest) = behind(blob, left) else {
                return true;
            };
            left = rest;
        }
    }
    false
}

/// Writes these blobs over what a store holds, in one transaction, and closes it.
fn replace_and_close(mut conn: Open, content: &Content, blobs: &[Bytes]) -> Result<(), Fault> {
    replace(&mut conn, content, blobs)?;
    sql(conn.close())
}

/// Makes a store of these blobs.
fn make(rt: &HostRuntime, path: &str, blobs: &[Bytes]) -> Result<(), Fault> {
    file::clear(rt, path).map_err(Fault::Io)?;
    file::create(rt, path).map_err(Fault::Io)?;
    let conn = connect(rt, path)?;
    replace_and_close(conn, &Content::nothing(rt.alloc()), blobs)
}

/// Makes a store of these blobs and puts it in the place of the one that stands there, so that nothing of that is left.
fn write_anew(rt: &HostRuntime, path: &str, blobs: &[Bytes]) -> Result<(), Fault> {
    let made = match format!(in rt.alloc(); "{path}.new") {
        Ok(made) => made,
        Err(_) => return Err(Fault::Memory),
    };
    make(rt, made.as_str(), blobs)?;
    file::replace(rt, made.as_str(), path).map_err(Fault::Io)
}

/// Closes a store, and writes it anew.
fn close_and_write(rt: &HostRuntime, path: &str, conn: Open, blobs: &[Bytes]) -> Result<(), Fault> {
    sql(conn.close())?;
    write_anew(rt, path, blobs)
}

/// Writes what changed, and closes the store; where nothing did, nothing is written.
fn change_and_close(conn: Open, content: &Content, blobs: &Blobs) -> Result<(), Fault> {
    if content.found != Found::Nothing && content.kept.blobs == *blobs {
        return sql(conn.close());
    }
    replace_and_close(conn, content, blobs.items())
}

/// Keeps these blobs in place of all others. Where a hash is kept no more the file is written anew, since SQLite leaves old
/// bodies in pages that it uses no more.
fn write(rt: &HostRuntime, path: &str, blobs: &Blobs) -> Result<(), Fault> {
    let (conn, content) = open(rt, path)?;
    if loses_hash(content.kept.blobs.items(), blobs.items()) {
        close_and_write(rt, path, conn, blobs.items())
    } else {
        change_and_close(conn, &content, blobs)
    }
}

impl<'a> SqliteKeeper<'a> {
    /// A keeper over the file at this path, which is made where nothing stands there.
    pub fn open(rt: &'a HostRuntime, path: &str) -> Result<SqliteKeeper<'a>, KeeperFault>
        ensures unfailed { IfOk result (λ keeper. ⟦<SqliteKeeper<'a> as Keeper>⟧.failed keeper ≡ false) }
        ensures uncounted { IfOk result (λ keeper. ⟦<SqliteKeeper<'a> as Keeper>⟧.faults keeper ≡ 0) }
    {
        let Ok(at) = String::from_str(rt.alloc(), path) else {
            return Err(KeeperFault::Memory);
        };
        match read(rt, path) {
            Ok(_) => Ok(SqliteKeeper {
                rt,
                path: at,
                faults: 0,
                failed: false,
            }),
            Err(fault) => Err(keeper_fault(&fault)),
        }
    }

    /// How many calls have failed.
    pub fn faults(&self) -> u64
        ensures { result ≡ ⟦<SqliteKeeper<'a> as Keeper>⟧.faults self.now }
    {
        self.faults
    }

    /// Whether the last call failed.
    pub fn has_failed(&self) -> bool
        ensures { result ≡ ⟦<SqliteKeeper<'a> as Keeper>⟧.failed self.now }
    {
        self.failed
    }
}

fn has_failed<T>(answer: &Result<T, KeeperFault>) -> bool
    ensures { result ≡ keeping.has_failed answer.now }
{
    matches!(answer, Err(KeeperFault::Failed))
}

impl SqliteKeeper<'_> {
    /// What a call answers, and what is kept of it.
    fn answer<T: Drop>(&mut self, done: Result<T, Fault>) -> Result<T, KeeperFault>
        ensures last { self.new.failed ≡ keeping.has_failed result }
        ensures cause { keeping.HasCause self.old.faults self.new.faults result }
    {
        let answer = done.map_err(|fault| keeper_fault(&fault));
        self.failed = has_failed(&answer);
        if self.failed {
            self.faults = self.faults.saturating_add(1);
        }
        answer
    }
}

impl Keeper for SqliteKeeper<'_> {
    ghost told = { λ _. None };

    ghost failed = { λ k. k.failed };

    ghost faults = { λ k. k.faults };

    fn read(&mut self) -> Result<Blobs, KeeperFault> {
        let done = read(self.rt, self.path.as_str());
        self.answer(done)
    }

    fn write(&mut self, blobs: &Blobs) -> Result<(), KeeperFault> {
        let done = write(self.rt, self.path.as_str(), blobs);
        self.answer(done)
    }
}
