//! A store in memory: what a file holds that cannot be opened, since its file system takes no more. Nothing is written.
ghost use Rattle.std.specs.Prelude.{IfOk, IsTrue};
ghost use Rattle.sqlite_disk.specs.Memory.{memory_is_usable};

use crate::file;
use sqlite::{Connection, Error, ErrorCode, FileStore, Files, Options};
use sqlite_disk::{Disk, Memory};
use std::alloc::Global;
use std::io;
use std::io::ErrorKind;

/// The store of a file's copy.
pub type Copy = Connection<FileStore<Memory>>;

const NO_MEMORY: Error = Error::SqliteFailure(ErrorCode::OutOfMemory);

const CANNOT_OPEN: Error = Error::SqliteFailure(ErrorCode::CannotOpen);

fn refusal(error: &io::Error) -> Error {
    if error.kind() == ErrorKind::OutOfMemory {
        NO_MEMORY
    } else {
        CANNOT_OPEN
    }
}

/// A file in memory of these bytes.
fn memory_of(alloc: Global, bytes: &[u8]) -> Result<Memory, Error>
    ensures { IfOk result (λ memory. IsTrue (memory_is_usable memory)) }
{
    let mut memory = Memory::new(alloc);
    match memory.write_at(0, bytes) {
        Ok(()) => Ok(memory),
        Err(_) => Err(NO_MEMORY),
    }
}

fn memory_at(rt: &HostRuntime, path: &str) -> Result<Memory, Error>
    ensures { IfOk result (λ memory. IsTrue (memory_is_usable memory)) }
{
    match file::bytes_at(rt, path) {
        Ok(bytes) => memory_of(rt.alloc(), bytes.as_slice()),
        Err(error) => Err(refusal(&error)),
    }
}

/// The copies of a store and of SQLite's log of it.
fn copies(rt: &HostRuntime, path: &str) -> Result<Files<Memory>, Error>
    ensures { IfOk result (λ files. IsTrue (memory_is_usable files.log) × IsTrue (memory_is_usable files.db)) }
{
    let Ok(log) = file::log_of(rt, path) else {
        return Err(NO_MEMORY);
    };
    let log = memory_at(rt, log.as_str())?;
    let db = memory_at(rt, path)?;
    Ok(Files { log, db })
}

/// Opens the copy of a store. One beside which a journal of SQLite's stands has to be opened by SQLite first.
pub fn open(rt: &HostRuntime, path: &str) -> Result<Copy, Error> {
    match file::has_journal(rt, path) {
        Ok(false) => {}
        Ok(true) => return Err(CANNOT_OPEN),
        Err(error) => return Err(refusal(&error)),
    }
    let files = copies(rt, path)?;
    match Connection::open_files(rt.alloc(), files, Options::new(0)) {
        Ok(conn) => Ok(conn),
        Err((error, _left)) => Err(error),
    }
}
