//! The file of a store: it is its owner's alone from its first moment, and no link is followed to it.
use std::alloc::{Alloc, Global};
use std::fs::{Files, OpenOptions};
use std::io::ErrorKind;
use std::os::unix::fs::{MetadataExt, OpenOptionsExt};
use std::{fs, io};

/// Only the owner may read and write the file.
const OWNERS_MODE: u32 = 0o600;

/// Makes an empty file, where nothing stands.
pub fn create<R: Files>(rt: &R, path: &str) -> io::Result<()> {
    let mut options = OpenOptions::new();
    options.write(true);
    options.create_new(true);
    options.mode(OWNERS_MODE);
    let _file = options.open(rt, path)?;
    Ok(())
}

/// Whether a store may stand here: a file, and no link to one; where nothing stands an empty file is made, which is a new
/// store. A file of a single byte is none, although SQLite takes it for an empty database.
pub fn prepare<R: Files>(rt: &R, path: &str) -> io::Result<bool> {
    match fs::symlink_metadata(rt, path) {
        Ok(found) => Ok(found.is_file() && found.len() != 1),
        Err(error) if error.kind() == ErrorKind::NotFound => {
            create(rt, path)?;
            Ok(true)
        }
        Err(error) => Err(error),
    }
}

/// Takes a file away. One that is not there is no fault.
fn remove<R: Files>(rt: &R, path: &str) -> io::Result<()> {
    match fs::remove_file(rt, path) {
        Err(error) if error.kind() != ErrorKind::NotFound => Err(error),
        _ => Ok(()),
    }
}

/// The name of SQLite's log of a file.
pub fn log_of<R: Alloc<A = Global>>(rt: &R, path: &str) -> io::Result<String> {
    Ok(format!(in rt.alloc(); "{path}-wal")?)
}

/// Whether a journal of SQLite's stands beside a file.
pub fn has_journal<R: Files + Alloc<A = Global>>(rt: &R, path: &str) -> io::Result<bool> {
    let journal = format!(in rt.alloc(); "{path}-journal")?;
    match fs::symlink_metadata(rt, journal.as_str()) {
        Ok(_) => Ok(true),
        Err(error) if error.kind() == ErrorKind::NotFound => Ok(false),
        Err(error) => Err(error),
    }
}

/// The bytes of a file; none where nothing stands. A link, and a file with a second name, is refused.
pub fn bytes_at<R: Files + Alloc<A = Global>>(rt: &R, path: &str) -> io::Result<Vec<u8>> {
    match fs::symlink_metadata(rt, path) {
        Ok(found) if found.is_file() && found.nlink() == 1 => fs::read(rt, path),
        Ok(_) => Err(io::Error::from(ErrorKind::Unsupported)),
        Err(error) if error.kind() == ErrorKind::NotFound => Ok(Vec::new(rt.alloc())),
        Err(error) => Err(error),
    }
}

/// Whether a refusal says that a file system takes no more.
fn is_no_room(error: &io::Error) -> bool {
    matches!(
        error.kind(),
        ErrorKind::StorageFull | ErrorKind::QuotaExceeded | ErrorKind::ReadOnlyFilesystem
    )
}

fn refuses_writing<R: Files>(rt: &R, path: &str) -> bool {
    let mut options = OpenOptions::new();
    options.write(true);
    options.create(true);
    options.mode(OWNERS_MODE);
    match options.open(rt, path) {
        Ok(_file) => false,
        Err(error) => is_no_room(&error),
    }
}

/// Whether the file system lets a file, or its log, not be opened for writing, since it is full or read-only.
pub fn is_without_room<R: Files + Alloc<A = Global>>(rt: &R, path: &str) -> io::Result<bool> {
    let log = log_of(rt, path)?;
    Ok(refuses_writing(rt, path) || refuses_writing(rt, log.as_str()))
}

/// Takes away a store and its log.
pub fn clear<R: Files + Alloc<A = Global>>(rt: &R, path: &str) -> io::Result<()> {
    let log = log_of(rt, path)?;
    remove(rt, log.as_str())?;
    remove(rt, path)
}

/// Puts a store that was closed in the place of another. The log of the other is taken away first: it was closed too, so all
/// that it holds stands in its file.
pub fn replace<R: Files + Alloc<A = Global>>(rt: &R, made: &str, path: &str) -> io::Result<()> {
    let old = log_of(rt, path)?;
    let new = log_of(rt, made)?;
    remove(rt, new.as_str())?;
    remove(rt, old.as_str())?;
    fs::rename(rt, made, path)
}
