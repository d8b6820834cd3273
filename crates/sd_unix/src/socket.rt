//! A listening socket at its place in the file system.
use std::alloc::{Alloc, Global};
use std::fs::{DirBuilder, Files, Permissions};
use std::io::ErrorKind;
use std::net::Net;
use std::os::unix::fs::{DirBuilderExt, FileTypeExt, PermissionsExt};
use std::os::unix::net::{UnixListener, UnixStream};
use std::{fs, io};

/// The mode of the folder that a socket is made in: nobody else may enter it.
const FOLDER_MODE: u32 = 0o700;

/// A socket that listens, and its path.
pub struct ListeningSocket {
    pub listener: UnixListener,
    path: String,
}

impl Drop for ListeningSocket {
    fn drop(self) {
        let ListeningSocket {
            listener: _,
            path: _,
        } = self;
    }
}

/// Whether a socket may take this place: nothing is there, or the socket of a daemon that is gone.
fn is_free<R: Files + Net>(rt: &R, path: &str) -> io::Result<bool> {
    let found = match fs::symlink_metadata(rt, path) {
        Ok(found) => found,
        Err(error) if error.kind() == ErrorKind::NotFound => return Ok(true),
        Err(error) => return Err(error),
    };
    if !found.file_type().is_socket() {
        return Ok(false);
    }
    match UnixStream::connect(rt, path) {
        Ok(_) => Ok(false),
        Err(error) => Ok(error.kind() == ErrorKind::ConnectionRefused),
    }
}

/// Listens at `made`, and moves the socket with its mode to `path`.
fn listen_at<R: Files + Net>(
    rt: &R,
    made: &str,
    path: &str,
    mode: u32,
) -> io::Result<UnixListener> {
    let listener = UnixListener::bind(rt, made)?;
    listener.set_nonblocking(true)?;
    fs::set_permissions(rt, made, Permissions::from_mode(mode))?;
    fs::rename(rt, made, path)?;
    Ok(listener)
}

/// Takes away a folder that a socket was made in, and what is left in it. What is not there is no fault.
fn clear_folder<R: Files>(rt: &R, folder: &str, made: &str) {
    let _ = fs::remove_file(rt, made);
    let _ = fs::remove_dir(rt, folder);
}

/// A path with this behind it.
pub fn longer_path<R: Alloc<A = Global>>(rt: &R, path: &str, more: &str) -> io::Result<String> {
    Ok(format!(in rt.alloc(); "{path}{more}")?)
}

impl ListeningSocket {
    /// Listens at a path. The socket has its mode from the first moment in which others can reach it: it is
    /// made in a folder that they may not enter, and moved to its place. A socket that nobody answers at is
    /// replaced; another file, or a socket that is answered, is an error.
    pub fn open<R: Files + Net + Alloc<A = Global>>(
        rt: &R,
        path: String,
        mode: u32,
    ) -> io::Result<ListeningSocket> {
        let at = path.as_str();
        if !is_free(rt, at)? {
            return Err(io::Error::from(ErrorKind::AddrInUse));
        }
        let folder = longer_path(rt, at, ".new")?;
        let made = longer_path(rt, at, ".new/socket")?;
        clear_folder(rt, folder.as_str(), made.as_str());
        let mut builder = DirBuilder::new();
        builder.mode(FOLDER_MODE);
        builder.create(rt, folder.as_str())?;
        let listener = listen_at(rt, made.as_str(), at, mode);
        clear_folder(rt, folder.as_str(), made.as_str());
        Ok(ListeningSocket {
            listener: listener?,
            path,
        })
    }

    /// Takes the socket away from its place.
    pub fn remove<R: Files>(&self, rt: &R) {
        let _ = fs::remove_file(rt, self.path.as_str());
    }
}
