//! Reads and writes at a socket that never wait.
ghost use Rattle.std.specs.Prelude.{◌≤◌, IfOk};
ghost use Rattle.std.specs.Io.{ReadsAtMost, WritesAtMost};
ghost use Rattle.libc.specs.Io.{Moved};

use libc::net::{MSG_DONTWAIT, MSG_NOSIGNAL, recv, send};
use std::io;
use std::os::fd::AsRawFd;
use std::os::unix::net::UnixStream;

/// What a call of the system answered: a count of bytes, or an error.
fn counted(answer: isize, most: usize) -> io::Result<usize>
    requires { Moved most answer }
    ensures { IfOk result (λ count. count ≤ most) }
{
    if answer < 0 {
        return Err(io::Error::from_raw_os_error(os::errno()));
    }
    Ok(answer as usize)
}

/// Reads what is there. Where nothing is, the error is of the kind WouldBlock.
pub fn read_now(stream: &UnixStream, buf: &mut [u8]) -> io::Result<usize>
    ensures { ReadsAtMost result buf.new }
{
    let answer = unsafe { recv(stream.as_raw_fd(), buf, MSG_DONTWAIT) };
    counted(answer, buf.len())
}

/// Writes what there is room for. Where there is none, the error is of the kind WouldBlock.
pub fn write_now(stream: &UnixStream, bytes: &[u8]) -> io::Result<usize>
    ensures { WritesAtMost result bytes.now }
{
    let answer = unsafe { send(stream.as_raw_fd(), bytes, MSG_DONTWAIT | MSG_NOSIGNAL) };
    counted(answer, bytes.len())
}
