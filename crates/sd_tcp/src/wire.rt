//! A stream to a server, over TCP or through a Unix socket.
ghost use Rattle.std.specs.Prelude.{ℕ, ◌<◌, IfOk};
ghost use Rattle.std.specs.Io.{ReadsAtMost, WritesAtMost};

use std::io;
use std::io::{ErrorKind, Read, Write};
use std::net::OpenStream;
use std::os::unix::net::UnixStream;
use std::time::Duration;

/// A connected stream.
#[derive(Drop)]
pub enum Wire<S: Read + Write + OpenStream + Drop> {
    Tcp(S),
    Unix(UnixStream),
}

impl<S: Read + Write + OpenStream + Drop> Wire<S> {
    /// From now on small pieces are sent at once.
    pub fn send_at_once(&self) -> io::Result<()> {
        match self {
            Wire::Tcp(stream) => stream.set_nodelay(true),
            Wire::Unix(_) => Ok(()),
        }
    }

    /// Reads some bytes, in this time at most; none at the peer's end.
    fn read_in(&mut self, wait: Duration, buf: &mut [u8]) -> io::Result<usize>
        ensures { ReadsAtMost result buf.new }
    {
        match self {
            Wire::Tcp(stream) => {
                stream.set_read_timeout(Some(wait))?;
                stream.read(buf)
            }
            Wire::Unix(stream) => {
                stream.set_read_timeout(Some(wait))?;
                stream.read(buf)
            }
        }
    }

    /// Reads at least one byte, in this time at most; the peer's end is an error.
    pub fn read_some(&mut self, wait: Duration, buf: &mut [u8]) -> io::Result<usize>
        ensures bound { ReadsAtMost result buf.new }
        ensures some { IfOk result (λ n. 0 < n) }
    {
        let count = self.read_in(wait, buf)?;
        if count == 0 {
            return Err(io::Error::from(ErrorKind::UnexpectedEof));
        }
        Ok(count)
    }

    /// Writes some bytes, in this time at most.
    pub fn write_in(&mut self, wait: Duration, bytes: &[u8]) -> io::Result<usize>
        ensures { WritesAtMost result bytes.now }
    {
        match self {
            Wire::Tcp(stream) => {
                stream.set_write_timeout(Some(wait))?;
                stream.write(bytes)
            }
            Wire::Unix(stream) => {
                stream.set_write_timeout(Some(wait))?;
                stream.write(bytes)
            }
        }
    }
}
