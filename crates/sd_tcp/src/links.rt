//! The folder of sockets through which servers are reached, where there is one.
use sd_base::Memory;
use sd_conf::Server;
use std::alloc::Global;
use std::io;
use std::io::ErrorKind;

/// A folder of Unix sockets, each named HOST:PORT like the server that is reached through it.
#[derive(Drop)]
pub struct Links {
    alloc: Global,
    folder: String,
}

impl Links {
    /// The sockets of this folder.
    pub fn new(alloc: Global, folder: String) -> Links {
        Links { alloc, folder }
    }

    /// The same folder once more.
    pub fn copy(&self) -> Result<Links, Memory> {
        Ok(Links {
            alloc: self.alloc,
            folder: String::from_str(self.alloc, self.folder.as_str())?,
        })
    }

    /// The path of a server's socket.
    pub(crate) fn path_of(&self, server: &Server) -> io::Result<String> {
        let folder = self.folder.as_str();
        let port = server.port;
        let Ok(host) = str::from_utf8(server.host.bytes()) else {
            return Err(io::Error::from(ErrorKind::InvalidInput));
        };
        Ok(format!(in self.alloc; "{folder}/{host}:{port}")?)
    }
}
