// What stands outside of the program, in the system.
ghost use Rattle.std.specs.Prelude.{◌≡◌, [], None};
ghost use Rattle.sd_tools.specs.Replies.{told};

use sd_link::{Link, LinkFailed};
use sd_serve::Outside;
use std::io;
use std::io::{Read, Write};
use std::net::Net;
use std::os::unix::net::UnixStream;
use std::time::Duration;

/// How long a daemon may take nothing of a request, in seconds.
const SEND_SECONDS: u64 = 10;

/// How long a reply may take, in seconds: the daemon may ask several servers for it, each with bounds of its own.
const REPLY_SECONDS: u64 = 600;

/// A link to the daemon over its socket, with bounds on every wait. It tells no content.
#[derive(Drop)]
pub struct SocketLink {
    stream: UnixStream,
    faults: u64,
}

fn connect(net: &impl Net, path: &str) -> io::Result<UnixStream> {
    let stream = UnixStream::connect(net, path)?;
    stream.set_write_timeout(Some(Duration::from_secs(SEND_SECONDS)))?;
    stream.set_read_timeout(Some(Duration::from_secs(REPLY_SECONDS)))?;
    Ok(stream)
}

impl Link for SocketLink {
    ghost coming = { λ _. None };

    ghost sent = { λ _. None };

    ghost received = { λ _. None };

    ghost answer = { λ _ _. [] };

    ghost went = { λ _ _ _. Unit {0} };

    ghost faults = { λ l. l.faults };

    ghost refuses = { λ _. Unit {0} };

    ghost ends = { λ _. Unit {0} };

    fn send(&mut self, bytes: &[u8]) -> Result<(), LinkFailed> {
        match self.stream.write_all(bytes) {
            Ok(()) => Ok(()),
            Err(_) => {
                self.faults = self.faults.saturating_add(1);
                Err(LinkFailed)
            }
        }
    }

    fn receive(&mut self, buf: &mut [u8]) -> Result<usize, LinkFailed> {
        match self.stream.read(buf) {
            Ok(count) if count > 0 => Ok(count),
            _ => {
                self.faults = self.faults.saturating_add(1);
                Err(LinkFailed)
            }
        }
    }
}

/// The system outside of the program. It counts faults, and tells no content.
#[derive(Drop)]
pub struct SystemOutside<'r, R: Net> {
    rt: &'r R,
    link_faults: u64,
}

impl<'r, R: Net> SystemOutside<'r, R> {
    pub fn new(rt: &'r R) -> SystemOutside<'r, R> {
        SystemOutside { rt, link_faults: 0 }
    }
}

impl<'r, R: Net> Outside for SystemOutside<'r, R> {
    type Wire = SocketLink;

    ghost told = { λ _. told None None };

    ghost dialled = { λ _. None };

    ghost link_faults = { λ o. o.link_faults };

    fn connect(&mut self, path: &str) -> Result<SocketLink, LinkFailed> {
        match connect(self.rt, path) {
            Ok(stream) => Ok(SocketLink { stream, faults: 0 }),
            Err(_) => {
                self.link_faults = self.link_faults.saturating_add(1);
                Err(LinkFailed)
            }
        }
    }

    fn done_link(&mut self, link: SocketLink) {
        if link.faults > 0 {
            self.link_faults = self.link_faults.saturating_add(1);
        }
    }
}
