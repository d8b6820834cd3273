//! One connection to a server.
ghost use Rattle.std.specs.Prelude.{◌≡◌, ℕ, ◌<◌, [], length, IfOk, None, refl};
ghost use Rattle.std.specs.Io.{ReadsAtMost};
ghost use Rattle.sd_tcp.specs.Kinds as kinds;

use crate::kind::is_bind;
use crate::wire::Wire;
use sd_dial::DirectoryLink;
use sd_link::{Link, LinkFailed};
use std::io;
use std::io::ErrorKind;
use std::net::Net;
use std::time::{Clock, Duration, Instant};

/// How long a single send or receive may wait, in seconds.
const CALL_SECONDS: u64 = 6;
/// How long all receives of a lookup may take together, in seconds: the members of a group are read by a search each.
const LOOKUP_SECONDS: u64 = 600;
/// How long all receives of a bind may take together, in seconds.
const BIND_SECONDS: u64 = 60;

/// A connection to a server. A send or receive that takes longer than six seconds fails, and so does a receive once the
/// link is ten minutes old, or a minute where a bind was sent. It tells no content.
#[derive(Drop)]
pub struct TcpLink<'r, R: Net + Clock> {
    clock: &'r R,
    stream: Wire<R::Stream>,
    opened: Instant,
    /// How old it may become, in seconds.
    lasts: u64,
    faults: u64,
}

/// How old a link may become where these bytes are sent over it, in seconds.
fn seconds_for(bytes: &[u8]) -> u64
    ensures { result ≡ kinds.seconds_for bytes.now }
{
    if is_bind(bytes) {
        BIND_SECONDS
    } else {
        LOOKUP_SECONDS
    }
}

/// What is left of so many seconds since a moment; no time left is an error.
fn time_left(clock: &impl Clock, since: &Instant, seconds: u64) -> io::Result<Duration> {
    let left = Duration::from_secs(seconds).saturating_sub(since.elapsed(clock)?);
    if left.is_zero() {
        return Err(io::Error::from(ErrorKind::TimedOut));
    }
    Ok(left)
}

impl<'r, R: Net + Clock> TcpLink<'r, R> {
    /// A link over a stream that was connected just now. Small pieces are sent at once.
    pub(crate) fn over(clock: &'r R, stream: Wire<R::Stream>) -> io::Result<TcpLink<'r, R>>
        ensures { IfOk result (λ link. ⟦<TcpLink<'r, R> as Link>⟧.faults link ≡ 0) }
    {
        stream.send_at_once()?;
        let opened = Instant::now(clock)?;
        Ok(TcpLink {
            clock,
            stream,
            opened,
            lasts: LOOKUP_SECONDS,
            faults: 0,
        })
    }

    fn write_whole(&mut self, bytes: &[u8]) -> io::Result<()>
        ensures { ⟦<TcpLink<'r, R> as Link>⟧.faults self.new ≡ ⟦<TcpLink<'r, R> as Link>⟧.faults self.old }
    {
        let begun = Instant::now(self.clock)?;
        let mut at = 0;
        while at < bytes.len() {
            let wait = time_left(self.clock, &begun, CALL_SECONDS)?;
            let count = self.stream.write_in(wait, &bytes[at..])?;
            if count == 0 {
                return Err(io::Error::from(ErrorKind::WriteZero));
            }
            at += count;
        }
        Ok(())
    }

    fn read_in_time(&mut self, buf: &mut [u8]) -> io::Result<usize>
        ensures bound { ReadsAtMost result buf.new }
        ensures some { IfOk result (λ n. 0 < n) }
        ensures faults { ⟦<TcpLink<'r, R> as Link>⟧.faults self.new ≡ ⟦<TcpLink<'r, R> as Link>⟧.faults self.old }
    {
        let left = time_left(self.clock, &self.opened, self.lasts)?;
        let wait = left.min(Duration::from_secs(CALL_SECONDS));
        self.stream.read_some(wait, buf)
    }

    /// How many calls have failed.
    pub fn faults(&self) -> u64
        ensures { result ≡ ⟦<TcpLink<'r, R> as Link>⟧.faults self.now }
    {
        self.faults
    }
}

impl<'r, R: Net + Clock> Link for TcpLink<'r, R> {
    ghost coming = { λ _. None };

    ghost sent = { λ _. None };

    ghost received = { λ _. None };

    ghost answer = { λ _ _. [] };

    ghost went = { λ _ _ _. Unit {0} };

    ghost faults = { λ l. l.faults };

    ghost refuses = { λ _. Unit {0} };

    ghost ends = { λ _. Unit {0} };

    fn send(&mut self, bytes: &[u8]) -> Result<(), LinkFailed> {
        self.lasts = self.lasts.min(seconds_for(bytes));
        match self.write_whole(bytes) {
            Ok(()) => Ok(()),
            Err(_) => {
                self.faults = self.faults.saturating_add(1);
                Err(LinkFailed)
            }
        }
    }

    fn receive(&mut self, buf: &mut [u8]) -> Result<usize, LinkFailed> {
        match self.read_in_time(buf) {
            Ok(count) => Ok(count),
            Err(_) => {
                self.faults = self.faults.saturating_add(1);
                Err(LinkFailed)
            }
        }
    }
}

impl<'r, R: Net + Clock> DirectoryLink for TcpLink<'r, R> {
    ghost asked = { λ _. None };

    ghost behind = { λ _. None };

    ghost asks = { λ before after m sound went. refl };

    ghost passes = { λ before after piece none went. refl };

    ghost waits = { λ before after went. refl };

    ghost keeps = { λ before after piece went. refl };

    ghost tells_pieces = { λ link some. some };

    ghost tells_coming = { λ link told e. Prim.cc };

    ghost answers = { λ link told piece e. Prim.cc };
}
