// What each session is made with.
ghost use Rattle.std.specs.Prelude.{◌≡◌, ◌≤◌, ◌*◌, ◌↔◌, IsTrue, None};

use sd_base::{Copied, Memory};
use sd_clock::{Clock as Moments, OpenGate};
use sd_conf::{Config, Server, ServerList};
use sd_dial::Dialer;
use sd_link::LinkFailed;
use sd_server::Equipment;
use sd_tcp::{Links, TcpDialer, TcpLink};
use std::io::Eprint;
use std::net::Net;
use std::sync::atomic::{AtomicU64, Ordering};
use std::time::Clock;

/// The system's clock, in whole seconds since 1970-01-01 00:00:00 UTC, so that moments outlive a reboot. It tells no readings.
#[derive(Drop)]
pub struct SystemClock<'r, R> {
    rt: &'r R,
}

impl<'r, R: Clock> Moments for SystemClock<'r, R> {
    ghost readings = { λ _. None };

    fn now(&mut self) -> u64 {
        match self.rt.since_1970() {
            Ok(now) => now.as_secs(),
            Err(_) => 0,
        }
    }
}

/// Which servers answered when they were last dialled. All sessions share it.
#[derive(Drop)]
pub struct Health {
    /// A bit for each server, of which a configuration has 64 at most: it is set where the server did not answer.
    fallen: AtomicU64,
}

impl Health {
    /// Every server counts as one that answers.
    pub fn new() -> Health {
        Health {
            fallen: AtomicU64::new(0),
        }
    }

    /// Notes whether a server answered; tells whether that is news.
    fn note(&self, server: u32, answered: bool) -> bool {
        let bit = 1u64 << (server % 64);
        let before = if answered {
            self.fallen.fetch_and(!bit, Ordering::SeqCst)
        } else {
            self.fallen.fetch_or(bit, Ordering::SeqCst)
        };
        (before & bit == 0) != answered
    }
}

/// A dialer that logs when a server no longer answers, and when it answers again. A session has one line
/// at a time.
#[derive(Drop)]
pub struct WatchedDialer<'r, R: Net + Clock + Eprint> {
    rt: &'r R,
    dialer: TcpDialer<'r, R>,
    servers: ServerList,
    health: &'r Health,
    dialled: u32,
}

impl<'r, R: Net + Clock + Eprint> WatchedDialer<'r, R> {
    fn note(&self, answered: bool) {
        if !self.health.note(self.dialled, answered) {
            return;
        }
        let Some(Server { host, port }) = self.servers.get(self.dialled as usize) else {
            return;
        };
        let host = str::from_utf8(host.bytes()).unwrap_or("?");
        let news = if answered {
            "answers again"
        } else {
            "does not answer"
        };
        let _ = eprintln!(self.rt; "bixethomi: server {host}:{port} {news}");
    }
}

impl<'r, R: Net + Clock + Eprint> Dialer for WatchedDialer<'r, R> {
    type Line = TcpLink<'r, R>;

    ghost operations = { λ _. None };

    ghost received = { λ _. None };

    ghost behind = { λ _ _. None };

    ghost faults = { λ d. ⟦<TcpDialer<'r, R> as Dialer>⟧.faults d.dialer };

    fn dial(&mut self, server: u32) -> Result<TcpLink<'r, R>, LinkFailed> {
        self.dialled = server;
        match self.dialer.dial(server) {
            Ok(line) => Ok(line),
            Err(LinkFailed) => {
                self.note(false);
                Err(LinkFailed)
            }
        }
    }

    fn done(&mut self, line: TcpLink<'r, R>) {
        let answered = line.faults() == 0;
        self.dialer.done(line);
        self.note(answered);
    }
}

/// Whether nine tenths of the entries that a journal may hold are taken.
fn is_scarce(entries: usize, limit: u32) -> bool
    ensures { IsTrue result ↔ 9 * limit ≤ 10 * entries }
{
    9 * u128::from(limit) <= 10 * entries as u128
}

/// What each session is made with: connections to the servers, and the system's clock. It logs when the journal fills, and when it has
/// room again.
#[derive(Drop)]
pub struct SystemTools<'r, R> {
    rt: &'r R,
    health: &'r Health,
    /// Where servers are reached through sockets.
    links: Option<Links>,
    /// Whether the log says that the journal fills.
    scarce: bool,
}

impl<'r, R> SystemTools<'r, R> {
    /// The log says nothing of the journal yet.
    pub fn new(rt: &'r R, health: &'r Health, links: Option<Links>) -> SystemTools<'r, R> {
        SystemTools {
            rt,
            health,
            links,
            scarce: false,
        }
    }
}

impl<'r, R: Net + Clock + Eprint + Sync> Equipment for SystemTools<'r, R>
where
    R::Stream: Send,
{
    type Dial = WatchedDialer<'r, R>;

    type Time = SystemClock<'r, R>;

    type Watch = OpenGate;

    fn dialer(&mut self, config: &Config) -> Result<WatchedDialer<'r, R>, Memory> {
        let links = match &self.links {
            Some(links) => Some(links.copy()?),
            None => None,
        };
        Ok(WatchedDialer {
            rt: self.rt,
            dialer: TcpDialer::new(self.rt, config.servers.copy()?, links),
            servers: config.servers.copy()?,
            health: self.health,
            dialled: 0,
        })
    }

    fn clock(&mut self) -> SystemClock<'r, R> {
        SystemClock { rt: self.rt }
    }

    fn gate(&mut self) -> OpenGate {
        OpenGate
    }

    fn note_room(&mut self, entries: usize, limit: u32) {
        let scarce = is_scarce(entries, limit);
        if scarce == self.scarce {
            return;
        }
        self.scarce = scarce;
        let news = if scarce {
            "has nine tenths of the entries that journal_limit allows"
        } else {
            "has room again"
        };
        let _ = eprintln!(self.rt; "bixethomi: the journal {news}");
    }
}
