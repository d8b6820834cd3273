//! The way in: two listening sockets, and those who wait behind them.
ghost use Rattle.std.specs.Prelude.{◌≡◌, IfOk, IfSome};

use crate::caller::Caller;
use crate::connection::{ClientSink, ClientSource, Seat};
use crate::floor::{Departures, Floor};
use crate::frames::Visitor;
use crate::hall::{Hall, Place};
use crate::public_door::PublicDoor;
use crate::socket::{ListeningSocket, longer_path};
use mio::unix::SourceFd;
use mio::{Events, Interest, Poll, Token};
use sd_base::{Sink, Source};
use std::alloc::{Alloc, Global};
use std::fs::Files;
use std::io::{Eprint, ErrorKind};
use std::net::Net;
use std::os::fd::AsRawFd;
use std::os::unix::net::{UnixListener, UnixStream};
use std::sync::{Arc, Wait};
use std::time::{Clock, Duration};
use std::{io, thread};

/// The mode of the administrator's socket.
const OWN_MODE: u32 = 0o600;
/// The mode of the socket for every user of the host.
const PUBLIC_MODE: u32 = 0o666;
/// How long to wait before the next try where a connection could not be accepted and nobody can be sent away, in milliseconds.
const PAUSE: u64 = 10;
/// How many events are taken at once, and how many clients are accepted at once at each door.
const MOST_EVENTS: usize = 64;
/// How often clients that wait for too long are looked for, in milliseconds.
const LOOK_MILLIS: u64 = 1000;
/// How soon it is tried again to have a login tried, in milliseconds.
const LOGIN_MILLIS: u64 = 50;
/// How often the log may tell of clients that were sent away, in milliseconds.
const LOG_MILLIS: u64 = 60000;

const ADMINISTRATOR: usize = 0;

const ANYONE: usize = 1;

const COMING_BACK: usize = 2;
/// The number of the first client.
const FIRST_CALLER: usize = 3;

/// What a try to accept came to.
enum Accepted {
    Came(UnixStream),
    /// Nobody waits at the door.
    Nobody,
    /// Who waited is gone, or the system lacks a descriptor: the next try may do.
    Failed,
}

/// Both sockets.
struct Sockets {
    administrator: ListeningSocket,
    public: ListeningSocket,
}

impl Drop for Sockets {
    fn drop(self) {
        let Sockets {
            administrator: _,
            public: _,
        } = self;
    }
}

/// What is waited by.
struct Lookout {
    poll: Poll,
    events: Events<Global>,
}

impl Drop for Lookout {
    fn drop(self) {
        let Lookout { poll: _, events: _ } = self;
    }
}

/// Both sockets, and what is behind them.
#[derive(Drop)]
pub struct Entrance<'r, R: Files + Net + Clock> {
    rt: &'r R,
    sockets: Sockets,
    lookout: Lookout,
    floor: Floor,
    is_administrator_waiting: bool,
    is_anyone_waiting: bool,
    /// When clients that wait for too long were last looked for, and when the log last told of some.
    looked: u64,
    logged: u64,
}

fn accept_at(listener: &UnixListener) -> Accepted {
    match listener.accept() {
        Ok((stream, _)) => Accepted::Came(stream),
        Err(error) if error.kind() == ErrorKind::WouldBlock => Accepted::Nobody,
        Err(_) => Accepted::Failed,
    }
}

/// What a client sends and is sent.
fn connection<'r, R: Wait + Clock + Alloc<A = Global>>(
    rt: &'r R,
    caller: Caller,
    place: Place,
) -> io::Result<(ClientSource<'r, R>, ClientSink<'r, R>)>
    ensures { IfOk result (λ made. (⟦<ClientSource<'r, R> as Source>⟧.faults made.0 ≡ 0) × (⟦<ClientSink<'r, R> as Sink>⟧.faults made.1 ≡ 0)) }
{
    let seat = Seat::new(rt.alloc(), caller)?;
    let sink = ClientSink::new(rt, seat.try_clone()?);
    Ok((ClientSource::new(rt, seat, place), sink))
}

/// Listens at `PATH` with this behind it.
fn socket_at<R: Files + Net + Alloc<A = Global>>(
    rt: &R,
    path: &str,
    more: &str,
    mode: u32,
) -> io::Result<ListeningSocket> {
    let path = longer_path(rt, path, more)?;
    ListeningSocket::open(rt, path, mode)
}

impl Sockets {
    /// Listens at a path, for the administrator, and at `PATH.public`.
    fn open<R: Files + Net + Alloc<A = Global>>(rt: &R, path: &str) -> io::Result<Sockets> {
        let administrator = socket_at(rt, path, "", OWN_MODE)?;
        let public = socket_at(rt, path, ".public", PUBLIC_MODE)?;
        Ok(Sockets {
            administrator,
            public,
        })
    }

    /// Takes both away.
    fn remove<R: Files>(&self, rt: &R) {
        self.administrator.remove(rt);
        self.public.remove(rt);
    }
}

/// The door at the socket for every user of the host, where a wait at this poll lets clients in.
fn public_door(
    net: &impl Net,
    alloc: Global,
    public: &ListeningSocket,
    poll: &Poll,
) -> io::Result<PublicDoor> {
    let listener = public.listener.try_clone()?;
    let registry = poll.registry().try_clone()?;
    PublicDoor::new(net, alloc, listener, registry, Token(ANYONE), FIRST_CALLER)
}

/// Has a wait at this poll end where somebody comes to a socket, or comes back.
fn attach<R: Net + Clock + Alloc<A = Global>>(
    rt: &R,
    poll: &Poll,
    sockets: &Sockets,
) -> io::Result<Arc<Hall, Global>> {
    let descriptor = sockets.administrator.listener.as_raw_fd();
    poll.registry().register(
        &mut SourceFd(&descriptor),
        Token(ADMINISTRATOR),
        Interest::READABLE,
    )?;
    let door = public_door(rt, rt.alloc(), &sockets.public, poll)?;
    let hall = Hall::new(rt, rt.alloc(), poll.registry(), Token(COMING_BACK), door)?;
    Ok(Arc::new(rt.alloc(), hall)?)
}

impl<'r, R: Files + Net + Clock + Wait + Eprint + Alloc<A = Global>> Entrance<'r, R> {
    /// Listens at a path, for the administrator, and at `PATH.public`; nobody waits.
    pub fn open(rt: &'r R, path: &str) -> io::Result<Entrance<'r, R>> {
        let events = Events::with_capacity(rt.alloc(), MOST_EVENTS)?;
        let poll = Poll::new(rt)?;
        let sockets = Sockets::open(rt, path)?;
        let hall = attach(rt, &poll, &sockets)?;
        let floor = Floor::new(rt.alloc(), hall, poll.registry().try_clone()?)?;
        Ok(Entrance {
            rt,
            sockets,
            lookout: Lookout { poll, events },
            floor,
            is_administrator_waiting: true,
            is_anyone_waiting: true,
            looked: 0,
            logged: 0,
        })
    }

    /// Makes room where the system lacks a descriptor.
    fn make_room(&mut self) {
        if !self.floor.make_room() {
            thread::sleep(self.rt, Duration::from_millis(PAUSE));
        }
    }

    /// Lets an administrator in, if one waits.
    fn answer_administrator(&mut self) {
        if !self.is_administrator_waiting {
            return;
        }
        match accept_at(&self.sockets.administrator.listener) {
            Accepted::Came(stream) => {
                self.floor.welcome(self.rt, stream, Visitor::Administrator);
            }
            Accepted::Nobody => self.is_administrator_waiting = false,
            Accepted::Failed => self.make_room(),
        }
    }

    /// Lets somebody in at the public door, if one waits.
    fn answer_anyone(&mut self) {
        if !self.is_anyone_waiting {
            return;
        }
        match accept_at(&self.sockets.public.listener) {
            Accepted::Came(stream) => self.floor.welcome(self.rt, stream, Visitor::Anyone),
            Accepted::Nobody => self.is_anyone_waiting = false,
            Accepted::Failed => self.make_room(),
        }
    }

    /// Lets some in who wait at the doors.
    fn answer_doors(&mut self) {
        for _ in 0..MOST_EVENTS {
            self.answer_administrator();
            self.answer_anyone();
            if !self.is_administrator_waiting && !self.is_anyone_waiting {
                return;
            }
        }
    }

    /// How long nothing is to be done but on an event, in milliseconds.
    fn rest_millis(&self, now: u64) -> Option<u64> {
        if let Some(delay) = self.floor.next_delay(now) {
            return Some(delay.min(LOGIN_MILLIS));
        }
        if self.floor.has_logins() {
            return Some(LOGIN_MILLIS);
        }
        if self.floor.is_lobby_empty() {
            return None;
        }
        Some(LOOK_MILLIS)
    }

    /// For how long the entrance may wait.
    fn rest(&self, has_client: bool) -> Option<Duration> {
        if has_client || self.is_administrator_waiting || self.is_anyone_waiting {
            return Some(Duration::ZERO);
        }
        let now = self.floor.hall.now(self.rt);
        Some(Duration::from_millis(self.rest_millis(now)?))
    }

    /// Waits until somebody comes or sends something, or somebody may have waited for too long.
    fn look(&mut self, has_client: bool) -> io::Result<()> {
        let rest = self.rest(has_client);
        self.lookout.poll.poll(&mut self.lookout.events, rest)?;
        for event in self.lookout.events.iter() {
            match event.token() {
                Token(ADMINISTRATOR) => self.is_administrator_waiting = true,
                Token(ANYONE) => self.is_anyone_waiting = true,
                Token(COMING_BACK) => {}
                Token(number) => self.floor.look_at(self.rt, number),
            }
        }
        Ok(())
    }

    /// Sends away, once a second, who has waited for too long.
    fn look_after(&mut self) {
        let now = self.floor.hall.now(self.rt);
        if now.saturating_sub(self.looked) < LOOK_MILLIS {
            return;
        }
        self.looked = now;
        self.floor.send_slow_away(now);
        self.log(now);
    }

    /// Tells the log, once a minute at most, of clients that were sent away.
    fn log(&mut self, now: u64) {
        let Departures { for_room, too_slow } = self.floor.departures;
        let is_soon = self.logged > 0 && now.saturating_sub(self.logged) < LOG_MILLIS;
        if is_soon || (for_room == 0 && too_slow == 0) {
            return;
        }
        self.logged = now.max(1);
        self.floor.departures = Departures {
            for_room: 0,
            too_slow: 0,
        };
        let _ = eprintln!(self.rt;
            "bixethomi: clients sent away: {for_room} to make room for others, {too_slow} that were idle or too slow"
        );
    }

    /// The next client that waits with a whole frame, where a place is free.
    fn take_client(&mut self, accept: usize) -> Option<(ClientSource<'r, R>, ClientSink<'r, R>)>
        ensures { IfSome result (λ made. (⟦<ClientSource<'r, R> as Source>⟧.faults made.0 ≡ 0) × (⟦<ClientSink<'r, R> as Sink>⟧.faults made.1 ≡ 0)) }
    {
        let caller = self.floor.next_client(self.rt)?;
        let place = Place::take(&self.floor.hall, caller.visitor, accept)?;
        self.floor.hall.note_given(self.rt);
        connection(self.rt, caller, place).ok()
    }

    /// Looks at all who wait; for no longer than at once, where a client is there to be served.
    fn attend_all(&mut self) -> io::Result<()> {
        self.answer_doors();
        let has_client = self.floor.hall.can_serve();
        self.look(has_client)?;
        self.floor.let_back(self.rt);
        self.floor.serve_logins(self.rt);
        self.look_after();
        Ok(())
    }

    /// The next client.
    pub fn next_client(&mut self) -> io::Result<(ClientSource<'r, R>, ClientSink<'r, R>)>
        ensures { IfOk result (λ made. (⟦<ClientSource<'r, R> as Source>⟧.faults made.0 ≡ 0) × (⟦<ClientSink<'r, R> as Sink>⟧.faults made.1 ≡ 0)) }
    {
        let accept = self.floor.hall.note_accept();
        for _ in 0..u64::MAX {
            self.attend_all()?;
            if let Some(made) = self.take_client(accept) {
                return Ok(made);
            }
        }
        Err(io::Error::from(ErrorKind::Other))
    }

    /// From now on the connections that were given end once no frame of their clients is served.
    pub fn wind_down(&self) {
        self.floor.hall.end();
    }

    /// Takes both sockets away.
    pub fn close(self) {
        self.sockets.remove(self.rt);
    }
}
