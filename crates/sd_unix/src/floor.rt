//! The clients that no thread serves: where they wait, who is let in next, and who is sent away.
use crate::caller::{Caller, Want};
use crate::frames::Visitor;
use crate::hall::Hall;
use crate::line::{Line, MOST_IN_LINE};
use crate::lobby::{Guest, Lobby, MOST_GUESTS, Stage};
use mio::unix::SourceFd;
use mio::{Interest, Registry, Token};
use sd_base::Memory;
use std::alloc::Global;
use std::io;
use std::io::ErrorKind;
use std::os::fd::AsRawFd;
use std::os::unix::net::UnixStream;
use std::sync::{Arc, Wait};
use std::time::Clock;

/// The most bytes of replies that are kept for clients that do not take them.
const MOST_REPLY_BYTES: usize = 64 * 1024 * 1024;
/// How many logins are tried, and how many replies to wrong passwords sent, before the others have their turn.
const MOST_AT_ONCE: usize = 64;
/// How long the reply to a wrong password waits, in milliseconds.
const DELAY_MILLIS: u64 = 1000;
/// How many logins wait until they may be tried.
const MOST_LOGINS: usize = 256;

/// A reply that waits for its moment.
#[derive(Drop)]
struct Delayed {
    caller: Caller,
    until: u64,
}

/// How many clients were sent away since the log told of them.
#[derive(Clone, Copy)]
pub struct Departures {
    /// For the room of others.
    pub for_room: u64,
    /// Since a frame, a reply or a pause lasted too long.
    pub too_slow: u64,
}

/// The clients that no thread serves, by what they wait for.
pub struct Floor {
    alloc: Global,
    pub hall: Arc<Hall, Global>,
    registry: Registry,
    lobby: Lobby<Caller>,
    delayed: Line<Delayed>,
    logins: Line<Caller>,
    reply_bytes: usize,
    pub departures: Departures,
}

impl Drop for Floor {
    fn drop(self) {
        let Floor {
            alloc: _,
            hall: _,
            registry: _,
            lobby: _,
            delayed: _,
            logins: _,
            reply_bytes: _,
            departures: _,
        } = self;
    }
}

fn out_of_memory(_error: Memory) -> io::Error {
    io::Error::from(ErrorKind::OutOfMemory)
}

/// What a client at a stage is watched for.
fn interest_of(stage: Stage) -> Interest {
    match stage {
        Stage::Reply => Interest::WRITABLE,
        Stage::Between | Stage::Frame => Interest::READABLE,
    }
}

impl Floor {
    /// Nobody waits; who does is watched by this registry.
    pub fn new(alloc: Global, hall: Arc<Hall, Global>, registry: Registry) -> io::Result<Floor> {
        let lobby = Lobby::new(alloc).map_err(out_of_memory)?;
        let delayed = Line::new(alloc).map_err(out_of_memory)?;
        let logins = Line::new(alloc).map_err(out_of_memory)?;
        Ok(Floor {
            alloc,
            hall,
            registry,
            lobby,
            delayed,
            logins,
            reply_bytes: 0,
            departures: Departures {
                for_room: 0,
                too_slow: 0,
            },
        })
    }

    fn note_room(&mut self, left: usize) {
        self.departures.for_room = self.departures.for_room.saturating_add(left as u64);
    }

    /// Takes a client from where it was watched.
    fn unwatch(&mut self, guest: Guest<Caller>) -> Caller {
        let Guest {
            client,
            number: _,
            order: _,
            stage: _,
            since: _,
        } = guest;
        self.reply_bytes = self.reply_bytes.saturating_sub(client.reply.len());
        let descriptor = client.stream.as_raw_fd();
        let _ = self.registry.deregister(&mut SourceFd(&descriptor));
        client
    }

    /// Has a client wait in the lobby. Where it is full, the one that has gone longest without a whole frame is sent away.
    fn keep(&mut self, now: u64, mut caller: Caller, stage: Stage) {
        if caller.stage != Some(stage) {
            caller.stage = Some(stage);
            caller.since = now;
        }
        let descriptor = caller.stream.as_raw_fd();
        let token = Token(caller.number);
        if self
            .registry
            .register(&mut SourceFd(&descriptor), token, interest_of(stage))
            .is_err()
        {
            return;
        }
        caller.tidy(self.alloc);
        self.reply_bytes = self.reply_bytes.saturating_add(caller.reply.len());
        self.admit(caller, stage);
    }

    fn admit(&mut self, caller: Caller, stage: Stage) {
        let guest = Guest {
            number: caller.number,
            order: caller.order,
            since: caller.since,
            stage,
            client: caller,
        };
        let most = MOST_GUESTS.saturating_sub(self.hall.waiting()).max(1);
        let left = self.lobby.admit(guest, most);
        self.send_away(left);
        self.bound_replies();
    }

    fn send_away(&mut self, left: Option<Guest<Caller>>) {
        if let Some(guest) = left {
            drop(self.unwatch(guest));
            self.note_room(1);
        }
    }

    /// Sends clients away that do not take their replies, until what they are sent fits.
    fn bound_replies(&mut self) {
        for _ in 0..MOST_GUESTS {
            if self.reply_bytes <= MOST_REPLY_BYTES {
                return;
            }
            let left = self.lobby.take_replying();
            self.send_away(left);
        }
    }

    /// Puts a client where it belongs.
    pub fn settle<R: Wait + Clock>(&mut self, rt: &R, caller: Caller) {
        let now = self.hall.now(rt);
        match caller.want() {
            Want::Lobby(stage) => self.keep(now, caller, stage),
            Want::Service => self.enqueue(rt, caller),
            Want::Guess => self.queue_login(caller),
            Want::Delay => self.delay(now, caller),
            Want::End => self.end(rt, caller),
        }
    }

    fn enqueue<R: Wait>(&mut self, rt: &R, caller: Caller) {
        if let Some(left) = self.hall.join_line(rt, caller) {
            drop(left);
            self.note_room(1);
        }
    }

    /// Has a login wait until it may be tried. Where too many wait, it is sent away.
    fn queue_login(&mut self, caller: Caller) {
        if self.logins.len() >= MOST_LOGINS {
            drop(caller);
            self.note_room(1);
            return;
        }
        drop(self.logins.join(caller));
    }

    fn delay(&mut self, now: u64, caller: Caller) {
        let until = now.saturating_add(DELAY_MILLIS);
        drop(self.delayed.join(Delayed { caller, until }));
    }

    /// Lets a client go that closed its end, or broke the rules. An administrator's is given to a session all the same: a stop is noted
    /// once one comes.
    fn end<R: Wait>(&mut self, rt: &R, caller: Caller) {
        if caller.visitor == Visitor::Administrator && caller.is_closed {
            self.enqueue(rt, caller);
        }
    }

    /// Lets somebody in who was not here before.
    pub fn welcome<R: Wait + Clock>(&mut self, rt: &R, stream: UnixStream, visitor: Visitor) {
        let mut caller = self.hall.new_caller(self.alloc, stream, visitor);
        caller.gather();
        self.settle(rt, caller);
    }

    /// Lets in who was served.
    pub fn let_back<R: Wait + Clock>(&mut self, rt: &R) {
        for _ in 0..MOST_IN_LINE {
            match self.hall.take_back(rt) {
                Some(caller) => self.settle(rt, caller),
                None => return,
            }
        }
    }

    /// Looks at a client of the lobby that sent something, or has room for its reply.
    pub fn look_at<R: Wait + Clock>(&mut self, rt: &R, number: usize) {
        if let Some(guest) = self.lobby.take_numbered(number) {
            let mut caller = self.unwatch(guest);
            caller.go_on();
            self.settle(rt, caller);
        }
    }

    /// Sends away who has been at its stage for too long.
    pub fn send_slow_away(&mut self, now: u64) {
        for _ in 0..MOST_GUESTS {
            match self.lobby.take_due(now) {
                Some(guest) => {
                    drop(self.unwatch(guest));
                    self.departures.too_slow = self.departures.too_slow.saturating_add(1);
                }
                None => return,
            }
        }
    }

    /// Makes room where the system lacks a descriptor. Tells whether somebody was sent away.
    pub fn make_room(&mut self) -> bool {
        let left = self.lobby.take_first();
        let has_room = left.is_some();
        self.send_away(left);
        has_room
    }

    /// Sends the replies whose moment has come, and has as many logins tried as may be.
    pub fn serve_logins<R: Wait + Clock>(&mut self, rt: &R) {
        let now = self.hall.now(rt);
        for _ in 0..MOST_AT_ONCE {
            match self.take_delayed(now) {
                Some(mut caller) => {
                    caller.is_late = false;
                    caller.guess = None;
                    caller.go_on();
                    self.settle(rt, caller);
                }
                None => break,
            }
        }
        self.try_logins(rt);
    }

    fn take_delayed(&mut self, now: u64) -> Option<Caller> {
        if self.next_delay(now)? > 0 {
            return None;
        }
        let Delayed { caller, until: _ } = self.delayed.next()?;
        Some(caller)
    }

    /// In how many milliseconds the next reply's moment comes.
    pub fn next_delay(&self, now: u64) -> Option<u64> {
        let first = self.delayed.first()?;
        Some(first.until.saturating_sub(now))
    }

    fn try_logins<R: Wait>(&mut self, rt: &R) {
        for _ in 0..MOST_AT_ONCE {
            if self.logins.len() == 0 {
                return;
            }
            let Some(guess) = self.hall.take_guess() else {
                return;
            };
            let Some(mut caller) = self.logins.next() else {
                return;
            };
            caller.guess = Some(guess);
            self.enqueue(rt, caller);
        }
    }

    /// Whether a login waits until it may be tried.
    pub fn has_logins(&self) -> bool {
        self.logins.len() > 0
    }

    /// Whether nobody is in the lobby.
    pub fn is_lobby_empty(&self) -> bool {
        self.lobby.is_empty()
    }

    /// The next client to serve, where a place is free for it: an administrator's first.
    pub fn next_client<R: Wait>(&mut self, rt: &R) -> Option<Caller> {
        if let Some(caller) = self.next_of(rt, Visitor::Administrator) {
            return Some(caller);
        }
        self.next_of(rt, Visitor::Anyone)
    }

    fn next_of<R: Wait>(&mut self, rt: &R, visitor: Visitor) -> Option<Caller> {
        if !self.hall.has_place(visitor) {
            return None;
        }
        self.hall.next_in_line(rt, visitor)
    }
}
