//! What a client sends and is sent. No call waits for the client.
ghost use Rattle.std.specs.Prelude.{◌≡◌, ◌≤◌, length, None};
ghost use Rattle.std.specs.Io.{ReadsAtMost, WritesAtMost};

use crate::caller::{Caller, Moved};
use crate::frames::{Progress, Visitor};
use crate::hall::{Hall, Place};
use crate::limits::{is_turn_over, may_linger};
use sd_base::{Sink, SinkFailed, Source, SourceFailed};
use std::alloc::{Alloc, Global};
use std::io;
use std::io::{ErrorKind, Read};
use std::sync::{Arc, Mutex, Wait};
use std::time::Clock;

/// The client that is served, if one is.
#[derive(Drop)]
pub struct Seat {
    caller: Arc<Mutex<Option<Caller>>, Global>,
}

impl Seat {
    /// A seat that this client has.
    pub fn new(alloc: Global, caller: Caller) -> io::Result<Seat> {
        Ok(Seat {
            caller: Arc::new(alloc, Mutex::new(Some(caller)))?,
        })
    }

    /// The same seat once more.
    pub fn try_clone(&self) -> io::Result<Seat> {
        Ok(Seat {
            caller: Arc::try_clone(&self.caller)?,
        })
    }

    /// Gives the seat to another client, or to nobody.
    fn change<R: Wait>(&self, rt: &R, next: Option<Caller>) -> Option<Caller> {
        std::mem::replace(&mut *self.caller.lock(rt), next)
    }
}

/// What a look for a client's next frame came to.
#[derive(Clone, Copy, PartialEq, Eq)]
enum Heard {
    /// A frame of so many bytes, which is served now.
    Frame(usize),
    /// The client waits elsewhere.
    Waits,
    /// The client is gone.
    Gone,
}

/// Looks for more bytes: for a moment, where a thread may linger.
fn look(hall: &Hall, caller: &mut Caller, buf: &mut [u8]) -> Moved {
    if !may_linger(!caller.unread.is_empty(), hall.waiting(), hall.served()) {
        return caller.read_some(buf);
    }
    let mut stream = &caller.stream;
    let read = stream.read(buf);
    caller.keep(read, buf)
}

/// Whether a client's whole frame is served now: where its turn goes on, and its login may be tried.
fn is_served(hall: &Hall, caller: &mut Caller, frames: u32) -> bool {
    if is_turn_over(frames, hall.waiting()) {
        return false;
    }
    if caller.needs_guess() {
        caller.guess = hall.take_guess();
    }
    !caller.needs_guess()
}

fn hear_frame(hall: &Hall, caller: &mut Caller, frames: u32) -> io::Result<Heard> {
    match caller.progress() {
        Progress::Cut => Ok(Heard::Waits),
        Progress::Refused => Err(io::Error::from(ErrorKind::PermissionDenied)),
        Progress::Whole(size) => {
            if is_served(hall, caller, frames) {
                Ok(Heard::Frame(size))
            } else {
                Ok(Heard::Waits)
            }
        }
    }
}

/// Looks for a whole frame, of a client of whom so many were served in turn. While a reply is not taken whole, none is looked for.
fn hear(hall: &Hall, caller: &mut Caller, frames: u32, buf: &mut [u8]) -> io::Result<Heard> {
    if caller.is_closed {
        return Ok(Heard::Gone);
    }
    if !caller.reply.is_empty() {
        return Ok(Heard::Waits);
    }
    if caller.progress() == Progress::Cut {
        match look(hall, caller, buf) {
            Moved::Some => {}
            Moved::Nothing => return Ok(Heard::Waits),
            Moved::Closed => {
                caller.is_closed = true;
                return Ok(Heard::Gone);
            }
        }
    }
    hear_frame(hall, caller, frames)
}

/// What clients send, one after the other: the frames of each while they come at once, and up to a bound while others wait. It ends
/// where no client is there to serve. A take fails once the daemon ends and no frame has begun, and where a client sends what is no
/// frame, or an administrator's command and is none. It tells no content.
#[derive(Drop)]
pub struct ClientSource<'r, R> {
    rt: &'r R,
    seat: Seat,
    place: Place,
    /// So many bytes of the frame that is served are to come.
    left: usize,
    /// So many frames of the client were served in turn.
    frames: u32,
    faults: u64,
}

impl<'r, R: Wait + Clock + Alloc<A = Global>> ClientSource<'r, R> {
    /// What is read of the client in a seat.
    pub(crate) fn new(rt: &'r R, seat: Seat, place: Place) -> ClientSource<'r, R>
        ensures { ⟦<ClientSource<'r, R> as Source>⟧.faults result ≡ 0 }
    {
        ClientSource {
            rt,
            seat,
            place,
            left: 0,
            frames: 0,
            faults: 0,
        }
    }

    /// Looks for the next frame of the client in the seat.
    fn hear_seated(&self, buf: &mut [u8]) -> io::Result<Heard> {
        match &mut *self.seat.caller.lock(self.rt) {
            Some(caller) => hear(&self.place.hall, caller, self.frames, buf),
            None => Ok(Heard::Gone),
        }
    }

    /// The next client: one that waits with a whole frame, or who comes through the public door now. None where the entrance is to
    /// give the next one.
    fn next_caller(&self) -> Option<Caller> {
        let hall = &self.place.hall;
        if hall.is_ending() || !hall.is_past(self.place.accept) {
            return None;
        }
        if hall.waiting() > 0 && hall.is_due(self.rt) {
            return None;
        }
        match hall.next_in_line(self.rt, self.place.visitor) {
            Some(caller) => Some(caller),
            None => self.attend(),
        }
    }

    /// Waits for the next client at the public door, in the place of the entrance.
    fn attend(&self) -> Option<Caller> {
        if self.place.visitor == Visitor::Administrator {
            return None;
        }
        let hall = &self.place.hall;
        for _ in 0..u64::MAX {
            let stream = hall.door.attend()?;
            let caller = hall.new_caller(self.rt.alloc(), stream, Visitor::Anyone);
            if !hall.is_due(self.rt) {
                return Some(caller);
            }
            hall.give_back(self.rt, caller);
        }
        None
    }

    /// Lets the client go where it belongs, and seats the next. Tells whether one came.
    fn change_client(&mut self) -> bool
        ensures { ⟦<ClientSource<'r, R> as Source>⟧.faults self.new ≡ ⟦<ClientSource<'r, R> as Source>⟧.faults self.old }
    {
        if let Some(caller) = self.seat.change(self.rt, None) {
            self.place.hall.part(self.rt, caller);
        }
        self.frames = 0;
        let next = self.next_caller();
        let has_come = next.is_some();
        drop(self.seat.change(self.rt, next));
        has_come
    }

    /// Gives bytes of the frame that is served.
    fn give(&mut self, buf: &mut [u8]) -> usize
        ensures count { result ≤ length buf.new }
        ensures faults { ⟦<ClientSource<'r, R> as Source>⟧.faults self.new ≡ ⟦<ClientSource<'r, R> as Source>⟧.faults self.old }
    {
        let count = match &mut *self.seat.caller.lock(self.rt) {
            Some(caller) => caller.unread.give(buf, self.left),
            None => 0,
        };
        self.left = self.left.saturating_sub(count);
        count
    }

    /// Looks for the next frame of a client, and then of the next one, until one is there; 0 where none comes.
    fn next_frame(&mut self, buf: &mut [u8]) -> io::Result<usize>
        ensures bound { ReadsAtMost result buf.new }
        ensures faults { ⟦<ClientSource<'r, R> as Source>⟧.faults self.new ≡ ⟦<ClientSource<'r, R> as Source>⟧.faults self.old }
    {
        for _ in 0..u64::MAX {
            if self.place.hall.is_ending() {
                return Err(io::Error::from(ErrorKind::ConnectionAborted));
            }
            if let Heard::Frame(size) = self.hear_seated(buf)? {
                self.left = size;
                self.frames = self.frames.saturating_add(1);
                return Ok(self.give(buf));
            }
            if !self.change_client() {
                return Ok(0);
            }
        }
        Ok(0)
    }

    fn read(&mut self, buf: &mut [u8]) -> io::Result<usize>
        ensures bound { ReadsAtMost result buf.new }
        ensures faults { ⟦<ClientSource<'r, R> as Source>⟧.faults self.new ≡ ⟦<ClientSource<'r, R> as Source>⟧.faults self.old }
    {
        if self.left > 0 {
            return Ok(self.give(buf));
        }
        self.next_frame(buf)
    }
}

impl<'r, R: Wait + Clock + Alloc<A = Global>> Source for ClientSource<'r, R> {
    ghost left = { λ _. None };

    ghost faults = { λ s. s.faults };

    fn take(&mut self, buf: &mut [u8]) -> Result<usize, SourceFailed> {
        match self.read(buf) {
            Ok(count) => Ok(count),
            Err(_) => {
                self.faults = self.faults.saturating_add(1);
                Err(SourceFailed)
            }
        }
    }
}

/// What a client is sent: what its socket has room for at once, and the rest once it has. A put fails where no
/// memory is left, and what a client is sent that is gone is lost. It tells no content.
#[derive(Drop)]
pub struct ClientSink<'r, R> {
    rt: &'r R,
    seat: Seat,
    faults: u64,
}

impl<'r, R: Wait> ClientSink<'r, R> {
    pub(crate) fn new(rt: &'r R, seat: Seat) -> ClientSink<'r, R>
        ensures { ⟦<ClientSink<'r, R> as Sink>⟧.faults result ≡ 0 }
    {
        ClientSink {
            rt,
            seat,
            faults: 0,
        }
    }

    fn write(&self, bytes: &[u8]) -> io::Result<usize>
        ensures { WritesAtMost result bytes.now }
    {
        match &mut *self.seat.caller.lock(self.rt) {
            Some(caller) => caller.answer(bytes),
            None => Err(io::Error::from(ErrorKind::NotConnected)),
        }
    }
}

impl<'r, R: Wait> Sink for ClientSink<'r, R> {
    ghost held = { λ _. None };

    ghost faults = { λ s. s.faults };

    fn put(&mut self, bytes: &[u8]) -> Result<usize, SinkFailed> {
        match self.write(bytes) {
            Ok(count) => {
                if count == 0 && !bytes.is_empty() {
                    self.faults = self.faults.saturating_add(1);
                }
                Ok(count)
            }
            Err(_) => {
                self.faults = self.faults.saturating_add(1);
                Err(SinkFailed)
            }
        }
    }
}
