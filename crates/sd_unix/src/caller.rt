//! A client that is connected, with the bytes that it sent and the bytes that it is sent.
ghost use Rattle.std.specs.Prelude.{◌≤◌, length, IfOk};
ghost use Rattle.std.specs.Io.{WritesAtMost};

use crate::frames::{Progress, Visitor, frame_progress, is_login, is_wrong};
use crate::limits::may_guess;
use crate::lobby::Stage;
use crate::pending::Pending;
use crate::quick::{read_now, write_now};
use sd_base::Memory;
use std::alloc::Global;
use std::io;
use std::io::ErrorKind;
use std::os::unix::net::UnixStream;
use std::sync::Arc;
use std::sync::atomic::{AtomicUsize, Ordering};

/// How many bytes are read at a time.
pub const CHUNK: usize = 4096;

/// How often is read of a client before the others have their turn.
const MOST_READS: usize = 32;

/// A place among the logins over the public socket that are tried. It is given back when it is dropped.
pub struct Guess {
    tried: Arc<AtomicUsize, Global>,
}

impl Drop for Guess {
    fn drop(self) {
        let Guess { tried } = self;
        tried.fetch_sub(1, Ordering::SeqCst);
    }
}

impl Guess {
    /// A place, where one is left.
    pub fn take(tried: &Arc<AtomicUsize, Global>) -> Option<Guess> {
        let ours = Arc::try_clone(tried).ok()?;
        if may_guess(tried.fetch_add(1, Ordering::SeqCst)) {
            return Some(Guess { tried: ours });
        }
        tried.fetch_sub(1, Ordering::SeqCst);
        None
    }
}

/// What a client waits for.
#[derive(Clone, Copy, PartialEq, Eq)]
pub enum Want {
    /// Bytes, or room for a reply.
    Lobby(Stage),
    /// That its frame is served.
    Service,
    /// That its login may be tried.
    Guess,
    /// That the reply to a wrong password may go out.
    Delay,
    /// Nothing: it closed its end, or broke the rules.
    End,
}

/// What came of reading, or of writing.
#[derive(Clone, Copy, PartialEq, Eq)]
pub enum Moved {
    /// Bytes were moved.
    Some,
    /// Nothing is there, or there is no room.
    Nothing,
    /// The client closed its end, or is gone.
    Closed,
}

/// A client that is connected, under a number that no other has.
pub struct Caller {
    pub stream: UnixStream,
    pub visitor: Visitor,
    pub number: usize,
    /// Its place in the order of the last whole frames.
    pub order: u64,
    /// The stage that it is at, and since which millisecond; none where it is served, or waits for that.
    pub stage: Option<Stage>,
    pub since: u64,
    /// What it sent and nobody read.
    pub unread: Pending,
    /// What it is sent and did not take.
    pub reply: Pending,
    /// Its login is tried, or was answered a moment ago.
    pub guess: Option<Guess>,
    /// Its reply is to wait for a second.
    pub is_late: bool,
    pub is_closed: bool,
}

impl Drop for Caller {
    fn drop(self) {
        let Caller {
            stream: _,
            visitor: _,
            number: _,
            order: _,
            stage: _,
            since: _,
            unread: _,
            reply: _,
            guess: _,
            is_late: _,
            is_closed: _,
        } = self;
    }
}

fn movement_of(answer: io::Result<usize>) -> Moved {
    match answer {
        Ok(0) => Moved::Closed,
        Ok(_) => Moved::Some,
        Err(error) if error.kind() == ErrorKind::WouldBlock => Moved::Nothing,
        Err(_) => Moved::Closed,
    }
}

impl Caller {
    /// A client that has just come.
    pub fn new(
        alloc: Global,
        stream: UnixStream,
        visitor: Visitor,
        number: usize,
        order: u64,
    ) -> Caller {
        Caller {
            stream,
            visitor,
            number,
            order,
            stage: None,
            since: 0,
            unread: Pending::new(alloc),
            reply: Pending::new(alloc),
            guess: None,
            is_late: false,
            is_closed: false,
        }
    }

    /// How far the frame in front of its bytes has come.
    pub fn progress(&self) -> Progress {
        frame_progress(self.visitor, self.unread.bytes())
    }

    /// Whether its frame is a login over the public socket that is not tried yet.
    pub fn needs_guess(&self) -> bool {
        self.visitor == Visitor::Anyone && self.guess.is_none() && is_login(self.unread.bytes())
    }

    fn want_of_frame(&self) -> Want {
        match self.progress() {
            Progress::Refused => Want::End,
            Progress::Whole(_) => {
                if self.needs_guess() {
                    Want::Guess
                } else {
                    Want::Service
                }
            }
            Progress::Cut => {
                if self.unread.is_empty() {
                    Want::Lobby(Stage::Between)
                } else {
                    Want::Lobby(Stage::Frame)
                }
            }
        }
    }

    /// What it waits for. No frame of it is read while a reply is not taken whole.
    pub fn want(&self) -> Want {
        if self.is_late {
            return Want::Delay;
        }
        if self.is_closed {
            return Want::End;
        }
        if !self.reply.is_empty() {
            return Want::Lobby(Stage::Reply);
        }
        self.want_of_frame()
    }

    /// Reads what is there into `buf`, and adds it to the bytes that nobody read.
    pub fn read_some(&mut self, buf: &mut [u8]) -> Moved {
        let read = read_now(&self.stream, buf);
        self.keep(read, buf)
    }

    /// Adds what was read into `buf` to the bytes that nobody read. A client for which no memory is left is gone.
    pub fn keep(&mut self, read: io::Result<usize>, buf: &[u8]) -> Moved
        requires { IfOk read (λ count. count ≤ length buf.now) }
    {
        if let Ok(count) = &read {
            if self.unread.add(&buf[..*count]).is_err() {
                return Moved::Closed;
            }
        }
        movement_of(read)
    }

    /// Reads until a frame is whole or nothing is there.
    pub fn gather(&mut self) {
        let mut buf = [0u8; CHUNK];
        for _ in 0..MOST_READS {
            if self.progress() != Progress::Cut {
                return;
            }
            match self.read_some(&mut buf) {
                Moved::Some => {}
                Moved::Nothing => return,
                Moved::Closed => {
                    self.is_closed = true;
                    return;
                }
            }
        }
    }

    /// Writes what there is room for of the reply.
    pub fn flush(&mut self) {
        for _ in 0..MOST_READS {
            if self.reply.is_empty() {
                return;
            }
            match self.write_some() {
                Moved::Some => {}
                Moved::Nothing => return,
                Moved::Closed => {
                    self.is_closed = true;
                    return;
                }
            }
        }
    }

    fn write_some(&mut self) -> Moved {
        let written = write_now(&self.stream, self.reply.bytes());
        if let Ok(count) = &written {
            self.pass_reply(*count);
        }
        movement_of(written)
    }

    fn pass_reply(&mut self, count: usize) {
        if count <= self.reply.len() {
            self.reply.pass(count);
        }
    }

    /// Goes on where it was: takes its reply, or sends its frame.
    pub fn go_on(&mut self) {
        self.flush();
        if self.reply.is_empty() && !self.is_closed {
            self.gather();
        }
    }

    /// Writes what there is room for of an answer, where none waits; tells how many bytes. To a client that is gone, all go.
    fn write_first(&mut self, bytes: &[u8]) -> usize
        ensures { result ≤ length bytes.now }
    {
        if self.is_late || !self.reply.is_empty() {
            return 0;
        }
        match write_now(&self.stream, bytes) {
            Ok(count) => count,
            Err(error) if error.kind() == ErrorKind::WouldBlock => 0,
            Err(_) => {
                self.is_closed = true;
                bytes.len()
            }
        }
    }

    /// Notes whether an answer has to wait: a wrong password's over the public socket does.
    fn note_guess(&mut self, bytes: &[u8]) {
        if self.guess.is_none() {
            return;
        }
        if is_wrong(bytes) {
            self.is_late = true;
        } else if !self.is_late {
            self.guess = None;
        }
    }

    /// Sends an answer: what there is room for at once, and the rest once there is.
    pub fn answer(&mut self, bytes: &[u8]) -> io::Result<usize>
        ensures { WritesAtMost result bytes.now }
    {
        self.note_guess(bytes);
        let written = self.write_first(bytes);
        match self.reply.add(&bytes[written..]) {
            Ok(()) => Ok(bytes.len()),
            Err(Memory) => Err(io::Error::from(ErrorKind::OutOfMemory)),
        }
    }

    /// Gives back the memory of bytes that are gone.
    pub fn tidy(&mut self, alloc: Global) {
        if self.unread.is_empty() {
            self.unread = Pending::new(alloc);
        }
        if self.reply.is_empty() {
            self.reply = Pending::new(alloc);
        }
    }
}
