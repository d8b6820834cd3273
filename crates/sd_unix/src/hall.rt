//! What sessions and the entrance share.
use crate::caller::{Caller, Guess, Want};
use crate::frames::Visitor;
use crate::limits::has_place;
use crate::line::Line;
use crate::public_door::PublicDoor;
use mio::{Registry, Token, Waker};
use sd_base::Memory;
use std::alloc::Global;
use std::io;
use std::io::ErrorKind;
use std::os::unix::net::UnixStream;
use std::sync::atomic::{AtomicU64, AtomicUsize, Ordering};
use std::sync::{Arc, Mutex, Wait};
use std::time::{Clock, Duration, Instant};

/// An administrator stands behind every other client in the order of the last whole frames, and so leaves last.
const BEHIND_ALL: u64 = 1 << 62;

/// For how long a thread may look for the next frame of its client, in milliseconds.
const LINGER_MILLIS: u64 = 10;

/// The clients that wait with a whole frame.
struct Lines {
    administrators: Line<Caller>,
    public: Line<Caller>,
}

impl Drop for Lines {
    fn drop(self) {
        let Lines {
            administrators: _,
            public: _,
        } = self;
    }
}

impl Lines {
    fn join(&mut self, caller: Caller) -> Option<Caller> {
        match caller.visitor {
            Visitor::Administrator => self.administrators.join(caller),
            Visitor::Anyone => self.public.join(caller),
        }
    }

    fn next(&mut self, visitor: Visitor) -> Option<Caller> {
        match visitor {
            Visitor::Administrator => self.administrators.next(),
            Visitor::Anyone => self.public.next(),
        }
    }
}

/// The clients that no thread serves but those in the lobby, the places of those that are served, and the door for every user.
pub struct Hall {
    lines: Mutex<Lines>,
    /// How many wait with a whole frame, of each kind.
    administrators: AtomicUsize,
    public: AtomicUsize,
    /// The clients that go from a session to the lobby.
    back: Mutex<Line<Caller>>,
    waker: Waker,
    pub door: PublicDoor,
    served: AtomicUsize,
    public_served: AtomicUsize,
    /// How often the entrance was asked for a client.
    accepts: AtomicUsize,
    guesses: Arc<AtomicUsize, Global>,
    frames: AtomicU64,
    opened: Instant,
}

impl Drop for Hall {
    fn drop(self) {
        let Hall {
            lines: _,
            administrators: _,
            public: _,
            back: _,
            waker: _,
            door: _,
            served: _,
            public_served: _,
            accepts: _,
            guesses: _,
            frames: _,
            opened: _,
        } = self;
    }
}

fn out_of_memory(_error: Memory) -> io::Error {
    io::Error::from(ErrorKind::OutOfMemory)
}

/// A line in which nobody waits.
pub fn empty_line<C: Drop>(alloc: Global) -> io::Result<Line<C>> {
    Line::new(alloc).map_err(out_of_memory)
}

fn empty_lines(alloc: Global) -> io::Result<Lines> {
    Ok(Lines {
        administrators: empty_line(alloc)?,
        public: empty_line(alloc)?,
    })
}

/// The millisecond, counted from a moment.
fn millis_since(clock: &impl Clock, moment: &Instant) -> u64 {
    match moment.elapsed(clock) {
        Ok(passed) => passed
            .as_secs()
            .saturating_mul(1000)
            .saturating_add(u64::from(passed.subsec_millis())),
        Err(_) => 0,
    }
}

impl Hall {
    /// A hall in which nobody is; who comes back wakes a wait for the events of these sources by this token.
    pub fn new(
        clock: &impl Clock,
        alloc: Global,
        registry: &Registry,
        token: Token,
        door: PublicDoor,
    ) -> io::Result<Hall> {
        let lines = empty_lines(alloc)?;
        let back = empty_line(alloc)?;
        let guesses = Arc::new(alloc, AtomicUsize::new(0))?;
        let opened = Instant::now(clock)?;
        Ok(Hall {
            lines: Mutex::new(lines),
            administrators: AtomicUsize::new(0),
            public: AtomicUsize::new(0),
            back: Mutex::new(back),
            waker: Waker::new(registry, token)?,
            door,
            served: AtomicUsize::new(0),
            public_served: AtomicUsize::new(0),
            accepts: AtomicUsize::new(0),
            guesses,
            frames: AtomicU64::new(1),
            opened,
        })
    }

    /// The millisecond, counted from the opening.
    pub fn now(&self, clock: &impl Clock) -> u64 {
        millis_since(clock, &self.opened)
    }

    /// The place of a client whose frame is whole now, or who comes now.
    pub fn order_of(&self, visitor: Visitor) -> u64 {
        let order = self.frames.fetch_add(1, Ordering::SeqCst);
        match visitor {
            Visitor::Administrator => order.saturating_add(BEHIND_ALL),
            Visitor::Anyone => order,
        }
    }

    /// A client that comes now.
    pub fn new_caller(&self, alloc: Global, stream: UnixStream, visitor: Visitor) -> Caller {
        let _ = stream.set_read_timeout(Some(Duration::from_millis(LINGER_MILLIS)));
        Caller::new(
            alloc,
            stream,
            visitor,
            self.door.number(),
            self.order_of(visitor),
        )
    }

    /// Whether the entrance is to give the next client, since it gave none in this second: what is done then, is done once a second.
    /// One session alone is told so.
    pub fn is_due(&self, clock: &impl Clock) -> bool {
        self.door.is_due(self.now(clock) / 1000)
    }

    /// Notes that the entrance gives a client.
    pub fn note_given(&self, clock: &impl Clock) {
        self.door.note_given(self.now(clock) / 1000);
    }

    /// How many wait with a whole frame.
    pub fn waiting(&self) -> usize {
        let administrators = self.administrators.load(Ordering::SeqCst);
        administrators.saturating_add(self.public.load(Ordering::SeqCst))
    }

    /// Whether a client waits with a whole frame for which a place is free.
    pub fn can_serve(&self) -> bool {
        if self.administrators.load(Ordering::SeqCst) > 0
            && self.has_place(Visitor::Administrator)
        {
            return true;
        }
        self.public.load(Ordering::SeqCst) > 0 && self.has_place(Visitor::Anyone)
    }

    /// How many are served.
    pub fn served(&self) -> usize {
        self.served.load(Ordering::SeqCst)
    }

    fn note_line(&self, lines: &Lines) {
        self.administrators
            .store(lines.administrators.len(), Ordering::SeqCst);
        self.public.store(lines.public.len(), Ordering::SeqCst);
    }

    /// Puts a client with a whole frame behind all others; gives who has to leave for it.
    pub fn join_line<R: Wait>(&self, rt: &R, mut caller: Caller) -> Option<Caller> {
        caller.order = self.order_of(caller.visitor);
        caller.stage = None;
        let mut lines = self.lines.lock(rt);
        let left = lines.join(caller);
        self.note_line(&lines);
        left
    }

    /// The client that has waited with a whole frame for longest.
    pub fn next_in_line<R: Wait>(&self, rt: &R, visitor: Visitor) -> Option<Caller> {
        let mut lines = self.lines.lock(rt);
        let next = lines.next(visitor);
        self.note_line(&lines);
        next
    }

    /// Leaves a client to the entrance.
    pub fn give_back<R: Wait>(&self, rt: &R, caller: Caller) {
        let left = self.back.lock(rt).join(caller);
        drop(left);
        self.wake();
    }

    /// The next client that is left to the entrance.
    pub fn take_back<R: Wait>(&self, rt: &R) -> Option<Caller> {
        self.back.lock(rt).next()
    }

    /// Where a client goes that a session does not serve on: behind those who wait, or to the entrance.
    pub fn part<R: Wait>(&self, rt: &R, mut caller: Caller) {
        match caller.want() {
            Want::End => drop(caller),
            Want::Service => {
                let left = self.join_line(rt, caller);
                drop(left);
            }
            _ => {
                caller.order = self.order_of(caller.visitor);
                self.give_back(rt, caller);
            }
        }
    }

    /// Ends a wait of the entrance.
    pub fn wake(&self) {
        let _ = self.waker.wake();
    }

    /// A place to try a login over the public socket, where one is left.
    pub fn take_guess(&self) -> Option<Guess> {
        Guess::take(&self.guesses)
    }

    /// Notes that the entrance is asked for a client; gives the number of that call.
    pub fn note_accept(&self) -> usize {
        self.accepts
            .fetch_add(1, Ordering::SeqCst)
            .saturating_add(1)
    }

    /// Whether the entrance was asked again after the call of this number: then what it gave is served in a thread, and not by
    /// the entrance's own.
    pub fn is_past(&self, accept: usize) -> bool {
        accept < self.accepts.load(Ordering::SeqCst)
    }

    /// Whether a place is free.
    pub fn has_place(&self, visitor: Visitor) -> bool {
        let public = self.public_served.load(Ordering::SeqCst);
        has_place(visitor, public, self.served())
    }

    fn note_served(&self, visitor: Visitor) {
        self.served.fetch_add(1, Ordering::SeqCst);
        if visitor == Visitor::Anyone {
            self.public_served.fetch_add(1, Ordering::SeqCst);
        }
    }

    fn note_free(&self, visitor: Visitor) {
        self.served.fetch_sub(1, Ordering::SeqCst);
        if visitor == Visitor::Anyone {
            self.public_served.fetch_sub(1, Ordering::SeqCst);
        }
        if self.waiting() > 0 {
            self.wake();
        }
    }

    /// From now on the daemon ends.
    pub fn end(&self) {
        self.door.end();
    }

    /// Whether the daemon ends.
    pub fn is_ending(&self) -> bool {
        self.door.is_ending()
    }
}

/// A place of a client that is served. It is given back when it is dropped.
pub struct Place {
    pub hall: Arc<Hall, Global>,
    pub visitor: Visitor,
    /// The call of the entrance that gave it.
    pub accept: usize,
}

impl Drop for Place {
    fn drop(self) {
        let Place {
            hall,
            visitor,
            accept: _,
        } = self;
        hall.note_free(visitor);
    }
}

impl Place {
    /// A place for a client whom this call of the entrance gives.
    pub fn take(hall: &Arc<Hall, Global>, visitor: Visitor, accept: usize) -> Option<Place> {
        let hall = Arc::try_clone(hall).ok()?;
        hall.note_served(visitor);
        Some(Place {
            hall,
            visitor,
            accept,
        })
    }
}
