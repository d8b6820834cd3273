//! The door for every user of the host. The entrance lets clients in there, or a session that has nobody to serve does by itself.
use mio::unix::SourceFd;
use mio::{Events, Interest, Poll, Registry, Token, Waker};
use std::alloc::Global;
use std::io;
use std::io::ErrorKind;
use std::net::Net;
use std::os::fd::AsRawFd;
use std::os::unix::net::{UnixListener, UnixStream};
use std::sync::Mutex;
use std::sync::atomic::{AtomicBool, AtomicU64, AtomicUsize, Ordering};

/// By what a session at the door is woken where nobody came.
const ENDING: Token = Token(0);

/// What a session waits at the door by.
struct Attendance {
    poll: Poll,
    events: Events<Global>,
}

impl Drop for Attendance {
    fn drop(self) {
        let Attendance { poll: _, events: _ } = self;
    }
}

/// Has a registry tell of a listening socket.
fn watch(registry: &Registry, listener: &UnixListener, token: Token) -> io::Result<()> {
    let descriptor = listener.as_raw_fd();
    registry.register(&mut SourceFd(&descriptor), token, Interest::READABLE)
}

impl Attendance {
    /// A session's place to wait for clients at this listening socket.
    fn new(
        net: &impl Net,
        alloc: Global,
        listener: &UnixListener,
        token: Token,
    ) -> io::Result<Attendance> {
        let poll = Poll::new(net)?;
        watch(poll.registry(), listener, token)?;
        let events = Events::with_capacity(alloc, 1)?;
        Ok(Attendance { poll, events })
    }

    fn wait(&mut self) -> io::Result<()> {
        self.poll.poll(&mut self.events, None)
    }
}

/// The listening socket, and who waits there: the entrance, by its registry, or the one session that has the attendance.
pub struct PublicDoor {
    listener: UnixListener,
    entrance: Registry,
    token: Token,
    attendance: Mutex<Attendance>,
    waker: Waker,
    next_number: AtomicUsize,
    /// The last second in which the entrance gave a client, or a session ended for it to give one.
    last_given: AtomicU64,
    is_ending: AtomicBool,
}

impl Drop for PublicDoor {
    fn drop(self) {
        let PublicDoor {
            listener: _,
            entrance: _,
            token: _,
            attendance: _,
            waker: _,
            next_number: _,
            last_given: _,
            is_ending: _,
        } = self;
    }
}

impl PublicDoor {
    /// A door at which the entrance waits, by this registry and token. The first client has this number.
    pub fn new(
        net: &impl Net,
        alloc: Global,
        listener: UnixListener,
        entrance: Registry,
        token: Token,
        first_number: usize,
    ) -> io::Result<PublicDoor> {
        watch(&entrance, &listener, token)?;
        let attendance = Attendance::new(net, alloc, &listener, token)?;
        let waker = Waker::new(attendance.poll.registry(), ENDING)?;
        Ok(PublicDoor {
            listener,
            entrance,
            token,
            attendance: Mutex::new(attendance),
            waker,
            next_number: AtomicUsize::new(first_number),
            last_given: AtomicU64::new(0),
            is_ending: AtomicBool::new(false),
        })
    }

    /// A number that no other client has.
    pub fn number(&self) -> usize {
        self.next_number.fetch_add(1, Ordering::SeqCst)
    }

    /// Notes that the entrance gave a client in this second.
    pub fn note_given(&self, second: u64) {
        self.last_given.store(second, Ordering::SeqCst);
    }

    /// Whether no client was given in this second. From then on it counts as one in which the entrance gives one.
    pub fn is_due(&self, second: u64) -> bool {
        self.last_given.swap(second, Ordering::SeqCst) != second
    }

    /// From now on the daemon ends.
    pub fn end(&self) {
        self.is_ending.store(true, Ordering::SeqCst);
        let _ = self.waker.wake();
    }

    /// Whether the daemon ends.
    pub fn is_ending(&self) -> bool {
        self.is_ending.load(Ordering::SeqCst)
    }

    /// Waits for a client; none where the daemon ends.
    fn await_client(&self, attendance: &mut Attendance) -> Option<UnixStream> {
        for _ in 0..u64::MAX {
            if self.is_ending() {
                return None;
            }
            match self.listener.accept() {
                Ok((stream, _)) => return Some(stream),
                Err(error) if error.kind() == ErrorKind::WouldBlock => {}
                Err(_) => return None,
            }
            attendance.wait().ok()?;
        }
        None
    }

    /// Waits for a client until the entrance hears of the next ones again. Who came while it cannot is sent away.
    fn await_and_return(&self, attendance: &mut Attendance) -> Option<UnixStream> {
        for _ in 0..u64::MAX {
            let came = self.await_client(attendance);
            let is_returned = watch(&self.entrance, &self.listener, self.token).is_ok();
            if is_returned || came.is_none() {
                return came;
            }
        }
        None
    }

    /// Waits for a client in the place of the entrance; none where another session does so, or the daemon ends.
    pub fn attend(&self) -> Option<UnixStream> {
        let mut attendance = self.attendance.try_lock()?;
        let descriptor = self.listener.as_raw_fd();
        self.entrance.deregister(&mut SourceFd(&descriptor)).ok()?;
        self.await_and_return(&mut attendance)
    }
}
