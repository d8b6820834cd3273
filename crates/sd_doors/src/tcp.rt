//! Doors for clients over TCP.
ghost use Rattle.std.specs.Prelude.{◌≡◌, false, IfOk};

use crate::doors::{DoorFailed, Doors};
use sd_base::{ReaderSource, Sink, Source, WriterSink};
use std::io::ErrorKind;
use std::net::{Net, OpenListener, OpenStream, TcpListener};
use std::time::{Clock, Duration};
use std::{io, thread};

/// How long a client may send nothing while it is served, or take nothing of an answer, in seconds.
const CALL_SECONDS: u64 = 6;

/// How often it is tried to accept a connection before the doors fail.
const TRIES: u32 = 100;

/// How long to wait before the next try, in milliseconds.
const PAUSE: u64 = 100;

/// A socket that listens at an address. A client that sends nothing for six seconds, or takes nothing for as long, fails.
#[derive(Drop)]
pub struct TcpDoors<'r, R: Net + Clock> {
    rt: &'r R,
    listener: R::Listener,
    gave: bool,
    faults: u64,
}

/// What a client sends, and where what it is sent goes. Small pieces are sent at once.
fn connection<T: OpenStream + io::Read + io::Write + Drop>(
    stream: T,
) -> io::Result<(ReaderSource<T>, WriterSink<T>)>
    ensures { IfOk result (λ made. (⟦<ReaderSource<T> as Source>⟧.faults made.0 ≡ 0) × (⟦<WriterSink<T> as Sink>⟧.faults made.1 ≡ 0)) }
{
    stream.set_nodelay(true)?;
    stream.set_read_timeout(Some(Duration::from_secs(CALL_SECONDS)))?;
    stream.set_write_timeout(Some(Duration::from_secs(CALL_SECONDS)))?;
    let out = stream.try_clone()?;
    Ok((ReaderSource::new(stream), WriterSink::new(out)))
}

impl<'r, R: Net + Clock> TcpDoors<'r, R> {
    /// Listens at an address, a host's name or its IP address, and a port: `localhost:389`. Of a name's addresses the first
    /// that can be bound is taken.
    pub fn open(rt: &'r R, address: &str) -> io::Result<TcpDoors<'r, R>>
        ensures gave { IfOk result (λ doors. ⟦<TcpDoors<'r, R> as Doors>⟧.gave doors ≡ false) }
        ensures faults { IfOk result (λ doors. ⟦<TcpDoors<'r, R> as Doors>⟧.faults doors ≡ 0) }
    {
        Ok(TcpDoors {
            rt,
            listener: TcpListener::bind(rt, address)?,
            gave: false,
            faults: 0,
        })
    }

    /// How many calls have failed.
    pub fn faults(&self) -> u64
        ensures { result ≡ ⟦<TcpDoors<'r, R> as Doors>⟧.faults self.now }
    {
        self.faults
    }

    fn try_accept(&self) -> io::Result<(ReaderSource<R::Stream>, WriterSink<R::Stream>)>
        ensures { IfOk result (λ made. (⟦<ReaderSource<R::Stream> as Source>⟧.faults made.0 ≡ 0) × (⟦<WriterSink<R::Stream> as Sink>⟧.faults made.1 ≡ 0)) }
    {
        let (stream, _) = self.listener.accept()?;
        connection(stream)
    }

    /// The next client. One that is gone before it is let in is passed over, and where the system has no descriptor left it is tried
    /// again after a pause, ten seconds in all.
    fn next_client(&self) -> io::Result<(ReaderSource<R::Stream>, WriterSink<R::Stream>)>
        ensures { IfOk result (λ made. (⟦<ReaderSource<R::Stream> as Source>⟧.faults made.0 ≡ 0) × (⟦<WriterSink<R::Stream> as Sink>⟧.faults made.1 ≡ 0)) }
    {
        for _ in 0..TRIES {
            match self.try_accept() {
                Ok(made) => return Ok(made),
                Err(_) => thread::sleep(self.rt, Duration::from_millis(PAUSE)),
            }
        }
        Err(io::Error::from(ErrorKind::Other))
    }
}

/// No connection is ever told to be the last: clients may always come.
impl<'r, R: Net + Clock> Doors for TcpDoors<'r, R> {
    type In = ReaderSource<R::Stream>;

    type Out = WriterSink<R::Stream>;

    ghost gave = { λ d. d.gave };

    ghost ended = { λ _. false };

    ghost faults = { λ d. d.faults };

    fn accept(
        &mut self,
    ) -> Result<Option<(ReaderSource<R::Stream>, WriterSink<R::Stream>)>, DoorFailed> {
        match self.next_client() {
            Ok(client) => {
                self.gave = true;
                Ok(Some(client))
            }
            Err(_) => {
                self.faults = self.faults.saturating_add(1);
                Err(DoorFailed)
            }
        }
    }
}
