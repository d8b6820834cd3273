//! The doors that clients come through.
ghost use Rattle.std.specs.Prelude.{◌≡◌, false, IfOk};

use crate::connection::{ClientSink, ClientSource};
use crate::entrance::Entrance;
use sd_doors::{DoorFailed, Doors};
use std::alloc::{Alloc, Global};
use std::fs::Files;
use std::io;
use std::io::Eprint;
use std::net::Net;
use std::sync::Wait;
use std::time::Clock;

/// Two doors on Unix sockets: the administrator's at a path, with mode 0600, and beside it at `PATH.public`,
/// with mode 0666, one for every user of the host. A client is given once a frame of it is whole and a place is free. At most 704
/// clients wait; of more than these the one that has gone longest without a whole frame is sent away.
#[derive(Drop)]
pub struct UnixDoors<'r, R: Files + Net + Clock> {
    entrance: Entrance<'r, R>,
    gave: bool,
    faults: u64,
}

impl<'r, R: Files + Net + Clock + Wait + Eprint + Alloc<A = Global>> UnixDoors<'r, R> {
    /// Opens both doors.
    pub fn open(rt: &'r R, path: &str) -> io::Result<UnixDoors<'r, R>>
        ensures gave { IfOk result (λ doors. ⟦<UnixDoors<'r, R> as Doors>⟧.gave doors ≡ false) }
        ensures faults { IfOk result (λ doors. ⟦<UnixDoors<'r, R> as Doors>⟧.faults doors ≡ 0) }
    {
        Ok(UnixDoors {
            entrance: Entrance::open(rt, path)?,
            gave: false,
            faults: 0,
        })
    }

    /// How many calls have failed.
    pub fn faults(&self) -> u64
        ensures { result ≡ ⟦<UnixDoors<'r, R> as Doors>⟧.faults self.now }
    {
        self.faults
    }

    /// Whether a connection was given.
    pub fn has_given(&self) -> bool
        ensures { result ≡ ⟦<UnixDoors<'r, R> as Doors>⟧.gave self.now }
    {
        self.gave
    }

    /// Closes both doors, and takes their sockets away.
    pub fn close(self) {
        self.entrance.close();
    }
}

/// No connection is ever told to be the last: clients may always come.
impl<'r, R: Files + Net + Clock + Wait + Eprint + Alloc<A = Global>> Doors for UnixDoors<'r, R> {
    type In = ClientSource<'r, R>;

    type Out = ClientSink<'r, R>;

    ghost gave = { λ d. d.gave };

    ghost ended = { λ _. false };

    ghost faults = { λ d. d.faults };

    /// Where the system has no descriptor left for a client, one that waits is sent away.
    fn accept(&mut self) -> Result<Option<(ClientSource<'r, R>, ClientSink<'r, R>)>, DoorFailed> {
        match self.entrance.next_client() {
            Ok(client) => {
                self.gave = true;
                Ok(Some(client))
            }
            Err(_) => {
                self.faults = self.faults.saturating_add(1);
                Err(DoorFailed)
            }
        }
    }

    /// Connections that were given end as soon as no frame of their clients is served.
    fn wind_down(&mut self) {
        self.entrance.wind_down();
    }
}
