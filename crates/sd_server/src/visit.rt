//! One client's visit.
ghost use Rattle.std.specs.Prelude.{◌≡◌};
ghost use Rattle.sd_desk.specs.Desks.{IsOwn, HoldsNoTurn};

use sd_base::{Memory, Sink, Source};
use sd_clock::{Clock, Gate};
use sd_conf::Config;
use sd_desk::{Desk, DeskSeat};
use sd_dial::Dialer;
use sd_session::session;
use std::alloc::Global;
use std::sync::Wait;
use std::sync::atomic::{AtomicUsize, Ordering};

/// What makes the things that a session works with.
pub trait Equipment {
    type Dial: Dialer + Send + Drop;

    type Time: Clock + Send + Drop;

    type Watch: Gate + Send + Drop;

    /// A dialer of the servers of a configuration.
    fn dialer(&mut self, config: &Config) -> Result<Self::Dial, Memory>;

    /// A clock.
    fn clock(&mut self) -> Self::Time;

    /// What is called before a directory is asked.
    fn gate(&mut self) -> Self::Watch;

    /// Is told, after each client that is let in, how many entries the journal has, and how many it may have.
    fn note_room(&mut self, _entries: usize, _limit: u32) {}
}

/// A client, with the seat and the things that its session works with.
#[derive(Drop)]
pub struct Visit<'d, S: Drop, W: Drop, D: Drop, C: Drop, G: Drop> {
    pub desk: &'d Desk,
    pub seat: DeskSeat,
    pub source: S,
    pub sink: W,
    pub dialer: D,
    pub clock: C,
    pub gate: G,
    ghost own: { IsOwn desk.now seat },
    ghost free: { HoldsNoTurn seat },
}

impl<'d, S: Source + Drop, W: Sink + Drop, D: Dialer + Drop, C: Clock + Drop, G: Gate + Drop> Visit<
    'd,
    S,
    W,
    D,
    C,
    G,
> {
    /// Serves the client to its end.
    pub fn run<R: Wait>(self, rt: &R, alloc: Global) {
        let Visit {
            desk,
            seat,
            mut source,
            mut sink,
            mut dialer,
            mut clock,
            gate,
        } = self;
        let _ = session(
            rt,
            alloc,
            desk,
            seat,
            &mut source,
            &mut sink,
            &mut dialer,
            &mut clock,
            &gate,
        );
    }
}

/// A place among the sessions that run in threads. It is given back when it is dropped.
pub struct Place<'c> {
    running: &'c AtomicUsize,
}

impl<'c> Place<'c> {
    /// A place, where fewer than so many sessions run.
    pub fn take(running: &'c AtomicUsize, most: usize) -> Option<Place<'c>> {
        if running.fetch_add(1, Ordering::SeqCst) < most {
            return Some(Place { running });
        }
        running.fetch_sub(1, Ordering::SeqCst);
        None
    }
}

impl<'c> Drop for Place<'c> {
    fn drop(self) {
        let Place { running } = self;
        running.fetch_sub(1, Ordering::SeqCst);
    }
}
