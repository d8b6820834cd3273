//! Clients that are connected and are not served: they wait for bytes, or for room for a reply.
ghost use Rattle.std.specs.Prelude.{◌≡◌, ◌↔◌, ◌<◌, ◌≤◌, ◌-◌, ◌==◌, [], insert, length, min, position, nat_le, nat_lt, IsTrue, IfOk};
ghost use Rattle.std.specs.Option.{ForSome};
ghost use Rattle.sd_unix.specs.Lobbies as lobbies;

use sd_base::Memory;
use std::alloc::Global;
use std::marker::Model;

/// The most clients that wait in a lobby.
pub const MOST_GUESTS: usize = 704;

/// How long a client may wait between two frames, in milliseconds.
pub const IDLE_MILLIS: u64 = 60000;

/// How long a frame may take from its first byte to its last, and a reply, in milliseconds.
pub const WHOLE_MILLIS: u64 = 10000;

/// What a client waits for.
#[derive(Clone, Copy, PartialEq, Eq)]
pub enum Stage {
    /// The first byte of a frame.
    Between,
    /// The rest of a frame.
    Frame,
    /// Room for the rest of a reply.
    Reply,
}

/// A client that is connected, under a number that no other guest has.
#[derive(Drop)]
pub struct Guest<C: Drop> {
    pub client: C,
    pub number: usize,
    /// Its place among all clients in the order in which their last frames came whole, or they came.
    pub order: u64,
    pub stage: Stage,
    /// The millisecond since which it has been at this stage.
    pub since: u64,
}

/// The clients that wait, those in front that have gone longest without a whole frame.
#[derive(Drop)]
pub struct Lobby<C: Drop> {
    guests: Vec<Guest<C>>,
}

impl<C: Drop> Model for Lobby<C> {
    ghost use Rattle.std.specs.Prelude.{List, ◌≤◌, vec_len, vec_capacity};
    ghost use Rattle.sd_unix.specs.declared.lobby.Guest.{Guest};

    ghost Value = { List (Guest C) };

    ghost view = { λ l. l.guests.items };

    ghost invariant = { λ l. (vec_len l.guests ≤ 704) × (704 ≤ vec_capacity l.guests) };
}

/// How long a client may be at a stage.
fn bound_of(stage: Stage) -> u64
    ensures { result ≡ lobbies.bound_of stage }
{
    match stage {
        Stage::Between => IDLE_MILLIS,
        Stage::Frame | Stage::Reply => WHOLE_MILLIS,
    }
}

impl<C: Drop> Lobby<C> {
    /// An empty lobby, with the room for every guest.
    pub fn new(alloc: Global) -> Result<Lobby<C>, Memory>
        ensures { IfOk result (λ lobby. lobby ≡ []) }
    {
        Ok(Lobby {
            guests: Vec::with_capacity(alloc, MOST_GUESTS)?,
        })
    }

    /// Whether nobody is there.
    pub fn is_empty(&self) -> bool
        ensures { IsTrue result ↔ (self.now ≡ []) }
    {
        self.guests.is_empty()
    }

    /// How many are there.
    pub fn len(&self) -> usize
        ensures { result ≡ length self.now }
    {
        self.guests.len()
    }

    /// Lets a client in. Where so many are there, the one that has gone longest without a whole frame leaves.
    pub fn admit(&mut self, guest: Guest<C>, most: usize) -> Option<Guest<C>>
        ensures left { result ≡ lobbies.sent_away (min most MOST_GUESTS) self.old }
        ensures new { lobbies.PutsInOrder guest (lobbies.with_room (min most MOST_GUESTS) self.old) self.new }
    {
        let left = self.make_room(most.min(MOST_GUESTS));
        self.put_in_order(guest);
        left
    }

    /// Makes room for one client.
    fn make_room(&mut self, most: usize) -> Option<Guest<C>>
        requires { most ≤ MOST_GUESTS }
        ensures left { result ≡ lobbies.sent_away most self.old }
        ensures new { self.new ≡ lobbies.with_room most self.old }
        ensures room { length self.new < MOST_GUESTS }
    {
        if most <= self.guests.len() {
            return self.take_first();
        }
        None
    }

    fn later_than(&self, order: u64) -> Option<usize>
        ensures place { result ≡ position (λ other. nat_lt order other.order) self.now }
        ensures within { ForSome result (λ place. place < length self.now) }
    {
        self.guests.iter().position(|other| order < other.order)
    }

    /// Puts a client in front of those whose last frames came whole later.
    fn put_in_order(&mut self, guest: Guest<C>)
        requires { length self.old < MOST_GUESTS }
        ensures { lobbies.PutsInOrder guest self.old self.new }
    {
        match self.later_than(guest.order) {
            Some(place) => self.insert_at(place, guest),
            None => self.guests.push_reserved(guest),
        }
    }

    fn insert_at(&mut self, place: usize, guest: Guest<C>)
        requires within { place < length self.old }
        requires room { length self.old < MOST_GUESTS }
        ensures { self.new ≡ insert self.old place guest }
    {
        if self.guests.insert(place, guest).is_err() {
            unreachable!();
        }
    }

    fn place_of(&self, number: usize) -> Option<usize>
        ensures place { result ≡ position (λ guest. guest.number == number) self.now }
        ensures within { ForSome result (λ place. place < length self.now) }
    {
        self.guests.iter().position(|guest| guest.number == number)
    }

    fn first_due(&self, now: u64) -> Option<usize>
        ensures place { result ≡ position (λ guest. nat_le (lobbies.bound_of guest.stage) (now - guest.since)) self.now }
        ensures within { ForSome result (λ place. place < length self.now) }
    {
        self.guests.iter().position(|guest| bound_of(guest.stage)
            <= now.saturating_sub(guest.since))
    }

    fn first_replying(&self) -> Option<usize>
        ensures place { result ≡ position (λ guest. lobbies.is_replying guest.stage) self.now }
        ensures within { ForSome result (λ place. place < length self.now) }
    {
        self.guests
            .iter()
            .position(|guest| matches!(guest.stage, Stage::Reply))
    }

    /// Takes the client at a place, where one is named.
    fn take_at(&mut self, place: Option<usize>) -> Option<Guest<C>>
        requires { ForSome place (λ place. place < length self.old) }
        ensures { lobbies.Takes place self.old result self.new }
    {
        match place {
            Some(place) => Some(self.guests.remove(place)),
            None => None,
        }
    }

    /// Takes the client of this number.
    pub fn take_numbered(&mut self, number: usize) -> Option<Guest<C>>
        ensures { lobbies.Takes (position (λ guest. guest.number == number) self.old) self.old result self.new }
    {
        let place = self.place_of(number);
        self.take_at(place)
    }

    /// Takes a client that has been at its stage for too long, at this millisecond.
    pub fn take_due(&mut self, now: u64) -> Option<Guest<C>>
        ensures { lobbies.Takes (position (λ guest. nat_le (lobbies.bound_of guest.stage) (now - guest.since)) self.old) self.old result self.new }
    {
        let place = self.first_due(now);
        self.take_at(place)
    }

    /// Of those that have not taken their replies, takes the one that has gone longest without a whole frame.
    pub fn take_replying(&mut self) -> Option<Guest<C>>
        ensures { lobbies.Takes (position (λ guest. lobbies.is_replying guest.stage) self.old) self.old result self.new }
    {
        let place = self.first_replying();
        self.take_at(place)
    }

    /// Takes the client that has gone longest without a whole frame.
    pub fn take_first(&mut self) -> Option<Guest<C>>
        ensures { lobbies.TakesHead self.old result self.new }
    {
        if self.guests.is_empty() {
            return None;
        }
        Some(self.guests.remove(0))
    }
}
