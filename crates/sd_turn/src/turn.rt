//! The turn, its seats, and the value that a seat holds.
ghost use Rattle.std.specs.Prelude.{◌≡◌, ◌<◌};

use crate::chronicle::Chronicle;
use crate::plays::{Appended, Count, Give, JoinSeats, Look, Settle, SplitSeat, Take};
use crate::rule::TurnRule;
use crate::view::View;
use atomic_table::Table;
use sd_base::Memory;
use std::alloc::Global;
use std::hint::spin_loop;
use std::marker::Brand;
use std::snapshot::Snapshot;
use std::sync::Wait;
use std::sync::atomic::{AtomicU64, Ordering};
use std::time::Duration;

/// The turn word while no seat holds the turn.
pub const FREE: u64 = 0;

/// The turn word while a seat holds the turn.
pub const TAKEN: u64 = 1;

// The words of the table, and its slot.
const TURN: usize = 0;

const COUNT: usize = 1;

const VALUE: usize = 0;

/// How often `take` tries before it naps between two tries.
const SPINS: u32 = 8;

/// How often it naps before it sleeps until it is woken.
const NAPS: u32 = 2;

/// A value that one seat at a time may take.
#[derive(Drop)]
pub struct Turn<V: Chronicle> {
    table: Table<Option<V>, View<V::Entry, V::Setting>, Snapshot<V>, TurnRule<V>, Global>,
    // How many threads sleep, or are about to, until the turn is free.
    waiting: AtomicU64,
    // How many threads sleep, or are about to, until an entry is appended.
    resting: AtomicU64,
    ghost sized: { (table.shared.table_id.words ≡ 2) × (table.shared.table_id.slots ≡ 1) },
}

/// What a thread needs to take the turn. A seat belongs to one turn, and one thread at a time has it.
#[derive(Drop)]
pub struct Seat<V: Chronicle> {
    seat: atomic_table::Seat<Option<V>, View<V::Entry, V::Setting>>,
    // The next number at the seat's front.
    next: u64,
    ghost tells: { next ≡ seat.me.0.front.next },
    ghost above: { 0 < next },
}

/// The value, while a seat holds the turn. A turn whose value is dropped stays taken for ever.
#[derive(Drop)]
pub struct Held<V: Chronicle> {
    value: V,
}

/// Another seat held the turn.
#[derive(Clone, Copy, PartialEq, Eq)]
pub struct Busy;

/// A seat held the turn when it was closed. The turn and its value are gone.
#[derive(Clone, Copy, PartialEq, Eq)]
pub struct TurnHeld {
    /// The turn word that was found.
    pub found: u64,
}

impl<V: Chronicle> Turn<V> {
    ghost use Rattle.std.specs.Prelude.{◌≡◌, ◌≢◌, ◌⊎◌, ◌+◌, ◌<◌, ◌≤◌, ◌^◌, [], ◌∷◌, ◌++◌, map, Contains, IfOk, IfErr, IsOk, OnOk, OnErr};
    ghost use Rattle.sd_turn.specs.Counts.{AreDistinct, AreAllBetween};
    ghost use Rattle.sd_turn.specs.Histories.{with_entry, with_entries};
    ghost use Rattle.sd_turn.specs.Seats.{opening, front, mine, name, out, takes, found, seen, history_taken, history_now, IsOwn, HoldsNoTurn, HoldsTurn, HasTaken, IsSameSeat, SameTries, HasLooked, IsFirst, IsSplit, IsJoined};

    /// The turn of a value, free, and its first seat, whose front is the history of the value.
    pub fn new(alloc: Global, value: V) -> Result<(Turn<V>, Seat<V>), Memory>
        ensures own { IfOk result (λ made. IsOwn made.0 made.1) }
        ensures free { IfOk result (λ made. HoldsNoTurn made.1) }
        ensures history { IfOk result (λ made. V.history (opening made.0) ≡ V.history value) }
        ensures setting { IfOk result (λ made. V.setting (opening made.0) ≡ V.setting value) }
        ensures first { IfOk result (λ made. IsFirst made.1) }
        ensures front { IfOk result (λ made. front made.1 ≡ V.history value) }
        ensures fits { IfOk result (λ made. V.fits (V.setting (opening made.0)) (front made.1)) }
    {
        let next = value.next_number();
        let about = Snapshot::of(&value);
        let mut slots = Vec::new(alloc);
        slots.push(Some(value))?;
        let Ok((table, seat)) = Table::new(alloc, &[FREE, next - 1], slots, &about) else {
            return Err(Memory);
        };
        Ok((
            Turn {
                table,
                waiting: AtomicU64::new(0),
                resting: AtomicU64::new(0),
            },
            Seat { seat, next },
        ))
    }

    /// Tries once to take the turn, and waits for nobody.
    pub fn try_take(&self, seat: &mut Seat<V>) -> Result<Held<V>, Busy>
        requires own { IsOwn self.now seat.old }
        requires free { HoldsNoTurn seat.old }
        ensures own { IsOwn self.now seat.new }
        ensures same { IsSameSeat seat.old seat.new }
        ensures front { front seat.new ≡ front seat.old }
        ensures mine { mine seat.new ≡ mine seat.old }
        ensures step { takes seat.new ≡ takes seat.old + 1 }

        // The turn was free, and the value's history follows all that the seat knew.
        ensures found { OnOk result (found seat.new ≡ FREE) }
        ensures taken { IfOk result (λ held. HasTaken seat.new (V.history held.value)) }
        ensures setting { IfOk result (λ held. V.setting held.value ≡ V.setting (opening self.now)) }
        ensures follows { IfOk result (λ held.
            V.follows (V.setting (opening self.now)) (front seat.old) (V.history held.value)) }
        ensures fits { IfOk result (λ held.
            V.fits (V.setting (opening self.now)) (V.history held.value)) }

        // The turn was taken.
        ensures busy { OnErr result ((found seat.new ≢ FREE) × HoldsNoTurn seat.new) }
    {
        let shared = &self.table.shared;
        if shared.compare_exchange::<Take<V>>(&mut seat.seat, TURN, FREE, TAKEN) != FREE {
            return Err(Busy);
        }
        let value = shared.exchange(&mut seat.seat, VALUE, None).unwrap();
        Ok(Held { value })
    }

    /// Takes the turn, however often it has to try.
    ///
    /// Between two tries it looks at the turn word for a little while at first, then it naps for some microseconds, and
    /// then it sleeps until a seat that gives the turn back wakes it. Once woken it begins again: the turn is mostly taken
    /// before it runs, and who slept again at once would wait long.
    pub fn take<R: Wait>(&self, rt: &R, seat: &mut Seat<V>) -> Held<V>
        requires own { IsOwn self.now seat.old }
        requires free { HoldsNoTurn seat.old }
        ensures own { IsOwn self.now seat.new }
        ensures same { IsSameSeat seat.old seat.new }
        ensures front { front seat.new ≡ front seat.old }
        ensures mine { mine seat.new ≡ mine seat.old }
        ensures step { takes seat.old < takes seat.new }
        ensures found { found seat.new ≡ FREE }
        ensures taken { HasTaken seat.new (V.history result.value) }
        ensures setting { V.setting result.value ≡ V.setting (opening self.now) }
        ensures follows { V.follows (V.setting (opening self.now)) (front seat.old) (V.history result.value) }
        ensures fits { V.fits (V.setting (opening self.now)) (V.history result.value) }
    {
        let mut tries = 0u32;
        for _ in rt.forever() {
            if let Ok(held) = self.try_take(seat) {
                return held;
            }
            tries = self.pause(rt, tries);
        }
        unreachable!()
    }

    // No system call where nobody rests.
    fn wake_rested(&self) {
        if self.resting.load(Ordering::SeqCst) > 0 {
            self.table.shared.wake_one(COUNT);
        }
    }

    // No system call where nobody sleeps until the turn is free.
    fn wake_waiting(&self) {
        if self.waiting.load(Ordering::SeqCst) > 0 {
            self.table.shared.wake_one(TURN);
        }
    }

    /// Lets a moment pass after so many tries in vain: it spins, then it naps, then it sleeps until it is woken. The result
    /// is how many tries count afterwards.
    fn pause<R: Wait>(&self, rt: &R, tries: u32) -> u32 {
        if tries < SPINS {
            self.spin(tries);
            return tries + 1;
        }
        if tries < SPINS + NAPS {
            let nap = Duration::from_micros(1 << (tries - SPINS));
            self.table.shared.park_timeout(rt, TURN, TAKEN as u32, nap);
            return tries + 1;
        }
        self.sleep(rt, &self.waiting, TURN, TAKEN as u32);
        0
    }

    // Sleeps, counted among these sleepers, while the word ends in these bits.
    fn sleep<R: Wait>(&self, rt: &R, sleepers: &AtomicU64, word: usize, bits: u32)
        requires { word < 2 }
    {
        sleepers.fetch_add(1, Ordering::SeqCst);
        self.table.shared.park(rt, word, bits);
        sleepers.fetch_sub(1, Ordering::SeqCst);
    }

    // Only reads the turn word, so that the holder's cache line is left alone.
    fn spin(&self, tries: u32) {
        for _ in 0..1 << tries.min(6) {
            if self.table.shared.peek(TURN) == FREE {
                return;
            }
            spin_loop();
        }
    }

    /// Gives the entry that was put behind the held history its number, and wakes one seat that rests.
    ///
    /// Each entry that is put there has an `append` of its own, before the next is put.
    pub fn append(&self, seat: &mut Seat<V>, held: &mut Held<V>)
        requires own { IsOwn self.now seat.old }
        requires holds { HoldsTurn seat.old }
        requires grown { (e : V.Entry)
            × (V.history held.old.value ≡ with_entry (history_now seat.old) e)
            × (V.number e ≡ (history_now seat.old).next) }
        ensures own { IsOwn self.now seat.new }
        ensures same { IsSameSeat seat.old seat.new }
        ensures tries { SameTries seat.old seat.new }
        ensures front { front seat.new ≡ front seat.old }
        ensures mine { (e : V.Entry)
            → V.history held.old.value ≡ with_entry (history_now seat.old) e
            → mine seat.new ≡ mine seat.old ++ e ∷ [] }
        ensures holds { HoldsTurn seat.new }
        ensures taken { history_taken seat.new ≡ history_taken seat.old }
        ensures now { history_now seat.new ≡ V.history held.old.value }
        ensures held { held.new ≡ held.old }
    {
        // The held value has a next number, so the count word does not wrap.
        held.value.next_number();
        self.count::<Brand>(seat, held);
        self.wake_rested();
    }

    // The entry that J has, the only one, becomes the seat's own. The proof of a call picks it from `_held`.
    fn count<J: Appended<V::Entry>>(&self, seat: &mut Seat<V>, _held: &Held<V>)
        requires own { IsOwn self.now seat.old }
        requires holds { HoldsTurn seat.old }
        requires grown { (e : V.Entry)
            × (J.entries ≡ e ∷ [])
            × (V.number e ≡ (history_now seat.old).next)
            × ((history_now seat.old).next < 2 ^ 64) }
        ensures own { IsOwn self.now seat.new }
        ensures same { IsSameSeat seat.old seat.new }
        ensures tries { SameTries seat.old seat.new }
        ensures front { front seat.new ≡ front seat.old }
        ensures mine { mine seat.new ≡ mine seat.old ++ J.entries }
        ensures holds { HoldsTurn seat.new }
        ensures taken { history_taken seat.new ≡ history_taken seat.old }
        ensures now { history_now seat.new ≡ with_entries (history_now seat.old) J.entries }
    {
        self.table
            .shared
            .fetch_add::<Count<V, J>>(&mut seat.seat, COUNT, 1);
    }

    /// Gives the turn back, with the value, and wakes one seat that sleeps in `take`. The value's history is then the seat's front.
    pub fn give(&self, seat: &mut Seat<V>, held: Held<V>)
        requires own { IsOwn self.now seat.old }
        requires holds { HoldsTurn seat.old }
        requires setting { V.setting held.value ≡ V.setting (opening self.now) }
        requires follows { V.follows (V.setting (opening self.now)) (history_taken seat.old) (V.history held.value) }
        requires next { (V.history held.value).next ≡ (history_now seat.old).next }
        ensures own { IsOwn self.now seat.new }
        ensures free { HoldsNoTurn seat.new }
        ensures same { IsSameSeat seat.old seat.new }
        ensures tries { SameTries seat.old seat.new }
        ensures mine { mine seat.new ≡ mine seat.old }
        ensures front { front seat.new ≡ V.history held.value }
        ensures follows { V.follows (V.setting (opening self.now)) (front seat.old) (front seat.new) }
        ensures fits { V.fits (V.setting (opening self.now)) (front seat.new) }
    {
        let shared = &self.table.shared;
        let next = held.value.next_number();
        shared.exchange(&mut seat.seat, VALUE, Some(held.value));
        shared.store::<Give<V>>(&mut seat.seat, TURN, FREE);
        seat.next = next;
        self.wake_waiting();
    }

    /// A new seat with the same front, and no entries of its own.
    pub fn split(&self, seat: &mut Seat<V>) -> Seat<V>
        requires own { IsOwn self.now seat.old }
        requires free { HoldsNoTurn seat.old }
        ensures own { IsOwn self.now seat.new × IsOwn self.now result }
        ensures free { HoldsNoTurn seat.new × HoldsNoTurn result }
        ensures seats { IsSplit seat.old seat.new result }
        ensures out { Contains (out seat.new) (name result) }
    {
        let next = seat.next;
        Seat {
            seat: self.table.shared.split_seat::<SplitSeat>(&mut seat.seat),
            next,
        }
    }

    /// Ends a seat that is out. The other has then the entries of both, and the later front.
    pub fn join(&self, seat: &mut Seat<V>, other: Seat<V>)
        requires own { IsOwn self.now seat.old × IsOwn self.now other }
        requires free { HoldsNoTurn seat.old × HoldsNoTurn other }
        requires out { Contains (out seat.old) (name other) }
        ensures own { IsOwn self.now seat.new }
        ensures free { HoldsNoTurn seat.new }
        ensures seat { IsJoined seat.old other seat.new }
        ensures apart { AreDistinct (map V.number (mine seat.new)) }
        ensures front { (front seat.new ≡ front seat.old) ⊎ (front seat.new ≡ front other) }
        ensures follows { V.follows (V.setting (opening self.now)) (front seat.old) (front seat.new) }
        ensures follows_other { V.follows (V.setting (opening self.now)) (front other) (front seat.new) }
    {
        let Seat { seat: theirs, next } = other;
        let shared = &self.table.shared;
        let own = seat.next;
        shared.join_seat::<JoinSeats>(&mut seat.seat, theirs);
        shared.load::<Settle<V>>(&mut seat.seat, COUNT);
        seat.next = own.max(next);
    }

    /// Sleeps until an entry was appended that the seat's front does not have. First it wakes another seat that rests, so that a wake is passed on.
    pub fn rest<R: Wait>(&self, rt: &R, seat: &mut Seat<V>)
        requires own { IsOwn self.now seat.old }
        requires free { HoldsNoTurn seat.old }
        ensures own { IsOwn self.now seat.new }
        ensures free { HoldsNoTurn seat.new }
        ensures same { IsSameSeat seat.old seat.new }
        ensures tries { SameTries seat.old seat.new }
        ensures front { front seat.new ≡ front seat.old }
        ensures mine { mine seat.new ≡ mine seat.old }
        ensures later { (front seat.new).next ≤ seen seat.new }
    {
        self.table.shared.wake_one(COUNT);
        let behind = seat.next - 1;
        for _ in rt.forever() {
            let count = self.look(seat);
            if count != behind {
                return;
            }
            self.sleep(rt, &self.resting, COUNT, (count % (1 << 32)) as u32);
        }
        unreachable!()
    }

    // The number of the last entry.
    fn look(&self, seat: &mut Seat<V>) -> u64
        requires { IsOwn self.now seat.old }
        ensures own { IsOwn self.now seat.new }
        ensures looked { HasLooked seat.old seat.new result }
        ensures least { (front seat.new).next ≤ result + 1 }
    {
        self.table.shared.load::<Look<V>>(&mut seat.seat, COUNT)
    }

    /// Ends the turn and gives its value. Where another seat holds the turn, the value is gone with it.
    pub fn close(self, seat: Seat<V>) -> Result<V, TurnHeld>
        requires own { IsOwn self seat }
        requires free { HoldsNoTurn seat }
        ensures setting { IfOk result (λ value. V.setting value ≡ V.setting (opening self)) }
        ensures follows { IfOk result (λ value.
            V.follows (V.setting (opening self)) (front seat) (V.history value)) }
        ensures fits { IfOk result (λ value. V.fits (V.setting (opening self)) (V.history value)) }
        ensures held { IfErr result (λ end. end.found ≡ TAKEN) }

        // The first seat, once no other is out, has the value, and each number that was given.
        ensures first { name seat ≡ [] → out seat ≡ [] → IsOk result }
        ensures all { name seat ≡ [] → out seat ≡ [] → IfOk result (λ value.
            AreAllBetween (V.history (opening self)).next (V.history value).next (map V.number (mine seat))) }
    {
        let Turn {
            table,
            waiting: _,
            resting: _,
        } = self;
        let Seat { seat, next: _ } = seat;
        let mut closed = table.close_with(seat);
        let found = closed.word(TURN);
        let slot = closed.take(VALUE);
        closed.free();
        if found != FREE {
            return Err(TurnHeld { found });
        }
        Ok(slot.unwrap())
    }
}

impl<V: Chronicle> Held<V> {
    ghost use Rattle.std.specs.Prelude.{◌≡◌};
    ghost use Rattle.std.specs.Borrow.{Lends, sem};
    ghost use Rattle.sd_turn.specs.contracts.turn.Held.{the_row};

    /// The value, to be read and changed.
    pub fn value(&mut self) -> &mut V
        ensures* writes_back { sem 𝓛 (Lends (the_row V.row V.Entry.row V.Setting.row) V.row self.entry result (λ w. record { value = w })) }
        ensures value { result.now ≡ self.old.value }
    {
        &mut self.value
    }
}
