// A list of numbers that threads append to by turns.
ghost use Rattle.std.specs.Prelude.{◌≡◌, ℕ, ◌+◌, ◌<◌, ◌^◌, List, [], ◌∷◌, ◌++◌, map, IfOk, IfSome, IfNone};
ghost use Rattle.sd_turn.specs.Counts.{AreAllBetween};
ghost use Rattle.sd_turn.specs.Seats.{mine, IsOwn, HoldsNoTurn, HasTaken, IsSameSeat};
ghost use Rattle.std.proofs.Common.{sym, ap, ◌∙◌, append_assoc, append-nil};

use sd_base::Memory;
use sd_turn::{Busy, Chronicle, Held, Seat, TAKEN, Turn, TurnHeld};
use std::alloc::Global;
use std::sync::Wait;
use std::sync::atomic::{AtomicBool, Ordering};
use std::thread;
use std::thread::{Threads, join};
use std::time::{Clock, Duration};

/// Numbers, of which each is the one that was next. One list follows another that it begins with.
#[derive(Drop)]
struct Numbers {
    items: Vec<u64>,
    next: u64,
    ghost above: { 0 < next },
}

impl Chronicle for Numbers {
    type Entry = u64;

    type Setting = ();

    ghost setting = { λ _. tt };

    ghost history = { λ v. record { entries = v.items.items; next = v.next } };

    ghost number = { λ e. e };

    ghost follows = { λ _ x y. (more : List ℕ) × (y.entries ≡ x.entries ++ more) };

    ghost fits = { λ _ _. Unit {0} };

    fn next_number(&self) -> u64 {
        self.next
    }

    ghost follows_itself = { λ _ x. ([], sym (append-nil x.entries)) };

    ghost follows_through = { λ _ x y z p q. (p.0 ++ q.0, q.1 ∙ (ap (λ es. es ++ q.0) p.1 ∙ append_assoc x.entries p.0 q.0)) };
}

impl Numbers {
    fn new(alloc: Global) -> Numbers
        ensures { (result.items.items ≡ []) × (result.next ≡ 1) }
    {
        Numbers {
            items: Vec::new(alloc),
            next: 1,
        }
    }

    /// Puts the next number behind the others, if there is memory and a number after it.
    fn push(&mut self) -> Option<u64>
        ensures some { IfSome result (λ n. (n ≡ self.old.next) × (self.new.items.items ≡ self.old.items.items ++ n ∷ []) × (self.new.next ≡ self.old.next + 1)) }
        ensures none { IfNone result ((self.new.items.items ≡ self.old.items.items) × (self.new.next ≡ self.old.next)) }
    {
        let number = self.next;
        let next = number.checked_add(1)?;
        self.items.push(number).ok()?;
        self.next = next;
        Some(number)
    }
}

/// Appends the next number to a held value, and gives the turn back.
fn append(turn: &Turn<Numbers>, seat: &mut Seat<Numbers>, mut held: Held<Numbers>) -> Option<u64>
    requires own { IsOwn turn.now seat.old }
    requires holds { HasTaken seat.old (⟦<Numbers as Chronicle>⟧.history held.value) }
    ensures own { IsOwn turn.now seat.new × HoldsNoTurn seat.new × IsSameSeat seat.old seat.new }
    ensures some { IfSome result (λ n. mine seat.new ≡ mine seat.old ++ n ∷ []) }
    ensures none { IfNone result (mine seat.new ≡ mine seat.old) }
{
    let Some(number) = held.value().push() else {
        turn.give(seat, held);
        return None;
    };
    turn.append(seat, &mut held);
    turn.give(seat, held);
    Some(number)
}

/// Takes the turn `count` times, and tells the numbers that it appended.
fn append_each<R: Wait>(
    rt: &R,
    alloc: Global,
    turn: &Turn<Numbers>,
    mut seat: Seat<Numbers>,
    count: u32,
) -> (Seat<Numbers>, Result<Vec<u64>, Memory>)
    requires own { IsOwn turn.now seat }
    requires free { HoldsNoTurn seat }
    ensures own { IsOwn turn.now result.0 × HoldsNoTurn result.0 × IsSameSeat seat result.0 }
    ensures mine { IfOk result.1 (λ numbers. mine result.0 ≡ mine seat ++ numbers.items) }
{
    let mut numbers = Vec::new(alloc);
    for _ in 0..count {
        let held = turn.take(rt, &mut seat);
        let Some(number) = append(turn, &mut seat, held) else {
            return (seat, Err(Memory));
        };
        if numbers.push(number).is_err() {
            return (seat, Err(Memory));
        }
    }
    (seat, Ok(numbers))
}

/// Two threads append by turns: the numbers that each appended, and the value at the end.
fn two<R: Threads + Wait + Sync>(
    rt: &R,
    alloc: Global,
    count: u32,
) -> Result<(Vec<u64>, Vec<u64>, Numbers), Memory>
    ensures { IfOk result (λ r. AreAllBetween 1 r.2.next (r.0.items ++ r.1.items)) }
{
    let (turn, mut first) = Turn::new(alloc, Numbers::new(alloc))?;
    let second = turn.split(&mut first);
    let shared = &turn;
    let ((mut first, ones), (second, others)) = join(
        rt,
        || -> (Seat<Numbers>, Result<Vec<u64>, Memory>)
            requires { IsOwn shared.now first × HoldsNoTurn first }
            ensures { IsOwn shared.entry.now result.0 × HoldsNoTurn result.0 × IsSameSeat first result.0 × IfOk result.1 (λ numbers. mine result.0 ≡ mine first ++ numbers.items) }
        { append_each(rt, alloc, shared, first, count) },
        || -> (Seat<Numbers>, Result<Vec<u64>, Memory>)
            requires { IsOwn shared.now second × HoldsNoTurn second }
            ensures { IsOwn shared.entry.now result.0 × HoldsNoTurn result.0 × IsSameSeat second result.0 × IfOk result.1 (λ numbers. mine result.0 ≡ mine second ++ numbers.items) }
        { append_each(rt, alloc, shared, second, count) },
    );
    turn.join(&mut first, second);
    let value = turn.close(first).unwrap();
    Ok((ones?, others?, value))
}

/// Keeps the turn for a while, then appends until the other thread is done.
fn keep_and_append<R: Wait + Clock>(
    rt: &R,
    turn: &Turn<Numbers>,
    mut seat: Seat<Numbers>,
    held: Held<Numbers>,
    done: &AtomicBool,
) -> Seat<Numbers>
    requires own { IsOwn turn.now seat }
    requires holds { HasTaken seat (⟦<Numbers as Chronicle>⟧.history held.value) }
    ensures own { IsOwn turn.now result × HoldsNoTurn result × IsSameSeat seat result }
{
    thread::sleep(rt, Duration::from_millis(20));
    append(turn, &mut seat, held);
    for _ in rt.forever() {
        if done.load(Ordering::SeqCst) {
            break;
        }
        thread::sleep(rt, Duration::from_millis(1));
        let held = turn.take(rt, &mut seat);
        append(turn, &mut seat, held);
    }
    seat
}

/// Waits for the turn, and then for another entry.
fn take_and_rest<R: Wait>(
    rt: &R,
    turn: &Turn<Numbers>,
    mut seat: Seat<Numbers>,
    done: &AtomicBool,
) -> Seat<Numbers>
    requires own { IsOwn turn.now seat × HoldsNoTurn seat }
    ensures own { IsOwn turn.now result × HoldsNoTurn result × IsSameSeat seat result }
{
    let held = turn.take(rt, &mut seat);
    append(turn, &mut seat, held);
    turn.rest(rt, &mut seat);
    done.store(true, Ordering::SeqCst);
    seat
}

/// One thread waits for the other, at `take` and at `rest`: the value at the end.
fn wait_for_another<R: Threads + Wait + Clock + Sync>(
    rt: &R,
    alloc: Global,
) -> Result<Numbers, Memory> {
    let (turn, mut first) = Turn::new(alloc, Numbers::new(alloc))?;
    let second = turn.split(&mut first);
    let held = turn.take(rt, &mut first);
    let shared = &turn;
    let done = AtomicBool::new(false);
    let (mut first, second) = join(
        rt,
        || -> Seat<Numbers>
            requires { IsOwn shared.now first × HasTaken first (record { entries = held.value.items.items; next = held.value.next }) }
            ensures { IsOwn shared.entry.now result × HoldsNoTurn result × IsSameSeat first result }
        { keep_and_append(rt, shared, first, held, &done) },
        || -> Seat<Numbers>
            requires { IsOwn shared.now second × HoldsNoTurn second }
            ensures { IsOwn shared.entry.now result × HoldsNoTurn result × IsSameSeat second result }
        { take_and_rest(rt, shared, second, &done) },
    );
    turn.join(&mut first, second);
    Ok(turn.close(first).unwrap())
}

/// Whether these are the numbers from 1 on.
fn are_in_order(numbers: &[u64]) -> bool {
    numbers.iter().zip(1u64..).all(|(number, at)| *number == at)
}

fn print_line(out: &mut Vec<u8>, words: &str) -> Result<(), Memory> {
    out.extend_from_slice(words.as_bytes())?;
    out.push(b'\n')?;
    Ok(())
}

fn word(is: bool) -> &'static str {
    if is { "yes" } else { "no" }
}

/// Two threads append 300 numbers each.
fn print_two<R: Threads + Wait + Sync>(
    rt: &R,
    alloc: Global,
    out: &mut Vec<u8>,
) -> Result<(), Memory> {
    let (ones, others, value) = two(rt, alloc, 300)?;
    let mut numbers = Vec::new(alloc);
    numbers.extend_from_slice(ones.as_slice())?;
    numbers.extend_from_slice(others.as_slice())?;
    numbers.sort()?;
    let (first, second, next) = (ones.len(), others.len(), value.next);
    let is_all = word(are_in_order(numbers.as_slice()) && value.items == numbers);
    let line = format!(in alloc;
        "{first} and {second} numbers, the next is {next}; each once, as the value has them: {is_all}"
    )?;
    print_line(out, line.as_str())
}

/// A thread waits for the turn, and then for an entry of another.
fn print_waits<R: Threads + Wait + Clock + Sync>(
    rt: &R,
    alloc: Global,
    out: &mut Vec<u8>,
) -> Result<(), Memory> {
    let value = wait_for_another(rt, alloc)?;
    let is_enough = word(value.items.len() >= 3);
    let is_in_order = word(are_in_order(value.items.as_slice()));
    let line = format!(in alloc; "three numbers or more: {is_enough}; in order: {is_in_order}")?;
    print_line(out, line.as_str())
}

/// A number that was appended, or none.
fn print_number(alloc: Global, out: &mut Vec<u8>, number: Option<u64>) -> Result<(), Memory> {
    match number {
        Some(number) => print_line(out, format!(in alloc; "appended {number}")?.as_str()),
        None => print_line(out, "appended nothing"),
    }
}

/// What two seats that try a turn are given.
#[derive(Clone, Copy)]
struct Tried {
    /// The number that the first seat appended, with the turn free.
    free: Option<u64>,
    /// Whether the turn is busy for the second once the first has taken it.
    is_busy: bool,
    /// The number that the first appended then.
    taken: Option<u64>,
    /// The number that the second appended, with the turn given back.
    given_back: Option<u64>,
    /// Whether the value has the three at the end.
    has_all: bool,
}

/// Takes a turn, if it is free, and appends.
fn try_append(turn: &Turn<Numbers>, seat: &mut Seat<Numbers>) -> Option<u64>
    requires { IsOwn turn.now seat.old × HoldsNoTurn seat.old }
    ensures { IsOwn turn.now seat.new × HoldsNoTurn seat.new × IsSameSeat seat.old seat.new }
{
    let held = turn.try_take(seat).ok()?;
    append(turn, seat, held)
}

/// Whether another seat has taken the turn.
fn is_busy(turn: &Turn<Numbers>, seat: &mut Seat<Numbers>) -> bool
    requires { IsOwn turn.now seat.old × HoldsNoTurn seat.old }
    ensures { IsOwn turn.now seat.new × HoldsNoTurn seat.new × IsSameSeat seat.old seat.new }
{
    match turn.try_take(seat) {
        Ok(held) => {
            turn.give(seat, held);
            false
        }
        Err(Busy) => true,
    }
}

/// Two seats try a turn that is free, taken, and given back.
fn tries<R: Wait>(rt: &R, alloc: Global) -> Result<Tried, Memory> {
    let (turn, mut first) = Turn::new(alloc, Numbers::new(alloc))?;
    let mut second = turn.split(&mut first);
    let free = try_append(&turn, &mut first);
    let held = turn.take(rt, &mut first);
    let is_busy = is_busy(&turn, &mut second);
    let taken = append(&turn, &mut first, held);
    let given_back = try_append(&turn, &mut second);
    turn.rest(rt, &mut first);
    turn.join(&mut first, second);
    let value = turn.close(first).unwrap();
    Ok(Tried {
        free,
        is_busy,
        taken,
        given_back,
        has_all: value.items.as_slice() == [1, 2, 3].as_slice(),
    })
}

fn print_tries<R: Wait>(rt: &R, alloc: Global, out: &mut Vec<u8>) -> Result<(), Memory> {
    let tried = tries(rt, alloc)?;
    print_number(alloc, out, tried.free)?;
    let is_busy = word(tried.is_busy);
    print_line(
        out,
        format!(in alloc; "a taken turn is busy: {is_busy}")?.as_str(),
    )?;
    print_number(alloc, out, tried.taken)?;
    print_number(alloc, out, tried.given_back)?;
    let has_all = word(tried.has_all);
    print_line(
        out,
        format!(in alloc; "the value has all three: {has_all}")?.as_str(),
    )
}

/// Whether a turn that one seat holds is closed by another without its value.
fn closes_empty<R: Wait>(rt: &R, alloc: Global) -> Result<bool, Memory> {
    let (turn, mut first) = Turn::new(alloc, Numbers::new(alloc))?;
    let second = turn.split(&mut first);
    let held = turn.take(rt, &mut first);
    let is_empty = turn.close(second).err() == Some(TurnHeld { found: TAKEN });
    drop(held);
    Ok(is_empty)
}

fn print_held<R: Wait>(rt: &R, alloc: Global, out: &mut Vec<u8>) -> Result<(), Memory> {
    let is_empty = word(closes_empty(rt, alloc)?);
    let line = format!(in alloc;
        "a turn that another seat holds closes without its value: {is_empty}"
    )?;
    print_line(out, line.as_str())
}

/// Prints what seats of a turn are given.
pub fn print_turns<R: Threads + Wait + Clock + Sync>(
    rt: &R,
    alloc: Global,
    out: &mut Vec<u8>,
) -> Result<(), Memory> {
    print_two(rt, alloc, out)?;
    print_waits(rt, alloc, out)?;
    print_tries(rt, alloc, out)?;
    print_held(rt, alloc, out)
}
