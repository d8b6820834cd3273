// A row: calls of two seats at one desk.
ghost use Rattle.std.specs.Prelude.{◌≡◌, IfOk};
ghost use Rattle.sd_desk.specs.Desks.{IsOwn, HoldsNoTurn, IsSameSeat};

use crate::calls::{Call, Who, event_of, read_line};
use crate::desks::opened;
use sd_base::Memory;
use sd_desk::{Desk, DeskSeat};
use sd_pieces::cut;
use sd_rules::Given;
use std::alloc::Global;
use std::fmt::Debug;
use std::sync::Wait;

/// A value as its type spells it.
fn shown<T: Debug>(alloc: Global, value: &T) -> Result<String, Memory> {
    Ok(format!(in alloc; "{value:?}")?)
}

fn no_such_call(alloc: Global) -> Result<String, Memory> {
    Ok(String::from_str(alloc, "no such call")?)
}

/// Notes the entry that a call made, and tells its number and its reply.
fn made(alloc: Global, given: Given, numbers: &mut Vec<u64>) -> Result<String, Memory> {
    let number = given.number;
    let reply = given.reply;
    numbers.push(number)?;
    Ok(format!(in alloc; "{number} {reply:?}")?)
}

fn step<R: Wait>(
    rt: &R,
    alloc: Global,
    desk: &Desk,
    seat: &mut DeskSeat,
    words: &[u8],
    numbers: &mut Vec<u64>,
) -> Result<String, Memory>
    requires { IsOwn desk.now seat.old × HoldsNoTurn seat.old }
    ensures { IsOwn desk.now seat.new × HoldsNoTurn seat.new × IsSameSeat seat.old seat.new }
{
    let Some(event) = event_of(alloc, words)? else {
        return no_such_call(alloc);
    };
    match desk.step(rt, seat, 0, event) {
        Ok(given) => made(alloc, given, numbers),
        Err(refused) => shown(alloc, &refused.fault),
    }
}

fn try_step(
    alloc: Global,
    desk: &Desk,
    seat: &mut DeskSeat,
    words: &[u8],
    numbers: &mut Vec<u64>,
) -> Result<String, Memory>
    requires { IsOwn desk.now seat.old × HoldsNoTurn seat.old }
    ensures { IsOwn desk.now seat.new × HoldsNoTurn seat.new × IsSameSeat seat.old seat.new }
{
    let Some(event) = event_of(alloc, words)? else {
        return no_such_call(alloc);
    };
    match desk.try_step(seat, 0, event) {
        Ok(given) => made(alloc, given, numbers),
        Err(refused) => shown(alloc, &refused.fault),
    }
}

fn collect(
    alloc: Global,
    desk: &Desk,
    seat: &mut DeskSeat,
    ticket: u64,
    numbers: &mut Vec<u64>,
) -> Result<String, Memory>
    requires { IsOwn desk.now seat.old × HoldsNoTurn seat.old }
    ensures { IsOwn desk.now seat.new × HoldsNoTurn seat.new × IsSameSeat seat.old seat.new }
{
    match desk.collect(seat, 0, ticket) {
        Ok(given) => made(alloc, given, numbers),
        Err(fault) => shown(alloc, &fault),
    }
}

/// Forgets, and tells the numbers of the entries handed back.
fn forget<R: Wait>(
    rt: &R,
    alloc: Global,
    desk: &Desk,
    seat: &mut DeskSeat,
) -> Result<String, Memory>
    requires { IsOwn desk.now seat.old × HoldsNoTurn seat.old }
    ensures { IsOwn desk.now seat.new × HoldsNoTurn seat.new × IsSameSeat seat.old seat.new }
{
    let dropped = desk.forget(rt, seat)?;
    let mut numbers = Vec::new(alloc);
    for entry in dropped.items() {
        numbers.push(entry.number)?;
    }
    shown(alloc, &numbers)
}

/// Tells how many rows are kept.
fn kept<R: Wait>(rt: &R, alloc: Global, desk: &Desk, seat: &mut DeskSeat) -> Result<String, Memory>
    requires { IsOwn desk.now seat.old × HoldsNoTurn seat.old }
    ensures { IsOwn desk.now seat.new × HoldsNoTurn seat.new × IsSameSeat seat.old seat.new }
{
    let rows = desk.kept(rt, seat)?;
    shown(alloc, &rows.len())
}

/// Makes a call, and tells what it gave.
fn answer<R: Wait>(
    rt: &R,
    alloc: Global,
    desk: &Desk,
    seat: &mut DeskSeat,
    call: Call<'_>,
    numbers: &mut Vec<u64>,
) -> Result<String, Memory>
    requires { IsOwn desk.now seat.old × HoldsNoTurn seat.old }
    ensures { IsOwn desk.now seat.new × HoldsNoTurn seat.new × IsSameSeat seat.old seat.new }
{
    match call {
        Call::Step(words) => step(rt, alloc, desk, seat, words, numbers),
        Call::TryStep(words) => try_step(alloc, desk, seat, words, numbers),
        Call::Collect(ticket) => collect(alloc, desk, seat, ticket, numbers),
        Call::Rest => {
            desk.rest(rt, seat);
            Ok(String::from_str(alloc, "an entry was made")?)
        }
        Call::Forget => forget(rt, alloc, desk, seat),
        Call::Kept => kept(rt, alloc, desk, seat),
        Call::Stopping => {
            let stopping = desk.stopping(rt, seat);
            shown(alloc, &stopping)
        }
        Call::None => no_such_call(alloc),
    }
}

/// Writes a line of the row, and what its call gave.
fn write(out: &mut Vec<u8>, line: &[u8], said: &str) -> Result<(), Memory> {
    out.extend_from_slice(line)?;
    out.extend_from_slice(b": ")?;
    out.extend_from_slice(said.as_bytes())?;
    out.push(b'\n')?;
    Ok(())
}

/// Makes the call of a line, and writes it down with what it gave.
fn perform<R: Wait>(
    rt: &R,
    alloc: Global,
    desk: &Desk,
    first: &mut DeskSeat,
    second: &mut DeskSeat,
    line: &[u8],
    numbers: &mut Vec<u64>,
    out: &mut Vec<u8>,
) -> Result<(), Memory>
    requires first { IsOwn desk.now first.old × HoldsNoTurn first.old }
    requires second { IsOwn desk.now second.old × HoldsNoTurn second.old }
    ensures first { IsOwn desk.now first.new × HoldsNoTurn first.new × IsSameSeat first.old first.new }
    ensures second { IsOwn desk.now second.new × HoldsNoTurn second.new × IsSameSeat second.old second.new }
{
    let (who, call) = read_line(line);
    let said = match who {
        Who::First => answer(rt, alloc, desk, first, call, numbers)?,
        Who::Second => answer(rt, alloc, desk, second, call, numbers)?,
    };
    write(out, line, said.as_str())
}

/// Makes all calls of a row.
fn perform_all<R: Wait>(
    rt: &R,
    alloc: Global,
    desk: &Desk,
    first: &mut DeskSeat,
    second: &mut DeskSeat,
    row: &[u8],
    numbers: &mut Vec<u64>,
    out: &mut Vec<u8>,
) -> Result<(), Memory>
    requires first { IsOwn desk.now first.old × HoldsNoTurn first.old }
    requires second { IsOwn desk.now second.old × HoldsNoTurn second.old }
    ensures first { IsOwn desk.now first.new × HoldsNoTurn first.new × IsSameSeat first.old first.new }
    ensures second { IsOwn desk.now second.new × HoldsNoTurn second.new × IsSameSeat second.old second.new }
{
    let mut left = row;
    for _ in 0..row.len() {
        if left.is_empty() {
            break;
        }
        let (line, rest) = cut(b'\n', left);
        perform(rt, alloc, desk, first, second, line, numbers, out)?;
        left = rest.unwrap_or(b"");
    }
    Ok(())
}

/// Whether the numbers are those from 1 on up to their count, none twice.
pub fn are_all(numbers: &mut Vec<u64>) -> Result<bool, Memory> {
    numbers.sort()?;
    Ok(numbers.iter().zip(1u64..).all(|(number, at)| *number == at))
}

/// Ends a desk: what became of its journal, and of the numbers of the seats' own entries.
fn close(alloc: Global, desk: Desk, seat: DeskSeat, mut numbers: Vec<u64>) -> Result<String, Memory>
    requires { IsOwn desk seat × HoldsNoTurn seat }
{
    let Ok(core) = desk.close(seat) else {
        return Ok(String::from_str(alloc, "close: the turn was taken\n")?);
    };
    let (entries, next) = (core.journal().len(), core.next_number());
    let count = numbers.len();
    let own = if are_all(&mut numbers)? {
        "all, none twice"
    } else {
        "not all"
    };
    Ok(format!(in alloc;
        "close: {entries} entries, the next is {next}\nthe seats' own numbers from 1 to {count}: {own}\n"
    )?)
}

/// Plays a row over a journal that takes so many entries.
pub fn play_row<R: Wait>(
    rt: &R,
    alloc: Global,
    journal_limit: u32,
    row: &[u8],
    out: &mut Vec<u8>,
) -> Result<(), Memory> {
    let mut numbers = Vec::new(alloc);
    let (desk, mut first) = opened(alloc, journal_limit)?;
    let mut second = desk.split(&mut first);
    perform_all(
        rt,
        alloc,
        &desk,
        &mut first,
        &mut second,
        row,
        &mut numbers,
        out,
    )?;
    desk.join(&mut first, second);
    let said = close(alloc, desk, first, numbers)?;
    out.extend_from_slice(said.as_bytes())?;
    Ok(())
}
