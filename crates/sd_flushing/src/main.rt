// Flushes rows to a store again and again: the first argument is the store's path, standard input says what to do.
//
// `flush ROUND COUNT` flushes a head and so many rows of the moment ROUND, `hash ROUND` a head and one stored hash whose bytes
// are all ROUND, and `read` loads the rows: `rows COUNT of ROUND`, or `mixed` where they are of several rounds. Each answer is
// written before the next line is played, so that whoever ends the process knows how far it was.
#![tactic(auto)]

mod rounds;
mod words;

use rounds::{hash_of, one_round, rows_of};
use sd_base::{Memory, ReaderSource, Sink, WriterSink, read_all, write_all};
use sd_keeper::{KeeperFault, LoadFault, flush, load};
use sd_pieces::cut;
use sd_rules::Rows;
use sd_store::SqliteKeeper;
use std::alloc::Global;
use std::env;
use std::process::ExitCode;
use words::{Order, order_of};

/// The longest input, in bytes.
const LIMIT: usize = 1 << 20;

fn flushed(
    alloc: Global,
    keeper: &mut SqliteKeeper<'_>,
    rows: &Rows,
    round: u32,
) -> Result<String, Memory> {
    match flush(alloc, keeper, rows) {
        Ok(()) => Ok(format!(in alloc; "flushed {round}\n")?),
        Err(KeeperFault::Failed) => Ok(String::from_str(alloc, "failed\n")?),
        Err(KeeperFault::Memory) => Err(Memory),
    }
}

fn fault_text(alloc: Global, fault: LoadFault) -> Result<String, Memory> {
    Ok(match fault {
        LoadFault::Failed => String::from_str(alloc, "failed\n")?,
        LoadFault::BadRow(place) => format!(in alloc; "bad row {place}\n")?,
        LoadFault::BadVersion(version) => format!(in alloc; "bad version {version}\n")?,
        LoadFault::Memory => return Err(Memory),
    })
}

fn loaded(alloc: Global, keeper: &mut SqliteKeeper<'_>) -> Result<String, Memory> {
    let rows = match load(alloc, keeper) {
        Ok(rows) => rows,
        Err(fault) => return fault_text(alloc, fault),
    };
    let count = rows.len();
    match one_round(rows.items()) {
        Some(round) => Ok(format!(in alloc; "rows {count} of {round}\n")?),
        None => Ok(String::from_str(alloc, "mixed\n")?),
    }
}

fn answer(alloc: Global, keeper: &mut SqliteKeeper<'_>, order: Order) -> Result<String, Memory> {
    match order {
        Order::Flush(round, count) => {
            let rows = rows_of(alloc, round, count)?;
            flushed(alloc, keeper, &rows, round)
        }
        Order::Hash(round) => {
            let rows = hash_of(alloc, round)?;
            flushed(alloc, keeper, &rows, round)
        }
        Order::Read => loaded(alloc, keeper),
        Order::None => Ok(String::from_str(alloc, "no such line\n")?),
    }
}

/// Plays all lines. Want of memory, and an output that fails, end it.
fn play<W: Sink>(alloc: Global, keeper: &mut SqliteKeeper<'_>, text: &[u8], sink: &mut W) -> u8 {
    let mut left = text;
    for _ in 0..text.len() {
        let (line, rest) = cut(b'\n', left);
        let Ok(said) = answer(alloc, keeper, order_of(line)) else {
            return 7;
        };
        if write_all(sink, said.as_bytes()).is_err() {
            return 4;
        }
        match rest {
            Some(rest) if !rest.is_empty() => left = rest,
            _ => break,
        }
    }
    0
}

fn path(rt: &HostRuntime) -> Option<String> {
    let Ok(mut words) = env::args(rt) else {
        return None;
    };
    let _program = words.next();
    words.next()
}

fn run(rt: &HostRuntime) -> u8 {
    let alloc = rt.alloc();
    let Some(path) = path(rt) else {
        return 2;
    };
    let mut source = ReaderSource::new(rt.stdin());
    let mut sink = WriterSink::new(rt.stdout());
    let Ok(text) = read_all(alloc, &mut source, LIMIT) else {
        return 3;
    };
    match SqliteKeeper::open(rt, path.as_str()) {
        Ok(mut keeper) => play(alloc, &mut keeper, text.as_slice(), &mut sink),
        Err(KeeperFault::Memory) => 7,
        Err(KeeperFault::Failed) => 11,
    }
}

fn main(rt: HostRuntime) -> ExitCode {
    ExitCode::from(run(&rt))
}
