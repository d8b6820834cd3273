//! The input and the end of a program that plays a text.
ghost use Rattle.std.specs.Prelude.{◌≡◌};
ghost use Rattle.sd_plays.specs.declared.runs.Failure.TheVariants as failures;

use sd_base::{Memory, ReadEnd, Sink, Source, read_all, write_all};
use std::alloc::Global;
use std::process::ExitCode;

/// The longest input, in bytes: 8 MiB.
const LIMIT: usize = 1 << 23;

/// Why a program prints nothing.
#[derive(Clone, Copy)]
pub enum Failure {
    /// The input failed, or it is too long.
    Unread,
    /// Want of memory.
    Memory,
}

impl From<Memory> for Failure {
    ghost from_gives = { λ _ failure. failure ≡ failures.Memory };

    fn from(_memory: Memory) -> Failure {
        Failure::Memory
    }
}

/// Reads the whole input.
pub fn read<S: Source>(alloc: Global, source: &mut S) -> Result<Vec<u8>, Failure> {
    match read_all(alloc, source, LIMIT) {
        Ok(text) => Ok(text),
        Err(ReadEnd::Memory) => Err(Failure::Memory),
        Err(_) => Err(Failure::Unread),
    }
}

/// Prints what the input came to, and gives the program's status: 0, or 3 where it was not read, 4 where output failed, and 7
/// for want of memory.
pub fn print<K: Sink>(sink: &mut K, made: Result<Vec<u8>, Failure>) -> ExitCode {
    match made {
        Ok(out) => match write_all(sink, out.as_slice()) {
            Ok(()) => ExitCode::from(0),
            Err(_) => ExitCode::from(4),
        },
        Err(Failure::Unread) => ExitCode::from(3),
        Err(Failure::Memory) => ExitCode::from(7),
    }
}
