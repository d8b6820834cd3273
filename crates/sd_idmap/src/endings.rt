// How the numbering of SIDs ends: its status and what it writes.
ghost use Rattle.std.specs.Prelude.{◌≡◌, ◌<◌, ◌^◌, length, IfOk};
ghost use Rattle.sd_idmap.specs.Endings as endings;
ghost use Rattle.sd_tools.specs.Endings as tools;

use crate::lines::first_bad;
use crate::runs::printed_by;
use sd_base::{Bytes, Memory};
use sd_tools::endings::{BAD_LINE, DONE, Status, bad_line};
use std::alloc::Global;

/// The most bytes that the input has: 16 MiB.
pub const LIMIT: usize = 16777216;

/// A status, and what is written before it.
#[derive(Drop)]
pub struct Ending {
    pub status: Status,
    pub output: Bytes,
}

/// The end at a line without a form.
fn ending_at_line(alloc: Global, number: u64) -> Result<Ending, Memory>
    ensures { IfOk result (λ ending. ending ≡ record { status = BAD_LINE; output = tools.bad_line number }) }
{
    Ok(Ending {
        status: BAD_LINE,
        output: bad_line(alloc, number)?,
    })
}

/// The end of an input of this text: its lines are all checked before the first is carried out.
pub fn ending_of(alloc: Global, text: &[u8]) -> Result<Ending, Memory>
    requires { length text.now < 2 ^ 32 }
    ensures { IfOk result (λ ending. ending ≡ endings.ending_by_lines text.now) }
{
    match first_bad(alloc, text)? {
        Some(number) => ending_at_line(alloc, number),
        None => Ok(Ending {
            status: DONE,
            output: printed_by(alloc, text)?,
        }),
    }
}
