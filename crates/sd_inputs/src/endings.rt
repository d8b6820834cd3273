//! How a tool ends where an input was not taken.
ghost use Rattle.std.specs.Prelude.{◌≡◌, ◌⊎◌, IfOk, IfErr};
ghost use Rattle.sd_inputs.specs.Endings.{StopEnds};

use crate::inputs::Stop;
use sd_base::{Memory, Text};
use sd_tools::{Status, TOO_LONG};
use std::alloc::Global;

/// The configuration, or the entries, are refused.
pub const REFUSED: Status = 10;

/// A status, and what is written before it.
#[derive(Drop)]
pub struct Ending {
    pub status: Status,
    pub output: Text,
}

/// An ending of these bytes.
pub fn ending_with(alloc: Global, status: Status, output: &[u8]) -> Result<Ending, Memory>
    ensures { IfOk result (λ ending. ending ≡ record { status = status; output = output.now }) }
{
    Ok(Ending {
        status,
        output: Text::from_bytes(alloc, output)?,
    })
}

/// The ending where an input was not taken, unless it could not be read or memory was wanting.
pub fn stopped(alloc: Global, stop: Stop) -> Result<Ending, Stop>
    ensures ends { IfOk result (λ ending. StopEnds stop ending.status ending.output) }
    ensures stops { IfErr result (λ left. (left ≡ Stop.Memory) ⊎ ((left ≡ Stop.ReadFault) × (stop ≡ Stop.ReadFault))) }
{
    match stop {
        Stop::TooLong => Ok(ending_with(alloc, TOO_LONG, b"too long\n")?),
        Stop::Refused(output) => Ok(Ending {
            status: REFUSED,
            output,
        }),
        Stop::ReadFault => Err(Stop::ReadFault),
        Stop::Memory => Err(Stop::Memory),
    }
}
