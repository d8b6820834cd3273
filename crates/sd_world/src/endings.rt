// How a scenario ends: its status and what it writes.
ghost use Rattle.std.specs.Prelude.{◌≡◌, ◌<◌, ◌+◌, ◌^◌, length, IfOk, true};
ghost use Rattle.std.specs.Option.{option_copied};
ghost use Rattle.sd_layout.specs.Blocks.{bytes_left};
ghost use Rattle.sd_layout.specs.Faults.{has_few_servers};
ghost use Rattle.sd_layout.specs.Seen.{head_seen};
ghost use Rattle.sd_world.specs.Endings as endings;
ghost use Rattle.sd_tools.specs.Endings as tools;

use crate::runs::{Printed, run};
use sd_base::{Bytes, Memory};
use sd_conf::Config;
use sd_layout::{ConfigRead, Head, config_of, first_bad_behind, head_of};
use sd_tools::endings::{BAD_LINE, DONE, Status, bad_line};
use std::alloc::Global;

/// The journal had no room for a step.
pub const JOURNAL_FULL: Status = 6;

/// The most bytes that a scenario has: 16 MiB.
pub const LIMIT: usize = 16777216;

/// A status, and what is written before it.
pub struct Ending {
    pub status: Status,
    pub output: Bytes,
}

impl Drop for Ending {
    fn drop(self) {
        let Ending {
            status: _,
            output: _,
        } = self;
    }
}

/// The end at a line without a form.
fn ending_at_line(alloc: Global, number: u64) -> Result<Ending, Memory>
    ensures { IfOk result (λ ending. ending ≡ record { status = BAD_LINE; output = tools.bad_line number }) }
{
    Ok(Ending {
        status: BAD_LINE,
        output: bad_line(alloc, number)?,
    })
}

/// The end of a scenario that was carried out.
fn ending_of_run(printed: Printed) -> Ending
    ensures { result ≡ endings.ending_by_journal printed.is_full printed.text }
{
    let status = if printed.is_full { JOURNAL_FULL } else { DONE };
    Ending {
        status,
        output: printed.text,
    }
}

/// The end of a scenario whose head gives a configuration.
fn ending_behind(alloc: Global, head: &Head<'_>, config: Config) -> Result<Ending, Memory>
    requires few { has_few_servers config ≡ true }
    requires room { head.now.number + bytes_left (option_copied head.now.body) < 2 ^ 33 }
    ensures { IfOk result (λ ending. ending ≡ endings.ending_behind (head_seen head.now) config) }
{
    if let Some(number) = first_bad_behind(alloc, head, &config)? {
        return ending_at_line(alloc, number);
    }
    Ok(ending_of_run(run(alloc, config, head.number, head.body)?))
}

#[tactic(auto, unfolding(sd_layout::specs::Faults::first_bad, crate::specs::Transcript::transcript))]
/// The end of a scenario of this text: its lines are all checked before the first is carried out.
pub fn ending_of(alloc: Global, text: &[u8]) -> Result<Ending, Memory>
    requires { length text.now < 2 ^ 32 }
    ensures { IfOk result (λ ending. ending ≡ endings.ending_by_lines text.now) }
{
    let head = head_of(alloc, text)?;
    match config_of(alloc, &head)? {
        ConfigRead::BadLine(number) => ending_at_line(alloc, number),
        ConfigRead::Config(config) => ending_behind(alloc, &head, config),
    }
}
