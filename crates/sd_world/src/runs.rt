// A scenario's lines, carried out one after the other.
ghost use Rattle.std.specs.Prelude.{◌≡◌, ◌+◌, ◌<◌, ◌^◌, ◌++◌, IfOk, OnOk, Ok, not, true, false};
ghost use Rattle.std.specs.Option.{option_copied};
ghost use Rattle.sd_layout.specs.Blocks.{bytes_left, statements_of};
ghost use Rattle.sd_layout.specs.Faults.{has_few_servers};
ghost use Rattle.sd_lines.specs.Words as words;
ghost use Rattle.sd_world.specs.Transcript as script;

use crate::stop::Stop;
use crate::world::World;
use sd_base::{Bytes, Memory};
use sd_conf::Config;
use sd_layout::first_statement;
use std::alloc::Global;

/// What a scenario prints.
#[derive(Drop)]
pub struct Printed {
    pub text: Bytes,
    /// Whether a full journal ended it.
    pub is_full: bool,
}

/// Does the lines, of which the first has the number `first`, and prints what they print. Whether they were all done.
fn do_lines(
    alloc: Global,
    world: &mut World,
    first: u64,
    body: Option<&[u8]>,
) -> Result<bool, Memory>
    requires room { first + bytes_left (option_copied body) < 2 ^ 33 }
    requires bounded { (script.transcript_on world.old (statements_of first (words.pieces_in 10 (option_copied body)))).is_endless ≡ false }
    ensures { IfOk result (λ whole. script.transcript_on world.old (statements_of first (words.pieces_in 10 (option_copied body.entry)))
        ≡ record { text = world.new.printed; is_full = not whole; is_endless = false }) }
{
    let mut number = first;
    let mut left = body;
    while let Some(bytes) = left {
        let next = first_statement(alloc, number, bytes)?;
        match world.do_line(&next.statement.line) {
            Ok(()) => {}
            Err(Stop::Full(number)) => {
                world.print_full(number)?;
                return Ok(false);
            }
            Err(Stop::Memory) => return Err(Memory),
        }
        number = next.number;
        left = next.rest;
    }
    Ok(true)
}

#[tactic(auto, using(crate::proofs::LineLaws::begun_bounded))]
/// Carries out the lines of a scenario of this configuration; the first has the number `first`.
pub fn run(
    alloc: Global,
    config: Config,
    first: u64,
    body: Option<&[u8]>,
) -> Result<Printed, Memory>
    requires few { has_few_servers config ≡ true }
    requires room { first + bytes_left (option_copied body) < 2 ^ 33 }
    ensures printed { IfOk result (λ printed. let transcript = script.transcript_by (Ok config) (statements_of first (words.pieces_in 10 (option_copied body.entry))) in
        (printed.text ≡ transcript.text) × (printed.is_full ≡ transcript.is_full)) }

    // Its tasks come to rest: the bound on their moves is not used up.
    ensures bounded { (script.transcript_by (Ok config) (statements_of first (words.pieces_in 10 (option_copied body.entry)))).is_endless ≡ false }
{
    let mut world = World::new(alloc, config)?;
    let whole = do_lines(alloc, &mut world, first, body)?;
    Ok(Printed {
        text: Bytes::from_bytes(alloc, world.printed())?,
        is_full: !whole,
    })
}
