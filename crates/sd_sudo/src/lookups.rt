//! Lookups in a directory in memory.
ghost use Rattle.std.specs.Prelude.{◌≡◌, IfOk, IfErr};
ghost use Rattle.sd_places.specs.Keeping.{kept};
ghost use Rattle.sd_sudo.specs.Lookups as lookups;

use sd_base::{Memory, Shared};
use sd_conf::Config;
use sd_ldap::DirEntry;
use sd_provider::{ShortDirectory, fetched_at};
use sd_rules::{Fetched, Key, Record};
use sd_stub::Mode;
use std::alloc::Global;

/// What ends the searches before there is an answer.
#[derive(Clone, Copy, PartialEq, Eq)]
pub enum Halt {
    /// A request or a reply is longer than 16 MiB, or the replies of one lookup together than 64 MiB.
    Limit,
    Memory,
}

impl From<Memory> for Halt {
    ghost use Rattle.std.specs.Prelude.{◌≡◌};
    ghost use Rattle.sd_sudo.specs.declared.lookups.Halt.TheVariants as halts;

    ghost from_gives = { λ _ halt. halt ≡ halts.Memory };

    fn from(_error: Memory) -> Halt {
        Halt::Memory
    }
}

/// What a lookup found, where it is one thing.
fn found_or_halt(fetched: Fetched) -> Result<Option<Shared<Record>>, Halt>
    ensures { result ≡ lookups.found_or_halt fetched }
{
    match fetched {
        Fetched::Found(record) => Ok(Some(record)),
        Fetched::Absent | Fetched::Many(_) => Ok(None),
        Fetched::Failed(_) => Err(Halt::Limit),
        // A directory in memory refuses no search.
        Fetched::Refused(_) | Fetched::Memory => Err(Halt::Memory),
    }
}

#[tactic(auto, using(crate::proofs::Looked::looked_ok, crate::proofs::Looked::looked_halt))]
/// Looks a key up in the directory of these entries, for what is found where it is one thing. An entry of 4 GiB
/// counts as want of memory.
pub fn look_up(
    alloc: Global,
    config: &Config,
    entries: &[DirEntry],
    key: &Key,
) -> Result<Option<Shared<Record>>, Halt>
    ensures found { IfOk result (λ found. lookups.Passes config.now (kept entries.now) key.now × (found ≡ lookups.found_for config.now (kept entries.now) key.now)) }
    ensures halt { IfErr result (λ halt. lookups.HaltsBy halt (lookups.Meets config.now (kept entries.now) key.now)) }
{
    let directory = ShortDirectory::new(alloc, entries)?;
    let fetched = fetched_at(alloc, Mode::Up, config, &directory, key)?;
    found_or_halt(fetched)
}
