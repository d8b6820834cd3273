// Why a scenario ends before its last line.
ghost use Rattle.std.specs.Prelude.{◌≡◌};
ghost use Rattle.sd_world.specs.declared.stop.Stop.TheVariants as stops;

use sd_base::Memory;

/// Why a scenario ends before its last line.
#[derive(Clone, Copy, PartialEq, Eq)]
pub enum Stop {
    /// A step was refused as full; the entries kept and the places reserved.
    Full(u64),
    Memory,
}

impl From<Memory> for Stop {
    ghost from_gives = { λ _ stop. stop ≡ stops.Memory };

    fn from(_memory: Memory) -> Stop {
        Stop::Memory
    }
}
