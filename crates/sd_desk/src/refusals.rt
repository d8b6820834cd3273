//! Why a call of the desk was refused.
ghost use Rattle.std.specs.Prelude.{◌≡◌};

use sd_rules::{Event, Refused, StepFault};

/// Why a step that waits for nobody was not made.
#[derive(Clone, Copy, Debug, PartialEq, Eq)]
pub enum DeskFault {
    /// Another seat held the turn.
    Busy,
    /// The journal has no room; the entries kept and the places reserved.
    JournalFull(u64),
    Memory,
}

/// A step that was not made hands its event back.
#[derive(Drop)]
pub struct DeskRefused {
    pub fault: DeskFault,
    pub event: Event,
}

/// Why a ticket was not collected.
#[derive(Clone, Copy, Debug, PartialEq, Eq)]
pub enum CollectFault {
    /// The ticket's request, which is open.
    Pending(u64),
    /// Another seat held the turn.
    Busy,
    /// The journal has no room; the entries kept and the places reserved. A ticket that waits is never refused so.
    JournalFull(u64),
    Memory,
}

impl From<Refused> for DeskRefused {
    ghost use Rattle.sd_desk.specs.Faults.{desk_fault};

    ghost from_gives = { λ refused made. (made.fault ≡ desk_fault refused.fault) × (made.event ≡ refused.event) };

    fn from(refused: Refused) -> DeskRefused {
        let fault = match refused.fault {
            StepFault::JournalFull(places) => DeskFault::JournalFull(places),
            StepFault::Memory => DeskFault::Memory,
        };
        DeskRefused {
            fault,
            event: refused.event,
        }
    }
}

impl From<Refused> for CollectFault {
    ghost use Rattle.sd_desk.specs.Faults.{collect_fault};

    ghost from_gives = { λ refused made. made ≡ collect_fault refused.fault };

    fn from(refused: Refused) -> CollectFault {
        match refused.fault {
            StepFault::JournalFull(places) => CollectFault::JournalFull(places),
            StepFault::Memory => CollectFault::Memory,
        }
    }
}
