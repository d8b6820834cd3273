//! What a thread needs to use a desk.
ghost use Rattle.std.specs.Prelude.{◌≡◌, ◌↔◌, ◌+◌, ◌*◌, ◌≤◌, IsTrue, length};
ghost use Rattle.sd_turn.specs.Seats as seats;

use crate::counts::Counts;
use crate::shared::SharedCore;
use sd_turn::Seat;

/// A seat at a desk. One thread at a time has it.
#[derive(Drop)]
pub struct DeskSeat {
    pub(crate) seat: Seat<SharedCore>,
    pub(crate) counts: Counts,
    ghost next_is: { counts.next ≡ (seats.front seat).next },
    ghost entries_are: { counts.entries ≡ length (seats.front seat).entries },
}

impl DeskSeat {
    ghost use Rattle.sd_desk.specs.Desks.{counts_of};

    /// What the seat knows of its front.
    pub fn counts(&self) -> Counts
        ensures { result ≡ counts_of self.now }
    {
        self.counts
    }

    /// Whether the front has grown to one and a half times what the last forget left and a thousand entries more, as far as
    /// the seat has seen: so a forget costs each entry a constant.
    pub fn has_grown(&self) -> bool
        ensures { IsTrue result ↔ 3 * (counts_of self.now).left + 2000 ≤ 2 * (counts_of self.now).entries }
    {
        3 * self.counts.left as u128 + 2000 <= 2 * self.counts.entries as u128
    }
}
