//! What the server asks of the network.
ghost use Rattle.std.specs.Prelude.{◌≡◌, ◌≤◌, ℕ, List, Bool, IfOk, MatchResult, OnErr};
ghost use Rattle.std.specs.declared.option.Option.{Option};
ghost use Rattle.sd_base.specs.Causes.{Rose};
ghost use Rattle.sd_ldap_server.specs.Listening.{with_address, Counts};

use sd_doors::{DoorFailed, Doors};

/// Where the clients of a directory come from. It counts the faults of doors.
pub trait Network {
    type Door: Doors + Drop;

    /// The addresses at which doors were made, in their order, where they are told.
    ghost listened: { Self → Option (List (List ℕ)) };
    /// Whether the doors that were handed back last answered that no connection will come.
    ghost ended: { Self → Bool };
    /// How many doors could not be made, or failed. A count at the greatest u64 stands still.
    ghost door_faults: { Self → ℕ };

    /// Doors at an address, `HOST:PORT`, through which nobody has come.
    fn listen(&mut self, address: &str) -> Result<Self::Door, DoorFailed>
        ensures listened { MatchResult result (λ _. listened self.new ≡ with_address (listened self.old) address.now) (λ _. listened self.new ≡ listened self.old) }
        ensures unfailed { IfOk result (λ doors. Self.Door.faults doors ≡ 0) }
        ensures failed { OnErr result (Rose (door_faults self.old) (door_faults self.new)) }
        ensures later { door_faults self.old ≤ door_faults self.new };

    /// Takes doors back, and closes them.
    fn done_doors(&mut self, doors: Self::Door)
        ensures listened { listened self.new ≡ listened self.old }
        ensures ended { ended self.new ≡ Self.Door.ended doors }
        ensures counted { Counts (door_faults self.old) (door_faults self.new) (Self.Door.faults doors) };
}
