//! What doors do and tell.
ghost use Rattle.std.specs.Prelude.{◌≡◌, ℕ, Bool, IfOk, IfSome};
ghost use Rattle.sd_base.specs.Causes.{HasCause};
ghost use Rattle.sd_doors.specs.Came.{gave_after, ended_after};

use sd_base::{Sink, Source};

/// No connection could be accepted.
#[derive(Clone, Copy, PartialEq, Eq)]
pub struct DoorFailed;

/// Where connections come from: what a client sends, and where what it is sent goes.
pub trait Doors {
    type In: Source;

    type Out: Sink;

    /// Whether a connection was given.
    ghost gave: { Self → Bool };
    /// Whether it was answered that no connection will come.
    ghost ended: { Self → Bool };
    /// How many calls have failed. A count at the greatest u64 stands still.
    ghost faults: { Self → ℕ };

    /// The next connection, at which no fault is counted; none where no connection will come.
    fn accept(&mut self) -> Result<Option<(Self::In, Self::Out)>, DoorFailed>
        ensures gave { gave self.new ≡ gave_after (gave self.old) result }
        ensures ended { ended self.new ≡ ended_after (ended self.old) result }
        ensures no_fault { IfOk result (λ came. IfSome came (λ c. (Self.In.faults c.0 ≡ 0) × (Self.Out.faults c.1 ≡ 0))) }
        ensures cause { HasCause (faults self.old) (faults self.new) result };

    /// No more clients are let in: the connections that were given may end as soon as their clients are idle.
    fn wind_down(&mut self)
        ensures gave { gave self.new ≡ gave self.old }
        ensures ended { ended self.new ≡ ended self.old }
        ensures faults { faults self.new ≡ faults self.old }
    {}
}
