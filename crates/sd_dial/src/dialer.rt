//! What makes links to the servers of a directory.
ghost use Rattle.std.specs.Prelude.{◌≡◌, ℕ, ◌<◌, ◌≤◌, List, [], IfOk, OnErr, IfSome, MatchResult, IsSome, Some, None};
ghost use Rattle.std.specs.declared.option.Option.{Option};
ghost use Rattle.sd_base.specs.Causes.{HasCause, Rose};
ghost use Rattle.sd_dial.specs.Entries.{Behind};
ghost use Rattle.sd_dial.specs.Operations.{Operation, with_dial, with_asked, with_received};

use crate::directory::DirectoryLink;
use sd_link::LinkFailed;

/// Makes links to servers, which are counted from 0. It may tell the operations asked: each dial at the
/// dial, and what was asked on a line once that line is given back; and then also the bytes received on it.
/// It may tell the directory behind a server, which no call changes.
pub trait Dialer {
    type Line: DirectoryLink;

    /// The operations asked so far, where the dialer tells them.
    ghost operations: { Self → Option (List Operation) };
    /// The bytes received on each line that was given back, in their order, where the dialer tells them.
    ghost received: { Self → Option (List (List ℕ)) };
    /// The directory behind a server, where the dialer tells it.
    ghost behind: { Self → ℕ → Option Behind };
    /// How many dials and lines have failed. A count at the greatest u64 stands still.
    ghost faults: { Self → ℕ };

    /// A new line to a server: nothing is asked, received or to come, and no fault is counted.
    fn dial(&mut self, server: u32) -> Result<Self::Line, LinkFailed>
        ensures operations { MatchResult result (λ _. operations self.new ≡ with_dial (operations self.old) server) (λ _. operations self.new ≡ operations self.old) }
        ensures received { received self.new ≡ received self.old }
        ensures behind { (i : ℕ) → behind self.new i ≡ behind self.old i }
        ensures nothing_asked { IfOk result (λ line. IfSome (Self.Line.asked line) (λ messages. messages ≡ [])) }
        ensures nothing_sent { IfOk result (λ line. IfSome (Self.Line.sent line) (λ pieces. pieces ≡ [])) }
        ensures nothing_received { IfOk result (λ line. IfSome (Self.Line.received line) (λ bytes. bytes ≡ [])) }
        ensures nothing_comes { IfOk result (λ line. IfSome (Self.Line.coming line) (λ bytes. bytes ≡ [])) }
        ensures no_fault { IfOk result (λ line. Self.Line.faults line ≡ 0) }
        // Who tells operations makes lines that tell what is asked, and so for bytes and directories.
        ensures tells_asked { IsSome (operations self.old) → IfOk result (λ line. IsSome (Self.Line.asked line)) }
        ensures tells_received { IsSome (received self.old) → IfOk result (λ line. IsSome (Self.Line.received line)) }
        ensures tells_behind { IfOk result (λ line. IfSome (behind self.old server) (λ told. Self.Line.behind line ≡ Some told)) }
        ensures cause { HasCause (faults self.old) (faults self.new) result };

    /// Takes a line back. The count rises exactly where the line's count is above 0.
    fn done(&mut self, line: Self::Line)
        ensures operations { operations self.new ≡ with_asked (operations self.old) (Self.Line.asked line) }
        ensures received { received self.new ≡ with_received (received self.old) (Self.Line.received line) }
        ensures behind { (i : ℕ) → behind self.new i ≡ behind self.old i }
        ensures rises { 0 < Self.Line.faults line → Rose (faults self.old) (faults self.new) }
        ensures stays { Self.Line.faults line ≡ 0 → faults self.new ≡ faults self.old };
}
