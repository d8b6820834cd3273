//! What a link does and tells.
ghost use Rattle.std.specs.Prelude.{◌≡◌, ℕ, ◌<◌, ◌≤◌, List, length, take, IfOk, OnErr, MatchResult, Some, None};
ghost use Rattle.std.specs.declared.option.Option.{Option};
ghost use Rattle.std.specs.Io.{ReadsAtMost};
ghost use Rattle.std.specs.Io.KnownBytes.{append_known, prepend_known};
ghost use Rattle.sd_base.specs.Causes.{HasCause};
ghost use Rattle.sd_link.specs.Told.{with_piece};

/// A link failed, or its peer has ended it.
#[derive(Clone, Copy, PartialEq, Eq)]
pub struct LinkFailed;

/// A connection to a server. What it tells stays told, and what it does not tell stays untold; a call
/// that failed leaves it as it was.
pub trait Link {
    /// The bytes to come, where the link tells them.
    ghost coming: { Self → Option (List ℕ) };
    /// The pieces sent so far, in their order, where the link tells them.
    ghost sent: { Self → Option (List (List ℕ)) };
    /// The bytes received so far, where the link tells them.
    ghost received: { Self → Option (List ℕ) };
    /// What a piece, once it is sent, puts behind the bytes to come.
    ghost answer: { Self → List ℕ → List ℕ };
    /// What a call makes of the link beside that: by the piece that it sent, or as any other call. Traits
    /// above tie to it what their links tell.
    ghost went: { Self → Option (List ℕ) → Self → Type 0 };
    /// How many calls have failed. A count at the greatest u64 stands still.
    ghost faults: { Self → ℕ };
    /// What is so of a link whose send has failed.
    ghost refuses: { Self → Type 0 };
    /// What is so of a link whose receive has failed.
    ghost ends: { Self → Type 0 };

    /// Sends all bytes, as one piece.
    fn send(&mut self, bytes: &[u8]) -> Result<(), LinkFailed>
        ensures coming { MatchResult result (λ _. coming self.new ≡ append_known (coming self.old) (answer self.old bytes.now)) (λ _. coming self.new ≡ coming self.old) }
        ensures sent { MatchResult result (λ _. sent self.new ≡ with_piece (sent self.old) bytes.now) (λ _. sent self.new ≡ sent self.old) }
        ensures received { received self.new ≡ received self.old }
        ensures went { MatchResult result (λ _. went self.old (Some bytes.now) self.new) (λ _. went self.old None self.new) }
        ensures cause { HasCause (faults self.old) (faults self.new) result }
        ensures refused { OnErr result (refuses self.new) };

    /// Takes some of the bytes to come, at least one; at the peer's end it fails.
    fn receive(&mut self, buf: &mut [u8]) -> Result<usize, LinkFailed>
        requires { 0 < length buf.old }
        ensures bound { ReadsAtMost result buf.new }
        ensures some { IfOk result (λ n. 0 < n) }
        ensures coming { MatchResult result (λ n. coming self.old ≡ prepend_known (take n buf.new) (coming self.new)) (λ _. coming self.new ≡ coming self.old) }
        ensures sent { sent self.new ≡ sent self.old }
        ensures received { MatchResult result (λ n. received self.new ≡ append_known (received self.old) (take n buf.new)) (λ _. received self.new ≡ received self.old) }
        ensures went { went self.old None self.new }
        ensures cause { HasCause (faults self.old) (faults self.new) result }
        ensures ended { OnErr result (ends self.new) };
}
