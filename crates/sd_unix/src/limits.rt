//! Who is served, and for how long.
ghost use Rattle.std.specs.Prelude.{◌≡◌};
ghost use Rattle.sd_unix.specs.Limits as limits;

use crate::frames::Visitor;

/// How many clients are served at the same time: the sessions in threads.
pub const MOST_OUT: usize = 64;

/// How many of them may have come through the public door.
pub const MOST_PUBLIC_OUT: usize = 48;

/// Up to so many clients are served, a thread may look for the next frame of its own.
const LINGERING: usize = 32;

/// How many frames of a client are served in turn while others wait.
const FRAMES_IN_TURN: u32 = 4;

/// How many logins over the public socket are tried, or have their wrong password's answer kept back, at the same time.
pub const MOST_GUESSES: usize = 16;

/// Whether a client may be let in, where so many of the public are served, and so many of all.
pub fn has_place(visitor: Visitor, public: usize, all: usize) -> bool
    ensures { result ≡ limits.has_place visitor public all }
{
    match visitor {
        Visitor::Administrator => all < MOST_OUT,
        Visitor::Anyone => all < MOST_OUT && public < MOST_PUBLIC_OUT,
    }
}

/// Whether a thread may look for the first byte of a client's next frame for a moment: where no frame has begun, nobody waits
/// with a whole one, and most places are free.
pub fn may_linger(has_begun: bool, waiting: usize, served: usize) -> bool
    ensures { result ≡ limits.may_linger has_begun waiting served }
{
    !has_begun && (waiting == 0 && served <= LINGERING)
}

/// Whether a client of which so many frames were served in turn goes behind those who wait.
pub fn is_turn_over(frames: u32, waiting: usize) -> bool
    ensures { result ≡ limits.is_turn_over frames waiting }
{
    frames >= FRAMES_IN_TURN && waiting > 0
}

/// Whether another login over the public socket may be tried, where so many are.
pub fn may_guess(guesses: usize) -> bool
    ensures { result ≡ limits.may_guess guesses }
{
    guesses < MOST_GUESSES
}
