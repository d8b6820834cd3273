//! A text that is cut at a byte.
ghost use Rattle.std.specs.Prelude.{◌≡◌, ◌<◌, ◌∷◌, ℕ, List, length, IfSome};
ghost use Rattle.std.specs.Option.{option_copied};
ghost use Rattle.sd_pieces.specs.Pieces.{cut_of, pieces, pieces_in};

fn cut_at_first(by: u8, bytes: &[u8]) -> (&[u8], Option<&[u8]>)
    ensures { (result.0.now, option_copied result.1) ≡ cut_of by bytes.now }
{
    for (at, byte) in bytes.iter().enumerate() {
        if *byte == by {
            return (&bytes[..at], Some(&bytes[at + 1..]));
        }
    }
    (bytes, None)
}

/// What stands before the first byte that parts, and what stands behind it, where there is one.
pub fn cut(by: u8, bytes: &[u8]) -> (&[u8], Option<&[u8]>)
    ensures parts { (result.0.now, option_copied result.1) ≡ cut_of by bytes.now }
    ensures pieces { pieces by bytes.now ≡ result.0.now ∷ pieces_in by (option_copied result.1) }
    ensures shorter { IfSome (option_copied result.1) (λ rest. length rest < length bytes.now) }
{
    cut_at_first(by, bytes)
}
