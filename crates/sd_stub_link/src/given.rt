//! Lines that were given back to a dialer.
ghost use Rattle.std.specs.Prelude.{◌≡◌, List, ◌∷◌};
ghost use Rattle.sd_stub_link.specs.Past.{line_given, lines_of};

use sd_base::Blobs;

/// Lines given back, the newest in front: those before it, the pieces sent over it, and the bytes received.
/// The room for a line is a box that was made before the line was used.
#[derive(Drop)]
pub enum Given {
    Nothing,
    After(Box<Given>, Blobs, Vec<u8>),
}

impl Given {
    /// Puts a line in front. This takes no memory.
    pub fn with_line(self, mut room: Box<Given>, pieces: Blobs, received: Vec<u8>) -> Given
        ensures { lines_of result ≡ line_given pieces received.items ∷ lines_of self }
    {
        *room = self;
        Given::After(room, pieces, received)
    }
}

/// A dial, and the lines given back between the dial before it and this one.
#[derive(Drop)]
pub struct Dialled {
    pub server: u32,
    pub given: Given,
}
