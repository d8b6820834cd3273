//! What the replies say.
use sd_base::Memory;
use sd_wire::number_of_four;

/// How many octets the length of a reply has.
const LENGTH: usize = 4;

/// How many replies found a user, and how many none.
#[derive(Clone, Copy, PartialEq, Eq)]
pub struct Replies {
    pub found: usize,
    pub none: usize,
}

impl Replies {
    pub const NOTHING: Replies = Replies { found: 0, none: 0 };

    /// These and others.
    pub fn and(self, others: Replies) -> Replies {
        Replies {
            found: self.found.saturating_add(others.found),
            none: self.none.saturating_add(others.none),
        }
    }
}

/// What one reply says.
fn reply_in(text: &[u8]) -> Option<Replies> {
    if text.starts_with(b"found ") {
        return Some(Replies { found: 1, none: 0 });
    }
    if text.starts_with(b"none ") {
        return Some(Replies { found: 0, none: 1 });
    }
    None
}

/// The first reply, and the bytes behind it.
fn first_reply(bytes: &[u8]) -> Option<(Replies, &[u8])> {
    if bytes.len() < LENGTH {
        return None;
    }
    let (length, behind) = bytes.split_at(LENGTH);
    let length = number_of_four(length) as usize;
    if behind.len() < length {
        return None;
    }
    let (text, rest) = behind.split_at(length);
    Some((reply_in(text)?, rest))
}

/// What replies in frames say. Any other reply is one for want of memory.
pub fn replies_in(frames: &[u8]) -> Result<Replies, Memory> {
    let mut replies = Replies::NOTHING;
    let mut left = frames;
    for _ in 0..frames.len() {
        if left.is_empty() {
            break;
        }
        let Some((reply, rest)) = first_reply(left) else {
            return Err(Memory);
        };
        replies = replies.and(reply);
        left = rest;
    }
    if left.is_empty() {
        return Ok(replies);
    }
    Err(Memory)
}
