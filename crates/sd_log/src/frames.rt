//! Frames in a stream of bytes, of which the beginnings are kept.
use std::alloc::Global;

/// How many bytes of a frame's body are kept. A login's are kept up to the user's name: no password is.
const KEPT: usize = 1024;

/// The command of a login.
const LOGIN: u8 = 16;

/// A stream of frames, as far as it has come.
#[derive(Drop)]
pub struct Frames {
    /// The octets of the length, as many as have come.
    octets: [u8; 4],
    come: usize,
    /// How much of the body is to come.
    left: u32,
    /// What is kept of the body.
    head: Vec<u8>,
    /// Whether the frames are requests.
    are_requests: bool,
}

fn length_of_user(head: &[u8]) -> usize {
    match head {
        [_, high, low, ..] => usize::from(u16::from_be_bytes([*high, *low])),
        _ => 0,
    }
}

impl Frames {
    /// The frames of requests, or of replies, before the first.
    pub fn new(alloc: Global, are_requests: bool) -> Frames {
        Frames {
            octets: [0; 4],
            come: 0,
            left: 0,
            head: Vec::new(alloc),
            are_requests,
        }
    }

    /// What is kept of the body of the last frame.
    pub fn head(&self) -> &[u8] {
        self.head.as_slice()
    }

    /// How much of the body is to be kept, as far as that is known.
    fn most_kept(&self) -> usize {
        match self.head.as_slice() {
            [command, ..] if self.are_requests && *command == LOGIN => {
                length_of_user(self.head.as_slice()).saturating_add(3)
            }
            _ => KEPT,
        }
    }

    /// Keeps what is to be kept of these bytes of the body, in two steps: the first shows how much that is.
    fn keep(&mut self, bytes: &[u8]) {
        let first = bytes.len().min(3usize.saturating_sub(self.head.len()));
        let (front, rest) = bytes.split_at(first);
        if self.head.extend_from_slice(front).is_err() {
            return;
        }
        let room = self.most_kept().saturating_sub(self.head.len());
        let second = rest.split_at(rest.len().min(room)).0;
        let _ = self.head.extend_from_slice(second);
    }

    /// Takes one octet of the length.
    fn take_octet(&mut self, octet: u8) -> bool {
        if self.come < 4 {
            self.octets[self.come] = octet;
            self.come += 1;
        }
        if self.come == 4 {
            self.left = u32::from_be_bytes(self.octets);
            self.head.clear();
        }
        self.come == 4 && self.left == 0
    }

    /// Takes the front of these bytes, up to the end of a part of a frame: what is behind, and whether the frame is whole.
    pub fn take<'b>(&mut self, bytes: &'b [u8]) -> (&'b [u8], bool) {
        let [first, behind @ ..] = bytes else {
            return (bytes, false);
        };
        if self.come < 4 {
            let is_whole = self.take_octet(*first);
            if is_whole {
                self.come = 0;
            }
            return (behind, is_whole);
        }
        let (body, behind) = bytes.split_at(bytes.len().min(self.left as usize));
        self.keep(body);
        let taken = u32::try_from(body.len()).unwrap_or(u32::MAX);
        self.left = self.left.saturating_sub(taken);
        if self.left == 0 {
            self.come = 0;
        }
        (behind, self.left == 0)
    }
}
