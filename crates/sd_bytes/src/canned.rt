// A link whose bytes to come are given.
ghost use Rattle.std.specs.Prelude.{◌≡◌, [], None, refl};

use sd_base::{Blobs, Bytes, Memory};
use sd_dial::DirectoryLink;
use sd_link::{Link, LinkFailed};
use std::alloc::Global;

/// A link that gives these bytes, once or without end, and keeps what it is sent. It tells nothing.
pub struct Canned {
    alloc: Global,
    bytes: Vec<u8>,
    at: usize,
    is_endless: bool,
    pieces: Blobs,
    faults: u64,
}

impl Drop for Canned {
    fn drop(self) {
        let Canned {
            alloc: _,
            bytes: _,
            at: _,
            is_endless: _,
            pieces: _,
            faults: _,
        } = self;
    }
}

impl Canned {
    pub fn new(alloc: Global, bytes: Vec<u8>, is_endless: bool) -> Canned
        ensures { result.faults ≡ 0 }
    {
        Canned {
            alloc,
            bytes,
            at: 0,
            is_endless,
            pieces: Blobs::new(alloc),
            faults: 0,
        }
    }

    /// The pieces that were sent.
    pub fn pieces(&self) -> &[Bytes] {
        self.pieces.items()
    }

    fn keep(&mut self, bytes: &[u8]) -> Result<(), Memory>
        ensures { self.new.faults ≡ self.old.faults }
    {
        self.pieces.push(Bytes::from_bytes(self.alloc, bytes)?)
    }
}

impl Link for Canned {
    ghost coming = { λ _. None };

    ghost sent = { λ _. None };

    ghost received = { λ _. None };

    ghost answer = { λ _ _. [] };

    ghost went = { λ _ _ _. Unit {0} };

    ghost faults = { λ l. l.faults };

    ghost refuses = { λ _. Unit {0} };

    ghost ends = { λ _. Unit {0} };

    fn send(&mut self, bytes: &[u8]) -> Result<(), LinkFailed> {
        match self.keep(bytes) {
            Ok(()) => Ok(()),
            Err(Memory) => {
                self.faults = self.faults.saturating_add(1);
                Err(LinkFailed)
            }
        }
    }

    fn receive(&mut self, buf: &mut [u8]) -> Result<usize, LinkFailed> {
        if self.is_endless && self.at >= self.bytes.len() {
            self.at = 0;
        }
        let at = self.at.min(self.bytes.len());
        let rest = &self.bytes[at..];
        if rest.is_empty() {
            self.faults = self.faults.saturating_add(1);
            return Err(LinkFailed);
        }
        let count = buf.len().min(rest.len());
        buf[..count].copy_from_slice(&rest[..count]);
        self.at = at + count;
        Ok(count)
    }
}

impl DirectoryLink for Canned {
    ghost asked = { λ _. None };

    ghost behind = { λ _. None };

    ghost asks = { λ before after m sound went. refl };

    ghost passes = { λ before after piece none went. refl };

    ghost waits = { λ before after went. refl };

    ghost keeps = { λ before after piece went. refl };

    ghost tells_pieces = { λ link some. some };

    ghost tells_coming = { λ link told e. Prim.cc };

    ghost answers = { λ link told piece e. Prim.cc };
}
