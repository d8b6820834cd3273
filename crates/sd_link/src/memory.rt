//! A link in memory, for tests and for tables of cases.
ghost use Rattle.std.specs.Prelude.{◌≡◌, ℕ, List, [], ◌∷◌, ◌++◌, length, take, drop, min, OnOk, OnErr, Some};

use crate::link::{Link, LinkFailed};
use sd_base::{Blobs, Bytes, Items, Memory, Numbers};
use std::alloc::Global;

/// A link of which the bytes to come are given at its making, and of which some calls fail. Where it
/// finds no memory for a piece it fails too.
pub struct MemoryLink {
    alloc: Global,
    bytes: Vec<u8>,
    at: usize,
    pieces: Blobs,
    calls: u64,
    failing: Numbers,
    faults: u64,
    starved: bool,
}

impl Drop for MemoryLink {
    fn drop(self) {
        let MemoryLink {
            alloc: _,
            bytes: _,
            at: _,
            pieces: _,
            calls: _,
            failing: _,
            faults: _,
            starved: _,
        } = self;
    }
}

impl MemoryLink {
    /// A link that has these bytes to come, whatever is sent. The sends and receives whose numbers are
    /// listed, counted together from 1, are to fail.
    pub fn new(alloc: Global, bytes: Vec<u8>, failing: Numbers) -> MemoryLink
        ensures coming { ⟦<MemoryLink as Link>⟧.coming result ≡ Some bytes.items }
        ensures sent { ⟦<MemoryLink as Link>⟧.sent result ≡ Some [] }
        ensures received { ⟦<MemoryLink as Link>⟧.received result ≡ Some [] }
        ensures faults { ⟦<MemoryLink as Link>⟧.faults result ≡ 0 }
    {
        MemoryLink {
            alloc,
            bytes,
            at: 0,
            pieces: Items::new(alloc),
            calls: 0,
            failing,
            faults: 0,
            starved: false,
        }
    }

    /// The pieces sent, in their order.
    pub fn pieces(&self) -> &[Bytes]
        ensures { ⟦<MemoryLink as Link>⟧.sent self.now ≡ Some result.now }
    {
        self.pieces.items()
    }

    /// How many calls have failed.
    pub fn faults(&self) -> u64
        ensures { result ≡ ⟦<MemoryLink as Link>⟧.faults self.now }
    {
        self.faults
    }

    /// Whether a call found no memory.
    pub fn starved(&self) -> bool {
        self.starved
    }
}

fn lists(numbers: &Numbers, call: u64) -> bool {
    numbers.items().iter().any(|n| u64::from(*n) == call)
}

/// Copies as much of the front as there is room for.
fn copy_front(buf: &mut [u8], bytes: &[u8]) -> usize
    ensures count { result ≡ min (length buf.old) (length bytes.now) }
    ensures front { take result buf.new ≡ take result bytes.now }
{
    let count = buf.len().min(bytes.len());
    buf[..count].copy_from_slice(&bytes[..count]);
    count
}

/// Puts a piece at the end of a list.
fn keep(alloc: Global, pieces: &mut Blobs, bytes: &[u8]) -> Result<(), Memory>
    ensures ok { OnOk result (pieces.new ≡ pieces.old ++ bytes.now ∷ []) }
    ensures err { OnErr result (pieces.new ≡ pieces.old) }
{
    let piece = Bytes::from_bytes(alloc, bytes)?;
    pieces.push(piece)
}

impl Link for MemoryLink {
    ghost coming = { λ l. Some (drop l.at l.bytes.items) };

    ghost sent = { λ l. Some l.pieces };

    ghost received = { λ l. Some (take l.at l.bytes.items) };

    ghost answer = { λ _ _. [] };

    ghost went = { λ _ _ _. Unit {0} };

    ghost faults = { λ l. l.faults };

    ghost refuses = { λ _. Unit {0} };

    ghost ends = { λ _. Unit {0} };

    fn send(&mut self, bytes: &[u8]) -> Result<(), LinkFailed> {
        self.calls = self.calls.saturating_add(1);
        if lists(&self.failing, self.calls) {
            self.faults = self.faults.saturating_add(1);
            return Err(LinkFailed);
        }
        if keep(self.alloc, &mut self.pieces, bytes).is_err() {
            self.starved = true;
            self.faults = self.faults.saturating_add(1);
            return Err(LinkFailed);
        }
        Ok(())
    }

    fn receive(&mut self, buf: &mut [u8]) -> Result<usize, LinkFailed> {
        self.calls = self.calls.saturating_add(1);
        if self.at >= self.bytes.len() || lists(&self.failing, self.calls) {
            self.faults = self.faults.saturating_add(1);
            return Err(LinkFailed);
        }
        let (_, rest) = self.bytes.as_slice().split_at(self.at);
        let count = copy_front(buf, rest);
        self.at += count;
        Ok(count)
    }
}
