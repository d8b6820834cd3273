//! Bytes that wait: those that a client sent and nobody read, or those that it is sent and did not take.
ghost use Rattle.std.specs.Prelude.{◌≡◌, ◌++◌, ◌↔◌, ◌≤◌, [], length, drop, min, take, IsTrue, OnOk, OnErr};

use sd_base::Memory;
use sd_inbox::drop_front;
use std::alloc::Global;
use std::marker::Model;

/// Bytes in the order in which they came.
#[derive(Drop)]
pub struct Pending {
    bytes: Vec<u8>,
    at: usize,
}

impl Model for Pending {
    ghost use Rattle.std.specs.Prelude.{List, ℕ, ◌≤◌, length, drop};

    ghost Value = { List ℕ };

    ghost view = { λ p. drop p.at p.bytes.items };

    ghost invariant = { λ p. p.at ≤ length p.bytes.items };
}

/// Copies as much of the front as there is room for.
fn copy_front(buf: &mut [u8], bytes: &[u8]) -> usize
    ensures count { result ≡ min (length buf.old) (length bytes.now) }
    ensures len { length buf.new ≡ length buf.old }
    ensures front { take result buf.new ≡ take result bytes.now }
{
    let count = buf.len().min(bytes.len());
    let front = &bytes[..count];
    buf[..count].copy_from_slice(front);
    count
}

impl Pending {
    /// No bytes. It takes no memory yet.
    pub fn new(alloc: Global) -> Pending
        ensures { result ≡ [] }
    {
        Pending {
            bytes: Vec::new(alloc),
            at: 0,
        }
    }

    /// The bytes.
    pub fn bytes(&self) -> &[u8]
        ensures { result.now ≡ self.now }
    {
        &self.bytes[self.at..]
    }

    /// Whether there are none.
    pub fn is_empty(&self) -> bool
        ensures { IsTrue result ↔ (self.now ≡ []) }
    {
        self.bytes().is_empty()
    }

    /// How many there are.
    pub fn len(&self) -> usize
        ensures { result ≡ length self.now }
    {
        self.bytes().len()
    }

    /// Adds bytes behind those that are there.
    pub fn add(&mut self, bytes: &[u8]) -> Result<(), Memory>
        ensures added { OnOk result (self.new ≡ self.old ++ bytes.now) }
        ensures unchanged { OnErr result (self.new ≡ self.old) }
    {
        self.compact();
        self.bytes.extend_from_slice(bytes)?;
        Ok(())
    }

    /// Lets the bytes begin in front.
    fn compact(&mut self)
        ensures { self.new ≡ self.old }
    {
        drop_front(&mut self.bytes, self.at);
        self.at = 0;
    }

    /// Passes so many bytes in front.
    pub fn pass(&mut self, count: usize)
        requires { count ≤ length self.old }
        ensures { self.new ≡ drop count self.old }
    {
        self.at += count;
    }

    /// Moves as many of the first `most` bytes as there is room for.
    pub fn give(&mut self, buf: &mut [u8], most: usize) -> usize
        ensures count { result ≡ min (length buf.old) (min most (length self.old)) }
        ensures len { length buf.new ≡ length buf.old }
        ensures front { take result buf.new ≡ take result self.old }
        ensures left { self.new ≡ drop result self.old }
    {
        let bytes = self.bytes();
        let count = copy_front(buf, &bytes[..most.min(bytes.len())]);
        self.pass(count);
        count
    }
}
