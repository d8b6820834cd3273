//! All bytes received over a link.
ghost use Rattle.std.specs.Prelude.{◌≡◌, ℕ, ◌+◌, ◌<◌, ◌≤◌, ◌^◌, List, [], ◌++◌, length, take, drop, IfOk, OnErr, IfSome, IfNone, MatchOption, Ok, Err};
ghost use Rattle.std.specs.Io.KnownBytes.{append_known, prepend_known};
ghost use Rattle.sd_base.specs.Causes.{Rose};
ghost use Rattle.sd_client.specs.Coming.{Comes, gained};

use sd_base::Memory;
use sd_dial::DirectoryLink;
use sd_link::LinkFailed;
use std::alloc::Global;
use std::marker::Model;

/// How many bytes are read over one link: 64 MiB. One more may be taken, by which a flood is known.
pub const LIMIT: usize = 67_108_864;

/// How much room is made at a time.
const CHUNK: usize = 4096;

/// The bytes received, in front of room for more.
#[derive(Drop)]
pub struct Buffer {
    bytes: Vec<u8>,
    filled: usize,
}

impl Model for Buffer {
    ghost use Rattle.std.specs.Prelude.{List, ℕ, ◌≤◌, ◌<◌, ◌+◌, length, take};

    ghost Value = { List ℕ };

    ghost view = { λ b. take b.filled b.bytes.items };

    ghost invariant = { λ b. (b.filled ≤ length b.bytes.items) × (length b.bytes.items ≤ 67108865) × (b.filled < 67108864 → length b.bytes.items ≤ 67108864) };
}

/// Whether bytes came.
#[derive(Clone, Copy, PartialEq, Eq)]
pub enum Received {
    Bytes,
    Nothing,
}

impl Buffer {
    pub fn new(alloc: Global) -> Buffer
        ensures { result ≡ [] }
    {
        Buffer {
            bytes: Vec::new(alloc),
            filled: 0,
        }
    }

    /// The bytes received.
    pub fn bytes(&self) -> &[u8]
        ensures { result.now ≡ self.now }
    {
        &self.bytes[..self.filled]
    }

    /// How many bytes were received.
    pub fn len(&self) -> usize
        ensures { result ≡ length self.now }
    {
        self.filled
    }
}

/// Makes room behind the bytes received: up to the limit, and for one byte behind it.
fn make_room(bytes: &mut Vec<u8>, filled: usize) -> Result<(), Memory>
    requires within { filled ≤ length bytes.old.items }
    requires most { filled ≤ 67108864 }
    requires short { length bytes.old.items ≤ 67108865 }
    requires limited { filled < 67108864 → length bytes.old.items ≤ 67108864 }
    ensures kept { take filled bytes.new.items ≡ take filled bytes.old.items }
    ensures room { IfOk result (λ _. filled < length bytes.new.items) }
    ensures within { filled ≤ length bytes.new.items }
    ensures short { length bytes.new.items ≤ 67108865 }
    ensures limited { filled < 67108864 → length bytes.new.items ≤ 67108864 }
{
    if filled < bytes.len() {
        return Ok(());
    }
    let count = if filled < LIMIT {
        CHUNK.min(LIMIT - filled)
    } else {
        1
    };
    let zeros = [0u8; CHUNK];
    bytes.extend_from_slice(&zeros[..count])?;
    Ok(())
}

/// Receives behind the first bytes, and says how many came.
fn receive_behind<L: DirectoryLink>(link: &mut L, bytes: &mut [u8], filled: usize) -> Option<usize>
    requires { filled < length bytes.old }
    ensures front { take filled bytes.new ≡ take filled bytes.old }
    ensures count { IfSome result (λ n. (0 < n) × (filled + n ≤ length bytes.old)) }
    ensures received { MatchOption result (L.received link.new ≡ L.received link.old) (λ n. L.received link.new ≡ append_known (L.received link.old) (take n (drop filled bytes.new))) }
    ensures coming { MatchOption result (L.coming link.old ≡ L.coming link.new) (λ n. L.coming link.old ≡ prepend_known (take n (drop filled bytes.new)) (L.coming link.new)) }
    ensures sent { L.sent link.new ≡ L.sent link.old }
    ensures asked { L.asked link.new ≡ L.asked link.old }
    ensures behind { L.behind link.new ≡ L.behind link.old }
    ensures later { L.faults link.old ≤ L.faults link.new }
    ensures failed { IfNone result (Rose (L.faults link.old) (L.faults link.new) × L.ends link.new) }
{
    let (_, room) = bytes.split_at_mut(filled);
    match link.receive(room) {
        Ok(count) => Some(count),
        Err(LinkFailed) => None,
    }
}

impl Buffer {
    /// Receives some bytes behind those that are there.
    pub fn receive<L: DirectoryLink>(&mut self, link: &mut L) -> Result<Received, Memory>
        requires { length self.old ≤ 67108864 }
        ensures came { Comes (L.received link.old) (L.received link.new) (L.coming link.old) (L.coming link.new) self.old self.new }
        ensures some { result ≡ Ok Received.Bytes → length self.old < length self.new }
        ensures nothing { result ≡ Ok Received.Nothing → (self.new ≡ self.old) × Rose (L.faults link.old) (L.faults link.new) × L.ends link.new }
        ensures memory { OnErr result (self.new ≡ self.old) }
        ensures short { length self.new ≤ 67108865 }
        ensures limited { length self.old < 67108864 → length self.new ≤ 67108864 }
        ensures sent { L.sent link.new ≡ L.sent link.old }
        ensures asked { L.asked link.new ≡ L.asked link.old }
        ensures behind { L.behind link.new ≡ L.behind link.old }
        ensures later { L.faults link.old ≤ L.faults link.new }
    {
        make_room(&mut self.bytes, self.filled)?;
        match receive_behind(link, &mut self.bytes, self.filled) {
            Some(count) => {
                self.filled += count;
                Ok(Received::Bytes)
            }
            None => Ok(Received::Nothing),
        }
    }
}
