//! What was sent and not heard yet.
ghost use Rattle.std.specs.Prelude.{◌≡◌, ◌+◌, ◌-◌, ◌≤◌, [], length, drop};
ghost use Rattle.sd_base.specs.Causes.{Rose};
ghost use Rattle.sd_inbox.specs.Taking.{Arrives};

use crate::taking::{LIMIT, Taken, drop_front, take_more};
use sd_base::Source;
use std::alloc::Global;
use std::marker::Model;

/// The bytes that came over a connection and were not passed yet, at most 1 GiB with those that were. Contracts see the
/// bytes and the place of the input at which they begin.
#[derive(Drop)]
pub struct Inbox {
    bytes: Vec<u8>,
    at: usize,
    before: usize,
}

impl Model for Inbox {
    ghost use Rattle.std.specs.Prelude.{◌+◌, ◌≤◌, length, drop};
    ghost use Rattle.sd_inbox.specs.Taking.{Unread};

    ghost Value = { Unread };

    ghost view = { λ i. record { place = i.before + i.at; bytes = drop i.at i.bytes.items } };

    ghost invariant = { λ i. (i.at ≤ length i.bytes.items) × (i.before + length i.bytes.items ≤ 1073741824) };
}

impl Inbox {
    /// At the beginning of an input. It takes no memory yet.
    pub fn new(alloc: Global) -> Inbox
        ensures { result ≡ record { place = 0; bytes = [] } }
    {
        Inbox {
            bytes: Vec::new(alloc),
            at: 0,
            before: 0,
        }
    }

    /// The bytes that are there.
    pub fn unread(&self) -> &[u8]
        ensures { result.now ≡ self.now.bytes }
    {
        &self.bytes[self.at..]
    }

    /// The place of the input at which they begin, counted from 0.
    pub fn place(&self) -> u64
        ensures { result ≡ self.now.place }
    {
        (self.before + self.at) as u64
    }

    /// Passes so many bytes.
    pub fn pass(&mut self, count: usize)
        requires { count ≤ length self.old.bytes }
        ensures { self.new ≡ record { place = self.old.place + count; bytes = drop count self.old.bytes } }
    {
        self.at += count;
    }

    /// Lets the bytes begin in front.
    fn compact(&mut self)
        ensures { self.new ≡ self.old }
    {
        drop_front(&mut self.bytes, self.at);
        self.before += self.at;
        self.at = 0;
    }

    /// Takes some bytes of a source behind those that are there.
    pub fn take_more<S: Source>(&mut self, source: &mut S) -> Taken
        ensures taken { Arrives result (S.left source.old) (S.left source.new) self.old self.new (Rose (S.faults source.old) (S.faults source.new)) }
        ensures later { S.faults source.old ≤ S.faults source.new }
    {
        self.compact();
        let room = LIMIT - (self.before + self.bytes.len());
        take_more(source, &mut self.bytes, room)
    }
}
