//! A link in memory to a directory.
ghost use Rattle.std.specs.Prelude.{◌≡◌, ◌≢◌, ℕ, Bool, ◌+◌, ◌-◌, ◌<◌, ◌≤◌, ◌^◌, ◌==◌, List, [], ◌∷◌, ◌++◌, length, take, drop, min, false, true, IfOk, OnOk, OnErr, MatchResult, Some, None, refl};
ghost use Rattle.std.specs.Io.{ReadsAtMost};
ghost use Rattle.std.specs.Io.KnownBytes.{append_known, prepend_known};
ghost use Rattle.sd_base.specs.Causes.{HasCause, Rose};
ghost use Rattle.sd_link.specs.Told.{with_piece};
ghost use Rattle.sd_stub_link.specs.Asking.{messages_of};
ghost use Rattle.sd_stub_link.specs.Modes.{is_down, has_ended};
ghost use Rattle.sd_stub_link.specs.Standing.{Standing, made, is_listed, is_next_listed, counted, rest_of, coming_of, received_of, behind_of, answer_of, refused, refused_starving, with_reply, with_received, IsSendRefused, IsReceiveRefused, Refuses, Ends, Went};
ghost use Rattle.sd_stub_link.specs.Telling as telling;

use crate::answering::answer;
use sd_base::{Blobs, Bytes, Items, Memory, Numbers};
use sd_dial::DirectoryLink;
use sd_link::{Link, LinkFailed};
use sd_stub::{Directory, Mode};
use std::alloc::Global;
use std::marker::Model;

/// A link behind which a directory stands. Some of its calls fail, as told at its making; where it finds
/// no memory a send fails too. A piece of 4 GiB or more finds none.
pub struct StubLink<'a> {
    alloc: Global,
    directory: &'a Directory,
    mode: Mode,
    put: Vec<u8>,
    at: usize,
    pieces: Blobs,
    before: u64,
    calls: u64,
    failing: Numbers,
    faults: u64,
    starved: bool,
}

impl Drop for StubLink<'_> {
    fn drop(self) {
        let StubLink {
            alloc: _,
            directory: _,
            mode: _,
            put: _,
            at: _,
            pieces: _,
            before: _,
            calls: _,
            failing: _,
            faults: _,
            starved: _,
        } = self;
    }
}

impl<'a> Model for StubLink<'a> {
    ghost use Rattle.std.specs.Prelude.{ℕ, ◌≤◌, length};
    ghost use Rattle.sd_stub_link.specs.Standing.{Standing};

    ghost Value = { Standing };

    ghost view = { λ l. record { entries = l.directory.now; mode = l.mode; put = l.put.items; at = l.at; pieces = l.pieces; before = l.before; calls = l.calls; failing = l.failing; faults = l.faults; starved = l.starved } };

    ghost invariant = { λ l. l.at ≤ length l.put.items };
}

impl<'a> StubLink<'a> {
    /// A link to a directory, whose server behaves by a mode. The sends and receives whose numbers are
    /// listed, counted together from 1, are to fail.
    pub fn new(
        alloc: Global,
        directory: &'a Directory,
        mode: Mode,
        failing: Numbers,
    ) -> StubLink<'a>
        requires { is_down mode ≡ false }
        ensures { result ≡ made directory.now mode failing 0 }
    {
        StubLink::counting_on(alloc, directory, mode, failing, 0)
    }

    /// A link whose calls are counted on from a number of calls.
    pub(crate) fn counting_on(
        alloc: Global,
        directory: &'a Directory,
        mode: Mode,
        failing: Numbers,
        before: u64,
    ) -> StubLink<'a>
        ensures { result ≡ made directory.now mode failing before }
    {
        StubLink {
            alloc,
            directory,
            mode,
            put: Vec::new(alloc),
            at: 0,
            pieces: Items::new(alloc),
            before,
            calls: before,
            failing,
            faults: 0,
            starved: false,
        }
    }

    /// Whether a call found no memory.
    pub fn starved(&self) -> bool
        ensures { result ≡ self.now.starved }
    {
        self.starved
    }

    /// How many calls have failed.
    pub fn faults(&self) -> u64
        ensures { result ≡ self.now.faults }
    {
        self.faults
    }

    /// How many calls were made over it.
    pub(crate) fn own_calls(&self) -> u64
        ensures { result ≡ self.now.calls - self.now.before }
    {
        self.calls.saturating_sub(self.before)
    }

    /// The pieces sent over it, and the bytes received.
    pub(crate) fn into_parts(self) -> (Blobs, Vec<u8>)
        ensures pieces { result.0 ≡ self.entry.pieces }
        ensures received { result.1.items ≡ received_of self.entry }
    {
        let StubLink {
            alloc: _,
            directory: _,
            mode: _,
            mut put,
            at,
            pieces,
            before: _,
            calls: _,
            failing: _,
            faults: _,
            starved: _,
        } = self;
        put.truncate(at);
        (pieces, put)
    }

    /// Whether the next call is to fail.
    fn is_listed(&self) -> bool
        ensures { result ≡ is_next_listed self.now }
    {
        lists(&self.failing, self.calls.saturating_add(1))
    }

    fn refuse(&mut self)
        ensures moved { self.new ≡ refused self.old }
        ensures rose { Rose self.old.faults self.new.faults }
        ensures later { self.old.faults ≤ self.new.faults }
    {
        self.calls = self.calls.saturating_add(1);
        self.faults = self.faults.saturating_add(1);
    }

    fn starve(&mut self)
        ensures moved { self.new ≡ refused_starving self.old }
        ensures rose { Rose self.old.faults self.new.faults }
        ensures later { self.old.faults ≤ self.new.faults }
    {
        self.refuse();
        self.starved = true;
    }

    /// Whether a cut link has ended.
    fn has_ended(&self) -> bool
        ensures { result ≡ has_ended self.now.mode self.now.put }
    {
        match self.mode {
            Mode::Cut => !self.put.is_empty(),
            Mode::Up => false,
            Mode::Down => false,
            Mode::Indef => false,
            Mode::Long => false,
            Mode::Code(_) => false,
        }
    }

    fn reply_to(&self, piece: &[u8]) -> Result<Vec<u8>, Memory>
        ensures { IfOk result (λ v. v.items ≡ answer_of self.now piece.now) }
    {
        if self.has_ended() {
            return Ok(Vec::new(self.alloc));
        }
        answer(self.alloc, self.directory, self.mode, piece)
    }

    /// Takes a piece, and puts its reply behind the bytes to come.
    fn ask(&mut self, piece: &[u8]) -> Result<(), Memory>
        requires { length piece.now < 2 ^ 32 }
        ensures ok { OnOk result (self.new ≡ with_reply self.old piece.now (answer_of self.old piece.now)) }
        ensures err { OnErr result (self.new ≡ self.old) }
        ensures within { self.old.at ≤ length self.old.put }
    {
        let reply = self.reply_to(piece)?;
        keep(self.alloc, &mut self.put, &mut self.pieces, &reply, piece)?;
        self.calls = self.calls.saturating_add(1);
        Ok(())
    }

    /// Counts a call that received so many bytes.
    fn advance(&mut self, count: usize)
        requires { count ≤ length (rest_of self.old) }
        ensures { self.new ≡ with_received self.old count }
    {
        self.calls = self.calls.saturating_add(1);
        self.at += count;
    }

    /// The bytes to come.
    fn rest(&self) -> &[u8]
        ensures { result.now ≡ rest_of self.now }
    {
        let (_, rest) = self.put.as_slice().split_at(self.at);
        rest
    }
}

/// Whether numbers have one of a call.
pub fn lists(numbers: &Numbers, call: u64) -> bool
    ensures { result ≡ is_listed numbers.now call }
{
    numbers.items().iter().any(|n| u64::from(*n) == call)
}

/// Puts a reply behind the bytes and a piece behind the pieces, both or neither.
fn keep(
    alloc: Global,
    put: &mut Vec<u8>,
    pieces: &mut Blobs,
    reply: &[u8],
    piece: &[u8],
) -> Result<(), Memory>
    ensures put { MatchResult result (λ _. put.new.items ≡ put.old.items ++ reply.now) (λ _. put.new.items ≡ put.old.items) }
    ensures pieces { MatchResult result (λ _. pieces.new ≡ pieces.old ++ piece.now ∷ []) (λ _. pieces.new ≡ pieces.old) }
{
    let piece = Bytes::from_bytes(alloc, piece)?;
    let before = put.len();
    put.extend_from_slice(reply)?;
    if pieces.push(piece).is_err() {
        put.truncate(before);
        return Err(Memory);
    }
    Ok(())
}

/// Copies as much of the front as there is room for.
fn copy_front(buf: &mut [u8], bytes: &[u8]) -> usize
    ensures count { result ≡ min (length buf.old) (length bytes.now) }
    ensures front { take result buf.new ≡ take result bytes.now }
{
    let count = buf.len().min(bytes.len());
    buf[..count].copy_from_slice(&bytes[..count]);
    count
}

impl<'a> Link for StubLink<'a> {
    ghost coming = { λ l. coming_of l };

    ghost sent = { λ l. Some l.pieces };

    ghost received = { λ l. Some (received_of l) };

    ghost answer = { λ l piece. answer_of l piece };

    ghost went = { λ before piece after. Went before piece after };

    ghost faults = { λ l. l.faults };

    ghost refuses = { λ l. Refuses l };

    ghost ends = { λ l. Ends l };

    fn send(&mut self, bytes: &[u8]) -> Result<(), LinkFailed>
        ensures coming { MatchResult result (λ _. coming_of self.new ≡ append_known (coming_of self.old) (answer_of self.old bytes.now)) (λ _. coming_of self.new ≡ coming_of self.old) }
        ensures sent { MatchResult result (λ _. Some self.new.pieces ≡ with_piece (Some self.old.pieces) bytes.now) (λ _. Some self.new.pieces ≡ Some self.old.pieces) }
        ensures received { Some (received_of self.new) ≡ Some (received_of self.old) }
        ensures went { MatchResult result (λ _. Went self.old (Some bytes.now) self.new) (λ _. Went self.old None self.new) }
        ensures cause { HasCause self.old.faults self.new.faults result }
        ensures refused { OnErr result (Refuses self.new) }
        ensures ok { OnOk result (self.new ≡ with_reply self.old bytes.now (answer_of self.old bytes.now)) }
        // A listed call fails, and it fails only where its call is listed or the link is starved.
        ensures listed { OnOk result (is_next_listed self.old ≡ false) }
        ensures fails { OnErr result (IsSendRefused self.old self.new) }
    {
        if self.is_listed() {
            self.refuse();
            return Err(LinkFailed);
        }
        if bytes.len() > u32::MAX as usize {
            self.starve();
            return Err(LinkFailed);
        }
        if self.ask(bytes).is_err() {
            self.starve();
            return Err(LinkFailed);
        }
        Ok(())
    }

    fn receive(&mut self, buf: &mut [u8]) -> Result<usize, LinkFailed>
        requires { 0 < length buf.old }
        ensures bound { ReadsAtMost result buf.new }
        ensures some { IfOk result (λ n. 0 < n) }
        ensures coming { MatchResult result (λ n. coming_of self.old ≡ prepend_known (take n buf.new) (coming_of self.new)) (λ _. coming_of self.new ≡ coming_of self.old) }
        ensures sent { Some self.new.pieces ≡ Some self.old.pieces }
        ensures received { MatchResult result (λ n. Some (received_of self.new) ≡ append_known (Some (received_of self.old)) (take n buf.new)) (λ _. Some (received_of self.new) ≡ Some (received_of self.old)) }
        ensures went { Went self.old None self.new }
        ensures cause { HasCause self.old.faults self.new.faults result }
        ensures ended { OnErr result (Ends self.new) }
        ensures ok { IfOk result (λ n. self.new ≡ with_received self.old n) }
        // A listed call fails, and it fails only where its call is listed or no byte is to come.
        ensures listed { OnOk result (is_next_listed self.old ≡ false) }
        ensures fails { OnErr result (IsReceiveRefused self.old self.new) }
    {
        if self.is_listed() || self.rest().is_empty() {
            self.refuse();
            return Err(LinkFailed);
        }
        let count = copy_front(buf, self.rest());
        self.advance(count);
        Ok(count)
    }
}

impl<'a> DirectoryLink for StubLink<'a> {
    ghost asked = { λ l. Some (messages_of l.pieces) };

    ghost behind = { λ l. behind_of l };

    ghost asks = { telling.asks };

    ghost passes = { telling.passes };

    ghost waits = { telling.waits };

    ghost keeps = { telling.keeps };

    ghost tells_pieces = { λ link some. refl };

    ghost tells_coming = { telling.tells_coming };

    ghost answers = { telling.answers };
}
