//! A line of a dialer: a link, and the room in which it is kept once it is given back.
ghost use Rattle.std.specs.Prelude.{◌≡◌, ℕ, ◌-◌, ◌<◌, List, [], ◌∷◌, length, take, IfOk, OnOk, OnErr, MatchResult, false, Some, None, refl};
ghost use Rattle.std.specs.Io.{ReadsAtMost};
ghost use Rattle.std.specs.Io.KnownBytes.{append_known, prepend_known};
ghost use Rattle.sd_base.specs.Causes.{HasCause};
ghost use Rattle.sd_link.specs.Told.{with_piece};
ghost use Rattle.sd_stub_link.specs.Asking.{messages_of};
ghost use Rattle.sd_stub_link.specs.Past.{line_given, lines_of};
ghost use Rattle.sd_stub_link.specs.Standing.{Standing, is_next_listed, coming_of, received_of, behind_of, answer_of, with_reply, with_received, IsSendRefused, IsReceiveRefused, Refuses, Ends, Went};
ghost use Rattle.sd_stub_link.specs.Telling as telling;

use crate::given::Given;
use crate::link::StubLink;
use sd_dial::DirectoryLink;
use sd_link::{Link, LinkFailed};
use std::marker::Model;

/// A link that a dialer made.
pub struct StubLine<'a> {
    link: StubLink<'a>,
    room: Box<Given>,
}

impl Drop for StubLine<'_> {
    fn drop(self) {
        let StubLine { link: _, room: _ } = self;
    }
}

impl<'a> Model for StubLine<'a> {
    ghost use Rattle.sd_stub_link.specs.Standing.{Standing};

    ghost Value = { Standing };

    ghost view = { λ l. l.link };
}

impl<'a> StubLine<'a> {
    pub(crate) fn over(link: StubLink<'a>, room: Box<Given>) -> StubLine<'a>
        ensures { result ≡ link.entry }
    {
        StubLine { link, room }
    }

    /// Whether a call found no memory.
    pub fn starved(&self) -> bool
        ensures { result ≡ self.now.starved }
    {
        self.link.starved()
    }

    /// How many calls have failed.
    pub fn faults(&self) -> u64
        ensures { result ≡ self.now.faults }
    {
        self.link.faults()
    }

    /// How many calls were made over it.
    pub(crate) fn calls(&self) -> u64
        ensures { result ≡ self.now.calls - self.now.before }
    {
        self.link.own_calls()
    }

    /// Puts what was sent and received over it in front of the lines given back.
    pub(crate) fn keep_in(self, given: Given) -> Given
        ensures { lines_of result ≡ line_given self.entry.pieces (received_of self.entry) ∷ lines_of given }
    {
        let StubLine { link, room } = self;
        let (pieces, received) = link.into_parts();
        given.with_line(room, pieces, received)
    }
}

impl<'a> Link for StubLine<'a> {
    ghost coming = { λ l. coming_of l };

    ghost sent = { λ l. Some l.pieces };

    ghost received = { λ l. Some (received_of l) };

    ghost answer = { λ l piece. answer_of l piece };

    ghost went = { λ before piece after. Went before piece after };

    ghost faults = { λ l. l.faults };

    ghost refuses = { λ l. Refuses l };

    ghost ends = { λ l. Ends l };

    fn send(&mut self, bytes: &[u8]) -> Result<(), LinkFailed>
        ensures coming { MatchResult result (λ _. coming_of self.new ≡ append_known (coming_of self.old) (answer_of self.old bytes.now)) (λ _. coming_of self.new ≡ coming_of self.old) }
        ensures sent { MatchResult result (λ _. Some self.new.pieces ≡ with_piece (Some self.old.pieces) bytes.now) (λ _. Some self.new.pieces ≡ Some self.old.pieces) }
        ensures received { Some (received_of self.new) ≡ Some (received_of self.old) }
        ensures went { MatchResult result (λ _. Went self.old (Some bytes.now) self.new) (λ _. Went self.old None self.new) }
        ensures cause { HasCause self.old.faults self.new.faults result }
        ensures refused { OnErr result (Refuses self.new) }
        ensures ok { OnOk result (self.new ≡ with_reply self.old bytes.now (answer_of self.old bytes.now)) }
        ensures listed { OnOk result (is_next_listed self.old ≡ false) }
        ensures fails { OnErr result (IsSendRefused self.old self.new) }
    {
        self.link.send(bytes)
    }

    fn receive(&mut self, buf: &mut [u8]) -> Result<usize, LinkFailed>
        requires { 0 < length buf.old }
        ensures bound { ReadsAtMost result buf.new }
        ensures some { IfOk result (λ n. 0 < n) }
        ensures coming { MatchResult result (λ n. coming_of self.old ≡ prepend_known (take n buf.new) (coming_of self.new)) (λ _. coming_of self.new ≡ coming_of self.old) }
        ensures sent { Some self.new.pieces ≡ Some self.old.pieces }
        ensures received { MatchResult result (λ n. Some (received_of self.new) ≡ append_known (Some (received_of self.old)) (take n buf.new)) (λ _. Some (received_of self.new) ≡ Some (received_of self.old)) }
        ensures went { Went self.old None self.new }
        ensures cause { HasCause self.old.faults self.new.faults result }
        ensures ended { OnErr result (Ends self.new) }
        ensures ok { IfOk result (λ n. self.new ≡ with_received self.old n) }
        ensures listed { OnOk result (is_next_listed self.old ≡ false) }
        ensures fails { OnErr result (IsReceiveRefused self.old self.new) }
    {
        self.link.receive(buf)
    }
}

impl<'a> DirectoryLink for StubLine<'a> {
    ghost asked = { λ l. Some (messages_of l.pieces) };

    ghost behind = { λ l. behind_of l };

    ghost asks = { telling.asks };

    ghost passes = { telling.passes };

    ghost waits = { telling.waits };

    ghost keeps = { telling.keeps };

    ghost tells_pieces = { λ link some. refl };

    ghost tells_coming = { telling.tells_coming };

    ghost answers = { telling.answers };
}
