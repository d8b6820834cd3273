//! A link to a directory in memory, no call of which is to fail.
ghost use Rattle.std.specs.Prelude.{◌≡◌, ℕ, ◌<◌, List, [], length, take, IfOk, OnOk, OnErr, MatchResult, false, true, Some, None, refl};
ghost use Rattle.std.specs.Io.{ReadsAtMost};
ghost use Rattle.std.specs.Io.KnownBytes.{append_known, prepend_known};
ghost use Rattle.sd_base.specs.Causes.{HasCause};
ghost use Rattle.sd_link.specs.Told.{with_piece};
ghost use Rattle.sd_stub_link.specs.Asking.{messages_of};
ghost use Rattle.sd_stub_link.specs.Modes.{is_down};
ghost use Rattle.sd_stub_link.specs.Standing.{Standing, made, rest_of, coming_of, received_of, behind_of, answer_of, Went};
ghost use Rattle.sd_stub_link.specs.Telling as telling;

use sd_base::Items;
use sd_dial::DirectoryLink;
use sd_link::{Link, LinkFailed};
use sd_stub::{Directory, Mode};
use sd_stub_link::StubLink;
use std::alloc::Global;
use std::marker::Model;

/// A link whose sends fail only for want of memory, and whose receives only where no byte is to come.
#[derive(Drop)]
pub struct PlainLink<'a> {
    link: StubLink<'a>,
}

impl<'a> Model for PlainLink<'a> {
    ghost use Rattle.std.specs.Prelude.{◌≡◌, []};
    ghost use Rattle.sd_stub_link.specs.Standing.{Standing};

    ghost Value = { Standing };

    ghost view = { λ l. l.link };

    ghost invariant = { λ l. l.link.failing ≡ [] };
}

impl<'a> PlainLink<'a> {
    pub fn new(alloc: Global, directory: &'a Directory, mode: Mode) -> PlainLink<'a>
        requires { is_down mode ≡ false }
        ensures { result ≡ made directory.now mode [] 0 }
    {
        PlainLink {
            link: StubLink::new(alloc, directory, mode, Items::new(alloc)),
        }
    }

    /// Whether a call found no memory.
    pub fn starved(&self) -> bool
        ensures { result ≡ self.now.starved }
    {
        self.link.starved()
    }
}

impl<'a> Link for PlainLink<'a> {
    ghost coming = { λ l. coming_of l };

    ghost sent = { λ l. Some l.pieces };

    ghost received = { λ l. Some (received_of l) };

    ghost answer = { λ l piece. answer_of l piece };

    ghost went = { λ before piece after. Went before piece after };

    ghost faults = { λ l. l.faults };

    ghost refuses = { λ l. l.starved ≡ true };

    ghost ends = { λ l. rest_of l ≡ [] };

    fn send(&mut self, bytes: &[u8]) -> Result<(), LinkFailed>
        ensures coming { MatchResult result (λ _. coming_of self.new ≡ append_known (coming_of self.old) (answer_of self.old bytes.now)) (λ _. coming_of self.new ≡ coming_of self.old) }
        ensures sent { MatchResult result (λ _. Some self.new.pieces ≡ with_piece (Some self.old.pieces) bytes.now) (λ _. Some self.new.pieces ≡ Some self.old.pieces) }
        ensures received { Some (received_of self.new) ≡ Some (received_of self.old) }
        ensures went { MatchResult result (λ _. Went self.old (Some bytes.now) self.new) (λ _. Went self.old None self.new) }
        ensures cause { HasCause self.old.faults self.new.faults result }
        ensures refused { OnErr result (self.new.starved ≡ true) }
    {
        self.link.send(bytes)
    }

    fn receive(&mut self, buf: &mut [u8]) -> Result<usize, LinkFailed>
        requires { 0 < length buf.old }
        ensures bound { ReadsAtMost result buf.new }
        ensures some { IfOk result (λ n. 0 < n) }
        ensures coming { MatchResult result (λ n. coming_of self.old ≡ prepend_known (take n buf.new) (coming_of self.new)) (λ _. coming_of self.new ≡ coming_of self.old) }
        ensures sent { Some self.new.pieces ≡ Some self.old.pieces }
        ensures received { MatchResult result (λ n. Some (received_of self.new) ≡ append_known (Some (received_of self.old)) (take n buf.new)) (λ _. Some (received_of self.new) ≡ Some (received_of self.old)) }
        ensures went { Went self.old None self.new }
        ensures cause { HasCause self.old.faults self.new.faults result }
        ensures ended { OnErr result (rest_of self.new ≡ []) }
    {
        self.link.receive(buf)
    }
}

impl<'a> DirectoryLink for PlainLink<'a> {
    ghost asked = { λ l. Some (messages_of l.pieces) };

    ghost behind = { λ l. behind_of l };

    ghost asks = { telling.asks };

    ghost passes = { telling.passes };

    ghost waits = { telling.waits };

    ghost keeps = { telling.keeps };

    ghost tells_pieces = { λ link some. refl };

    ghost tells_coming = { telling.tells_coming };

    ghost answers = { telling.answers };
}
