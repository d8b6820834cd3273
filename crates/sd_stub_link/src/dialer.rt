//! A dialer in memory of links to directories.
ghost use Rattle.std.specs.Prelude.{◌≡◌, ℕ, ◌+◌, ◌<◌, ◌≤◌, ◌||◌, true, false, List, [], ◌∷◌, map, slice_get, IfOk, OnOk, OnErr, IfSome, MatchOption, IsSome, Option, Some, None};
ghost use Rattle.sd_base.specs.Causes.{HasCause, Rose};
ghost use Rattle.sd_dial.specs.Operations.{with_asked, with_received};
ghost use Rattle.sd_stub_link.specs.Asking.{messages_of};
ghost use Rattle.sd_stub_link.specs.Dialing.{Dialing, served, is_dial_listed, takes_lines, behind_at, line_to, dialled_at, undialled, undialled_starving, given_back, TellsDial, IsDialled, IsUndialled};
ghost use Rattle.sd_stub_link.specs.Modes.{is_down};
ghost use Rattle.sd_stub_link.specs.Past.{operations_of, lines_received};
ghost use Rattle.sd_stub_link.specs.Standing.{coming_of, received_of, behind_of};

use crate::given::{Dialled, Given};
use crate::line::StubLine;
use crate::link::{StubLink, lists};
use sd_base::{Copied, Memory, Numbers};
use sd_dial::Dialer;
use sd_link::LinkFailed;
use sd_stub::{Directory, Mode};
use std::alloc::Global;
use std::marker::Model;
use std::mem;

/// A server: the directory behind it, and how it behaves.
#[derive(Clone, Copy)]
pub struct StubServer<'a> {
    pub directory: &'a Directory,
    pub mode: Mode,
}

/// A dialer of links to servers, which are counted from 0. Some of its dials and of its lines' calls fail,
/// as told at its making.
pub struct StubDialer<'a> {
    alloc: Global,
    servers: Vec<StubServer<'a>>,
    given: Given,
    dialled: Vec<Dialled>,
    dials: u64,
    failing_dials: Numbers,
    calls: u64,
    failing_calls: Numbers,
    faults: u64,
    starved: bool,
}

impl Drop for StubDialer<'_> {
    fn drop(self) {
        let StubDialer {
            alloc: _,
            servers: _,
            given: _,
            dialled: _,
            dials: _,
            failing_dials: _,
            calls: _,
            failing_calls: _,
            faults: _,
            starved: _,
        } = self;
    }
}

impl<'a> Model for StubDialer<'a> {
    ghost use Rattle.std.specs.Prelude.{map};
    ghost use Rattle.sd_stub_link.specs.Dialing.{Dialing, served};
    ghost use Rattle.sd_stub_link.specs.Past.{past_of};

    ghost Value = { Dialing };

    ghost view = { λ d. record { servers = map served d.servers.items; past = past_of d.given d.dialled.items; dials = d.dials; failing_dials = d.failing_dials; calls = d.calls; failing_calls = d.failing_calls; faults = d.faults; starved = d.starved } };
}

impl<'a> StubDialer<'a> {
    /// A dialer of links to these servers. The dials whose numbers are listed, counted from 1, are to
    /// fail; so are the listed sends and receives of its lines, of which each line counts on from the
    /// calls of the lines that were given back before its dial.
    pub fn new(
        alloc: Global,
        servers: Vec<StubServer<'a>>,
        dials: Numbers,
        calls: Numbers,
    ) -> StubDialer<'a>
        ensures { result ≡ record { servers = map served servers.entry.items; past = []; dials = 0; failing_dials = dials; calls = 0; failing_calls = calls; faults = 0; starved = false } }
    {
        StubDialer {
            alloc,
            servers,
            given: Given::Nothing,
            dialled: Vec::new(alloc),
            dials: 0,
            failing_dials: dials,
            calls: 0,
            failing_calls: calls,
            faults: 0,
            starved: false,
        }
    }

    /// Whether a dial, or a line given back, found no memory.
    pub fn starved(&self) -> bool
        ensures { result ≡ self.now.starved }
    {
        self.starved
    }

    /// How many dials have failed, and lines given back of which a call failed.
    pub fn faults(&self) -> u64
        ensures { result ≡ self.now.faults }
    {
        self.faults
    }

    /// Whether the next dial is to fail.
    fn is_listed(&self) -> bool
        ensures { result ≡ is_dial_listed self.now }
    {
        lists(&self.failing_dials, self.dials.saturating_add(1))
    }

    fn refuse(&mut self)
        ensures moved { self.new ≡ undialled self.old }
        ensures rose { Rose self.old.faults self.new.faults }
        ensures later { self.old.faults ≤ self.new.faults }
    {
        self.dials = self.dials.saturating_add(1);
        self.faults = self.faults.saturating_add(1);
    }

    fn starve(&mut self)
        ensures moved { self.new ≡ undialled_starving self.old }
        ensures rose { Rose self.old.faults self.new.faults }
        ensures later { self.old.faults ≤ self.new.faults }
    {
        self.refuse();
        self.starved = true;
    }

    /// A server that takes lines.
    fn reach(&self, server: u32) -> Option<StubServer<'a>>
        ensures { MatchOption result (takes_lines (slice_get self.now.servers server) ≡ false) (λ s. (slice_get self.now.servers server ≡ Some (served s)) × (is_down s.mode ≡ false)) }
    {
        match self.servers.get(server as usize) {
            Some(found) => taking_lines(*found),
            None => None,
        }
    }

    /// Keeps a dial, behind the lines that were given back before it.
    fn keep_dial(&mut self, server: u32) -> Result<(), Memory>
        ensures ok { OnOk result (self.new ≡ dialled_at self.old server) }
        ensures err { OnErr result (self.new ≡ self.old) }
    {
        let given = mem::replace(&mut self.given, Given::Nothing);
        match self.dialled.push(Dialled { server, given }) {
            Ok(()) => {
                self.dials = self.dials.saturating_add(1);
                Ok(())
            }
            Err(refused) => {
                self.given = refused.value.given;
                Err(Memory)
            }
        }
    }

    /// A line to a server, with the room in which it is kept once it is given back.
    fn make(&mut self, server: u32, at: StubServer<'a>) -> Result<StubLine<'a>, Memory>
        ensures line { IfOk result (λ line. line ≡ line_to self.old (served at.entry)) }
        ensures ok { OnOk result (self.new ≡ dialled_at self.old server) }
        ensures err { OnErr result (self.new ≡ self.old) }
    {
        let failing = self.failing_calls.copy()?;
        let room = Box::new(self.alloc, Given::Nothing)?;
        self.keep_dial(server)?;
        let link = StubLink::counting_on(self.alloc, at.directory, at.mode, failing, self.calls);
        Ok(StubLine::over(link, room))
    }
}

/// A server, where it takes lines.
fn taking_lines<'a>(server: StubServer<'a>) -> Option<StubServer<'a>>
    ensures { MatchOption result (is_down server.entry.mode ≡ true) (λ s. (s ≡ server.entry) × (is_down s.mode ≡ false)) }
{
    match server.mode {
        Mode::Down => None,
        Mode::Up => Some(server),
        Mode::Cut => Some(server),
        Mode::Indef => Some(server),
        Mode::Long => Some(server),
        Mode::Code(_) => Some(server),
    }
}

impl<'a> Dialer for StubDialer<'a> {
    type Line = StubLine<'a>;

    ghost operations = { λ d. Some (operations_of d.past) };

    ghost received = { λ d. Some (lines_received d.past) };

    ghost behind = { λ d server. behind_at d server };

    ghost faults = { λ d. d.faults };

    #[tactic(auto, unfolding(crate::specs::Asking::messages_of))]
    fn dial(&mut self, server: u32) -> Result<StubLine<'a>, LinkFailed>
        ensures operations { TellsDial result server self.old self.new }
        ensures received { Some (lines_received self.new.past) ≡ Some (lines_received self.old.past) }
        ensures behind { (i : ℕ) → behind_at self.new i ≡ behind_at self.old i }
        ensures nothing_asked { IfOk result (λ line. IfSome (Some (messages_of line.pieces)) (λ messages. messages ≡ [])) }
        ensures nothing_sent { IfOk result (λ line. IfSome (Some line.pieces) (λ pieces. pieces ≡ [])) }
        ensures nothing_received { IfOk result (λ line. IfSome (Some (received_of line)) (λ bytes. bytes ≡ [])) }
        ensures nothing_comes { IfOk result (λ line. IfSome (coming_of line) (λ bytes. bytes ≡ [])) }
        ensures no_fault { IfOk result (λ line. line.faults ≡ 0) }
        ensures tells_asked { IsSome (Some (operations_of self.old.past)) → IfOk result (λ line. IsSome (Some (messages_of line.pieces))) }
        ensures tells_received { IsSome (Some (lines_received self.old.past)) → IfOk result (λ line. IsSome (Some (received_of line))) }
        ensures tells_behind { IfOk result (λ line. IfSome (behind_at self.old server) (λ told. behind_of line ≡ Some told)) }
        ensures cause { HasCause self.old.faults self.new.faults result }
        // The line is one to the server, and a dial fails only for its causes.
        ensures made { IfOk result (λ line. IsDialled self.old server line self.new) }
        ensures fails { OnErr result (IsUndialled self.old server self.new) }
    {
        if self.is_listed() {
            self.refuse();
            return Err(LinkFailed);
        }
        let Some(at) = self.reach(server) else {
            self.refuse();
            return Err(LinkFailed);
        };
        match self.make(server, at) {
            Ok(line) => Ok(line),
            Err(Memory) => {
                self.starve();
                Err(LinkFailed)
            }
        }
    }

    fn done(&mut self, line: StubLine<'a>)
        ensures operations { Some (operations_of self.new.past) ≡ with_asked (Some (operations_of self.old.past)) (Some (messages_of line.entry.pieces)) }
        ensures received { Some (lines_received self.new.past) ≡ with_received (Some (lines_received self.old.past)) (Some (received_of line.entry)) }
        ensures behind { (i : ℕ) → behind_at self.new i ≡ behind_at self.old i }
        ensures rises { 0 < line.entry.faults → Rose self.old.faults self.new.faults }
        ensures stays { line.entry.faults ≡ 0 → self.new.faults ≡ self.old.faults }
        ensures moved { self.new ≡ given_back self.old line.entry }
    {
        self.starved = self.starved || line.starved();
        self.calls = self.calls.saturating_add(line.calls());
        if line.faults() > 0 {
            self.faults = self.faults.saturating_add(1);
        }
        let given = mem::replace(&mut self.given, Given::Nothing);
        self.given = line.keep_in(given);
    }
}
