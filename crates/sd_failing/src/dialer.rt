// What makes links to a directory in memory.
ghost use Rattle.std.specs.Prelude.{◌≡◌, ℕ, None, IfOk};

use crate::line::{Calls, NotedLine};
use crate::trouble::{Call, Trouble};
use sd_base::Memory;
use sd_dial::Dialer;
use sd_link::{Link, LinkFailed};
use sd_stub::Directory;
use std::alloc::Global;

/// Room for the words of a line, in bytes, so that it can be given back without memory.
const WORDS: usize = 256;

/// A dialer of servers behind each of which the same directory stands. It tells no content.
#[derive(Drop)]
pub struct NotedDialer<'d> {
    pub alloc: Global,
    pub directory: &'d Directory,
    pub trouble: Trouble,
    /// The most bytes that a receive gives.
    pub most: usize,
    /// What was asked so far: each dial that was made, and the words of its line once that is given back.
    pub asked: Vec<u8>,
    pub calls: Calls,
    pub faults: u64,
}

impl<'d> NotedDialer<'d> {
    /// Notes a dial.
    fn note(&mut self, server: u32) -> Result<(), Memory>
        ensures { self.new.faults ≡ self.old.faults }
    {
        let between: &[u8] = if self.asked.is_empty() { b"" } else { b", " };
        let said = format!(in self.alloc; "dial {server}")?;
        self.asked.extend_from_slice(between)?;
        self.asked.extend_from_slice(said.as_bytes())?;
        self.asked.reserve(WORDS)?;
        Ok(())
    }

    fn line(&self) -> NotedLine<'d>
        ensures { ⟦<NotedLine<'d> as Link>⟧.faults result ≡ 0 }
    {
        NotedLine {
            alloc: self.alloc,
            directory: self.directory,
            trouble: self.trouble,
            most: self.most,
            asked: Vec::new(self.alloc),
            coming: Vec::new(self.alloc),
            at: 0,
            calls: self.calls,
            faults: 0,
        }
    }
}

impl<'d> Dialer for NotedDialer<'d> {
    type Line = NotedLine<'d>;

    ghost operations = { λ _. None };

    ghost received = { λ _. None };

    ghost behind = { λ _ _. None };

    ghost faults = { λ d. d.faults };

    fn dial(&mut self, server: u32) -> Result<NotedLine<'d>, LinkFailed> {
        self.calls.dials = self.calls.dials.saturating_add(1);
        if self.trouble.fails(Call::Dial, self.calls.dials) || self.note(server).is_err() {
            self.faults = self.faults.saturating_add(1);
            return Err(LinkFailed);
        }
        Ok(self.line())
    }

    fn done(&mut self, line: NotedLine<'d>) {
        self.calls = line.calls;
        // There is room for the words of a lookup of a user and of a bind.
        let _ = self.asked.extend_from_slice(line.asked.as_slice());
        if line.faults > 0 {
            self.faults = self.faults.saturating_add(1);
        }
    }
}
