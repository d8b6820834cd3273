// A link to a directory in memory that notes what it is asked.
ghost use Rattle.std.specs.Prelude.{◌≡◌, [], None, refl};

use crate::trouble::{Call, Trouble};
use sd_base::Memory;
use sd_dial::DirectoryLink;
use sd_ldap::{Decoded, Message, Operation, decode};
use sd_link::{Link, LinkFailed};
use sd_stub::Directory;
use std::alloc::Global;

/// How many calls were made over all lines.
#[derive(Clone, Copy)]
pub struct Calls {
    pub dials: u64,
    pub sends: u64,
    pub receives: u64,
}

/// A link to a directory. It tells no content.
pub struct NotedLine<'d> {
    pub alloc: Global,
    pub directory: &'d Directory,
    pub trouble: Trouble,
    /// The most bytes that a receive gives.
    pub most: usize,
    /// What was asked, by a word for each operation.
    pub asked: Vec<u8>,
    pub coming: Vec<u8>,
    pub at: usize,
    pub calls: Calls,
    pub faults: u64,
}

impl Drop for NotedLine<'_> {
    fn drop(self) {
        let NotedLine {
            alloc: _,
            directory: _,
            trouble: _,
            most: _,
            asked: _,
            coming: _,
            at: _,
            calls: _,
            faults: _,
        } = self;
    }
}

fn word_of(operation: &Operation) -> &'static [u8] {
    match operation {
        Operation::BindRequest(_, _, _) => b", bind",
        Operation::Search(_) => b", search",
        Operation::Unbind => b", unbind",
        _ => b", other",
    }
}

/// The word of the operation that a message asks.
fn noted(alloc: Global, piece: &[u8]) -> Result<&'static [u8], Memory> {
    match decode(alloc, piece) {
        Decoded::Whole(Message { id: _, operation }, _) => Ok(word_of(&operation)),
        Decoded::More | Decoded::Bad(_) => Ok(b", no message"),
        Decoded::Memory => Err(Memory),
    }
}

impl<'d> NotedLine<'d> {
    /// Takes a piece, and puts its answer behind what is to come.
    fn ask(&mut self, piece: &[u8]) -> Result<(), Memory>
        ensures { self.new.faults ≡ self.old.faults }
    {
        let word = noted(self.alloc, piece)?;
        let Ok(answer) = self.directory.answer(piece) else {
            return Err(Memory);
        };
        self.asked.extend_from_slice(word)?;
        self.coming.extend_from_slice(answer.as_slice())?;
        self.trouble.spoil(&mut self.coming)
    }
}

impl<'d> Link for NotedLine<'d> {
    ghost coming = { λ _. None };

    ghost sent = { λ _. None };

    ghost received = { λ _. None };

    ghost answer = { λ _ _. [] };

    ghost went = { λ _ _ _. Unit {0} };

    ghost faults = { λ l. l.faults };

    ghost refuses = { λ _. Unit {0} };

    ghost ends = { λ _. Unit {0} };

    fn send(&mut self, bytes: &[u8]) -> Result<(), LinkFailed> {
        self.calls.sends = self.calls.sends.saturating_add(1);
        if self.trouble.fails(Call::Send, self.calls.sends) || self.ask(bytes).is_err() {
            self.faults = self.faults.saturating_add(1);
            return Err(LinkFailed);
        }
        Ok(())
    }

    fn receive(&mut self, buf: &mut [u8]) -> Result<usize, LinkFailed> {
        self.calls.receives = self.calls.receives.saturating_add(1);
        if self.trouble.is_endless() && self.at >= self.coming.len() {
            self.at = 0;
        }
        let at = self.at.min(self.coming.len());
        let rest = &self.coming[at..];
        if self.trouble.fails(Call::Receive, self.calls.receives) || rest.is_empty() {
            self.faults = self.faults.saturating_add(1);
            return Err(LinkFailed);
        }
        let count = buf.len().min(rest.len()).min(self.most.max(1));
        buf[..count].copy_from_slice(&rest[..count]);
        self.at = at + count;
        Ok(count)
    }
}

impl<'d> DirectoryLink for NotedLine<'d> {
    ghost asked = { λ _. None };

    ghost behind = { λ _. None };

    ghost asks = { λ before after m sound went. refl };

    ghost passes = { λ before after piece none went. refl };

    ghost waits = { λ before after went. refl };

    ghost keeps = { λ before after piece went. refl };

    ghost tells_pieces = { λ link some. some };

    ghost tells_coming = { λ link told e. Prim.cc };

    ghost answers = { λ link told piece e. Prim.cc };
}
