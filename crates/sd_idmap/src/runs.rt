// The lines of the input, carried out one after the other.
ghost use Rattle.std.specs.Prelude.{◌≡◌, ℕ, ◌+◌, ◌<◌, ◌≤◌, ◌^◌, ◌++◌, List, length, IfOk, OnOk, true};
ghost use Rattle.std.specs.Option.{option_copied, option_map_or};
ghost use Rattle.sd_idmap.specs.Sids as sids;
ghost use Rattle.sd_idmap.specs.Slicing as slicing;
ghost use Rattle.sd_idmap.specs.Lines as lines;
ghost use Rattle.sd_idmap.specs.Transcript as script;

use crate::lines::{Line, cut_line, line_of};
use crate::sids::{Sid, push_sid};
use crate::slices::{SliceFault, Slices};
use sd_base::{Bytes, Memory};
use sd_wire::fields::{push_bytes, push_number};
use std::alloc::Global;

/// What was done so far: the slices of the domains, how many lines had an answer, and what was printed.
pub struct Run {
    pub slices: Slices,
    pub count: u64,
    pub printed: Vec<u8>,
}

impl Drop for Run {
    fn drop(self) {
        let Run {
            slices: _,
            count: _,
            printed: _,
        } = self;
    }
}

/// A word and a number, or another word where there is none.
fn worded(alloc: Global, number: Option<u32>, word: &[u8], none: &[u8]) -> Result<Bytes, Memory>
    ensures { IfOk result (λ text. text ≡ script.worded number word.now none.now) }
{
    let Some(number) = number else {
        return Bytes::from_bytes(alloc, none);
    };
    let mut text = Vec::new(alloc);
    push_bytes(&mut text, word)?;
    push_number(alloc, &mut text, u64::from(number))?;
    Bytes::from_bytes(alloc, text.as_slice())
}

fn sid_text(alloc: Global, sid: Option<Sid>) -> Result<Bytes, Memory>
    ensures { IfOk result (λ text. text ≡ script.sid_text sid) }
{
    let Some(sid) = sid else {
        return Bytes::from_bytes(alloc, b"unmapped");
    };
    let mut text = Vec::new(alloc);
    push_bytes(&mut text, b"sid ")?;
    push_sid(alloc, &mut text, &sid)?;
    Bytes::from_bytes(alloc, text.as_slice())
}

/// Adds a domain: its slice, or none where all are taken.
fn add(alloc: Global, slices: &mut Slices, sid: &Sid) -> Result<Option<u32>, Memory>
    requires { sids.is_domain (sids.numbers_of sid.now) ≡ true }
    ensures { IfOk result (λ slice. (slices.new ≡ slicing.added slices.old (sids.numbers_of sid.now))
        × (slice ≡ slicing.slice_of slices.new (sids.numbers_of sid.now))) }
{
    match slices.add(alloc, sid) {
        Ok(slice) => Ok(Some(slice)),
        Err(SliceFault::Full) => Ok(None),
        Err(SliceFault::Memory) => Err(Memory),
    }
}

impl Run {
    ghost use Rattle.sd_idmap.specs.Transcript.{state_of, answered, done, start};

    fn new(alloc: Global) -> Run
        ensures { state_of result ≡ start }
    {
        Run {
            slices: Slices::new(alloc),
            count: 0,
            printed: Vec::new(alloc),
        }
    }

    /// Prints one more answer on a line of its own.
    fn print(&mut self, alloc: Global, text: &[u8]) -> Result<(), Memory>
        requires { self.old.count < 2 ^ 33 }
        ensures { OnOk result (state_of self.new ≡ answered (state_of self.old) self.old.slices text.now) }
    {
        self.count += 1;
        push_number(alloc, &mut self.printed, self.count)?;
        push_bytes(&mut self.printed, b" ")?;
        push_bytes(&mut self.printed, text)?;
        push_bytes(&mut self.printed, b"\n")
    }

    fn do_domain(&mut self, alloc: Global, sid: &Sid) -> Result<(), Memory>
        requires room { self.old.count < 2 ^ 33 }
        requires domain { sids.is_domain (sids.numbers_of sid.now) ≡ true }
        ensures { OnOk result (state_of self.new ≡ done (state_of self.old) (Line.Domain sid.now)) }
    {
        let slice = add(alloc, &mut self.slices, sid)?;
        let text = worded(alloc, slice, b"slice ", b"full")?;
        self.print(alloc, text.bytes())
    }

    fn do_id(&mut self, alloc: Global, sid: &Sid) -> Result<(), Memory>
        requires { self.old.count < 2 ^ 33 }
        ensures { OnOk result (state_of self.new ≡ done (state_of self.old) (Line.Id sid.now)) }
    {
        let id = self.slices.to_id(sid);
        let text = worded(alloc, id, b"id ", b"unmapped")?;
        self.print(alloc, text.bytes())
    }

    fn do_number(&mut self, alloc: Global, id: u32) -> Result<(), Memory>
        requires { self.old.count < 2 ^ 33 }
        ensures { OnOk result (state_of self.new ≡ done (state_of self.old) (Line.Number id)) }
    {
        let sid = self.slices.to_sid(id)?;
        let text = sid_text(alloc, sid)?;
        self.print(alloc, text.bytes())
    }

    /// Does what a line asks for.
    fn do_line(&mut self, alloc: Global, line: &Line) -> Result<(), Memory>
        requires room { self.old.count < 2 ^ 33 }
        requires form { lines.is_fit line.now ≡ true }
        ensures done { OnOk result (state_of self.new ≡ done (state_of self.old) line.now) }
        ensures count { OnOk result (self.new.count ≤ self.old.count + 1) }
    {
        match line {
            Line::Domain(sid) => self.do_domain(alloc, sid),
            Line::Id(sid) => self.do_id(alloc, sid),
            Line::Number(id) => self.do_number(alloc, *id),
            Line::Skipped | Line::Bad => Ok(()),
        }
    }
}

/// What the lines of a text print.
pub fn printed_by(alloc: Global, text: &[u8]) -> Result<Bytes, Memory>
    requires { length text.now < 2 ^ 32 }
    ensures { IfOk result (λ printed. printed ≡ script.transcript text.now) }
{
    let mut run = Run::new(alloc);
    let mut left = Some(text);
    while let Some(bytes) = left {
        let (line, rest) = cut_line(bytes);
        run.do_line(alloc, &line_of(alloc, line)?)?;
        left = rest;
    }
    Bytes::from_bytes(alloc, run.printed.as_slice())
}
