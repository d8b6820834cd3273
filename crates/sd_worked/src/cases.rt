// One case, and how it is played.
use crate::files::Files;
use crate::lines::print_lines;
use crate::numbers::{print_hash, print_sid};
use crate::tools::Tool;
use sd_base::{Memory, MemorySink, MemorySource, Numbers};
use sd_plays::{cut_line, cut_word, number};
use std::alloc::Global;

/// How many bytes `#` a text may be made of.
const MOST: u32 = 1 << 25;

/// How many domains may be added.
const DOMAINS: u32 = 20_000;

/// How much is printed of what is written where domains are added, in bytes.
const END: usize = 60;

/// What is done with a text.
#[derive(Clone, Copy)]
enum Way {
    /// A tool is run.
    Run(Tool),
    /// Its lines are read one by one.
    Lines,
    /// It is read as a SID.
    Sid,
    /// It is hashed from this seed.
    Hash(u32),
}

/// A case, and how it is played.
#[derive(Clone, Copy)]
pub struct Case<'a> {
    name: &'a [u8],
    text: &'a [u8],
    way: Way,
    words: &'a [u8],
    /// The call of the source that fails, or 0.
    read: u32,
    /// The call of the sink that fails, or 0.
    write: u32,
    /// How many bytes `#` stand in front of the text.
    fill: u32,
    /// How many domains are added in front of the text.
    many: u32,
}

/// A list of the calls that are to fail: this one, or none where it is 0.
fn failing(alloc: Global, call: u32) -> Result<Numbers, Memory> {
    let mut calls = Numbers::new(alloc);
    if call > 0 {
        calls.push(call)?;
    }
    Ok(calls)
}

impl<'a> Case<'a> {
    fn by_tool(self, tool: Tool, words: &'a [u8]) -> Case<'a> {
        let mut case = self;
        case.way = Way::Run(tool);
        case.words = words;
        case
    }

    /// The same with what a line in front of the text says.
    fn with(self, line: &'a [u8]) -> Case<'a> {
        let (word, words) = cut_word(line);
        let value = number(words);
        let mut case = self;
        match word {
            b"idmap" => case = case.by_tool(Tool::Idmap, b"idmap"),
            b"netgroup" => case = case.by_tool(Tool::Netgroup, self.name),
            b"sudo" => case = case.by_tool(Tool::Sudo, self.name),
            b"words" => case.words = words,
            b"read" => case.read = value,
            b"write" => case.write = value,
            b"fill" => case.fill = value.min(MOST),
            b"many" => case.many = value.min(DOMAINS),
            b"lines" => case.way = Way::Lines,
            b"sid" => case.way = Way::Sid,
            _ => case.way = Way::Hash(value),
        }
        case
    }

    /// The case of a line `== NAME` and of the lines behind it.
    pub fn of(line: &'a [u8], text: &'a [u8]) -> Case<'a> {
        let (_, name) = cut_word(line);
        let mut case = Case {
            name,
            text,
            way: Way::Run(Tool::Scenario),
            words: b"scenario",
            read: 0,
            write: 0,
            fill: 0,
            many: 0,
        };
        for _ in 0..4 {
            let (line, rest) = cut_line(case.text);
            if let [b'%', b' ', line @ ..] = line {
                case = case.with(line);
                case.text = rest;
            }
        }
        case
    }

    /// The configuration and the entries that it is played over.
    pub fn files(&self, before: Files<'a>) -> Files<'a> {
        match self.way {
            Way::Run(Tool::Netgroup | Tool::Sudo) => before.with(self.text),
            _ => before,
        }
    }

    /// The text with what stands in front of it.
    fn input(&self, alloc: Global) -> Result<Vec<u8>, Memory> {
        let mut text = vec![in alloc; b'#'; self.fill as usize]?;
        for domain in 0..self.many {
            text.extend_from_slice(format!(in alloc; "domain S-1-9-{domain}\n")?.as_bytes())?;
        }
        text.extend_from_slice(self.text)?;
        Ok(text)
    }

    /// What the tool reads first, and what it reads then.
    fn sources(
        &self,
        alloc: Global,
        tool: Tool,
        files: Files<'_>,
    ) -> Result<(MemorySource, MemorySource), Memory> {
        let first = match tool {
            Tool::Scenario | Tool::Idmap => self.input(alloc)?,
            Tool::Netgroup | Tool::Sudo => Vec::from_slice(alloc, files.conf)?,
        };
        let then = Vec::from_slice(alloc, files.ldif)?;
        Ok((
            MemorySource::new(first, failing(alloc, self.read)?),
            MemorySource::new(then, Numbers::new(alloc)),
        ))
    }

    /// What is printed of what was written.
    fn shown<'b>(&self, written: &'b [u8]) -> &'b [u8] {
        if self.many == 0 {
            written
        } else {
            &written[written.len().saturating_sub(END)..]
        }
    }

    /// Runs a tool, and appends what it writes and its status.
    fn run(
        &self,
        alloc: Global,
        tool: Tool,
        files: Files<'_>,
        out: &mut Vec<u8>,
    ) -> Result<(), Memory> {
        let (mut first, mut then) = self.sources(alloc, tool, files)?;
        let mut sink = MemorySink::new(Vec::new(alloc), failing(alloc, self.write)?);
        let status = tool.run(alloc, self.words, &mut first, &mut then, &mut sink)?;
        out.extend_from_slice(self.shown(sink.bytes()))?;
        out.extend_from_slice(format!(in alloc; "= {status}\n")?.as_bytes())?;
        Ok(())
    }

    /// Plays the case, and appends what it comes to.
    pub fn print(&self, alloc: Global, files: Files<'_>, out: &mut Vec<u8>) -> Result<(), Memory> {
        match self.way {
            Way::Run(tool) => self.run(alloc, tool, files, out),
            Way::Lines => print_lines(alloc, self.text, out),
            Way::Sid => print_sid(alloc, cut_line(self.text).0, out),
            Way::Hash(seed) => print_hash(alloc, seed, cut_line(self.text).0, out),
        }
    }
}
