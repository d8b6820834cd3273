//! Reading a text.
ghost use Rattle.std.specs.Prelude.{◌≡◌, ℕ, List, [], ◌∷◌, Ok, None, IfOk, IfErr};
ghost use Rattle.sd_ldif.specs.Lines as lines;
ghost use Rattle.sd_ldif.specs.Records as grammar;
ghost use Rattle.sd_ldif.specs.Laws as laws;
ghost use Rattle.sd_ldif.specs.Reading as reading;

use crate::LdifFault;
use crate::lines::{Line, first_line, line_alone};
use crate::records::Records;
use sd_ldap::DirEntries;
use std::alloc::Global;

/// Reading, with the line at hand, which may go on.
#[derive(Drop)]
pub struct Reader {
    records: Records,
    line: Line,
    number: u32,
}

impl Reader {
    fn new(alloc: Global, first: &[u8]) -> Result<Reader, LdifFault>
        ensures { grammar.Answers reading.seen_reader result (Ok (reading.begun first.now)) }
    {
        Ok(Reader {
            records: Records::new(alloc),
            line: line_alone(alloc, 1, first)?,
            number: 1,
        })
    }

    /// The next line begins a new one.
    fn begin_line(&mut self, alloc: Global, text: &[u8]) -> Result<(), LdifFault>
        ensures { grammar.Answers (λ _. reading.seen_reader self.new) result (reading.after_start (reading.seen_reader self.old) text.now) }
    {
        self.records.take(alloc, &self.line)?;
        self.number = self.number.saturating_add(1);
        self.line.restart(self.number, text)?;
        Ok(())
    }

    /// Takes the next line.
    fn take(&mut self, alloc: Global, text: &[u8]) -> Result<(), LdifFault>
        ensures { grammar.Answers (λ _. reading.seen_reader self.new) result (reading.after_line (reading.seen_reader self.old) text.now) }
    {
        if !text.is_empty() && text[0] == b' ' {
            self.number = self.number.saturating_add(1);
            self.line.continue_by(text)?;
            return Ok(());
        }
        self.begin_line(alloc, text)
    }

    /// The entries, once all lines are taken.
    fn end(self, alloc: Global) -> Result<DirEntries, LdifFault>
        ensures { grammar.Answers (λ entries. entries) result (reading.at_end (reading.seen_reader self)) }
    {
        let Reader {
            mut records,
            line,
            number: _,
        } = self;
        records.take(alloc, &line)?;
        Ok(records.end(alloc)?)
    }
}

fn read_lines(alloc: Global, text: &[u8]) -> Result<DirEntries, LdifFault>
    ensures { grammar.Answers (λ entries. entries) result (reading.run_all (lines.lines_of text.now)) }
{
    let (first, mut left) = first_line(text);
    let mut reader = Reader::new(alloc, first)?;
    while let Some(rest) = left {
        let (next, behind) = first_line(rest);
        reader.take(alloc, next)?;
        left = behind;
    }
    reader.end(alloc)
}

/// Reads the entries of a text in the LDAP Data Interchange Format (RFC 2849), or tells the first line
/// that has no form there.
pub fn read_ldif(alloc: Global, text: &[u8]) -> Result<DirEntries, LdifFault>
    // What is read or refused is what the grammar says.
    ensures exact { grammar.Answers (λ entries. entries) result (grammar.ldif_of text.now) }
    // Each record's lines give its entry, in order.
    ensures entries { IfOk result (λ entries. laws.Gives text.now entries) }
    // The refusal is that of the first record that is refused, and of the first line there.
    ensures refused { IfErr result (λ fault. laws.Refuses fault text.now) }
{
    read_lines(alloc, text)
}
