// The lines of a configuration.
ghost use Rattle.std.specs.Prelude.{◌≡◌, ℕ, List, length, map, IfOk, Option, ◌+◌, ◌-◌, ◌^◌, ◌∷◌, min};
ghost use Rattle.std.specs.Option.{option_copied};
ghost use Rattle.sd_conf.specs.Lines.{Form};
ghost use Rattle.sd_conf.specs.Lines as forms;
ghost use Rattle.sd_pieces.specs.Pieces as split;

use crate::ConfFault;
use crate::texts::{pieces, trimmed};
use sd_pieces::cut;
use std::alloc::Global;

/// What a line says.
#[derive(Clone, Copy)]
pub enum Line<'a> {
    Blank,
    Section(&'a [u8]),
    Pair(&'a [u8], &'a [u8]),
    Malformed,
}

/// A key's line, with its section.
#[derive(Clone, Copy)]
pub struct Entry<'a> {
    pub section: &'a [u8],
    pub key: &'a [u8],
    pub value: &'a [u8],
    pub line: u32,
}

fn section_name(bytes: &[u8]) -> Option<&[u8]>
    ensures { option_copied result ≡ forms.section_of bytes.now }
{
    if bytes.len() > 2 && bytes[0] == b'[' && bytes[bytes.len() - 1] == b']' {
        return Some(&bytes[1..bytes.len() - 1]);
    }
    None
}

fn pair(bytes: &[u8]) -> Line<'_>
    ensures { forms.seen_line result ≡ forms.section_or_pair bytes.now None }
{
    let (key, value) = cut(b'=', bytes);
    let key = trimmed(key);
    match value {
        Some(value) if !key.is_empty() => Line::Pair(key, trimmed(value)),
        _ => Line::Malformed,
    }
}

/// What a line says.
pub fn line_of(line: &[u8]) -> Line<'_>
    ensures { forms.seen_line result ≡ forms.form_of line.now }
{
    let bytes = trimmed(line);
    if bytes.is_empty() || bytes[0] == b'#' || bytes[0] == b';' {
        return Line::Blank;
    }
    match section_name(bytes) {
        Some(name) => Line::Section(name),
        None => pair(bytes),
    }
}

/// The number of the line at a place, as far as it is told.
fn line_number(place: usize) -> u32
    ensures { result ≡ min (place + 1) (2 ^ 32 - 1) }
{
    if place < 0xffff_ffff {
        place as u32 + 1
    } else {
        0xffff_ffff
    }
}

/// A walk over the lines, with what it has found.
#[derive(Drop)]
pub struct Walk<'a> {
    section: Option<&'a [u8]>,
    entries: Vec<Entry<'a>>,
}

impl<'a> Walk<'a> {
    /// Takes the line at a place, counted from 0.
    fn take(&mut self, place: usize, line: Line<'a>) -> Result<(), ConfFault>
        ensures { (past : List Form) → length past ≡ place → forms.Stands self.old past → forms.Walks result self.new (forms.seen_line line.entry ∷ past) }
    {
        match line {
            Line::Blank => Ok(()),
            Line::Section(name) => {
                self.section = Some(name);
                Ok(())
            }
            Line::Pair(key, value) => self.push(place, key, value),
            Line::Malformed => Err(ConfFault::BadLine(line_number(place))),
        }
    }

    fn push(&mut self, place: usize, key: &'a [u8], value: &'a [u8]) -> Result<(), ConfFault>
        ensures { (past : List Form) → length past ≡ place → forms.Stands self.old past → forms.Walks result self.new (forms.Pair key.now value.now ∷ past) }
    {
        let line = line_number(place);
        match self.section {
            None => Err(ConfFault::NoSection(line)),
            Some(section) => {
                self.entries.push(Entry {
                    section,
                    key,
                    value,
                    line,
                })?;
                Ok(())
            }
        }
    }
}

/// The keys' lines of a text, oldest first.
pub fn entries(alloc: Global, text: &[u8]) -> Result<Vec<Entry<'_>>, ConfFault>
    ensures { forms.Finds (λ v. v.items) result (forms.forms_of (split.pieces 10 text.now)) }
{
    let lines = pieces(alloc, b'\n', text)?;
    let mut walk = Walk {
        section: None,
        entries: Vec::new(alloc),
    };
    for place in 0..lines.len() {
        if let Err(fault) = walk.take(place, line_of(lines[place])) {
            return Err(fault);
        }
    }
    Ok(walk.entries)
}
