//! Records of lines, and the entries that they are.
ghost use Rattle.std.specs.Prelude.{◌≡◌, ◌<◌, ℕ, List, [], ◌∷◌, ◌++◌, length, Some, None, IfOk, IfSome, IfNone, OnOk, MatchResult};
ghost use Rattle.std.specs.Option.{option_copied, option_map};
ghost use Rattle.sd_ldap.specs.declared.entry.Attribute.{Attribute};
ghost use Rattle.sd_ldif.specs.Lines as lines;
ghost use Rattle.sd_ldif.specs.Forms as form_meanings;
ghost use Rattle.sd_ldif.specs.Records as grammar;
ghost use Rattle.sd_ldif.specs.Reading as reading;

use crate::LdifFault;
use crate::forms::{Form, form_of, is_passed, value_of};
use crate::lines::Line;
use sd_base::{Memory, Text, Texts};
use sd_dn::compare::same_text;
use sd_ldap::{Attribute, Attributes, DirEntries, DirEntry};
use std::alloc::Global;

/// A record that is not at its end.
pub struct Draft {
    dn: Text,
    attributes: Vec<Attribute>,
}

impl Drop for Draft {
    fn drop(self) {
        let Draft {
            dn: _,
            attributes: _,
        } = self;
    }
}

/// The entries of the records that are whole, and the record at hand.
pub struct Records {
    entries: DirEntries,
    draft: Option<Draft>,
}

impl Drop for Records {
    fn drop(self) {
        let Records {
            entries: _,
            draft: _,
        } = self;
    }
}

/// The value of a line, or the refusal of the line where it is no base64.
fn value_at(alloc: Global, number: u32, form: &Form<'_>) -> Result<Text, LdifFault>
    ensures { grammar.Answers (λ value. value) result (grammar.value_at number (form_meanings.value_of (form_meanings.seen_form form.now))) }
{
    match value_of(alloc, form)? {
        Some(value) => Ok(value),
        None => Err(LdifFault::BadBase64(number)),
    }
}

/// The DN of the line that begins a record.
fn dn_of(alloc: Global, line: &Line) -> Result<Text, LdifFault>
    ensures { grammar.Answers (λ dn. dn) result (grammar.dn_of (lines.seen line.now)) }
{
    match form_of(line.text.as_slice()) {
        Some(form) if same_text(form.name, b"dn") => value_at(alloc, line.number, &form),
        _ => Err(LdifFault::NoDn(line.number)),
    }
}

fn is_of_changes(name: &[u8]) -> bool
    ensures { result ≡ grammar.is_of_changes name.now }
{
    same_text(name, b"changetype") || same_text(name, b"control")
}

/// The name and the value of another line of a record.
fn pair_of<'a>(alloc: Global, line: &'a Line) -> Result<(&'a [u8], Text), LdifFault>
    ensures { grammar.Answers (λ p. grammar.pair p.0.now p.1) result (grammar.pair_of (lines.seen line.now)) }
{
    match form_of(line.text.as_slice()) {
        Some(form) if !is_of_changes(form.name) => {
            let value = value_at(alloc, line.number, &form)?;
            Ok((form.name, value))
        }
        _ => Err(LdifFault::BadLine(line.number)),
    }
}

/// An attribute of one value.
fn attribute_of(alloc: Global, name: &[u8], value: Text) -> Result<Attribute, Memory>
    ensures { IfOk result (λ made. made ≡ grammar.attribute name.now (value ∷ [])) }
{
    let mut values = Texts::new(alloc);
    values.push(value)?;
    Ok(Attribute {
        name: Text::from_bytes(alloc, name)?,
        values,
    })
}

/// Puts a value behind those of its attribute's name, or puts a new attribute at the end.
fn put(
    alloc: Global,
    attributes: &mut Vec<Attribute>,
    name: &[u8],
    value: Text,
) -> Result<(), Memory>
    ensures { OnOk result (attributes.new.items ≡ reading.with_value (grammar.pair name.now value) attributes.old.items) }
{
    for place in 0..attributes.len() {
        if same_text(attributes[place].name.bytes(), name) {
            return attributes[place].values.push(value);
        }
    }
    attributes.push(attribute_of(alloc, name, value)?)?;
    Ok(())
}

fn listed(alloc: Global, attributes: Vec<Attribute>) -> Result<Attributes, Memory>
    ensures { IfOk result (λ list. list ≡ attributes.items) }
{
    let mut list = Attributes::new(alloc);
    for attribute in attributes {
        list.push(attribute)?;
    }
    Ok(list)
}

impl Draft {
    /// The draft that a line begins.
    fn begin(alloc: Global, line: &Line) -> Result<Draft, LdifFault>
        ensures { grammar.Answers reading.seen_draft result (reading.draft_of (grammar.dn_of (lines.seen line.now))) }
    {
        let dn = dn_of(alloc, line)?;
        Ok(Draft {
            dn,
            attributes: Vec::new(alloc),
        })
    }

    /// Takes another line of the record.
    fn take(&mut self, alloc: Global, line: &Line) -> Result<(), LdifFault>
        ensures { grammar.Answers (λ _. reading.seen_draft self.new) result (reading.draft_with (reading.seen_draft self.old) (grammar.pair_of (lines.seen line.now))) }
    {
        let (name, value) = pair_of(alloc, line)?;
        put(alloc, &mut self.attributes, name, value)?;
        Ok(())
    }

    /// Its entry.
    fn end(self, alloc: Global) -> Result<DirEntry, Memory>
        ensures { IfOk result (λ entry. entry ≡ reading.seen_draft self) }
    {
        let Draft { dn, attributes } = self;
        let attributes = listed(alloc, attributes)?;
        Ok(DirEntry { dn, attributes })
    }
}

impl Records {
    /// No line is read yet.
    pub fn new(alloc: Global) -> Records
        ensures { reading.seen_records result ≡ reading.state [] None }
    {
        Records {
            entries: DirEntries::new(alloc),
            draft: None,
        }
    }

    /// Ends the record at hand.
    fn end_draft(&mut self, alloc: Global) -> Result<(), Memory>
        ensures { OnOk result (reading.seen_records self.new ≡ reading.parted (reading.seen_records self.old)) }
    {
        match self.draft.take() {
            Some(draft) => self.entries.push(draft.end(alloc)?),
            None => Ok(()),
        }
    }

    /// Takes a line of a record, or the line that begins one.
    fn take_counted(&mut self, alloc: Global, line: &Line) -> Result<(), LdifFault>
        ensures { grammar.Answers (λ _. reading.seen_records self.new) result (reading.taken (reading.seen_records self.old).entries (reading.seen_records self.old).draft (lines.seen line.now)) }
    {
        match &mut self.draft {
            Some(draft) => draft.take(alloc, line),
            None => {
                self.draft = Some(Draft::begin(alloc, line)?);
                Ok(())
            }
        }
    }

    /// Takes a line with those that continue it.
    pub fn take(&mut self, alloc: Global, line: &Line) -> Result<(), LdifFault>
        ensures { grammar.Answers (λ _. reading.seen_records self.new) result (reading.step (reading.seen_records self.old) (lines.seen line.now)) }
    {
        if is_passed(line) {
            return Ok(());
        }
        if line.text.is_empty() {
            self.end_draft(alloc)?;
            return Ok(());
        }
        self.take_counted(alloc, line)
    }

    /// The entries, once all lines are taken.
    pub fn end(mut self, alloc: Global) -> Result<DirEntries, Memory>
        ensures { IfOk result (λ entries. entries ≡ (reading.parted (reading.seen_records self)).entries) }
    {
        self.end_draft(alloc)?;
        let Records { entries, draft: _ } = self;
        Ok(entries)
    }
}
