// The outline, the notes and the briefs of a journal, found in one walk over it.
ghost use Rattle.std.specs.Prelude.{◌∷◌, [], List, reverse, IfOk, OnOk};
ghost use Rattle.sd_rules.specs.declared.replies.Entry.{Entry};
ghost use Rattle.sd_findings.specs.Notes.{AreNotesOf};
ghost use Rattle.sd_findings.specs.Outlines.{IsOutlineOf};
ghost use Rattle.sd_findings.specs.Walks.{IsWalkOf};
ghost use Rattle.sd_findings.specs.Whole as held;

use crate::briefs::{Briefs, is_plain, no_briefs, note_brief};
use crate::notes::{self, Notes};
use crate::outline::{self, Outline};
use crate::whole::Whole;
use sd_base::Memory;
use sd_rules::Entry;
use std::alloc::Global;

/// What is found in a walk over a journal.
pub struct Walk {
    pub outline: Outline,
    pub notes: Notes,
    /// Of each entry, the oldest first.
    pub briefs: Briefs,
    /// The place in the index of the last answer that was found there.
    near: usize,
}

impl Drop for Walk {
    fn drop(self) {
        let Walk {
            outline: _,
            notes: _,
            briefs: _,
            near: _,
        } = self;
    }
}

fn begin(alloc: Global, entries: &[Entry]) -> Result<Walk, Memory>
    ensures { IfOk result (λ made. (all : List Entry) → IsWalkOf all [] made) }
{
    let outline = outline::nothing(alloc, entries.len())?;
    let briefs = no_briefs(alloc, entries)?;
    Ok(Walk {
        outline,
        notes: notes::no_notes(alloc),
        briefs,
        near: 0,
    })
}

/// Notes an entry; `before` are those before it. Of a plain one little is asked.
fn note(
    outline: &mut Outline,
    notes: &mut Notes,
    near: &mut usize,
    whole: Whole<'_>,
    before: &[Entry],
    entry: &Entry,
) -> Result<(), Memory>
    requires { held.IsIndexed whole }
    ensures outline { OnOk result (IsOutlineOf (held.past_of whole.entry) (reverse before.now) outline.old → IsOutlineOf (held.past_of whole.entry) (entry.now ∷ reverse before.now) outline.new) }
    ensures notes { OnOk result (AreNotesOf (held.past_of whole.entry) (reverse before.now) notes.old → AreNotesOf (held.past_of whole.entry) (entry.now ∷ reverse before.now) notes.new) }
{
    if is_plain(&entry.event) {
        outline::note_plain(outline, entry)?;
        return notes::note_plain(notes, whole, entry);
    }
    outline::note(outline, near, whole, before, entry)?;
    notes::note(notes, whole, entry)
}

/// Goes to the next entry; `before` are those before it.
fn pass(walk: &mut Walk, whole: Whole<'_>, before: &[Entry], entry: &Entry) -> Result<(), Memory>
    requires { held.IsIndexed whole }
    ensures { OnOk result (IsWalkOf (held.past_of whole.entry) (reverse before.now) walk.old → IsWalkOf (held.past_of whole.entry) (entry.now ∷ reverse before.now) walk.new) }
{
    note(
        &mut walk.outline,
        &mut walk.notes,
        &mut walk.near,
        whole,
        before,
        entry,
    )?;
    note_brief(&mut walk.briefs, entry)
}

/// Goes over all entries.
fn pass_all(walk: &mut Walk, whole: Whole<'_>) -> Result<(), Memory>
    requires { held.IsIndexed whole }
    ensures { OnOk result (IsWalkOf (held.past_of whole.entry) [] walk.old → IsWalkOf (held.past_of whole.entry) (held.past_of whole.entry) walk.new) }
{
    let entries = whole.entries;
    for place in 0..entries.len() {
        pass(walk, whole, &entries[..place], &entries[place])?;
    }
    Ok(())
}

/// Goes over the entries of a journal once.
pub fn walk_over(alloc: Global, whole: Whole<'_>) -> Result<Walk, Memory>
    requires { held.IsIndexed whole }
    ensures { IfOk result (λ made. IsWalkOf (held.past_of whole.entry) (held.past_of whole.entry) made) }
{
    let mut walk = begin(alloc, whole.entries)?;
    pass_all(&mut walk, whole)?;
    Ok(walk)
}
