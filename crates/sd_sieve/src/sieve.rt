// The forget: what it will do, and its doing, which moves each entry once and takes no memory.
ghost use Rattle.std.specs.Prelude.{◌≡◌, ◌++◌, ◌∷◌, ◌+◌, ◌-◌, ◌^◌, ◌<◌, ◌≤◌, min, ℕ, List, [], true, length, reverse, take, vec_capacity, slice_index_or, IfOk, OnOk, if◌then◌else◌};
ghost use Rattle.sd_rules.specs.declared.replies.Entry.{Entry};
ghost use Rattle.sd_rules.specs.Needed as needed;
ghost use Rattle.sd_rules.specs.TextBytes as bytes;
ghost use Rattle.sd_voids.specs.Entries.{falls, numbers_fall};
ghost use Rattle.sd_index.specs.Table.{Indexes, Remakes};
ghost use Rattle.sd_findings.specs.Briefs.{AreBriefs};
ghost use Rattle.sd_findings.specs.Findings as findings;
ghost use Rattle.sd_findings.specs.Marks.{MarkNeeded};
ghost use Rattle.sd_sieve.specs.Plans.{IsPlanOf};
ghost use Rattle.sd_sieve.specs.Readings.{AreLooked};
ghost use Rattle.sd_sieve.specs.Sifting.{SiftsAt};
ghost use Rattle.sd_findings.specs.Whole as held;

use crate::looked::looked_of;
use crate::reads::{Looked, is_needed_by};
use sd_base::Memory;
use sd_cache::Primed;
use sd_findings::briefs::Briefs;
use sd_findings::findings::{Findings, find};
use sd_findings::whole::Whole;
use sd_index::{Index, Remade};
use sd_rules::{Entry, Event, Reply};
use sd_voids::texts::of_event;
use std::alloc::Global;
use std::mem;

/// What a forget will do with the entries of a journal.
#[derive(Drop)]
pub struct Plan {
    /// Of each entry, the oldest first, whether it is kept.
    pub marks: Vec<bool>,
    /// What is made anew of the index, for the entries that are kept.
    pub remade: Remade,
}

fn note_if(made: &mut Remade, is_kept: bool, entry: &Entry) -> Result<(), Memory>
    ensures { OnOk result ((past : List Entry) → numbers_fall entry.now.number past ≡ true → Remakes past made.old → Remakes (if is_kept then entry.now ∷ past else past) made.new) }
{
    if is_kept {
        made.note(entry)?;
    }
    Ok(())
}

/// The plan by the entries that are looked at; `made` are the briefs of all.
fn planned(
    alloc: Global,
    hasher: Primed,
    entries: &[Entry],
    made: &Briefs,
    looked: &Looked,
) -> Result<Plan, Memory>
    requires numbers { falls (reverse entries.now) ≡ true }
    requires briefs { AreBriefs entries.now made.now }
    requires looked { AreLooked (reverse entries.now) (reverse entries.now) looked.now }
    ensures { IfOk result (IsPlanOf entries.now) }
{
    let mut marks = Vec::with_capacity(alloc, entries.len())?;
    let mut remade = Remade::new(alloc, hasher);
    for place in 0..entries.len() {
        let entry = &entries[place];
        let is_kept = is_needed_by(entries, made, looked, place, entry);
        marks.push(is_kept)?;
        note_if(&mut remade, is_kept, entry)?;
    }
    Ok(Plan { marks, remade })
}

/// The plan by what was found of a journal.
fn planned_by(
    alloc: Global,
    hasher: Primed,
    whole: Whole<'_>,
    found: &Findings,
) -> Result<Plan, Memory>
    requires index { held.IsIndexed whole }
    requires found { findings.IsFound whole.entries.now found.now }
    ensures { IfOk result (IsPlanOf whole.entry.entries.now) }
{
    let looked = looked_of(alloc, whole, found)?;
    planned(alloc, hasher, whole.entries, &found.walk.briefs, &looked)
}

/// Plans a forget of a journal whose index this is. It reads most entries once, and never goes over all of them for each.
pub fn plan_of(
    alloc: Global,
    hasher: Primed,
    entries: &[Entry],
    index: &Index,
) -> Result<Plan, Memory>
    requires { Indexes (reverse entries.now) index.now }
    ensures { IfOk result (IsPlanOf entries.now) }
{
    let whole = Whole { entries, index };
    let found = find(alloc, whole)?;
    planned_by(alloc, hasher, whole, &found)
}

/// What stands in the place of an entry that was moved away.
fn nothing() -> Entry {
    Entry {
        number: 0,
        moment: 0,
        event: Event::Stop,
        reply: Reply::Done,
    }
}

/// Takes the entry at a place away.
fn take_at(entries: &mut Vec<Entry>, place: usize) -> Entry
    requires { place < length entries.old.items }
    ensures taken { result ≡ slice_index_or entries.old.items place result }
    ensures long { length entries.new.items ≡ length entries.old.items }
    ensures before { take place entries.new.items ≡ take place entries.old.items }
    ensures behind { (j : ℕ) (d : Entry) → place < j → slice_index_or entries.new.items j d ≡ slice_index_or entries.old.items j d }
{
    mem::replace(&mut entries[place], nothing())
}

/// Puts the entry at a place behind those that are handed back, `count` of them, which stand first.
fn put_back(entries: &mut Vec<Entry>, count: usize, place: usize)
    requires ordered { count ≤ place }
    requires within { place < length entries.old.items }
    ensures front { (d : Entry) → take (count + 1) entries.new.items ≡ take count entries.old.items ++ slice_index_or entries.old.items place d ∷ [] }
    ensures long { length entries.new.items ≡ length entries.old.items }
    ensures behind { (j : ℕ) (d : Entry) → place < j → slice_index_or entries.new.items j d ≡ slice_index_or entries.old.items j d }
{
    entries.swap(count, place);
}

/// Puts the entry at a place behind those that are kept, which have room for it, or behind those that are handed back. Returns how
/// many these are then.
fn sift_at(
    is_kept: bool,
    place: usize,
    kept: &mut Vec<Entry>,
    entries: &mut Vec<Entry>,
    count: usize,
) -> usize
    requires room { length kept.old.items + 1 ≤ vec_capacity kept.old }
    requires ordered { count ≤ place }
    requires within { place < length entries.old.items }
    ensures sifted { SiftsAt is_kept place count result kept.old.items kept.new.items entries.old.items entries.new.items }
    ensures room { vec_capacity kept.new ≡ vec_capacity kept.old }
{
    if is_kept {
        kept.push_reserved(take_at(entries, place));
        return count;
    }
    put_back(entries, count, place);
    count + 1
}

/// The entries of a journal after a forget, the oldest first in both lists.
#[derive(Drop)]
pub struct Sifted {
    pub kept: Vec<Entry>,
    pub dropped: Vec<Entry>,
    /// How much text is handed back, in bytes, with eight more for each text.
    pub text_bytes: u64,
}

/// The text bytes of an entry that is handed back.
fn bytes_back(is_kept: bool, entry: &Entry) -> u64
    ensures { result ≡ (if is_kept then 0 else min (bytes.bytes_of_event entry.now.event) (2 ^ 64 - 1)) }
{
    if is_kept { 0 } else { of_event(&entry.event) }
}

/// Moves the entries of a journal that are kept, by their marks, to a list that has room for them, and closes up those that are handed
/// back.
pub fn sift(mut entries: Vec<Entry>, marks: &[bool], mut kept: Vec<Entry>) -> Sifted
    requires marks { MarkNeeded entries.items marks.now }
    requires none { kept.items ≡ [] }
    requires room { length entries.items ≤ vec_capacity kept }
    ensures kept { reverse result.kept.items ≡ needed.needed (reverse entries.items) }
    ensures dropped { reverse result.dropped.items ≡ needed.forgotten (reverse entries.items) }
    ensures texts { result.text_bytes ≡ min (bytes.text_bytes (needed.forgotten (reverse entries.items))) (2 ^ 64 - 1) }
    ensures room { vec_capacity result.kept ≡ vec_capacity kept }
{
    let (mut count, mut text_bytes) = (0, 0u64);
    for place in 0..entries.len() {
        let is_kept = marks[place];
        text_bytes = text_bytes.saturating_add(bytes_back(is_kept, &entries[place]));
        count = sift_at(is_kept, place, &mut kept, &mut entries, count);
    }
    entries.truncate(count);
    Sifted {
        kept,
        dropped: entries,
        text_bytes,
    }
}
