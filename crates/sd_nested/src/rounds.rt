//! The rounds: each DN is asked once, and what is found leads on.
ghost use Rattle.std.specs.Prelude.{◌≡◌, ◌++◌, ◌≢◌, ℕ, List, [], ◌∷◌, Bool, map, if◌then◌else◌, Some, IfOk, OnOk};
ghost use Rattle.std.specs.List.{list_any, flat_map};
ghost use Rattle.sd_dn.specs.Comparing.{same_dn};
ghost use Rattle.sd_dn.specs.Texts as texts;
ghost use Rattle.sd_ldap.specs.declared.entry.DirEntry.{DirEntry};
ghost use Rattle.sd_nested.specs.Asking.{Exchanged, ExchangedOver, stop_of};
ghost use Rattle.sd_nested.specs.Rounds.{is_new, listed_dn, dns_of, new_among};

use crate::named::{push_group, push_group_values, push_user};
use crate::searcher::{Searcher, Stop};
use sd_base::{Copied, Memory, Text, Texts};
use sd_dial::Searched;
use sd_dn::{Dn, is_at_or_under, spelled};
use sd_ldap::{DirEntries, DirEntry};
use sd_names::DnSet;
use sd_rules::GroupRefs;
use std::alloc::Global;

/// Where the rounds go.
#[derive(Drop)]
pub enum Direction {
    /// From groups to their members at or under this base.
    Members(Dn),
    /// To the groups that hold a DN.
    Holders,
}

ghost use Rattle.sd_nested.specs.Directions.{question_by, admits_by, leads_by, kept_by, given_by, kept_in, leads_in, asked_by, kept_of, HandsOn};

fn admits(direction: &Direction, dn: &Dn) -> bool
    ensures { result ≡ admits_by direction.now dn.now }
{
    match direction {
        Direction::Members(base) => is_at_or_under(dn, base),
        Direction::Holders => true,
    }
}

/// Marks the DN that a text spells, where it is admitted and new, and says whether it is.
fn mark(alloc: Global, direction: &Direction, seen: &mut DnSet, text: &Text) -> Result<bool, Memory>
    ensures new { IfOk result (λ new. new ≡ is_new (admits_by direction.now) seen.old (texts.spelled text.now)) }
    ensures seen { IfOk result (λ new. seen.new ≡ (if new then seen.old ++ listed_dn (texts.spelled text.now) else seen.old)) }
{
    let Some(dn) = spelled(alloc, text.bytes())? else {
        return Ok(false);
    };
    if !admits(direction, &dn) {
        return Ok(false);
    }
    let new = seen.insert(alloc, dn)?;
    Ok(new)
}

/// The texts whose DNs are admitted and new, each DN once; these DNs are marked.
pub fn mark_new(
    alloc: Global,
    direction: &Direction,
    seen: &mut DnSet,
    onward: &[Text],
) -> Result<Texts, Memory>
    ensures due { IfOk result (λ due. due ≡ new_among (admits_by direction.now) seen.old onward.now) }
    ensures seen { IfOk result (λ due. seen.new ≡ seen.old ++ dns_of due) }
{
    let mut due = Texts::new(alloc);
    for text in onward {
        if mark(alloc, direction, seen, text)? {
            due.push(text.copy()?)?;
        }
    }
    Ok(due)
}

/// The entries that a search came to.
fn given(alloc: Global, searched: Searched) -> Result<DirEntries, Stop>
    ensures { HandsOn result searched }
{
    match searched {
        Searched::Entries(entries) => Ok(entries),
        Searched::Code(32) => Ok(DirEntries::new(alloc)),
        Searched::Code(code) => Err(Stop::Code(code)),
        Searched::Failed(why) => Err(Stop::Failed(why)),
        Searched::Memory => Err(Stop::Memory),
    }
}

fn ask<S: Searcher>(
    alloc: Global,
    searcher: &mut S,
    direction: &Direction,
    dn: &Text,
) -> Result<DirEntries, Stop>
    ensures tells { (told : List DirEntry) → S.tells searcher.old told → S.tells searcher.new told }
    ensures base { S.base searcher.new ≡ S.base searcher.old }
    ensures exchanged { Exchanged S.went searcher.old searcher.new (stop_of result) (Some (question_by direction.now dn.now ∷ [])) }
    ensures told { (told : List DirEntry) → S.tells searcher.old told → IfOk result (λ given. given ≡ given_by told (S.base searcher.old) direction.now dn.now) }
{
    match direction {
        Direction::Members(_) => given(alloc, searcher.read(dn)),
        Direction::Holders => given(alloc, searcher.holders(dn)),
    }
}

fn keep(direction: &Direction, kept: &mut GroupRefs, entry: &DirEntry) -> Result<(), Memory>
    ensures { OnOk result (kept.new ≡ kept.old ++ kept_by direction.now entry.now) }
{
    match direction {
        Direction::Members(_) => push_user(kept, entry),
        Direction::Holders => push_group(kept, entry),
    }
}

fn lead_on(direction: &Direction, onward: &mut Texts, entry: &DirEntry) -> Result<(), Memory>
    ensures { OnOk result (onward.new ≡ onward.old ++ leads_by direction.now entry.now) }
{
    match direction {
        Direction::Members(_) => push_group_values(onward, entry),
        Direction::Holders => onward.push(entry.dn.copy()?),
    }
}

/// Keeps what entries are called, and what they lead on to.
fn take_entries(
    direction: &Direction,
    kept: &mut GroupRefs,
    onward: &mut Texts,
    entries: &[DirEntry],
) -> Result<(), Memory>
    ensures kept { OnOk result (kept.new ≡ kept.old ++ flat_map (kept_by direction.now) entries.now) }
    ensures onward { OnOk result (onward.new ≡ onward.old ++ flat_map (leads_by direction.now) entries.now) }
{
    for entry in entries {
        keep(direction, kept, entry)?;
        lead_on(direction, onward, entry)?;
    }
    Ok(())
}

/// Asks each DN of a round.
fn ask_each<S: Searcher>(
    alloc: Global,
    searcher: &mut S,
    direction: &Direction,
    due: &[Text],
    kept: &mut GroupRefs,
    onward: &mut Texts,
) -> Result<(), Stop>
    ensures tells { (told : List DirEntry) → S.tells searcher.old told → S.tells searcher.new told }
    ensures base { S.base searcher.new ≡ S.base searcher.old }
    ensures exchanged { Exchanged S.went searcher.old searcher.new (stop_of result) (Some (map (question_by direction.now) due.now)) }
    ensures kept { (told : List DirEntry) → S.tells searcher.old told → OnOk result (kept.new ≡ kept.old ++ kept_in told (S.base searcher.old) direction.now due.now) }
    ensures onward { (told : List DirEntry) → S.tells searcher.old told → OnOk result (onward.new ≡ onward.old ++ leads_in told (S.base searcher.old) direction.now due.now) }
{
    for dn in due {
        let entries = ask(alloc, searcher, direction, dn)?;
        take_entries(direction, kept, onward, entries.items())?;
    }
    Ok(())
}

/// One round, which gives the DNs of the next.
fn go_round<S: Searcher>(
    alloc: Global,
    searcher: &mut S,
    direction: &Direction,
    due: &[Text],
    seen: &mut DnSet,
    kept: &mut GroupRefs,
) -> Result<Texts, Stop>
    ensures tells { (told : List DirEntry) → S.tells searcher.old told → S.tells searcher.new told }
    ensures base { S.base searcher.new ≡ S.base searcher.old }
    ensures exchanged { Exchanged S.went searcher.old searcher.new (stop_of result) (Some (map (question_by direction.now) due.now)) }
    ensures kept { (told : List DirEntry) → S.tells searcher.old told → OnOk result (kept.new ≡ kept.old ++ kept_in told (S.base searcher.old) direction.now due.now) }
    ensures next { (told : List DirEntry) → S.tells searcher.old told → IfOk result (λ next. next ≡ new_among (admits_by direction.now) seen.old (leads_in told (S.base searcher.old) direction.now due.now)) }
    ensures seen { IfOk result (λ next. seen.new ≡ seen.old ++ dns_of next) }
{
    let mut onward = Texts::new(alloc);
    ask_each(alloc, searcher, direction, due, kept, &mut onward)?;
    let next = mark_new(alloc, direction, seen, onward.items())?;
    Ok(next)
}

/// The rounds, `level + 1` at most: what is kept of the entries found.
pub fn go_rounds<S: Searcher>(
    alloc: Global,
    searcher: &mut S,
    direction: &Direction,
    seen: DnSet,
    first: Texts,
    level: u32,
) -> Result<GroupRefs, Stop>
    ensures tells { (told : List DirEntry) → S.tells searcher.old told → S.tells searcher.new told }
    ensures base { S.base searcher.new ≡ S.base searcher.old }
    ensures exchanged { ExchangedOver S.went searcher.old searcher.new (stop_of result) (S.tells searcher.old) (λ told. asked_by told (S.base searcher.old) direction.now seen first level) }
    ensures kept { (told : List DirEntry) → S.tells searcher.old told → IfOk result (λ kept. kept ≡ kept_of told (S.base searcher.old) direction.now seen first level) }
{
    let mut seen = seen;
    let mut due = first;
    let mut kept = GroupRefs::new(alloc);
    for round in 0..u64::from(level) + 1 {
        if due.is_empty() {
            return Ok(kept);
        }
        due = go_round(
            alloc,
            searcher,
            direction,
            due.items(),
            &mut seen,
            &mut kept,
        )?;
    }
    Ok(kept)
}
