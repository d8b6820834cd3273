// What a forget and a flush both ask of a whole journal, found in one walk over it.
ghost use Rattle.std.specs.Prelude.{◌≡◌, ◌∷◌, [], List, reverse, true, IfOk, OnOk};
ghost use Rattle.sd_rules.specs.declared.replies.Entry.{Entry};
ghost use Rattle.sd_findings.specs.Briefs.{is_plain};
ghost use Rattle.sd_findings.specs.Outlines.{IsOutlineOf};
ghost use Rattle.sd_findings.specs.Whole as held;

use crate::answers::is_newest_answer;
use crate::servers::{Falls, no_falls, note_fall};
use crate::users::{Users, no_users, note_users};
use crate::whole::Whole;
use sd_base::Memory;
use sd_rules::Entry;
use std::alloc::Global;

/// Which entries hold newest answers, and what a journal says of users and servers.
#[derive(Drop)]
pub struct Outline {
    /// Of each entry, the oldest first, whether it holds the newest answer of a key.
    pub newest: Vec<bool>,
    pub users: Users,
    /// The last fall of each server.
    pub falls: Falls,
}

/// What no entries say, with room for the marks of so many.
pub(crate) fn nothing(alloc: Global, count: usize) -> Result<Outline, Memory>
    ensures { IfOk result (λ made. (all : List Entry) → IsOutlineOf all [] made) }
{
    let newest = Vec::with_capacity(alloc, count)?;
    Ok(Outline {
        newest,
        users: no_users(alloc),
        falls: no_falls(alloc),
    })
}

/// Notes what an entry says; `before` are the entries before it. `near` is the place in the index of the last answer that was found
/// there.
pub(crate) fn note(
    outline: &mut Outline,
    near: &mut usize,
    whole: Whole<'_>,
    before: &[Entry],
    entry: &Entry,
) -> Result<(), Memory>
    requires { held.IsIndexed whole }
    ensures { OnOk result (IsOutlineOf (held.past_of whole.entry) (reverse before.now) outline.old → IsOutlineOf (held.past_of whole.entry) (entry.now ∷ reverse before.now) outline.new) }
{
    let is_newest = is_newest_answer(whole, before, entry, near)?;
    outline.newest.push(is_newest)?;
    note_users(&mut outline.users, before, entry)?;
    note_fall(&mut outline.falls, entry)
}

/// Notes a plain entry, which says nothing of answers, users or servers.
#[tactic(auto, using(crate::proofs::PlainLaws::newest_plain, crate::proofs::PlainLaws::users_plain, crate::proofs::PlainLaws::falls_plain))]
pub(crate) fn note_plain(outline: &mut Outline, entry: &Entry) -> Result<(), Memory>
    requires { is_plain entry.now.event ≡ true }
    ensures { OnOk result ((all part : List Entry) → IsOutlineOf all part outline.old → IsOutlineOf all (entry.now ∷ part) outline.new) }
{
    outline.newest.push(false)?;
    Ok(())
}

/// Finds which entries hold newest answers, the last logins of all users and the last falls of all servers.
pub fn outline_of(alloc: Global, whole: Whole<'_>) -> Result<Outline, Memory>
    requires { held.IsIndexed whole }
    ensures { IfOk result (λ made. IsOutlineOf (held.past_of whole.entry) (held.past_of whole.entry) made) }
{
    let entries = whole.entries;
    let mut outline = nothing(alloc, entries.len())?;
    let mut near = 0;
    for place in 0..entries.len() {
        note(
            &mut outline,
            &mut near,
            whole,
            &entries[..place],
            &entries[place],
        )?;
    }
    Ok(outline)
}
