// Which answers are invalidated, by the last invalidation of each kind.
ghost use Rattle.std.specs.Prelude.{◌≡◌, ◌∷◌, ◌<◌, length, reverse, take, true, slice_index_or, IfOk, OnOk, Some};
ghost use Rattle.sd_rules.specs.Past as past;
ghost use Rattle.sd_journal.specs.Seen as seen;
ghost use Rattle.sd_voids.specs.Entries.{falls, numbers_fall};
ghost use Rattle.sd_voids.specs.Voids.{HoldsVoids};

use sd_base::Memory;
use sd_cache::Primed;
use sd_journal::past::Standing;
use sd_rules::{Entry, Event};
use sd_voids::voids::Voids;
use std::alloc::Global;

#[tactic(auto, using(crate::proofs::VoidedLaws::holds_other))]
fn note_void(voids: &mut Voids, before: &[Entry], entry: &Entry) -> Result<(), Memory>
    requires { numbers_fall entry.now.number (reverse before.now) ≡ true }
    ensures { OnOk result (HoldsVoids (reverse before.now) voids.old → HoldsVoids (entry.now ∷ reverse before.now) voids.new) }
{
    match &entry.event {
        Event::Void(what) => voids.note(what, entry.number),
        _ => Ok(()),
    }
}

/// The last invalidations of a journal; names are hashed so.
#[tactic(auto, using(sd_voids::proofs::Halves::numbers_before, crate::proofs::VoidedLaws::holds_none))]
pub fn voids_of(alloc: Global, hasher: Primed, entries: &[Entry]) -> Result<Voids, Memory>
    requires { falls (reverse entries.now) ≡ true }
    ensures { IfOk result (λ voids. HoldsVoids (reverse entries.now) voids) }
{
    let mut voids = Voids::new(alloc, hasher);
    for place in 0..entries.len() {
        note_void(&mut voids, &entries[..place], &entries[place])?;
    }
    Ok(voids)
}

/// Whether an invalidation that covers an answer stands after the entry that holds it, which is at a place.
#[tactic(auto, using(crate::proofs::VoidedLaws::void_after_is))]
fn is_void_after(voids: &Voids, all: &[Entry], place: usize, entry: &Entry, a: Standing<'_>) -> bool
    requires numbers { falls (reverse all.now) ≡ true }
    requires voids { HoldsVoids (reverse all.now) voids.now }
    requires within { place < length all.now }
    requires at { entry.now ≡ slice_index_or all.now place entry.now }
    requires holds { past.answer_in (reverse (take place all.now)) entry.now ≡ Some (seen.standing a) }
    ensures { result ≡ past.is_void_after (reverse all.now) (seen.standing a.entry) }
{
    a.number < voids.bound(a.own, a.answered)
}

/// Whether the answer that the entry at a place holds is invalidated.
pub fn is_voided(voids: &Voids, all: &[Entry], place: usize, entry: &Entry, a: Standing<'_>) -> bool
    requires numbers { falls (reverse all.now) ≡ true }
    requires voids { HoldsVoids (reverse all.now) voids.now }
    requires within { place < length all.now }
    requires at { entry.now ≡ slice_index_or all.now place entry.now }
    requires holds { past.answer_in (reverse (take place all.now)) entry.now ≡ Some (seen.standing a) }
    ensures { result ≡ past.is_voided (reverse all.now) (seen.standing a.entry) }
{
    a.marked || is_void_after(voids, all, place, entry, a)
}
