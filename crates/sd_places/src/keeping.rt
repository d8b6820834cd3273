//! The entries of a directory by their names.
ghost use Rattle.std.specs.Prelude.{◌≡◌, ℕ, OnErr, ◌∷◌, [], ◌++◌, ◌<◌, length, slice_set, filter, not, is_some, IfOk, OnOk, Option, Some, None, List};
ghost use Rattle.sd_dn.specs.Comparing.{same_dn};
ghost use Rattle.sd_dn.specs.Texts.{spelled, both_meet};
ghost use Rattle.sd_ldap.specs.declared.entry.DirEntry.{DirEntry};
ghost use Rattle.sd_names.specs.Naming.{lowered, parts};
ghost use Rattle.sd_places.specs.Covers.{present, at_slot, HasGrown};
ghost use Rattle.sd_places.specs.Keeping.{put, kept};
ghost use Rattle.sd_places.specs.Naming.{place_named, if_there, AreNamed, IsReserved, IsAlone, IsPlaceOf};

use crate::placed::{Placed, Slots};
use indexmap::IndexMap;
use sd_base::Memory;
use sd_dn::Dn;
use sd_ldap::DirEntry;
use sd_names::{Name, name_of};
use std::alloc::Global;

/// The places that are kept for names.
pub type Names = IndexMap<Name, usize>;

fn is_there(slots: &[Option<Placed>], place: usize) -> bool
    ensures { result ≡ is_some (at_slot slots.now place) }
{
    matches!(slots.get(place), Some(Some(_)))
}

/// The place of the entry of a name, where there is one.
fn place_there(slots: &[Option<Placed>], names: &Names, name: &Name) -> Option<usize>
    ensures { result ≡ if_there slots.now (place_named names.now.entries name.now) }
{
    match names.get(name) {
        Some(place) => {
            if is_there(slots, *place) {
                Some(*place)
            } else {
                None
            }
        }
        None => None,
    }
}

/// Where the entry of a DN is, if there is one.
#[tactic(auto, using(crate::proofs::Slots::place_found, crate::proofs::Slots::nowhere_none))]
pub fn place_of(
    alloc: Global,
    slots: &[Option<Placed>],
    names: &Names,
    dn: &Option<Dn>,
) -> Result<Option<usize>, Memory>
    requires { AreNamed names.now.entries slots.now }
    ensures { IfOk result (λ place. IsPlaceOf slots.now dn.now place) }
{
    match dn {
        Some(dn) => {
            let name = name_of(alloc, dn)?;
            Ok(place_there(slots, names, &name))
        }
        None => Ok(None),
    }
}

/// Keeps a place behind all others for the entry of a name that none has.
fn keep_behind(
    slots: &mut Slots,
    names: &mut Names,
    name: Name,
    placed: &Placed,
) -> Result<usize, Memory>
    requires named { AreNamed names.old.entries slots.old }
    requires name { lowered (spelled placed.now.dn) ≡ Some (parts name) }
    requires none { if_there slots.old (place_named names.old.entries name) ≡ None }
    ensures grown { HasGrown slots.old slots.new }
    ensures named { AreNamed names.new.entries slots.new }
    ensures place { IfOk result (λ place. IsReserved names.new.entries slots.new place placed.now) }
{
    let place = slots.len();
    slots.push(None)?;
    names.insert(name, place)?;
    Ok(place)
}

/// Keeps a place for the entry of a name: its own, else one behind all others.
fn keep_named(
    slots: &mut Slots,
    names: &mut Names,
    name: Name,
    placed: &Placed,
) -> Result<usize, Memory>
    requires named { AreNamed names.old.entries slots.old }
    requires name { lowered (spelled placed.now.dn) ≡ Some (parts name) }
    ensures grown { HasGrown slots.old slots.new }
    ensures named { AreNamed names.new.entries slots.new }
    ensures place { IfOk result (λ place. IsReserved names.new.entries slots.new place placed.now) }
{
    match place_there(slots.items(), names, &name) {
        Some(place) => Ok(place),
        None => keep_behind(slots, names, name, placed),
    }
}

/// Keeps a place behind all others for an entry whose text spells no DN.
fn keep_unnamed(slots: &mut Slots, names: &Names, placed: &Placed) -> Result<usize, Memory>
    requires named { AreNamed names.now.entries slots.old }
    requires none { lowered (spelled placed.now.dn) ≡ None }
    ensures grown { HasGrown slots.old slots.new }
    ensures named { AreNamed names.now.entries slots.new }
    ensures place { IfOk result (λ place. IsReserved names.now.entries slots.new place placed.now) }
{
    let place = slots.len();
    slots.push(None)?;
    Ok(place)
}

/// Keeps a place for an entry: that of the one that has its DN, else one behind all others.
pub fn keep_place(
    alloc: Global,
    slots: &mut Slots,
    names: &mut Names,
    placed: &Placed,
) -> Result<usize, Memory>
    requires named { AreNamed names.old.entries slots.old }
    ensures grown { HasGrown slots.old slots.new }
    ensures named { AreNamed names.new.entries slots.new }
    ensures place { IfOk result (λ place. IsReserved names.new.entries slots.new place placed.now) }
{
    match placed.name(alloc)? {
        Some(name) => keep_named(slots, names, name, placed),
        None => keep_unnamed(slots, names, placed),
    }
}

/// Lets an entry stand at the place that is kept for it.
#[tactic(auto, using(crate::proofs::Slots::filled_named))]
pub fn fill(slots: &mut Slots, names: &Names, place: usize, placed: Placed)
    requires named { AreNamed names.now.entries slots.old }
    requires kept { IsReserved names.now.entries slots.old place placed }
    ensures slots { slots.new ≡ slice_set slots.old place (Some placed) }
    ensures named { AreNamed names.now.entries slots.new }
    ensures put { present slots.new ≡ put (present slots.old) placed }
{
    slots.set(place, Some(placed));
}

/// Takes the one entry of a DN out of its place.
#[tactic(auto, using(crate::proofs::Slots::cleared_named))]
pub fn clear(slots: &mut Slots, names: &Names, place: usize, dn: &Option<Dn>)
    requires named { AreNamed names.now.entries slots.old }
    requires alone { IsAlone slots.old dn.now place }
    ensures slots { slots.new ≡ slice_set slots.old place None }
    ensures named { AreNamed names.now.entries slots.new }
    ensures rest { present slots.new ≡ filter (λ (e : DirEntry). not (both_meet same_dn (spelled e.dn) dn.now)) (present slots.old) }
{
    slots.set(place, None);
}

/// Puts an entry in the place of the one that has its DN, else behind all.
fn put(alloc: Global, slots: &mut Slots, names: &mut Names, entry: DirEntry) -> Result<(), Memory>
    requires { AreNamed names.old.entries slots.old }
    ensures named { AreNamed names.new.entries slots.new }
    ensures put { OnOk result (present slots.new ≡ put (present slots.old) entry) }
{
    let placed = Placed::new(alloc, entry)?;
    let place = keep_place(alloc, slots, names, &placed)?;
    fill(slots, names, place, placed);
    Ok(())
}

/// The entries by their names: of those of one name the last, in the place of the first.
#[tactic(auto, using(crate::proofs::Places::kept_more))]
pub fn by_name(alloc: Global, entries: Vec<DirEntry>) -> Result<(Slots, Names), Memory>
    ensures kept { IfOk result (λ made. present made.0 ≡ kept entries.items) }
    ensures named { IfOk result (λ made. AreNamed made.1.entries made.0) }
{
    let mut slots = Slots::new(alloc);
    let mut names = IndexMap::new(alloc);
    for entry in entries {
        put(alloc, &mut slots, &mut names, entry)?;
    }
    Ok((slots, names))
}
