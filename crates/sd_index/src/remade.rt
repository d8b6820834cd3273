// What is made anew of an index when entries are forgotten: an invalidation or a word of servers may go with them. All else stays.
ghost use Rattle.std.specs.Prelude.{◌≡◌, [], ◌∷◌, true, reverse, List, OnOk};
ghost use Rattle.sd_rules.specs.declared.replies.Entry.{Entry};
ghost use Rattle.sd_voids.specs.Entries.{numbers_fall};
ghost use Rattle.sd_index.specs.Table.{Remakes};
ghost use Rattle.sd_voids.specs.Voids.{HoldsVoids};

use crate::signals;
use sd_base::Memory;
use sd_cache::Primed;
use sd_rules::{Entry, Event};
use sd_voids::voids::Voids;
use std::alloc::Global;
use std::marker::Model;

/// The last invalidations and the entries that tell of servers, of those entries that were noted.
pub struct Remade {
    voids: Voids,
    /// The oldest first.
    signals: Vec<Entry>,
}

impl Drop for Remade {
    fn drop(self) {
        let Remade {
            voids: _,
            signals: _,
        } = self;
    }
}

impl Model for Remade {
    ghost use Rattle.std.specs.Prelude.{reverse};
    ghost use Rattle.sd_index.specs.Table.{Remake};

    ghost Value = { Remake };

    ghost view = { λ r. record { bounds = r.voids; signals = reverse r.signals.items } };
}

fn note_void(voids: &mut Voids, entry: &Entry) -> Result<(), Memory>
    ensures { OnOk result ((past : List Entry) → numbers_fall entry.now.number past ≡ true → HoldsVoids past voids.old → HoldsVoids (entry.now ∷ past) voids.new) }
{
    match &entry.event {
        Event::Void(what) => voids.note(what, entry.number),
        _ => Ok(()),
    }
}

impl Remade {
    /// No entry was noted; names are hashed so.
    #[tactic(auto, using(sd_voids::proofs::VoidLaws::holds_no_voids))]
    pub fn new(alloc: Global, hasher: Primed) -> Remade
        ensures { Remakes [] result }
    {
        Remade {
            voids: Voids::new(alloc, hasher),
            signals: Vec::new(alloc),
        }
    }

    /// Notes an entry, which stands behind those noted before.
    pub fn note(&mut self, entry: &Entry) -> Result<(), Memory>
        ensures { OnOk result ((past : List Entry) → numbers_fall entry.now.number past ≡ true → Remakes past self.old → Remakes (entry.now ∷ past) self.new) }
    {
        signals::make_room(&mut self.signals, entry)?;
        note_void(&mut self.voids, entry)?;
        signals::note(&mut self.signals, entry);
        Ok(())
    }

    pub(crate) fn into_parts(self) -> (Voids, Vec<Entry>)
        ensures bounds { result.0 ≡ self.bounds }
        ensures signals { reverse result.1.items ≡ self.signals }
    {
        let Remade { voids, signals } = self;
        (voids, signals)
    }
}
