// What is found once of a whole journal.
ghost use Rattle.std.specs.Prelude.{IfOk};
ghost use Rattle.sd_findings.specs.Findings as findings;
ghost use Rattle.sd_findings.specs.Whole as held;

use crate::covers::{ByWhat, first_covered};
use crate::walk::{Walk, walk_over};
use crate::whole::Whole;
use sd_base::Memory;
use std::alloc::Global;

/// What is found of a whole journal before its entries are looked through.
pub struct Findings {
    pub walk: Walk,
    /// Of each name that is invalidated, the oldest of the newest answers that this covers.
    pub firsts: ByWhat,
}

impl Drop for Findings {
    fn drop(self) {
        let Findings { walk: _, firsts: _ } = self;
    }
}

/// Finds what entries are looked at for.
pub fn find(alloc: Global, whole: Whole<'_>) -> Result<Findings, Memory>
    requires { held.IsIndexed whole }
    ensures { IfOk result (λ found. findings.IsFound whole.entry.entries.now found) }
{
    let walk = walk_over(alloc, whole)?;
    let firsts = first_covered(
        alloc,
        whole.entries,
        walk.outline.newest.as_slice(),
        &walk.notes.lasts,
    )?;
    Ok(Findings { walk, firsts })
}
