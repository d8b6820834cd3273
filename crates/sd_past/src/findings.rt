// What is found once of a whole journal, and asked for the row of each entry.
ghost use Rattle.std.specs.Prelude.{◌≡◌, IfOk};
ghost use Rattle.sd_past.specs.Found as findings;
ghost use Rattle.sd_findings.specs.Whole as held;

use crate::voided::voids_of;
use sd_base::Memory;
use sd_cache::Primed;
use sd_findings::outline::{Outline, outline_of};
use sd_findings::servers::Falls;
use sd_findings::users::Users;
use sd_findings::whole::Whole;
use sd_voids::voids::Voids;
use std::alloc::Global;

/// What is found of a whole journal before the rows of its entries are made.
#[derive(Drop)]
pub struct Findings {
    /// Of each entry, whether it holds the newest answer of a key.
    pub newest: Vec<bool>,
    /// The last invalidations.
    pub voids: Voids,
    /// What is found of users.
    pub users: Users,
    /// The last fall of each server.
    pub falls: Falls,
}

/// Finds what the rows of entries are made by; names of invalidations are hashed so.
pub fn find(alloc: Global, hasher: Primed, whole: Whole<'_>) -> Result<Findings, Memory>
    requires { held.IsIndexed whole }
    ensures { IfOk result (λ made. findings.AreFound whole.entry.entries.now made) }
{
    let Outline {
        newest,
        users,
        falls,
    } = outline_of(alloc, whole)?;
    let voids = voids_of(alloc, hasher, whole.entries)?;
    Ok(Findings {
        newest,
        voids,
        users,
        falls,
    })
}
