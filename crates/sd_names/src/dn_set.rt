//! DNs, each once.
ghost use Rattle.std.specs.Prelude.{◌≡◌, ◌++◌, [], ◌∷◌, not, if◌then◌else◌, IfOk, OnErr};
ghost use Rattle.std.specs.List.{list_any};
ghost use Rattle.sd_dn.specs.Comparing.{same_dn};

use crate::naming::{Name, name_of};
use indexmap::IndexMap;
use sd_base::Memory;
use sd_dn::Dn;
use std::alloc::Global;
use std::marker::Model;

/// DNs of which no two are equal; contracts see them as they were put, in that order.
#[derive(Drop)]
pub struct DnSet {
    dns: IndexMap<Name, Dn>,
}

impl Model for DnSet {
    ghost use Rattle.std.specs.Prelude.{List, map};
    ghost use Rattle.sd_dn.specs.declared.Pair.{Pair};
    ghost use Rattle.sd_names.specs.Naming.{AreNames};

    ghost Value = { List (List (List Pair)) };

    ghost view = { λ s. map (λ e. e.1) s.dns.entries };

    ghost invariant = { λ s. AreNames s.dns.entries };
}

impl DnSet {
    /// A set without DNs, which takes no memory yet.
    pub fn new(alloc: Global) -> DnSet
        ensures { result ≡ [] }
    {
        DnSet {
            dns: IndexMap::new(alloc),
        }
    }

    /// Puts a DN behind the others where none equals it, and says whether it did. The time that it takes does
    /// not grow with their number.
    pub fn insert(&mut self, alloc: Global, dn: Dn) -> Result<bool, Memory>
        ensures new { IfOk result (λ new. new ≡ not (list_any (same_dn dn) self.old)) }
        ensures dns { IfOk result (λ new. self.new ≡ (if new then self.old ++ dn ∷ [] else self.old)) }
        ensures err { OnErr result (self.new ≡ self.old) }
    {
        let name = name_of(alloc, &dn)?;
        if self.dns.contains_key(&name) {
            return Ok(false);
        }
        self.dns.insert(name, dn)?;
        Ok(true)
    }
}
