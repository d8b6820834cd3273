//! An entry beside the DN that its text spells.
ghost use Rattle.std.specs.Prelude.{◌≡◌, ℕ, IfOk, Option};
ghost use Rattle.sd_dn.specs.Comparing.{same_dn, ends_with};
ghost use Rattle.sd_dn.specs.Texts.{spelled, both_meet};
ghost use Rattle.sd_match.specs.Answering.{is_child, in_scope};
ghost use Rattle.sd_names.specs.Naming.{IsNameOf};
ghost use Rattle.sd_places.specs.Numbers as numbers;

use crate::numbers::entry_numbers;
use sd_base::{Items, Memory};
use sd_dn::{Dn, dn_equal, is_at_or_under, spelled};
use sd_ldap::DirEntry;
use sd_names::{Name, name_of};
use std::alloc::Global;
use std::marker::Model;

/// An entry, and the DN that its text spells, where it spells one.
pub struct Placed {
    entry: DirEntry,
    dn: Option<Dn>,
}

impl Drop for Placed {
    fn drop(self) {
        let Placed { entry: _, dn: _ } = self;
    }
}

/// The entries of a directory by their places, and the places of those that were taken out.
pub type Slots = Items<Option<Placed>>;

impl Model for Placed {
    ghost use Rattle.std.specs.Prelude.{◌≡◌};
    ghost use Rattle.sd_ldap.specs.declared.entry.DirEntry.{DirEntry};
    ghost use Rattle.sd_dn.specs.Texts.{spelled};

    ghost Value = { DirEntry };

    ghost view = { λ p. p.entry };

    ghost invariant = { λ p. p.dn ≡ spelled p.entry.dn };
}

impl Placed {
    /// An entry, with the DN read that its text spells.
    pub fn new(alloc: Global, entry: DirEntry) -> Result<Placed, Memory>
        ensures { IfOk result (λ placed. placed ≡ entry) }
    {
        let dn = spelled(alloc, entry.dn.bytes())?;
        Ok(Placed { entry, dn })
    }

    /// The entry itself.
    pub fn entry(&self) -> &DirEntry
        ensures { result.now ≡ self.now }
    {
        &self.entry
    }

    /// Its name among others, where its text spells a DN.
    pub fn name(&self, alloc: Global) -> Result<Option<Name>, Memory>
        ensures { IfOk result (λ name. IsNameOf name (spelled self.now.dn)) }
    {
        match &self.dn {
            Some(dn) => Ok(Some(name_of(alloc, dn)?)),
            None => Ok(None),
        }
    }

    /// The numbers under which it is found.
    pub fn numbers(&self, alloc: Global) -> Result<Vec<u32>, Memory>
        ensures { IfOk result (λ made. made.items ≡ numbers.entry_numbers self.now) }
    {
        entry_numbers(alloc, &self.entry, &self.dn)
    }

    /// Whether it is the entry of this DN.
    pub fn is_named(&self, name: &Option<Dn>) -> bool
        ensures { result ≡ both_meet same_dn (spelled self.now.dn) name.now }
    {
        same(&self.dn, name)
    }

    /// Whether it is the entry of this DN, or stands under it.
    pub fn is_at_or_under(&self, base: &Option<Dn>) -> bool
        ensures { result ≡ both_meet ends_with (spelled self.now.dn) base.now }
    {
        match (&self.dn, base) {
            (Some(dn), Some(base)) => is_at_or_under(dn, base),
            _ => false,
        }
    }

    /// Whether a search from a base reaches it: 0 is the base itself, 1 one level below, 2 all below and it.
    pub fn is_in_scope(&self, scope: u8, base: &Option<Dn>) -> bool
        ensures { result ≡ both_meet (in_scope scope) (spelled self.now.dn) base.now }
    {
        match (&self.dn, base) {
            (Some(dn), Some(base)) => in_scope(scope, dn, base),
            _ => false,
        }
    }
}

fn same(a: &Option<Dn>, b: &Option<Dn>) -> bool
    ensures { result ≡ both_meet same_dn a.now b.now }
{
    match (a, b) {
        (Some(a), Some(b)) => dn_equal(a, b),
        _ => false,
    }
}

fn in_scope(scope: u8, dn: &Dn, base: &Dn) -> bool
    ensures { result ≡ in_scope scope dn.now base.now }
{
    match scope {
        0 => dn_equal(dn, base),
        1 => is_child(dn, base),
        _ => is_at_or_under(dn, base),
    }
}

fn is_child(dn: &Dn, base: &Dn) -> bool
    ensures { result ≡ is_child dn.now base.now }
{
    if dn.len() <= base.len() || dn.len() - base.len() != 1 {
        return false;
    }
    is_at_or_under(dn, base)
}
