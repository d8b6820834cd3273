// The slices of numbers that domains have.
ghost use Rattle.std.specs.Prelude.{◌≡◌, ℕ, ◌+◌, ◌-◌, ◌*◌, ◌<◌, ◌≤◌, ◌==◌, ◌++◌, ◌∷◌, ◌⊎◌, [], List, not, true, false, map, find, nat_eq, length, Some, None, Err, IfOk, IfSome, IfNone, OnOk, OnErr, is_some};
ghost use Rattle.std.specs.List.{list_any, range_with_len};
ghost use Rattle.std.specs.Map.{lookup};
ghost use Rattle.sd_idmap.specs.Sids as sids;
ghost use Rattle.sd_idmap.specs.Slicing as slicing;
ghost use Rattle.sd_idmap.specs.Keeping as keeping;
ghost use Rattle.sd_idmap.specs.Laws.{KeepsNumbers, IsAlone, IsSidOf, AreOneToOne};
ghost use Rattle.sd_idmap.specs.declared.sids.Sid.{Sid};

use crate::hash::murmur;
use crate::sids::{Domain, Sid, push_domain};
use indexmap::IndexMap;
use sd_base::{Copied, Memory};
use std::alloc::Global;
use std::marker::Model;

/// How many slices there are.
pub const SLICES: u32 = 10000;

/// How many numbers a slice has.
pub const SIZE: u32 = 200_000;

/// The seed of the hash that places a domain.
pub const SEED: u32 = 0xdead_beef;

/// Why a domain was not added.
#[derive(Clone, Copy, PartialEq, Eq)]
pub enum SliceFault {
    /// Every slice has a domain.
    Full,
    Memory,
}

impl From<Memory> for SliceFault {
    ghost use Rattle.std.specs.Prelude.{◌≡◌};
    ghost use Rattle.sd_idmap.specs.declared.slices.SliceFault.TheVariants as faults;

    ghost from_gives = { λ _ fault. fault ≡ faults.Memory };

    fn from(_error: Memory) -> SliceFault {
        SliceFault::Memory
    }
}

/// The domains that have slices, which contracts see as the list of the domains in the order in which they were added.
pub struct Slices {
    by_domain: IndexMap<Domain, u32>,
    by_slice: IndexMap<u32, Domain>,
}

impl Drop for Slices {
    fn drop(self) {
        let Slices {
            by_domain: _,
            by_slice: _,
        } = self;
    }
}

impl Model for Slices {
    ghost use Rattle.std.specs.Prelude.{List, ℕ, map};
    ghost use Rattle.sd_idmap.specs.Keeping.{AreTables};

    ghost Value = { List (List ℕ) };

    ghost view = { λ s. map (λ p. p.0) s.by_domain.entries };

    ghost invariant = { λ s. AreTables s.by_domain.entries s.by_slice.entries };
}

/// The slice that a domain's text asks for.
fn home(alloc: Global, domain: &Domain) -> Result<u32, Memory>
    ensures { IfOk result (λ slice. (slice ≡ slicing.home domain.now) × (slice < 10000)) }
{
    let mut text = Vec::new(alloc);
    push_domain(alloc, &mut text, domain)?;
    Ok(murmur(SEED, text.as_slice()) % SLICES)
}

/// Whether no domain has the slice.
fn is_free(taken: &IndexMap<u32, Domain>, slice: u32) -> bool
    ensures { result ≡ keeping.is_empty_at taken.now.entries slice }
{
    !taken.contains_key(&slice)
}

/// The first free slice from one on, in front of another.
fn first_free(taken: &IndexMap<u32, Domain>, from: u32, to: u32) -> Option<u32>
    ensures { result ≡ find (keeping.is_empty_at taken.now.entries) (range_with_len from (to - from)) }
{
    (from..to).find(|slice| is_free(taken, *slice))
}

/// The first free slice from one on, going round.
fn free_slice(taken: &IndexMap<u32, Domain>, first: u32) -> Option<u32>
    ensures { (ps : slicing.Placed) → taken.now.entries ≡ map keeping.turned ps → result ≡ slicing.free_slice ps first }
{
    match first_free(taken, first, SLICES) {
        Some(slice) => Some(slice),
        None => first_free(taken, 0, first),
    }
}

#[tactic(auto, using(crate::proofs::Tables::new_entries))]
/// Puts a domain and its slice, of which neither is there, into both tables.
fn put_both(
    by_domain: &mut IndexMap<Domain, u32>,
    by_slice: &mut IndexMap<u32, Domain>,
    domain: Domain,
    slice: u32,
) -> Result<(), Memory>
    requires new_domain { lookup (slicing.same_domain domain) by_domain.old.entries ≡ None }
    requires new_slice { lookup (nat_eq slice) by_slice.old.entries ≡ None }
    ensures domains { OnOk result (by_domain.new.entries ≡ by_domain.old.entries ++ (domain, slice) ∷ []) }
    ensures slices { OnOk result (by_slice.new.entries ≡ by_slice.old.entries ++ (slice, domain) ∷ []) }
    ensures same_domains { OnErr result (by_domain.new.entries ≡ by_domain.old.entries) }
    ensures same_slices { OnErr result (by_slice.new.entries ≡ by_slice.old.entries) }
{
    let key = domain.copy()?;
    by_slice.reserve(1)?;
    by_domain.insert(key, slice)?;
    // There is room for this one, so it does not fail.
    let _other = by_slice.insert(slice, domain);
    Ok(())
}

/// The SID of a number from the first slice on, by the slice that dividing gives.
fn divided(by_slice: &IndexMap<u32, Domain>, id: u32) -> Result<Option<Sid>, Memory>
    requires { 200000 ≤ id }
    ensures { IfOk result (λ sid. sid ≡ keeping.divided by_slice.now.entries id) }
{
    match by_slice.get(&(id / SIZE - 1)) {
        Some(domain) => Ok(Some(Sid {
            domain: domain.copy()?,
            rid: id % SIZE,
        })),
        None => Ok(None),
    }
}

impl Slices {
    ghost use Rattle.sd_idmap.specs.Sids.{numbers_of};

    /// No domain has a slice yet.
    pub fn new(alloc: Global) -> Slices
        ensures { result ≡ [] }
    {
        Slices {
            by_domain: IndexMap::new(alloc),
            by_slice: IndexMap::new(alloc),
        }
    }

    /// How many domains have slices.
    pub fn len(&self) -> usize
        ensures { result ≡ length self.now }
    {
        self.by_domain.len()
    }

    /// Whether no domain has one.
    pub fn is_empty(&self) -> bool
        ensures { result ≡ (length self.now == 0) }
    {
        self.len() == 0
    }

    /// The slice of a domain, where it has one.
    fn slice_of(&self, domain: &Domain) -> Option<u32>
        ensures value { result ≡ slicing.slice_of self.now domain.now }
        ensures held { is_some result ≡ slicing.is_held self.now domain.now }
        ensures small { IfSome result (λ slice. slice < 10000) }
        ensures few { length self.now ≤ 10000 }
        ensures apart { AreOneToOne self.now }
    {
        self.by_domain.get(domain).copied()
    }

    /// A free slice for a domain that has none, where it asks for this one.
    fn free_slice(&self, first: u32) -> Option<u32>
        requires { first < 10000 }
        ensures value { result ≡ slicing.free_slice (slicing.placed self.now) first }
        ensures found { IfNone result (10000 ≤ length self.now) }
    {
        free_slice(&self.by_slice, first)
    }

    /// Puts a domain that has no slice into the one that is free for it.
    fn place(&mut self, domain: Domain, slice: u32) -> Result<(), Memory>
        requires new { slicing.is_held self.old domain ≡ false }
        requires free { slicing.free_slice (slicing.placed self.old) (slicing.home domain) ≡ Some slice }
        requires room { length self.old < 10000 }
        requires low { slicing.home domain < 10000 }
        ensures ok { OnOk result (self.new ≡ self.old ++ domain ∷ []) }
        ensures err { OnErr result (self.new ≡ self.old) }
    {
        put_both(&mut self.by_domain, &mut self.by_slice, domain, slice)
    }

    fn number_of(&self, sid: &Sid) -> Option<u32>
        ensures value { result ≡ slicing.id_of self.now sid.now }
        ensures apart { AreOneToOne self.now }
    {
        let slice = self.slice_of(&sid.domain);
        if sid.rid >= SIZE {
            return None;
        }
        match slice {
            Some(slice) => Some(SIZE * (slice + 1) + sid.rid),
            None => None,
        }
    }

    /// The number of a SID, where its domain has a slice and its last part fits.
    pub fn to_id(&self, sid: &Sid) -> Option<u32>
        ensures value { result ≡ slicing.id_of self.now sid.now }
        // The number leads back to the SID, and to no other: no two domains share a number.
        ensures back { IfSome result (λ id. slicing.sid_of self.now id ≡ Some sid.now) }
        ensures alone { IfSome result (λ id. IsAlone self.now sid.now id) }
    {
        self.number_of(sid)
    }

    /// The SID of a number, where a domain's slice has it.
    pub fn to_sid(&self, id: u32) -> Result<Option<Sid>, Memory>
        ensures value { IfOk result (λ sid. sid ≡ slicing.sid_of self.now id) }
        // The SID that is found has the number, and where none is found no SID has it.
        ensures back { IfOk result (λ sid. IsSidOf self.now id sid) }
    {
        if id < SIZE {
            return Ok(None);
        }
        divided(&self.by_slice, id)
    }

    /// Gives a domain its slice; one that has a slice keeps it. The answer is the slice.
    pub fn add(&mut self, alloc: Global, domain: &Sid) -> Result<u32, SliceFault>
        requires { sids.is_domain (numbers_of domain.now) ≡ true }
        ensures ok { IfOk result (λ slice. (self.new ≡ slicing.with_domain self.old (numbers_of domain.now))
            × (slicing.slice_of self.new (numbers_of domain.now) ≡ Some slice)) }
        // No number changes.
        ensures keeps { KeepsNumbers self.old self.new }
        // Exactly where 10000 domains have slices and this is none of them; or memory ran out.
        ensures full { result ≡ Err SliceFault.Full → (length self.old ≡ 10000) × (slicing.is_held self.old (numbers_of domain.now) ≡ false) }
        ensures unplaced { result ≡ Err SliceFault.Full → slicing.slice_of self.old (numbers_of domain.now) ≡ None }
        ensures full_exactly { OnOk result (slicing.is_full_for self.old (numbers_of domain.now) ≡ false) }
        ensures err { OnErr result (self.new ≡ self.old) }
    {
        let domain = domain.to_domain()?;
        if let Some(slice) = self.slice_of(&domain) {
            return Ok(slice);
        }
        if self.len() >= SLICES as usize {
            return Err(SliceFault::Full);
        }
        let first = home(alloc, &domain)?;
        let Some(slice) = self.free_slice(first) else {
            return Err(SliceFault::Full);
        };
        self.place(domain, slice)?;
        Ok(slice)
    }
}
