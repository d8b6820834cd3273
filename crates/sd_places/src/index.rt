//! An index of the entries in slots by numbers.
ghost use Rattle.std.specs.Prelude.{◌≡◌, ℕ, ◌+◌, ◌-◌, ◌<◌, ◌≤◌, ◌^◌, List, [], ◌∷◌, ◌++◌, length, replicate, slice_set, Option, Some, IfOk, OnOk, OnErr};
ghost use Rattle.sd_ldap.specs.declared.entry.DirEntry.{DirEntry};
ghost use Rattle.sd_places.specs.Covers.{with_place};
ghost use Rattle.sd_places.specs.Index.{IsIndex, bucket_of, count_of, places_of, found_under, with_number, with_numbers};

use crate::placed::Placed;
use sd_base::Memory;
use std::alloc::Global;
use std::marker::Model;

/// The fewest buckets that an index has.
const FEWEST: usize = 1024;

/// The most buckets.
const MOST: usize = 4_194_304;

/// Places of a list, which rise.
#[derive(Drop)]
pub struct Places {
    places: Vec<usize>,
}

impl Model for Places {
    ghost use Rattle.std.specs.Prelude.{List, ℕ};
    ghost use Rattle.sd_places.specs.Covers.{RisesFrom};

    ghost Value = { List ℕ };

    ghost view = { λ p. p.places.items };

    ghost invariant = { λ p. RisesFrom 0 p.places.items };
}

impl Places {
    fn new(alloc: Global) -> Places
        ensures { result ≡ [] }
    {
        Places {
            places: Vec::new(alloc),
        }
    }

    fn as_slice(&self) -> &[usize]
        ensures { result.now ≡ self.now }
    {
        self.places.as_slice()
    }

    /// Puts a place among the others, unless it is there.
    fn put(&mut self, place: usize) -> Result<(), Memory>
        ensures ok { OnOk result (self.new ≡ with_place self.old place) }
        ensures err { OnErr result (self.new ≡ self.old) }
    {
        let at = match self.places.as_slice().binary_search(&place) {
            Ok(_) => return Ok(()),
            Err(at) => at,
        };
        self.places.insert(at, place)?;
        Ok(())
    }
}

/// The places of entries by the buckets of their numbers. The first bucket is that of the number 0 alone.
pub struct Index {
    buckets: Vec<Places>,
}

impl Drop for Index {
    fn drop(self) {
        let Index { buckets: _ } = self;
    }
}

impl Model for Index {
    ghost use Rattle.std.specs.Prelude.{List, ℕ, ◌<◌, length};

    ghost Value = { List (List ℕ) };

    ghost view = { λ i. i.buckets.items };

    ghost invariant = { λ i. 1 < length i.buckets.items };
}

#[tactic(auto, unfolding(crate::specs::Index::bucket_of))]
fn bucket_among(count: usize, number: u32) -> usize
    requires { 0 < count }
    ensures bucket { result ≡ bucket_of count number }
    ensures within { result ≤ count }
{
    if number == 0 {
        return 0;
    }
    number as usize % count + 1
}

impl Index {
    /// An index without places.
    fn new(alloc: Global, count: usize) -> Result<Index, Memory>
        requires { 0 < count }
        ensures { IfOk result (λ index. index ≡ replicate (count + 1) []) }
    {
        let mut buckets = Vec::new(alloc);
        buckets.push(Places::new(alloc))?;
        for _ in 0..count {
            buckets.push(Places::new(alloc))?;
        }
        Ok(Index { buckets })
    }

    fn bucket_of(&self, number: u32) -> usize
        ensures bucket { result ≡ bucket_of (count_of self.now) number }
        ensures within { result < length self.now }
    {
        bucket_among(self.buckets.len() - 1, number)
    }

    /// It has two buckets or more.
    pub fn check(&self)
        ensures { 1 < length self.now }
    {
        let _ = &self.buckets;
    }

    /// The places under a number.
    pub fn places(&self, number: u32) -> &[usize]
        ensures places { result.now ≡ found_under self.now number }
        ensures some { 1 < length self.now }
    {
        let bucket = self.bucket_of(number);
        self.buckets[bucket].as_slice()
    }

    /// Puts a place under a number.
    fn put(&mut self, place: usize, number: u32) -> Result<(), Memory>
        ensures ok { OnOk result (self.new ≡ with_number self.old place number) }
        ensures err { OnErr result (self.new ≡ self.old) }
    {
        let bucket = self.bucket_of(number);
        self.buckets[bucket].put(place)
    }

    /// Puts a place under each of some numbers.
    fn put_all(&mut self, place: usize, numbers: &[u32]) -> Result<(), Memory>
        ensures ok { OnOk result (self.new ≡ with_numbers self.old place numbers.now) }
        ensures still { (slots : List (Option DirEntry)) → place < length slots → IsIndex self.old slots → IsIndex self.new slots }
    {
        for number in numbers {
            self.put(place, *number)?;
        }
        Ok(())
    }

    /// Puts a place under the numbers of an entry.
    pub fn put_entry(&mut self, alloc: Global, place: usize, placed: &Placed) -> Result<(), Memory>
        ensures still { (slots : List (Option DirEntry)) → place < length slots → IsIndex self.old slots → IsIndex self.new slots }
        ensures ok { OnOk result ((slots : List (Option DirEntry)) → place < length slots → IsIndex self.old slots → IsIndex self.new (slice_set slots place (Some placed.now))) }
    {
        self.check();
        let numbers = placed.numbers(alloc)?;
        self.put_all(place, &numbers)?;
        Ok(())
    }

    /// Puts the place of what comes behind all that was put.
    fn put_next(&mut self, alloc: Global, place: usize, slot: &Option<Placed>) -> Result<(), Memory>
        ensures { OnOk result ((slots : List (Option DirEntry)) → place ≡ length slots → IsIndex self.old slots → IsIndex self.new (slots ++ slot.now ∷ [])) }
    {
        match slot {
            Some(placed) => {
                self.put_entry(alloc, place, placed)?;
                Ok(())
            }
            None => Ok(()),
        }
    }
}

/// How many buckets serve so many entries.
fn buckets_for(entries: usize) -> usize
    ensures { 0 < result }
{
    entries.saturating_mul(4).max(FEWEST).min(MOST)
}

/// The index of some slots. It takes time in proportion to what they hold.
#[tactic(auto, using(crate::proofs::Indexing::index_none))]
pub fn index_of(alloc: Global, slots: &[Option<Placed>]) -> Result<Index, Memory>
    ensures { IfOk result (λ index. IsIndex index slots.now) }
{
    let mut index = Index::new(alloc, buckets_for(slots.len()))?;
    for place in 0..slots.len() {
        index.put_next(alloc, place, &slots[place])?;
    }
    Ok(index)
}
