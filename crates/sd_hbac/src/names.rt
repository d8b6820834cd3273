// Names in which other names are sought by a mark and then by halves, without ASCII case.
ghost use Rattle.std.specs.Prelude.{◌≡◌, ◌<◌, map, length, slice_index, IfOk};
ghost use Rattle.std.specs.Char.{to_ascii_lowercase};
ghost use Rattle.std.specs.Cmp.Lexicographic.{slice_cmp};
ghost use Rattle.std.specs.Ordering.{nat_cmp};
ghost use Rattle.sd_hbac.specs.Lowered as lowered;

use sd_base::{Memory, Text, Texts};
use std::alloc::Global;
use std::cmp::Ordering;
use std::marker::Model;

/// Names in lower case, in byte order; contracts see the list of them.
pub struct Names {
    names: Vec<Vec<u8>>,
    /// The marks of the names, each a bit.
    marks: u64,
}

impl Drop for Names {
    fn drop(self) {
        let Names { names: _, marks: _ } = self;
    }
}

impl Model for Names {
    ghost use Rattle.std.specs.Prelude.{List, ℕ, map};
    ghost use Rattle.std.specs.Cmp.Lexicographic.{slice_cmp};
    ghost use Rattle.std.specs.List.Sorted.{IsSorted};
    ghost use Rattle.std.specs.Ordering.{nat_cmp};
    ghost use Rattle.sd_hbac.specs.Lowered.{Marked};

    ghost Value = { List (List ℕ) };

    ghost view = { λ n. map (λ v. v.items) n.names.items };

    ghost invariant = { λ n. IsSorted (λ v w. slice_cmp nat_cmp v.items w.items) n.names.items
        × Marked n.marks (map (λ v. v.items) n.names.items) };
}

/// The names in lower case.
fn in_lower_case(alloc: Global, names: &[Text]) -> Result<Vec<Vec<u8>>, Memory>
    ensures { IfOk result (λ made. map (λ v. v.items) made.items ≡ map (map to_ascii_lowercase) names.now) }
{
    let mut made = Vec::new(alloc);
    for name in names {
        made.push(name.bytes().to_ascii_lowercase(alloc)?)?;
    }
    Ok(made)
}

/// A byte of a name, in lower case.
fn lowered_at(name: &[u8], place: usize) -> u8
    requires { place < length name.now }
    ensures { result ≡ slice_index (map to_ascii_lowercase name.now) place }
{
    let byte = name[place];
    byte.to_ascii_lowercase()
}

/// The mark of a name once it is lowered, from its length and three of its bytes; the factors set apart names that end in other numbers.
fn mark_of(name: &[u8]) -> u32
    ensures below { result < 64 }
    ensures value { result ≡ lowered.mark (map to_ascii_lowercase name.now) }
{
    if name.is_empty() {
        return 0;
    }
    let last = name.len() - 1;
    let mixed = name.len()
        + 5 * lowered_at(name, 0) as usize
        + 11 * lowered_at(name, last.saturating_sub(1)) as usize
        + lowered_at(name, last) as usize;
    (mixed % 64) as u32
}

/// The marks of names once they are lowered, each a bit.
fn marks_of(names: &[Text]) -> u64
    ensures { lowered.Marked result (map (map to_ascii_lowercase) names.now) }
{
    let mut marks = 0;
    for name in names {
        marks |= 1 << mark_of(name.bytes());
    }
    marks
}

/// The byte order of a lowered name and another name, whose letters are lowered on the way.
fn order(lowered: &[u8], name: &[u8]) -> Ordering
    ensures { result ≡ slice_cmp nat_cmp lowered.now (map to_ascii_lowercase name.now) }
{
    for place in 0..lowered.len().min(name.len()) {
        let order = lowered[place].cmp(&name[place].to_ascii_lowercase());
        if order != Ordering::Equal {
            return order;
        }
    }
    lowered.len().cmp(&name.len())
}

impl Names {
    /// The names of a list, lowered and sorted once.
    pub fn of(alloc: Global, names: &Texts) -> Result<Names, Memory>
        ensures { IfOk result (lowered.Lowers names.now) }
    {
        let texts = names.items();
        let marks = marks_of(texts);
        let mut names = in_lower_case(alloc, texts)?;
        names.sort()?;
        Ok(Names { names, marks })
    }

    /// Whether a name is among them, without ASCII case.
    pub fn hold(&self, name: &Text) -> bool
        ensures { result ≡ lowered.among self.now name.now }
    {
        let name = name.bytes();
        // Most names are not among them, and few of those have a mark of theirs.
        (self.marks >> mark_of(name)) & 1 == 1 && self.find(name)
    }

    /// Whether a name is found among them by halves.
    fn find(&self, name: &[u8]) -> bool
        ensures { result ≡ lowered.among self.now name.now }
    {
        let names = self.names.as_slice();
        let found = names.binary_search_by(
            |n: &Vec<u8>| -> Ordering
                ensures { result ≡ slice_cmp nat_cmp n.now.items (map to_ascii_lowercase name.entry.now) }
            { order(n.as_slice(), name) },
        );
        found.is_ok()
    }

    /// Whether one of some names is among them, without ASCII case.
    pub fn share(&self, names: &Texts) -> bool
        ensures { result ≡ lowered.shares names.now self.now }
    {
        names.items().iter().any(|name| self.hold(name))
    }
}
