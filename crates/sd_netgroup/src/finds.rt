//! What was found so far: names that are due, and triples.
ghost use Rattle.std.specs.Prelude.{◌≡◌, ◌||◌, [], ◌∷◌, IfOk, OnOk, codes, true, false};
ghost use Rattle.std.specs.List.{flat_map};
ghost use Rattle.std.specs.BTreeSet.{insert_key};
ghost use Rattle.sd_triples.specs.Order.{triple_cmp};
ghost use Rattle.sd_triples.specs.Reading.{triple_in};
ghost use Rattle.sd_netgroup.specs.Named.{own_values, values_of, members_of, texts_of, listed, spelled_by};
ghost use Rattle.sd_netgroup.specs.Order.{with_triples};
ghost use Rattle.sd_netgroup.specs.Rounds.{with_name, with_names, called_in, is_some};

use crate::named::is_called;
use indexmap::IndexSet;
use sd_base::{Copied, Memory, Text};
use sd_dn::compare::same_text;
use sd_ldap::{Attribute, DirEntry};
use sd_triples::{Triple, TripleFault, read_triple};
use std::alloc::Global;
use std::collections::BTreeSet;

/// Names in the order in which they were found, each once; the triples of the netgroups found, in their order;
/// and whether any was found.
#[derive(Drop)]
pub struct Finds {
    pub names: IndexSet<Text>,
    pub triples: BTreeSet<Triple>,
    pub is_some: bool,
}

/// Puts names behind, each where it is new.
fn put_names(names: &mut IndexSet<Text>, values: &[Text]) -> Result<(), Memory>
    ensures { OnOk result (names.new.keys ≡ with_names names.old.keys values.now) }
{
    for value in values {
        names.insert(value.copy()?)?;
    }
    Ok(())
}

fn put_own_members(names: &mut IndexSet<Text>, attribute: &Attribute) -> Result<(), Memory>
    ensures { OnOk result (names.new.keys ≡ with_names names.old.keys (own_values (codes "memberNisNetgroup") attribute.now)) }
{
    if !same_text(attribute.name.bytes(), b"memberNisNetgroup") {
        return Ok(());
    }
    put_names(names, attribute.values.items())
}

#[tactic(auto, using(crate::proofs::Folding::folding))]
/// Puts the names of members behind.
fn put_members(names: &mut IndexSet<Text>, attributes: &[Attribute]) -> Result<(), Memory>
    ensures { OnOk result (names.new.keys ≡ with_names names.old.keys (values_of (codes "memberNisNetgroup") attributes.now)) }
{
    for attribute in attributes {
        put_own_members(names, attribute)?;
    }
    Ok(())
}

/// Puts the triple that a text spells among the others; a text that spells none is passed over.
fn put_triple(alloc: Global, triples: &mut BTreeSet<Triple>, text: &Text) -> Result<(), Memory>
    ensures { OnOk result (triples.new.keys ≡ with_triples triples.old.keys (listed (triple_in text.now))) }
{
    match read_triple(alloc, text.bytes()) {
        Ok(triple) => {
            triples.insert(triple)?;
            Ok(())
        }
        Err(TripleFault::BadTriple(_)) => Ok(()),
        Err(TripleFault::Memory) => Err(Memory),
    }
}

#[tactic(auto, using(crate::proofs::Folding::folding))]
fn put_texts(alloc: Global, triples: &mut BTreeSet<Triple>, texts: &[Text]) -> Result<(), Memory>
    ensures { OnOk result (triples.new.keys ≡ with_triples triples.old.keys (spelled_by texts.now)) }
{
    for text in texts {
        put_triple(alloc, triples, text)?;
    }
    Ok(())
}

fn put_own_triples(
    alloc: Global,
    triples: &mut BTreeSet<Triple>,
    attribute: &Attribute,
) -> Result<(), Memory>
    ensures { OnOk result (triples.new.keys ≡ with_triples triples.old.keys (spelled_by (own_values (codes "nisNetgroupTriple") attribute.now))) }
{
    if !same_text(attribute.name.bytes(), b"nisNetgroupTriple") {
        return Ok(());
    }
    put_texts(alloc, triples, attribute.values.items())
}

#[tactic(auto, using(crate::proofs::Folding::folding))]
/// Puts the triples that an entry has among the others.
fn put_triples(
    alloc: Global,
    triples: &mut BTreeSet<Triple>,
    attributes: &[Attribute],
) -> Result<(), Memory>
    ensures { OnOk result (triples.new.keys ≡ with_triples triples.old.keys (spelled_by (values_of (codes "nisNetgroupTriple") attributes.now))) }
{
    for attribute in attributes {
        put_own_triples(alloc, triples, attribute)?;
    }
    Ok(())
}

impl Finds {
    /// Before anything was asked: the first name is due.
    pub fn new(alloc: Global, name: &Text) -> Result<Finds, Memory>
        ensures names { IfOk result (λ finds. finds.names.keys ≡ name.now ∷ []) }
        ensures triples { IfOk result (λ finds. finds.triples.keys ≡ []) }
        ensures none { IfOk result (λ finds. finds.is_some ≡ false) }
    {
        let mut names = IndexSet::new(alloc);
        names.insert(name.copy()?)?;
        Ok(Finds {
            names,
            triples: BTreeSet::new(alloc),
            is_some: false,
        })
    }

    fn take_entry(&mut self, alloc: Global, entry: &DirEntry) -> Result<(), Memory>
        ensures names { OnOk result (self.new.names.keys ≡ with_names self.old.names.keys (members_of entry.now)) }
        ensures triples { OnOk result (self.new.triples.keys ≡ with_triples self.old.triples.keys (spelled_by (texts_of entry.now))) }
        ensures some { OnOk result (self.new.is_some ≡ true) }
    {
        put_members(&mut self.names, entry.attributes.items())?;
        put_triples(alloc, &mut self.triples, entry.attributes.items())?;
        self.is_some = true;
        Ok(())
    }

    #[tactic(auto, using(crate::proofs::Folding::folding))]
    /// Takes what the entries say that are netgroups of a name.
    pub fn take(&mut self, alloc: Global, name: &Text, entries: &[DirEntry]) -> Result<(), Memory>
        ensures names { OnOk result (self.new.names.keys ≡ with_names self.old.names.keys (flat_map members_of (called_in name.now entries.now))) }
        ensures triples { OnOk result (self.new.triples.keys ≡ with_triples self.old.triples.keys (spelled_by (flat_map texts_of (called_in name.now entries.now)))) }
        ensures some { OnOk result (self.new.is_some ≡ (self.old.is_some || is_some (called_in name.now entries.now))) }
    {
        for entry in entries {
            if is_called(entry, name) {
                self.take_entry(alloc, entry)?;
            }
        }
        Ok(())
    }
}
