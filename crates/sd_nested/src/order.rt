//! Names in byte order, each once.
ghost use Rattle.std.specs.Prelude.{◌≡◌, ℕ, List, Bool, Option, if◌then◌else◌, IfOk};
ghost use Rattle.std.specs.Cmp.Lexicographic.{slice_cmp};
ghost use Rattle.std.specs.Ordering.{nat_cmp};
ghost use Rattle.sd_rules.specs.Keys.{same_name};
ghost use Rattle.sd_nested.specs.Order as order;

use sd_base::{Copied, Memory, Text, Texts};
use sd_rules::{GroupRef, GroupRefs};
use std::alloc::Global;
use std::cmp::Ordering;

fn name_cmp(a: &Text, b: &Text) -> Ordering
    ensures { result ≡ slice_cmp nat_cmp a.now b.now }
{
    a.bytes().cmp(b.bytes())
}

fn is_same(a: &Text, b: &Text) -> bool
    ensures { result ≡ same_name a.now b.now }
{
    a == b
}

fn names_of(alloc: Global, refs: &[GroupRef]) -> Result<Vec<Text>, Memory>
    ensures { IfOk result (λ names. names.items ≡ order.names_of refs.now) }
{
    let mut names = Vec::new(alloc);
    for group in refs {
        names.push(group.name.copy()?)?;
    }
    Ok(names)
}

fn texts_of(alloc: Global, names: Vec<Text>) -> Result<Texts, Memory>
    ensures { IfOk result (λ texts. texts ≡ names.items) }
{
    let mut texts = Texts::new(alloc);
    for name in names {
        texts.push(name)?;
    }
    Ok(texts)
}

/// The names, in byte order, each once.
pub fn names_in_order(alloc: Global, refs: &[GroupRef]) -> Result<Texts, Memory>
    ensures { IfOk result (order.AreInOrder (order.names_of refs.now)) }
{
    let mut names = names_of(alloc, refs)?;
    names.sort_by(|a, b| name_cmp(a, b))?;
    names.dedup();
    let names = texts_of(alloc, names)?;
    Ok(names)
}

fn lesser(a: Option<u32>, b: Option<u32>) -> Option<u32>
    ensures { result ≡ order.lesser a b }
{
    match (a, b) {
        (None, b) => b,
        (Some(a), None) => Some(a),
        (Some(a), Some(b)) => Some(a.min(b)),
    }
}

fn copies_of(alloc: Global, refs: &[GroupRef]) -> Result<Vec<GroupRef>, Memory>
    ensures { IfOk result (λ made. made.items ≡ refs.now) }
{
    let mut made = Vec::new(alloc);
    for group in refs {
        made.push(group.copy()?)?;
    }
    Ok(made)
}

fn refs_of(alloc: Global, those: Vec<GroupRef>) -> Result<GroupRefs, Memory>
    ensures { IfOk result (λ refs. refs ≡ those.items) }
{
    let mut refs = GroupRefs::new(alloc);
    for group in those {
        refs.push(group)?;
    }
    Ok(refs)
}

/// Whether a group has the name of the one before it, which then takes its number where that is less.
fn is_joined(before: &mut GroupRef, group: &GroupRef) -> bool
    ensures same { result ≡ same_name group.now.name before.old.name }
    ensures before { before.new ≡ (if result then order.with_lesser before.old group.now else before.old) }
{
    if !is_same(&group.name, &before.name) {
        return false;
    }
    before.gid = lesser(before.gid, group.gid);
    true
}

/// The groups in byte order of their names, each name once, with the least number of that name.
pub fn refs_in_order(alloc: Global, refs: &[GroupRef]) -> Result<GroupRefs, Memory>
    ensures { IfOk result (order.AreRefsInOrder refs.now) }
{
    let mut groups = copies_of(alloc, refs)?;
    groups.sort_by(|a, b| name_cmp(&a.name, &b.name))?;
    groups.dedup_by(|group, before| is_joined(before, group));
    let groups = refs_of(alloc, groups)?;
    Ok(groups)
}
