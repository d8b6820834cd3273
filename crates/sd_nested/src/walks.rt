//! Members of a group, and groups of a user.
ghost use Rattle.std.specs.Prelude.{◌≡◌, ◌++◌, ℕ, List, true, IfOk, Some};
ghost use Rattle.sd_ldap.specs.declared.entry.DirEntry.{DirEntry};
ghost use Rattle.sd_dn.specs.Reading.{is_dn};
ghost use Rattle.sd_nested.specs.Paths.{at_or_under, members_of, groups_of_user};
ghost use Rattle.sd_nested.specs.Named.{group_values};
ghost use Rattle.sd_nested.specs.Directions.{admits_by};
ghost use Rattle.sd_nested.specs.Rounds.{member_questions, holder_questions, new_among, dns_of};
ghost use Rattle.sd_nested.specs.Asking.{ExchangedOver, stop_of};

use crate::named::push_group_values;
use crate::order::{names_in_order, refs_in_order};
use crate::rounds::{Direction, go_rounds, mark_new};
use crate::searcher::{Searcher, Stop};
use sd_base::{Copied, Memory, Texts};
use sd_dn::Dn;
use sd_ldap::DirEntry;
use sd_names::DnSet;
use sd_rules::GroupRefs;
use std::alloc::Global;

/// The member values of a group whose DNs are admitted and new; these DNs are marked.
fn mark_values(
    alloc: Global,
    direction: &Direction,
    seen: &mut DnSet,
    group: &DirEntry,
) -> Result<Texts, Memory>
    ensures due { IfOk result (λ due. due ≡ new_among (admits_by direction.now) seen.old (group_values group.now)) }
    ensures seen { IfOk result (λ due. seen.new ≡ seen.old ++ dns_of due) }
{
    let mut values = Texts::new(alloc);
    push_group_values(&mut values, group)?;
    let due = mark_new(alloc, direction, seen, values.items())?;
    Ok(due)
}

/// The names of the users that are members of a group by paths of at most `level + 1` steps, in byte order,
/// each once. It takes at most `level + 1` rounds of reads.
pub fn members<S: Searcher>(
    alloc: Global,
    searcher: &mut S,
    group: &DirEntry,
    base: &Dn,
    level: u32,
) -> Result<Texts, Stop>
    ensures tells { (told : List DirEntry) → S.tells searcher.old told → S.tells searcher.new told }
    ensures base { S.base searcher.new ≡ S.base searcher.old }
    // What was asked, in order, and how it ended; over told entries the DNs are those of the rounds.
    ensures exchanged { ExchangedOver S.went searcher.old searcher.new (stop_of result) (S.tells searcher.old) (λ told. member_questions told base.now level group.now) }
    ensures members { (told : List DirEntry) → S.tells searcher.old told → IfOk result (λ names. names ≡ members_of told base.now level group.now) }
{
    let direction = Direction::Members(base.copy()?);
    let mut seen = DnSet::new(alloc);
    let first = mark_values(alloc, &direction, &mut seen, group)?;
    let kept = go_rounds(alloc, searcher, &direction, seen, first, level)?;
    let names = names_in_order(alloc, kept.items())?;
    Ok(names)
}

/// The groups that a user is in by paths of at most `level + 1` steps, in byte order of their names, each
/// once. It takes at most `level + 1` rounds of searches for holders.
pub fn groups_of<S: Searcher>(
    alloc: Global,
    searcher: &mut S,
    user: &DirEntry,
    level: u32,
) -> Result<GroupRefs, Stop>
    ensures tells { (told : List DirEntry) → S.tells searcher.old told → S.tells searcher.new told }
    ensures base { S.base searcher.new ≡ S.base searcher.old }
    // What was asked, in order, and how it ended; over told entries the DNs are those of the rounds.
    ensures exchanged { ExchangedOver S.went searcher.old searcher.new (stop_of result) (S.tells searcher.old) (λ told. holder_questions told (S.base searcher.old) level user.now.dn) }
    // A user's DN is a DN.
    ensures groups { (told : List DirEntry) → S.tells searcher.old told → is_dn user.now.dn ≡ true → IfOk result (λ groups. groups ≡ groups_of_user (at_or_under (S.base searcher.old) told) level user.now.dn) }
{
    let mut first = Texts::new(alloc);
    first.push(user.dn.copy()?)?;
    let seen = DnSet::new(alloc);
    let kept = go_rounds(alloc, searcher, &Direction::Holders, seen, first, level)?;
    let groups = refs_in_order(alloc, kept.items())?;
    Ok(groups)
}
