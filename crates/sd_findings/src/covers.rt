// The last invalidation of each name, and the oldest of the newest answers that it covers.
ghost use Rattle.std.specs.Prelude.{◌≡◌, ◌∷◌, ◌<◌, List, length, reverse, take, true, slice_index_or, IfOk, OnOk, None, if◌then◌else◌};
ghost use Rattle.std.specs.Option.{option_copied};
ghost use Rattle.sd_rules.specs.declared.keys.What.{What};
ghost use Rattle.sd_rules.specs.declared.replies.Entry.{Entry};
ghost use Rattle.sd_rules.specs.Logins.{is_name};
ghost use Rattle.sd_rules.specs.Needed.{same_what};
ghost use Rattle.sd_findings.specs.Covers as covers;
ghost use Rattle.sd_findings.specs.Marks.{MarkNewest};
ghost use Rattle.sd_findings.specs.Users as users;

use crate::marks::is_newest_at;
use crate::users::{Names, number_under, put_under};
use indexmap::IndexMap;
use sd_base::{Memory, Text};
use sd_journal::past::{Standing, answer_in};
use sd_rules::{Answered, Entry, Event, Key, Record, What};
use std::alloc::Global;

/// Numbers of entries, by what an invalidation can name. Only names that an administrator invalidates have one, so hashes need no
/// secret.
pub struct ByWhat {
    pub all: Option<u64>,
    pub users: Option<u64>,
    pub groups: Option<u64>,
    pub user_names: Names,
    pub group_names: Names,
}

impl Drop for ByWhat {
    fn drop(self) {
        let ByWhat {
            all: _,
            users: _,
            groups: _,
            user_names: _,
            group_names: _,
        } = self;
    }
}

/// No numbers.
pub(crate) fn nothing(alloc: Global) -> ByWhat
    ensures { (what : What) → covers.number_for result what ≡ None }
{
    ByWhat {
        all: None,
        users: None,
        groups: None,
        user_names: IndexMap::new(alloc),
        group_names: IndexMap::new(alloc),
    }
}

/// The number that is kept for what an invalidation names.
pub fn number_for(numbers: &ByWhat, what: &What) -> Option<u64>
    ensures { result ≡ covers.number_for numbers.now what.now }
{
    match what {
        What::All => numbers.all,
        What::Users => numbers.users,
        What::Groups => numbers.groups,
        What::User(name) => number_under(&numbers.user_names, name),
        What::Group(name) => number_under(&numbers.group_names, name),
    }
}

/// Keeps a number for what an invalidation names.
fn put_for(numbers: &mut ByWhat, what: &What, number: u64) -> Result<(), Memory>
    ensures { OnOk result ((other : What) → covers.number_for numbers.new other ≡ (if same_what what.now other then Some number else covers.number_for numbers.old other)) }
{
    match what {
        What::All => numbers.all = Some(number),
        What::Users => numbers.users = Some(number),
        What::Groups => numbers.groups = Some(number),
        What::User(name) => put_under(&mut numbers.user_names, Some(name), number)?,
        What::Group(name) => put_under(&mut numbers.group_names, Some(name), number)?,
    }
    Ok(())
}

/// Notes what an entry invalidates.
#[tactic(auto, using(crate::proofs::CoverLaws::voids_after, crate::proofs::CoverLaws::voids_other))]
pub(crate) fn note_void(lasts: &mut ByWhat, entry: &Entry) -> Result<(), Memory>
    ensures { OnOk result ((past : List Entry) → covers.HoldVoids past lasts.old → covers.HoldVoids (entry.now ∷ past) lasts.new) }
{
    match &entry.event {
        Event::Void(what) => put_for(lasts, what, entry.number),
        _ => Ok(()),
    }
}

/// The first number, or else this one where an invalidation names the same.
fn first_of(first: Option<u64>, last: Option<u64>, number: u64) -> Option<u64>
    ensures { result ≡ covers.first_of first last number }
{
    match first {
        Some(first) => Some(first),
        None => last.map(|_| number),
    }
}

/// Keeps a number under a name, where there is one that an invalidation names and that has none yet.
fn put_first(
    firsts: &mut Names,
    lasts: &Names,
    name: Option<&Text>,
    number: u64,
) -> Result<(), Memory>
    ensures { OnOk result (covers.PutFirst (is_name (option_copied name.entry)) lasts.now.entries number firsts.old.entries firsts.new.entries) }
{
    let Some(name) = name else { return Ok(()) };
    if number_under(firsts, name).is_some() || number_under(lasts, name).is_none() {
        return Ok(());
    }
    put_under(firsts, Some(name), number)
}

fn user_of_key(own: &Key) -> Option<&Text>
    ensures { option_copied result ≡ covers.user_of_key own.now }
{
    match own {
        Key::User(name) | Key::GroupsOf(name) => Some(name),
        _ => None,
    }
}

fn group_of_key(own: &Key) -> Option<&Text>
    ensures { option_copied result ≡ covers.group_of_key own.now }
{
    match own {
        Key::Group(name) => Some(name),
        _ => None,
    }
}

fn user_found(answered: &Answered) -> Option<&Text>
    ensures { option_copied result ≡ covers.user_found answered.now }
{
    match answered {
        Answered::Found(found) => match found.value() {
            Record::User(user) => Some(&user.name),
            _ => None,
        },
        Answered::Absent => None,
    }
}

fn group_found(answered: &Answered) -> Option<&Text>
    ensures { option_copied result ≡ covers.group_found answered.now }
{
    match answered {
        Answered::Found(found) => match found.value() {
            Record::Group(group) => Some(&group.name),
            _ => None,
        },
        Answered::Absent => None,
    }
}

fn is_about_users(own: &Key) -> bool
    ensures { result ≡ covers.is_about_users own.now }
{
    matches!(own, Key::User(_) | Key::Uid(_) | Key::GroupsOf(_))
}

fn is_about_groups(own: &Key) -> bool
    ensures { result ≡ covers.is_about_groups own.now }
{
    matches!(own, Key::Group(_) | Key::Gid(_))
}

/// Keeps a number for all, and for all users or all groups, where an answer to a key is about them.
fn note_kinds(firsts: &mut ByWhat, lasts: &ByWhat, own: &Key, number: u64)
    ensures all { firsts.new.all ≡ covers.first_of firsts.old.all lasts.now.all number }
    ensures users { firsts.new.users ≡ covers.first_if (covers.is_about_users own.now) firsts.old.users lasts.now.users number }
    ensures groups { firsts.new.groups ≡ covers.first_if (covers.is_about_groups own.now) firsts.old.groups lasts.now.groups number }
    ensures same_users { firsts.new.user_names ≡ firsts.old.user_names }
    ensures same_groups { firsts.new.group_names ≡ firsts.old.group_names }
{
    firsts.all = first_of(firsts.all, lasts.all, number);
    if is_about_users(own) {
        firsts.users = first_of(firsts.users, lasts.users, number);
    }
    if is_about_groups(own) {
        firsts.groups = first_of(firsts.groups, lasts.groups, number);
    }
}

/// Keeps a number under two names, where there are.
#[tactic(auto, using(crate::proofs::CoverLaws::first_of_two))]
fn put_both(
    firsts: &mut Names,
    lasts: &Names,
    name: Option<&Text>,
    other: Option<&Text>,
    number: u64,
) -> Result<(), Memory>
    ensures { OnOk result (covers.PutFirst (covers.is_either (option_copied name.entry) (option_copied other.entry)) lasts.now.entries number firsts.old.entries firsts.new.entries) }
{
    put_first(firsts, lasts, name, number)?;
    put_first(firsts, lasts, other, number)
}

/// Keeps the number of an answer's entry for each invalidation that covers the answer and has none yet.
fn note_answer(
    firsts: &mut ByWhat,
    lasts: &ByWhat,
    a: Standing<'_>,
    number: u64,
) -> Result<(), Memory>
    ensures { OnOk result (covers.NotesAnswer a.entry.own.now a.entry.answered.now number lasts.now firsts.old firsts.new) }
{
    note_kinds(firsts, lasts, a.own, number);
    let (by_key, found) = (user_of_key(a.own), user_found(a.answered));
    put_both(
        &mut firsts.user_names,
        &lasts.user_names,
        by_key,
        found,
        number,
    )?;
    let (by_key, found) = (group_of_key(a.own), group_found(a.answered));
    put_both(
        &mut firsts.group_names,
        &lasts.group_names,
        by_key,
        found,
        number,
    )
}

/// Notes what the entry at a place says, where it holds the newest answer of a key.
fn note_covered(
    firsts: &mut ByWhat,
    lasts: &ByWhat,
    all: &[Entry],
    newest: &[bool],
    place: usize,
    entry: &Entry,
) -> Result<(), Memory>
    requires marks { MarkNewest all.now newest.now }
    requires within { place < length all.now }
    requires at { entry.now ≡ slice_index_or all.now place entry.now }
    ensures { OnOk result (covers.FollowsEntry (reverse all.now) (reverse (take place all.now)) entry.now lasts.now firsts.old firsts.new) }
{
    if !is_newest_at(all, newest, place, entry) {
        return Ok(());
    }
    match answer_in(&all[..place], entry) {
        Some(a) => note_answer(firsts, lasts, a, entry.number),
        None => Ok(()),
    }
}

/// Whether nothing has a number.
fn is_nothing(numbers: &ByWhat) -> bool
    ensures { result ≡ true → (what : What) → covers.number_for numbers.now what ≡ None }
{
    numbers.all.is_none()
        && numbers.users.is_none()
        && numbers.groups.is_none()
        && numbers.user_names.is_empty()
        && numbers.group_names.is_empty()
}

/// Of each name that is invalidated, the oldest of the newest answers that the invalidation covers.
#[tactic(auto, using(crate::proofs::CoverLaws::none_covered))]
pub fn first_covered(
    alloc: Global,
    all: &[Entry],
    newest: &[bool],
    lasts: &ByWhat,
) -> Result<ByWhat, Memory>
    requires { MarkNewest all.now newest.now }
    ensures { IfOk result (λ firsts. covers.HoldCovered (reverse all.now) (reverse all.now) lasts.now firsts) }
{
    let mut firsts = nothing(alloc);
    if is_nothing(lasts) {
        return Ok(firsts);
    }
    for place in 0..all.len() {
        note_covered(&mut firsts, lasts, all, newest, place, &all[place])?;
    }
    Ok(firsts)
}

/// Whether a first number stands before another.
pub fn is_before(first: Option<u64>, number: u64) -> bool
    ensures { result ≡ covers.is_before first number }
{
    match first {
        Some(first) => first < number,
        None => false,
    }
}
