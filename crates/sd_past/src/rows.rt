// The rows that are kept of a journal.
ghost use Rattle.std.specs.Prelude.{◌≡◌, ◌<◌, ◌^◌, ◌∷◌, length, reverse, take, true, slice_index_or, IfOk, OnOk, None, if◌then◌else◌};
ghost use Rattle.std.specs.Option.{option_copied};
ghost use Rattle.sd_rules.specs.KeptRows as kept;
ghost use Rattle.sd_rules.specs.Logins as logins;
ghost use Rattle.sd_rules.specs.Past as past;
ghost use Rattle.sd_rules.specs.Steps as steps;
ghost use Rattle.sd_keeping.specs.Counts as counts;
ghost use Rattle.sd_keeping.specs.Keeps as keeps;
ghost use Rattle.sd_voids.specs.Entries.{falls};
ghost use Rattle.sd_past.specs.Found as findings;
ghost use Rattle.sd_past.specs.Kept.{Keeps};
ghost use Rattle.sd_findings.specs.Whole as held;

use crate::findings::{Findings, find};
use crate::users::{fall_row, login_row};
use crate::voided::is_voided;
use sd_base::{Copied, Memory, Text};
use sd_cache::Primed;
use sd_findings::marks::is_newest_at;
use sd_findings::whole::Whole;
use sd_journal::logins::wrongs;
use sd_journal::past::answer_in;
use sd_keeping::readings::{last_wrong, least_moment, next_number, wrong_count};
use sd_needs::readings::{is_number, user_guessed, user_logged_in};
use sd_rules::{Entry, Row, Rows};
use std::alloc::Global;

/// The version of the rows that are made.
const VERSION: u32 = 2;

/// The row of the answer that the entry at a place holds, where it is the newest of a key.
fn answer_row(
    found: &Findings,
    all: &[Entry],
    place: usize,
    entry: &Entry,
) -> Result<Option<Row>, Memory>
    requires numbers { falls (reverse all.now) ≡ true }
    requires found { findings.AreFound all.now found.now }
    requires within { place < length all.now }
    requires at { entry.now ≡ slice_index_or all.now place entry.now }
    ensures { IfOk result (λ row. row ≡ kept.answer_row (reverse all.now) (past.answer_in (reverse (take place all.now)) entry.now)) }
{
    let Some(a) = answer_in(&all[..place], entry) else {
        return Ok(None)
    };
    if !is_newest_at(all, found.newest.as_slice(), place, entry) {
        return Ok(None);
    }
    let voided = is_voided(&found.voids, all, place, entry, a);
    let (key, answered) = (a.own.copy()?, a.answered.copy()?);
    Ok(Some(Row::Answer(a.number, a.moment, key, answered, voided)))
}

fn is_last_wrong(all: &[Entry], entry: &Entry, user: &Text) -> bool
    ensures { result ≡ kept.is_last_wrong (reverse all.now) user.now entry.now }
{
    wrongs(user, &entry.event, entry.reply) != 0 && is_number(entry.number, last_wrong(all, user))
}

/// How many wrong guesses of a user still count, where an entry is the last of them.
fn count_at_last(all: &[Entry], entry: &Entry, user: &Text) -> u64
    requires { counts.HasCounts (reverse all.now) }
    ensures { result ≡ (if kept.is_last_wrong (reverse all.now) user.now entry.now then logins.wrong_count (reverse all.now) user.now else 0) }
{
    if is_last_wrong(all, entry, user) {
        wrong_count(all, user)
    } else {
        0
    }
}

/// The row of the wrong guesses of a user, where there is a user.
fn wrong_row(all: &[Entry], entry: &Entry, user: Option<&Text>) -> Result<Option<Row>, Memory>
    requires { counts.HasCounts (reverse all.now) }
    ensures { IfOk result (λ row. row ≡ kept.wrong_row (reverse all.now) entry.now (option_copied user.entry)) }
{
    let Some(user) = user else { return Ok(None) };
    match count_at_last(all, entry, user) {
        0 => Ok(None),
        count => Ok(Some(Row::Wrong(entry.number, entry.moment, user.copy()?, count))),
    }
}

/// The row that is kept of an entry for guesses or of a server, where one is.
fn wrong_or_fall_row(found: &Findings, all: &[Entry], entry: &Entry) -> Result<Option<Row>, Memory>
    requires counts { counts.HasCounts (reverse all.now) }
    requires found { findings.AreFound all.now found.now }
    ensures { IfOk result (λ row. row ≡ keeps.wrong_or_fall_row (reverse all.now) entry.now) }
{
    match wrong_row(all, entry, user_guessed(&entry.event))? {
        Some(row) => Ok(Some(row)),
        None => Ok(fall_row(&found.falls, entry)),
    }
}

/// The row that is kept of an entry for logins, for guesses or of a server, where one is.
fn row_beside_answers(
    alloc: Global,
    found: &Findings,
    all: &[Entry],
    place: usize,
    entry: &Entry,
) -> Result<Option<Row>, Memory>
    requires counts { counts.HasCounts (reverse all.now) }
    requires found { findings.AreFound all.now found.now }
    requires within { place < length all.now }
    ensures { IfOk result (λ row. row ≡ keeps.row_beside_answers (reverse all.now) (reverse (take place all.now)) entry.now) }
{
    match login_row(
        alloc,
        &found.users,
        entry,
        user_logged_in(&all[..place], entry),
    )? {
        Some(row) => Ok(Some(row)),
        None => wrong_or_fall_row(found, all, entry),
    }
}

/// The row that is kept of the entry at a place, where one is.
fn row_of(
    alloc: Global,
    found: &Findings,
    all: &[Entry],
    place: usize,
    entry: &Entry,
) -> Result<Option<Row>, Memory>
    requires numbers { falls (reverse all.now) ≡ true }
    requires counts { counts.HasCounts (reverse all.now) }
    requires found { findings.AreFound all.now found.now }
    requires within { place < length all.now }
    requires at { entry.now ≡ slice_index_or all.now place entry.now }
    ensures { IfOk result (λ row. row ≡ kept.row_of (reverse all.now) (reverse (take place all.now)) entry.now) }
{
    match answer_row(found, all, place, entry)? {
        Some(row) => Ok(Some(row)),
        None => row_beside_answers(alloc, found, all, place, entry),
    }
}

/// Puts the row of an entry, where there is one, behind those made so far.
fn add_row(rows: &mut Rows, row: Option<Row>) -> Result<(), Memory>
    ensures { OnOk result (reverse rows.new ≡ kept.with_row row (reverse rows.old)) }
{
    if let Some(row) = row {
        rows.push(row)?;
    }
    Ok(())
}

/// The rows of a journal behind its head.
fn rows_behind(alloc: Global, head: Row, found: &Findings, all: &[Entry]) -> Result<Rows, Memory>
    requires numbers { falls (reverse all.now) ≡ true }
    requires counts { counts.HasCounts (reverse all.now) }
    requires found { findings.AreFound all.now found.now }
    ensures { IfOk result (λ rows. rows ≡ head ∷ reverse (kept.rows_among (reverse all.now) (reverse all.now))) }
{
    let mut rows = Rows::new(alloc);
    rows.push(head)?;
    for place in 0..all.len() {
        let row = row_of(alloc, found, all, place, &all[place])?;
        add_row(&mut rows, row)?;
    }
    Ok(rows)
}

/// The rows that are kept of a journal with its index, whose next entry has at least the number `next` and a moment, in seconds, of
/// at least `floor`. The next number and each user's count of wrong guesses fit into rows. Names of invalidations are hashed so.
pub fn rows_of(
    alloc: Global,
    hasher: Primed,
    next: u64,
    floor: u64,
    whole: Whole<'_>,
) -> Result<Rows, Memory>
    requires index { held.IsIndexed whole }
    requires numbers { steps.number_after next (held.past_of whole) < 2 ^ 64 }
    requires guesses { counts.HasCounts (held.past_of whole) }
    ensures { IfOk result (λ rows. Keeps next floor (held.past_of whole.entry) rows) }
{
    let all = whole.entries;
    let found = find(alloc, hasher, whole)?;
    let head = Row::Head(VERSION, next_number(next, all), least_moment(floor, all));
    rows_behind(alloc, head, &found, all)
}
