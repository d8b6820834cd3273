// The rows that are kept of a journal.
ghost use Rattle.std.specs.Prelude.{◌≡◌, ◌<◌, ◌^◌, ◌∷◌, reverse, IfOk, OnOk, Some, None};
ghost use Rattle.std.specs.Option.{option_copied, option_map};
ghost use Rattle.sd_rules.specs.KeptRows as kept;
ghost use Rattle.sd_rules.specs.Steps as steps;
ghost use Rattle.sd_journal.specs.Seen as seen;
ghost use Rattle.sd_rules.specs.Limits as limits;
ghost use Rattle.sd_keeping.specs.Counts as counts;
ghost use Rattle.sd_keeping.specs.Keeps as keeps;
ghost use Rattle.sd_keeping.specs.Opening as opening;

use crate::readings::{hash_of_event, last_wrong, least_moment, next_number, wrong_count};
use sd_base::{Copied, Memory, Shared, Text};
use sd_journal::logins::{hash_entry, last_online_login, wrongs};
use sd_journal::past::{Standing, answer_in, is_voided};
use sd_needs::answers::is_newest_of_some;
use sd_needs::readings::{is_login, is_number, user_guessed, user_logged_in};
use sd_needs::servers::last_fall;
use sd_rules::limits::Login;
use sd_rules::{Entry, Event, Hash, Row, Rows};
use std::alloc::Global;

/// The version of the rows that are made.
const VERSION: u32 = 2;

fn answer_row(all: &[Entry], answer: Option<Standing<'_>>) -> Result<Option<Row>, Memory>
    ensures { IfOk result (λ row. row ≡ kept.answer_row (reverse all.now) (option_map seen.standing answer.entry)) }
{
    let Some(a) = answer else { return Ok(None) };
    if !is_newest_of_some(all, answer) {
        return Ok(None);
    }
    let (key, answered) = (a.own.copy()?, a.answered.copy()?);
    Ok(Some(Row::Answer(a.number, a.moment, key, answered, is_voided(all, a))))
}

fn hash_row(
    alloc: Global,
    entry: &Entry,
    user: &Text,
    hash: Option<Hash>,
) -> Result<Option<Row>, Memory>
    ensures { IfOk result (λ row. row ≡ kept.hash_row entry.now user.now hash) }
{
    let Some(hash) = hash else { return Ok(None) };
    let (user, hash) = (user.copy()?, Shared::new(alloc, hash)?);
    Ok(Some(Row::Hash(entry.number, entry.moment, user, hash)))
}

fn is_unhashed_login(number: u64, login: Option<Login>) -> bool
    ensures { result ≡ kept.is_unhashed_login number (option_map limits.login login) }
{
    match login {
        Some(login) => login.number == number && !login.hashed,
        None => false,
    }
}

fn login_row_of(
    alloc: Global,
    all: &[Entry],
    entry: &Entry,
    user: &Text,
) -> Result<Option<Row>, Memory>
    ensures { IfOk result (λ row. row ≡ kept.login_row (reverse all.now) entry.now (Some user.now)) }
{
    if is_login(entry.number, hash_entry(all, user)) {
        return hash_row(alloc, entry, user, hash_of_event(&entry.event));
    }
    if is_unhashed_login(entry.number, last_online_login(all, user)) {
        return Ok(Some(Row::Online(entry.number, entry.moment, user.copy()?)));
    }
    Ok(None)
}

/// The row of an online login of a user, where there is a user.
fn login_row(
    alloc: Global,
    all: &[Entry],
    entry: &Entry,
    user: Option<&Text>,
) -> Result<Option<Row>, Memory>
    ensures { IfOk result (λ row. row ≡ kept.login_row (reverse all.now) entry.now (option_copied user.entry)) }
{
    match user {
        Some(user) => login_row_of(alloc, all, entry, user),
        None => Ok(None),
    }
}

fn is_last_wrong(all: &[Entry], user: &Text, entry: &Entry) -> bool
    ensures { result ≡ kept.is_last_wrong (reverse all.now) user.now entry.now }
{
    wrongs(user, &entry.event, entry.reply) != 0 && is_number(entry.number, last_wrong(all, user))
}

fn wrong_row_of(all: &[Entry], entry: &Entry, user: &Text) -> Result<Option<Row>, Memory>
    requires { counts.HasCounts (reverse all.now) }
    ensures { IfOk result (λ row. row ≡ kept.wrong_row (reverse all.now) entry.now (Some user.now)) }
{
    if !is_last_wrong(all, user, entry) {
        return Ok(None);
    }
    let count = wrong_count(all, user);
    if count == 0 {
        return Ok(None);
    }
    Ok(Some(Row::Wrong(entry.number, entry.moment, user.copy()?, count)))
}

/// The row of the wrong guesses of a user, where there is a user.
fn wrong_row(all: &[Entry], entry: &Entry, user: Option<&Text>) -> Result<Option<Row>, Memory>
    requires { counts.HasCounts (reverse all.now) }
    ensures { IfOk result (λ row. row ≡ kept.wrong_row (reverse all.now) entry.now (option_copied user.entry)) }
{
    match user {
        Some(user) => wrong_row_of(all, entry, user),
        None => Ok(None),
    }
}

fn server_row(all: &[Entry], entry: &Entry, server: u32) -> Option<Row>
    ensures { result ≡ kept.server_row (reverse all.now) entry.now server }
{
    if is_number(entry.number, last_fall(all, server)) {
        Some(Row::Fall(entry.number, entry.moment, server))
    } else {
        None
    }
}

fn fall_row(all: &[Entry], entry: &Entry) -> Option<Row>
    ensures { result ≡ kept.fall_row (reverse all.now) entry.now entry.now.event }
{
    match &entry.event {
        Event::Fall(_, server, _) => server_row(all, entry, *server),
        Event::Kept(Row::Fall(_, _, server)) => server_row(all, entry, *server),
        _ => None,
    }
}

/// The row that is kept of an entry for guesses or of a server, where one is.
fn wrong_or_fall_row(all: &[Entry], entry: &Entry) -> Result<Option<Row>, Memory>
    requires { counts.HasCounts (reverse all.now) }
    ensures { IfOk result (λ row. row ≡ keeps.wrong_or_fall_row (reverse all.now) entry.now) }
{
    match wrong_row(all, entry, user_guessed(&entry.event))? {
        Some(row) => Ok(Some(row)),
        None => Ok(fall_row(all, entry)),
    }
}

/// The row that is kept of an entry for logins, for guesses or of a server, where one is.
fn row_beside_answers(
    alloc: Global,
    all: &[Entry],
    before: &[Entry],
    entry: &Entry,
) -> Result<Option<Row>, Memory>
    requires { counts.HasCounts (reverse all.now) }
    ensures { IfOk result (λ row. row ≡ keeps.row_beside_answers (reverse all.now) (reverse before.now) entry.now) }
{
    match login_row(alloc, all, entry, user_logged_in(before, entry))? {
        Some(row) => Ok(Some(row)),
        None => wrong_or_fall_row(all, entry),
    }
}

/// The row that is kept of an entry, where one is; `before` are the entries before it.
fn row_of(
    alloc: Global,
    all: &[Entry],
    before: &[Entry],
    entry: &Entry,
) -> Result<Option<Row>, Memory>
    requires { counts.HasCounts (reverse all.now) }
    ensures { IfOk result (λ row. row ≡ kept.row_of (reverse all.now) (reverse before.now) entry.now) }
{
    match answer_row(all, answer_in(before, entry))? {
        Some(row) => Ok(Some(row)),
        None => row_beside_answers(alloc, all, before, entry),
    }
}

/// Puts the row of an entry, where there is one, behind those made so far.
fn add_row(rows: &mut Rows, row: Option<Row>) -> Result<(), Memory>
    ensures { OnOk result (reverse rows.new ≡ kept.with_row row (reverse rows.old)) }
{
    if let Some(row) = row {
        rows.push(row)?;
    }
    Ok(())
}

/// The rows of a journal behind its head.
fn rows_behind(alloc: Global, head: Row, all: &[Entry]) -> Result<Rows, Memory>
    requires { counts.HasCounts (reverse all.now) }
    ensures { IfOk result (λ rows. rows ≡ head ∷ reverse (kept.rows_among (reverse all.now) (reverse all.now))) }
{
    let mut rows = Rows::new(alloc);
    rows.push(head)?;
    for place in 0..all.len() {
        let row = row_of(alloc, all, &all[..place], &all[place])?;
        add_row(&mut rows, row)?;
    }
    Ok(rows)
}

/// The rows that are kept of a journal, whose next entry has at least the number `next` and a moment, in seconds, of at least
/// `floor`. The next number and each user's count of wrong guesses fit into rows: `numbers_fit` and `counts_fit` test it, and a
/// journal that opened rows reach meets it.
pub fn rows_of(alloc: Global, next: u64, floor: u64, entries: &[Entry]) -> Result<Rows, Memory>
    requires numbers { steps.number_after next (reverse entries.now) < 2 ^ 64 }
    requires guesses { counts.HasCounts (reverse entries.now) }
    ensures { IfOk result (λ rows. opening.Keeps next floor entries.now rows) }
{
    let head = Row::Head(
        VERSION,
        next_number(next, entries),
        least_moment(floor, entries),
    );
    rows_behind(alloc, head, entries)
}
