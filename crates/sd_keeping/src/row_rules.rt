// The rules for kept rows.
ghost use Rattle.std.specs.Prelude.{◌≡◌, ◌+◌, ◌-◌, ◌^◌, [], min, reverse, sum_by};
ghost use Rattle.std.specs.List.{list_any};
ghost use Rattle.sd_rules.specs.Keys as keyed;
ghost use Rattle.sd_rules.specs.KeptRows as kept;
ghost use Rattle.sd_rules.specs.TextBytes as bytes;

use crate::text_bytes::of_row;
use sd_base::Text;
use sd_rules::{Answered, Key, Record, Row, Rows};

/// How many text bytes the rows may hold.
const TEXT_LIMIT: u64 = 512 * 1024 * 1024;

/// The number of the entry that a row stands for; of a head, the number of the next entry.
pub fn row_number(row: &Row) -> u64
    ensures { result ≡ kept.row_number row.now }
{
    match row {
        Row::Head(_, number, _)
        | Row::Answer(number, _, _, _, _)
        | Row::Hash(number, _, _, _)
        | Row::Wrong(number, _, _, _)
        | Row::Fall(number, _, _)
        | Row::Online(number, _, _) => *number,
    }
}

/// The moment of the entry that a row stands for; of a head, the least moment of the next entry. In seconds.
pub fn row_moment(row: &Row) -> u64
    ensures { result ≡ kept.row_moment row.now }
{
    match row {
        Row::Head(_, _, moment)
        | Row::Answer(_, moment, _, _, _)
        | Row::Hash(_, moment, _, _)
        | Row::Wrong(_, moment, _, _)
        | Row::Fall(_, moment, _)
        | Row::Online(_, moment, _) => *moment,
    }
}

fn last_number(before: &[Row]) -> u64
    ensures { result ≡ kept.last_number (reverse before.now) }
{
    match before {
        [] => 0,
        [.., last] => row_number(last),
    }
}

fn last_moment(before: &[Row]) -> u64
    ensures { result ≡ kept.last_moment (reverse before.now) }
{
    match before {
        [] => 0,
        [.., last] => row_moment(last),
    }
}

/// Whether a row's number rises and its moment does not fall, both within the head's.
fn is_in_order(head: &Row, before: &[Row], row: &Row) -> bool
    ensures { result ≡ kept.is_in_order head.now (reverse before.now) row.now }
{
    let (number, moment) = (row_number(row), row_moment(row));
    last_number(before) < number
        && number < row_number(head)
        && last_moment(before) <= moment
        && moment <= row_moment(head)
}

fn is_of_kind(found: &Record, key: &Key) -> bool
    ensures { result ≡ keyed.is_of_kind found.now key.now }
{
    match found {
        Record::User(_) => matches!(key, Key::User(_) | Key::Uid(_)),
        Record::Group(_) => matches!(key, Key::Group(_) | Key::Gid(_)),
        Record::Groups(_) => matches!(key, Key::GroupsOf(_)),
        Record::Host(_) => matches!(key, Key::Host),
        Record::Rules(_) => matches!(key, Key::Rules),
    }
}

/// Whether what was answered is absence, or a record of the kind that a key asks for.
pub fn is_answer_of_kind(answered: &Answered, key: &Key) -> bool
    ensures { result ≡ keyed.is_answer_of_kind answered.now key.now }
{
    match answered {
        Answered::Found(found) => is_of_kind(found.value(), key),
        Answered::Absent => true,
    }
}

fn counts_wrongs_of(user: &Text, row: &Row) -> bool
    ensures { result ≡ kept.counts_wrongs_of user.now row.now }
{
    match row {
        Row::Wrong(_, _, name, _) => name == user,
        _ => false,
    }
}

fn has_wrongs_of(before: &[Row], user: &Text) -> bool
    ensures { result ≡ list_any (kept.counts_wrongs_of user.now) (reverse before.now) }
{
    for place in (0..before.len()).rev() {
        if counts_wrongs_of(user, &before[place]) {
            return true;
        }
    }
    false
}

/// Whether a row that is not the first is right by itself, and the only one that counts its user's wrong guesses.
fn is_sound(before: &[Row], row: &Row) -> bool
    ensures { result ≡ kept.is_sound (reverse before.now) row.now }
{
    match row {
        Row::Head(_, _, _) => false,
        Row::Answer(_, _, key, answered, _) => is_answer_of_kind(answered, key),
        Row::Wrong(number, _, user, count) => {
            *count != 0 && *count <= *number && !has_wrongs_of(before, user)
        }
        _ => true,
    }
}

/// Whether a row keeps the rules; `text` are the text bytes of the rows before it.
fn is_good_row(head: &Row, before: &[Row], text: u64, row: &Row) -> bool
    requires { text ≡ min (sum_by bytes.bytes_of_row (reverse before.now)) (2 ^ 64 - 1) }
    ensures { result ≡ kept.is_good_row head.now (reverse before.now) row.now }
{
    is_sound(before, row)
        && is_in_order(head, before, row)
        && text.saturating_add(of_row(row)) <= TEXT_LIMIT
}

/// The place of the first row against the rules, of those behind the head.
fn first_bad(head: &Row, others: &[Row]) -> Option<usize>
    ensures { result ≡ kept.first_bad head.now [] 1 others.now }
{
    let mut text = 0u64;
    for place in 0..others.len() {
        let row = &others[place];
        if !is_good_row(head, &others[..place], text, row) {
            return Some(place + 1);
        }
        text = text.saturating_add(of_row(row));
    }
    None
}

fn is_good_head(head: &Row) -> bool
    ensures { result ≡ kept.is_good_head head.now }
{
    matches!(head, Row::Head(_, _, _)) && row_number(head) != 0
}

/// The place of the first row that breaks the rules for kept rows, counted from 0. It takes no memory.
pub fn bad_row(rows: &Rows) -> Option<usize>
    ensures { result ≡ kept.bad_row rows.now }
{
    match rows.items() {
        [] => None,
        [head, others @ ..] => {
            if is_good_head(head) {
                first_bad(head, others)
            } else {
                Some(0)
            }
        }
    }
}
