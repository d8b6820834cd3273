// The last logins of users, the entries of their hashes, and those that accepted them, by names.
ghost use Rattle.std.specs.Prelude.{◌≡◌, [], ◌∷◌, ℕ, List, true, reverse, OnOk, None};
ghost use Rattle.std.specs.Option.{option_copied};
ghost use Rattle.sd_rules.specs.declared.replies.Entry.{Entry};
ghost use Rattle.sd_rules.specs.Logins as logins;
ghost use Rattle.sd_rules.specs.Needed as needed;
ghost use Rattle.sd_voids.specs.Entries.{falls};
ghost use Rattle.sd_findings.specs.Users as users;

use indexmap::IndexMap;
use sd_base::{Copied, Memory, Text};
use sd_journal::logins::{hash_carried, user_of, wrongs};
use sd_journal::past::is_closed;
use sd_journal::requests::is_try_accepted;
use sd_needs::readings::{is_number, user_logged_in};
use sd_rules::{Entry, Event, LoginResult, Reply, Row, Verdict};
use std::alloc::Global;

/// Numbers of entries by the names of users. Only users whose passwords were right have one, so hashes need no secret.
pub type Names = IndexMap<Text, u64>;

/// What is found of users: the last online login of each, the entry of each one's hash, the last entry that accepted each.
pub struct Users {
    pub logins: Names,
    pub hashes: Names,
    pub accepts: Names,
}

impl Drop for Users {
    fn drop(self) {
        let Users {
            logins: _,
            hashes: _,
            accepts: _,
        } = self;
    }
}

/// The number that is kept under a name.
pub fn number_under(names: &Names, name: &Text) -> Option<u64>
    ensures { result ≡ users.number_under names.now.entries name.now }
{
    names.get(name).copied()
}

/// Keeps a number under a name, where there is one.
pub fn put_under(names: &mut Names, name: Option<&Text>, number: u64) -> Result<(), Memory>
    ensures { OnOk result ((n : List ℕ) → users.number_under names.new.entries n ≡ users.put_under (option_copied name.entry) number n (users.number_under names.old.entries n)) }
{
    if let Some(name) = name {
        let name = name.copy()?;
        names.insert(name, number)?;
    }
    Ok(())
}

fn carries_hash(outcome: &LoginResult) -> bool
    ensures { result ≡ users.carries_hash outcome.now }
{
    hash_carried(outcome) == Some(true)
}

fn user_of_hash(row: &Row) -> Option<&Text>
    ensures { option_copied result ≡ users.user_of_hash row.now }
{
    match row {
        Row::Hash(_, _, user, _) => Some(user),
        _ => None,
    }
}

/// The user whose online login, which carries a hash, an entry is; `before` are the entries before it.
fn user_hashed<'a>(before: &'a [Entry], entry: &'a Entry) -> Option<&'a Text>
    ensures { option_copied result ≡ users.user_hashed (reverse before.now) entry.now.event entry.now.reply }
{
    match &entry.event {
        Event::LoginOnline(attempt, outcome) => {
            if is_closed(entry.reply) && carries_hash(outcome.value()) {
                user_of(before, *attempt)
            } else {
                None
            }
        }
        Event::Kept(row) => user_of_hash(row),
        _ => None,
    }
}

fn is_right(outcome: &LoginResult) -> bool
    ensures { result ≡ logins.is_right outcome.now }
{
    matches!(outcome, LoginResult::Right(_))
}

fn is_accepted(reply: Reply) -> bool
    ensures { result ≡ logins.is_accepted reply }
{
    matches!(reply, Reply::Judged(Verdict::Accepted))
}

/// The user whom an entry accepts; `before` are the entries before it.
fn user_accepted<'a>(before: &'a [Entry], entry: &'a Entry) -> Option<&'a Text>
    ensures { option_copied result ≡ users.user_accepted (reverse before.now) entry.now.event entry.now.reply }
{
    match &entry.event {
        Event::LoginOnline(attempt, outcome) => {
            if is_right(outcome.value()) && is_closed(entry.reply) {
                user_of(before, *attempt)
            } else {
                None
            }
        }
        Event::LoginGuess(user, _, _) => {
            if is_accepted(entry.reply) {
                Some(user)
            } else {
                None
            }
        }
        Event::LoginTry(attempt, _, _) => {
            if is_try_accepted(entry.reply) {
                user_of(before, *attempt)
            } else {
                None
            }
        }
        _ => None,
    }
}

#[tactic(auto, using(crate::proofs::UserLaws::logins_after))]
fn note_login(names: &mut Names, before: &[Entry], entry: &Entry) -> Result<(), Memory>
    ensures { OnOk result (users.HoldLogins (reverse before.now) names.old.entries → users.HoldLogins (entry.now ∷ reverse before.now) names.new.entries) }
{
    put_under(names, user_logged_in(before, entry), entry.number)
}

#[tactic(auto, using(crate::proofs::UserLaws::hashes_after))]
fn note_hash(names: &mut Names, before: &[Entry], entry: &Entry) -> Result<(), Memory>
    ensures { OnOk result (users.HoldHashes (reverse before.now) names.old.entries → users.HoldHashes (entry.now ∷ reverse before.now) names.new.entries) }
{
    put_under(names, user_hashed(before, entry), entry.number)
}

#[tactic(auto, using(crate::proofs::UserLaws::accepts_after))]
fn note_accepting(names: &mut Names, before: &[Entry], entry: &Entry) -> Result<(), Memory>
    ensures { OnOk result (users.HoldAccepts (reverse before.now) names.old.entries → users.HoldAccepts (entry.now ∷ reverse before.now) names.new.entries) }
{
    put_under(names, user_accepted(before, entry), entry.number)
}

/// Notes what an entry says of users; `before` are the entries before it.
pub(crate) fn note_users(found: &mut Users, before: &[Entry], entry: &Entry) -> Result<(), Memory>
    ensures { OnOk result (users.HoldUsers (reverse before.now) found.old → users.HoldUsers (entry.now ∷ reverse before.now) found.new) }
{
    note_login(&mut found.logins, before, entry)?;
    note_hash(&mut found.hashes, before, entry)?;
    note_accepting(&mut found.accepts, before, entry)
}

/// What no entries say of users.
pub(crate) fn no_users(alloc: Global) -> Users
    ensures { users.HoldUsers [] result }
{
    Users {
        logins: IndexMap::new(alloc),
        hashes: IndexMap::new(alloc),
        accepts: IndexMap::new(alloc),
    }
}

/// Whether the entry of a number is the hash entry or the last online login of a user, where there is a user.
pub fn is_login_needed(found: &Users, number: u64, user: Option<&Text>) -> bool
    ensures { (past : List Entry) → users.HoldUsers past found.now → result ≡ needed.is_login_needed past number (option_copied user.entry) }
{
    match user {
        Some(user) => {
            is_number(number, number_under(&found.hashes, user))
                || is_number(number, number_under(&found.logins, user))
        }
        None => false,
    }
}

fn is_after(number: u64, accepting: Option<u64>) -> bool
    ensures { result ≡ users.is_after number accepting }
{
    match accepting {
        Some(accepting) => accepting < number,
        None => true,
    }
}

/// Whether an entry holds wrong guesses of a user that still count, where there is a user.
pub fn is_wrong_needed(found: &Users, entry: &Entry, user: Option<&Text>) -> bool
    ensures { (past : List Entry) → users.HoldUsers past found.now → falls past ≡ true → users.StandsIn past entry.now → result ≡ needed.is_wrong_needed past entry.now (option_copied user.entry) }
{
    match user {
        Some(user) => {
            wrongs(user, &entry.event, entry.reply) != 0
                && is_after(entry.number, number_under(&found.accepts, user))
        }
        None => false,
    }
}
