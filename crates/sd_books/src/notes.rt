// What entries tell of users' logins, and marks of users that keep it.
ghost use Rattle.std.specs.Prelude.{◌≡◌, ◌+◌, ◌<◌, ◌^◌, List, Some, None, true, reverse, IfOk, IsOk, OnOk};
ghost use Rattle.std.specs.Option.{option_copied};
ghost use Rattle.sd_rules.specs.declared.replies.Entry.{Entry};
ghost use Rattle.sd_creds.specs.Marks as marked;
ghost use Rattle.sd_books.specs.Noted as noted;

use sd_base::{Copied, Memory, Text};
use sd_creds::Marks;
use sd_journal::logins::{hash_carried, user_of};
use sd_journal::past::is_closed;
use sd_journal::requests::is_try_accepted;
use sd_rules::{Entry, Event, Reply, Row, Verdict};

/// What an entry tells of a user's logins.
#[derive(Clone, Copy, PartialEq, Eq)]
pub enum LoginWord {
    /// A server accepted the password; whether the login left its hash.
    Login(bool),
    /// The same in a kept row, which leaves the wrong guesses as they are.
    KeptLogin(bool),
    /// A stored hash accepted the password.
    Acceptance,
    /// So many wrong guesses.
    WrongGuesses(u64),
    /// Nothing that a later login looks at.
    Nothing,
}

/// The word of an entry, with the entry's number and moment.
#[derive(Clone, Copy)]
pub struct Note {
    pub number: u64,
    pub moment: u64,
    pub word: LoginWord,
}

fn user_of_row(row: &Row) -> Option<&Text>
    ensures { option_copied result ≡ noted.user_of_row row.now }
{
    match row {
        Row::Hash(_, _, user, _) | Row::Online(_, _, user) | Row::Wrong(_, _, user, _) => {
            Some(user)
        }
        _ => None,
    }
}

/// The user whose logins an event may tell of; `before` are the entries before it.
fn user_concerned<'a>(before: &'a [Entry], event: &'a Event) -> Option<&'a Text>
    ensures { option_copied result ≡ noted.user_concerned (reverse before.now) event.now }
{
    match event {
        Event::LoginOnline(attempt, _) | Event::LoginTry(attempt, _, _) => {
            user_of(before, *attempt)
        }
        Event::LoginGuess(user, _, _) => Some(user),
        Event::Kept(row) => user_of_row(row),
        _ => None,
    }
}

fn word_of_login(hashed: Option<bool>) -> LoginWord
    ensures { result ≡ noted.word_of_login hashed }
{
    match hashed {
        Some(hashed) => LoginWord::Login(hashed),
        None => LoginWord::Nothing,
    }
}

fn word_of_guess(reply: Reply) -> LoginWord
    ensures { result ≡ noted.word_of_guess reply }
{
    match reply {
        Reply::Judged(Verdict::Accepted) => LoginWord::Acceptance,
        Reply::Judged(Verdict::Wrong) => LoginWord::WrongGuesses(1),
        _ => LoginWord::Nothing,
    }
}

fn word_of_row(row: &Row) -> LoginWord
    ensures { result ≡ noted.word_of_row row.now }
{
    match row {
        Row::Hash(..) => LoginWord::KeptLogin(true),
        Row::Online(..) => LoginWord::KeptLogin(false),
        Row::Wrong(_, _, _, count) => LoginWord::WrongGuesses(*count),
        _ => LoginWord::Nothing,
    }
}

fn word_of(event: &Event, reply: Reply) -> LoginWord
    ensures { result ≡ noted.word_of event.now reply }
{
    match event {
        Event::LoginOnline(_, outcome) if is_closed(reply) => {
            word_of_login(hash_carried(outcome.value()))
        }
        Event::LoginGuess(..) => word_of_guess(reply),
        Event::LoginTry(..) if is_try_accepted(reply) => LoginWord::Acceptance,
        Event::Kept(row) => word_of_row(row),
        _ => LoginWord::Nothing,
    }
}

/// What an entry tells of a user's logins.
pub fn note_of(entry: &Entry) -> Note
    ensures { result ≡ noted.note_of entry.now }
{
    Note {
        number: entry.number,
        moment: entry.moment,
        word: word_of(&entry.event, entry.reply),
    }
}

fn keep_login(marks: &mut Marks, user: &Text, note: Note, hashed: bool) -> Result<(), Memory>
    ensures marks { OnOk result (marked.Sets marks.old marks.new user.now (noted.with_own_login note hashed (marked.mark_of marks.old user.now))) }
    ensures held { marked.is_marked marks.old user.now ≡ true → IsOk result }
{
    marks.online(note.number, note.moment, user, hashed)?;
    if hashed {
        marks.keep_hash(note.number, note.moment, user)?;
    }
    Ok(())
}

/// Keeps what an entry tells of a user. Where the user has a mark already, it takes no memory.
fn keep_note(marks: &mut Marks, user: &Text, note: Note) -> Result<(), Memory>
    requires { (marked.mark_of marks.old user.now).wrong_count + noted.wrongs_told note.word < 2 ^ 64 }
    ensures marks { OnOk result (marked.Sets marks.old marks.new user.now (noted.mark_with note (marked.mark_of marks.old user.now))) }
    ensures held { marked.is_marked marks.old user.now ≡ true → IsOk result }
{
    match note.word {
        LoginWord::Login(hashed) => {
            keep_login(marks, user, note, hashed)?;
            marks.accept(user);
        }
        LoginWord::KeptLogin(hashed) => keep_login(marks, user, note, hashed)?,
        LoginWord::Acceptance => marks.accept(user),
        LoginWord::WrongGuesses(0) | LoginWord::Nothing => {}
        LoginWord::WrongGuesses(count) => marks.wrong(note.moment, user, count)?,
    }
    Ok(())
}

/// The user of whose logins an entry tells: who only names a user gets none.
fn user_told<'a>(before: &'a [Entry], entry: &'a Entry) -> Option<&'a Text>
    ensures { option_copied result ≡ noted.user_told (reverse before.now) entry.now }
{
    match word_of(&entry.event, entry.reply) {
        LoginWord::Nothing => None,
        _ => user_concerned(before, &entry.event),
    }
}

/// Makes a mark for a user who has none; what the marks say stays.
fn make_mark(marks: &mut Marks, user: &Text, moment: u64) -> Result<(), Memory>
    ensures says { (past : List Entry) → noted.SayOfUsers marks.old past → noted.SayOfUsers marks.new past }
    ensures marked { OnOk result (marked.is_marked marks.new user.now ≡ true) }
{
    if marks.mark(user).wrong_count == 0 {
        marks.wrong(moment, user, 0)?;
    }
    Ok(())
}

/// The user of whose logins an entry tells, who has a mark then.
pub fn make_room(marks: &mut Marks, before: &[Entry], entry: &Entry) -> Result<Option<Text>, Memory>
    ensures says { (past : List Entry) → noted.SayOfUsers marks.old past → noted.SayOfUsers marks.new past }
    ensures user { IfOk result (λ user. user ≡ noted.user_told (reverse before.now) entry.now) }
    ensures room { IfOk result (λ user. noted.HasMark marks.new user) }
    ensures free { noted.user_told (reverse before.now) entry.now ≡ None → IsOk result }
{
    match user_told(before, entry) {
        Some(user) => {
            make_mark(marks, user, entry.moment)?;
            Ok(Some(user.copy()?))
        }
        None => Ok(None),
    }
}

/// Keeps what an entry tells of a user who has a mark.
pub fn keep(marks: &mut Marks, user: Option<&Text>, note: Note)
    requires room { noted.HasMark marks.old (option_copied user) }
    requires counts { noted.HasCount marks.old (option_copied user) note }
    ensures { noted.Keeps marks.old marks.new (option_copied user.entry) note }
{
    if let Some(user) = user {
        let _is_kept = keep_note(marks, user, note);
    }
}
