// What marks say of a user's logins, where they are made of a journal.
use sd_base::{Memory, Text};
use sd_creds::Marks;
use sd_journal::logins::{accepts, hash_entry, last_online_login, wrongs};
use sd_rules::{Entry, Reply, Settings, Verdict};
use sd_steps::output::{print, print_line, print_number};
use sd_steps::replies::print_reply;
use sd_steps::words::Words;
use std::alloc::Global;

/// How many wrong guesses of a user are counted.
const MOST: u64 = 1000;

/// Counts what an entry says of a user's guesses.
fn count(marks: &mut Marks, before: &[Entry], entry: &Entry, user: &Text) -> Result<(), Memory> {
    if accepts(before, user, &entry.event, entry.reply) {
        marks.accept(user);
    }
    let guesses = wrongs(user, &entry.event, entry.reply);
    if guesses > 0 && guesses < MOST && marks.mark(user).wrong_count < MOST {
        marks.wrong(entry.moment, user, guesses)?;
    }
    Ok(())
}

/// The marks that a journal makes of a user.
fn marks_of(alloc: Global, entries: &[Entry], user: &Text) -> Result<Marks, Memory> {
    let mut marks = Marks::new(alloc);
    if let Some(login) = hash_entry(entries, user) {
        marks.keep_hash(login.number, login.moment, user)?;
    }
    if let Some(login) = last_online_login(entries, user) {
        marks.online(login.number, login.moment, user, login.hashed)?;
    }
    for place in 0..entries.len() {
        count(&mut marks, &entries[..place], &entries[place], user)?;
    }
    Ok(marks)
}

/// A line of a word and a number, where there is one.
fn print_some(out: &mut Vec<u8>, word: &[u8], number: Option<u64>) -> Result<(), Memory> {
    match number {
        Some(number) => {
            print(out, word)?;
            print_number(out, number)?;
            print(out, b"\n")
        }
        None => Ok(()),
    }
}

fn print_verdict(out: &mut Vec<u8>, word: &[u8], verdict: Verdict) -> Result<(), Memory> {
    print(out, word)?;
    print_reply(out, Reply::Judged(verdict))?;
    print(out, b"\n")
}

/// Prints what the marks of a journal say of a user at a moment: `NOW USER ENTRY`, the entry being that of the hash that guesses
/// were compared with.
pub fn print_marks(
    alloc: Global,
    out: &mut Vec<u8>,
    settings: &Settings,
    entries: &[Entry],
    words: &[u8],
) -> Result<(), Memory> {
    print(out, b"marks ")?;
    print_line(out, words)?;
    let mut words = Words::new(words);
    let now = words.number();
    let user = words.text(alloc)?;
    let named = words.number();
    let marks = marks_of(alloc, entries, &user)?;
    print_some(out, b"hash", marks.hash_entry(&user))?;
    print_some(out, b"cached", marks.cached(settings, now, &user))?;
    let right = marks.verdict(settings, now, &user, named, true);
    print_verdict(out, b"right", right)?;
    let wrong = marks.verdict(settings, now, &user, named, false);
    print_verdict(out, b"wrong", wrong)?;
    let tried = marks.tried(settings, now, &user, named, true);
    print_verdict(out, b"tried", tried)
}
