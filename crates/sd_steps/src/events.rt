// The events of worked journals, as a journal prints them.
use crate::records::answered;
use crate::words::{Words, cut, is, value};
use sd_base::{Memory, Shared, Text, Why};
use sd_rules::{Event, Hash, Key, LoginResult, Refusal, What};
use std::alloc::Global;

/// The hash of each right password.
pub const HASH: Hash = Hash {
    salt: [7; 16],
    digest: [9; 64],
};

fn short(word: &[u8]) -> u32 {
    value(word).min(1_000_000) as u32
}

/// A key without a name: `uid:N`, `gid:N`, `host`, else the rules.
fn key_by_number(kind: &[u8], number: &[u8]) -> Key {
    if is(kind, b"uid") {
        Key::Uid(short(number))
    } else if is(kind, b"gid") {
        Key::Gid(short(number))
    } else if is(kind, b"host") {
        Key::Host
    } else {
        Key::Rules
    }
}

/// The key that a word writes.
pub fn key(alloc: Global, word: &[u8]) -> Result<Key, Memory> {
    let (kind, name) = cut(word, b':');
    if is(kind, b"user") {
        Ok(Key::User(Text::from_bytes(alloc, name)?))
    } else if is(kind, b"group") {
        Ok(Key::Group(Text::from_bytes(alloc, name)?))
    } else if is(kind, b"groups") {
        Ok(Key::GroupsOf(Text::from_bytes(alloc, name)?))
    } else {
        Ok(key_by_number(kind, name))
    }
}

fn what(alloc: Global, words: &mut Words<'_>) -> Result<What, Memory> {
    let kind = words.word();
    if is(kind, b"user") {
        Ok(What::User(words.text(alloc)?))
    } else if is(kind, b"group") {
        Ok(What::Group(words.text(alloc)?))
    } else if is(kind, b"users") {
        Ok(What::Users)
    } else if is(kind, b"groups") {
        Ok(What::Groups)
    } else {
        Ok(What::All)
    }
}

/// `link`, `code N`, `bytes N`.
fn why(words: &mut Words<'_>) -> Why {
    let kind = words.word();
    if is(kind, b"code") {
        Why::Code(words.short())
    } else if is(kind, b"bytes") {
        Why::Bytes(words.number())
    } else {
        Why::Link
    }
}

/// `code N`, `many N`.
fn refusal(words: &mut Words<'_>) -> Refusal {
    if is(words.word(), b"code") {
        Refusal::Code(words.short())
    } else {
        Refusal::Many(words.short())
    }
}

/// `hashed` is a right password whose hash is stored.
fn login_result(words: &mut Words<'_>) -> LoginResult {
    let kind = words.word();
    if is(kind, b"hashed") {
        LoginResult::Right(Some(HASH))
    } else if is(kind, b"right") {
        LoginResult::Right(None)
    } else if is(kind, b"wrong") {
        LoginResult::Wrong
    } else {
        LoginResult::Refused(words.short())
    }
}

/// An event of a request or a ticket alone.
fn numbered(name: &[u8], words: &mut Words<'_>) -> Option<Event> {
    if is(name, b"pick") {
        Some(Event::Pick(words.number()))
    } else if is(name, b"outage") {
        Some(Event::Outage(words.number()))
    } else if is(name, b"abandon") {
        Some(Event::Abandon(words.number()))
    } else if is(name, b"collect") {
        Some(Event::Collect(words.number()))
    } else if is(name, b"leave") {
        Some(Event::Leave(words.number()))
    } else {
        None
    }
}

/// An event of a request or an attempt with what came of it, but an answer.
fn detailed(name: &[u8], words: &mut Words<'_>) -> Option<Event> {
    if is(name, b"fall") {
        Some(Event::Fall(words.number(), words.short(), why(words)))
    } else if is(name, b"refuse") {
        Some(Event::Refuse(words.number(), refusal(words)))
    } else if is(name, b"try") {
        Some(Event::LoginTry(words.number(), words.number(), is(words.word(), b"right")))
    } else {
        None
    }
}

/// An event with words of its own alone.
fn plain(name: &[u8]) -> Event {
    if is(name, b"offline") {
        Event::Offline
    } else if is(name, b"online") {
        Event::Online
    } else {
        Event::Stop
    }
}

/// An event of a user.
fn of_user(alloc: Global, name: &[u8], words: &mut Words<'_>) -> Result<Option<Event>, Memory> {
    if is(name, b"login") {
        Ok(Some(Event::LoginOpen(words.text(alloc)?)))
    } else if is(name, b"look") {
        Ok(Some(Event::LoginLook(words.text(alloc)?)))
    } else if is(name, b"guess") {
        let user = words.text(alloc)?;
        Ok(Some(Event::LoginGuess(user, words.number(), is(words.word(), b"right"))))
    } else {
        Ok(None)
    }
}

fn access(alloc: Global, words: &mut Words<'_>) -> Result<Event, Memory> {
    let user = words.text(alloc)?;
    let service = words.text(alloc)?;
    Ok(Event::Access(user, service))
}

fn online(alloc: Global, words: &mut Words<'_>) -> Result<Event, Memory> {
    let attempt = words.number();
    let said = Shared::new(alloc, login_result(words))?;
    Ok(Event::LoginOnline(attempt, said))
}

fn answer(alloc: Global, words: &mut Words<'_>) -> Result<Event, Memory> {
    let request = words.number();
    Ok(Event::Answer(request, answered(alloc, words)?))
}

/// An event of a key, or of a user.
fn of_name(alloc: Global, name: &[u8], words: &mut Words<'_>) -> Result<Option<Event>, Memory> {
    if is(name, b"ask") {
        Ok(Some(Event::Ask(key(alloc, words.word())?)))
    } else if is(name, b"void") {
        Ok(Some(Event::Void(what(alloc, words)?)))
    } else if is(name, b"answer") {
        Ok(Some(answer(alloc, words)?))
    } else if is(name, b"access") {
        Ok(Some(access(alloc, words)?))
    } else if is(name, b"result") {
        Ok(Some(online(alloc, words)?))
    } else {
        of_user(alloc, name, words)
    }
}

/// Takes an event off a line.
pub fn event(alloc: Global, words: &mut Words<'_>) -> Result<Event, Memory> {
    let name = words.word();
    if let Some(event) = of_name(alloc, name, words)? {
        return Ok(event);
    }
    if let Some(event) = numbered(name, words) {
        return Ok(event);
    }
    if let Some(event) = detailed(name, words) {
        return Ok(event);
    }
    Ok(plain(name))
}
