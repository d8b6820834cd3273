// What can happen to the daemon: one event is one entry of its journal.
use crate::keys::{Key, What};
use crate::records::Answered;
use sd_base::{Copied, Items, Memory, Shared, Text, Why};

/// Why a server refused a lookup.
#[derive(Clone, Copy, Debug, PartialEq, Eq)]
pub enum Refusal {
    /// The result code received, RFC 4511 section 4.1.9.
    Code(u32),
    /// So many entries, more than one, fit.
    Many(u32),
}

/// A stored hash of a password.
#[derive(Clone, Copy, Debug, PartialEq, Eq)]
pub struct Hash {
    pub salt: [u8; 16],
    pub digest: [u8; 64],
}

/// What a server said of a password.
#[derive(Clone, Copy, PartialEq, Eq)]
pub enum LoginResult {
    /// It is right; its hash, where passwords are kept.
    Right(Option<Hash>),
    /// It is wrong: result code 49.
    Wrong,
    /// Any other result code.
    Refused(u32),
}

/// A row that was kept over a restart. Each but the head has the number and the moment of the entry it stands for.
#[derive(Debug, Drop, PartialEq, Eq)]
pub enum Row {
    /// The version of the rows, the number of the next entry, the least moment that it has.
    Head(u32, u64, u64),
    /// An answer: number, moment, its key, what was answered, whether it was invalidated.
    Answer(u64, u64, Key, Answered, bool),
    /// The stored hash of a user: number, moment, user, hash.
    Hash(u64, u64, Text, Shared<Hash>),
    /// Wrong guesses since a user was last accepted: number, moment of the last, user, count.
    Wrong(u64, u64, Text, u64),
    /// A fall of a server: number, moment, server.
    Fall(u64, u64, u32),
    /// An online login that left no hash: number, moment, user.
    Online(u64, u64, Text),
}

/// A list of rows.
pub type Rows = Items<Row>;

/// One event. What is large and rare is shared, so that no entry has room for it. A request is named by the number of the entry that led it, a ticket by that of the entry that joined,
/// a login attempt by that of the entry that opened it.
#[derive(Drop, PartialEq, Eq)]
pub enum Event {
    /// A client asks for a key.
    Ask(Key),
    /// A request or an attempt wants a server.
    Pick(u64),
    /// The server that a request or an attempt picked gave no answer.
    Fall(u64, u32, Why),
    /// The directory's answer to a request.
    Answer(u64, Answered),
    /// The directory refused a request.
    Refuse(u64, Refusal),
    /// A request or an attempt found no server.
    Outage(u64),
    /// Who led a request or an attempt gives it up.
    Abandon(u64),
    /// A ticket takes the outcome of its request.
    Collect(u64),
    /// A ticket waits no more.
    Leave(u64),
    /// An invalidation.
    Void(What),
    /// An operator says that the directory is out of reach.
    Offline,
    /// An operator says that the directory can be reached.
    Online,
    /// An operator ends the daemon.
    Stop,
    /// A login of this user begins.
    LoginOpen(Text),
    /// A server's verdict on the password of an attempt.
    LoginOnline(u64, Shared<LoginResult>),
    /// A login looks for the stored hash of this user.
    LoginLook(Text),
    /// A password was compared with the stored hash of this number: the user, the hash entry, whether it was right.
    LoginGuess(Text, u64, bool),
    /// The same within an attempt, while the directory can be reached: the attempt, the hash entry, whether it was right.
    LoginTry(u64, u64, bool),
    /// An account check: the user and the service.
    Access(Text, Text),
    /// A row kept over a restart.
    Kept(Row),
}

impl Copied for Row {
    fn copy(&self) -> Result<Row, Memory> {
        Ok(match self {
            Row::Head(version, next, moment) => Row::Head(*version, *next, *moment),
            Row::Answer(number, moment, key, answered, voided) => {
                Row::Answer(*number, *moment, key.copy()?, answered.copy()?, *voided)
            }
            Row::Hash(number, moment, user, hash) => {
                Row::Hash(*number, *moment, user.copy()?, hash.copy()?)
            }
            Row::Wrong(number, moment, user, count) => {
                Row::Wrong(*number, *moment, user.copy()?, *count)
            }
            Row::Fall(number, moment, server) => Row::Fall(*number, *moment, *server),
            Row::Online(number, moment, user) => Row::Online(*number, *moment, user.copy()?),
        })
    }
}

impl Copied for Event {
    fn copy(&self) -> Result<Event, Memory> {
        Ok(match self {
            Event::Ask(key) => Event::Ask(key.copy()?),
            Event::Pick(request) => Event::Pick(*request),
            Event::Fall(request, server, why) => Event::Fall(*request, *server, *why),
            Event::Answer(request, answered) => Event::Answer(*request, answered.copy()?),
            Event::Refuse(request, refusal) => Event::Refuse(*request, *refusal),
            Event::Outage(request) => Event::Outage(*request),
            Event::Abandon(request) => Event::Abandon(*request),
            Event::Collect(ticket) => Event::Collect(*ticket),
            Event::Leave(ticket) => Event::Leave(*ticket),
            Event::Void(what) => Event::Void(what.copy()?),
            Event::Offline => Event::Offline,
            Event::Online => Event::Online,
            Event::Stop => Event::Stop,
            Event::LoginOpen(user) => Event::LoginOpen(user.copy()?),
            Event::LoginOnline(attempt, said) => Event::LoginOnline(*attempt, said.copy()?),
            Event::LoginLook(user) => Event::LoginLook(user.copy()?),
            Event::LoginGuess(user, named, right) => {
                Event::LoginGuess(user.copy()?, *named, *right)
            }
            Event::LoginTry(attempt, named, right) => Event::LoginTry(*attempt, *named, *right),
            Event::Access(user, service) => Event::Access(user.copy()?, service.copy()?),
            Event::Kept(row) => Event::Kept(row.copy()?),
        })
    }
}
