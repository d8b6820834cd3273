// What the daemon replies to an event, and the entry that both make.
use crate::events::{Event, Hash, Refusal};
use crate::records::Record;
use sd_base::{Copied, Items, Memory, Shared, Text};

/// What a request came to. The numbers are those of entries.
#[derive(Clone, Copy, Debug, PartialEq, Eq)]
pub enum Outcome {
    /// The answer of this entry, which found its key.
    Found(u64),
    /// The answer of this entry, which did not find its key.
    Absent(u64),
    /// The directory refused.
    Refused(Refusal),
    /// An earlier answer, and the entry of the outage.
    Old(u64, u64),
    /// An earlier answer that did not find its key, and the entry of the outage.
    OldGone(u64, u64),
    /// No answer, and the entry of the outage.
    Dark(u64),
    /// The entry by which the request was given up.
    Dropped(u64),
}

/// What is said of a password that was compared with a stored hash.
#[derive(Clone, Copy, Debug, PartialEq, Eq)]
pub enum Verdict {
    /// There is no stored hash.
    Unknown,
    /// The stored hash may be used no more; the last moment or the first at which it may not, in seconds.
    Expired(u64),
    /// Too many wrong guesses: until this moment, or until an online login.
    Blocked(Option<u64>),
    /// A newer hash is stored, at this entry.
    Stale(u64),
    /// The password is right.
    Accepted,
    /// The password is wrong.
    Wrong,
}

/// By what an account check grants.
#[derive(Clone, Copy, Debug, PartialEq, Eq)]
pub enum By {
    Permit,
    Simple,
    /// The entry of the rules, and the place of the rule among them, counted from 0.
    Rule(u64, u32),
}

/// By what an account check denies.
#[derive(Clone, Copy, Debug, PartialEq, Eq)]
pub enum NotBy {
    Deny,
    Simple,
    NoRule,
}

/// The daemon's reply to an event. It holds numbers alone, so that the journal keeps each record once.
#[derive(Clone, Copy, Debug, PartialEq, Eq)]
pub enum Reply {
    /// The name is one that is never looked up.
    Filtered,
    /// The answer of this entry, which is fresh.
    Fresh(u64),
    /// The answer of this entry, which is fresh and past its midpoint, and the request that renews it.
    Refresh(u64, u64),
    /// The answer of this entry is fresh, and did not find the key.
    Gone(u64),
    /// The answer of this entry, whatever its age, and the entry of the outage that stands.
    Old(u64, u64),
    /// The same where the answer did not find the key.
    OldGone(u64, u64),
    /// There is no answer, and the entry of the outage that stands.
    Dark(u64),
    /// The request that is open for the key, and the ticket that waits for it.
    Join(u64, u64),
    /// A request is opened.
    Lead(u64),
    /// The server to ask, counted from 0, primaries first.
    Server(u32),
    /// No server can be asked.
    NoServer,
    /// No request or attempt of this number is open.
    NoRequest,
    /// That server was not the last picked.
    NotPicked,
    /// The fall was noted.
    Noted,
    /// The answer was asked for before this invalidation: ask again.
    Again(u64),
    /// The request or attempt is closed.
    Closed,
    /// There is no outage: this server can be asked.
    Servable(u32),
    /// The request is closed by the outage, with this outcome.
    Shut(Outcome),
    /// No ticket of this number waits.
    NoTicket,
    /// The ticket's request is open.
    NotYet(u64),
    /// The ticket takes this outcome.
    Took(Outcome),
    /// The ticket waits no more.
    Left,
    /// Done.
    Done,
    /// The login goes by the stored hash, since this outage stands.
    Offline(u64),
    /// The login goes to a server, under this attempt.
    Bind(u64),
    /// No hash is stored.
    NoHash,
    /// The entry of the stored hash.
    Hash(u64),
    /// The verdict on a guess.
    Judged(Verdict),
    /// The login goes by the hash of this last online login, under this attempt: the attempt, the login's entry.
    Cached(u64, u64),
    /// The verdict on a try.
    Tried(Verdict),
    /// The account check grants.
    Granted(By),
    /// The account check denies.
    Denied(NotBy),
    /// A kept row stands.
    Held,
}

/// An entry of the journal. Numbers rise from 1; moments are whole seconds and never fall.
#[derive(Drop, PartialEq, Eq)]
pub struct Entry {
    pub number: u64,
    pub moment: u64,
    pub event: Event,
    pub reply: Reply,
}

/// The entries that are kept, the oldest first.
pub type Journal = Items<Entry>;

/// What a step gives to who made the event: the entry's number and reply, and what the reply names.
#[derive(Drop, PartialEq, Eq)]
pub struct Given {
    pub number: u64,
    pub reply: Reply,
    /// The record of the answer that the reply names.
    pub found: Option<Shared<Record>>,
    /// The stored hash that the reply names.
    pub hash: Option<Hash>,
    /// The name of the rule that the reply names.
    pub rule: Option<Text>,
}

/// Why a step was refused.
#[derive(Clone, Copy, Debug, PartialEq, Eq)]
pub enum StepFault {
    /// The journal has no room; the entries kept and the places reserved.
    JournalFull(u64),
    Memory,
}

/// A refused step hands its event back.
#[derive(Drop, PartialEq, Eq)]
pub struct Refused {
    pub fault: StepFault,
    pub event: Event,
}

impl Copied for Entry {
    fn copy(&self) -> Result<Entry, Memory> {
        Ok(Entry {
            number: self.number,
            moment: self.moment,
            event: self.event.copy()?,
            reply: self.reply,
        })
    }
}
