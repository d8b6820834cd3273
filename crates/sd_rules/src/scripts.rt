// How far a client's request has come on its way from the question to what the client is told.
use crate::events::{LoginResult, Refusal};
use crate::keys::Key;
use crate::records::Answered;
use crate::tasks::Said;
use sd_base::{Items, Why};

/// How far the lookup of a key has come. A request and a ticket are named by the numbers of their entries.
#[derive(Drop)]
pub enum LookupStage {
    /// The key is to be asked for.
    Ask,
    /// This ticket is to be collected.
    Wait(u64),
    /// A server is to be picked for this request, which the lookup leads.
    Pick(u64),
    /// The key of this request is to be looked up at this server.
    Search(u64, u32),
    /// This is to be recorded as the answer to this request.
    Answer(u64, Answered),
    /// This is to be recorded as the refusal of this request.
    Refuse(u64, Refusal),
    /// The fall of this server under this request is to be noted.
    Fall(u64, u32, Why),
    /// An outage is to be recorded for this request.
    Outage(u64),
}

/// What a reply leads a lookup to.
#[derive(Drop)]
pub enum LookupStep {
    /// It goes on.
    Next(LookupStage),
    /// Its outcome is known, as a client is told it.
    Ended(Said),
    /// Its outcome is known, and it leads this request, which is to renew the answer.
    Renew(Said, u64),
}

/// How far a client's request for a key has come.
#[derive(Drop)]
pub enum LookupCourse {
    /// The key is looked up.
    Looking(LookupStage),
    /// This is to be told to the client, and no more.
    Saying(Said),
    /// This is to be told to the client; then this request is to be carried out, which renews the answer.
    SayingFirst(Said, u64),
    /// The client was told, and the key is looked up anew.
    Renewing(LookupStage),
    /// Nothing is left to do.
    Over,
}

/// A request that a script leads to renew an answer, after its client was told.
#[derive(Drop)]
pub struct Led {
    pub request: u64,
    pub key: Key,
}

/// A list of led requests.
pub type LedList = Items<Led>;

/// How far the login of a user that was found has come. An attempt is named by the number of its entry.
#[derive(Clone, Copy)]
pub enum LoginStage {
    /// The login is to be opened.
    Open,
    /// The password was compared with the hash of an online login: the attempt, the login's entry, whether it was right.
    Try(u64, u64, bool),
    /// A server is to be picked for this attempt.
    Pick(u64),
    /// The user is to be bound for this attempt at this server.
    Bind(u64, u32),
    /// This is to be recorded as what a server said of this attempt.
    Online(u64, LoginResult),
    /// The fall of this server under this attempt is to be noted.
    Fall(u64, u32, Why),
    /// An outage is to be recorded for this attempt.
    Outage(u64),
    /// The stored hash is to be looked for.
    Look,
    /// The password was compared with the stored hash of this entry: the entry, whether it was right.
    Guess(u64, bool),
}

/// What a reply leads a login to.
#[derive(Drop)]
pub enum LoginStep {
    /// It goes on.
    Next(LoginStage),
    /// What the client is to be told is known.
    Ended(Said),
}
