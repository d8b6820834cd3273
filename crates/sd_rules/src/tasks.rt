// What a client's request needs next, and what it is told.
ghost use Rattle.std.specs.Prelude.{◌≡◌, true, false, IfOk, OnOk, OnErr};
ghost use Rattle.sd_rules.specs.Scripts.{Script, need_at, told_at, replied_at, fetched_at, bound_at, key_at, awaits_reply, awaits_bind, answers_search, fits_found, is_saying, is_out_of_memory, is_bind_out_of_memory, is_need_of_kind, is_tellable};

use crate::events::Event;
use crate::keys::Key;
use crate::records::Record;
use crate::replies::Given;
use sd_base::{Copied, Memory, Shared, Text, Texts, Why};

/// Whom and what an account check is about.
#[derive(Clone, Copy)]
pub struct Who<'a> {
    pub user: &'a Text,
    pub groups: &'a Texts,
    pub service: &'a Text,
    pub host: &'a Text,
    pub host_groups: &'a Texts,
}

/// What the lookup of a key at a server came to.
#[derive(Drop)]
pub enum Fetched {
    Found(Shared<Record>),
    Absent,
    /// The result code received.
    Refused(u32),
    /// So many entries, more than one, fit.
    Many(u32),
    Failed(Why),
    Memory,
}

/// What a bind at a server came to.
#[derive(Clone, Copy, PartialEq, Eq)]
pub enum Bound {
    /// The result code received, 0 for success.
    Code(u32),
    Failed(Why),
    Memory,
}

/// What a client is told. Numbers are those of entries, moments are seconds.
#[derive(Drop)]
pub enum Said {
    Found(u64, Shared<Record>),
    Absent(u64),
    Old(u64, u64, Shared<Record>),
    OldNone(u64, u64),
    Dark(u64),
    Filtered,
    Refused(u32),
    Many(u32),
    Dropped(u64),
    DeniedEmpty,
    AcceptedOnline(u64),
    WrongOnline(u64),
    AcceptedOffline(u64),
    WrongOffline(u64),
    Expired(u64),
    Blocked(Option<u64>),
    NoHash,
    GrantedPermit(u64),
    GrantedSimple(u64),
    GrantedRule(u64, Text),
    DeniedDeny(u64),
    DeniedSimple(u64),
    DeniedNoRule(u64),
    Done(u64),
}

/// What a client's request needs next.
#[derive(Drop)]
pub enum Need {
    /// This event is to be stepped.
    Step(Event),
    /// This key is to be looked up at this server.
    Fetch(u32, Key),
    /// A bind at this server, by this distinguished name and password.
    Bind(u32, Text, Text),
    /// This ticket is to be collected once its request is closed.
    Await(u64),
    /// This is to be told to the client.
    Say(Said),
    /// Nothing more.
    End,
}

impl Copied for Said {
    fn copy(&self) -> Result<Said, Memory> {
        Ok(match self {
            Said::Found(n, found) => Said::Found(*n, found.copy()?),
            Said::Absent(n) => Said::Absent(*n),
            Said::Old(n, outage, found) => Said::Old(*n, *outage, found.copy()?),
            Said::OldNone(n, outage) => Said::OldNone(*n, *outage),
            Said::Dark(outage) => Said::Dark(*outage),
            Said::Filtered => Said::Filtered,
            Said::Refused(code) => Said::Refused(*code),
            Said::Many(count) => Said::Many(*count),
            Said::Dropped(n) => Said::Dropped(*n),
            Said::DeniedEmpty => Said::DeniedEmpty,
            Said::AcceptedOnline(n) => Said::AcceptedOnline(*n),
            Said::WrongOnline(n) => Said::WrongOnline(*n),
            Said::AcceptedOffline(n) => Said::AcceptedOffline(*n),
            Said::WrongOffline(n) => Said::WrongOffline(*n),
            Said::Expired(moment) => Said::Expired(*moment),
            Said::Blocked(until) => Said::Blocked(*until),
            Said::NoHash => Said::NoHash,
            Said::GrantedPermit(n) => Said::GrantedPermit(*n),
            Said::GrantedSimple(n) => Said::GrantedSimple(*n),
            Said::GrantedRule(n, name) => Said::GrantedRule(*n, name.copy()?),
            Said::DeniedDeny(n) => Said::DeniedDeny(*n),
            Said::DeniedSimple(n) => Said::DeniedSimple(*n),
            Said::DeniedNoRule(n) => Said::DeniedNoRule(*n),
            Said::Done(n) => Said::Done(*n),
        })
    }
}

impl Copied for Fetched {
    fn copy(&self) -> Result<Fetched, Memory> {
        Ok(match self {
            Fetched::Found(found) => Fetched::Found(found.copy()?),
            Fetched::Absent => Fetched::Absent,
            Fetched::Refused(code) => Fetched::Refused(*code),
            Fetched::Many(count) => Fetched::Many(*count),
            Fetched::Failed(why) => Fetched::Failed(*why),
            Fetched::Memory => Fetched::Memory,
        })
    }
}

/// A client's request, which says what it needs next and is told what came of it. It follows the script of its kind.
pub trait Task {
    /// The script, as far as it has come.
    ghost script: { Self → Script };

    /// What is needed next. What is to be told to the client is handed over once; any other need stays until what came of it
    /// was told.
    fn need(&mut self) -> Result<Need, Memory>
        ensures need { IfOk result (λ need. need ≡ need_at (script self.old)) }
        ensures told { OnOk result (script self.new ≡ told_at (script self.old)) }
        ensures stays { IfOk result (λ need. is_saying need ≡ false → script self.new ≡ script self.old) }
        ensures kind { IfOk result (λ need. is_need_of_kind (key_at (script self.old)) need ≡ true) }
        ensures tellable { IfOk result (λ need. is_tellable need ≡ true) }
        ensures unchanged { OnErr result (script self.new ≡ script self.old) };

    /// The reply to the event that was needed, or to the collecting of the ticket that was awaited.
    fn replied(&mut self, given: Given) -> Result<(), Memory>
        requires awaited { awaits_reply (need_at (script self.old)) ≡ true }
        requires kind { fits_found (key_at (script self.old)) given.found ≡ true }
        ensures replied { OnOk result (script self.new ≡ replied_at (script self.old) given) }
        ensures unchanged { OnErr result (script self.new ≡ script self.old) };

    /// What the search at a server that was needed gave.
    fn fetched(&mut self, found: Fetched)
        requires awaited { answers_search (need_at (script self.old)) found ≡ true }
        requires told { is_out_of_memory found ≡ false }
        ensures { script self.new ≡ fetched_at (script self.old) found };

    /// What the bind at a server that was needed gave.
    fn bound(&mut self, bound: Bound)
        requires awaited { awaits_bind (need_at (script self.old)) ≡ true }
        requires told { is_bind_out_of_memory bound ≡ false }
        ensures { script self.new ≡ bound_at (script self.old) bound };
}
