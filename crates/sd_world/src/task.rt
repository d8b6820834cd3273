// The task of a client: a lookup, a login or an account check.
ghost use Rattle.std.specs.Prelude.{◌≡◌, true, false, IfOk, OnOk, OnErr};
ghost use Rattle.sd_rules.specs.Lookups.{is_client_key};
ghost use Rattle.sd_rules.specs.Scripts.{awaits_reply, awaits_bind, answers_search, fits_found, is_need_of_kind, is_saying, key_at, need_at, is_out_of_memory, is_bind_out_of_memory};
ghost use Rattle.sd_world.specs.Courses as courses;

use sd_base::{Memory, Text};
use sd_creds::Salts;
use sd_nss::NssTask;
use sd_pam::{AccessTask, LoginTask};
use sd_rules::{AccessMode, Bound, Fetched, Given, Key, Need, Task};
use std::alloc::Global;

/// The task of a client.
#[derive(Drop)]
pub enum ClientTask {
    LookUp(NssTask),
    LogIn(LoginTask),
    Check(AccessTask),
}

#[tactic(auto, unfolding(crate::specs::Courses::seed))]
/// The salts of a scenario: they are known, so that it prints the same each time.
fn salts() -> Salts
    ensures { result ≡ courses.seed }
{
    Salts::new([b's'; 32])
}

impl ClientTask {
    /// A lookup of a key.
    pub fn look_up(key: Key) -> ClientTask
        requires { is_client_key key ≡ true }
        ensures seen { courses.seen result ≡ courses.lookup key }
        ensures script { courses.script result ≡ courses.script_of (courses.seen result) }
    {
        ClientTask::LookUp(NssTask::new(key))
    }

    #[tactic(auto, using(crate::proofs::TaskLaws::seen_by, crate::proofs::TaskLaws::tied_by))]
    /// A login of a user; `stores` says whether hashes of passwords are stored.
    pub fn log_in(alloc: Global, user: Text, password: Text, stores: bool) -> ClientTask
        ensures seen { courses.seen result ≡ courses.login (record { user = user; password = password; stores = stores }) }
        ensures script { courses.script result ≡ courses.script_of (courses.seen result) }
    {
        ClientTask::LogIn(LoginTask::new(alloc, user, password, salts(), stores))
    }

    #[tactic(auto, using(crate::proofs::TaskLaws::seen_by, crate::proofs::TaskLaws::tied_by))]
    /// An account check of a user for a service.
    pub fn check(user: Text, service: Text, mode: AccessMode) -> ClientTask
        ensures seen { courses.seen result ≡ courses.check (record { user = user; service = service; mode = mode }) }
        ensures script { courses.script result ≡ courses.script_of (courses.seen result) }
    {
        ClientTask::Check(AccessTask::new(user, service, mode))
    }
}

impl Task for ClientTask {
    ghost script = { courses.script };

    fn need(&mut self) -> Result<Need, Memory> {
        match self {
            ClientTask::LookUp(task) => task.need(),
            ClientTask::LogIn(task) => task.need(),
            ClientTask::Check(task) => task.need(),
        }
    }

    fn replied(&mut self, given: Given) -> Result<(), Memory> {
        match self {
            ClientTask::LookUp(task) => task.replied(given),
            ClientTask::LogIn(task) => task.replied(given),
            ClientTask::Check(task) => task.replied(given),
        }
    }

    fn fetched(&mut self, found: Fetched) {
        match self {
            ClientTask::LookUp(task) => task.fetched(found),
            ClientTask::LogIn(task) => task.fetched(found),
            ClientTask::Check(task) => task.fetched(found),
        }
    }

    fn bound(&mut self, bound: Bound) {
        match self {
            ClientTask::LookUp(task) => task.bound(bound),
            ClientTask::LogIn(task) => task.bound(bound),
            ClientTask::Check(task) => task.bound(bound),
        }
    }
}

impl ClientTask {
    /// What is needed next, by the task as it is seen.
    pub fn ask(&mut self) -> Result<Need, Memory>
        requires { courses.script self.old ≡ courses.script_of (courses.seen self.old) }
        ensures need { IfOk result (λ need. need ≡ need_at (courses.script_of (courses.seen self.old))) }
        ensures told { OnOk result (courses.seen self.new ≡ courses.told (courses.seen self.old)) }
        ensures stays { IfOk result (λ need. is_saying need ≡ false → need_at (courses.script_of (courses.seen self.new)) ≡ need) }
        ensures kind { IfOk result (λ need. is_saying need ≡ false → is_need_of_kind (key_at (courses.script_of (courses.seen self.new))) need ≡ true) }
        ensures unchanged { OnErr result (courses.seen self.new ≡ courses.seen self.old) }
        ensures tied { courses.script self.new ≡ courses.script_of (courses.seen self.new) }
    {
        self.need()
    }

    /// Takes the reply to its event.
    pub fn take_reply(&mut self, given: Given) -> Result<(), Memory>
        requires tied { courses.script self.old ≡ courses.script_of (courses.seen self.old) }
        requires awaited { awaits_reply (need_at (courses.script_of (courses.seen self.old))) ≡ true }
        requires kind { fits_found (key_at (courses.script_of (courses.seen self.old))) given.found ≡ true }
        ensures replied { OnOk result (courses.seen self.new ≡ courses.replied (courses.seen self.old) given) }
        ensures unchanged { OnErr result (courses.seen self.new ≡ courses.seen self.old) }
        ensures tied { courses.script self.new ≡ courses.script_of (courses.seen self.new) }
    {
        self.replied(given)
    }

    /// Takes what its search at a server gave.
    pub fn take_fetched(&mut self, found: Fetched)
        requires tied { courses.script self.old ≡ courses.script_of (courses.seen self.old) }
        requires awaited { answers_search (need_at (courses.script_of (courses.seen self.old))) found ≡ true }
        requires told { is_out_of_memory found ≡ false }
        ensures fetched { courses.seen self.new ≡ courses.fetched (courses.seen self.old) found }
        ensures tied { courses.script self.new ≡ courses.script_of (courses.seen self.new) }
    {
        self.fetched(found);
    }

    /// Takes what its bind at a server gave.
    pub fn take_bound(&mut self, bound: Bound)
        requires tied { courses.script self.old ≡ courses.script_of (courses.seen self.old) }
        requires awaited { awaits_bind (need_at (courses.script_of (courses.seen self.old))) ≡ true }
        requires told { is_bind_out_of_memory bound ≡ false }
        ensures bound { courses.seen self.new ≡ courses.bound (courses.seen self.old) bound }
        ensures tied { courses.script self.new ≡ courses.script_of (courses.seen self.new) }
    {
        self.bound(bound);
    }
}
