//! The task of a client: a lookup, a login, an account check, or an administrator's word.
ghost use Rattle.std.specs.Prelude.{◌≡◌, true, false, IfOk, OnOk, OnErr};
ghost use Rattle.sd_rules.specs.Scripts.{awaits_reply, awaits_bind, answers_search, fits_found, is_need_of_kind, is_saying, is_tellable, key_at, need_at, is_out_of_memory, is_bind_out_of_memory};
ghost use Rattle.sd_engine.specs.Courses as courses;

use sd_base::Memory;
use sd_creds::Salts;
use sd_nss::{AdminTask, NssTask};
use sd_pam::{AccessTask, LoginTask};
use sd_rules::{Bound, Fetched, Given, Need, Task};

/// The task of a client.
#[derive(Drop)]
pub enum ClientTask {
    LookUp(NssTask),
    LogIn(LoginTask),
    Check(AccessTask),
    Administer(AdminTask),
}

impl Task for ClientTask {
    ghost script = { courses.script };

    fn need(&mut self) -> Result<Need, Memory> {
        match self {
            ClientTask::LookUp(task) => task.need(),
            ClientTask::LogIn(task) => task.need(),
            ClientTask::Check(task) => task.need(),
            ClientTask::Administer(task) => task.need(),
        }
    }

    fn replied(&mut self, given: Given) -> Result<(), Memory> {
        match self {
            ClientTask::LookUp(task) => task.replied(given),
            ClientTask::LogIn(task) => task.replied(given),
            ClientTask::Check(task) => task.replied(given),
            ClientTask::Administer(task) => task.replied(given),
        }
    }

    fn fetched(&mut self, found: Fetched) {
        match self {
            ClientTask::LookUp(task) => task.fetched(found),
            ClientTask::LogIn(task) => task.fetched(found),
            ClientTask::Check(task) => task.fetched(found),
            ClientTask::Administer(task) => task.fetched(found),
        }
    }

    fn bound(&mut self, bound: Bound) {
        match self {
            ClientTask::LookUp(task) => task.bound(bound),
            ClientTask::LogIn(task) => task.bound(bound),
            ClientTask::Check(task) => task.bound(bound),
            ClientTask::Administer(task) => task.bound(bound),
        }
    }
}

// A task of each kind is let go in a function of its own.

fn discard_lookup(_task: NssTask) {}

fn discard_login(_task: LoginTask) {}

fn discard_check(_task: AccessTask) {}

fn discard_order(_task: AdminTask) {}

impl ClientTask {
    /// Lets it go.
    pub fn discard(self) {
        match self {
            ClientTask::LookUp(task) => discard_lookup(task),
            ClientTask::LogIn(task) => discard_login(task),
            ClientTask::Check(task) => discard_check(task),
            ClientTask::Administer(task) => discard_order(task),
        }
    }

    /// What is needed next, by the task as it is seen.
    pub fn ask(&mut self, _salts: &Salts) -> Result<Need, Memory>
        requires { courses.script self.old ≡ courses.script_of _salts.now (courses.seen self.old) }
        ensures need { IfOk result (λ need. need ≡ need_at (courses.script_of _salts.now (courses.seen self.old))) }
        ensures told { OnOk result (courses.seen self.new ≡ courses.told (courses.seen self.old)) }
        ensures stays { IfOk result (λ need. is_saying need ≡ false → need_at (courses.script_of _salts.now (courses.seen self.new)) ≡ need) }
        ensures kind { IfOk result (λ need. is_saying need ≡ false → is_need_of_kind (key_at (courses.script_of _salts.now (courses.seen self.new))) need ≡ true) }
        ensures same { IfOk result (λ need. is_saying need ≡ false → courses.seen self.new ≡ courses.seen self.old) }
        ensures tellable { IfOk result (λ need. is_tellable need ≡ true) }
        ensures unchanged { OnErr result (courses.seen self.new ≡ courses.seen self.old) }
        ensures tied { courses.script self.new ≡ courses.script_of _salts.now (courses.seen self.new) }
    {
        self.need()
    }

    /// Takes the reply to its event.
    pub fn take_reply(&mut self, _salts: &Salts, given: Given) -> Result<(), Memory>
        requires tied { courses.script self.old ≡ courses.script_of _salts.now (courses.seen self.old) }
        requires awaited { awaits_reply (need_at (courses.script_of _salts.now (courses.seen self.old))) ≡ true }
        requires kind { fits_found (key_at (courses.script_of _salts.now (courses.seen self.old))) given.found ≡ true }
        ensures replied { OnOk result (courses.seen self.new ≡ courses.replied _salts.now (courses.seen self.old) given) }
        ensures unchanged { OnErr result (courses.seen self.new ≡ courses.seen self.old) }
        ensures tied { courses.script self.new ≡ courses.script_of _salts.now (courses.seen self.new) }
    {
        self.replied(given)
    }

    /// Takes what its search at a server gave.
    pub fn take_fetched(&mut self, _salts: &Salts, found: Fetched)
        requires tied { courses.script self.old ≡ courses.script_of _salts.now (courses.seen self.old) }
        requires awaited { answers_search (need_at (courses.script_of _salts.now (courses.seen self.old))) found ≡ true }
        requires told { is_out_of_memory found ≡ false }
        ensures fetched { courses.seen self.new ≡ courses.fetched (courses.seen self.old) found }
        ensures tied { courses.script self.new ≡ courses.script_of _salts.now (courses.seen self.new) }
    {
        self.fetched(found);
    }

    /// Takes what its bind at a server gave.
    pub fn take_bound(&mut self, _salts: &Salts, bound: Bound)
        requires tied { courses.script self.old ≡ courses.script_of _salts.now (courses.seen self.old) }
        requires awaited { awaits_bind (need_at (courses.script_of _salts.now (courses.seen self.old))) ≡ true }
        requires told { is_bind_out_of_memory bound ≡ false }
        ensures bound { courses.seen self.new ≡ courses.bound _salts.now (courses.seen self.old) bound }
        ensures tied { courses.script self.new ≡ courses.script_of _salts.now (courses.seen self.new) }
    {
        self.bound(bound);
    }
}
