//! A client's request.
ghost use Rattle.std.specs.Prelude.{◌≡◌, true, false, IfOk, OnOk, OnErr};
ghost use Rattle.sd_rules.specs.Lookups.{is_client_key};
ghost use Rattle.sd_rules.specs.Scripts.{awaits_reply, awaits_bind, answers_search, fits_found, is_need_of_kind, is_saying, is_tellable, key_at, is_out_of_memory, is_bind_out_of_memory};
ghost use Rattle.sd_engine.specs.Courses as courses;

use crate::task::ClientTask;
use sd_base::{Memory, Text};
use sd_creds::Salts;
use sd_nss::{AdminTask, NssTask};
use sd_pam::{AccessTask, LoginTask};
use sd_rules::{AccessMode, Bound, Event, Fetched, Given, Key, Need};
use std::alloc::Global;
use std::marker::Model;

/// A client's request, as far as it has come. It follows the script of its kind.
#[derive(Drop)]
pub struct Client {
    salts: Salts,
    task: ClientTask,
}

impl Model for Client {
    ghost use Rattle.std.specs.Prelude.{◌≡◌};
    ghost use Rattle.sd_engine.specs.Courses as courses;

    ghost Value = { courses.Client };

    ghost view = { λ c. record { seed = c.salts; course = courses.seen c.task } };

    ghost invariant = { λ c. courses.script c.task ≡ courses.script_of c.salts (courses.seen c.task) };
}

impl Client {
    /// A lookup of a key, which is neither Host nor Rules.
    pub fn look_up(salts: Salts, key: Key) -> Client
        requires { is_client_key key ≡ true }
        ensures { result ≡ record { seed = salts; course = courses.lookup key } }
    {
        Client {
            salts,
            task: ClientTask::LookUp(NssTask::new(key)),
        }
    }

    /// A login of a user; `stores` says whether hashes of passwords are stored.
    #[tactic(auto, using(crate::proofs::TaskLaws::seen_by, crate::proofs::TaskLaws::tied_by))]
    pub fn log_in(alloc: Global, salts: Salts, user: Text, password: Text, stores: bool) -> Client
        ensures { result ≡ record { seed = salts; course = courses.login (record { user = user; password = password; stores = stores }) } }
    {
        Client {
            salts,
            task: ClientTask::LogIn(LoginTask::new(alloc, user, password, salts, stores)),
        }
    }

    /// An account check of a user for a service.
    #[tactic(auto, using(crate::proofs::TaskLaws::seen_by, crate::proofs::TaskLaws::tied_by))]
    pub fn check(salts: Salts, user: Text, service: Text, mode: AccessMode) -> Client
        ensures { result ≡ record { seed = salts; course = courses.check (record { user = user; service = service; mode = mode }) } }
    {
        Client {
            salts,
            task: ClientTask::Check(AccessTask::new(user, service, mode)),
        }
    }

    /// An administrator's word, which is one event.
    #[tactic(auto, using(crate::proofs::TaskLaws::seen_by, crate::proofs::TaskLaws::tied_by))]
    pub fn order(salts: Salts, event: Event) -> Client
        ensures { result ≡ record { seed = salts; course = courses.order event } }
    {
        Client {
            salts,
            task: ClientTask::Administer(AdminTask::new(event)),
        }
    }

    /// Lets it go.
    pub fn discard(self) {
        let Client { salts: _, task } = self;
        task.discard();
    }

    /// What it needs next. What is to be told counts as told from here on.
    pub fn need(&mut self) -> Result<Need, Memory>
        ensures need { IfOk result (λ need. need ≡ courses.need_of self.old) }
        ensures told { OnOk result (self.new ≡ courses.client_told self.old) }
        ensures stays { IfOk result (λ need. is_saying need ≡ false → courses.need_of self.new ≡ need) }
        ensures kind { IfOk result (λ need. is_saying need ≡ false → is_need_of_kind (key_at (courses.script_at self.new)) need ≡ true) }
        ensures same { IfOk result (λ need. is_saying need ≡ false → self.new ≡ self.old) }
        ensures tellable { IfOk result (λ need. is_tellable need ≡ true) }
        ensures unchanged { OnErr result (self.new ≡ self.old) }
    {
        self.task.ask(&self.salts)
    }

    /// Takes the reply to its event, or to the collecting of its ticket.
    pub fn replied(&mut self, given: Given) -> Result<(), Memory>
        requires awaited { awaits_reply (courses.need_of self.old) ≡ true }
        requires kind { fits_found (key_at (courses.script_at self.old)) given.found ≡ true }
        ensures replied { OnOk result (self.new ≡ courses.client_replied self.old given) }
        ensures unchanged { OnErr result (self.new ≡ self.old) }
    {
        self.task.take_reply(&self.salts, given)
    }

    /// Takes what its search at a server gave.
    pub fn fetched(&mut self, found: Fetched)
        requires awaited { answers_search (courses.need_of self.old) found ≡ true }
        requires told { is_out_of_memory found ≡ false }
        ensures { self.new ≡ courses.client_fetched self.old found }
    {
        self.task.take_fetched(&self.salts, found);
    }

    /// Takes what its bind at a server gave.
    pub fn bound(&mut self, bound: Bound)
        requires awaited { awaits_bind (courses.need_of self.old) ≡ true }
        requires told { is_bind_out_of_memory bound ≡ false }
        ensures { self.new ≡ courses.client_bound self.old bound }
    {
        self.task.take_bound(&self.salts, bound);
    }
}
