// A client of a scenario: its task, and what the entries that it made left open.
ghost use Rattle.std.specs.Prelude.{◌≡◌, ℕ, ◌+◌, ◌++◌, ◌≤◌, length, true, false, IfOk, OnOk, OnErr};
ghost use Rattle.sd_rules.specs.Scripts.{awaits_reply, awaits_bind, answers_search, fits_found, is_need_of_kind, is_saying, key_at, is_out_of_memory, is_bind_out_of_memory};
ghost use Rattle.sd_world.specs.Clients as clients;
ghost use Rattle.sd_world.specs.Courses as courses;

use crate::task::ClientTask;
use sd_base::Memory;
use sd_rules::leading::{about, opened, take_out};
use sd_rules::{Bound, Event, Fetched, Given, Need, Reply, Verdict};
use std::alloc::Global;
use std::marker::Model;

/// A client of a scenario.
pub struct Client {
    task: ClientTask,
    /// The requests that it leads, by the numbers of their entries.
    leads: Vec<u64>,
    /// The ticket that it waits with.
    ticket: Option<u64>,
    /// Whether its answer was printed.
    is_told: bool,
    is_over: bool,
}

impl Drop for Client {
    fn drop(self) {
        let Client {
            task: _,
            leads: _,
            ticket: _,
            is_told: _,
            is_over: _,
        } = self;
    }
}

impl Model for Client {
    ghost use Rattle.std.specs.Prelude.{◌≡◌};
    ghost use Rattle.sd_world.specs.Clients as clients;
    ghost use Rattle.sd_world.specs.Courses as courses;

    ghost Value = { clients.Client };

    ghost view = { λ c. record {
      task = courses.seen c.task;
      leads = c.leads.items;
      ticket = c.ticket;
      is_told = c.is_told;
      is_over = c.is_over;
    } };

    // Its script is that of the task that is seen: its passwords are hashed with the salts of the scenario.
    ghost invariant = { λ c. courses.script c.task ≡ courses.script_of (courses.seen c.task) };
}

fn is_closing(reply: Reply) -> bool
    ensures { result ≡ clients.is_closing reply }
{
    matches!(
        reply,
        Reply::Closed | Reply::Shut(_) | Reply::Tried(Verdict::Accepted)
    )
}

fn put_in(numbers: &mut Vec<u64>, number: Option<u64>) -> Result<(), Memory>
    ensures { OnOk result (numbers.new.items ≡ clients.with_one numbers.old.items number) }
{
    if let Some(number) = number {
        numbers.push(number)?;
    }
    Ok(())
}

fn update_leads(leads: &mut Vec<u64>, number: Option<u64>, reply: Reply) -> Result<(), Memory>
    ensures { OnOk result (leads.new.items ≡ clients.leads_after leads.old.items number reply) }
{
    if is_closing(reply) {
        take_out(leads, number);
        return Ok(());
    }
    put_in(leads, opened(reply))
}

fn ticket_after(waiting: Option<u64>, reply: Reply) -> Option<u64>
    ensures { result ≡ clients.ticket_after waiting reply }
{
    match reply {
        Reply::Join(_, ticket) => Some(ticket),
        Reply::Took(_) | Reply::NoTicket => None,
        _ => waiting,
    }
}

impl Client {
    /// A client of this task.
    pub fn new(alloc: Global, task: ClientTask) -> Client
        requires { courses.script task ≡ courses.script_of (courses.seen task) }
        ensures { result ≡ clients.begun (courses.seen task) }
    {
        Client {
            task,
            leads: Vec::new(alloc),
            ticket: None,
            is_told: false,
            is_over: false,
        }
    }

    /// What its task needs next. What is to be told counts as told from here on, and the client ends where nothing is needed.
    pub fn need(&mut self) -> Result<Need, Memory>
        ensures need { IfOk result (λ need. need ≡ clients.need_of self.old) }
        ensures asked { OnOk result (self.new ≡ clients.asked self.old) }
        ensures stays { IfOk result (λ need. is_saying need ≡ false → clients.need_of self.new ≡ need) }
        ensures kind { IfOk result (λ need. is_saying need ≡ false → is_need_of_kind (key_at (courses.script_of self.new.task)) need ≡ true) }
        ensures unchanged { OnErr result (self.new ≡ self.old) }
    {
        let need = self.task.ask()?;
        match &need {
            Need::Say(_) => self.is_told = true,
            Need::End => self.is_over = true,
            _ => {}
        }
        Ok(need)
    }

    /// Takes the reply to its event about this number.
    pub fn replied(&mut self, number: Option<u64>, given: Given) -> Result<(), Memory>
        requires awaited { awaits_reply (clients.need_of self.old) ≡ true }
        requires kind { fits_found (key_at (courses.script_of self.old.task)) given.found ≡ true }
        ensures replied { OnOk result (self.new ≡ clients.replied self.old number given) }
        ensures unchanged { OnErr result (self.new.task ≡ self.old.task) }
    {
        update_leads(&mut self.leads, number, given.reply)?;
        self.ticket = ticket_after(self.ticket, given.reply);
        self.task.take_reply(given)
    }

    /// Takes what its search at a server gave.
    pub fn fetched(&mut self, fetched: Fetched)
        requires awaited { answers_search (clients.need_of self.old) fetched ≡ true }
        requires told { is_out_of_memory fetched ≡ false }
        ensures { self.new ≡ clients.fetched self.old fetched }
    {
        self.task.take_fetched(fetched);
    }

    /// Takes what its bind at a server gave.
    pub fn bound(&mut self, bound: Bound)
        requires awaited { awaits_bind (clients.need_of self.old) ≡ true }
        requires told { is_bind_out_of_memory bound ≡ false }
        ensures { self.new ≡ clients.bound self.old bound }
    {
        self.task.take_bound(bound);
    }

    /// The requests that it leads.
    pub fn leads(&self) -> &[u64]
        ensures { result.now ≡ self.now.leads }
    {
        self.leads.as_slice()
    }

    /// The ticket that it waits with.
    pub fn ticket(&self) -> Option<u64>
        ensures { result ≡ self.now.ticket }
    {
        self.ticket
    }

    /// Whether its answer was printed.
    pub fn is_told(&self) -> bool
        ensures { result ≡ self.now.is_told }
    {
        self.is_told
    }

    /// Whether it has ended.
    pub fn is_over(&self) -> bool
        ensures { result ≡ self.now.is_over }
    {
        self.is_over
    }

    /// Leads nothing and waits for nothing from here on.
    pub fn leave(&mut self)
        ensures { self.new ≡ clients.gone self.old }
    {
        self.leads.clear();
        self.ticket = None;
        self.is_over = true;
    }
}
