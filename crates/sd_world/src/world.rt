// What a scenario works on, and what its lines do to it.
ghost use Rattle.std.specs.Prelude.{◌≡◌, ℕ, ◌+◌, ◌-◌, ◌<◌, ◌≤◌, ◌^◌, ◌++◌, [], length, slice_get, MatchResult, IfOk, OnOk, Ok, reverse, true, false};
ghost use Rattle.sd_rules.specs.declared.events.Event.TheVariants as events;
ghost use Rattle.sd_rules.specs.Lookups.{is_client_key};
ghost use Rattle.sd_rules.specs.Steps.{is_steppable};
ghost use Rattle.sd_conf.specs.declared.config.Config.{Config};
ghost use Rattle.sd_layout.specs.Entries.{dn_of};
ghost use Rattle.sd_layout.specs.Faults.{has_few_servers};
ghost use Rattle.sd_places.specs.Keeping as keeping;
ghost use Rattle.sd_world.specs.Courses as courses;
ghost use Rattle.sd_world.specs.Past.{names};
ghost use Rattle.sd_world.specs.Prints as prints;
ghost use Rattle.sd_world.specs.Stops.{Halts};
ghost use Rattle.sd_world.specs.Tasks as tasks;
ghost use Rattle.sd_world.specs.Transcript as script;

use crate::client::Client;
use crate::moves::{Site, happen, is_ready, leave, make_move};
use crate::stop::Stop;
use crate::task::ClientTask;
use sd_base::{Copied, Memory, Text};
use sd_conf::Config;
use sd_core::Core;
use sd_layout::{dn_of, group_entry, host_entry, rule_entry, service_entry, user_entry};
use sd_ldap::DirEntry;
use sd_lines::{Kind, Line};
use sd_rules::{Entry, Event, Key, Rows, Settings, What};
use sd_wire::fields::{push_bytes, push_numbered};
use sd_wire::push_entry;
use std::alloc::Global;
use std::marker::Model;

/// What a scenario works on.
pub struct World {
    alloc: Global,
    core: Core,
    site: Site,
    clients: Vec<Client>,
    /// The most entries that the journal has.
    limit: u32,
    is_held: bool,
    out: Vec<u8>,
}

impl Drop for World {
    fn drop(self) {
        let World {
            alloc: _,
            core: _,
            site: _,
            clients: _,
            limit: _,
            is_held: _,
            out: _,
        } = self;
    }
}

impl Model for World {
    ghost use Rattle.sd_world.specs.Past.{AreKnown};
    ghost use Rattle.sd_world.specs.Tasks as tasks;

    ghost Value = { tasks.World };

    ghost view = { λ w. record {
      daemon = w.core;
      site = w.site;
      clients = w.clients.items;
      limit = w.limit;
      is_held = w.is_held;
      printed = w.out.items;
    } };

    ghost invariant = { λ w. AreKnown w.core w.clients.items };
}

/// Appends the lines of a journal.
fn push_journal(alloc: Global, out: &mut Vec<u8>, entries: &[Entry]) -> Result<(), Memory>
    ensures { OnOk result (out.new.items ≡ out.old.items ++ prints.journal_text entries.now) }
{
    for entry in entries {
        push_entry(alloc, out, entry)?;
        push_bytes(out, b"\n")?;
    }
    Ok(())
}

/// Appends the line that ends a scenario whose journal is full.
fn push_full(alloc: Global, out: &mut Vec<u8>, number: u64) -> Result<(), Memory>
    ensures { OnOk result (out.new.items ≡ out.old.items ++ prints.full_line number) }
{
    push_numbered(alloc, out, b"journal full ", number)?;
    push_bytes(out, b"\n")
}

/// The place of the first client that is ready, or the number of clients.
fn first_ready(core: &Core, clients: &[Client]) -> usize
    ensures { result ≡ tasks.first_ready core.now.past clients.now }
{
    for (place, client) in clients.iter().enumerate() {
        if is_ready(core, client) {
            return place;
        }
    }
    clients.len()
}

/// A core without entries.
fn open_core(alloc: Global, settings: Settings) -> Result<Core, Memory>
    requires { settings.primaries + settings.backups ≤ 64 }
    ensures { IfOk result (λ core. core ≡ record { settings = settings; next = 1; floor = 0; past = [] }) }
{
    match Core::open(alloc, settings, Rows::new(alloc)) {
        Ok(core) => Ok(core),
        Err(_) => Err(Memory),
    }
}

impl World {
    #[tactic(auto, using(crate::proofs::KnownLaws::none_known))]
    /// Where a scenario of this configuration begins.
    pub fn new(alloc: Global, config: Config) -> Result<World, Memory>
        requires { has_few_servers config ≡ true }
        ensures { IfOk result (λ world. world ≡ script.start config) }
    {
        let limit = config.settings.journal_limit;
        let settings = config.settings.copy()?;
        Ok(World {
            alloc,
            core: open_core(alloc, settings)?,
            site: Site::new(alloc, config)?,
            clients: Vec::new(alloc),
            limit,
            is_held: false,
            out: Vec::new(alloc),
        })
    }

    /// What was printed.
    pub fn printed(&self) -> &[u8]
        ensures { result.now ≡ self.now.printed }
    {
        self.out.as_slice()
    }

    /// Prints the line that ends a scenario whose journal is full.
    pub fn print_full(&mut self, number: u64) -> Result<(), Memory>
        ensures { OnOk result (self.new ≡ record self.old { printed = self.old.printed ++ prints.full_line number }) }
    {
        push_full(self.alloc, &mut self.out, number)
    }

    fn is_ready_at(&self, place: usize) -> bool
        ensures { result ≡ tasks.is_ready_at self.now.daemon.past (slice_get self.now.clients place) }
    {
        match self.clients.get(place) {
            Some(client) => is_ready(&self.core, client),
            None => false,
        }
    }

    #[tactic(auto, using(crate::proofs::KnownLaws::known_at, crate::proofs::KnownLaws::known_with))]
    /// The client in this place, which is there, makes a move.
    fn move_client(&mut self, place: usize) -> Result<(), Stop>
        requires { place < length self.old.clients }
        ensures done { let done = tasks.client_moved_at self.old place in MatchResult result (λ _. done ≡ Ok self.new) (λ stop. Halts stop done self.new.printed) }
        ensures clients { length self.new.clients ≡ length self.old.clients }
    {
        make_move(
            self.alloc,
            &self.site,
            place as u64 + 1,
            &mut self.core,
            &mut self.clients[place],
            &mut self.out,
        )
    }

    /// The client in this place makes a move, where it can.
    fn move_at(&mut self, place: usize) -> Result<(), Stop>
        ensures done { let done = tasks.move_at self.old place in MatchResult result (λ _. done ≡ Ok self.new) (λ stop. Halts stop done self.new.printed) }
        ensures clients { length self.new.clients ≡ length self.old.clients }
    {
        if !self.is_ready_at(place) {
            return Ok(());
        }
        self.move_client(place)
    }

    /// The client in this place makes so many moves.
    #[tactic(auto, using(crate::proofs::Counting::move_counted, crate::proofs::Counting::move_stopped))]
    fn moves_at(&mut self, count: u64, place: usize) -> Result<(), Stop>
        ensures done { let done = tasks.moves_at count self.old place in MatchResult result (λ _. done ≡ Ok self.new) (λ stop. Halts stop done self.new.printed) }
        ensures clients { length self.new.clients ≡ length self.old.clients }
    {
        let mut left = count;
        while left > 0 {
            self.move_at(place)?;
            left -= 1;
        }
        Ok(())
    }

    /// The place of the client that moves next: the one that moved last, as long as it can, and then the first that can.
    fn next_up(&self, last: usize) -> usize
        ensures { result ≡ tasks.next_up self.now last }
    {
        if self.is_ready_at(last) {
            return last;
        }
        first_ready(&self.core, self.clients.as_slice())
    }

    /// More moves than the tasks that run can make.
    fn most_moves(&self) -> u128
        ensures { result ≡ tasks.most_moves self.now }
    {
        let entries = self.core.journal();
        let clients = self.clients.as_slice();
        u128::from(self.limit) + 2 * (entries.len() as u128) + clients.len() as u128
    }

    /// Lets the tasks run, from the client in this place on, until none is ready.
    #[tactic(auto, using(crate::proofs::Counting::run_counted, crate::proofs::Counting::run_rests, crate::proofs::Counting::run_stopped, crate::proofs::Counting::run_spent))]
    fn run_from(&mut self, first: usize) -> Result<(), Stop>
        requires bounded { tasks.is_bounded (tasks.run_from self.old first) ≡ true }
        ensures done { let done = tasks.run_from self.old first in MatchResult result (λ _. done ≡ Ok self.new) (λ stop. Halts stop done self.new.printed) }
        ensures clients { length self.new.clients ≡ length self.old.clients }
    {
        let mut last = first;
        let mut moves = self.most_moves();
        while moves > 0 {
            let next = self.next_up(last);
            if !self.is_ready_at(next) {
                break;
            }
            self.move_client(next)?;
            last = next;
            moves -= 1;
        }
        Ok(())
    }

    fn run_unless_held(&mut self, last: usize) -> Result<(), Stop>
        requires bounded { tasks.is_bounded (script.run_unless_held self.old last) ≡ true }
        ensures done { let done = script.run_unless_held self.old last in MatchResult result (λ _. done ≡ Ok self.new) (λ stop. Halts stop done self.new.printed) }
        ensures clients { length self.new.clients ≡ length self.old.clients }
    {
        if self.is_held {
            return Ok(());
        }
        self.run_from(last)
    }

    /// Adds the client of a task.
    #[tactic(auto, using(crate::proofs::KnownLaws::known_task))]
    fn add_client(&mut self, task: ClientTask) -> Result<(), Memory>
        requires script { courses.script task ≡ courses.script_of (courses.seen task) }
        requires begun { names (courses.seen task) ≡ [] }
        ensures { OnOk result (self.new ≡ script.client_added self.old (courses.seen task)) }
    {
        let client = Client::new(self.alloc, task);
        self.clients.push(client)?;
        Ok(())
    }

    /// Makes a task; outside a hold it runs.
    fn make_task(&mut self, task: ClientTask) -> Result<(), Stop>
        requires script { courses.script task ≡ courses.script_of (courses.seen task) }
        requires begun { names (courses.seen task) ≡ [] }
        requires bounded { tasks.is_bounded (script.task_made self.old (courses.seen task)) ≡ true }
        ensures done { let done = script.task_made self.old (courses.seen task) in MatchResult result (λ _. done ≡ Ok self.new) (λ stop. Halts stop done self.new.printed) }
    {
        let place = self.clients.len();
        self.add_client(task)?;
        self.run_unless_held(place)
    }

    /// Makes a task that looks up a key.
    fn look_up(&mut self, key: Key) -> Result<(), Stop>
        requires client { is_client_key key ≡ true }
        requires bounded { tasks.is_bounded (script.task_made self.old (courses.lookup key)) ≡ true }
        ensures done { let done = script.task_made self.old (courses.lookup key) in MatchResult result (λ _. done ≡ Ok self.new) (λ stop. Halts stop done self.new.printed) }
    {
        self.make_task(ClientTask::look_up(key))
    }

    /// Makes a task that logs a user in.
    #[tactic(auto, using(crate::proofs::ReplyLaws::login_names_nothing))]
    fn log_in(&mut self, user: Text, password: Text) -> Result<(), Stop>
        requires bounded { tasks.is_bounded (script.task_made self.old (courses.login (script.login_words self.old user password))) ≡ true }
        ensures done { let done = script.task_made self.old (courses.login (script.login_words self.old user password)) in MatchResult result (λ _. done ≡ Ok self.new) (λ stop. Halts stop done self.new.printed) }
    {
        let stores = self.site.config().settings.cache_credentials;
        self.make_task(ClientTask::log_in(self.alloc, user, password, stores))
    }

    /// Makes a task that checks an account.
    fn check(&mut self, user: Text, service: Text) -> Result<(), Stop>
        requires bounded { tasks.is_bounded (script.task_made self.old (courses.check (script.check_words self.old user service))) ≡ true }
        ensures done { let done = script.task_made self.old (courses.check (script.check_words self.old user service)) in MatchResult result (λ _. done ≡ Ok self.new) (λ stop. Halts stop done self.new.printed) }
    {
        let mode = self.site.config().settings.access;
        self.make_task(ClientTask::check(user, service, mode))
    }

    #[tactic(auto, using(crate::proofs::KnownLaws::known_at, crate::proofs::KnownLaws::known_left))]
    /// The client in this place, which is there, leaves.
    fn let_leave(&mut self, place: usize) -> Result<(), Stop>
        requires { place < length self.old.clients }
        ensures done { let done = tasks.client_left_at self.old place in MatchResult result (λ _. done ≡ Ok self.new) (λ stop. Halts stop done self.new.printed) }
    {
        leave(
            self.alloc,
            &self.site,
            place as u64 + 1,
            &mut self.core,
            &mut self.clients[place],
            &mut self.out,
        )
    }

    fn has_ended(&self, place: usize) -> bool
        ensures { result ≡ tasks.has_ended_at (slice_get self.now.clients place) }
    {
        match self.clients.get(place) {
            Some(client) => client.is_over(),
            None => true,
        }
    }

    /// The client in this place leaves, unless it has ended.
    fn leave_at(&mut self, place: usize) -> Result<(), Stop>
        ensures done { let done = tasks.left_at self.old place in MatchResult result (λ _. done ≡ Ok self.new) (λ stop. Halts stop done self.new.printed) }
    {
        if self.has_ended(place) {
            return Ok(());
        }
        self.let_leave(place)
    }

    #[tactic(auto, using(crate::proofs::KnownLaws::all_known_on))]
    /// An event happens at once.
    fn happen(&mut self, event: Event) -> Result<(), Stop>
        requires { is_steppable self.old.daemon.past event ≡ true }
        ensures done { let done = script.event_happened self.old event in MatchResult result (λ _. done ≡ Ok self.new) (λ stop. Halts stop done self.new.printed) }
    {
        happen(&mut self.core, self.site.moment(), event)
    }

    /// Puts an entry.
    fn put(&mut self, entry: DirEntry) -> Result<(), Memory>
        ensures { OnOk result (self.new ≡ script.entry_put self.old entry) }
    {
        self.site.put(entry)
    }

    /// Puts entries one after the other.
    fn put_all(&mut self, entries: &[DirEntry]) -> Result<(), Memory>
        ensures { OnOk result (self.new ≡ script.with_entries self.old (keeping.put_all self.old.site.entries entries.now)) }
    {
        self.site.put_all(entries)
    }

    /// Takes out the entry of a kind and a name.
    fn remove(&mut self, kind: Kind, name: &Text) -> Result<(), Memory>
        ensures { OnOk result (self.new ≡ script.entry_removed self.old (dn_of self.old.site.config.base kind name.now)) }
    {
        let dn = dn_of(self.alloc, &self.site.config().base, kind, name)?;
        self.site.take_out(&dn)
    }

    fn print_journal(&mut self) -> Result<(), Memory>
        ensures { OnOk result (self.new ≡ script.journal_printed self.old) }
    {
        push_journal(self.alloc, &mut self.out, self.core.journal())
    }

    /// Forgets what no later event can look at.
    #[tactic(auto, using(crate::proofs::KnownLaws::forget_keeps, crate::proofs::KnownLaws::all_known_on))]
    fn forget(&mut self) -> Result<(), Memory>
        ensures { OnOk result (self.new ≡ script.forgot self.old) }
    {
        self.core.forget()?;
        Ok(())
    }

    /// An event happens, which any journal takes.
    fn void(&mut self, what: &What) -> Result<(), Stop>
        ensures done { let done = script.event_happened self.old (events.Void what.now) in MatchResult result (λ _. done ≡ Ok self.new) (λ stop. Halts stop done self.new.printed) }
    {
        let what = what.copy()?;
        self.happen(Event::Void(what))
    }

    /// A line about the tasks that are held.
    fn do_held_line(&mut self, line: &Line) -> Result<(), Stop>
        requires bounded { tasks.is_bounded (script.held_line_done self.old line.now) ≡ true }
        ensures done { let done = script.held_line_done self.old line.now in MatchResult result (λ _. done ≡ Ok self.new) (λ stop. Halts stop done self.new.printed) }
    {
        match line {
            Line::Hold => {
                self.is_held = true;
                Ok(())
            }
            Line::Go => {
                self.is_held = false;
                self.run_from(0)
            }
            Line::Step(task, count) => self.moves_at(*count, task.saturating_sub(1) as usize),
            Line::Abandon(task) => self.leave_at(task.saturating_sub(1) as usize),
            _ => Ok(()),
        }
    }

    /// A line that puts an entry.
    fn do_entry_line(&mut self, line: &Line) -> Result<(), Memory>
        ensures { OnOk result (script.entry_line_done self.old line.now ≡ self.new) }
    {
        let base = &self.site.config().base;
        let entry = match line {
            Line::User(user) => user_entry(self.alloc, base, user)?,
            Line::Group(group) => group_entry(self.alloc, base, group)?,
            Line::Host(host) => host_entry(self.alloc, base, host)?,
            Line::Service(service) => service_entry(self.alloc, base, service)?,
            Line::Rule(rule) => rule_entry(self.alloc, base, rule)?,
            _ => return Ok(()),
        };
        self.put(entry)
    }

    /// A line about the directory, its servers or the moment.
    fn do_directory_line(&mut self, line: &Line) -> Result<(), Memory>
        ensures { OnOk result (script.directory_line_done self.old line.now ≡ self.new) }
    {
        match line {
            Line::At(moment) => self.site.set_moment(*moment),
            Line::Remove(kind, name) => self.remove(*kind, name)?,
            Line::Ldif(entries) => self.put_all(entries.items())?,
            Line::Server(server, mode) => self.site.change_server(*server, *mode)?,
            _ => self.do_entry_line(line)?,
        }
        Ok(())
    }

    /// A line that makes a task.
    fn do_task_line(&mut self, line: &Line) -> Result<(), Stop>
        requires bounded { tasks.is_bounded (script.task_line_done self.old line.now) ≡ true }
        ensures done { let done = script.task_line_done self.old line.now in MatchResult result (λ _. done ≡ Ok self.new) (λ stop. Halts stop done self.new.printed) }
    {
        match line {
            Line::GetUser(name) => self.look_up(Key::User(name.copy()?)),
            Line::GetUid(uid) => self.look_up(Key::Uid(*uid)),
            Line::GetGroup(name) => self.look_up(Key::Group(name.copy()?)),
            Line::GetGid(gid) => self.look_up(Key::Gid(*gid)),
            Line::GroupsOf(name) => self.look_up(Key::GroupsOf(name.copy()?)),
            Line::Login(user, password) => self.log_in(user.copy()?, password.copy()?),
            Line::Access(user, service) => self.check(user.copy()?, service.copy()?),
            _ => Ok(()),
        }
    }

    /// Carries out a line.
    fn carry_out(&mut self, line: &Line) -> Result<(), Stop>
        requires bounded { tasks.is_bounded (script.line_done self.old line.now) ≡ true }
        ensures done { let done = script.line_done self.old line.now in MatchResult result (λ _. done ≡ Ok self.new) (λ stop. Halts stop done self.new.printed) }
    {
        match line {
            Line::Void(what) => self.void(what),
            Line::Offline => self.happen(Event::Offline),
            Line::Online => self.happen(Event::Online),
            Line::Forget => {
                self.forget()?;
                Ok(())
            }
            Line::Journal => {
                self.print_journal()?;
                Ok(())
            }
            Line::GetUser(_)
            | Line::GetUid(_)
            | Line::GetGroup(_)
            | Line::GetGid(_)
            | Line::GroupsOf(_)
            | Line::Login(_, _)
            | Line::Access(_, _) => self.do_task_line(line),
            Line::Hold | Line::Go | Line::Step(_, _) | Line::Abandon(_) => self.do_held_line(line),
            _ => {
                self.do_directory_line(line)?;
                Ok(())
            }
        }
    }

    /// Does what a line says.
    pub fn do_line(&mut self, line: &Line) -> Result<(), Stop>
        requires bounded { tasks.is_bounded (script.line_done self.old line.now) ≡ true }
        ensures done { let done = script.line_done self.old line.now in MatchResult result (λ _. done ≡ Ok self.new) (λ stop. Halts stop done self.new.printed) }

        // Tasks that a line lets run do so until none is ready, and a step makes its events.
        ensures rests { script.lets_run self.old line.now ≡ true → OnOk result (tasks.NoneIsReady self.new) }
        ensures steps { OnOk result (script.StepsAs self.old line.now self.new) }
    {
        self.carry_out(line)
    }
}
