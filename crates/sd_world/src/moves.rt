// How the clients of a scenario make their moves.
ghost use Rattle.std.specs.Prelude.{◌≡◌, ℕ, ◌++◌, List, [], Some, MatchResult, IfOk, OnOk, Ok, true, false};
ghost use Rattle.sd_rules.specs.declared.replies.Entry.{Entry};
ghost use Rattle.sd_rules.specs.declared.tasks.Need.TheVariants as needs;
ghost use Rattle.sd_rules.specs.Lookups.{is_fetched_of_kind};
ghost use Rattle.sd_rules.specs.Scripts.{fits_found, is_need_of_kind, is_out_of_memory, is_bind_out_of_memory, is_saying, key_at};
ghost use Rattle.sd_rules.specs.Steps as steps;
ghost use Rattle.sd_core.specs.Sound.{found_fits};
ghost use Rattle.sd_world.specs.Clients as clients;
ghost use Rattle.sd_world.specs.Courses as courses;
ghost use Rattle.sd_places.specs.Keeping as keeping;
ghost use Rattle.sd_world.specs.Past.{IsKnown, KeepsKeys};
ghost use Rattle.sd_world.specs.Prints as prints;
ghost use Rattle.sd_world.specs.Stops.{Fails, Halts};
ghost use Rattle.sd_world.specs.Tasks as tasks;
ghost use Rattle.sd_world.specs.Transcript as script;

use crate::client::Client;
use crate::directory::{Change, mode_of};
use crate::stop::Stop;
use sd_base::{Memory, Text};
use sd_conf::Config;
use sd_core::{Core, Look};
use sd_ldap::DirEntry;
use sd_provider::{ShortDirectory, bound_at, fetched_at};
use sd_rules::leading::about;
use sd_rules::{Bound, Event, Fetched, Given, Key, Need, Said, StepFault};
use sd_stub::Mode;
use sd_wire::fields::{push_bytes, push_number};
use sd_wire::push_line;
use std::alloc::Global;
use std::marker::Model;

/// What surrounds the tasks of a scenario.
pub struct Site {
    config: Config,
    directory: ShortDirectory,
    changes: Vec<Change>,
    moment: u64,
}

impl Drop for Site {
    fn drop(self) {
        let Site {
            config: _,
            directory: _,
            changes: _,
            moment: _,
        } = self;
    }
}

impl Model for Site {
    ghost use Rattle.std.specs.Prelude.{reverse};
    ghost use Rattle.sd_world.specs.Tasks as tasks;

    ghost Value = { tasks.Site };

    ghost view = { λ s. record {
      config = s.config;
      entries = s.directory;
      changes = reverse s.changes.items;
      moment = s.moment;
    } };
}

/// One step of the core.
#[tactic(auto, using(crate::proofs::KnownLaws::made_keeps, crate::proofs::KnownLaws::keeps_itself))]
pub fn step(core: &mut Core, now: u64, event: Event) -> Result<Given, Stop>
    requires { steps.is_steppable core.old.past event ≡ true }
    ensures done { MatchResult result (λ given. tasks.step core.old now event ≡ Ok (core.new, given)) (λ stop. Fails stop (tasks.step core.old now event)) }
    ensures made { OnOk result (core.new ≡ steps.after core.old now event) }
    ensures given { IfOk result (λ given. given ≡ steps.given core.old now event) }
    ensures fits { IfOk result (λ given. found_fits core.old.past event given.found ≡ true) }
    ensures keys { KeepsKeys core.old core.new }
{
    match core.step(now, event) {
        Ok(given) => Ok(given),
        Err(refused) => match refused.fault {
            StepFault::JournalFull(number) => Err(Stop::Full(number)),
            StepFault::Memory => Err(Stop::Memory),
        },
    }
}

/// One step of the core, whose reply nobody waits for.
pub fn happen(core: &mut Core, now: u64, event: Event) -> Result<(), Stop>
    requires { steps.is_steppable core.old.past event ≡ true }
    ensures keys { KeepsKeys core.old core.new }
    ensures done { MatchResult result (λ _. tasks.happened core.old now event ≡ Ok core.new) (λ stop. Fails stop (tasks.happened core.old now event)) }
{
    step(core, now, event)?;
    Ok(())
}

impl Site {
    /// A directory without entries whose servers are up, at moment 0.
    pub fn new(alloc: Global, config: Config) -> Result<Site, Memory>
        ensures { IfOk result (λ site. site ≡ record { config = config; entries = []; changes = []; moment = 0 }) }
    {
        Ok(Site {
            config,
            directory: ShortDirectory::new(alloc, &[])?,
            changes: Vec::new(alloc),
            moment: 0,
        })
    }

    /// The moment handed in, in seconds.
    pub fn moment(&self) -> u64
        ensures { result ≡ self.now.moment }
    {
        self.moment
    }

    /// Sets the moment that is handed in from here on.
    pub fn set_moment(&mut self, moment: u64)
        ensures { self.new ≡ record self.old { moment = moment } }
    {
        self.moment = moment;
    }

    /// The configuration.
    pub fn config(&self) -> &Config
        ensures { result.now ≡ self.now.config }
    {
        &self.config
    }

    /// Puts an entry.
    pub fn put(&mut self, entry: DirEntry) -> Result<(), Memory>
        ensures { OnOk result (self.new ≡ record self.old { entries = keeping.put self.old.entries entry }) }
    {
        self.directory.put(entry)
    }

    /// Puts entries one after the other.
    pub fn put_all(&mut self, entries: &[DirEntry]) -> Result<(), Memory>
        ensures { OnOk result (self.new ≡ record self.old { entries = keeping.put_all self.old.entries entries.now }) }
    {
        self.directory.put_all(entries)
    }

    /// Takes out the entry of a DN.
    pub fn take_out(&mut self, dn: &Text) -> Result<(), Memory>
        ensures { OnOk result (self.new ≡ record self.old { entries = keeping.removed self.old.entries dn.now }) }
    {
        self.directory.take_out(dn)
    }

    /// Lets a server behave so from here on.
    pub fn change_server(&mut self, server: u32, mode: Mode) -> Result<(), Memory>
        ensures { OnOk result (self.new ≡ script.server_changed self.old server mode) }
    {
        self.changes.push(Change { server, mode })?;
        Ok(())
    }

    /// What the lookup of a key at a server comes to.
    fn fetched_at(&self, alloc: Global, server: u32, key: &Key) -> Result<Fetched, Memory>
        ensures answer { IfOk result (λ fetched. fetched ≡ tasks.fetched_at self.now server key.now) }
        ensures kind { IfOk result (λ fetched. is_fetched_of_kind key.now fetched ≡ true) }
        ensures memory { IfOk result (λ fetched. is_out_of_memory fetched ≡ false) }
    {
        let mode = mode_of(self.changes.as_slice(), server);
        fetched_at(alloc, mode, &self.config, &self.directory, key)
    }

    /// What a bind at a server comes to.
    fn bound_at(
        &self,
        alloc: Global,
        server: u32,
        dn: &Text,
        password: &Text,
    ) -> Result<Bound, Memory>
        ensures answer { IfOk result (λ bound. bound ≡ tasks.bound_at self.now server dn.now password.now) }
        ensures memory { IfOk result (λ bound. is_bind_out_of_memory bound ≡ false) }
    {
        let mode = mode_of(self.changes.as_slice(), server);
        bound_at(alloc, mode, &self.directory, dn, password)
    }
}

fn push_answer(
    alloc: Global,
    out: &mut Vec<u8>,
    pwfield: &Text,
    number: u64,
    said: &Said,
) -> Result<(), Memory>
    ensures { OnOk result (out.new.items ≡ out.old.items ++ prints.answer_line pwfield.now number said.now) }
{
    push_number(alloc, out, number)?;
    push_bytes(out, b" ")?;
    push_line(alloc, out, said, pwfield.bytes())?;
    push_bytes(out, b"\n")
}

/// Carries out what needs no event: a server is asked, or an answer is printed.
#[tactic(auto, using(crate::proofs::ReplyLaws::fetched_known, crate::proofs::ReplyLaws::bound_known))]
fn settle_by(
    alloc: Global,
    site: &Site,
    number: u64,
    client: &mut Client,
    out: &mut Vec<u8>,
    need: Need,
) -> Result<(), Memory>
    requires stays { is_saying need ≡ false → clients.need_of client.old ≡ need }
    ensures done { OnOk result (tasks.settled_by site.now number (client.old, out.old.items) need ≡ (client.new, out.new.items)) }
    ensures known { (d : steps.Daemon) → IsKnown d client.old.task → IsKnown d client.new.task }
{
    match need {
        Need::Fetch(server, key) => {
            let fetched = site.fetched_at(alloc, server, &key)?;
            client.fetched(fetched);
            Ok(())
        }
        Need::Bind(server, dn, password) => {
            let bound = site.bound_at(alloc, server, &dn, &password)?;
            client.bound(bound);
            Ok(())
        }
        Need::Say(said) => push_answer(alloc, out, &site.config.pwfield, number, &said),
        _ => Ok(()),
    }
}

/// Asks a client's task for its need, and carries it out where it needs no event.
#[tactic(auto, using(crate::proofs::ReplyLaws::told_known))]
fn settle(
    alloc: Global,
    site: &Site,
    number: u64,
    client: &mut Client,
    out: &mut Vec<u8>,
) -> Result<(), Memory>
    ensures done { OnOk result (tasks.settled site.now number (client.old, out.old.items) ≡ (client.new, out.new.items)) }
    ensures known { (d : steps.Daemon) → IsKnown d client.old.task → IsKnown d client.new.task }
{
    let need = client.need()?;
    settle_by(alloc, site, number, client, out, need)
}

/// One step of the core, by the event that a client's task needs.
fn step_of(core: &mut Core, now: u64, client: &Client, event: Event) -> Result<Given, Stop>
    requires event { courses.event_of (clients.need_of client.now) ≡ Some event }
    requires kind { is_need_of_kind (key_at (courses.script_of client.now.task)) (clients.need_of client.now) ≡ true }
    requires known { IsKnown core.old client.now.task }
    ensures done { MatchResult result (λ given. tasks.step core.old now event ≡ Ok (core.new, given)) (λ stop. Fails stop (tasks.step core.old now event)) }
    ensures found { IfOk result (λ given. fits_found (key_at (courses.script_of client.now.task)) given.found ≡ true) }
    ensures known { IfOk result (λ given. IsKnown core.new (courses.replied client.now.task given)) }
    ensures still { IsKnown core.new client.now.task }
    ensures keys { KeepsKeys core.old core.new }
{
    step(core, now, event)
}

/// Makes the event that a client's task needs.
#[tactic(auto, using(crate::proofs::ReplyLaws::event_awaits))]
fn step_for(
    site: &Site,
    core: &mut Core,
    client: &mut Client,
    out: &Vec<u8>,
    event: Event,
) -> Result<(), Stop>
    requires event { courses.event_of (clients.need_of client.old) ≡ Some event }
    requires kind { is_need_of_kind (key_at (courses.script_of client.old.task)) (clients.need_of client.old) ≡ true }
    requires known { IsKnown core.old client.old.task }
    ensures known { IsKnown core.new client.new.task }
    ensures keys { KeepsKeys core.old core.new }
    ensures done { let done = tasks.stepped site.now (tasks.act core.old client.old out.now.items) event in MatchResult result
        (λ _. done ≡ Ok (tasks.act core.new client.new out.now.items))
        (λ stop. Halts stop done out.now.items) }
{
    let number = about(&event);
    let given = step_of(core, site.moment, client, event)?;
    client.replied(number, given)?;
    Ok(())
}

/// Carries out what a client's task needs: its event, or what needs none.
#[tactic(auto, using(crate::proofs::KnownLaws::keeps_itself))]
fn act(
    alloc: Global,
    site: &Site,
    number: u64,
    core: &mut Core,
    client: &mut Client,
    out: &mut Vec<u8>,
    need: Need,
) -> Result<(), Stop>
    requires stays { is_saying need ≡ false → clients.need_of client.old ≡ need }
    requires kind { is_saying need ≡ false → is_need_of_kind (key_at (courses.script_of client.old.task)) need ≡ true }
    requires known { IsKnown core.old client.old.task }
    ensures known { IsKnown core.new client.new.task }
    ensures keys { KeepsKeys core.old core.new }
    ensures done { let done = tasks.acted_by site.now number (tasks.act core.old client.old out.old.items) need in MatchResult result
        (λ _. done ≡ Ok (tasks.act core.new client.new out.new.items))
        (λ stop. Halts stop done out.new.items) }
{
    match need {
        Need::Step(event) => step_for(site, core, client, out, event),
        Need::Await(ticket) => step_for(site, core, client, out, Event::Collect(ticket)),
        need => {
            settle_by(alloc, site, number, client, out, need)?;
            Ok(())
        }
    }
}

/// Carries out twice what a client's task needs, where it needs no event: then it has ended or needs one.
fn settle_twice(
    alloc: Global,
    site: &Site,
    number: u64,
    client: &mut Client,
    out: &mut Vec<u8>,
) -> Result<(), Memory>
    ensures done { OnOk result (tasks.settled site.now number (tasks.settled site.now number (client.old, out.old.items)) ≡ (client.new, out.new.items)) }
    ensures settled { OnOk result (clients.is_settled client.new ≡ true) }
    ensures known { (d : steps.Daemon) → IsKnown d client.old.task → IsKnown d client.new.task }
{
    settle(alloc, site, number, client, out)?;
    settle(alloc, site, number, client, out)
}

/// Makes one move of the client of a task.
#[tactic(auto, using(crate::proofs::ReplyLaws::told_known, crate::proofs::KnownLaws::keeps_itself))]
pub fn make_move(
    alloc: Global,
    site: &Site,
    number: u64,
    core: &mut Core,
    client: &mut Client,
    out: &mut Vec<u8>,
) -> Result<(), Stop>
    requires known { IsKnown core.old client.old.task }
    ensures known { IsKnown core.new client.new.task }
    ensures settled { OnOk result (clients.is_settled client.new ≡ true) }
    ensures keys { KeepsKeys core.old core.new }
    ensures done { let done = tasks.moved site.now number (tasks.act core.old client.old out.old.items) in MatchResult result
        (λ _. done ≡ Ok (tasks.act core.new client.new out.new.items))
        (λ stop. Halts stop done out.new.items) }
{
    let need = client.need()?;
    act(alloc, site, number, core, client, out, need)?;
    settle_twice(alloc, site, number, client, out)?;
    Ok(())
}

fn is_waiting(core: &Core, ticket: Option<u64>) -> bool
    ensures { result ≡ tasks.is_waiting core.now.past ticket }
{
    match ticket {
        Some(ticket) => matches!(core.look(ticket), Look::Running(_)),
        None => false,
    }
}

/// Whether a client has not ended and doesn't wait for an open request.
pub fn is_ready(core: &Core, client: &Client) -> bool
    ensures { result ≡ tasks.is_ready core.now.past client.now }
{
    if client.is_over() {
        return false;
    }
    !is_waiting(core, client.ticket())
}

#[tactic(auto, using(crate::proofs::KnownLaws::keeps_itself, crate::proofs::KnownLaws::keeps_through))]
/// Makes an Abandon for each of these numbers, in order.
fn abandon_all(core: &mut Core, now: u64, numbers: &[u64]) -> Result<(), Stop>
    ensures keys { KeepsKeys core.old core.new }
    ensures done { MatchResult result (λ _. tasks.abandoned numbers.now core.old now ≡ Ok core.new) (λ stop. Fails stop (tasks.abandoned numbers.now core.old now)) }
{
    for number in numbers {
        happen(core, now, Event::Abandon(*number))?;
    }
    Ok(())
}

#[tactic(auto, using(crate::proofs::KnownLaws::keeps_itself))]
fn leave_ticket(core: &mut Core, now: u64, ticket: Option<u64>) -> Result<(), Stop>
    ensures keys { KeepsKeys core.old core.new }
    ensures done { MatchResult result (λ _. tasks.ticket_left ticket core.old now ≡ Ok core.new) (λ stop. Fails stop (tasks.ticket_left ticket core.old now)) }
{
    match ticket {
        Some(ticket) => happen(core, now, Event::Leave(ticket)),
        None => Ok(()),
    }
}

#[tactic(auto, using(crate::proofs::KnownLaws::keeps_through))]
/// Gives back what a client leads and waits for.
fn give_back(core: &mut Core, now: u64, client: &Client) -> Result<(), Stop>
    ensures keys { KeepsKeys core.old core.new }
    ensures done { MatchResult result (λ _. tasks.left_by client.now core.old now ≡ Ok core.new) (λ stop. Fails stop (tasks.left_by client.now core.old now)) }
{
    abandon_all(core, now, client.leads())?;
    leave_ticket(core, now, client.ticket())
}

fn push_left(alloc: Global, out: &mut Vec<u8>, is_told: bool, number: u64) -> Result<(), Memory>
    ensures { OnOk result (out.new.items ≡ out.old.items ++ tasks.left_text is_told number) }
{
    if is_told {
        return Ok(());
    }
    push_number(alloc, out, number)?;
    push_bytes(out, b" left\n")
}

#[tactic(auto, using(crate::proofs::KnownLaws::known_on))]
/// Lets the client of a task leave.
pub fn leave(
    alloc: Global,
    site: &Site,
    number: u64,
    core: &mut Core,
    client: &mut Client,
    out: &mut Vec<u8>,
) -> Result<(), Stop>
    ensures task { client.new.task ≡ client.old.task }
    ensures keys { KeepsKeys core.old core.new }
    ensures done { let done = tasks.left site.now number (tasks.act core.old client.old out.old.items) in MatchResult result
        (λ _. done ≡ Ok (tasks.act core.new client.new out.new.items))
        (λ stop. Halts stop done out.new.items) }
{
    give_back(core, site.moment, client)?;
    push_left(alloc, out, client.is_told(), number)?;
    client.leave();
    Ok(())
}
