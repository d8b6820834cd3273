//! The engine of one connection.
ghost use Rattle.std.specs.Prelude.{◌≡◌, ℕ, ◌≤◌, true, false, OnOk, OnErr, IfSome, IsSome, None};
ghost use Rattle.std.specs.Option.{ForSome};
ghost use Rattle.sd_base.specs.Causes.{Rose};
ghost use Rattle.sd_rules.specs.Scripts.{awaits_reply, fits_found, is_need_of_kind, is_out_of_memory, is_saying, key_at};
ghost use Rattle.sd_rules.specs.declared.tasks.Need.TheVariants as needs;
ghost use Rattle.sd_engine.specs.Courses as courses;
ghost use Rattle.sd_engine.specs.Courses.{Client as ClientValue};
ghost use Rattle.sd_engine.specs.Engines as engines;
ghost use Rattle.sd_engine.specs.Leading as leading;
ghost use Rattle.sd_engine.specs.Turns as turns;

use crate::answering::{Answered, answer};
use crate::binding::bind_at;
use crate::client::Client;
use crate::ending::SessionEnd;
use crate::hearing::{client_of, is_stop};
use crate::leading::{make_room, ticket_after, update_leads};
use crate::listening::{Listened, listen};
use crate::looking::fetch_at;
use sd_base::{Memory, Sink, Source, Text};
use sd_clock::Gate;
use sd_conf::Config;
use sd_creds::Salts;
use sd_dial::Dialer;
use sd_inbox::Inbox;
use sd_rules::leading::about;
use sd_rules::{Bound, Event, Fetched, Given, Key, Need, Said, Settings};
use sd_wire::Request;
use std::alloc::Global;
use std::marker::Model;
use std::mem;

/// What a turn came to.
#[derive(Drop)]
pub enum Turn {
    /// The session goes on with its next turn.
    Again,
    /// This event is to be stepped, and what the step gives is to be told.
    Step(Event),
    /// This ticket is to be collected once its request is closed, and what that gives is to be told.
    Collect(u64),
    /// The session has ended. What it leads is to be abandoned, and the ticket that it waits with is to leave.
    Ended(SessionEnd),
}

/// One connection of a client: what was read of it, and the request in hand as far as it has come. It is let go by `discard`.
pub struct Engine {
    alloc: Global,
    inbox: Inbox,
    client: Option<Client>,
    /// The requests and attempts that were opened and not closed, by the numbers of their entries.
    leads: Vec<u64>,
    ticket: Option<u64>,
    /// Whether a reply is awaited; there is room for what it opens.
    is_ready: bool,
    about: Option<u64>,
    stops: bool,
    has_failed: bool,
}

impl Model for Engine {
    ghost use Rattle.std.specs.Prelude.{◌≡◌, ◌<◌, true, vec_len, vec_capacity};
    ghost use Rattle.sd_engine.specs.Engines as engines;

    ghost Value = { engines.Engine };

    ghost view = { λ e. record {
      inbox = e.inbox;
      client = e.client;
      leads = e.leads.items;
      ticket = e.ticket;
      is_ready = e.is_ready;
      about = e.about;
      stops = e.stops;
      has_failed = e.has_failed;
    } };

    ghost invariant = { λ e. e.is_ready ≡ true → vec_len e.leads < vec_capacity e.leads };
}

/// Puts a request in hand, or none.
fn put(hand: &mut Option<Client>, client: Option<Client>)
    ensures { hand.new ≡ client }
{
    if let Some(earlier) = mem::replace(hand, client) {
        earlier.discard();
    }
}

impl Engine {
    /// At the beginning of a connection. It takes no memory yet.
    pub fn new(alloc: Global) -> Engine
        ensures { result ≡ engines.begun }
    {
        Engine {
            alloc,
            inbox: Inbox::new(alloc),
            client: None,
            leads: Vec::new(alloc),
            ticket: None,
            is_ready: false,
            about: None,
            stops: false,
            has_failed: false,
        }
    }

    /// Lets it go, with the request in hand.
    pub fn discard(self) {
        let Engine {
            alloc: _,
            inbox: _inbox,
            client,
            leads: _leads,
            ticket: _,
            is_ready: _,
            about: _,
            stops: _,
            has_failed: _,
        } = self;
        if let Some(client) = client {
            client.discard();
        }
    }

    /// What the session leads, in the order in which it was led.
    pub fn leads(&self) -> &[u64]
        ensures { result.now ≡ self.now.leads }
    {
        self.leads.as_slice()
    }

    /// The ticket that the session waits with.
    pub fn ticket(&self) -> Option<u64>
        ensures { result ≡ self.now.ticket }
    {
        self.ticket
    }

    /// Takes a request in hand.
    fn take_up(&mut self, settings: &Settings, salts: &Salts, request: Request)
        ensures { self.new ≡ engines.heard salts.now settings.now self.old self.old.inbox request }
    {
        self.stops = is_stop(&request);
        self.has_failed = false;
        let client = client_of(self.alloc, *salts, settings, request);
        put(&mut self.client, Some(client));
    }

    /// A turn without a request in hand: a frame is heard, or bytes are taken.
    fn hear<S: Source>(&mut self, settings: &Settings, salts: &Salts, source: &mut S) -> Turn
        ensures hears { turns.Hears salts.now settings.now result self.old self.new (S.left source.old) (S.left source.new) (Rose (S.faults source.old) (S.faults source.new)) }
        ensures later { S.faults source.old ≤ S.faults source.new }
    {
        match listen(self.alloc, &mut self.inbox, source) {
            Listened::Heard(request) => {
                self.take_up(settings, salts, request);
                Turn::Again
            }
            Listened::Waits => Turn::Again,
            Listened::Ended(end) => Turn::Ended(end),
        }
    }

    /// Puts the request in hand back.
    fn put_back(&mut self, client: Client)
        ensures { self.new ≡ engines.with_client self.old client }
    {
        put(&mut self.client, Some(client));
    }

    /// Waits for the reply to an event about this number; whether there is room for what it opens.
    fn expect(&mut self, client: Client, about: Option<u64>) -> Result<(), Memory>
        ensures ok { OnOk result (self.new ≡ engines.awaiting self.old client about) }
        ensures err { OnErr result (self.new ≡ engines.with_client self.old client) }
    {
        put(&mut self.client, Some(client));
        make_room(&mut self.leads)?;
        self.is_ready = true;
        self.about = about;
        Ok(())
    }

    /// Names the event that the request in hand needs.
    fn name_event(&mut self, client: Client, event: Event) -> Turn
        requires { is_need_of_kind (key_at (courses.script_at client)) (needs.Step event) ≡ true }
        ensures named { turns.IsNamed result (Turn.Step event) self.old client (leading.about event) self.new }
        ensures kind { turns.IsOfKind result client }
    {
        match self.expect(client, about(&event)) {
            Ok(()) => Turn::Step(event),
            Err(Memory) => Turn::Ended(SessionEnd::Memory),
        }
    }

    /// Names the ticket that the request in hand waits with.
    fn name_ticket(&mut self, client: Client, ticket: u64) -> Turn
        ensures named { turns.IsNamed result (Turn.Collect ticket) self.old client None self.new }
        ensures kind { turns.IsOfKind result client }
    {
        match self.expect(client, None) {
            Ok(()) => Turn::Collect(ticket),
            Err(Memory) => Turn::Ended(SessionEnd::Memory),
        }
    }

    /// Asks a server for a key. Want of memory is told to no request.
    fn look_up<D: Dialer, G: Gate>(
        &mut self,
        client: Client,
        server: u32,
        key: &Key,
        config: &Config,
        dialer: &mut D,
        gate: &G,
    ) -> Turn
        requires { courses.need_of client ≡ needs.Fetch server key.now }
        ensures kind { turns.IsOfKind result client }
        ensures looks { turns.LooksUp result config.now server key.now self.old client self.new (turns.dialling_of D.Dialer dialer.old) (turns.dialling_of D.Dialer dialer.new) }
    {
        let mut client = client;
        let fetched = fetch_at(self.alloc, dialer, gate, config, server, key);
        if is_memory(&fetched) {
            self.put_back(client);
            return Turn::Ended(SessionEnd::Memory);
        }
        client.fetched(fetched);
        self.put_back(client);
        Turn::Again
    }

    /// Binds at a server. Want of memory is told to no request.
    fn bind<D: Dialer, G: Gate>(
        &mut self,
        client: Client,
        server: u32,
        dn: &Text,
        password: &Text,
        dialer: &mut D,
        gate: &G,
    ) -> Turn
        requires { courses.need_of client ≡ needs.Bind server dn.now password.now }
        ensures kind { turns.IsOfKind result client }
        ensures binds { turns.BindsAt result server dn.now password.now self.old client self.new (turns.dialling_of D.Dialer dialer.old) (turns.dialling_of D.Dialer dialer.new) }
    {
        let mut client = client;
        let bound = bind_at(self.alloc, dialer, gate, server, dn, password);
        if bound == Bound::Memory {
            self.put_back(client);
            return Turn::Ended(SessionEnd::Memory);
        }
        client.bound(bound);
        self.put_back(client);
        Turn::Again
    }

    /// Tells a client, whose request goes on after that, also where the answer could not be written.
    fn say<W: Sink>(&mut self, client: Client, said: &Said, pwfield: &Text, sink: &mut W) -> Turn
        ensures kind { turns.IsOfKind result client }
        ensures says { turns.Says result pwfield.now said.now self.old client self.new (W.held sink.old) (W.held sink.new) (Rose (W.faults sink.old) (W.faults sink.new)) }
        ensures later { W.faults sink.old ≤ W.faults sink.new }
    {
        put(&mut self.client, Some(client));
        match answer(self.alloc, sink, pwfield, said) {
            Answered::Whole => Turn::Again,
            Answered::Fault => {
                self.has_failed = true;
                Turn::Again
            }
            Answered::Memory => Turn::Ended(SessionEnd::Memory),
        }
    }

    /// The request in hand is carried out.
    fn finish(&mut self) -> Turn
        ensures finished { turns.IsFinished result self.old self.new }
        ensures kind { (client : ClientValue) → turns.IsOfKind result client }
    {
        put(&mut self.client, None);
        if self.has_failed {
            return Turn::Ended(SessionEnd::WriteFault);
        }
        if self.stops {
            return Turn::Ended(SessionEnd::Stopped);
        }
        Turn::Again
    }

    /// Carries out what the request in hand needs. A client that is told counts as told already.
    fn go_on<W: Sink, D: Dialer, G: Gate>(
        &mut self,
        client: Client,
        need: Need,
        config: &Config,
        sink: &mut W,
        dialer: &mut D,
        gate: &G,
    ) -> Turn
        requires need { is_saying need ≡ false → courses.need_of client ≡ need }
        requires kind { is_saying need ≡ false → is_need_of_kind (key_at (courses.script_at client)) need ≡ true }
        ensures goes { turns.GoesOver W.Sink D.Dialer config.now result need self.old client self.new sink.old sink.new dialer.old dialer.new }
        ensures kind { turns.IsOfKind result client }
        ensures later { W.faults sink.old ≤ W.faults sink.new }
    {
        match need {
            Need::Step(event) => self.name_event(client, event),
            Need::Await(ticket) => self.name_ticket(client, ticket),
            Need::Fetch(server, key) => self.look_up(client, server, &key, config, dialer, gate),
            Need::Bind(server, dn, password) => {
                self.bind(client, server, &dn, &password, dialer, gate)
            }
            Need::Say(said) => self.say(client, &said, &config.pwfield, sink),
            Need::End => {
                client.discard();
                self.finish()
            }
        }
    }

    /// A turn with a request in hand.
    fn serve<W: Sink, D: Dialer, G: Gate>(
        &mut self,
        client: Client,
        config: &Config,
        sink: &mut W,
        dialer: &mut D,
        gate: &G,
    ) -> Turn
        ensures serves { turns.ServesOver W.Sink D.Dialer config.now result self.old client self.new sink.old sink.new dialer.old dialer.new }
        ensures kind { turns.IsOfKind result client }
        ensures later { W.faults sink.old ≤ W.faults sink.new }
    {
        let mut client = client;
        match client.need() {
            Ok(need) => self.go_on(client, need, config, sink, dialer, gate),
            Err(Memory) => {
                self.put_back(client);
                Turn::Ended(SessionEnd::Memory)
            }
        }
    }

    /// Goes on until an event is needed, or the session has ended, or for a part of the way: a frame is heard, bytes are taken, a
    /// server is asked, a client is told. It makes no step itself, so that a server is asked outside any.
    pub fn turn<S: Source, W: Sink, D: Dialer, G: Gate>(
        &mut self,
        config: &Config,
        salts: &Salts,
        source: &mut S,
        sink: &mut W,
        dialer: &mut D,
        gate: &G,
    ) -> Turn
        // Without a request in hand the next frame is heard, or bytes are taken.
        ensures hears { self.old.client ≡ None → turns.Hears salts.now config.now.settings result self.old self.new (S.left source.old) (S.left source.new) (Rose (S.faults source.old) (S.faults source.new)) }
        ensures mute { self.old.client ≡ None → (sink.new ≡ sink.old) × (dialer.new ≡ dialer.old) }
        // With one in hand, what it needs is named or done.
        ensures serves { IfSome self.old.client (λ client. turns.ServesOver W.Sink D.Dialer config.now result (engines.done self.old) client self.new sink.old sink.new dialer.old dialer.new) }
        ensures kind { IfSome self.old.client (λ client. turns.IsOfKind result client) }
        ensures deaf { IsSome self.old.client → source.new ≡ source.old }
        ensures reads_later { S.faults source.old ≤ S.faults source.new }
        ensures writes_later { W.faults sink.old ≤ W.faults sink.new }
    {
        match self.client.take() {
            Some(client) => self.serve(client, config, sink, dialer, gate),
            None => self.hear(&config.settings, salts, source),
        }
    }

    /// Takes the reply to the event that was named, or to the collecting of the ticket.
    pub fn replied(&mut self, given: Given) -> Result<(), Memory>
        requires ready { self.old.is_ready ≡ true }
        requires awaited { ForSome self.old.client (λ client. awaits_reply (courses.need_of client) ≡ true) }
        requires kind { ForSome self.old.client (λ client. fits_found (key_at (courses.script_at client)) given.found ≡ true) }
        ensures replied { OnOk result (IfSome self.old.client (λ client. self.new ≡ engines.replied self.old client given)) }
        // What the reply opened is led, and what it closed is not, also where memory is wanting.
        ensures leads { self.new.leads ≡ leading.leads_after self.old.leads self.old.about given.reply }
        ensures ticket { self.new.ticket ≡ leading.ticket_after self.old.ticket given.reply }
    {
        update_leads(&mut self.leads, self.about, given.reply);
        self.ticket = ticket_after(self.ticket, given.reply);
        self.is_ready = false;
        self.about = None;
        match self.client.take() {
            Some(client) => self.carry(client, given),
            None => Ok(()),
        }
    }

    /// The request in hand takes a reply.
    fn carry(&mut self, client: Client, given: Given) -> Result<(), Memory>
        requires awaited { awaits_reply (courses.need_of client) ≡ true }
        requires kind { fits_found (key_at (courses.script_at client)) given.found ≡ true }
        ensures carried { OnOk result (self.new ≡ engines.with_client self.old (courses.client_replied client given)) }
        ensures starved { OnErr result (self.new ≡ engines.with_client self.old client) }
    {
        let mut client = client;
        let carried = client.replied(given);
        put(&mut self.client, Some(client));
        carried
    }
}

fn is_memory(fetched: &Fetched) -> bool
    ensures { result ≡ is_out_of_memory fetched.now }
{
    matches!(fetched, Fetched::Memory)
}
