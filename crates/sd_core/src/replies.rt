// The reply to every event.
ghost use Rattle.std.specs.Prelude.{◌≡◌, ◌+◌, ◌<◌, ◌^◌, true, false, reverse, IfOk, IsOk};
ghost use Rattle.std.specs.Option.{option_copied, option_map};
ghost use Rattle.sd_rules.specs.declared.keys.Key.TheVariants as keys;
ghost use Rattle.sd_rules.specs.Past as answers;
ghost use Rattle.sd_rules.specs.Steps as steps;
ghost use Rattle.sd_rules.specs.TextBytes as bytes;
ghost use Rattle.sd_journal.specs.Seen as seen;
ghost use Rattle.sd_core.specs.Numbered as replies;

use crate::access::access_of;
use crate::opens::is_open;
use sd_base::{Memory, Text};
use sd_books::{LoginBook, Ruling};
use sd_journal::answers::is_found;
use sd_journal::logins::user_of;
use sd_journal::past::{Standing, key_of, voids};
use sd_journal::requests::outcome_of;
use sd_journal::servers::was_picked;
use sd_past::Past;
use sd_rules::{Answered, Entry, Event, Key, Outcome, Reply, Settings};
use std::alloc::Global;

fn asks_again(event: &Event, reply: Reply, request: u64) -> bool
    ensures { result ≡ steps.asks_again event.now reply request }
{
    match event {
        Event::Answer(r, _) => *r == request && matches!(reply, Reply::Again(_)),
        _ => false,
    }
}

fn is_asking(entry: &Entry, request: u64) -> bool
    ensures { result ≡ steps.is_asking entry.now request }
{
    entry.number == request || asks_again(&entry.event, entry.reply, request)
}

/// The last invalidation after the last asking of a request that covers what was answered.
fn void_since(entries: &[Entry], request: u64, own: &Key, answered: &Answered) -> Option<u64>
    ensures { result ≡ steps.void_since (reverse entries.now) request own.now answered.now }
{
    for place in (0..entries.len()).rev() {
        let entry = &entries[place];
        if voids(&entry.event, own, answered) {
            return Some(entry.number);
        }
        if is_asking(entry, request) {
            return None;
        }
    }
    None
}

fn reply_by_void(void: Option<u64>) -> Reply
    ensures { result ≡ steps.reply_by_void void }
{
    match void {
        Some(void) => Reply::Again(void),
        None => Reply::Closed,
    }
}

fn reply_to_answer<P: Past>(past: &P, request: u64, own: Option<&Key>, answered: &Answered) -> Reply
    ensures { result ≡ steps.reply_to_answer (P.entries past.now) request (option_copied own.entry) answered.now }
{
    match own {
        Some(own) => reply_by_void(void_since(past.list(), request, own, answered)),
        None => Reply::NoRequest,
    }
}

fn reply_by_pick(picked: Option<u32>) -> Reply
    ensures { result ≡ steps.reply_by_pick picked }
{
    match picked {
        Some(server) => Reply::Server(server),
        None => Reply::NoServer,
    }
}

fn outage_outcome(number: u64, answer: Option<Standing<'_>>) -> Outcome
    ensures { result ≡ steps.outage_outcome number (option_map seen.standing answer.entry) }
{
    match answer {
        Some(a) => {
            if is_found(a.answered) {
                Outcome::Old(a.number, number)
            } else {
                Outcome::OldGone(a.number, number)
            }
        }
        None => Outcome::Dark(number),
    }
}

fn outcome_in_outage<P: Past>(past: &P, number: u64, key: Option<&Key>) -> Outcome
    ensures { result ≡ steps.outcome_in_outage (P.entries past.now) number (option_copied key.entry) }
{
    match key {
        Some(key) => outage_outcome(number, past.newest(key)),
        None => Outcome::Dark(number),
    }
}

fn reply_to_closing_outage<P: Past>(past: &P, number: u64, closed: u64) -> Reply
    ensures { result ≡ steps.reply_to_closing_outage (P.entries past.now) number closed }
{
    if past.is_open_request(closed) {
        Reply::Shut(outcome_in_outage(past, number, key_of(past.list(), closed)))
    } else {
        Reply::Closed
    }
}

fn reply_to_outage<P: Past>(past: &P, number: u64, closed: u64, picked: Option<u32>) -> Reply
    ensures { result ≡ steps.reply_to_outage (P.entries past.now) number closed picked }
{
    match picked {
        Some(server) => Reply::Servable(server),
        None => reply_to_closing_outage(past, number, closed),
    }
}

/// The reply to a Collect of a ticket that waits for this request, or for none.
pub fn reply_to_collect<P: Past>(past: &P, request: Option<u64>) -> Reply
    ensures { result ≡ steps.reply_to_collect (P.entries past.now) request }
{
    match request {
        Some(request) => {
            if past.is_open_request(request) {
                Reply::NotYet(request)
            } else {
                Reply::Took(outcome_of(past.list(), request))
            }
        }
        None => Reply::NoTicket,
    }
}

fn reply_to_leave(request: Option<u64>) -> Reply
    ensures { result ≡ steps.reply_to_leave request }
{
    match request {
        Some(_) => Reply::Left,
        None => Reply::NoTicket,
    }
}

fn reply_by_cached(number: u64, login: Option<u64>) -> Reply
    ensures { result ≡ steps.reply_by_cached number login }
{
    match login {
        Some(login) => Reply::Cached(number, login),
        None => Reply::Bind(number),
    }
}

fn reply_to_login<P: Past, L: LoginBook>(
    settings: &Settings,
    past: &P,
    logins: &L,
    number: u64,
    t: u64,
    user: &Text,
    outage: Option<u64>,
) -> Reply
    requires { L.Says logins.now (P.entries past.now) }
    ensures { result ≡ steps.reply_to_login settings.now (P.entries past.now) number t user.now outage }
{
    match outage {
        Some(outage) => Reply::Offline(outage),
        None => reply_by_cached(number, logins.cached(settings, past, t, user)),
    }
}

fn reply_to_try<P: Past, L: LoginBook>(
    settings: &Settings,
    past: &P,
    logins: &L,
    t: u64,
    named: u64,
    right: bool,
    user: Option<&Text>,
) -> Reply
    requires { L.Says logins.now (P.entries past.now) }
    ensures { result ≡ steps.reply_to_try settings.now (P.entries past.now) t named right (option_copied user.entry) }
{
    match user {
        Some(user) => { Reply::Tried(logins.verdict_of_try(settings, past, t, user, named, right)) }
        None => Reply::NoRequest,
    }
}

/// The reply to an event that names a request or an attempt. Here any other has NoRequest, too.
fn reply_under_number<P: Past, L: LoginBook>(
    settings: &Settings,
    past: &P,
    logins: &L,
    number: u64,
    t: u64,
    event: &Event,
) -> Reply
    requires servers { settings.now.primaries + settings.now.backups < 2 ^ 32 }
    requires logins { L.Says logins.now (P.entries past.now) }
    ensures { replies.names_number event.now ≡ true → result ≡ steps.reply_to settings.now (P.entries past.now) number t event.now }
{
    match event {
        Event::Pick(n) if is_open(past, *n) => {
            reply_by_pick(past.picked_server(settings, *n, t))
        }
        Event::Fall(n, server, _) if is_open(past, *n) => {
            if was_picked(past.list(), *n, *server) {
                Reply::Noted
            } else {
                Reply::NotPicked
            }
        }
        Event::Answer(n, answered) if past.is_open_request(*n) => {
            reply_to_answer(past, *n, key_of(past.list(), *n), answered)
        }
        Event::Refuse(n, _) if past.is_open_request(*n) => Reply::Closed,
        Event::Outage(n) if is_open(past, *n) => {
            reply_to_outage(past, number, *n, past.picked_server(settings, *n, t))
        }
        Event::Abandon(n) if is_open(past, *n) => Reply::Closed,
        Event::LoginOnline(n, _) if past.is_open_attempt(*n) => Reply::Closed,
        Event::LoginTry(n, named, right) if past.is_open_attempt(*n) => {
            reply_to_try(
                settings,
                past,
                logins,
                t,
                *named,
                *right,
                user_of(past.list(), *n),
            )
        }
        _ => Reply::NoRequest,
    }
}

/// The reply to an event, over the entries before it; `number` and `t` are the number and the moment of its own entry.
pub fn reply_to<P: Past, R: Ruling, L: LoginBook>(
    alloc: Global,
    settings: &Settings,
    past: &P,
    ruling: &R,
    logins: &L,
    number: u64,
    t: u64,
    event: &Event,
) -> Result<Reply, Memory>
    requires servers { settings.now.primaries + settings.now.backups < 2 ^ 32 }
    requires texts { bytes.text_bytes (P.entries past.now) < 2 ^ 32 }
    requires says { R.Says ruling.now (answers.newest (P.entries past.now) keys.Rules) }
    requires logins { L.Says logins.now (P.entries past.now) }
    ensures made { IfOk result (λ reply. reply ≡ steps.reply_to settings.now (P.entries past.now) number t event.now) }
    ensures free { replies.is_access event.now ≡ false → IsOk result }
{
    Ok(match event {
        Event::Ask(key) => past.reply_to_ask(settings, number, t, key),
        Event::Collect(ticket) => reply_to_collect(past, past.waits_for(*ticket)),
        Event::Leave(ticket) => reply_to_leave(past.waits_for(*ticket)),
        Event::Void(_) | Event::Offline | Event::Online | Event::Stop => Reply::Done,
        Event::LoginOpen(user) => {
            let outage = past.outage_at(settings.offline_timeout, t);
            reply_to_login(settings, past, logins, number, t, user, outage)
        }
        Event::LoginLook(user) => logins.reply_to_look(settings, past, user),
        Event::LoginGuess(user, named, right) => {
            Reply::Judged(logins.verdict(settings, past, t, user, *named, *right))
        }
        Event::Access(user, service) => {
            access_of(alloc, settings, past, ruling, user, service)?
        },
        Event::Kept(_) => Reply::Held,
        _ => reply_under_number(settings, past, logins, number, t, event),
    })
}
