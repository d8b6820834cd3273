// The places that are reserved: of open requests, open login attempts and waiting tickets.
ghost use Rattle.std.specs.Prelude.{◌≡◌, ◌+◌, ◌≤◌, ◌++◌, IfOk, IsOk, OnOk, None, not, filter, length, reverse, vec_len, vec_capacity};
ghost use Rattle.std.specs.List.{list_any};
ghost use Rattle.sd_rules.specs.Requests as requests;
ghost use Rattle.sd_index.specs.Places as placed;

use sd_base::{Copied, Memory};
use sd_journal::requests::{closes, is_took};
use sd_rules::{Entry, Event, Key, Reply};

/// A place that is reserved for an entry to come.
#[derive(Drop)]
pub enum Place {
    /// For the answer to an open request: its number and its key.
    Request(u64, Key),
    /// For the end of an open login attempt: its number.
    Attempt(u64),
    /// For the end of a ticket's waiting: its number, and that of its request.
    Ticket(u64, u64),
}

fn is_lead(reply: Reply) -> bool
    ensures { result ≡ requests.is_lead reply }
{
    matches!(reply, Reply::Lead(_) | Reply::Refresh(_, _))
}

fn is_bind(reply: Reply) -> bool
    ensures { result ≡ requests.is_bind reply }
{
    matches!(reply, Reply::Bind(_) | Reply::Cached(_, _))
}

fn is_left(reply: Reply) -> bool
    ensures { result ≡ requests.is_left reply }
{
    matches!(reply, Reply::Left)
}

/// Whether an entry ends the waiting of a ticket.
fn ends_waiting(event: &Event, reply: Reply, ticket: u64) -> bool
    ensures { result ≡ requests.ends_waiting event.now reply ticket }
{
    match event {
        Event::Collect(t) => *t == ticket && is_took(reply),
        Event::Leave(t) => *t == ticket && is_left(reply),
        _ => false,
    }
}

fn ticket_of(number: u64, reply: Reply) -> Option<Place>
    ensures { result ≡ placed.ticket_of number reply }
{
    match reply {
        Reply::Join(request, _) => Some(Place::Ticket(number, request)),
        _ => None,
    }
}

/// The place that an entry takes.
pub fn place_of(entry: &Entry) -> Result<Option<Place>, Memory>
    ensures made { IfOk result (λ place. place ≡ placed.place_of entry.now) }
    ensures free { placed.place_of entry.now ≡ None → IsOk result }
{
    match &entry.event {
        Event::Ask(key) if is_lead(entry.reply) => {
            let key = key.copy()?;
            Ok(Some(Place::Request(entry.number, key)))
        }
        Event::LoginOpen(_) if is_bind(entry.reply) => Ok(Some(Place::Attempt(entry.number))),
        _ => Ok(ticket_of(entry.number, entry.reply)),
    }
}

/// Whether an entry gives a place back.
fn gives_back(event: &Event, reply: Reply, place: &Place) -> bool
    ensures { result ≡ placed.gives_back event.now reply place.now }
{
    match place {
        Place::Request(number, _) | Place::Attempt(number) => closes(event, reply, *number),
        Place::Ticket(ticket, _) => ends_waiting(event, reply, *ticket),
    }
}

/// Takes out the places that an entry gives back.
fn drop_ended(places: &mut Vec<Place>, event: &Event, reply: Reply)
    ensures kept { places.new.items ≡ filter (λ place. not (placed.gives_back event.now reply place)) places.old.items }
    ensures fewer { vec_len places.new ≤ vec_len places.old }
    ensures room { vec_capacity places.new ≡ vec_capacity places.old }
{
    places.retain(|place| !gives_back(event, reply, place));
}

/// Makes room for a place, where there is one.
pub fn make_room(places: &mut Vec<Place>, place: &Option<Place>) -> Result<(), Memory>
    ensures same { places.new.items ≡ places.old.items }
    ensures room { OnOk result (vec_len places.new + length (placed.listed place.now) ≤ vec_capacity places.new) }
    ensures free { place.now ≡ None → IsOk result }
{
    if place.is_some() {
        places.reserve(1)?;
    }
    Ok(())
}

/// Takes out the places that an entry gives back, and puts the one that it takes at the end. There is room for it.
pub fn settle(places: &mut Vec<Place>, event: &Event, reply: Reply, place: Option<Place>)
    requires { vec_len places.old + length (placed.listed place) ≤ vec_capacity places.old }
    ensures { places.new.items ≡ filter (λ place. not (placed.gives_back event.now reply place)) places.old.items ++ placed.listed place }
{
    drop_ended(places, event, reply);
    if let Some(place) = place {
        places.push_reserved(place);
    }
}

fn running_at(place: &Place, key: &Key) -> Option<u64>
    ensures { result ≡ placed.running_at key.now place.now }
{
    match place {
        Place::Request(number, own) => { if own == key { Some(*number) } else { None } }
        _ => None,
    }
}

/// The number of the request that is open for a key.
pub fn running(places: &[Place], key: &Key) -> Option<u64>
    ensures { result ≡ placed.running_in (reverse places.now) key.now }
{
    for at in (0..places.len()).rev() {
        let found = running_at(&places[at], key);
        if found.is_some() {
            return found;
        }
    }
    None
}

fn is_request_of(place: &Place, number: u64) -> bool
    ensures { result ≡ placed.is_request_of number place.now }
{
    match place {
        Place::Request(n, _) => *n == number,
        _ => false,
    }
}

fn is_attempt_of(place: &Place, number: u64) -> bool
    ensures { result ≡ placed.is_attempt_of number place.now }
{
    match place {
        Place::Attempt(n) => *n == number,
        _ => false,
    }
}

/// Whether a request of this number is open.
pub fn has_request(places: &[Place], number: u64) -> bool
    ensures { result ≡ list_any (placed.is_request_of number) places.now }
{
    places.iter().any(|place| is_request_of(place, number))
}

/// Whether a login attempt of this number is open.
pub fn has_attempt(places: &[Place], number: u64) -> bool
    ensures { result ≡ list_any (placed.is_attempt_of number) places.now }
{
    places.iter().any(|place| is_attempt_of(place, number))
}

fn ticket_at(place: &Place, ticket: u64) -> Option<u64>
    ensures { result ≡ placed.ticket_at ticket place.now }
{
    match place {
        Place::Ticket(t, request) => { if *t == ticket { Some(*request) } else { None } }
        _ => None,
    }
}

/// The request that a ticket waits for.
pub fn waits(places: &[Place], ticket: u64) -> Option<u64>
    ensures { result ≡ placed.waits_in places.now ticket }
{
    for place in places {
        let found = ticket_at(place, ticket);
        if found.is_some() {
            return found;
        }
    }
    None
}
