//! Replies, as bytes.
ghost use Rattle.std.specs.Prelude.{◌≡◌, ◌<◌, ℕ, Bool, List, [], ◌∷◌, length, ◌++◌, take, flat_map, slice_get, IfOk, OnOk, Option, if◌then◌else◌, nat_lt, ◌&&◌};
ghost use Rattle.sd_dn.specs.Texts.{spelled};
ghost use Rattle.sd_ldap.specs.declared.entry.DirEntry.{DirEntry};
ghost use Rattle.sd_ldap.specs.Values.{message_value, operation_value, search_value};
ghost use Rattle.sd_ldap.specs.Spelling.{message_bytes};
ghost use Rattle.sd_match.specs.Answering.{told, is_found, found, found_replies, replies_by, reply_bytes};
ghost use Rattle.sd_places.specs.Covers.{AreEnough, picked, at_slot, present};
ghost use Rattle.sd_places.specs.Index.{IsIndex};
ghost use Rattle.sd_places.specs.Naming.{AreNamed};
ghost use Rattle.sd_stub.specs.Replying.{PutsNext, PutsAt, entry_reply, entries_bytes, done_bytes, alone_bytes, bind_bytes, supported_bytes, search_bytes};

use crate::binding::bind_code;
use crate::searching::{count_found, is_found};
use crate::sending::sent;
use sd_base::{Memory, Text};
use sd_dn::{Dn, spelled};
use sd_ldap::{LdapResult, Message, Operation, SearchRequest, write_message};
use sd_match::has_unsupported;
use sd_places::{Index, Names, Placed, has_base_in, narrowest, place_of};
use std::alloc::Global;

fn told(alloc: Global, code: u32) -> Result<LdapResult, Memory>
    ensures { IfOk result (λ made. made ≡ told code) }
{
    Ok(LdapResult {
        code,
        dn: Text::from_bytes(alloc, b"")?,
        message: Text::from_bytes(alloc, b"")?,
    })
}

fn put_message(alloc: Global, out: &mut Vec<u8>, message: &Message) -> Result<(), Memory>
    ensures { OnOk result (out.new.items ≡ out.old.items ++ message_bytes (message_value message.now)) }
{
    let bytes = write_message(alloc, message)?;
    out.extend_from_slice(&bytes)?;
    Ok(())
}

fn put_done(alloc: Global, out: &mut Vec<u8>, id: u32, code: u32) -> Result<(), Memory>
    ensures { OnOk result (out.new.items ≡ out.old.items ++ done_bytes id code) }
{
    let message = Message {
        id,
        operation: Operation::Done(told(alloc, code)?),
    };
    put_message(alloc, out, &message)
}

fn put_entry(
    alloc: Global,
    out: &mut Vec<u8>,
    id: u32,
    request: &SearchRequest,
    placed: &Placed,
) -> Result<(), Memory>
    ensures { OnOk result (out.new.items ≡ out.old.items ++ entry_reply id (search_value request.now) placed.now) }
{
    let message = Message {
        id,
        operation: Operation::Entry(sent(alloc, request, placed.entry())?),
    };
    put_message(alloc, out, &message)
}

/// Puts an entry where a search finds it; then how many are still to be put.
fn put_next(
    alloc: Global,
    out: &mut Vec<u8>,
    id: u32,
    request: &SearchRequest,
    placed: &Placed,
    base: &Option<Dn>,
    left: usize,
) -> Result<usize, Memory>
    requires base { base.now ≡ spelled request.now.base }
    requires left { 0 < left }
    ensures { IfOk result (λ after. PutsNext id (search_value request.now) placed.now out.old.items out.new.items left after) }
{
    if !is_found(placed, request, base) {
        return Ok(left);
    }
    put_entry(alloc, out, id, request, placed)?;
    Ok(left - 1)
}

/// Puts the entry at a place, if there is one, where a search finds it; then how many are still to be put.
#[tactic(auto, using(crate::proofs::Replies::nothing_put))]
fn put_at(
    alloc: Global,
    out: &mut Vec<u8>,
    id: u32,
    request: &SearchRequest,
    slots: &[Option<Placed>],
    place: usize,
    base: &Option<Dn>,
    left: usize,
) -> Result<usize, Memory>
    requires base { base.now ≡ spelled request.now.base }
    requires left { 0 < left }
    ensures { IfOk result (λ after. PutsAt id (search_value request.now) (at_slot slots.now place) out.old.items out.new.items left after) }
{
    match slots.get(place) {
        Some(Some(placed)) => put_next(alloc, out, id, request, placed, base, left),
        _ => Ok(left),
    }
}

/// Puts the first entries that a search finds at some places, as many as the limit, each in a message.
fn put_found(
    alloc: Global,
    out: &mut Vec<u8>,
    id: u32,
    request: &SearchRequest,
    slots: &[Option<Placed>],
    places: &[usize],
    base: &Option<Dn>,
    limit: usize,
) -> Result<(), Memory>
    requires { base.now ≡ spelled request.now.base }
    ensures { OnOk result (out.new.items ≡ out.old.items ++ entries_bytes id (search_value request.now) (take limit (found (picked slots.now places.now) (search_value request.now)))) }
{
    let mut left = limit;
    for place in places {
        if left == 0 {
            return Ok(());
        }
        let after = put_at(alloc, out, id, request, slots, *place, base, left)?;
        left = after;
    }
    Ok(())
}

/// How many of the entries found are sent, and the code behind them.
fn limited(size: u32, count: usize) -> (usize, u32)
    ensures sent { result.0 ≡ (if nat_lt 0 size && nat_lt size count then size else count) }
    ensures code { result.1 ≡ (if nat_lt 0 size && nat_lt size count then 4 else 0) }
{
    if size > 0 && (size as usize) < count {
        return (size as usize, 4);
    }
    (count, 0)
}

/// The replies to a search whose base is there and whose entries are at some places.
fn found_bytes(
    alloc: Global,
    id: u32,
    request: &SearchRequest,
    slots: &[Option<Placed>],
    places: &[usize],
    base: &Option<Dn>,
) -> Result<Vec<u8>, Memory>
    requires base { base.now ≡ spelled request.now.base }
    requires enough { AreEnough (λ (e : DirEntry). is_found (search_value request.now) e) slots.now places.now }
    ensures { IfOk result (λ v. v.items ≡ flat_map message_bytes (found_replies id (search_value request.now) (found (present slots.now) (search_value request.now)))) }
{
    let count = count_found(slots, places, request, base);
    let (limit, code) = limited(request.size, count);
    let mut out = Vec::new(alloc);
    put_found(alloc, &mut out, id, request, slots, places, base, limit)?;
    put_done(alloc, &mut out, id, code)?;
    Ok(out)
}

/// The replies to a search of the base alone.
#[tactic(auto, using(sd_places::proofs::Slots::alone_enough, sd_places::proofs::Slots::nowhere_enough))]
fn base_bytes(
    alloc: Global,
    id: u32,
    request: &SearchRequest,
    slots: &[Option<Placed>],
    names: &Names,
    base: &Option<Dn>,
) -> Result<Vec<u8>, Memory>
    requires base { base.now ≡ spelled request.now.base }
    requires scope { request.now.scope ≡ 0 }
    requires named { AreNamed names.now.entries slots.now }
    ensures { IfOk result (λ v. v.items ≡ flat_map message_bytes (found_replies id (search_value request.now) (found (present slots.now) (search_value request.now)))) }
{
    match place_of(alloc, slots, names, base)? {
        Some(place) => found_bytes(alloc, id, request, slots, &[place], base),
        None => found_bytes(alloc, id, request, slots, &[], base),
    }
}

#[tactic(auto, using(crate::proofs::Replies::alone))]
fn done_alone(alloc: Global, id: u32, code: u32) -> Result<Vec<u8>, Memory>
    ensures { IfOk result (λ v. v.items ≡ alone_bytes id code) }
{
    let mut out = Vec::new(alloc);
    put_done(alloc, &mut out, id, code)?;
    Ok(out)
}

/// The replies to a search whose filter is supported.
#[tactic(auto, using(crate::proofs::Replies::no_base, crate::proofs::Replies::with_base))]
fn supported(
    alloc: Global,
    slots: &[Option<Placed>],
    names: &Names,
    index: &Index,
    id: u32,
    request: &SearchRequest,
) -> Result<Vec<u8>, Memory>
    requires index { IsIndex index.now slots.now }
    requires named { AreNamed names.now.entries slots.now }
    ensures { IfOk result (λ v. v.items ≡ supported_bytes (present slots.now) id (search_value request.now)) }
{
    let base = spelled(alloc, request.base.bytes())?;
    if !has_base_in(slots, index, &base) {
        let bytes = done_alone(alloc, id, 32)?;
        return Ok(bytes);
    }
    if request.scope == 0 {
        let bytes = base_bytes(alloc, id, request, slots, names, &base)?;
        return Ok(bytes);
    }
    let number = narrowest(alloc, slots, index, request, &base)?;
    let places = index.places(number);
    let bytes = found_bytes(alloc, id, request, slots, places, &base)?;
    Ok(bytes)
}

#[tactic(auto, using(crate::proofs::Replies::no_support, crate::proofs::Replies::with_support))]
fn search(
    alloc: Global,
    slots: &[Option<Placed>],
    names: &Names,
    index: &Index,
    id: u32,
    request: &SearchRequest,
) -> Result<Vec<u8>, Memory>
    requires index { IsIndex index.now slots.now }
    requires named { AreNamed names.now.entries slots.now }
    ensures { IfOk result (λ v. v.items ≡ search_bytes (present slots.now) id (search_value request.now)) }
{
    if has_unsupported(&request.filter) {
        let bytes = done_alone(alloc, id, 53)?;
        return Ok(bytes);
    }
    let bytes = supported(alloc, slots, names, index, id, request)?;
    Ok(bytes)
}

#[tactic(auto, using(crate::proofs::Replies::alone))]
fn bind(
    alloc: Global,
    slots: &[Option<Placed>],
    names: &Names,
    id: u32,
    name: &Text,
    password: &Text,
) -> Result<Vec<u8>, Memory>
    requires { AreNamed names.now.entries slots.now }
    ensures { IfOk result (λ v. v.items ≡ bind_bytes (present slots.now) id name.now password.now) }
{
    let code = bind_code(alloc, slots, names, name, password)?;
    let message = Message {
        id,
        operation: Operation::BindResponse(told(alloc, code)?),
    };
    let bytes = write_message(alloc, &message)?;
    Ok(bytes)
}

/// The bytes of the replies to a message.
pub fn replies(
    alloc: Global,
    slots: &[Option<Placed>],
    names: &Names,
    index: &Index,
    message: &Message,
) -> Result<Vec<u8>, Memory>
    requires index { IsIndex index.now slots.now }
    requires named { AreNamed names.now.entries slots.now }
    ensures { IfOk result (λ v. v.items ≡ reply_bytes (present slots.now) (message_value message.now)) }
{
    match &message.operation {
        Operation::BindRequest(_, name, password) => bind(
            alloc, slots, names, message.id, name, password,
        ),
        Operation::Unbind => Ok(Vec::new(alloc)),
        Operation::Search(request) => search(alloc, slots, names, index, message.id, request),
        Operation::BindResponse(_) => done_alone(alloc, message.id, 53),
        Operation::Entry(_) => done_alone(alloc, message.id, 53),
        Operation::Done(_) => done_alone(alloc, message.id, 53),
        Operation::Reference => done_alone(alloc, message.id, 53),
        Operation::Other(_) => done_alone(alloc, message.id, 53),
    }
}
