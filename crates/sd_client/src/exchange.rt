//! A request sent, and the bytes received until they decide.
ghost use Rattle.std.specs.Prelude.{◌≡◌, ℕ, ◌+◌, ◌≤◌, ◌<◌, List, [], ◌++◌, ◌⊎◌, length, IfOk, OnErr, Some, None, Ok, Err, true, false};
ghost use Rattle.std.specs.Io.KnownBytes.{append_known};
ghost use Rattle.sd_base.specs.Causes.{Rose};
ghost use Rattle.sd_ldap.specs.Values.{MessageValue, message_value, operation_value};
ghost use Rattle.sd_ldap.specs.Spelling.{message_bytes};
ghost use Rattle.sd_ldap.specs.Sound.{IsSound, IsSoundOperation};
ghost use Rattle.sd_link.specs.Told.{with_piece};
ghost use Rattle.sd_dial.specs.Asked.{with_message};
ghost use Rattle.sd_client.specs.Deciding.{decided};
ghost use Rattle.sd_client.specs.Coming.{Comes};
ghost use Rattle.sd_client.specs.Replying.{request_message, IsReply, IsNoReply, IsPlaced, failure_of};
ghost use Rattle.sd_client.specs.Links.{SendsNothing, Sends};

use crate::buffer::{Buffer, LIMIT, Received};
use crate::reading::{Read, read_on};
use crate::step::Request;
use sd_base::{Memory, Why};
use sd_dial::DirectoryLink;
use sd_ldap::{DirEntries, Message, Operation, write_message};
use std::alloc::Global;

/// What a request came to.
#[derive(Drop)]
pub enum Reply {
    /// The entries and the result code.
    Ended(DirEntries, u32),
    Failed(Why),
}

/// What a client knows of its link.
pub struct State {
    pub buffer: Buffer,
    /// Where reading goes on.
    pub at: usize,
    /// The id of the next request.
    pub next: u32,
    pub failed: Option<Why>,
}

impl Drop for State {
    fn drop(self) {
        let State {
            buffer: _,
            at: _,
            next: _,
            failed: _,
        } = self;
    }
}

/// Reads, and receives until the bytes decide; the place then is that behind the reply.
fn await_reply<L: DirectoryLink>(
    alloc: Global,
    link: &mut L,
    buffer: &mut Buffer,
    at: &mut usize,
    request: Request,
    id: u32,
) -> Result<Reply, Memory>
    requires within { at.old ≤ length buffer.old }
    requires limited { length buffer.old ≤ 67108864 }
    ensures came { Comes (L.received link.old) (L.received link.new) (L.coming link.old) (L.coming link.new) buffer.old buffer.new }
    ensures reply { IsReply result (decided request id at.old buffer.new) at.new (Rose (L.faults link.old) (L.faults link.new) × L.ends link.new) }
    ensures within { at.new ≤ length buffer.new }
    ensures short { length buffer.new ≤ 67108865 }
    ensures limited { failure_of result ≡ None → length buffer.new ≤ 67108864 }
    ensures sent { L.sent link.new ≡ L.sent link.old }
    ensures asked { L.asked link.new ≡ L.asked link.old }
    ensures behind { L.behind link.new ≡ L.behind link.old }
    ensures later { L.faults link.old ≤ L.faults link.new }
{
    let mut found = DirEntries::new(alloc);
    loop {
        match read_on(alloc, request, id, buffer.bytes(), at, &mut found)? {
            Read::Waits => {}
            Read::Ended(code) => return Ok(Reply::Ended(found, code)),
            Read::Failed(why) => return Ok(Reply::Failed(why)),
        }
        match buffer.receive(link)? {
            Received::Bytes => {}
            Received::Nothing => return Ok(Reply::Failed(Why::Link)),
        }
        if buffer.len() > LIMIT {
            return Ok(Reply::Failed(Why::Flood(67_108_865)));
        }
    }
}

/// Sends a message as one piece, and says whether the link took it.
fn ask<L: DirectoryLink>(alloc: Global, link: &mut L, message: &Message) -> Result<bool, Memory>
    requires { IsSound (message_value message.now) }
    ensures sent { result ≡ Ok true → L.sent link.new ≡ with_piece (L.sent link.old) (message_bytes (message_value message.now)) }
    ensures asked { result ≡ Ok true → L.asked link.new ≡ with_message (L.asked link.old) (message_value message.now) }
    ensures coming { result ≡ Ok true → L.coming link.new ≡ append_known (L.coming link.old) (L.answer link.old (message_bytes (message_value message.now))) }
    ensures unsent { (result ≡ Ok true → ⊥) → (L.sent link.new ≡ L.sent link.old) × (L.asked link.new ≡ L.asked link.old) × (L.coming link.new ≡ L.coming link.old) }
    ensures received { L.received link.new ≡ L.received link.old }
    ensures behind { L.behind link.new ≡ L.behind link.old }
    ensures failed { result ≡ Ok false → Rose (L.faults link.old) (L.faults link.new) × L.refuses link.new }
    ensures later { L.faults link.old ≤ L.faults link.new }
{
    let piece = write_message(alloc, message)?;
    Ok(link.send(&piece).is_ok())
}

/// Sends an operation by an id, and says whether the link took it.
fn ask_by<L: DirectoryLink>(
    alloc: Global,
    link: &mut L,
    id: u32,
    operation: Operation,
) -> Result<bool, Memory>
    requires sound { IsSoundOperation (operation_value operation) }
    requires id { id ≤ 2147483647 }
    ensures sent { result ≡ Ok true → L.sent link.new ≡ with_piece (L.sent link.old) (message_bytes (request_message id (operation_value operation))) }
    ensures asked { result ≡ Ok true → L.asked link.new ≡ with_message (L.asked link.old) (request_message id (operation_value operation)) }
    ensures coming { result ≡ Ok true → L.coming link.new ≡ append_known (L.coming link.old) (L.answer link.old (message_bytes (request_message id (operation_value operation)))) }
    ensures unsent { (result ≡ Ok true → ⊥) → (L.sent link.new ≡ L.sent link.old) × (L.asked link.new ≡ L.asked link.old) × (L.coming link.new ≡ L.coming link.old) }
    ensures received { L.received link.new ≡ L.received link.old }
    ensures behind { L.behind link.new ≡ L.behind link.old }
    ensures failed { result ≡ Ok false → Rose (L.faults link.old) (L.faults link.new) × L.refuses link.new }
    ensures later { L.faults link.old ≤ L.faults link.new }
{
    let message = Message { id, operation };
    ask(alloc, link, &message)
}

/// Awaits the reply to the request of an id.
fn settle<L: DirectoryLink>(
    alloc: Global,
    link: &mut L,
    state: &mut State,
    request: Request,
    id: u32,
) -> Result<Reply, Memory>
    requires well { state.old.failed ≡ None }
    requires within { state.old.at ≤ length state.old.buffer }
    requires limited { length state.old.buffer ≤ 67108864 }
    ensures came { Comes (L.received link.old) (L.received link.new) (L.coming link.old) (L.coming link.new) state.old.buffer state.new.buffer }
    ensures reply { IsReply result (decided request id state.old.at state.new.buffer) state.new.at (Rose (L.faults link.old) (L.faults link.new) × L.ends link.new) }
    ensures fails { state.new.failed ≡ failure_of result }
    ensures placed { IsPlaced result state.old.at state.new.at }
    ensures next { state.new.next ≡ state.old.next }
    ensures within { state.new.at ≤ length state.new.buffer }
    ensures short { length state.new.buffer ≤ 67108865 }
    ensures limited { failure_of result ≡ None → length state.new.buffer ≤ 67108864 }
    ensures sent { L.sent link.new ≡ L.sent link.old }
    ensures asked { L.asked link.new ≡ L.asked link.old }
    ensures behind { L.behind link.new ≡ L.behind link.old }
    ensures later { L.faults link.old ≤ L.faults link.new }
{
    let mut at = state.at;
    match await_reply(alloc, link, &mut state.buffer, &mut at, request, id)? {
        Reply::Ended(found, code) => {
            state.at = at;
            Ok(Reply::Ended(found, code))
        }
        Reply::Failed(why) => {
            state.failed = Some(why);
            Ok(Reply::Failed(why))
        }
    }
}

/// Sends a request by the next id, and awaits the reply. The id is used where the request was sent.
pub fn exchange<L: DirectoryLink>(
    alloc: Global,
    link: &mut L,
    state: &mut State,
    request: Request,
    operation: Operation,
) -> Result<Reply, Memory>
    requires sound { IsSoundOperation (operation_value operation) }
    requires well { state.old.failed ≡ None }
    requires within { state.old.at ≤ length state.old.buffer }
    requires limited { length state.old.buffer ≤ 67108864 }
    requires next { state.old.next < 2147483647 }
    ensures used { (state.new.next ≡ state.old.next) ⊎ (state.new.next ≡ state.old.next + 1) }
    ensures unsent { state.new.next ≡ state.old.next → SendsNothing L.DirectoryLink link.old link.new state.old.buffer state.new.buffer }
    ensures no_reply { state.new.next ≡ state.old.next → IsNoReply result (Rose (L.faults link.old) (L.faults link.new) × L.refuses link.new) }
    ensures sent { state.new.next ≡ state.old.next + 1 → Sends L.DirectoryLink (request_message state.old.next (operation_value operation)) link.old link.new state.old.buffer state.new.buffer }
    ensures reply { state.new.next ≡ state.old.next + 1 → IsReply result (decided request state.old.next state.old.at state.new.buffer) state.new.at (Rose (L.faults link.old) (L.faults link.new) × L.ends link.new) }
    ensures fails { state.new.failed ≡ failure_of result }
    ensures placed { IsPlaced result state.old.at state.new.at }
    ensures within { state.new.at ≤ length state.new.buffer }
    ensures short { length state.new.buffer ≤ 67108865 }
    ensures limited { failure_of result ≡ None → length state.new.buffer ≤ 67108864 }
    ensures behind { L.behind link.new ≡ L.behind link.old }
    ensures later { L.faults link.old ≤ L.faults link.new }
{
    let id = state.next;
    let sent = ask_by(alloc, link, id, operation)?;
    if sent {
        state.next = id + 1;
        return settle(alloc, link, state, request, id);
    }
    state.failed = Some(Why::Link);
    Ok(Reply::Failed(Why::Link))
}
