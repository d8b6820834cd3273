//! The message that the bytes received begin with, and what it says to a request.
ghost use Rattle.std.specs.Prelude.{◌≡◌, ℕ, ◌<◌, ◌≤◌, length, IfOk, IsTrue};
ghost use Rattle.sd_ber.specs.Reading.{header_at};
ghost use Rattle.sd_ldap.specs.Values.{operation_value, message_value};
ghost use Rattle.sd_ldap.specs.MessageReading.{decode_of, framed};
ghost use Rattle.sd_ldap.specs.Spelling.{operation_tag};
ghost use Rattle.sd_client.specs.Heard.{operation_heard, message_heard, step_of};
ghost use Rattle.sd_client.specs.Waiting.{is_waiting, IsWithin};

use sd_base::{Memory, Why};
use sd_ber::{BerFault, read_header};
use sd_ldap::{Decoded, DirEntry, MAX_LENGTH, Message, Operation, decode};
use std::alloc::Global;

/// What a reply is awaited for.
#[derive(Clone, Copy)]
pub enum Request {
    Search,
    Bind,
}

/// What the message in front says; the number is that of its bytes.
#[derive(Drop)]
pub enum Step {
    /// Less than a whole message is there.
    Waits,
    Passed(u64),
    Found(DirEntry, u64),
    /// The result code.
    Ended(u32, u64),
    Failed(Why),
}

/// The tag of an operation (RFC 4511 section 4.2 and on).
fn tag_of(operation: &Operation) -> u8
    ensures { result ≡ operation_tag (operation_value operation.now) }
{
    match operation {
        Operation::BindRequest(_, _, _) => 0x60,
        Operation::BindResponse(_) => 0x61,
        Operation::Unbind => 0x42,
        Operation::Search(_) => 0x63,
        Operation::Entry(_) => 0x64,
        Operation::Done(_) => 0x65,
        Operation::Reference => 0x73,
        Operation::Other(tag) => *tag,
    }
}

fn unexpected(operation: &Operation) -> Step
    ensures { result ≡ Step.Failed (Why.Message (operation_tag (operation_value operation.now))) }
{
    Step::Failed(Why::Message(tag_of(operation)))
}

fn search_step(used: u64, operation: Operation) -> Step
    ensures { result ≡ operation_heard Request.Search used (operation_value operation) }
{
    match operation {
        Operation::Entry(entry) => Step::Found(entry, used),
        Operation::Done(result) => Step::Ended(result.code, used),
        Operation::Reference => Step::Passed(used),
        other => unexpected(&other),
    }
}

fn bind_step(used: u64, operation: Operation) -> Step
    ensures { result ≡ operation_heard Request.Bind used (operation_value operation) }
{
    match operation {
        Operation::BindResponse(result) => Step::Ended(result.code, used),
        other => unexpected(&other),
    }
}

fn message_step(request: Request, id: u32, used: u64, message: Message) -> Step
    ensures { result ≡ message_heard request id used (message_value message) }
{
    if message.id != id {
        return Step::Passed(used);
    }
    match request {
        Request::Search => search_step(used, message.operation),
        Request::Bind => bind_step(used, message.operation),
    }
}

/// Whether bytes are less than a whole message, by tag and length alone, so that a long message is not
/// decoded anew with each piece of it.
#[tactic(auto, unfolding(sd_ldap::specs::MessageReading::decode_of))]
fn waits(bytes: &[u8]) -> bool
    ensures { result ≡ is_waiting (decode_of bytes.now) }
{
    let [first, ..] = bytes else {
        return true;
    };
    if *first != 0x30 {
        return false;
    }
    waits_behind(bytes)
}

fn waits_behind(bytes: &[u8]) -> bool
    ensures { result ≡ is_waiting (framed bytes.now (header_at 0 bytes.now)) }
{
    match read_header(0, bytes) {
        Ok(header) => header.length <= MAX_LENGTH && bytes.len() < header.size + header.length,
        Err(BerFault::Short) => true,
        Err(_) => false,
    }
}

/// What the message in front says to a request of an id.
pub fn next_step(alloc: Global, request: Request, id: u32, bytes: &[u8]) -> Result<Step, Memory>
    ensures exact { IfOk result (λ step. step ≡ step_of request id (decode_of bytes.now)) }
    ensures within { IfOk result (λ step. IsWithin step (length bytes.now)) }
{
    if waits(bytes) {
        return Ok(Step::Waits);
    }
    match decode(alloc, bytes) {
        Decoded::Whole(message, used) => Ok(message_step(request, id, used, message)),
        Decoded::More => Ok(Step::Waits),
        Decoded::Bad(at) => Ok(Step::Failed(Why::Bytes(at))),
        Decoded::Memory => Err(Memory),
    }
}
