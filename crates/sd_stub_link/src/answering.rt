//! What a server answers, by its mode.
ghost use Rattle.std.specs.Prelude.{◌≡◌, ℕ, ◌==◌, List, [], ◌∷◌, length, IfOk};
ghost use Rattle.std.specs.List.{flat_map};
ghost use Rattle.sd_ldap.specs.Values.{message_value, operation_value};
ghost use Rattle.sd_ldap.specs.MessageReading.{whole, decode_of};
ghost use Rattle.sd_ldap.specs.Spelling.{message_bytes};
ghost use Rattle.sd_match.specs.Answering.{told, reply, replies_to, answer_to};
ghost use Rattle.sd_stub.specs.declared.Mode.TheVariants as modes;
ghost use Rattle.sd_stub_link.specs.Modes.{answer_by, answer_where_whole, framed_bytes, coded_replies};

use crate::framing::{Outer, reframed};
use sd_base::{Memory, Text};
use sd_ldap::{Decoded, LdapResult, Message, Operation, decode, write_message};
use sd_stub::{Directory, Mode, StubFault};
use std::alloc::Global;

/// What the directory answers; nothing to what is no message.
fn plain(alloc: Global, directory: &Directory, piece: &[u8]) -> Result<Vec<u8>, Memory>
    ensures { IfOk result (λ v. v.items ≡ answer_to directory.now piece.now) }
{
    match directory.answer(piece) {
        Ok(bytes) => Ok(bytes),
        Err(StubFault::Bad(_)) => Ok(Vec::new(alloc)),
        Err(StubFault::Memory) => Err(Memory),
    }
}

/// The first byte of what the directory answers.
fn cut(alloc: Global, directory: &Directory, piece: &[u8]) -> Result<Vec<u8>, Memory>
    ensures { IfOk result (λ v. v.items ≡ answer_by modes.Cut directory.now piece.now) }
{
    let mut bytes = plain(alloc, directory, piece)?;
    bytes.truncate(1);
    Ok(bytes)
}

/// What the directory answers, with another outer length. An answer of 4 GiB or more finds no memory.
fn framed(
    alloc: Global,
    directory: &Directory,
    outer: Outer,
    piece: &[u8],
) -> Result<Vec<u8>, Memory>
    ensures { IfOk result (λ v. v.items ≡ answer_where_whole (λ m. flat_map (framed_bytes outer) (replies_to directory.now m)) (length piece.now) (decode_of piece.now)) }
{
    let bytes = plain(alloc, directory, piece)?;
    if bytes.len() > u32::MAX as usize {
        return Err(Memory);
    }
    reframed(alloc, &bytes, outer)
}

#[tactic(auto, using(crate::proofs::Modes::long_whole))]
fn long(alloc: Global, directory: &Directory, piece: &[u8]) -> Result<Vec<u8>, Memory>
    ensures { IfOk result (λ v. v.items ≡ answer_by modes.Long directory.now piece.now) }
{
    framed(alloc, directory, Outer::FourOctets, piece)
}

fn told(alloc: Global, code: u32) -> Result<LdapResult, Memory>
    ensures { IfOk result (λ made. made ≡ told code) }
{
    Ok(LdapResult {
        code,
        dn: Text::from_bytes(alloc, b"")?,
        message: Text::from_bytes(alloc, b"")?,
    })
}

/// The bytes of one message.
#[tactic(auto, using(crate::proofs::Modes::alone))]
fn alone(alloc: Global, id: u32, operation: Operation) -> Result<Vec<u8>, Memory>
    ensures { IfOk result (λ v. v.items ≡ flat_map message_bytes (reply id (operation_value operation) ∷ [])) }
{
    let message = Message { id, operation };
    let bytes = write_message(alloc, &message)?;
    Ok(bytes)
}

/// The answer to a piece that is one message.
#[tactic(auto, using(crate::proofs::Modes::plain_whole))]
fn coded_message(
    alloc: Global,
    directory: &Directory,
    code: u32,
    piece: &[u8],
    message: &Message,
) -> Result<Vec<u8>, Memory>
    requires { decode_of piece.now ≡ whole (message_value message.now) (length piece.now) }
    ensures { IfOk result (λ v. v.items ≡ flat_map message_bytes (coded_replies code directory.now (message_value message.now))) }
{
    match &message.operation {
        Operation::BindRequest(_, _, _) => alone(
            alloc,
            message.id,
            Operation::BindResponse(told(alloc, code)?),
        ),
        Operation::Search(_) => alone(alloc, message.id, Operation::Done(told(alloc, code)?)),
        Operation::Unbind => plain(alloc, directory, piece),
        Operation::BindResponse(_) => plain(alloc, directory, piece),
        Operation::Entry(_) => plain(alloc, directory, piece),
        Operation::Done(_) => plain(alloc, directory, piece),
        Operation::Reference => plain(alloc, directory, piece),
        Operation::Other(_) => plain(alloc, directory, piece),
    }
}

/// The answer to a piece that begins with a message of so many bytes.
fn coded_whole(
    alloc: Global,
    directory: &Directory,
    code: u32,
    piece: &[u8],
    message: &Message,
    used: u64,
) -> Result<Vec<u8>, Memory>
    requires { decode_of piece.now ≡ whole (message_value message.now) used }
    ensures { IfOk result (λ v. v.items ≡ answer_where_whole (λ m. flat_map message_bytes (coded_replies code directory.now m)) (length piece.now) (whole (message_value message.now) used)) }
{
    if used != piece.len() as u64 {
        return Ok(Vec::new(alloc));
    }
    coded_message(alloc, directory, code, piece, message)
}

/// Binds and searches are answered by a code.
fn coded(alloc: Global, directory: &Directory, code: u32, piece: &[u8]) -> Result<Vec<u8>, Memory>
    ensures { IfOk result (λ v. v.items ≡ answer_by (modes.Code code) directory.now piece.now) }
{
    match decode(alloc, piece) {
        Decoded::Whole(message, used) => coded_whole(alloc, directory, code, piece, &message, used),
        Decoded::More => Ok(Vec::new(alloc)),
        Decoded::Bad(_) => Ok(Vec::new(alloc)),
        Decoded::Memory => Err(Memory),
    }
}

/// The bytes that answer a piece.
pub fn answer(
    alloc: Global,
    directory: &Directory,
    mode: Mode,
    piece: &[u8],
) -> Result<Vec<u8>, Memory>
    ensures { IfOk result (λ v. v.items ≡ answer_by mode directory.now piece.now) }
{
    match mode {
        Mode::Up => plain(alloc, directory, piece),
        Mode::Down => Ok(Vec::new(alloc)),
        Mode::Cut => cut(alloc, directory, piece),
        Mode::Indef => framed(alloc, directory, Outer::Indefinite, piece),
        Mode::Long => long(alloc, directory, piece),
        Mode::Code(code) => coded(alloc, directory, code, piece),
    }
}
