//! How messages are read (RFC 4511 section 4).
ghost use Rattle.std.specs.Prelude.{◌≡◌, ◌≤◌, ℕ, IfOk};
ghost use Rattle.sd_ldap.specs.Monad.{Fails, Makes, Gives};
ghost use Rattle.sd_ldap.specs.Values.{search_value, operation_value, message_value};
ghost use Rattle.sd_ldap.specs.MessageReading.{span_in, bounds_in, search_in, bind_in, operation_of, operation_in, message_in};

use crate::fault::ReadFault;
use crate::filter_reading::filter;
use crate::message::{Bounds, Message, Operation, SearchRequest, Span};
use crate::parts::{end, entry, expected, number, part, pass, result, text, texts, truth};
use sd_base::Text;
use sd_ber::Reader;
use std::alloc::Global;

/// The greatest messageID, and the greatest limit of a search (RFC 4511 section 4.1.1.1, maxInt).
const MAX_INT: u32 = 2_147_483_647;

/// How many levels a filter may have.
const MAX_LEVELS: u32 = 32;

#[tactic(auto, unfolding(crate::specs::MessageReading::span_in))]
fn read_span(alloc: Global, reader: &mut Reader<'_>) -> Result<Span, ReadFault>
    ensures { Gives (λ s. s) result reader.new (span_in reader.old) }
{
    let base = text(alloc, reader, 4)?;
    let scope = number(reader, 10, 0, 2)?;
    let deref = number(reader, 10, 0, 3)?;
    Ok(Span {
        base,
        scope: scope as u8,
        deref: deref as u8,
    })
}

#[tactic(auto, unfolding(crate::specs::MessageReading::bounds_in))]
fn read_bounds(reader: &mut Reader<'_>) -> Result<Bounds, ReadFault>
    ensures { Gives (λ b. b) result reader.new (bounds_in reader.old) }
{
    let size = number(reader, 2, 0, MAX_INT)?;
    let time = number(reader, 2, 0, MAX_INT)?;
    let types_only = truth(reader)?;
    Ok(Bounds {
        size,
        time,
        types_only,
    })
}

#[tactic(auto, unfolding(crate::specs::MessageReading::search_in))]
fn search(alloc: Global, mut reader: Reader<'_>) -> Result<SearchRequest, ReadFault>
    ensures { Makes search_value result (search_in reader.entry) }
{
    let span = read_span(alloc, &mut reader)?;
    let bounds = read_bounds(&mut reader)?;
    let filter = filter(alloc, &mut reader, MAX_LEVELS)?;
    let list = expected(&mut reader, 0x30)?;
    let attributes = texts(alloc, list)?;
    end(&reader)?;
    Ok(SearchRequest {
        base: span.base,
        scope: span.scope,
        deref: span.deref,
        size: bounds.size,
        time: bounds.time,
        types_only: bounds.types_only,
        filter,
        attributes,
    })
}

/// Version, name and simple password.
#[tactic(auto, unfolding(crate::specs::MessageReading::bind_in))]
fn bind(alloc: Global, mut reader: Reader<'_>) -> Result<Operation, ReadFault>
    ensures { Makes operation_value result (bind_in reader.entry) }
{
    let version = number(&mut reader, 2, 1, 127)?;
    let name = text(alloc, &mut reader, 4)?;
    let password = text(alloc, &mut reader, 0x80)?;
    end(&reader)?;
    Ok(Operation::BindRequest(version as u8, name, password))
}

/// The contents of an operation of a tag; the operation itself is at a place.
#[tactic(auto, unfolding(crate::specs::MessageReading::operation_of))]
fn operation_by(
    alloc: Global,
    at: u64,
    tag: u8,
    contents: Reader<'_>,
) -> Result<Operation, ReadFault>
    ensures { Makes operation_value result (operation_of at tag contents.entry) }
{
    match tag {
        0x60 => bind(alloc, contents),
        0x61 => Ok(Operation::BindResponse(result(alloc, contents)?)),
        0x42 => {
            if !contents.is_empty() {
                return Err(ReadFault::Bad(at));
            }
            Ok(Operation::Unbind)
        }
        0x63 => Ok(Operation::Search(search(alloc, contents)?)),
        0x64 => Ok(Operation::Entry(entry(alloc, contents)?)),
        0x65 => Ok(Operation::Done(result(alloc, contents)?)),
        0x73 => Ok(Operation::Reference),
        _ => Ok(Operation::Other(tag)),
    }
}

#[tactic(auto, unfolding(crate::specs::MessageReading::operation_in))]
fn operation(alloc: Global, reader: &mut Reader<'_>) -> Result<Operation, ReadFault>
    ensures { Gives operation_value result reader.new (operation_in reader.old) }
{
    let at = reader.place();
    let (tag, contents) = part(reader)?;
    operation_by(alloc, at, tag, contents)
}

/// The contents of a message; elements behind the operation, as controls, are read over.
#[tactic(auto, unfolding(crate::specs::MessageReading::message_in))]
pub fn message(alloc: Global, mut reader: Reader<'_>) -> Result<Message, ReadFault>
    ensures { Makes message_value result (message_in reader.entry) }
{
    let id = number(&mut reader, 2, 0, MAX_INT)?;
    let operation = operation(alloc, &mut reader)?;
    pass(&mut reader)?;
    Ok(Message { id, operation })
}
