// What a directory answers.
use crate::hex::{bytes_of, cut_word, number};
use crate::output::{print_bytes, print_line, print_number};
use sd_base::{Copied, Memory, MemorySink, MemorySource, Numbers};
use sd_ldif::{LdifFault, read_ldif};
use sd_stub::{Directory, LinkEnd, StubFault, serve_link};
use std::alloc::Global;

/// The directory of a text in LDIF; one that is refused has none.
pub fn directory_of(alloc: Global, text: &[u8]) -> Result<Directory, Memory> {
    let mut entries = Vec::new(alloc);
    match read_ldif(alloc, text) {
        Ok(found) => {
            for entry in found.items() {
                entries.push(entry.copy()?)?;
            }
        }
        Err(LdifFault::Memory) => return Err(Memory),
        Err(_) => {}
    }
    Directory::new(alloc, entries)
}

/// The answer to a request.
pub fn print_answer(
    alloc: Global,
    out: &mut Vec<u8>,
    directory: &Directory,
    request: &[u8],
) -> Result<(), Memory> {
    match directory.answer(request) {
        Ok(reply) => print_bytes(alloc, out, "answer", reply.as_slice()),
        Err(StubFault::Bad(place)) => print_number(alloc, out, "bad", place),
        Err(StubFault::Memory) => Err(Memory),
    }
}

fn print_end(alloc: Global, out: &mut Vec<u8>, end: LinkEnd) -> Result<(), Memory> {
    match end {
        LinkEnd::Closed => print_line(out, b"closed"),
        LinkEnd::Unbound => print_line(out, b"unbound"),
        LinkEnd::Bad(place) => print_number(alloc, out, "bad", place),
        LinkEnd::Cut => print_line(out, b"cut"),
        LinkEnd::Long(limit) => print_number(alloc, out, "long", limit),
        LinkEnd::ReadFault => print_line(out, b"read fault"),
        LinkEnd::WriteFault => print_line(out, b"write fault"),
        LinkEnd::Memory => Err(Memory),
    }
}

/// A list of one call.
fn one(alloc: Global, call: u32) -> Result<Numbers, Memory> {
    let mut calls = Numbers::new(alloc);
    calls.push(call)?;
    Ok(calls)
}

/// What is written over a link, and how it ends.
pub fn print_served(
    alloc: Global,
    out: &mut Vec<u8>,
    directory: &Directory,
    words: &[u8],
) -> Result<(), Memory> {
    let (read, words) = cut_word(words);
    let (write, words) = cut_word(words);
    let input = bytes_of(alloc, words)?;
    let mut source = MemorySource::new(input, one(alloc, number(read))?);
    let mut sink = MemorySink::new(Vec::new(alloc), one(alloc, number(write))?);
    let end = serve_link(directory, &mut source, &mut sink);
    print_bytes(alloc, out, "written", sink.bytes())?;
    print_end(alloc, out, end)
}
