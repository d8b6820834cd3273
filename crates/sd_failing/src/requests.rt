// The requests of clients.
use sd_base::{Memory, Text};
use sd_pieces::{cut, read_number};
use sd_wire::{Request, write_frame};
use std::alloc::Global;

/// The word in front of the first space, and what stands behind it.
pub fn cut_word(words: &[u8]) -> (&[u8], &[u8]) {
    let (word, rest) = cut(b' ', words);
    (word, rest.unwrap_or(&[]))
}

/// The number that a word writes; 0 where it writes none.
pub fn number_in(word: &[u8]) -> u32 {
    read_number(word).unwrap_or(0)
}

fn request_of(alloc: Global, words: &[u8]) -> Result<Option<Request>, Memory> {
    let (kind, rest) = cut_word(words);
    let (name, password) = cut_word(rest);
    let name = Text::from_bytes(alloc, name)?;
    Ok(match kind {
        b"user" => Some(Request::User(name)),
        b"groups" => Some(Request::GroupsOf(name)),
        b"login" => Some(Request::Login(name, Text::from_bytes(alloc, password)?)),
        b"offline" => Some(Request::Offline),
        b"stop" => Some(Request::Stop),
        _ => None,
    })
}

/// Appends the frame of a request; nothing where its words have no form here.
pub fn push_frame(alloc: Global, out: &mut Vec<u8>, words: &[u8]) -> Result<(), Memory> {
    if let Some(request) = request_of(alloc, words)?
        && request.is_sound()
    {
        write_frame(out, &request)?;
    }
    Ok(())
}
