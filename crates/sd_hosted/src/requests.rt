// The requests of worked clients.
use sd_base::{Memory, Text};
use sd_plays::{cut_word, number};
use sd_wire::{Request, write_frame};
use std::alloc::Global;

/// What the words of a request ask; none where they have no form.
fn request_of(alloc: Global, words: &[u8]) -> Result<Option<Request>, Memory> {
    let (word, rest) = cut_word(words);
    let (first, second) = cut_word(rest);
    let first_text = Text::from_bytes(alloc, first)?;
    Ok(Some(match word {
        b"user" => Request::User(first_text),
        b"uid" => Request::Uid(number(first)),
        b"group" => Request::Group(first_text),
        b"gid" => Request::Gid(number(first)),
        b"groups" => Request::GroupsOf(first_text),
        b"login" => Request::Login(first_text, Text::from_bytes(alloc, second)?),
        b"access" => Request::Access(first_text, Text::from_bytes(alloc, second)?),
        b"offline" => Request::Offline,
        b"online" => Request::Online,
        b"stop" => Request::Stop,
        _ => return Ok(None),
    }))
}

/// Appends the frame of a request; nothing where its words have no form, or a text of it is too long.
pub fn push_request(alloc: Global, out: &mut Vec<u8>, words: &[u8]) -> Result<(), Memory> {
    match request_of(alloc, words)? {
        Some(request) if request.is_sound() => write_frame(out, &request),
        _ => Ok(()),
    }
}
