// Writing the frames of requests and of replies. A frame is written behind what a buffer holds: its length, of which only the
// room is made at first, and then what it carries, so that nothing is copied twice.
ghost use Rattle.std.specs.Prelude.{◌≡◌, ◌++◌, ◌∷◌, ◌<◌, ◌≤◌, ◌+◌, ◌-◌, ◌^◌, true, OnOk, OnErr, length, take, drop};
ghost use Rattle.std.specs.Int.{w32, to_be_bytes};
ghost use Rattle.sd_wire.specs.Forms as forms;
ghost use Rattle.sd_wire.specs.Frames as frames;
ghost use Rattle.sd_wire.specs.SaidTexts as texts;

use crate::fields::push_bytes;
use crate::requests::Request;
use crate::told::push_line;
use sd_base::{Memory, Text};
use sd_rules::{Said, What};
use std::alloc::Global;

fn put_octets(out: &mut Vec<u8>, place: usize, size: u32)
    requires { place + 4 ≤ length out.old.items }
    ensures { out.new.items ≡ take place out.old.items ++ (to_be_bytes w32 size ++ drop (place + 4) out.old.items) }
{
    out[place..place + 4].copy_from_slice(&size.to_be_bytes());
}

/// Writes the length of what a frame carries into the room made for it.
fn end_frame(out: &mut Vec<u8>, place: usize) -> Result<(), Memory>
    requires { place + 4 ≤ length out.old.items }
    ensures ok { OnOk result (out.new.items ≡ frames.ended place out.old.items) }
    ensures err { OnErr result (out.new.items ≡ out.old.items) }
{
    let Ok(size) = u32::try_from(out.len() - (place + 4)) else {
        return Err(Memory);
    };
    put_octets(out, place, size);
    Ok(())
}

fn put_text(out: &mut Vec<u8>, text: &[u8]) -> Result<(), Memory>
    requires { length text.now < 2 ^ 16 }
    ensures ok { OnOk result (out.new.items ≡ out.old.items ++ frames.text_field text.now) }
    ensures kept { forms.Keeps out.old.items out.new.items }
{
    push_bytes(out, &(text.len() as u16).to_be_bytes())?;
    push_bytes(out, text)
}

/// A command, or a kind, and a name.
fn put_named(out: &mut Vec<u8>, word: u8, name: &[u8]) -> Result<(), Memory>
    requires { length name.now < 2 ^ 16 }
    ensures ok { OnOk result (out.new.items ≡ out.old.items ++ word ∷ frames.text_field name.now) }
    ensures kept { forms.Keeps out.old.items out.new.items }
{
    push_bytes(out, &[word])?;
    put_text(out, name)
}

fn put_numbered(out: &mut Vec<u8>, command: u8, number: u32) -> Result<(), Memory>
    ensures ok { OnOk result (out.new.items ≡ out.old.items ++ command ∷ frames.number_field number) }
    ensures kept { forms.Keeps out.old.items out.new.items }
{
    push_bytes(out, &[command])?;
    push_bytes(out, &number.to_be_bytes())
}

fn put_pair(out: &mut Vec<u8>, command: u8, first: &[u8], second: &[u8]) -> Result<(), Memory>
    requires first { length first.now < 2 ^ 16 }
    requires second { length second.now < 2 ^ 16 }
    ensures ok { OnOk result (out.new.items ≡ out.old.items ++ command ∷ (frames.text_field first.now ++ frames.text_field second.now)) }
    ensures kept { forms.Keeps out.old.items out.new.items }
{
    put_named(out, command, first)?;
    put_text(out, second)
}

fn put_what(out: &mut Vec<u8>, what: &What) -> Result<(), Memory>
    requires { frames.is_sound_what what.now ≡ true }
    ensures ok { OnOk result (out.new.items ≡ out.old.items ++ frames.what_field what.now) }
    ensures kept { forms.Keeps out.old.items out.new.items }
{
    match what {
        What::All => push_bytes(out, &[0]),
        What::User(name) => put_named(out, 1, name.bytes()),
        What::Users => push_bytes(out, &[2]),
        What::Group(name) => put_named(out, 3, name.bytes()),
        What::Groups => push_bytes(out, &[4]),
    }
}

fn put_void(out: &mut Vec<u8>, what: &What) -> Result<(), Memory>
    requires { frames.is_sound_what what.now ≡ true }
    ensures ok { OnOk result (out.new.items ≡ out.old.items ++ 32 ∷ frames.what_field what.now) }
    ensures kept { forms.Keeps out.old.items out.new.items }
{
    push_bytes(out, &[32])?;
    put_what(out, what)
}

fn put_body(out: &mut Vec<u8>, request: &Request) -> Result<(), Memory>
    requires { frames.is_sound request.now ≡ true }
    ensures ok { OnOk result (out.new.items ≡ out.old.items ++ frames.body_of request.now) }
    ensures kept { forms.Keeps out.old.items out.new.items }
{
    match request {
        Request::User(name) => put_named(out, 1, name.bytes()),
        Request::Uid(uid) => put_numbered(out, 2, *uid),
        Request::Group(name) => put_named(out, 3, name.bytes()),
        Request::Gid(gid) => put_numbered(out, 4, *gid),
        Request::GroupsOf(name) => put_named(out, 5, name.bytes()),
        Request::Login(user, password) => put_pair(out, 16, user.bytes(), password.bytes()),
        Request::Access(user, service) => put_pair(out, 17, user.bytes(), service.bytes()),
        Request::Void(what) => put_void(out, what),
        Request::Offline => push_bytes(out, &[33]),
        Request::Online => push_bytes(out, &[34]),
        Request::Stop => push_bytes(out, &[35]),
    }
}

/// Writes a frame, of which some may stay behind what was there where memory runs out.
fn put_frame(out: &mut Vec<u8>, request: &Request) -> Result<(), Memory>
    requires { frames.is_sound request.now ≡ true }
    ensures ok { OnOk result (out.new.items ≡ out.old.items ++ frames.frame_of request.now) }
    ensures kept { forms.Keeps out.old.items out.new.items }
{
    let place = out.len();
    push_bytes(out, &[0; 4])?;
    put_body(out, request)?;
    end_frame(out, place)
}

/// Appends the frame of a request whose texts are within their limits (`Request::is_sound`). For want of memory the buffer is
/// as before.
pub fn write_frame(out: &mut Vec<u8>, request: &Request) -> Result<(), Memory>
    requires { frames.is_sound request.now ≡ true }
    ensures ok { OnOk result (out.new.items ≡ out.old.items ++ frames.frame_of request.now) }
    ensures err { OnErr result (out.new.items ≡ out.old.items) }
{
    let before = out.len();
    if put_frame(out, request).is_err() {
        out.truncate(before);
        return Err(Memory);
    }
    Ok(())
}

fn put_reply(alloc: Global, out: &mut Vec<u8>, said: &Said, pwfield: &[u8]) -> Result<(), Memory>
    ensures ok { OnOk result (out.new.items ≡ out.old.items ++ frames.reply_of (texts.line_of said.now pwfield.now)) }
    ensures kept { forms.Keeps out.old.items out.new.items }
{
    let place = out.len();
    push_bytes(out, &[0; 4])?;
    push_line(alloc, out, said, pwfield)?;
    end_frame(out, place)
}

/// Appends the frame of a reply: the text of what a client is told, with its length in four octets before it, the highest
/// first. For want of memory the buffer is as before; a text of 4 GiB or more finds no memory.
pub fn write_reply(
    alloc: Global,
    out: &mut Vec<u8>,
    said: &Said,
    pwfield: &Text,
) -> Result<(), Memory>
    ensures ok { OnOk result (out.new.items ≡ out.old.items ++ frames.reply_of (texts.line_of said.now pwfield.now)) }
    ensures err { OnErr result (out.new.items ≡ out.old.items) }
{
    let before = out.len();
    if put_reply(alloc, out, said, pwfield.bytes()).is_err() {
        out.truncate(before);
        return Err(Memory);
    }
    Ok(())
}
