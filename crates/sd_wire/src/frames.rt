// Reading the frames of requests.
ghost use Rattle.std.specs.Prelude.{◌≡◌, ℕ, ◌<◌, ◌^◌, length, IfOk, MatchOption, Some, None};
ghost use Rattle.std.specs.Int.{w16, w32, from_be_bytes};
ghost use Rattle.std.specs.Option.{option_copied};
ghost use Rattle.sd_wire.specs.Frames as frames;
ghost use Rattle.sd_wire.specs.Framing as framing;

use crate::requests::{LONGEST_BODY, Request, is_name, is_password};
use sd_base::{Memory, Text};
use sd_rules::What;
use std::alloc::Global;

/// What bytes begin with.
#[derive(Drop)]
pub enum Framed {
    /// A request, and how many bytes its frame has.
    Frame(Request, u64),
    /// More bytes are needed.
    More,
    /// No frame, whatever follows.
    Bad,
    /// Want of memory.
    Memory,
}

/// The number that two octets spell, the first the highest.
fn number_of_two(octets: &[u8]) -> u16
    requires { length octets.now ≡ 2 }
    ensures { result ≡ from_be_bytes w16 octets.now }
{
    match octets {
        [a, b] => u16::from_be_bytes([*a, *b]),
        _ => 0,
    }
}

/// The number that four octets spell, the first the highest.
pub fn number_of_four(octets: &[u8]) -> u32
    requires { length octets.now ≡ 4 }
    ensures { result ≡ from_be_bytes w32 octets.now }
{
    match octets {
        [a, b, c, d] => u32::from_be_bytes([*a, *b, *c, *d]),
        _ => 0,
    }
}

/// A text field in front, and what is behind it.
fn text_in(bytes: &[u8]) -> Option<(&[u8], &[u8])>
    ensures { MatchOption result (framing.text_in bytes.now ≡ None) (λ found. framing.text_in bytes.now ≡ Some (found.0.now, found.1.now)) }
{
    if bytes.len() < 2 {
        return None;
    }
    let (octets, rest) = bytes.split_at(2);
    let size = usize::from(number_of_two(octets));
    if rest.len() < size {
        return None;
    }
    Some(rest.split_at(size))
}

/// A text field with nothing behind it.
fn text_alone(bytes: &[u8]) -> Option<&[u8]>
    ensures { option_copied result ≡ framing.text_alone bytes.now }
{
    let Some((text, rest)) = text_in(bytes) else {
        return None;
    };
    if rest.is_empty() { Some(text) } else { None }
}

/// A name with nothing behind it.
fn name_alone(bytes: &[u8]) -> Option<&[u8]>
    ensures { option_copied result ≡ framing.name_alone bytes.now }
{
    let Some(text) = text_alone(bytes) else {
        return None;
    };
    if is_name(text) { Some(text) } else { None }
}

/// Two texts with nothing behind them.
fn pair_alone(bytes: &[u8]) -> Option<(&[u8], &[u8])>
    ensures { MatchOption result (framing.pair_alone bytes.now ≡ None) (λ found. framing.pair_alone bytes.now ≡ Some (found.0.now, found.1.now)) }
{
    let Some((first, rest)) = text_in(bytes) else {
        return None;
    };
    let Some(second) = text_alone(rest) else {
        return None;
    };
    Some((first, second))
}

/// A number with nothing behind it.
fn number_alone(bytes: &[u8]) -> Option<u32>
    ensures { result ≡ framing.number_alone bytes.now }
{
    if bytes.len() == 4 {
        Some(number_of_four(bytes))
    } else {
        None
    }
}

fn name_in(alloc: Global, fields: &[u8]) -> Result<Option<Text>, Memory>
    ensures { IfOk result (λ name. name ≡ framing.name_alone fields.now) }
{
    let Some(name) = name_alone(fields) else {
        return Ok(None);
    };
    Ok(Some(Text::from_bytes(alloc, name)?))
}

fn login_in(alloc: Global, fields: &[u8]) -> Result<Option<Request>, Memory>
    ensures { IfOk result (λ request. request ≡ framing.as_login (framing.pair_alone fields.now)) }
{
    let Some((user, password)) = pair_alone(fields) else {
        return Ok(None);
    };
    if !(is_name(user) && is_password(password)) {
        return Ok(None);
    }
    let user = Text::from_bytes(alloc, user)?;
    let password = Text::from_bytes(alloc, password)?;
    Ok(Some(Request::Login(user, password)))
}

fn access_in(alloc: Global, fields: &[u8]) -> Result<Option<Request>, Memory>
    ensures { IfOk result (λ request. request ≡ framing.as_access (framing.pair_alone fields.now)) }
{
    let Some((user, service)) = pair_alone(fields) else {
        return Ok(None);
    };
    if !(is_name(user) && is_name(service)) {
        return Ok(None);
    }
    let user = Text::from_bytes(alloc, user)?;
    let service = Text::from_bytes(alloc, service)?;
    Ok(Some(Request::Access(user, service)))
}

/// A word that has no fields.
fn bare<T: Drop>(word: T, fields: &[u8]) -> Option<T>
    ensures { result ≡ framing.bare word fields.now }
{
    if fields.is_empty() { Some(word) } else { None }
}

fn what_in(alloc: Global, fields: &[u8]) -> Result<Option<What>, Memory>
    ensures { IfOk result (λ what. what ≡ framing.what_in fields.now) }
{
    let [kind, fields @ ..] = fields else {
        return Ok(None);
    };
    match *kind {
        0 => Ok(bare(What::All, fields)),
        1 => Ok(name_in(alloc, fields)?.map(What::User)),
        2 => Ok(bare(What::Users, fields)),
        3 => Ok(name_in(alloc, fields)?.map(What::Group)),
        4 => Ok(bare(What::Groups, fields)),
        _ => Ok(None),
    }
}

fn order_in(alloc: Global, command: u8, fields: &[u8]) -> Result<Option<Request>, Memory>
    ensures { IfOk result (λ request. request ≡ framing.order_by command fields.now) }
{
    match command {
        32 => Ok(what_in(alloc, fields)?.map(Request::Void)),
        33 => Ok(bare(Request::Offline, fields)),
        34 => Ok(bare(Request::Online, fields)),
        35 => Ok(bare(Request::Stop, fields)),
        _ => Ok(None),
    }
}

/// The request whose body the bytes are.
fn request_in(alloc: Global, body: &[u8]) -> Result<Option<Request>, Memory>
    ensures { IfOk result (λ request. request ≡ framing.request_in body.now) }
{
    let [command, fields @ ..] = body else {
        return Ok(None);
    };
    match *command {
        1 => Ok(name_in(alloc, fields)?.map(Request::User)),
        2 => Ok(number_alone(fields).map(Request::Uid)),
        3 => Ok(name_in(alloc, fields)?.map(Request::Group)),
        4 => Ok(number_alone(fields).map(Request::Gid)),
        5 => Ok(name_in(alloc, fields)?.map(Request::GroupsOf)),
        16 => login_in(alloc, fields),
        17 => access_in(alloc, fields),
        other => order_in(alloc, other, fields),
    }
}

/// The request that bytes begin with, as a function of the bytes.
fn frame_in(alloc: Global, bytes: &[u8]) -> Framed
    ensures { framing.Reads result (framing.framed bytes.now) }
{
    if bytes.len() < 4 {
        return Framed::More;
    }
    let (octets, rest) = bytes.split_at(4);
    let length = number_of_four(octets) as usize;
    if length == 0 || LONGEST_BODY < length {
        return Framed::Bad;
    }
    if rest.len() < length {
        return Framed::More;
    }
    match request_in(alloc, &rest[..length]) {
        Ok(Some(request)) => Framed::Frame(request, length as u64 + 4),
        Ok(None) => Framed::Bad,
        Err(Memory) => Framed::Memory,
    }
}

/// The request that bytes begin with. Of a frame that is not whole nothing is copied.
pub fn read_frame(alloc: Global, bytes: &[u8]) -> Framed
    ensures says { frames.SaysOf result bytes.now }
    // The same as a function of the bytes, for those who read frame after frame.
    ensures exact { framing.Reads result (framing.framed bytes.now) }
{
    frame_in(alloc, bytes)
}

/// The frame of a request is read back, whatever follows it: a law without code.
pub fn reads_back()
    ensures { framing.ReadsBack }
{}
