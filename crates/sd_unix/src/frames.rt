//! Frames of requests: where the first of a client's bytes ends, and who may send it.
ghost use Rattle.std.specs.Prelude.{◌≡◌};
ghost use Rattle.sd_unix.specs.Frames as frames;

/// Who comes through a door.
#[derive(Clone, Copy, PartialEq, Eq)]
pub enum Visitor {
    /// Who may send every request.
    Administrator,
    /// Any user of the host, who may ask for lookups, logins and account checks.
    Anyone,
}

/// How far the first frame of a client's bytes has come.
#[derive(Clone, Copy, PartialEq, Eq)]
pub enum Progress {
    /// Bytes of it are to come.
    Cut,
    /// The frame has so many bytes, and all are there.
    Whole(usize),
    /// No frame has this length, or this client may not send its command.
    Refused,
}

/// The most bytes of a frame's body.
pub const MOST_BODY: u32 = 65536;

/// How many bytes a frame's length takes.
const LENGTH_BYTES: usize = 4;

/// The command of a login.
const LOGIN: u8 = 16;

/// Whether every user of the host may send a command: lookups, logins and account checks.
fn is_public(command: u8) -> bool
    ensures { result ≡ frames.is_public command }
{
    (1 <= command && command <= 5) || (command == 16 || command == 17)
}

/// The command of the frame in front, where it is there.
fn command_of(bytes: &[u8]) -> Option<u8>
    ensures { result ≡ frames.command_of bytes.now }
{
    match bytes {
        [_, _, _, _, command, ..] => Some(*command),
        _ => None,
    }
}

/// The length of the body of the frame in front, where it is there.
fn body_of(bytes: &[u8]) -> Option<u32>
    ensures { result ≡ frames.body_of bytes.now }
{
    match bytes {
        [a, b, c, d, ..] => Some(u32::from_be_bytes([*a, *b, *c, *d])),
        _ => None,
    }
}

/// Whether a client may send a command, as far as it is known.
fn is_allowed(visitor: Visitor, command: Option<u8>) -> bool
    ensures { result ≡ frames.is_allowed visitor command }
{
    match (visitor, command) {
        (Visitor::Anyone, Some(command)) => is_public(command),
        _ => true,
    }
}

/// The progress of a frame with a body of this length, of which so many bytes are there.
fn progress_of(body: u32, there: usize) -> Progress
    ensures { result ≡ frames.progress_of body there }
{
    if body == 0 || MOST_BODY < body {
        return Progress::Refused;
    }
    let size = LENGTH_BYTES + body as usize;
    if there < size {
        return Progress::Cut;
    }
    Progress::Whole(size)
}

/// The progress of the frame in front of a client's bytes.
pub fn frame_progress(visitor: Visitor, bytes: &[u8]) -> Progress
    ensures { result ≡ frames.frame_progress visitor bytes.now }
{
    let is_allowed = is_allowed(visitor, command_of(bytes));
    if !is_allowed {
        return Progress::Refused;
    }
    match body_of(bytes) {
        Some(body) => progress_of(body, bytes.len()),
        None => Progress::Cut,
    }
}

/// Whether the frame in front is a login's.
pub fn is_login(bytes: &[u8]) -> bool
    ensures { result ≡ frames.is_login bytes.now }
{
    command_of(bytes) == Some(LOGIN)
}

/// Whether a reply tells that a password is wrong.
pub fn is_wrong(reply: &[u8]) -> bool
    ensures { result ≡ frames.is_wrong reply.now }
{
    let Some(text) = reply.get(LENGTH_BYTES..) else {
        return false;
    };
    text.starts_with(b"wrong ")
}
