//! Taking bytes from a source.
ghost use Rattle.std.specs.Prelude.{◌≡◌, ◌≤◌, length, drop};
ghost use Rattle.sd_base.specs.Causes.{Rose};
ghost use Rattle.sd_inbox.specs.Taking.{Takes};

use sd_base::{Source, SourceFailed};

/// How many bytes are read over one connection: 1 GiB. One more may be taken, by which it is known that the input goes on.
pub const LIMIT: usize = 1_073_741_824;

/// How many bytes are taken at a time.
const CHUNK: usize = 4096;

/// What came of taking.
#[derive(Clone, Copy, PartialEq, Eq)]
pub enum Taken {
    Bytes,
    /// No byte is left.
    End,
    /// No byte may be read any more, and one came.
    Over,
    Failed,
    Memory,
}

/// Takes some bytes behind those that are there, of which so many may still be read. Where none may, it takes one to
/// know whether the source ends there.
pub fn take_more<S: Source>(source: &mut S, bytes: &mut Vec<u8>, room: usize) -> Taken
    ensures taken { Takes result (S.left source.old) (S.left source.new) bytes.old.items bytes.new.items room (Rose (S.faults source.old) (S.faults source.new)) }
    ensures later { S.faults source.old ≤ S.faults source.new }
{
    let mut buf = [0u8; CHUNK];
    let most = room.min(CHUNK).max(1);
    let count = match source.take(&mut buf[..most]) {
        Ok(count) => count,
        Err(SourceFailed) => return Taken::Failed,
    };
    if count == 0 {
        return Taken::End;
    }
    if room == 0 {
        return Taken::Over;
    }
    if bytes.extend_from_slice(&buf[..count]).is_err() {
        return Taken::Memory;
    }
    Taken::Bytes
}

/// Takes away so many bytes in front.
pub fn drop_front(bytes: &mut Vec<u8>, count: usize)
    requires { count ≤ length bytes.old.items }
    ensures { bytes.new.items ≡ drop count bytes.old.items }
{
    if count == 0 {
        return;
    }
    let left = bytes.len() - count;
    bytes.rotate_left(count);
    bytes.truncate(left);
}
