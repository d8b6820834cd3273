//! Reading the messages that are there.
ghost use Rattle.std.specs.Prelude.{◌≡◌, ℕ, ◌≤◌, List, ◌++◌, length, drop, IfOk};
ghost use Rattle.sd_ldap.specs.MessageReading.{decode_of, unfinished};
ghost use Rattle.sd_client.specs.Deciding.{reply_at};
ghost use Rattle.sd_client.specs.Reading.{IsRead};

use crate::step::{Request, Step, next_step};
use sd_base::{Memory, Why};
use sd_ldap::DirEntries;
use std::alloc::Global;

/// What reading came to.
#[derive(Clone, Copy)]
pub enum Read {
    /// More bytes are needed.
    Waits,
    /// The result code.
    Ended(u32),
    Failed(Why),
}

/// Reads the whole messages from a place on, to the end of the reply or as far as the bytes go.
pub fn read_on(
    alloc: Global,
    request: Request,
    id: u32,
    bytes: &[u8],
    at: &mut usize,
    found: &mut DirEntries,
) -> Result<Read, Memory>
    requires { at.old ≤ length bytes.now }
    ensures within { at.new ≤ length bytes.now }
    // Whatever comes behind these bytes, the decision stays the same or is made.
    ensures read { IfOk result (λ read. (more : List ℕ) → IsRead read found.new at.new (reply_at request id found.old at.old (bytes.now ++ more)) (reply_at request id found.new at.new (bytes.now ++ more))) }
    ensures waits { result ≡ Ok Read.Waits → decode_of (drop at.new bytes.now) ≡ unfinished }
{
    loop {
        let (_, rest) = bytes.split_at(*at);
        match next_step(alloc, request, id, rest)? {
            Step::Waits => return Ok(Read::Waits),
            Step::Passed(used) => *at += used as usize,
            Step::Found(entry, used) => {
                found.push(entry)?;
                *at += used as usize;
            }
            Step::Ended(code, used) => {
                *at += used as usize;
                return Ok(Read::Ended(code));
            }
            Step::Failed(why) => return Ok(Read::Failed(why)),
        }
    }
}
