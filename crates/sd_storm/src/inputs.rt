//! What the clients send.
ghost use Rattle.std.specs.Prelude.{◌≡◌, ℕ, IfOk, OnOk, vec_len};

use crate::users::user_name;
use sd_base::Memory;
use sd_wire::{Request, write_frame};
use std::alloc::Global;

/// How many sessions there are.
pub const SESSIONS: usize = 8;

/// Appends the frame of a lookup. No name of a user is too long for one.
fn push_lookup(alloc: Global, input: &mut Vec<u8>, user: u32) -> Result<(), Memory> {
    let request = Request::User(user_name(alloc, user)?);
    if !request.is_sound() {
        return Err(Memory);
    }
    write_frame(input, &request)
}

/// What is sent over each session where these users are asked for: the first request goes to the second session, and so on in turn.
pub fn inputs_of(alloc: Global, users: &[u32]) -> Result<Vec<Vec<u8>>, Memory> {
    let mut inputs = Vec::new(alloc);
    for _ in 0..SESSIONS {
        inputs.push(Vec::new(alloc))?;
    }
    for (place, user) in users.iter().enumerate() {
        let session = (place % SESSIONS + 1) % SESSIONS;
        if let Some(input) = inputs.get_mut(session) {
            push_lookup(alloc, input, *user)?;
        }
    }
    Ok(inputs)
}
