//! The users that are asked for.
ghost use Rattle.std.specs.Prelude.{◌≡◌, IfOk};
ghost use Rattle.sd_storm.specs.Asked as asked;

use sd_base::Memory;
use std::alloc::Global;

/// Users are asked for by the numbers below this.
pub const USERS: u32 = 200;

/// The state behind a state, of a linear congruential generator.
fn next_state(state: u32) -> u32
    ensures { result ≡ asked.next_state state }
{
    ((u64::from(state) * 1_103_515_245 + 12_345) % 2_147_483_648) as u32
}

/// The user that is asked for in a state.
fn user_in(state: u32) -> u32
    ensures { result ≡ asked.user_in state }
{
    (state / 65_536) % USERS
}

/// The numbers of the users that so many requests ask for, in their order.
pub fn users_asked(alloc: Global, requests: u32) -> Result<Vec<u32>, Memory>
    ensures { IfOk result (λ users. users.items ≡ asked.users_asked requests) }
{
    let mut users = Vec::new(alloc);
    let mut state = 1;
    for request in 0..requests {
        state = next_state(state);
        users.push(user_in(state))?;
    }
    Ok(users)
}
