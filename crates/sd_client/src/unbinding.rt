//! The bytes of an unbind, which take no memory.
ghost use Rattle.std.specs.Prelude.{◌≡◌, ℕ, ◌<◌, ◌≤◌, List, length, take};
ghost use Rattle.sd_ldap.specs.Values.{unbind};
ghost use Rattle.sd_ldap.specs.Spelling.{message_bytes};
ghost use Rattle.sd_client.specs.Replying.{request_message};

/// The bytes of an unbind by an id (RFC 4511 section 4.3), and how many they are.
#[tactic(auto, unfolding(sd_ldap::specs::Spelling::number_bytes, sd_ldap::specs::Spelling::inside))]
pub fn unbind_bytes(id: u32) -> ([u8; 10], usize)
    requires { id ≤ 2147483647 }
    ensures bytes { take result.1 result.0 ≡ message_bytes (request_message id unbind) }
    ensures within { result.1 ≤ 10 }
{
    let [a, b, c, d] = id.to_be_bytes();
    if id < 0x80 {
        return ([0x30, 5, 2, 1, d, 0x42, 0, 0, 0, 0], 7);
    }
    if id < 0x8000 {
        return ([0x30, 6, 2, 2, c, d, 0x42, 0, 0, 0], 8);
    }
    if id < 0x80_0000 {
        return ([0x30, 7, 2, 3, b, c, d, 0x42, 0, 0], 9);
    }
    ([0x30, 8, 2, 4, a, b, c, d, 0x42, 0], 10)
}
