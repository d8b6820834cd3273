//! The users of the directory.
use sd_base::{Memory, Text};
use sd_layout::user_entry;
use sd_lines::UserLine;
use sd_stub::Directory;
use sd_wire::fields::push_numbered;
use std::alloc::Global;

/// The directory has the users of the numbers below this.
pub const KNOWN: u32 = 150;

/// The number of the first user.
const FIRST_UID: u32 = 1000;

const GID: u32 = 100;

/// The name of the user of a number: `u7`.
pub fn user_name(alloc: Global, user: u32) -> Result<Text, Memory> {
    let mut name = Vec::new(alloc);
    push_numbered(alloc, &mut name, b"u", u64::from(user))?;
    Text::from_bytes(alloc, &name)
}

/// The directory of the users `u0` to `u149`, below a base.
pub fn known_users(alloc: Global, base: &Text) -> Result<Directory, Memory> {
    let mut entries = Vec::new(alloc);
    for user in 0..KNOWN {
        let line = UserLine {
            name: user_name(alloc, user)?,
            uid: FIRST_UID + user,
            gid: GID,
            password: None,
        };
        entries.push(user_entry(alloc, base, &line)?)?;
    }
    Directory::new(alloc, entries)
}
