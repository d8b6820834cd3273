// What a client asks for, and what an invalidation names.
use sd_base::{Copied, Memory, Text};

/// What a client asks the daemon for.
#[derive(Debug, Drop, PartialEq, Eq, Hash)]
pub enum Key {
    /// A user by name.
    User(Text),
    /// A user by its number, uidNumber of RFC 2307.
    Uid(u32),
    /// A group by name, with its members.
    Group(Text),
    /// A group by its number, gidNumber of RFC 2307.
    Gid(u32),
    /// The groups of a user, by the user's name.
    GroupsOf(Text),
    /// This host, for account checks.
    Host,
    /// The FreeIPA access rules.
    Rules,
}

impl Copied for Key {
    fn copy(&self) -> Result<Key, Memory> {
        Ok(match self {
            Key::User(name) => Key::User(name.copy()?),
            Key::Uid(uid) => Key::Uid(*uid),
            Key::Group(name) => Key::Group(name.copy()?),
            Key::Gid(gid) => Key::Gid(*gid),
            Key::GroupsOf(name) => Key::GroupsOf(name.copy()?),
            Key::Host => Key::Host,
            Key::Rules => Key::Rules,
        })
    }
}

/// Which answers an invalidation covers, as the options of sss_cache(8) name them.
#[derive(Drop, PartialEq, Eq)]
pub enum What {
    /// Every answer.
    All,
    /// All answers about users.
    Users,
    /// All answers about groups.
    Groups,
    /// The answers about one user.
    User(Text),
    /// The answers about one group.
    Group(Text),
}

impl Copied for What {
    fn copy(&self) -> Result<What, Memory> {
        Ok(match self {
            What::All => What::All,
            What::Users => What::Users,
            What::Groups => What::Groups,
            What::User(name) => What::User(name.copy()?),
            What::Group(name) => What::Group(name.copy()?),
        })
    }
}
