// The requests of clients.
ghost use Rattle.std.specs.Prelude.{◌≡◌};
ghost use Rattle.sd_wire.specs.Frames as frames;

use sd_base::Text;
use sd_rules::What;

/// The most bytes that the body of a request has.
pub const LONGEST_BODY: usize = 65536;

/// The most bytes that the name of a user, a group or a service has.
pub const LONGEST_NAME: usize = 255;

/// The most bytes that a password has.
pub const LONGEST_PASSWORD: usize = 1024;

/// What a client asks. Names and services have 1 to 255 bytes, a password at most 1024.
#[derive(Drop, PartialEq, Eq)]
pub enum Request {
    /// A user by name.
    User(Text),
    /// A user by number.
    Uid(u32),
    /// A group by name.
    Group(Text),
    /// A group by number.
    Gid(u32),
    /// The groups of a user.
    GroupsOf(Text),
    /// A login: the user and the password.
    Login(Text, Text),
    /// An account check: the user and the service.
    Access(Text, Text),
    /// Answers are to be asked anew: sss_cache(8).
    Void(What),
    /// The directory is not to be asked any more.
    Offline,
    /// The directory is to be asked again.
    Online,
    /// The daemon is to end.
    Stop,
}

impl Request {
    /// Whether every user of the host may ask it: lookups, logins and account checks, and no word of an administrator.
    pub fn is_public(&self) -> bool
        ensures { result ≡ frames.is_public self.now }
    {
        match self {
            Request::User(_)
            | Request::Uid(_)
            | Request::Group(_)
            | Request::Gid(_)
            | Request::GroupsOf(_)
            | Request::Login(_, _)
            | Request::Access(_, _) => true,
            Request::Void(_) | Request::Offline | Request::Online | Request::Stop => false,
        }
    }

    /// Whether its texts are within their limits, so that a frame can carry it.
    pub fn is_sound(&self) -> bool
        ensures { result ≡ frames.is_sound self.now }
    {
        match self {
            Request::User(name) | Request::Group(name) | Request::GroupsOf(name) => {
                is_name(name.bytes())
            }
            Request::Login(user, password) => {
                is_name(user.bytes()) && is_password(password.bytes())
            }
            Request::Access(user, service) => is_name(user.bytes()) && is_name(service.bytes()),
            Request::Void(what) => is_sound_what(what),
            Request::Uid(_)
            | Request::Gid(_)
            | Request::Offline
            | Request::Online
            | Request::Stop => true,
        }
    }
}

fn is_sound_what(what: &What) -> bool
    ensures { result ≡ frames.is_sound_what what.now }
{
    match what {
        What::User(name) | What::Group(name) => is_name(name.bytes()),
        What::All | What::Users | What::Groups => true,
    }
}

/// Whether bytes are long enough for a name, and no longer than one.
pub fn is_name(bytes: &[u8]) -> bool
    ensures { result ≡ frames.is_name bytes.now }
{
    !bytes.is_empty() && bytes.len() <= LONGEST_NAME
}

/// Whether bytes are no longer than a password.
pub fn is_password(bytes: &[u8]) -> bool
    ensures { result ≡ frames.is_password bytes.now }
{
    bytes.len() <= LONGEST_PASSWORD
}
