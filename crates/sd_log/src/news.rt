//! What can be news.
use sd_base::Text;

/// How much is logged. Each level has what those before it have.
#[derive(Clone, Copy, PartialEq, Eq)]
pub enum Level {
    /// What keeps users from being served.
    Errors,
    /// And what changes: starts, returns of servers, an administrator's commands.
    Changes,
    /// And each login and account check.
    Logins,
    /// And each lookup.
    Everything,
}

/// A server, by its number in the journal, its name and its port.
#[derive(Drop)]
pub struct Place {
    pub number: u32,
    pub host: Text,
    pub port: u16,
}

/// Why a server counts as one that fell.
#[derive(Clone, Copy, PartialEq, Eq)]
pub enum Fallen {
    NoConnection,
    TimedOut,
    Closed,
    /// The bytes received are no message, by the place of the first that is wrong.
    Bytes(u64),
    /// The result code.
    Code(u32),
    /// A message of this tag came where its request expects another.
    Message(u8),
    /// So many bytes came, more than one link may give.
    Flood(u64),
}

/// A command of an administrator.
#[derive(Drop)]
pub enum Order {
    Offline,
    Online,
    Stop,
    All,
    Users,
    Groups,
    User(Text),
    Group(Text),
}

/// What a client asked.
#[derive(Drop)]
pub enum Asked {
    User(Text),
    Uid(u32),
    Group(Text),
    Gid(u32),
    GroupsOf(Text),
    /// A login of this user.
    Login(Text),
    /// An account check of a user for a service.
    Access(Text, Text),
    Order(Order),
}

/// What a client was told, without the record. Numbers are those of entries, moments are seconds.
#[derive(Drop)]
pub enum Told {
    Found(u64),
    Absent(u64),
    /// An earlier answer, and the outage.
    Old(u64, u64),
    OldNone(u64, u64),
    Dark(u64),
    Filtered,
    Refused(u64),
    Many(u64),
    Dropped(u64),
    DeniedEmpty,
    AcceptedOnline(u64),
    WrongOnline(u64),
    AcceptedOffline(u64),
    WrongOffline(u64),
    Expired(u64),
    Blocked(u64),
    /// Blocked until an online login.
    BlockedOnline,
    NoHash,
    GrantedPermit(u64),
    GrantedSimple(u64),
    /// The entry, and the rule's name as it was told.
    GrantedRule(u64, Text),
    DeniedDeny(u64),
    DeniedSimple(u64),
    DeniedNoRule(u64),
    Done(u64),
    /// Nothing of these.
    Other,
}

/// What may be logged.
#[derive(Drop)]
pub enum News {
    Fell(Place, Fallen),
    Returned(Place),
    /// An outage begins, since no server answers.
    OutageBegan(u64),
    /// An outage begins by an administrator's word.
    OutageOrdered(u64),
    /// The directory answers after this outage, by this entry.
    OutageEnded(u64, u64),
    /// An administrator ended this outage.
    OutageLifted(u64),
    /// The directory refuses, with this result code.
    Refuses(u64),
    /// So many entries fit where one may.
    Fits(u64),
    Answered(Asked, Told),
    /// The journal was looked after for so many milliseconds, of which the store took the second.
    Slow(u64, u64),
    /// A line of the configuration has an option without effect: its number, section and key.
    PassedOver(u32, Text, Text),
    /// The same, of an option that the modules of the host have.
    OfModules(u32, Text, Text),
    /// A line names a provider of logins that is not asked.
    OtherProvider(u32, Text),
    /// The search base of this line has a scope or a filter.
    BaseWithFilter(u32),
    /// Passwords go to this server in clear.
    InClear(Place),
    JournalFills,
    JournalHasRoom,
    StoreUnwritten,
    StoreWritten,
}
