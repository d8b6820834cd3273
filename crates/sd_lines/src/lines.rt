// What lines of a scenario ask for.
ghost use Rattle.std.specs.Prelude.{◌≡◌};
ghost use Rattle.sd_lines.specs.Lines as lines;

use sd_base::{Items, Text, Texts};
use sd_ldap::DirEntries;
use sd_rules::What;
use sd_stub::Mode;

/// A user's entry: its name, its numbers, and its password, where it has one.
pub struct UserLine {
    pub name: Text,
    pub uid: u32,
    pub gid: u32,
    pub password: Option<Text>,
}

impl Drop for UserLine {
    fn drop(self) {
        let UserLine {
            name: _,
            uid: _,
            gid: _,
            password: _,
        } = self;
    }
}

/// A member of a group, by its name.
#[derive(Drop)]
pub enum Member {
    User(Text),
    Group(Text),
}

pub type Members = Items<Member>;

/// A group's entry.
pub struct GroupLine {
    pub name: Text,
    pub gid: u32,
    pub members: Members,
}

impl Drop for GroupLine {
    fn drop(self) {
        let GroupLine {
            name: _,
            gid: _,
            members: _,
        } = self;
    }
}

/// A host's entry, and the host groups that it is in.
pub struct HostLine {
    pub name: Text,
    pub groups: Texts,
}

impl Drop for HostLine {
    fn drop(self) {
        let HostLine { name: _, groups: _ } = self;
    }
}

/// A service's entry, and the service groups that it is in.
pub struct ServiceLine {
    pub name: Text,
    pub groups: Texts,
}

impl Drop for ServiceLine {
    fn drop(self) {
        let ServiceLine { name: _, groups: _ } = self;
    }
}

/// What a condition of an access rule is about.
#[derive(Clone, Copy, PartialEq, Eq)]
pub enum Side {
    User,
    Host,
    Service,
}

/// Whom a condition of an access rule meets: all of its side, one of this name, or those in this group.
#[derive(Drop)]
pub enum Whom {
    All,
    Name(Text),
    Group(Text),
}

/// A condition of an access rule.
#[derive(Drop)]
pub struct Item {
    pub side: Side,
    pub whom: Whom,
}

pub type ItemList = Items<Item>;

/// The entry of an access rule (FreeIPA's host-based access control).
pub struct RuleLine {
    pub name: Text,
    pub is_enabled: bool,
    pub items: ItemList,
}

impl Drop for RuleLine {
    fn drop(self) {
        let RuleLine {
            name: _,
            is_enabled: _,
            items: _,
        } = self;
    }
}

/// The kinds of entries that a line of their own puts.
#[derive(Clone, Copy, PartialEq, Eq)]
pub enum Kind {
    User,
    Group,
    Host,
    Service,
    Rule,
}

/// What a line asks for. Tasks are numbered from 1, servers from 0.
#[derive(Drop)]
pub enum Line {
    /// Nothing: an empty line or a comment.
    Blank,
    /// The moment handed in from here on, in seconds.
    At(u64),
    /// A user's entry is put.
    User(UserLine),
    /// A group's entry is put.
    Group(GroupLine),
    /// A host's entry is put.
    Host(HostLine),
    /// A service's entry is put.
    Service(ServiceLine),
    /// An access rule's entry is put.
    Rule(RuleLine),
    /// The entry of this kind and name is taken out.
    Remove(Kind, Text),
    /// These entries are put, one after the other. It is a block of lines; no line alone asks for it.
    Ldif(DirEntries),
    /// From here on this server behaves so.
    Server(u32, Mode),
    /// A task is made, which looks up a user by name.
    GetUser(Text),
    /// A task is made, which looks up a user by its number.
    GetUid(u32),
    /// A task is made, which looks up a group by name.
    GetGroup(Text),
    /// A task is made, which looks up a group by its number.
    GetGid(u32),
    /// A task is made, which looks up the groups of the user of this name.
    GroupsOf(Text),
    /// A task is made, which logs a user in: the user's name and the password, which may be empty.
    Login(Text, Text),
    /// A task is made, which checks an account: the names of the user and the service.
    Access(Text, Text),
    /// These answers are invalidated.
    Void(What),
    /// The operator says that no server can be reached.
    Offline,
    /// The operator says that servers can be reached again.
    Online,
    /// Tasks that follow are made and do nothing yet.
    Hold,
    /// The hold ends, and the tasks run.
    Go,
    /// This task makes so many events.
    Step(u64, u64),
    /// This task leaves.
    Abandon(u64),
    /// The core forgets the entries that no later event can look at.
    Forget,
    /// The journal is printed.
    Journal,
    /// The line has no form.
    Bad,
}

/// Whether a line is passed over.
pub fn is_blank(line: &Line) -> bool
    ensures { result ≡ lines.is_blank line.now }
{
    matches!(line, Line::Blank)
}
