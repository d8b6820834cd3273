// What the directory tells of users, groups, this host and the access rules.
ghost use Rattle.std.specs.Prelude.{◌≡◌};

use sd_base::{Copied, Items, Memory, Shared, Text, Texts};

/// A user: posixAccount of RFC 2307.
#[derive(Debug, PartialEq, Eq)]
pub struct User {
    pub dn: Text,
    pub name: Text,
    pub uid: u32,
    pub gid: u32,
    pub gecos: Text,
    pub home: Text,
    pub shell: Text,
}

impl Drop for User {
    fn drop(self) {
        let User {
            dn: _,
            name: _,
            uid: _,
            gid: _,
            gecos: _,
            home: _,
            shell: _,
        } = self;
    }
}

impl User {
    /// Its name.
    pub fn into_name(self) -> Text
        ensures { result ≡ self.name }
    {
        let User {
            dn: _,
            name,
            uid: _,
            gid: _,
            gecos: _,
            home: _,
            shell: _,
        } = self;
        name
    }
}

/// A group, whose members are user names in byte order: posixGroup, with members by name as RFC 2307bis nests them.
#[derive(Debug, PartialEq, Eq)]
pub struct Group {
    pub dn: Text,
    pub name: Text,
    pub gid: u32,
    pub members: Texts,
}

impl Drop for Group {
    fn drop(self) {
        let Group {
            dn: _,
            name: _,
            gid: _,
            members: _,
        } = self;
    }
}

impl Group {
    /// Its name.
    pub fn into_name(self) -> Text
        ensures { result ≡ self.name }
    {
        let Group {
            dn: _,
            name,
            gid: _,
            members: _,
        } = self;
        name
    }
}

/// A group that a user is in; its number is there where the directory gives one.
#[derive(Debug, Drop, PartialEq, Eq)]
pub struct GroupRef {
    pub name: Text,
    pub gid: Option<u32>,
}

/// A list of groups that a user is in.
pub type GroupRefs = Items<GroupRef>;

/// The groups of a user, in byte order of their names.
#[derive(Debug, PartialEq, Eq)]
pub struct Groups {
    pub user: Text,
    pub groups: GroupRefs,
}

impl Drop for Groups {
    fn drop(self) {
        let Groups { user: _, groups: _ } = self;
    }
}

/// A host and its host groups.
#[derive(Debug, PartialEq, Eq)]
pub struct Host {
    pub name: Text,
    pub groups: Texts,
}

impl Drop for Host {
    fn drop(self) {
        let Host { name: _, groups: _ } = self;
    }
}

/// One side of an access rule: everything, or things by name and by group.
#[derive(Debug, PartialEq, Eq)]
pub struct Element {
    pub all: bool,
    pub names: Texts,
    pub groups: Texts,
}

impl Drop for Element {
    fn drop(self) {
        let Element {
            all: _,
            names: _,
            groups: _,
        } = self;
    }
}

/// An access rule: ipaHBACRule of FreeIPA.
#[derive(Debug, PartialEq, Eq)]
pub struct Rule {
    pub name: Text,
    pub enabled: bool,
    pub users: Element,
    pub hosts: Element,
    pub services: Element,
}

impl Drop for Rule {
    fn drop(self) {
        let Rule {
            name: _,
            enabled: _,
            users: _,
            hosts: _,
            services: _,
        } = self;
    }
}

/// A service that rules name, and its service groups: ipaHBACService of FreeIPA.
#[derive(Debug, PartialEq, Eq)]
pub struct Service {
    pub name: Text,
    pub groups: Texts,
}

impl Drop for Service {
    fn drop(self) {
        let Service { name: _, groups: _ } = self;
    }
}

/// A list of access rules.
pub type RuleList = Items<Rule>;

/// A list of services.
pub type ServiceList = Items<Service>;

/// All access rules and services of the directory, in its order.
#[derive(Debug, PartialEq, Eq)]
pub struct RuleBook {
    pub rules: RuleList,
    pub services: ServiceList,
}

impl Drop for RuleBook {
    fn drop(self) {
        let RuleBook {
            rules: _,
            services: _,
        } = self;
    }
}

/// What the directory found for a key.
#[derive(Debug, Drop, PartialEq, Eq)]
pub enum Record {
    User(User),
    Group(Group),
    Groups(Groups),
    Host(Host),
    Rules(RuleBook),
}

/// The directory's answer to a key. A record is shared by all that speak of it: the journal, and who is told it.
#[derive(Debug, Drop, PartialEq, Eq)]
pub enum Answered {
    Found(Shared<Record>),
    Absent,
}

impl Copied for User {
    fn copy(&self) -> Result<User, Memory> {
        Ok(User {
            dn: self.dn.copy()?,
            name: self.name.copy()?,
            uid: self.uid,
            gid: self.gid,
            gecos: self.gecos.copy()?,
            home: self.home.copy()?,
            shell: self.shell.copy()?,
        })
    }
}

impl Copied for Group {
    fn copy(&self) -> Result<Group, Memory> {
        Ok(Group {
            dn: self.dn.copy()?,
            name: self.name.copy()?,
            gid: self.gid,
            members: self.members.copy()?,
        })
    }
}

impl Copied for GroupRef {
    fn copy(&self) -> Result<GroupRef, Memory> {
        Ok(GroupRef {
            name: self.name.copy()?,
            gid: self.gid,
        })
    }
}

impl Copied for Answered {
    fn copy(&self) -> Result<Answered, Memory> {
        match self {
            Answered::Found(found) => Ok(Answered::Found(found.copy()?)),
            Answered::Absent => Ok(Answered::Absent),
        }
    }
}
