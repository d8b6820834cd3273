//! Records of the directory as bytes: the fields in the order in which they stand, and of a variant its place before them.
ghost use Rattle.std.specs.Prelude.{◌≡◌, ◌∷◌, ◌++◌, OnOk};
ghost use Rattle.sd_keeper.specs.Spelling as spelling;
ghost use Rattle.sd_keeper.specs.Reading as reading;

use crate::field::{Field, FieldFault, push_bytes};
use sd_base::{Memory, Shared};
use sd_rules::{
    Answered, Element, Group, GroupRef, Groups, Host, Key, Record, Rule, RuleBook, Service, User,
};
use std::alloc::Global;

impl Field for User {
    ghost spelled = { spelling.user };

    ghost at = { reading.user_at };

    fn spell(&self, out: &mut Vec<u8>) -> Result<(), Memory> {
        self.dn.spell(out)?;
        self.name.spell(out)?;
        self.uid.spell(out)?;
        self.gid.spell(out)?;
        spell_shell(out, self)
    }

    #[tactic(auto, unfolding(crate::specs::Reading::user_at))]
    fn read(alloc: Global, bytes: &[u8]) -> Result<(User, &[u8]), FieldFault> {
        let ((dn, (name, (uid, (gid, (gecos, (home, shell)))))), rest) = Field::read(alloc, bytes)?;
        let user = User {
            dn,
            name,
            uid,
            gid,
            gecos,
            home,
            shell,
        };
        Ok((user, rest))
    }
}

/// What is shown of a user, where it lives and what it runs.
fn spell_shell(out: &mut Vec<u8>, user: &User) -> Result<(), Memory>
    ensures { OnOk result (out.new.items ≡ out.old.items ++ (spelling.text user.now.gecos ++ (spelling.text user.now.home ++ spelling.text user.now.shell))) }
{
    user.gecos.spell(out)?;
    user.home.spell(out)?;
    user.shell.spell(out)
}

impl Field for Group {
    ghost spelled = { spelling.group };

    ghost at = { reading.group_at };

    fn spell(&self, out: &mut Vec<u8>) -> Result<(), Memory> {
        self.dn.spell(out)?;
        self.name.spell(out)?;
        self.gid.spell(out)?;
        self.members.spell(out)
    }

    #[tactic(auto, unfolding(crate::specs::Reading::group_at))]
    fn read(alloc: Global, bytes: &[u8]) -> Result<(Group, &[u8]), FieldFault> {
        let ((dn, (name, (gid, members))), rest) = Field::read(alloc, bytes)?;
        let group = Group {
            dn,
            name,
            gid,
            members,
        };
        Ok((group, rest))
    }
}

impl Field for GroupRef {
    ghost spelled = { spelling.group_ref };

    ghost at = { reading.group_ref_at };

    fn spell(&self, out: &mut Vec<u8>) -> Result<(), Memory> {
        self.name.spell(out)?;
        self.gid.spell(out)
    }

    #[tactic(auto, unfolding(crate::specs::Reading::group_ref_at))]
    fn read(alloc: Global, bytes: &[u8]) -> Result<(GroupRef, &[u8]), FieldFault> {
        let ((name, gid), rest) = Field::read(alloc, bytes)?;
        Ok((GroupRef { name, gid }, rest))
    }
}

impl Field for Groups {
    ghost spelled = { spelling.groups };

    ghost at = { reading.groups_at };

    fn spell(&self, out: &mut Vec<u8>) -> Result<(), Memory> {
        self.user.spell(out)?;
        self.groups.spell(out)
    }

    #[tactic(auto, unfolding(crate::specs::Reading::groups_at))]
    fn read(alloc: Global, bytes: &[u8]) -> Result<(Groups, &[u8]), FieldFault> {
        let ((user, groups), rest) = Field::read(alloc, bytes)?;
        Ok((Groups { user, groups }, rest))
    }
}

impl Field for Host {
    ghost spelled = { spelling.host };

    ghost at = { reading.host_at };

    fn spell(&self, out: &mut Vec<u8>) -> Result<(), Memory> {
        self.name.spell(out)?;
        self.groups.spell(out)
    }

    #[tactic(auto, unfolding(crate::specs::Reading::host_at))]
    fn read(alloc: Global, bytes: &[u8]) -> Result<(Host, &[u8]), FieldFault> {
        let ((name, groups), rest) = Field::read(alloc, bytes)?;
        Ok((Host { name, groups }, rest))
    }
}

impl Field for Element {
    ghost spelled = { spelling.element };

    ghost at = { reading.element_at };

    fn spell(&self, out: &mut Vec<u8>) -> Result<(), Memory> {
        self.all.spell(out)?;
        self.names.spell(out)?;
        self.groups.spell(out)
    }

    #[tactic(auto, unfolding(crate::specs::Reading::element_at))]
    fn read(alloc: Global, bytes: &[u8]) -> Result<(Element, &[u8]), FieldFault> {
        let ((all, (names, groups)), rest) = Field::read(alloc, bytes)?;
        Ok((Element { all, names, groups }, rest))
    }
}

impl Field for Rule {
    ghost spelled = { spelling.rule };

    ghost at = { reading.rule_at };

    fn spell(&self, out: &mut Vec<u8>) -> Result<(), Memory> {
        self.name.spell(out)?;
        self.enabled.spell(out)?;
        self.users.spell(out)?;
        self.hosts.spell(out)?;
        self.services.spell(out)
    }

    #[tactic(auto, unfolding(crate::specs::Reading::rule_at))]
    fn read(alloc: Global, bytes: &[u8]) -> Result<(Rule, &[u8]), FieldFault> {
        let ((name, (enabled, (users, (hosts, services)))), rest) = Field::read(alloc, bytes)?;
        let rule = Rule {
            name,
            enabled,
            users,
            hosts,
            services,
        };
        Ok((rule, rest))
    }
}

impl Field for Service {
    ghost spelled = { spelling.service };

    ghost at = { reading.service_at };

    fn spell(&self, out: &mut Vec<u8>) -> Result<(), Memory> {
        self.name.spell(out)?;
        self.groups.spell(out)
    }

    #[tactic(auto, unfolding(crate::specs::Reading::service_at))]
    fn read(alloc: Global, bytes: &[u8]) -> Result<(Service, &[u8]), FieldFault> {
        let ((name, groups), rest) = Field::read(alloc, bytes)?;
        Ok((Service { name, groups }, rest))
    }
}

impl Field for RuleBook {
    ghost spelled = { spelling.book };

    ghost at = { reading.book_at };

    fn spell(&self, out: &mut Vec<u8>) -> Result<(), Memory> {
        self.rules.spell(out)?;
        self.services.spell(out)
    }

    #[tactic(auto, unfolding(crate::specs::Reading::book_at))]
    fn read(alloc: Global, bytes: &[u8]) -> Result<(RuleBook, &[u8]), FieldFault> {
        let ((rules, services), rest) = Field::read(alloc, bytes)?;
        Ok((RuleBook { rules, services }, rest))
    }
}

impl Field for Record {
    ghost spelled = { spelling.found };

    ghost at = { reading.record_at };

    fn spell(&self, out: &mut Vec<u8>) -> Result<(), Memory> {
        match self {
            Record::User(user) => push_variant(out, 0, user),
            Record::Group(group) => push_variant(out, 1, group),
            Record::Groups(groups) => push_variant(out, 2, groups),
            Record::Host(host) => push_variant(out, 3, host),
            Record::Rules(book) => push_variant(out, 4, book),
        }
    }

    #[tactic(auto, unfolding(crate::specs::Reading::record_at))]
    fn read(alloc: Global, bytes: &[u8]) -> Result<(Record, &[u8]), FieldFault> {
        let [kind, rest @ ..] = bytes else {
            return Err(FieldFault::Bad);
        };
        read_record(alloc, *kind, rest)
    }
}

/// The record of this kind, and what is behind it.
fn read_record(alloc: Global, kind: u8, bytes: &[u8]) -> Result<(Record, &[u8]), FieldFault>
    ensures { reading.Gives (λ x. (x.0, x.1.now)) result (reading.record_by kind bytes.now) }
{
    match kind {
        0 => {
            let (user, rest) = User::read(alloc, bytes)?;
            Ok((Record::User(user), rest))
        }
        1 => {
            let (group, rest) = Group::read(alloc, bytes)?;
            Ok((Record::Group(group), rest))
        }
        2 => {
            let (groups, rest) = Groups::read(alloc, bytes)?;
            Ok((Record::Groups(groups), rest))
        }
        3 => {
            let (host, rest) = Host::read(alloc, bytes)?;
            Ok((Record::Host(host), rest))
        }
        4 => {
            let (book, rest) = RuleBook::read(alloc, bytes)?;
            Ok((Record::Rules(book), rest))
        }
        _ => Err(FieldFault::Bad),
    }
}

/// A variant: its place among the variants, and what it holds.
fn push_variant<T: Field>(out: &mut Vec<u8>, place: u8, held: &T) -> Result<(), Memory>
    ensures { OnOk result (out.new.items ≡ out.old.items ++ place ∷ T.spelled held.now) }
{
    push_bytes(out, &[place])?;
    held.spell(out)
}

impl Field for Answered {
    ghost spelled = { spelling.answer };

    ghost at = { reading.answer_at };

    fn spell(&self, out: &mut Vec<u8>) -> Result<(), Memory> {
        match self {
            Answered::Found(found) => push_variant(out, 0, found.value()),
            Answered::Absent => push_bytes(out, &[1]),
        }
    }

    #[tactic(auto, unfolding(crate::specs::Reading::answer_at))]
    fn read(alloc: Global, bytes: &[u8]) -> Result<(Answered, &[u8]), FieldFault> {
        match bytes {
            [0, rest @ ..] => {
                let (found, rest) = Record::read(alloc, rest)?;
                let found = Shared::new(alloc, found)?;
                Ok((Answered::Found(found), rest))
            }
            [1, rest @ ..] => Ok((Answered::Absent, rest)),
            _ => Err(FieldFault::Bad),
        }
    }
}

impl Field for Key {
    ghost spelled = { spelling.key };

    ghost at = { reading.key_at };

    fn spell(&self, out: &mut Vec<u8>) -> Result<(), Memory> {
        match self {
            Key::User(name) => push_variant(out, 0, name),
            Key::Uid(uid) => push_variant(out, 1, uid),
            Key::Group(name) => push_variant(out, 2, name),
            Key::Gid(gid) => push_variant(out, 3, gid),
            Key::GroupsOf(name) => push_variant(out, 4, name),
            Key::Host => push_bytes(out, &[5]),
            Key::Rules => push_bytes(out, &[6]),
        }
    }

    #[tactic(auto, unfolding(crate::specs::Reading::key_at))]
    fn read(alloc: Global, bytes: &[u8]) -> Result<(Key, &[u8]), FieldFault> {
        let [kind, rest @ ..] = bytes else {
            return Err(FieldFault::Bad);
        };
        read_key(alloc, *kind, rest)
    }
}

/// The key of this kind, and what is behind it.
fn read_key(alloc: Global, kind: u8, bytes: &[u8]) -> Result<(Key, &[u8]), FieldFault>
    ensures { reading.Gives (λ x. (x.0, x.1.now)) result (reading.key_by kind bytes.now) }
{
    match kind {
        0 => {
            let (name, rest) = Field::read(alloc, bytes)?;
            Ok((Key::User(name), rest))
        }
        1 => {
            let (uid, rest) = Field::read(alloc, bytes)?;
            Ok((Key::Uid(uid), rest))
        }
        2 => {
            let (name, rest) = Field::read(alloc, bytes)?;
            Ok((Key::Group(name), rest))
        }
        3 => {
            let (gid, rest) = Field::read(alloc, bytes)?;
            Ok((Key::Gid(gid), rest))
        }
        4 => {
            let (name, rest) = Field::read(alloc, bytes)?;
            Ok((Key::GroupsOf(name), rest))
        }
        5 => Ok((Key::Host, bytes)),
        6 => Ok((Key::Rules, bytes)),
        _ => Err(FieldFault::Bad),
    }
}
