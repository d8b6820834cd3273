//! Nested groups, asked for over a client.
ghost use Rattle.std.specs.Prelude.{◌≡◌, true, false, IfOk};
ghost use Rattle.sd_dn.specs.Reading.{is_dn};
ghost use Rattle.sd_asking.specs.Settled.{OverTold};
ghost use Rattle.sd_nested.specs.Rounds.{member_questions, holder_questions};
ghost use Rattle.sd_nested.specs.Paths.{at_or_under, members_of, groups_of_user};
ghost use Rattle.sd_ldap.specs.Values.{search_value};
ghost use Rattle.sd_ldap.specs.Sound.{IsSoundSearch};
ghost use Rattle.sd_fetch.specs.Exchanging.{telling, is_stop};
ghost use Rattle.sd_fetch.specs.Rounding.{Tells, WentOn, IsEarly, Rounded, early_of};

use crate::finding::{Early, ask};
use crate::searches::{holder_search, read_search};
use sd_base::{Memory, Text, Texts, Why};
use sd_client::Client;
use sd_conf::Config;
use sd_dial::{DirectoryLink, Searched};
use sd_dn::Dn;
use sd_ldap::DirEntry;
use sd_nested::{Searcher, Stop, groups_of, members};
use sd_rules::GroupRefs;
use std::alloc::Global;

/// The searcher of nested groups over a client. It asks no more once a search came to no answer.
#[derive(Drop)]
struct Rounds<'a, L: DirectoryLink> {
    alloc: Global,
    client: &'a mut Client<L>,
    base: &'a Text,
    is_stopped: bool,
}

/// Whether what a search came to ends the rounds.
fn ends_rounds(searched: &Searched) -> bool
    ensures { result ≡ is_stop searched.now }
{
    match searched {
        Searched::Entries(_) => false,
        Searched::Code(code) => *code != 32,
        Searched::Failed(_) => true,
        Searched::Memory => true,
    }
}

impl<L: DirectoryLink> Searcher for Rounds<'_, L> {
    ghost tells = { λ r told. Tells (telling L.DirectoryLink) r.client.now r.is_stopped told };

    ghost base = { λ r. r.base.now };

    ghost went = { λ r x s. (s.client.ghost_name ≡ r.client.ghost_name) × (s.base.now ≡ r.base.now) × WentOn (telling L.DirectoryLink) r.base.now r.client.now r.is_stopped x s.client.now s.is_stopped };

    fn read(&mut self, dn: &Text) -> Searched {
        if self.is_stopped {
            return Searched::Memory;
        }
        let Ok(request) = read_search(self.alloc, dn) else {
            self.is_stopped = true;
            return Searched::Memory;
        };
        let searched = ask(self.client, &request);
        self.is_stopped = ends_rounds(&searched);
        searched
    }

    fn holders(&mut self, dn: &Text) -> Searched {
        if self.is_stopped {
            return Searched::Memory;
        }
        let Ok(request) = holder_search(self.alloc, self.base, dn) else {
            self.is_stopped = true;
            return Searched::Memory;
        };
        let searched = ask(self.client, &request);
        self.is_stopped = ends_rounds(&searched);
        searched
    }
}

/// Why rounds stopped, as what ends a lookup.
fn early_by(stop: Stop) -> Early
    ensures { IsEarly stop result }
{
    match stop {
        Stop::Code(51) => Early::Failed(Why::Code(51)),
        Stop::Code(52) => Early::Failed(Why::Code(52)),
        Stop::Code(code) => Early::Refused(code),
        Stop::Failed(why) => Early::Failed(why),
        Stop::Memory => Early::Memory,
    }
}

/// The members of a group, asked for by a searcher that has not stopped.
fn members_by<L: DirectoryLink>(
    alloc: Global,
    rounds: &mut Rounds<'_, L>,
    base: &Dn,
    level: u32,
    group: &DirEntry,
) -> Result<Texts, Early>
    requires { rounds.old.is_stopped ≡ false }
    ensures name { rounds.new.client.ghost_name ≡ rounds.old.client.ghost_name }
    ensures rounded { Rounded (telling L.DirectoryLink) rounds.old.base.now rounds.old.client.now rounds.new.client.now (early_of result) (λ told. member_questions told base.now level group.now) }
    ensures members { OverTold L.DirectoryLink rounds.old.client.now (λ b. IfOk result (λ names. names ≡ members_of b.entries base.now level group.now)) }
{
    match members(alloc, rounds, group, base, level) {
        Ok(names) => Ok(names),
        Err(stop) => Err(early_by(stop)),
    }
}

/// The members of a group.
pub fn read_members<L: DirectoryLink>(
    alloc: Global,
    client: &mut Client<L>,
    config: &Config,
    base: &Dn,
    group: &DirEntry,
) -> Result<Texts, Early>
    ensures rounded { Rounded (telling L.DirectoryLink) config.now.base client.old client.new (early_of result) (λ told. member_questions told base.now config.now.level group.now) }
    ensures members { OverTold L.DirectoryLink client.old (λ b. IfOk result (λ names. names ≡ members_of b.entries base.now config.now.level group.now)) }
{
    let mut rounds = Rounds {
        alloc,
        client,
        base: &config.base,
        is_stopped: false,
    };
    members_by(alloc, &mut rounds, base, config.level, group)
}

/// The groups of a user, asked for by a searcher that has not stopped.
fn groups_by<L: DirectoryLink>(
    alloc: Global,
    rounds: &mut Rounds<'_, L>,
    level: u32,
    user: &DirEntry,
) -> Result<GroupRefs, Early>
    requires { rounds.old.is_stopped ≡ false }
    ensures name { rounds.new.client.ghost_name ≡ rounds.old.client.ghost_name }
    ensures rounded { Rounded (telling L.DirectoryLink) rounds.old.base.now rounds.old.client.now rounds.new.client.now (early_of result) (λ told. holder_questions told rounds.old.base.now level user.now.dn) }
    ensures groups { OverTold L.DirectoryLink rounds.old.client.now (λ b. is_dn user.now.dn ≡ true → IfOk result (λ groups. groups ≡ groups_of_user (at_or_under rounds.old.base.now b.entries) level user.now.dn)) }
{
    match groups_of(alloc, rounds, user, level) {
        Ok(groups) => Ok(groups),
        Err(stop) => Err(early_by(stop)),
    }
}

/// The groups of a user.
pub fn read_groups<L: DirectoryLink>(
    alloc: Global,
    client: &mut Client<L>,
    config: &Config,
    user: &DirEntry,
) -> Result<GroupRefs, Early>
    ensures rounded { Rounded (telling L.DirectoryLink) config.now.base client.old client.new (early_of result) (λ told. holder_questions told config.now.base config.now.level user.now.dn) }
    ensures groups { OverTold L.DirectoryLink client.old (λ b. is_dn user.now.dn ≡ true → IfOk result (λ groups. groups ≡ groups_of_user (at_or_under config.now.base b.entries) config.now.level user.now.dn)) }
{
    let mut rounds = Rounds {
        alloc,
        client,
        base: &config.base,
        is_stopped: false,
    };
    groups_by(alloc, &mut rounds, config.level, user)
}
