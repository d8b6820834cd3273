// The last invalidations, by what they cover: an answer is voided where its number is below a bound.
ghost use Rattle.std.specs.Prelude.{◌≡◌, ℕ, List, max, OnOk, OnErr, if◌then◌else◌};
ghost use Rattle.sd_rules.specs.Keys.{same_name};
ghost use Rattle.sd_voids.specs.Voids as voids;

use indexmap::IndexMap;
use sd_base::{Copied, Memory, Text};
use sd_cache::Primed;
use sd_rules::{Answered, Event, Key, Record, What};
use std::alloc::Global;
use std::marker::Model;

/// The last invalidation of each name, by its number.
pub type Names = IndexMap<Text, u64, Primed>;

/// The number below which the answers about a name are voided; 0 where no invalidation names it.
fn bound_at(names: &Names, name: &Text) -> u64
    ensures { result ≡ voids.bound_at names.now.entries name.now }
{
    // No name is hashed where none was invalidated.
    if names.is_empty() {
        return 0;
    }
    match names.get(name) {
        Some(number) => *number,
        None => 0,
    }
}

/// Notes the last invalidation of a name.
fn set_bound(names: &mut Names, name: &Text, number: u64) -> Result<(), Memory>
    ensures ok { OnOk result ((n : List ℕ) → voids.bound_at names.new.entries n ≡ (if same_name name.now n then number else voids.bound_at names.old.entries n)) }
    ensures err { OnErr result (names.new.entries ≡ names.old.entries) }
{
    let name = name.copy()?;
    names.insert(name, number)?;
    Ok(())
}

/// The last invalidation of each kind, by its number, which contracts see as these numbers.
pub struct Voids {
    all: u64,
    users: u64,
    groups: u64,
    user_names: Names,
    group_names: Names,
}

impl Drop for Voids {
    fn drop(self) {
        let Voids {
            all: _,
            users: _,
            groups: _,
            user_names: _,
            group_names: _,
        } = self;
    }
}

impl Model for Voids {
    ghost use Rattle.sd_voids.specs.Bounds.{Bounds};

    ghost Value = { Bounds };

    ghost view = { λ v. record { all = v.all; users = v.users; groups = v.groups; user_names = v.user_names.entries; group_names = v.group_names.entries } };
}

impl Voids {
    ghost use Rattle.sd_rules.specs.declared.records.Answered.TheVariants as answers;

    /// No invalidation was made; names are hashed so.
    pub fn new(alloc: Global, hasher: Primed) -> Voids
        ensures { result ≡ voids.no_bounds }
    {
        Voids {
            all: 0,
            users: 0,
            groups: 0,
            user_names: IndexMap::with_hasher(alloc, hasher),
            group_names: IndexMap::with_hasher(alloc, hasher),
        }
    }

    fn by_key(&self, own: &Key) -> u64
        ensures { result ≡ voids.by_key self.now own.now }
    {
        match own {
            Key::User(name) | Key::GroupsOf(name) => bound_at(&self.user_names, name),
            Key::Group(name) => bound_at(&self.group_names, name),
            _ => 0,
        }
    }

    fn by_kind(&self, own: &Key) -> u64
        ensures { result ≡ voids.by_kind self.now own.now }
    {
        match own {
            Key::User(_) | Key::Uid(_) | Key::GroupsOf(_) => self.users,
            Key::Group(_) | Key::Gid(_) => self.groups,
            Key::Host | Key::Rules => 0,
        }
    }

    fn by_record(&self, found: &Record) -> u64
        ensures { result ≡ voids.by_found self.now (answers.Found found.now) }
    {
        match found {
            Record::User(user) => bound_at(&self.user_names, &user.name),
            Record::Group(group) => bound_at(&self.group_names, &group.name),
            Record::Groups(_) | Record::Host(_) | Record::Rules(_) => 0,
        }
    }

    fn by_found(&self, answered: &Answered) -> u64
        ensures { result ≡ voids.by_found self.now answered.now }
    {
        match answered {
            Answered::Found(found) => self.by_record(found.value()),
            Answered::Absent => 0,
        }
    }

    /// The number below which what was answered to a key is voided.
    pub fn bound(&self, own: &Key, answered: &Answered) -> u64
        ensures { result ≡ voids.bound_of self.now own.now answered.now }
    {
        let by_name = self.by_key(own).max(self.by_found(answered));
        self.all.max(self.by_kind(own).max(by_name))
    }

    /// Sets the bound of what an invalidation covers.
    fn set(&mut self, what: &What, number: u64) -> Result<(), Memory>
        ensures ok { OnOk result (voids.Sets what.now number self.old self.new) }
        ensures err { OnErr result (self.new ≡ self.old) }
    {
        match what {
            What::All => self.all = number,
            What::Users => self.users = number,
            What::Groups => self.groups = number,
            What::User(name) => set_bound(&mut self.user_names, name, number)?,
            What::Group(name) => set_bound(&mut self.group_names, name, number)?,
        }
        Ok(())
    }

    /// Notes an invalidation by the number of its entry, which is greater than those before it.
    pub fn note(&mut self, what: &What, number: u64) -> Result<(), Memory>
        ensures ok { OnOk result (voids.FollowsVoid what.now number self.old self.new) }
        ensures err { OnErr result (self.new ≡ self.old) }
    {
        self.set(what, number)
    }
}
