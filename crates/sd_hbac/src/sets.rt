// The compiled rules, and the one that grants.
ghost use Rattle.std.specs.Prelude.{◌≡◌, ◌<◌, ◌^◌, length, reverse, IfOk};
ghost use Rattle.std.specs.Option.{option_copied, option_map};
ghost use Rattle.sd_rules.specs.declared.records.RuleBook.{RuleBook};
ghost use Rattle.sd_rules.specs.Access as access;
ghost use Rattle.sd_hbac.specs.Seen as seen;
ghost use Rattle.sd_hbac.specs.Compiled as compiled;

use crate::elements::{Members, Served};
use crate::rules::comes_before;
use sd_base::{Copied, Memory, Text};
use sd_rules::{Rule, RuleBook, Service, Who};
use std::alloc::Global;
use std::marker::Model;

/// An enabled rule: its place in the book, counted from 0, its name, and whom it lets in.
pub struct Set {
    place: u32,
    name: Text,
    users: Members,
    hosts: Members,
    services: Served,
}

impl Drop for Set {
    fn drop(self) {
        let Set {
            place: _,
            name: _,
            users: _,
            hosts: _,
            services: _,
        } = self;
    }
}

/// The enabled rules of a book, compiled; contracts see them in the order of the book.
pub struct Sets {
    /// The last rule of the book first.
    sets: Vec<Set>,
}

impl Drop for Sets {
    fn drop(self) {
        let Sets { sets: _ } = self;
    }
}

impl Model for Sets {
    ghost use Rattle.std.specs.Prelude.{List, reverse};
    ghost use Rattle.sd_hbac.specs.declared.sets.Set.{Set};

    ghost Value = { List Set };

    ghost view = { λ s. reverse s.sets.items };
}

impl Set {
    #[tactic(auto, using(crate::proofs::Compiling::set_of))]
    fn of(alloc: Global, services: &[Service], place: u32, rule: &Rule) -> Result<Set, Memory>
        ensures { IfOk result (compiled.IsSetOf services.now place rule.now) }
    {
        Ok(Set {
            place,
            name: rule.name.copy()?,
            users: Members::of(alloc, &rule.users)?,
            hosts: Members::of(alloc, &rule.hosts)?,
            services: Served::of(alloc, services, &rule.services)?,
        })
    }

    /// Whether the rule lets them in. What is tried first is the same for most rules of a book.
    fn admits(&self, who: &Who<'_>) -> bool
        ensures { result ≡ compiled.admits self.now (seen.asker who.now) }
    {
        self.services.hold(who.service)
            && self.hosts.hold(who.host, who.host_groups)
            && self.users.hold(who.user, who.groups)
    }

    /// Whether the rule's name comes before that of another.
    fn comes_before(&self, other: &Set) -> bool
        ensures { result ≡ access.comes_before self.now.name other.now.name }
    {
        comes_before(&self.name, &other.name)
    }
}

/// The enabled rules, compiled, the last first.
fn compiled(alloc: Global, services: &[Service], rules: &[Rule]) -> Result<Vec<Set>, Memory>
    requires { length rules.now < 2 ^ 32 }
    ensures { IfOk result (λ sets. compiled.CompilesFrom services.now 0 rules.now (reverse sets.items)) }
{
    let mut sets = Vec::new(alloc);
    for place in (0..rules.len()).rev() {
        let rule = &rules[place];
        if rule.enabled {
            sets.push(Set::of(alloc, services, place as u32, rule)?)?;
        }
    }
    Ok(sets)
}

/// Of the rules that let them in, the one of least name, and of these the first of the book.
fn least_admitting<'a>(sets: &'a [Set], who: &Who<'_>) -> Option<&'a Set>
    ensures { option_map compiled.placed (option_copied result) ≡ compiled.least_admitting (reverse sets.now) (seen.asker who.now) }
{
    let mut least: Option<&Set> = None;
    for set in sets {
        if set.admits(who) {
            least = Some(lesser_of(set, least));
        }
    }
    least
}

/// Of two rules the one of the lesser name, and the first where the names are equal.
fn lesser_of<'a>(first: &'a Set, later: Option<&'a Set>) -> &'a Set
    ensures { compiled.placed result.now ≡ access.lesser_of (compiled.placed first.now) (option_map compiled.placed (option_copied later.entry)) }
{
    match later {
        Some(later) if later.comes_before(first) => later,
        _ => first,
    }
}

impl Sets {
    #[tactic(auto, using(crate::proofs::Compiling::compiles_all))]
    /// Compiles the rules of a book: names are lowered and the groups of services resolved once, and rules that are not enabled dropped.
    pub fn compile(alloc: Global, book: &RuleBook) -> Result<Sets, Memory>
        requires { length book.now.rules < 2 ^ 32 }
        ensures { IfOk result (compiled.Compiles book.now) }
    {
        let sets = compiled(alloc, book.services.items(), book.rules.items())?;
        Ok(Sets { sets })
    }

    /// The rule that grants, by its place in the book, counted from 0. It takes no memory.
    pub fn allowed(&self, who: &Who<'_>) -> Option<u32>
        ensures granting { result ≡ compiled.granted self.now (seen.asker who.now) }

        // As the rules themselves, whichever book they were compiled from.
        ensures book { (book : RuleBook) → compiled.Compiles book self.now → result ≡ access.granting_rule book (seen.asker who.now) }
    {
        let least = least_admitting(self.sets.as_slice(), who);
        least.map(|set| set.place)
    }
}
