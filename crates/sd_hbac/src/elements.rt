// The elements of a rule, compiled.
ghost use Rattle.std.specs.Prelude.{◌≡◌, ◌++◌, IfOk};
ghost use Rattle.sd_rules.specs.Access as access;
ghost use Rattle.sd_hbac.specs.Compiled as compiled;

use crate::names::Names;
use sd_base::{Copied, Memory, Text, Texts};
use sd_rules::{Element, Service};
use std::alloc::Global;

/// The users or the hosts of a rule: all, or these by their names and by their groups.
pub struct Members {
    all: bool,
    names: Names,
    groups: Names,
}

impl Drop for Members {
    fn drop(self) {
        let Members {
            all: _,
            names: _,
            groups: _,
        } = self;
    }
}

/// The services of a rule: all, or these by their names, those of its groups among them.
#[derive(Drop)]
pub struct Served {
    all: bool,
    names: Names,
}

impl Members {
    /// The members that an element names.
    #[tactic(auto, using(crate::proofs::Compiling::members_of))]
    pub fn of(alloc: Global, element: &Element) -> Result<Members, Memory>
        ensures { IfOk result (compiled.IsMembersOf element.now) }
    {
        Ok(Members {
            all: element.all,
            names: Names::of(alloc, &element.names)?,
            groups: Names::of(alloc, &element.groups)?,
        })
    }

    /// Whether one of this name, in these groups, is among them.
    pub fn hold(&self, name: &Text, groups: &Texts) -> bool
        ensures { result ≡ compiled.members_hold self.now name.now groups.now }
    {
        self.all || self.names.hold(name) || self.groups.share(groups)
    }
}

/// The names of an element and those of the services in its groups.
fn with_grouped(services: &[Service], names: &Texts, groups: &Names) -> Result<Texts, Memory>
    ensures { IfOk result (λ made. made ≡ names.now ++ compiled.grouped services.now groups.now) }
{
    let mut made = names.copy()?;
    for service in services {
        if groups.share(&service.groups) {
            made.push(service.name.copy()?)?;
        }
    }
    Ok(made)
}

impl Served {
    /// The services that an element names, where each service is in its groups.
    pub fn of(alloc: Global, services: &[Service], element: &Element) -> Result<Served, Memory>
        ensures { IfOk result (compiled.IsServedOf services.now element.now) }
    {
        let groups = Names::of(alloc, &element.groups)?;
        let names = with_grouped(services, &element.names, &groups)?;
        Ok(Served {
            all: element.all,
            names: Names::of(alloc, &names)?,
        })
    }

    /// Whether a service of this name is among them.
    pub fn hold(&self, name: &Text) -> bool
        ensures { result ≡ compiled.served_hold self.now name.now }
    {
        self.all || self.names.hold(name)
    }
}
