//! The rules of a directory that apply to one who asks.
ghost use Rattle.std.specs.Prelude.{◌≡◌, true, IfOk, IfErr};
ghost use Rattle.sd_dial.specs.Rooms.{are_short};
ghost use Rattle.sd_places.specs.Keeping.{kept};
ghost use Rattle.sd_stub_link.specs.Distinct.{have_own_dns};
ghost use Rattle.sd_sudo.specs.Lookups.{HaltsBy};
ghost use Rattle.sd_sudo.specs.Speaking as speaking;
ghost use Rattle.sd_sudo.specs.Standing.{NetsMeet};
ghost use Rattle.sd_sudo.specs.Ruling.{AreNets, AreChosen, AreRules, RulesMeet};

use crate::applied::rules_applied;
use crate::lookups::Halt;
use crate::nets::{nets_asked, nets_with};
use crate::roles::roles_under;
use sd_base::{Memory, Text};
use sd_ldap::DirEntry;
use sd_provider::short_directory;
use sd_roles::{Asker, Nets, Role};
use sd_stub::Directory;
use std::alloc::Global;

/// Those of the netgroups of which the rules speak in which a user stands.
fn nets_for(
    alloc: Global,
    directory: &Directory,
    base: &Text,
    user: &Text,
    roles: &[Role],
) -> Result<Nets, Halt>
    requires own { have_own_dns directory.now ≡ true }
    requires short { are_short directory.now ≡ true }
    ensures nets { IfOk result (λ nets. AreNets directory.now base.now user.now roles.now nets) }
    ensures halt { IfErr result (λ halt. HaltsBy halt (NetsMeet directory.now base.now (speaking.nets_asked roles.now))) }
{
    let asked = nets_asked(alloc, roles)?;
    nets_with(alloc, directory, base, user, asked.as_slice())
}

/// Those of the rules that apply to an asker, in their order.
fn chosen(
    alloc: Global,
    directory: &Directory,
    base: &Text,
    asker: &Asker,
    roles: Vec<Role>,
) -> Result<Vec<Role>, Halt>
    requires own { have_own_dns directory.now ≡ true }
    requires short { are_short directory.now ≡ true }
    ensures chosen { IfOk result (λ applied. AreChosen directory.now base.now asker.now roles.items applied.items) }
    ensures halt { IfErr result (λ halt. HaltsBy halt (NetsMeet directory.now base.now (speaking.nets_asked roles.items))) }
{
    let nets = nets_for(alloc, directory, base, &asker.user.name, &roles)?;
    match rules_applied(roles, asker, &nets) {
        Ok(applied) => Ok(applied),
        Err(Memory) => Err(Halt::Memory),
    }
}

/// The rules of a directory that apply to an asker.
fn rules_for(
    alloc: Global,
    directory: &Directory,
    base: &Text,
    asker: &Asker,
) -> Result<Vec<Role>, Halt>
    requires own { have_own_dns directory.now ≡ true }
    requires short { are_short directory.now ≡ true }
    ensures rules { IfOk result (λ applied. AreRules directory.now base.now asker.now applied.items) }
    ensures halt { IfErr result (λ halt. HaltsBy halt (RulesMeet directory.now base.now)) }
{
    let roles = roles_under(alloc, directory, base)?;
    chosen(alloc, directory, base, asker, roles)
}

/// The rules of the directory of these entries that apply to an asker. An entry of 4 GiB counts as want of memory.
pub fn rules_in(
    alloc: Global,
    entries: &[DirEntry],
    base: &Text,
    asker: &Asker,
) -> Result<Vec<Role>, Halt>
    ensures rules { IfOk result (λ applied. AreRules (kept entries.now) base.now asker.now applied.items) }
    ensures halt { IfErr result (λ halt. HaltsBy halt (RulesMeet (kept entries.now) base.now)) }
{
    let directory = short_directory(alloc, entries)?;
    rules_for(alloc, &directory, base, asker)
}
