//! What a directory says of the sudo rules of a user.
ghost use Rattle.std.specs.Prelude.{◌≡◌, false, IfOk, IfErr};
ghost use Rattle.sd_places.specs.Keeping.{kept};
ghost use Rattle.sd_sudo.specs.Lookups.{HaltsBy};
ghost use Rattle.sd_sudo.specs.Answering as answering;

use crate::asker::{asker_of, user_named};
use crate::lookups::Halt;
use crate::rules::rules_in;
use sd_base::Text;
use sd_conf::Config;
use sd_ldap::DirEntry;
use sd_roles::Role;
use sd_rules::User;
use std::alloc::Global;

/// What a directory says of the sudo rules of a user.
#[derive(Drop)]
pub enum Answer {
    /// Nobody has the name, or more than one, or the configuration keeps it out.
    NoUser,
    /// The rules that apply, in their order.
    Rules(Vec<Role>),
}

/// Whether the configuration keeps a name out.
fn is_filtered(config: &Config, name: &Text) -> bool
    ensures { result ≡ answering.is_filtered config.now name.now }
{
    let filtered = config.settings.filter_users.items();
    filtered.iter().any(|other| other == name)
}

/// The rules that apply to the user of a name.
fn rules_of(
    alloc: Global,
    config: &Config,
    entries: &[DirEntry],
    name: &Text,
    user: User,
) -> Result<Vec<Role>, Halt>
    ensures rules { IfOk result (λ applied. answering.HasRules config.now (kept entries.now) name.now user applied.items) }
    ensures halt { IfErr result (λ halt. HaltsBy halt (answering.MeetsFor config.now (kept entries.now) name.now user)) }
{
    let asker = asker_of(alloc, config, entries, name, user)?;
    rules_in(alloc, entries, &config.base, &asker)
}

/// The answer for a name that the configuration lets in.
fn answer_for(
    alloc: Global,
    config: &Config,
    entries: &[DirEntry],
    name: &Text,
) -> Result<Answer, Halt>
    requires { answering.is_filtered config.now name.now ≡ false }
    ensures { answering.IsOutcome config.now (kept entries.now) name.now result }
{
    match user_named(alloc, config, entries, name)? {
        Some(user) => Ok(Answer::Rules(rules_of(alloc, config, entries, name, user)?)),
        None => Ok(Answer::NoUser),
    }
}

/// The sudo rules of the directory of these entries that apply to the user of a name. Nothing is sent for a name that
/// the configuration keeps out. An entry of 4 GiB counts as want of memory.
pub fn look(
    alloc: Global,
    config: &Config,
    entries: &[DirEntry],
    name: &Text,
) -> Result<Answer, Halt>
    ensures { answering.IsOutcome config.now (kept entries.now) name.now result }
{
    if is_filtered(config, name) {
        return Ok(Answer::NoUser);
    }
    answer_for(alloc, config, entries, name)
}
