// Account checks, by mode, by the simple lists, or by the access rules of the directory.
ghost use Rattle.std.specs.Prelude.{◌≡◌, ◌<◌, ◌^◌, map, IfOk};
ghost use Rattle.std.specs.Option.{option_map};
ghost use Rattle.sd_rules.specs.declared.keys.Key.TheVariants as keys;
ghost use Rattle.sd_rules.specs.Access as access;
ghost use Rattle.sd_rules.specs.Past as answers;
ghost use Rattle.sd_rules.specs.TextBytes as bytes;
ghost use Rattle.sd_journal.specs.Seen as seen;

use sd_base::{Copied, Memory, Text, Texts};
use sd_books::Ruling;
use sd_hbac::simple;
use sd_journal::past::Standing;
use sd_past::Past;
use sd_rules::{AccessMode, Answered, By, GroupRef, Key, NotBy, Record, Reply, Settings, Who};
use std::alloc::Global;

fn group_names(alloc: Global, groups: &[GroupRef]) -> Result<Texts, Memory>
    ensures { IfOk result (λ names. names ≡ map (λ g. g.name) groups.now) }
{
    let mut names = Texts::new(alloc);
    for group in groups {
        names.push(group.name.copy()?)?;
    }
    Ok(names)
}

fn groups_in_record(alloc: Global, found: &Record) -> Result<Texts, Memory>
    ensures { IfOk result (λ groups. groups ≡ access.groups_in_answer (Answered.Found found.now)) }
{
    match found {
        Record::Groups(groups) => group_names(alloc, groups.groups.items()),
        _ => Ok(Texts::new(alloc)),
    }
}

fn host_groups_in_record(alloc: Global, found: &Record) -> Result<Texts, Memory>
    ensures { IfOk result (λ groups. groups ≡ access.host_groups_in_answer (Answered.Found found.now)) }
{
    match found {
        Record::Host(host) => host.groups.copy(),
        _ => Ok(Texts::new(alloc)),
    }
}

/// The groups of a user, by the answer to the question for them.
fn groups_of_user(alloc: Global, answer: Option<Standing<'_>>) -> Result<Texts, Memory>
    ensures { IfOk result (λ groups. groups ≡ access.groups_of_user (option_map seen.standing answer.entry)) }
{
    match answer {
        Some(a) => match a.answered {
            Answered::Found(found) => groups_in_record(alloc, found.value()),
            Answered::Absent => Ok(Texts::new(alloc)),
        },
        None => Ok(Texts::new(alloc)),
    }
}

/// The groups of this host, by the answer to the question for it.
fn groups_of_host(alloc: Global, answer: Option<Standing<'_>>) -> Result<Texts, Memory>
    ensures { IfOk result (λ groups. groups ≡ access.groups_of_host (option_map seen.standing answer.entry)) }
{
    match answer {
        Some(a) => match a.answered {
            Answered::Found(found) => host_groups_in_record(alloc, found.value()),
            Answered::Absent => Ok(Texts::new(alloc)),
        },
        None => Ok(Texts::new(alloc)),
    }
}

fn user_groups<P: Past>(alloc: Global, past: &P, user: &Text) -> Result<Texts, Memory>
    ensures { IfOk result (λ groups. groups ≡ access.user_groups (P.entries past.now) user.now) }
{
    let key = Key::GroupsOf(user.copy()?);
    groups_of_user(alloc, past.newest(&key))
}

fn reply_by_lists(allowed: bool) -> Reply
    ensures { result ≡ access.reply_by_lists allowed }
{
    if allowed {
        Reply::Granted(By::Simple)
    } else {
        Reply::Denied(NotBy::Simple)
    }
}

fn access_by_rules<P: Past, R: Ruling>(
    alloc: Global,
    settings: &Settings,
    past: &P,
    ruling: &R,
    user: &Text,
    service: &Text,
) -> Result<Reply, Memory>
    requires texts { bytes.text_bytes (P.entries past.now) < 2 ^ 32 }
    requires says { R.Says ruling.now (answers.newest (P.entries past.now) keys.Rules) }
    ensures { IfOk result (λ reply. reply ≡ access.access_by AccessMode.Ipa settings.now (P.entries past.now) user.now service.now) }
{
    let groups = user_groups(alloc, past, user)?;
    let host_groups = groups_of_host(alloc, past.newest(&Key::Host))?;
    let who = Who {
        user,
        groups: &groups,
        service,
        host: &settings.hostname,
        host_groups: &host_groups,
    };
    Ok(ruling.reply(past, &who))
}

/// The reply to an account check of a user at a service.
pub fn access_of<P: Past, R: Ruling>(
    alloc: Global,
    settings: &Settings,
    past: &P,
    ruling: &R,
    user: &Text,
    service: &Text,
) -> Result<Reply, Memory>
    requires texts { bytes.text_bytes (P.entries past.now) < 2 ^ 32 }
    requires says { R.Says ruling.now (answers.newest (P.entries past.now) keys.Rules) }
    ensures { IfOk result (λ reply. reply ≡ access.access_of settings.now (P.entries past.now) user.now service.now) }
{
    match settings.access {
        AccessMode::Permit => Ok(Reply::Granted(By::Permit)),
        AccessMode::Deny => Ok(Reply::Denied(NotBy::Deny)),
        AccessMode::Simple => {
            let groups = user_groups(alloc, past, user)?;
            Ok(reply_by_lists(simple(&settings.simple, user, &groups)))
        }
        AccessMode::Ipa => { access_by_rules(alloc, settings, past, ruling, user, service) },
    }
}
