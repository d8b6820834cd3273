// The rows of logins and of servers, by what is found of all users and servers.
ghost use Rattle.std.specs.Prelude.{◌≡◌, List, true, false, IfOk, Some, None, if◌then◌else◌};
ghost use Rattle.std.specs.Option.{option_copied};
ghost use Rattle.sd_rules.specs.declared.replies.Entry.{Entry};
ghost use Rattle.sd_rules.specs.declared.events.Row.TheVariants as rows;
ghost use Rattle.sd_rules.specs.KeptRows as kept;
ghost use Rattle.sd_rules.specs.Logins as logins;
ghost use Rattle.sd_rules.specs.Needed as needed;
ghost use Rattle.sd_findings.specs.Falls.{HoldFalls};
ghost use Rattle.sd_findings.specs.Users as users;

use sd_base::{Copied, Memory, Shared, Text};
use sd_findings::servers::{Falls, is_fall_needed};
use sd_findings::users::{Names, Users};
use sd_keeping::readings::hash_of_event;
use sd_needs::readings::is_number;
use sd_rules::{Entry, Event, Hash, Row};
use std::alloc::Global;

/// The number that is kept under a name.
fn number_under(names: &Names, name: &Text) -> Option<u64>
    ensures { result ≡ users.number_under names.now.entries name.now }
{
    names.get(name).copied()
}

/// Whether the entry of a number is the hash entry of a user.
#[tactic(auto, using(sd_findings::proofs::UserLaws::login_is))]
fn is_hashed(found: &Users, number: u64, user: &Text) -> bool
    ensures { (past : List Entry) → users.HoldUsers past found.now → result ≡ needed.is_login number (logins.hash_entry past user.now) }
{
    is_number(number, number_under(&found.hashes, user))
}

/// Whether the entry of a number, which is not the hash entry of a user, is the last online login of the user: it left no hash then.
#[tactic(auto, using(crate::proofs::LoginLaws::unhashed_is))]
fn is_unhashed(found: &Users, number: u64, user: &Text) -> bool
    ensures { (past : List Entry) → users.HoldUsers past found.now → needed.is_login number (logins.hash_entry past user.now) ≡ false → result ≡ kept.is_unhashed_login number (logins.last_online_login past user.now) }
{
    is_number(number, number_under(&found.logins, user))
}

fn hash_row(
    alloc: Global,
    entry: &Entry,
    user: &Text,
    hash: Option<Hash>,
) -> Result<Option<Row>, Memory>
    ensures { IfOk result (λ row. row ≡ kept.hash_row entry.now user.now hash) }
{
    let Some(hash) = hash else { return Ok(None) };
    let (user, hash) = (user.copy()?, Shared::new(alloc, hash)?);
    Ok(Some(Row::Hash(entry.number, entry.moment, user, hash)))
}

fn login_row_of(
    alloc: Global,
    found: &Users,
    entry: &Entry,
    user: &Text,
) -> Result<Option<Row>, Memory>
    ensures { IfOk result (λ row. (past : List Entry) → users.HoldUsers past found.now → row ≡ kept.login_row past entry.now (Some user.now)) }
{
    if is_hashed(found, entry.number, user) {
        return hash_row(alloc, entry, user, hash_of_event(&entry.event));
    }
    if is_unhashed(found, entry.number, user) {
        return Ok(Some(Row::Online(entry.number, entry.moment, user.copy()?)));
    }
    Ok(None)
}

/// The row of an online login of a user, where there is a user.
pub fn login_row(
    alloc: Global,
    found: &Users,
    entry: &Entry,
    user: Option<&Text>,
) -> Result<Option<Row>, Memory>
    ensures { IfOk result (λ row. (past : List Entry) → users.HoldUsers past found.now → row ≡ kept.login_row past entry.now (option_copied user.entry)) }
{
    match user {
        Some(user) => login_row_of(alloc, found, entry, user),
        None => Ok(None),
    }
}

fn server_row(falls: &Falls, entry: &Entry, server: u32) -> Option<Row>
    ensures { (past : List Entry) → HoldFalls past falls.now.entries → result ≡ (if needed.is_fall_needed past entry.now entry.now.event then Some (rows.Fall entry.now.number entry.now.moment server) else None) }
{
    if is_fall_needed(falls, entry) {
        Some(Row::Fall(entry.number, entry.moment, server))
    } else {
        None
    }
}

/// The row of the last fall of a server.
pub fn fall_row(falls: &Falls, entry: &Entry) -> Option<Row>
    ensures { (past : List Entry) → HoldFalls past falls.now.entries → result ≡ kept.fall_row past entry.now entry.now.event }
{
    match &entry.event {
        Event::Fall(_, server, _) => server_row(falls, entry, *server),
        Event::Kept(Row::Fall(_, _, server)) => server_row(falls, entry, *server),
        _ => None,
    }
}
