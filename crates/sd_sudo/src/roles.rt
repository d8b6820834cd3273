//! The sudo rules of a directory in memory, asked for over a link and a client.
ghost use Rattle.std.specs.Prelude.{◌≡◌, ◌++◌, ◌⊎◌, ℕ, List, [], IfOk, IfErr, OnOk, Some, true};
ghost use Rattle.sd_base.specs.declared.Why.TheVariants as whys;
ghost use Rattle.sd_ldap.specs.Sound.{IsSoundSearch};
ghost use Rattle.sd_ldap.specs.Values.{search_value};
ghost use Rattle.sd_ldap.specs.declared.entry.DirEntry.{DirEntry as DirEntryValue};
ghost use Rattle.sd_roles.specs.Roles.{role_of};
ghost use Rattle.sd_dial.specs.Rooms.{are_short};
ghost use Rattle.sd_fetch.specs.Exchanging.{telling, searched_as, Went};
ghost use Rattle.sd_stub.specs.declared.Mode.TheVariants as modes;
ghost use Rattle.sd_stub_link.specs.Distinct.{have_own_dns};
ghost use Rattle.sd_stub_link.specs.Standing.{made};
ghost use Rattle.sd_sudo.specs.Listing.{listed, roles_of};
ghost use Rattle.sd_sudo.specs.Lookups.{HaltsBy, IsMet, role_limit};
ghost use Rattle.sd_sudo.specs.Searches as searches;
ghost use Rattle.sd_sudo.specs.Asking.{HasRoles, RolesBy};

use crate::lookups::Halt;
use crate::searches::role_search;
use sd_asking::search;
use sd_base::{Memory, Text};
use sd_client::Client;
use sd_dial::{DirectoryLink, Searched};
use sd_ldap::{DirEntry, SearchRequest};
use sd_provider::PlainLink;
use sd_roles::{Role, RoleFault, read_role};
use sd_stub::{Directory, Mode};
use std::alloc::Global;

/// Appends the rule that an entry has, where it is one.
fn push_role(alloc: Global, roles: &mut Vec<Role>, entry: &DirEntry) -> Result<(), Memory>
    ensures { OnOk result (roles.new.items ≡ roles.old.items ++ listed (role_of entry.now)) }
{
    match read_role(alloc, entry) {
        Ok(role) => {
            roles.push(role)?;
            Ok(())
        }
        Err(RoleFault::Unfit) => Ok(()),
        Err(RoleFault::Memory) => Err(Memory),
    }
}

fn read_roles(alloc: Global, entries: &[DirEntry]) -> Result<Vec<Role>, Memory>
    ensures { IfOk result (λ roles. roles.items ≡ roles_of entries.now) }
{
    let mut roles = Vec::new(alloc);
    for entry in entries {
        push_role(alloc, &mut roles, entry)?;
    }
    Ok(roles)
}

/// Searches once.
fn ask<L: DirectoryLink>(client: &mut Client<L>, request: &SearchRequest) -> Searched
    requires { IsSoundSearch (search_value request.now) }
    ensures { Went (telling L.DirectoryLink) client.old (searched_as (search_value request.now) result) client.new }
{
    search(client, request)
}

/// Asks over a client that was just made.
fn ask_first(
    client: &mut Client<PlainLink<'_>>,
    directory: &Directory,
    base: &Text,
    request: &SearchRequest,
) -> Searched
    requires own { have_own_dns directory.now ≡ true }
    requires short { are_short directory.now ≡ true }
    requires fresh { client.old ≡ record { link = made directory.now modes.Up [] 0; received = []; at = 0; next = 1; failed = None } }
    requires sound { IsSoundSearch (search_value request.now) }
    requires is { search_value request.now ≡ searches.role_search base.now }
    ensures { ((client.new.failed ≡ Some whys.Link) × (client.new.link.starved ≡ true)) ⊎ RolesBy directory.now base.now result }
{
    ask(client, request)
}

/// The rules that a search came to, unless it met a limit or memory was wanting.
fn roles_from(alloc: Global, searched: Searched) -> Result<Vec<Role>, Halt>
    ensures roles { (entries : List DirEntryValue) (base : List ℕ) → RolesBy entries base searched → IfOk result (λ roles. HasRoles entries base roles.items) }
    ensures halt { (entries : List DirEntryValue) (base : List ℕ) → RolesBy entries base searched → IfErr result (λ halt. HaltsBy halt (IsMet (role_limit entries base))) }
{
    match searched {
        Searched::Entries(entries) => Ok(read_roles(alloc, entries.items())?),
        // A directory in memory gives no other code than 0 and 32, no such object.
        Searched::Code(_) => Ok(Vec::new(alloc)),
        Searched::Failed(_) => Err(Halt::Limit),
        Searched::Memory => Err(Halt::Memory),
    }
}

/// The sudo rules at or under a base, in the directory's order. A link that finds no memory is want of memory.
pub fn roles_under(alloc: Global, directory: &Directory, base: &Text) -> Result<Vec<Role>, Halt>
    requires own { have_own_dns directory.now ≡ true }
    requires short { are_short directory.now ≡ true }
    ensures roles { IfOk result (λ roles. HasRoles directory.now base.now roles.items) }
    ensures halt { IfErr result (λ halt. HaltsBy halt (IsMet (role_limit directory.now base.now))) }
{
    let request = role_search(alloc, base)?;
    let mut client = Client::new(alloc, PlainLink::new(alloc, directory, Mode::Up));
    let searched = ask_first(&mut client, directory, base, &request);
    let link = client.end();
    if link.starved() {
        return Err(Halt::Memory);
    }
    roles_from(alloc, searched)
}
