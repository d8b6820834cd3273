//! The rounds: each name is asked for once, and the members found lead on.
ghost use Rattle.std.specs.Prelude.{◌≡◌, ℕ, slice_get, IfOk};
ghost use Rattle.sd_ldap.specs.Values.{search_value};
ghost use Rattle.sd_ldap.specs.Sound.{IsSoundSearch};
ghost use Rattle.sd_fetch.specs.Exchanging.{telling, searched_as, Went};
ghost use Rattle.sd_netgroup.specs.Stepping.{Tried, Steps, Gathered};

use crate::finds::Finds;
use crate::searches::net_search;
use sd_asking::search;
use sd_base::{Copied, Memory, Text};
use sd_client::Client;
use sd_dial::{DirectoryLink, Searched};
use sd_ldap::{DirEntries, SearchRequest};
use sd_nested::Stop;
use std::alloc::Global;

/// More names than one link has ids for its requests (RFC 4511 section 4.1.1.1).
const MOST_NAMES: usize = 1 << 31;

/// Searches once.
fn ask<L: DirectoryLink>(client: &mut Client<L>, request: &SearchRequest) -> Searched
    requires { IsSoundSearch (search_value request.now) }
    ensures { Went (telling L.DirectoryLink) client.old (searched_as (search_value request.now) result) client.new }
{
    search(client, request)
}

/// The entries that a search for a name came to; no such object is none.
fn find<L: DirectoryLink>(
    alloc: Global,
    client: &mut Client<L>,
    base: &Text,
    name: &Text,
) -> Result<DirEntries, Stop>
    ensures { Tried (telling L.DirectoryLink) base.now name.now client.old result client.new }
{
    let request = net_search(alloc, base, name)?;
    match ask(client, &request) {
        Searched::Entries(entries) => Ok(entries),
        Searched::Code(32) => Ok(DirEntries::new(alloc)),
        Searched::Code(code) => Err(Stop::Code(code)),
        Searched::Failed(why) => Err(Stop::Failed(why)),
        Searched::Memory => Err(Stop::Memory),
    }
}

/// The name at a place among those found.
fn due(finds: &Finds, place: usize) -> Result<Option<Text>, Memory>
    ensures { IfOk result (λ due. due ≡ slice_get finds.now.names.keys place) }
{
    match finds.names.get_index(place) {
        Some(name) => Ok(Some(name.copy()?)),
        None => Ok(None),
    }
}

/// Asks for the name at a place, and says whether there was one.
fn step<L: DirectoryLink>(
    alloc: Global,
    client: &mut Client<L>,
    base: &Text,
    finds: &mut Finds,
    place: usize,
) -> Result<bool, Stop>
    ensures { Steps (telling L.DirectoryLink) base.now place finds.old client.old result finds.new client.new }
{
    let Some(name) = due(finds, place)? else {
        return Ok(false);
    };
    let entries = find(alloc, client, base, &name)?;
    finds.take(alloc, &name, entries.items())?;
    Ok(true)
}

/// What is found for a name and for all members that it leads on to.
pub fn gather<L: DirectoryLink>(
    alloc: Global,
    client: &mut Client<L>,
    base: &Text,
    name: &Text,
) -> Result<Finds, Stop>
    ensures { Gathered (telling L.DirectoryLink) base.now name.now client.old result client.new }
{
    let mut finds = Finds::new(alloc, name)?;
    for place in 0..MOST_NAMES {
        if !step(alloc, client, base, &mut finds, place)? {
            return Ok(finds);
        }
    }
    Err(Stop::Memory)
}
