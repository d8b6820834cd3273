//! A search of a lookup, and what ends a lookup early.
ghost use Rattle.std.specs.Prelude.{◌≡◌, ℕ, IfOk};
ghost use Rattle.sd_ldap.specs.Values.{search_value};
ghost use Rattle.sd_ldap.specs.Sound.{IsSoundSearch};
ghost use Rattle.sd_fetch.specs.Exchanging.{telling, searched_as, Went};
ghost use Rattle.sd_fetch.specs.Early.{Finds, Asked};

use sd_asking::search;
use sd_base::{Memory, Why};
use sd_client::Client;
use sd_dial::{DirectoryLink, Searched};
use sd_ldap::{DirEntries, SearchRequest};
use std::alloc::Global;

/// What ends a lookup early.
#[derive(Drop)]
pub enum Early {
    /// The result code received, none of 0, 32, 51 and 52 (RFC 4511 appendix A).
    Refused(u32),
    Failed(Why),
    Memory,
}

impl From<Memory> for Early {
    ghost use Rattle.std.specs.Prelude.{◌≡◌};
    ghost use Rattle.sd_fetch.specs.declared.finding.Early.TheVariants as earlies;

    ghost from_gives = { λ _ early. early ≡ earlies.Memory };

    fn from(_error: Memory) -> Early {
        Early::Memory
    }
}

/// The entries that a search came to; no such object is none.
fn entries_of(alloc: Global, searched: Searched) -> Result<DirEntries, Early>
    requires { searched ≡ Searched.Code 0 → ⊥ }
    ensures { Finds result searched }
{
    match searched {
        Searched::Entries(entries) => Ok(entries),
        Searched::Code(32) => Ok(DirEntries::new(alloc)),
        Searched::Code(51) => Err(Early::Failed(Why::Code(51))),
        Searched::Code(52) => Err(Early::Failed(Why::Code(52))),
        Searched::Code(code) => Err(Early::Refused(code)),
        Searched::Failed(why) => Err(Early::Failed(why)),
        Searched::Memory => Err(Early::Memory),
    }
}

/// Searches once.
pub fn ask<L: DirectoryLink>(client: &mut Client<L>, request: &SearchRequest) -> Searched
    requires { IsSoundSearch (search_value request.now) }
    ensures went { Went (telling L.DirectoryLink) client.old (searched_as (search_value request.now) result) client.new }
{
    search(client, request)
}

/// Searches once, for the entries.
#[tactic(auto, using(crate::proofs::Exchanges::no_zero))]
pub fn find<L: DirectoryLink>(
    alloc: Global,
    client: &mut Client<L>,
    request: &SearchRequest,
) -> Result<DirEntries, Early>
    requires { IsSoundSearch (search_value request.now) }
    ensures { Asked (telling L.DirectoryLink) client.old (search_value request.now) result client.new }
{
    let searched = ask(client, request);
    entries_of(alloc, searched)
}
