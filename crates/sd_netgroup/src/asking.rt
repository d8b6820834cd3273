//! A netgroup asked for at a directory.
ghost use Rattle.std.specs.Prelude.{◌≡◌};
ghost use Rattle.sd_fetch.specs.Exchanging.{telling};
ghost use Rattle.sd_netgroup.specs.Asking.{Asked};
ghost use Rattle.sd_netgroup.specs.Stepping.{NettedBy, netted_of};
ghost use Rattle.sd_netgroup.specs.Told.{NettedInTold};

use crate::finds::Finds;
use crate::order::listed;
use crate::rounds::gather;
use sd_base::{Memory, Text, Why};
use sd_client::Client;
use sd_dial::DirectoryLink;
use sd_nested::Stop;
use sd_triples::Triples;
use std::alloc::Global;

/// What asking for a netgroup came to.
#[derive(Drop)]
pub enum Netted {
    /// Its triples, by the bytes of host, user and domain, each once.
    Found(Triples),
    /// No netgroup has the name.
    Absent,
    /// A search came to this result code, not 0 and not 32, no such object (RFC 4511 appendix A).
    Code(u32),
    Failed(Why),
    Memory,
}

/// What the netgroups found come to.
fn found_by(alloc: Global, finds: Finds) -> Netted
    ensures { NettedBy finds result }
{
    if !finds.is_some {
        return Netted::Absent;
    }
    match listed(alloc, finds.triples) {
        Ok(triples) => Netted::Found(triples),
        Err(Memory) => Netted::Memory,
    }
}

/// What ended the searches.
fn stopped_by(stop: Stop) -> Netted
    ensures { result ≡ netted_of stop }
{
    match stop {
        Stop::Code(code) => Netted::Code(code),
        Stop::Failed(why) => Netted::Failed(why),
        Stop::Memory => Netted::Memory,
    }
}

/// The triples of a netgroup and of all that are its members, by paths of any length: the netgroups of a name
/// are those with a `cn` that is the name byte for byte, at or under the base. Each name is searched for once.
pub fn netgroup<L: DirectoryLink>(
    alloc: Global,
    client: &mut Client<L>,
    base: &Text,
    name: &Text,
) -> Netted
    // Over any link: the searches made, in order, and how they came to the result.
    ensures asked { Asked (telling L.DirectoryLink) base.now name.now client.old result client.new }
    // Over a link that tells the directory behind it: the triples in its entries, unless a search meets a limit.
    ensures told { NettedInTold L.DirectoryLink base.now name.now client.old result client.new }
{
    match gather(alloc, client, base, name) {
        Ok(finds) => found_by(alloc, finds),
        Err(stop) => stopped_by(stop),
    }
}
