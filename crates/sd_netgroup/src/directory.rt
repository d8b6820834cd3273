//! Netgroups of a directory in memory, asked for over a link and a client.
ghost use Rattle.std.specs.Prelude.{◌≡◌, ℕ, List, [], ◌⊎◌, true, IfOk, Some, None};
ghost use Rattle.sd_base.specs.declared.Why.TheVariants as whys;
ghost use Rattle.sd_ldap.specs.declared.entry.DirEntry.{DirEntry as DirEntryValue};
ghost use Rattle.sd_dial.specs.Rooms.{are_short};
ghost use Rattle.sd_places.specs.Keeping.{kept};
ghost use Rattle.sd_stub.specs.declared.Mode.TheVariants as modes;
ghost use Rattle.sd_stub_link.specs.Distinct.{have_own_dns};
ghost use Rattle.sd_stub_link.specs.Standing.{made};
ghost use Rattle.sd_netgroup.specs.Endings.{IsAnswer, Answers};

use crate::asking::{Netted, netgroup};
use sd_base::{Memory, Text};
use sd_client::Client;
use sd_ldap::DirEntry;
use sd_provider::{PlainLink, short_directory};
use sd_stub::{Directory, Mode};
use sd_triples::Triples;
use std::alloc::Global;

/// What a directory says of a netgroup.
#[derive(Drop)]
pub enum Answer {
    Found(Triples),
    /// No netgroup has the name.
    Absent,
    /// A request or a reply is longer than 16 MiB, or the replies together than 64 MiB.
    Limit,
}

/// Asks over a client that was just made.
fn ask(
    alloc: Global,
    client: &mut Client<PlainLink<'_>>,
    directory: &Directory,
    base: &Text,
    name: &Text,
) -> Netted
    requires own { have_own_dns directory.now ≡ true }
    requires short { are_short directory.now ≡ true }
    requires fresh { client.old ≡ record { link = made directory.now modes.Up [] 0; received = []; at = 0; next = 1; failed = None } }
    ensures { ((client.new.failed ≡ Some whys.Link) × (client.new.link.starved ≡ true)) ⊎ Answers directory.now base.now name.now result }
{
    netgroup(alloc, client, base, name)
}

/// What asking came to, unless memory was wanting.
fn answer_of(netted: Netted) -> Result<Answer, Memory>
    ensures { (entries : List DirEntryValue) (base name : List ℕ) → Answers entries base name netted → IfOk result (λ answer. IsAnswer entries base name answer) }
{
    match netted {
        Netted::Found(triples) => Ok(Answer::Found(triples)),
        Netted::Absent => Ok(Answer::Absent),
        Netted::Failed(_) => Ok(Answer::Limit),
        // A directory in memory gives no other code than 0 and 32.
        Netted::Code(_) | Netted::Memory => Err(Memory),
    }
}

/// Asks over a link to a directory. A link that finds no memory is want of memory.
fn look_over(
    alloc: Global,
    directory: &Directory,
    base: &Text,
    name: &Text,
) -> Result<Answer, Memory>
    requires own { have_own_dns directory.now ≡ true }
    requires short { are_short directory.now ≡ true }
    ensures { IfOk result (λ answer. IsAnswer directory.now base.now name.now answer) }
{
    let mut client = Client::new(alloc, PlainLink::new(alloc, directory, Mode::Up));
    let netted = ask(alloc, &mut client, directory, base, name);
    let link = client.end();
    if link.starved() {
        return Err(Memory);
    }
    answer_of(netted)
}

/// What the directory of these entries says of a netgroup. An entry of 4 GiB counts as want of memory.
pub fn look(alloc: Global, entries: &[DirEntry], base: &Text, name: &Text) -> Result<Answer, Memory>
    ensures { IfOk result (λ answer. IsAnswer (kept entries.now) base.now name.now answer) }
{
    let directory = short_directory(alloc, entries)?;
    look_over(alloc, &directory, base, name)
}
