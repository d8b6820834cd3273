//! The netgroups of which rules speak, and in which a user stands.
ghost use Rattle.std.specs.Prelude.{◌≡◌, ◌++◌, ◌∷◌, [], ◌⊎◌, if◌then◌else◌, ℕ, List, true, IfOk, IfErr, OnOk, Some, None};
ghost use Rattle.std.specs.Option.{option_copied};
ghost use Rattle.sd_ldap.specs.declared.entry.DirEntry.{DirEntry};
ghost use Rattle.sd_base.specs.declared.Why.TheVariants as whys;
ghost use Rattle.sd_dial.specs.Rooms.{are_short};
ghost use Rattle.sd_stub.specs.declared.Mode.TheVariants as modes;
ghost use Rattle.sd_stub_link.specs.Distinct.{have_own_dns};
ghost use Rattle.sd_stub_link.specs.Standing.{made};
ghost use Rattle.sd_netgroup.specs.Rounds.{with_names};
ghost use Rattle.sd_netgroup.specs.Endings.{Answers, IsLimited};
ghost use Rattle.sd_sudo.specs.Listing.{listed};
ghost use Rattle.sd_sudo.specs.Speaking as speaking;
ghost use Rattle.sd_sudo.specs.Lookups.{HaltsBy};
ghost use Rattle.sd_sudo.specs.Standing.{IsTold, AreStood, NetsPass, NetsMeet};

use crate::lookups::Halt;
use indexmap::IndexSet;
use sd_base::{Copied, Memory, Text};
use sd_client::Client;
use sd_netgroup::{Netted, in_netgroup, netgroup};
use sd_provider::PlainLink;
use sd_roles::{Nets, Role};
use sd_stub::{Directory, Mode};
use std::alloc::Global;

/// The netgroup of which a value speaks, behind a `!` too.
fn net_in(value: &[u8]) -> Option<&[u8]>
    ensures { option_copied result ≡ speaking.net_in value.now }
{
    match value {
        [b'+', net @ ..] | [b'!', b'+', net @ ..] => Some(net),
        _ => None,
    }
}

fn put_net(alloc: Global, nets: &mut IndexSet<Text>, value: &[u8]) -> Result<(), Memory>
    ensures { OnOk result (nets.new.keys ≡ with_names nets.old.keys (listed (speaking.net_in value.now))) }
{
    match net_in(value) {
        Some(net) => {
            nets.insert(Text::from_bytes(alloc, net)?)?;
            Ok(())
        }
        None => Ok(()),
    }
}

#[tactic(auto, using(crate::proofs::Folds::names_more))]
fn put_values(alloc: Global, nets: &mut IndexSet<Text>, values: &[Text]) -> Result<(), Memory>
    ensures { OnOk result (nets.new.keys ≡ with_names nets.old.keys (speaking.nets_in values.now)) }
{
    for value in values {
        put_net(alloc, nets, value.bytes())?;
    }
    Ok(())
}

#[tactic(auto, using(crate::proofs::Folds::names_more))]
/// The netgroups of which the rules speak, each once, in the order of the rules.
pub fn nets_asked(alloc: Global, roles: &[Role]) -> Result<IndexSet<Text>, Memory>
    ensures { IfOk result (λ nets. nets.keys ≡ speaking.nets_asked roles.now) }
{
    let mut nets = IndexSet::new(alloc);
    for role in roles {
        put_values(alloc, &mut nets, role.users.items())?;
    }
    Ok(nets)
}

/// Asks for a netgroup over a client that was just made.
fn ask(
    alloc: Global,
    client: &mut Client<PlainLink<'_>>,
    directory: &Directory,
    base: &Text,
    net: &Text,
) -> Netted
    requires own { have_own_dns directory.now ≡ true }
    requires short { are_short directory.now ≡ true }
    requires fresh { client.old ≡ record { link = made directory.now modes.Up [] 0; received = []; at = 0; next = 1; failed = None } }
    ensures { ((client.new.failed ≡ Some whys.Link) × (client.new.link.starved ≡ true)) ⊎ Answers directory.now base.now net.now result }
{
    netgroup(alloc, client, base, net)
}

#[tactic(auto, using(crate::proofs::Spoken::found_so, crate::proofs::Spoken::absent_so))]
/// Whether a user is in the netgroup that asking came to, unless it met a limit or memory was wanting.
fn stands_by(netted: &Netted, user: &Text) -> Result<bool, Halt>
    ensures stands { (entries : List DirEntry) (base net : List ℕ) → Answers entries base net netted.now → IfOk result (λ stands. IsTold entries base user.now net stands) }
    ensures halt { (entries : List DirEntry) (base net : List ℕ) → Answers entries base net netted.now → IfErr result (λ halt. HaltsBy halt (IsLimited entries base net)) }
{
    match netted {
        Netted::Found(triples) => Ok(in_netgroup(triples, None, Some(user), None)),
        Netted::Absent => Ok(false),
        Netted::Failed(_) => Err(Halt::Limit),
        // A directory in memory gives no other code than 0 and 32, no such object.
        Netted::Code(_) | Netted::Memory => Err(Halt::Memory),
    }
}

/// Whether a user stands in a netgroup of a directory. A link that finds no memory is want of memory.
fn stands_in(
    alloc: Global,
    directory: &Directory,
    base: &Text,
    user: &Text,
    net: &Text,
) -> Result<bool, Halt>
    requires own { have_own_dns directory.now ≡ true }
    requires short { are_short directory.now ≡ true }
    ensures stands { IfOk result (λ stands. IsTold directory.now base.now user.now net.now stands) }
    ensures halt { IfErr result (λ halt. HaltsBy halt (IsLimited directory.now base.now net.now)) }
{
    let mut client = Client::new(alloc, PlainLink::new(alloc, directory, Mode::Up));
    let netted = ask(alloc, &mut client, directory, base, net);
    let link = client.end();
    if link.starved() {
        return Err(Halt::Memory);
    }
    stands_by(&netted, user)
}

/// Appends a name, where a test says so.
fn push_where(nets: &mut Nets, net: &Text, stands: bool) -> Result<(), Memory>
    ensures { OnOk result (nets.new ≡ nets.old ++ (if stands then net.now ∷ [] else [])) }
{
    if stands {
        nets.push(net.copy()?)?;
    }
    Ok(())
}

#[tactic(auto, using(crate::proofs::Stood::at_first, crate::proofs::Stood::next_left, crate::proofs::Stood::all_within, crate::proofs::Stood::all_stood, crate::proofs::Stood::one_meets))]
/// Those of some netgroups in which a user stands. Each is asked for over a link of its own.
pub fn nets_with(
    alloc: Global,
    directory: &Directory,
    base: &Text,
    user: &Text,
    asked: &[Text],
) -> Result<Nets, Halt>
    requires own { have_own_dns directory.now ≡ true }
    requires short { are_short directory.now ≡ true }
    ensures within { IfOk result (λ nets. NetsPass directory.now base.now asked.now) }
    ensures stood { IfOk result (λ nets. AreStood directory.now base.now user.now asked.now nets) }
    ensures halt { IfErr result (λ halt. HaltsBy halt (NetsMeet directory.now base.now asked.now)) }
{
    let mut nets = Nets::new(alloc);
    for net in asked {
        let stands = stands_in(alloc, directory, base, user, net)?;
        push_where(&mut nets, net, stands)?;
    }
    Ok(nets)
}
