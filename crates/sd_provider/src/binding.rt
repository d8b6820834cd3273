//! The bind at a server.
ghost use Rattle.std.specs.Prelude.{◌≡◌, [], false, true, IfOk, None};
ghost use Rattle.sd_rules.specs.Scripts.{is_bind_out_of_memory};
ghost use Rattle.sd_dial.specs.Rooms.{are_short};
ghost use Rattle.sd_stub_link.specs.Distinct.{have_own_dns};
ghost use Rattle.sd_stub_link.specs.Modes.{is_down};
ghost use Rattle.sd_stub_link.specs.Standing.{made};
ghost use Rattle.sd_provider.specs.Servers as servers;

use crate::keeping::ShortDirectory;
use crate::plain::PlainLink;
use sd_asking::{bind, decides_alone};
use sd_base::{Memory, Text, Why};
use sd_client::Client;
use sd_rules::Bound;
use sd_stub::{Directory, Mode};
use std::alloc::Global;

/// Binds over a client that was just made.
fn ask(
    client: &mut Client<PlainLink<'_>>,
    directory: &Directory,
    mode: Mode,
    dn: &Text,
    password: &Text,
) -> Bound
    requires takes { is_down mode ≡ false }
    requires coded { servers.HasCode mode }
    requires own { have_own_dns directory.now ≡ true }
    requires short { are_short directory.now ≡ true }
    requires fresh { client.old ≡ record { link = made directory.now mode [] 0; received = []; at = 0; next = 1; failed = None } }
    ensures { servers.BindComesTo mode directory.now dn.now password.now result client.new }
{
    decides_alone();
    bind(client, dn, password)
}

/// Binds over a link to a directory.
fn bind_over(
    alloc: Global,
    directory: &Directory,
    mode: Mode,
    dn: &Text,
    password: &Text,
) -> Result<Bound, Memory>
    requires takes { is_down mode ≡ false }
    requires coded { servers.HasCode mode }
    requires own { have_own_dns directory.now ≡ true }
    requires short { are_short directory.now ≡ true }
    ensures answer { IfOk result (λ bound. bound ≡ servers.bound_in mode directory.now dn.now password.now) }
    ensures memory { IfOk result (λ bound. is_bind_out_of_memory bound ≡ false) }
{
    let mut client = Client::new(alloc, PlainLink::new(alloc, directory, mode));
    let bound = ask(&mut client, directory, mode, dn, password);
    let link = client.end();
    if link.starved() {
        return Err(Memory);
    }
    match bound {
        Bound::Memory => Err(Memory),
        Bound::Code(code) => Ok(Bound::Code(code)),
        Bound::Failed(why) => Ok(Bound::Failed(why)),
    }
}

/// What a simple bind at a server of a directory comes to, asked over a link in memory. A link that finds no memory
/// is want of memory.
#[tactic(auto, unfolding(crate::specs::Servers::bound_in))]
pub fn bound_at(
    alloc: Global,
    mode: Mode,
    directory: &ShortDirectory,
    dn: &Text,
    password: &Text,
) -> Result<Bound, Memory>
    ensures answer { IfOk result (λ bound. bound ≡ servers.bound_in mode directory.now dn.now password.now) }
    ensures memory { IfOk result (λ bound. is_bind_out_of_memory bound ≡ false) }
{
    if mode == Mode::Down {
        return Ok(Bound::Failed(Why::Link));
    }
    bind_over(alloc, directory.directory(), mode, dn, password)
}
