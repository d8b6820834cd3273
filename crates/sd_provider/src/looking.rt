//! The lookup at a server.
ghost use Rattle.std.specs.Prelude.{◌≡◌, [], false, true, IfOk, None};
ghost use Rattle.sd_rules.specs.Lookups.{is_fetched_of_kind};
ghost use Rattle.sd_rules.specs.Scripts.{is_out_of_memory};
ghost use Rattle.sd_dial.specs.Rooms.{are_short};
ghost use Rattle.sd_stub_link.specs.Distinct.{have_own_dns};
ghost use Rattle.sd_stub_link.specs.Modes.{is_down};
ghost use Rattle.sd_stub_link.specs.Standing.{made};
ghost use Rattle.sd_provider.specs.Servers as servers;

use crate::keeping::ShortDirectory;
use crate::plain::PlainLink;
use sd_asking::decides_alone;
use sd_base::{Memory, Why};
use sd_client::Client;
use sd_conf::Config;
use sd_fetch::fetch;
use sd_rules::{Fetched, Key, Record};
use sd_stub::{Directory, Mode};
use std::alloc::Global;

/// Looks a key up over a client that was just made.
fn ask(
    alloc: Global,
    client: &mut Client<PlainLink<'_>>,
    directory: &Directory,
    mode: Mode,
    config: &Config,
    key: &Key,
) -> Fetched
    requires takes { is_down mode ≡ false }
    requires coded { servers.HasCode mode }
    requires own { have_own_dns directory.now ≡ true }
    requires short { are_short directory.now ≡ true }
    requires fresh { client.old ≡ record { link = made directory.now mode [] 0; received = []; at = 0; next = 1; failed = None } }
    ensures comes { servers.LookupComesTo mode config.now directory.now key.now result client.new }
    ensures kind { is_fetched_of_kind key.now result ≡ true }
{
    decides_alone();
    fetch(alloc, client, key, config)
}

fn has_nothing(found: &Record) -> bool
    ensures { result ≡ servers.has_nothing found.now }
{
    match found {
        Record::Rules(book) => book.rules.len() == 0 && book.services.len() == 0,
        _ => false,
    }
}

fn gives_nothing(fetched: &Fetched) -> bool
    ensures { result ≡ servers.gives_nothing fetched.now }
{
    match fetched {
        Fetched::Found(found) => has_nothing(found.value()),
        Fetched::Absent => true,
        _ => false,
    }
}

/// Whether each search at a server of this mode is to give no entries.
fn is_empty_mode(mode: Mode) -> bool
    ensures { result ≡ servers.is_empty_mode mode }
{
    match mode {
        Mode::Code(code) => code == 0 || code == 32,
        _ => false,
    }
}

/// Looks a key up over a link to a directory. Where each search gives no entries, a failure of a search behind
/// the first one counts as want of memory.
fn look_over(
    alloc: Global,
    directory: &Directory,
    mode: Mode,
    config: &Config,
    key: &Key,
) -> Result<Fetched, Memory>
    requires takes { is_down mode ≡ false }
    requires coded { servers.HasCode mode }
    requires own { have_own_dns directory.now ≡ true }
    requires short { are_short directory.now ≡ true }
    ensures answer { IfOk result (λ fetched. fetched ≡ servers.fetched_in mode config.now directory.now key.now) }
    ensures kind { IfOk result (λ fetched. is_fetched_of_kind key.now fetched ≡ true) }
    ensures memory { IfOk result (λ fetched. is_out_of_memory fetched ≡ false) }
{
    let mut client = Client::new(alloc, PlainLink::new(alloc, directory, mode));
    let fetched = ask(alloc, &mut client, directory, mode, config, key);
    let link = client.end();
    if link.starved() || (is_empty_mode(mode) && !gives_nothing(&fetched)) {
        return Err(Memory);
    }
    in_memory(fetched)
}

/// What a lookup came to, unless memory was wanting.
fn in_memory(fetched: Fetched) -> Result<Fetched, Memory>
    ensures same { IfOk result (λ made. made ≡ fetched) }
    ensures memory { IfOk result (λ made. is_out_of_memory made ≡ false) }
{
    match fetched {
        Fetched::Memory => Err(Memory),
        Fetched::Found(record) => Ok(Fetched::Found(record)),
        Fetched::Absent => Ok(Fetched::Absent),
        Fetched::Many(count) => Ok(Fetched::Many(count)),
        Fetched::Refused(code) => Ok(Fetched::Refused(code)),
        Fetched::Failed(why) => Ok(Fetched::Failed(why)),
    }
}

/// What the lookup of a key at a server of a directory comes to, asked over a link in memory. A link that finds no
/// memory is want of memory.
#[tactic(auto, unfolding(crate::specs::Servers::fetched_in))]
pub fn fetched_at(
    alloc: Global,
    mode: Mode,
    config: &Config,
    directory: &ShortDirectory,
    key: &Key,
) -> Result<Fetched, Memory>
    ensures answer { IfOk result (λ fetched. fetched ≡ servers.fetched_in mode config.now directory.now key.now) }
    ensures kind { IfOk result (λ fetched. is_fetched_of_kind key.now fetched ≡ true) }
    ensures memory { IfOk result (λ fetched. is_out_of_memory fetched ≡ false) }
{
    if mode == Mode::Down {
        return Ok(Fetched::Failed(Why::Link));
    }
    look_over(alloc, directory.directory(), mode, config, key)
}
