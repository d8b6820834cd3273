//! The lookup of a key at a server.
ghost use Rattle.std.specs.Prelude.{◌≡◌, ℕ, ◌≤◌, [], true, IfSome, Some};
ghost use Rattle.sd_base.specs.Causes.{Rose};
ghost use Rattle.sd_rules.specs.Lookups.{is_fetched_of_kind};
ghost use Rattle.sd_dial.specs.Entries.{Behind};
ghost use Rattle.sd_fetch.specs.Lookup.{looked_up};
ghost use Rattle.sd_fetch.specs.Told.{searches_of, first_failure};
ghost use Rattle.sd_engine.specs.Counting.{HasNotFallen};
ghost use Rattle.sd_engine.specs.Lookups.{LooksOver, AsksLookup, IsToldFetch};

use sd_base::Why;
use sd_client::Client;
use sd_clock::Gate;
use sd_conf::Config;
use sd_dial::{Dialer, DirectoryLink};
use sd_fetch::fetch;
use sd_link::LinkFailed;
use sd_rules::{Fetched, Key};
use std::alloc::Global;

/// Looks a key up over a link on which nothing is to come, and gives the link back.
fn look_over<L: DirectoryLink>(alloc: Global, line: L, config: &Config, key: &Key) -> (Fetched, L)
    requires { IfSome (L.coming line) (λ bytes. bytes ≡ []) }
    ensures kind { is_fetched_of_kind key.now result.0 ≡ true }
    ensures asks { LooksOver config.now key.now result.0 (Rose (L.faults line) (L.faults result.1)) (L.asked line) (L.asked result.1) (L.received line) (L.received result.1) }
    ensures fallen { result.0 ≡ Fetched.Failed Why.Link → Rose (L.faults line) (L.faults result.1) }
    ensures later { L.faults line ≤ L.faults result.1 }
    ensures told { (b : Behind) → L.behind line ≡ Some b → IsToldFetch result.0 (first_failure b 0 1 (searches_of config.now b.entries key.now)) (looked_up config.now b.entries key.now) }
{
    let mut client = Client::new(alloc, line);
    let fetched = fetch(alloc, &mut client, key, config);
    (fetched, client.end())
}

/// Looks a key up at a server, over a link that is dialled and given back. The gate is called before.
pub fn fetch_at<D: Dialer, G: Gate>(
    alloc: Global,
    dialer: &mut D,
    gate: &G,
    config: &Config,
    server: u32,
    key: &Key,
) -> Fetched
    ensures kind { is_fetched_of_kind key.now result ≡ true }
    // The operations asked: none where the dial failed, else the dial, the searches by which it came to its result, and an unbind
    // unless the client failed, or the line did in sending it. The bytes received on the line decide what each search that was sent came to.
    ensures operations { AsksLookup config.now key.now server result (Rose (D.faults dialer.old) (D.faults dialer.new)) (D.operations dialer.old) (D.operations dialer.new) (D.received dialer.old) (D.received dialer.new) }
    // A fall of the link is counted.
    ensures fallen { result ≡ Fetched.Failed Why.Link → Rose (D.faults dialer.old) (D.faults dialer.new) }
    ensures later { HasNotFallen (D.faults dialer.old) (D.faults dialer.new) }
    // Where the dialer tells the directory behind the server: the lookup in its entries, unless a search meets a limit or the link falls.
    ensures told { (b : Behind) → D.behind dialer.old server ≡ Some b → IsToldFetch result (first_failure b 0 1 (searches_of config.now b.entries key.now)) (looked_up config.now b.entries key.now) }
    ensures behind { (i : ℕ) → D.behind dialer.new i ≡ D.behind dialer.old i }
{
    gate.before_directory(server);
    match dialer.dial(server) {
        Ok(line) => {
            let (fetched, line) = look_over(alloc, line, config, key);
            dialer.done(line);
            fetched
        }
        Err(LinkFailed) => Fetched::Failed(Why::Link),
    }
}
