//! The bind at a server.
ghost use Rattle.std.specs.Prelude.{◌≡◌, ℕ, ◌≤◌, [], IfSome, Some};
ghost use Rattle.sd_base.specs.Causes.{Rose};
ghost use Rattle.sd_dial.specs.Entries.{Behind};
ghost use Rattle.sd_asking.specs.Binding.{told_bind, IsToldBind};
ghost use Rattle.sd_engine.specs.Counting.{HasNotFallen};
ghost use Rattle.sd_engine.specs.Binds.{AsksBind, BindsOver};

use sd_asking::bind;
use sd_base::{Text, Why};
use sd_client::Client;
use sd_clock::Gate;
use sd_dial::{Dialer, DirectoryLink};
use sd_link::LinkFailed;
use sd_rules::Bound;
use std::alloc::Global;

/// Binds over a link on which nothing is to come, and gives the link back.
fn bind_over<L: DirectoryLink>(alloc: Global, line: L, dn: &Text, password: &Text) -> (Bound, L)
    requires { IfSome (L.coming line) (λ bytes. bytes ≡ []) }
    ensures asks { BindsOver dn.now password.now result.0 (Rose (L.faults line) (L.faults result.1)) (L.asked line) (L.asked result.1) (L.received line) (L.received result.1) }
    ensures fallen { result.0 ≡ Bound.Failed Why.Link → Rose (L.faults line) (L.faults result.1) }
    ensures later { L.faults line ≤ L.faults result.1 }
    ensures told { (b : Behind) → L.behind line ≡ Some b → IsToldBind result.0 (told_bind b 0 1 dn.now password.now) }
{
    let mut client = Client::new(alloc, line);
    let bound = bind(&mut client, dn, password);
    (bound, client.end())
}

/// Binds at a server, over a link that is dialled and given back. The gate is called before.
pub fn bind_at<D: Dialer, G: Gate>(
    alloc: Global,
    dialer: &mut D,
    gate: &G,
    server: u32,
    dn: &Text,
    password: &Text,
) -> Bound
    // The operations asked: none where the dial failed, else the dial, the bind, and an unbind unless the client failed, or the line
    // did in sending it. The bytes received on the line decide what a bind that was sent came to.
    ensures operations { AsksBind dn.now password.now server result (Rose (D.faults dialer.old) (D.faults dialer.new)) (D.operations dialer.old) (D.operations dialer.new) (D.received dialer.old) (D.received dialer.new) }
    // A fall of the link is counted.
    ensures fallen { result ≡ Bound.Failed Why.Link → Rose (D.faults dialer.old) (D.faults dialer.new) }
    ensures later { HasNotFallen (D.faults dialer.old) (D.faults dialer.new) }
    // Where the dialer tells the directory behind the server, its entries decide; the link may fall at any time.
    ensures told { (b : Behind) → D.behind dialer.old server ≡ Some b → IsToldBind result (told_bind b 0 1 dn.now password.now) }
    ensures behind { (i : ℕ) → D.behind dialer.new i ≡ D.behind dialer.old i }
{
    gate.before_directory(server);
    match dialer.dial(server) {
        Ok(line) => {
            let (bound, line) = bind_over(alloc, line, dn, password);
            dialer.done(line);
            bound
        }
        Err(LinkFailed) => Bound::Failed(Why::Link),
    }
}
