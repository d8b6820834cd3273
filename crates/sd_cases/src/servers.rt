// Worked calls of the servers of a domain: which of them is picked after falls.
ghost use Rattle.std.specs.Prelude.{◌≡◌, [], ◌∷◌, None, false, OnOk};

use crate::calls::print_gave;
use sd_base::Memory;
use sd_failover::Servers;
use sd_steps::output::{print, print_line, print_number, print_word};
use std::alloc::Global;

/// Tells that a server fell, and prints the call.
fn fell(
    servers: &mut Servers,
    out: &mut Vec<u8>,
    request: u64,
    server: u32,
    moment: u64,
) -> Result<(), Memory> {
    servers.fell(request, server, moment)?;
    print(out, b"fell")?;
    print_number(out, request)?;
    print_number(out, u64::from(server))?;
    print_word(out, b"at")?;
    print_number(out, moment)?;
    print(out, b"\n")
}

/// Prints which server is picked.
fn pick(servers: &Servers, out: &mut Vec<u8>, request: u64, moment: u64) -> Result<(), Memory> {
    print(out, b"pick")?;
    print_number(out, request)?;
    print_word(out, b"at")?;
    print_number(out, moment)?;
    print_gave(out, servers.pick(request, moment).map(u64::from))
}

/// Two primaries and a backup: a server that fell is passed over for thirty seconds, and by its own request for good.
fn print_after_falls(alloc: Global, out: &mut Vec<u8>) -> Result<(), Memory> {
    let mut servers = Servers::new(alloc, 2, 1);
    print_line(out, b"servers 2 1")?;
    pick(&servers, out, 1, 0)?;
    fell(&mut servers, out, 1, 0, 0)?;
    pick(&servers, out, 1, 0)?;
    fell(&mut servers, out, 1, 1, 0)?;
    pick(&servers, out, 1, 0)?;
    pick(&servers, out, 1, 30)?;
    servers.closed(1);
    print_line(out, b"closed 1")?;
    pick(&servers, out, 8, 29)?;
    pick(&servers, out, 11, 30)
}

/// One server: an online lets it be picked again, but not by the request under which it fell.
fn print_after_online(alloc: Global, out: &mut Vec<u8>) -> Result<(), Memory> {
    let mut servers = Servers::new(alloc, 1, 0);
    print_line(out, b"servers 1 0")?;
    // No end of these thirty seconds can be told.
    fell(&mut servers, out, 1, 0, u64::MAX)?;
    pick(&servers, out, 2, u64::MAX)?;
    servers.online();
    print_line(out, b"online")?;
    pick(&servers, out, 2, 0)?;
    pick(&servers, out, 1, 0)?;
    servers.closed(1);
    print_line(out, b"closed 1")?;
    pick(&servers, out, 1, 0)?;
    fell(&mut servers, out, 3, 0, 5)?;
    pick(&servers, out, 4, 34)?;
    pick(&servers, out, 4, 35)
}

/// No server is there to pick.
fn print_without(alloc: Global, out: &mut Vec<u8>) -> Result<(), Memory> {
    print_line(out, b"servers 0 0")?;
    pick(&Servers::new(alloc, 0, 0), out, 1, 0)
}

/// The first server falls twice under each of two requests: one fall is kept.
fn fall_again(servers: &mut Servers) -> Result<(), Memory>
    requires { servers.old.falls ≡ [] }
    ensures { OnOk result (servers.new.falls ≡ record { request = None; server = 0; moment = 1; online_since = false } ∷ []) }
{
    servers.fell(0, 0, 0)?;
    servers.fell(0, 0, 0)?;
    servers.closed(0);
    servers.fell(1, 0, 1)?;
    servers.fell(1, 0, 1)?;
    servers.closed(1);
    Ok(())
}

/// An online after that: none is kept.
fn come_back(servers: &mut Servers)
    requires { servers.old.falls ≡ record { request = None; server = 0; moment = 1; online_since = false } ∷ [] }
    ensures { servers.new.falls ≡ [] }
{
    servers.online();
}

/// A server falls again and again.
fn print_after_many(alloc: Global, out: &mut Vec<u8>) -> Result<(), Memory> {
    let mut servers = Servers::new(alloc, 1, 1);
    fall_again(&mut servers)?;
    come_back(&mut servers);
    print_line(out, b"servers 1 1")?;
    for request in 0..100 {
        servers.fell(request, 0, request)?;
        servers.fell(request, 0, request)?;
        servers.closed(request);
    }
    print_line(out, b"fell N 0 at N, again, closed N, for each N below 100")?;
    pick(&servers, out, 100, 128)?;
    servers.online();
    print_line(out, b"online")?;
    pick(&servers, out, 100, 128)
}

/// Prints the calls of these servers.
pub fn print_servers(alloc: Global, out: &mut Vec<u8>) -> Result<(), Memory> {
    print_after_falls(alloc, out)?;
    print_after_online(alloc, out)?;
    print_without(alloc, out)?;
    print_after_many(alloc, out)
}
