// The word `directory` over a file of a host.
ghost use Rattle.std.specs.Prelude.{◌≡◌};
ghost use Rattle.sd_base.specs.Causes.{Rose};
ghost use Rattle.sd_serve.specs.Promises.{Directories};

use sd_base::{Sink, SourceFailed};
use sd_doors::Doors;
use sd_ldap_server::{Network, directory};
use sd_server::Host;
use sd_tools::{NO_MEMORY, READ_FAULT, Status, WRITE_FAULT};
use std::alloc::Global;
use std::sync::Wait;

/// Opens the LDIF at a path, and serves its entries at an address.
pub fn directory_at<R, W, H, N>(
    rt: &R,
    alloc: Global,
    ldif: &str,
    address: &str,
    sink: &mut W,
    host: &mut H,
    network: &mut N,
) -> Status
where
    R: Wait,
    W: Sink,
    H: Host,
    N: Network,
    <N::Door as Doors>::In: Drop,
    <N::Door as Doors>::Out: Drop,
    ensures served { Directories H.text_at H.source_faults N.listened N.ended N.door_faults W.held ldif.now address.now
        host.old host.new network.old network.new sink.old sink.new result }
    ensures write_fault { result ≡ WRITE_FAULT → Rose (W.faults sink.old) (W.faults sink.new) }
    ensures no_memory { result ≡ NO_MEMORY → sink.new ≡ sink.old }
{
    let mut file = match host.file(ldif) {
        Ok(file) => file,
        Err(SourceFailed) => return READ_FAULT,
    };
    let status = directory(rt, alloc, &mut file, address, sink, network);
    host.done_file(file);
    status
}
