//! The word `directory`.
ghost use Rattle.std.specs.Prelude.{◌≡◌, ◌≢◌, ◌⊎◌, true, codes, OnErr, OnOk};
ghost use Rattle.std.specs.Io.KnownBytes.{Appends};
ghost use Rattle.sd_base.specs.Causes.{Rose};
ghost use Rattle.sd_ldap_server.specs.Listening.{with_address, ListensAtMostOnce};
ghost use Rattle.sd_ldap_server.specs.Refusals as refusals;
ghost use Rattle.sd_ldif.specs.declared.LdifFault.{LdifFault as LdifFaultValue};

use crate::network::Network;
use crate::reading::read_directory;
use crate::refusals::{DOOR_FAULT, REFUSED, tell};
use crate::serving::serve_clients;
use sd_base::{Sink, Source};
use sd_doors::{DoorFailed, Doors};
use sd_stub::Directory;
use sd_tools::endings::end;
use sd_tools::{DONE, NO_MEMORY, READ_FAULT, Status, TOO_LONG, WRITE_FAULT};
use std::alloc::Global;
use std::sync::Wait;

/// Serves the clients that come to an address, and hands the doors back.
fn serve_at<R, N>(
    rt: &R,
    address: &str,
    directory: &Directory,
    network: &mut N,
) -> Result<(), DoorFailed>
where
    R: Wait,
    N: Network,
    <N::Door as Doors>::In: Drop,
    <N::Door as Doors>::Out: Drop,
    ensures done { OnOk result (N.ended network.new ≡ true) }
    ensures listened { OnOk result (N.listened network.new ≡ with_address (N.listened network.old) address.now) }
    ensures once { ListensAtMostOnce address.now (N.listened network.old) (N.listened network.new) }
    ensures failed { OnErr result (Rose (N.door_faults network.old) (N.door_faults network.new)) }
{
    let mut doors = network.listen(address)?;
    let served = serve_clients(rt, directory, &mut doors);
    network.done_doors(doors);
    served
}

/// Serves the clients that come to an address, and tells how that ended.
fn serve_and_tell<R, W, N>(
    rt: &R,
    address: &str,
    directory: &Directory,
    sink: &mut W,
    network: &mut N,
) -> Status
where
    R: Wait,
    W: Sink,
    N: Network,
    <N::Door as Doors>::In: Drop,
    <N::Door as Doors>::Out: Drop,
    ensures status { refusals.IsServedStatus result }
    ensures done { result ≡ DONE → (N.ended network.new ≡ true) × (sink.new ≡ sink.old)
        × (N.listened network.new ≡ with_address (N.listened network.old) address.now) }
    ensures once { ListensAtMostOnce address.now (N.listened network.old) (N.listened network.new) }
    ensures door_fault { result ≡ DOOR_FAULT → Rose (N.door_faults network.old) (N.door_faults network.new)
        × Appends (W.held sink.old) (W.held sink.new) (codes "door fault\n") }
    ensures write_fault { result ≡ WRITE_FAULT → Rose (W.faults sink.old) (W.faults sink.new) }
{
    match serve_at(rt, address, directory, network) {
        Ok(()) => DONE,
        Err(DoorFailed) => end(sink, DOOR_FAULT, b"door fault\n"),
    }
}

/// Serves the directory of an LDIF (RFC 2849) at an address, `HOST:PORT`, to one client after the other, until no more will come.
pub fn directory<R, S, W, N>(
    rt: &R,
    alloc: Global,
    ldif: &mut S,
    address: &str,
    sink: &mut W,
    network: &mut N,
) -> Status
where
    R: Wait,
    S: Source,
    W: Sink,
    N: Network,
    <N::Door as Doors>::In: Drop,
    <N::Door as Doors>::Out: Drop,
    ensures status { refusals.IsStatus result }

    // The doors answered that no connection will come. Nothing is written.
    ensures done { result ≡ DONE → (N.ended network.new ≡ true) × (sink.new ≡ sink.old)
        × (N.listened network.new ≡ with_address (N.listened network.old) address.now) }

    // The LDIF is within 64 MiB, and is taken, wherever the address is tried; it is tried once, and no other is.
    ensures taken { (result ≡ DONE) ⊎ (result ≡ DOOR_FAULT) → refusals.IsTaken (S.left ldif.old) }
    ensures once { ListensAtMostOnce address.now (N.listened network.old) (N.listened network.new) }

    // The LDIF could not be read; it has more than 64 MiB; it is refused, for this reason. No address is tried.
    ensures read_fault { result ≡ READ_FAULT → Rose (S.faults ldif.old) (S.faults ldif.new) × (sink.new ≡ sink.old)
        × (network.new ≡ network.old) }
    ensures too_long { result ≡ TOO_LONG → refusals.IsTooLong (S.left ldif.old) × (network.new ≡ network.old)
        × Appends (W.held sink.old) (W.held sink.new) (codes "too long\n") }
    ensures refused { result ≡ REFUSED → (fault : LdifFaultValue) × refusals.IsRefused fault (S.left ldif.old)
        × (network.new ≡ network.old) × Appends (W.held sink.old) (W.held sink.new) (refusals.refused fault) }

    // The doors could not be made, or failed, in this call.
    ensures door_fault { result ≡ DOOR_FAULT → Rose (N.door_faults network.old) (N.door_faults network.new)
        × Appends (W.held sink.old) (W.held sink.new) (codes "door fault\n") }

    // The sink failed in this call, or took nothing of a nonempty piece.
    ensures write_fault { result ≡ WRITE_FAULT → Rose (W.faults sink.old) (W.faults sink.new) }

    // Want of memory. Nothing is written.
    ensures no_memory { result ≡ NO_MEMORY → (sink.new ≡ sink.old) × (network.new ≡ network.old) }
{
    match read_directory(alloc, ldif) {
        Ok(directory) => serve_and_tell(rt, address, &directory, sink, network),
        Err(stop) => tell(alloc, sink, stop),
    }
}
