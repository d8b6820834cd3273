//! The word `serve`.
ghost use Rattle.std.specs.Prelude.{◌≡◌, ◌⊎◌, ◌≤◌, ℕ, true, false, codes, is_some, length, Err, IfSome, Ok};
ghost use Rattle.std.specs.Io.KnownBytes.{Appends};
ghost use Rattle.sd_base.specs.Causes.{Rose};
ghost use Rattle.sd_conf.specs.declared.ConfFault.{ConfFault as ConfFaultValue};
ghost use Rattle.sd_server.specs.Refusals as refusals;
ghost use Rattle.sd_server.specs.HostStores.{bad_store, is_done, Fails, HoldsJournal, IsFailingStatus, IsNoStore, IsServedStatus, IsStore};
ghost use Rattle.sd_server.specs.Ends.{TellsFailure};
ghost use Rattle.sd_server.specs.Stores.{told_by, HoldsOldOrReached, HoldsReached};

use crate::beginning::{BAD_STORE, Begun, DOOR_FAULT, REFUSED, STORE_FAULT, begin, tell};
use crate::daemon::serve_core;
use crate::host::Host;
use crate::notices::Notice;
use crate::opening::give_back;
use crate::serving::ServeEnd;
use crate::visit::Equipment;
use sd_base::Sink;
use sd_dial::Dialer;
use sd_doors::Doors;
use sd_keeper::KeeperFault;
use sd_tools::endings::end;
use sd_tools::{DONE, NO_MEMORY, READ_FAULT, Status, TOO_LONG, WRITE_FAULT};
use std::alloc::Global;
use std::sync::Wait;
use std::thread::Threads;

/// Serves clients with what a daemon begins with, and hands doors and keeper back.
fn run<R, H>(
    rt: &R,
    alloc: Global,
    begun: Begun<H::Door, H::Store>,
    host: &mut H,
) -> Result<ServeEnd, KeeperFault>
where
    R: Threads + Wait + Sync,
    H: Host,
    <H::Door as Doors>::In: Send + Drop,
    <H::Door as Doors>::Out: Send + Drop,
    <<H::Tools as Equipment>::Dial as Dialer>::Line: Send,
    requires settings { begun.core.settings ≡ begun.config.settings }
    requires pwfield { length begun.config.pwfield ≤ 255 }
    requires untouched { H.Door.faults begun.doors ≡ 0 }
    ensures done { is_done result ≡ true → (H.gave host.new ≡ true) ⊎ (H.ended host.new ≡ true) }
    ensures held { is_some begun.keeper ≡ true → HoldsOldOrReached begun.core (told_by H.Store.told begun.keeper) (H.stored host.new).blobs }
    ensures stored { is_done result ≡ true → is_some begun.keeper ≡ true → HoldsReached begun.core (told_by H.Store.told begun.keeper) (H.stored host.new).blobs }
    ensures unasked { is_some begun.keeper ≡ false → H.stored host.new ≡ H.stored host.old }
    ensures failed { result ≡ Err KeeperFault.Failed → Fails (H.stored host.old) (H.stored host.new) }
    ensures failing { is_some begun.keeper ≡ true → (H.stored host.new).failed ≡ true → TellsFailure result }
    ensures doors { result ≡ Ok ServeEnd.DoorFailed → Rose (H.door_faults host.old) (H.door_faults host.new) }
{
    let Begun {
        config,
        salts,
        core,
        keeper,
        doors,
    } = begun;
    host.log(Notice::Serving(config.unknown));
    let tools = host.equipment();
    let (served, doors, keeper) = serve_core(rt, alloc, core, config, salts, doors, tools, keeper);
    host.done_doors(doors);
    give_back(host, keeper);
    host.log(Notice::of_end(&served));
    served
}

/// Tells how serving ended.
fn tell_end<W: Sink>(sink: &mut W, served: Result<ServeEnd, KeeperFault>) -> Status
    ensures status { IsServedStatus result }
    ensures done { result ≡ DONE → is_done served ≡ true }
    ensures failing { TellsFailure served → IsFailingStatus result }
    ensures store_fault { result ≡ STORE_FAULT → (served ≡ Err KeeperFault.Failed) × Appends (W.held sink.old) (W.held sink.new) (codes "store fault\n") }
    ensures door_fault { result ≡ DOOR_FAULT → (served ≡ Ok ServeEnd.DoorFailed) × Appends (W.held sink.old) (W.held sink.new) (codes "door fault\n") }
    ensures write_fault { result ≡ WRITE_FAULT → Rose (W.faults sink.old) (W.faults sink.new) }
{
    match served {
        Ok(ServeEnd::Stopped | ServeEnd::NoneToCome) => DONE,
        Ok(ServeEnd::DoorFailed) => end(sink, DOOR_FAULT, b"door fault\n"),
        Err(KeeperFault::Failed) => end(sink, STORE_FAULT, b"store fault\n"),
        Err(KeeperFault::Memory) => NO_MEMORY,
    }
}

/// Serves clients with what a daemon begins with, and tells how that ended.
fn serve_begun<R, W, H>(
    rt: &R,
    alloc: Global,
    begun: Begun<H::Door, H::Store>,
    sink: &mut W,
    host: &mut H,
) -> Status
where
    R: Threads + Wait + Sync,
    W: Sink,
    H: Host,
    <H::Door as Doors>::In: Send + Drop,
    <H::Door as Doors>::Out: Send + Drop,
    <<H::Tools as Equipment>::Dial as Dialer>::Line: Send,
    requires settings { begun.core.settings ≡ begun.config.settings }
    requires pwfield { length begun.config.pwfield ≤ 255 }
    requires untouched { H.Door.faults begun.doors ≡ 0 }
    ensures status { IsServedStatus result }
    ensures done { result ≡ DONE → (H.gave host.new ≡ true) ⊎ (H.ended host.new ≡ true) }
    ensures held { is_some begun.keeper ≡ true → HoldsOldOrReached begun.core (told_by H.Store.told begun.keeper) (H.stored host.new).blobs }
    ensures stored { result ≡ DONE → is_some begun.keeper ≡ true → HoldsReached begun.core (told_by H.Store.told begun.keeper) (H.stored host.new).blobs }
    ensures unasked { is_some begun.keeper ≡ false → H.stored host.new ≡ H.stored host.old }
    ensures store_fault { result ≡ STORE_FAULT → Fails (H.stored host.old) (H.stored host.new) × Appends (W.held sink.old) (W.held sink.new) (codes "store fault\n") }
    ensures failing { is_some begun.keeper ≡ true → (H.stored host.new).failed ≡ true → IsFailingStatus result }
    ensures door_fault { result ≡ DOOR_FAULT → Rose (H.door_faults host.old) (H.door_faults host.new) × Appends (W.held sink.old) (W.held sink.new) (codes "door fault\n") }
    ensures write_fault { result ≡ WRITE_FAULT → Rose (W.faults sink.old) (W.faults sink.new) }
{
    let served = run(rt, alloc, begun, host);
    tell_end(sink, served)
}

/// Serves clients on a socket by the configuration at a path, until the operator's word to end the daemon was
/// given, or no more clients are to come. It begins with the rows of a store, where one is given, and puts its own there
/// now and then, and at its end; without a store it begins with an empty journal.
pub fn serve<R, W, H>(
    rt: &R,
    alloc: Global,
    conf: &str,
    socket: &str,
    store: Option<&str>,
    sink: &mut W,
    host: &mut H,
) -> Status
where
    R: Threads + Wait + Sync,
    W: Sink,
    H: Host,
    <H::Door as Doors>::In: Send + Drop,
    <H::Door as Doors>::Out: Send + Drop,
    <<H::Tools as Equipment>::Dial as Dialer>::Line: Send,
    ensures status { refusals.IsServeStatus result }

    // The doors gave a connection, or answered that none will come.
    ensures done { result ≡ DONE → (H.gave host.new ≡ true) ⊎ (H.ended host.new ≡ true) }
    // The configuration is within 1 MiB, and is taken, wherever the store or the doors are tried.
    ensures taken { refusals.TriesBehindConfig result → refusals.IsTaken (H.text_at host.old conf.now) }
    // What the store holds is one, wherever the doors are tried.
    ensures loaded { (result ≡ DONE) ⊎ (result ≡ DOOR_FAULT) → is_some store.entry ≡ true → IfSome (H.stored host.old).blobs IsStore }

    // At its end the store holds the rows of a journal that the daemon reached, which began with what the store held.
    ensures stored { result ≡ DONE → is_some store.entry ≡ true → HoldsJournal (H.text_at host.old conf.now) (H.stored host.old).blobs (H.stored host.new).blobs }
    // Whatever the status, it holds that or what it held; without a store given it is not touched.
    ensures held { is_some store.entry ≡ true → ((H.stored host.new).blobs ≡ (H.stored host.old).blobs)
        ⊎ HoldsJournal (H.text_at host.old conf.now) (H.stored host.old).blobs (H.stored host.new).blobs }
    ensures unasked { is_some store.entry ≡ false → H.stored host.new ≡ H.stored host.old }

    // The configuration or the seed could not be read; the configuration has more than 1 MiB; it is refused, for this reason.
    ensures read_fault { result ≡ READ_FAULT → Rose (H.source_faults host.old) (H.source_faults host.new) }
    ensures too_long { result ≡ TOO_LONG → refusals.IsTooLong (H.text_at host.old conf.now) × Appends (W.held sink.old) (W.held sink.new) (codes "too long\n") }
    ensures refused { result ≡ REFUSED → (fault : ConfFaultValue) × refusals.IsRefused fault (H.text_at host.old conf.now)
        × Appends (W.held sink.old) (W.held sink.new) (refusals.refused (refusals.why_refused fault)) }

    // The store is none, by this number; its making, or the last call on it, failed. Where that did, no other status is told but those
    // of doors, sink and memory.
    ensures bad_store { result ≡ BAD_STORE → (n : ℕ) × IfSome (H.stored host.old).blobs (IsNoStore n)
        × Appends (W.held sink.old) (W.held sink.new) (bad_store n) }
    ensures store_fault { result ≡ STORE_FAULT → Fails (H.stored host.old) (H.stored host.new)
        × Appends (W.held sink.old) (W.held sink.new) (codes "store fault\n") }
    ensures failing { (H.stored host.old).failed ≡ false → (H.stored host.new).failed ≡ true → IsFailingStatus result }

    // The doors, or the sink, failed in this call.
    ensures door_fault { result ≡ DOOR_FAULT → Rose (H.door_faults host.old) (H.door_faults host.new)
        × Appends (W.held sink.old) (W.held sink.new) (codes "door fault\n") }
    ensures write_fault { result ≡ WRITE_FAULT → Rose (W.faults sink.old) (W.faults sink.new) }
{
    match begin(alloc, conf, socket, store, host) {
        Ok(begun) => serve_begun(rt, alloc, begun, sink, host),
        Err(stop) => {
            host.log(Notice::of_stop(&stop));
            tell(alloc, sink, &stop)
        }
    }
}
