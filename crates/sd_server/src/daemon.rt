//! The daemon behind its doors: a core at a desk, from its opening to its end.
ghost use Rattle.std.specs.Prelude.{◌≡◌, ◌≢◌, ◌≤◌, ℕ, length, true, Err, IfErr, IfOk, IsOk, None, OnErr, OnOk, Some};
ghost use Rattle.sd_base.specs.Causes.{Rose};
ghost use Rattle.sd_rules.specs.KeptRows as kept;
ghost use Rattle.sd_server.specs.Ends.{EndsBy, is_servable, TellsFailure};
ghost use Rattle.sd_server.specs.Stores.{failed_by, faults_by, told_by, HoldsOldOrReached, HoldsReached, Stays};

use crate::serving::{ServeEnd, Served, serve_clients};
use crate::store::store_rows;
use crate::visit::Equipment;
use sd_base::Copied;
use sd_conf::Config;
use sd_core::{Core, OpenFault};
use sd_creds::Salts;
use sd_desk::Desk;
use sd_dial::Dialer;
use sd_doors::Doors;
use sd_keeper::{Keeper, KeeperFault};
use sd_rules::Rows;
use std::alloc::Global;
use std::sync::Wait;
use std::thread::Threads;

/// Whether a configuration is within the bounds of every one that is read: at most 64 servers, and a pwfield of
/// at most 255 bytes.
fn is_within_bounds(config: &Config) -> bool
    ensures { result ≡ is_servable config.now }
{
    let settings = &config.settings;
    u64::from(settings.primaries) + u64::from(settings.backups) <= 64
        && config.pwfield.bytes().len() <= 255
}

/// A core with kept rows, by the settings of a configuration; without rows its journal is empty. No configuration that is read
/// is too large, and no keeper keeps too many rows: either is answered as want of memory.
pub fn open_core(
    alloc: Global,
    config: &Config,
    salts: &Salts,
    rows: Rows,
) -> Result<Core, OpenFault>
    ensures opened { IfOk result (λ core. core ≡ kept.opened config.now.settings rows) }
    ensures good { OnOk result (kept.bad_row rows ≡ None) }
    ensures servable { OnOk result (is_servable config.now ≡ true) }
    ensures bad { IfErr result (λ fault. (place : ℕ) → fault ≡ OpenFault.BadRows place → kept.bad_row rows ≡ Some place) }
{
    if !is_within_bounds(config) || u32::try_from(rows.len()).is_err() {
        return Err(OpenFault::Memory);
    }
    // No attempt has the number 0, so nobody is shown this salt: names that come from outside are hashed with it.
    let secret = salts.salt(0);
    Core::open_keyed(alloc, config.settings.copy()?, rows, secret.as_slice())
}

/// How serving ended, by why no more clients are let in and by what became of the last flush: a door that failed is told in
/// any case.
fn end_of(end: ServeEnd, stored: Result<(), KeeperFault>) -> Result<ServeEnd, KeeperFault>
    ensures end { IfOk result (λ told. told ≡ end) }
    ensures stored { IfOk result (λ told. told ≢ ServeEnd.DoorFailed → IsOk stored) }
    ensures fault { IfErr result (λ fault. stored ≡ Err fault) }
    ensures failing { OnErr stored (TellsFailure result) }
{
    if end != ServeEnd::DoorFailed {
        stored?;
    }
    Ok(end)
}

/// Serves the clients that come through doors by this configuration, over a core with its settings; the salts are those of
/// stored hashes. A keeper gets the rows of the journal now and then, and once each session has ended: `Failed` says that it
/// did not take these last ones. Hands doors and keeper back.
pub fn serve_core<R, D, Q, K>(
    rt: &R,
    alloc: Global,
    core: Core,
    config: Config,
    salts: Salts,
    doors: D,
    equipment: Q,
    keeper: Option<K>,
) -> (Result<ServeEnd, KeeperFault>, D, Option<K>)
where
    R: Threads + Wait + Sync,
    D: Doors + Drop,
    D::In: Send + Drop,
    D::Out: Send + Drop,
    Q: Equipment + Drop,
    <Q::Dial as Dialer>::Line: Send,
    K: Keeper + Drop,
    requires settings { core.settings ≡ config.settings }
    requires pwfield { length config.pwfield ≤ 255 }
    ensures end { IfOk result.0 (λ end. EndsBy end (D.gave result.1) (D.ended result.1) (Rose (D.faults doors) (D.faults result.1))) }

    // Whatever the end, the keeper tells what it told, or the rows of a journal that the core reached; after its last flush those.
    ensures held { HoldsOldOrReached core (told_by K.told keeper) (told_by K.told result.2) }
    ensures stored { IfOk result.0 (λ end. end ≢ ServeEnd.DoorFailed → HoldsReached core (told_by K.told keeper) (told_by K.told result.2)) }

    // The last flush failed, and so did the last call on the keeper; then no end but that of doors that failed is told.
    ensures failed { result.0 ≡ Err KeeperFault.Failed → Rose (faults_by K.faults keeper) (faults_by K.faults result.2) × (failed_by K.failed result.2 ≡ true) }
    ensures failed_only { failed_by K.failed result.2 ≡ true → TellsFailure result.0 }
    ensures stays { Stays K.faults keeper result.2 }
{
    let Ok((desk, seat)) = Desk::new(alloc, core, config, salts) else {
        return (Err(KeeperFault::Memory), doors, keeper);
    };
    let Served {
        end,
        mut seat,
        doors,
        mut keeper,
    } = serve_clients(rt, alloc, &desk, seat, doors, equipment, keeper);
    let stored = store_rows(rt, alloc, &desk, &mut seat, &mut keeper);
    (end_of(end, stored), doors, keeper)
}
