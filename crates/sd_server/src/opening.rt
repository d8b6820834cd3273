//! The store before serving: its keeper, and the core that begins with its rows.
ghost use Rattle.std.specs.Prelude.{◌≡◌, ◌≤◌, [], true, false, is_some, IfErr, IfOk, IfSome, None, OnOk};
ghost use Rattle.sd_base.specs.Causes.{Rose};
ghost use Rattle.sd_rules.specs.KeptRows as kept;
ghost use Rattle.sd_server.specs.Ends.{is_servable};
ghost use Rattle.sd_server.specs.HostStores.{is_store_fault, BeginsBy, IsReady, SaysOfRows, SaysOfStore, TakesBack, TellsOpening};

use crate::daemon::open_core;
use crate::host::Host;
use crate::refusals::Stop;
use sd_conf::Config;
use sd_core::{Core, OpenFault};
use sd_creds::Salts;
use sd_keeper::{Keeper, KeeperFault, LoadFault, load};
use sd_rules::Rows;
use std::alloc::Global;

/// A core with these rows, by the settings of a configuration.
fn begin_with(alloc: Global, config: &Config, salts: &Salts, rows: Rows) -> Result<Core, Stop>
    ensures opened { IfOk result (λ core. core ≡ kept.opened config.now.settings rows) }
    ensures good { OnOk result (kept.bad_row rows ≡ None) }
    ensures settings { IfOk result (λ core. core.settings ≡ config.now.settings) }
    ensures servable { OnOk result (is_servable config.now ≡ true) }
    ensures says { IfErr result (SaysOfRows rows) }
{
    match open_core(alloc, config, salts, rows) {
        Ok(core) => Ok(core),
        Err(OpenFault::BadRows(place)) => Err(Stop::BadStore(place)),
        Err(OpenFault::Memory) => Err(Stop::Memory),
    }
}

/// A core with the rows of a keeper.
fn begin_from<K: Keeper>(
    alloc: Global,
    config: &Config,
    salts: &Salts,
    keeper: &mut K,
) -> Result<Core, Stop>
    ensures begun { IfOk result (λ core. IfSome (K.told keeper.old) (λ blobs. BeginsBy config.now.settings blobs core)) }
    ensures settings { IfOk result (λ core. core.settings ≡ config.now.settings) }
    ensures servable { OnOk result (is_servable config.now ≡ true) }
    ensures says { IfErr result (SaysOfStore (K.told keeper.old)) }
    ensures same { K.told keeper.new ≡ K.told keeper.old }
    ensures last { K.failed keeper.new ≡ is_store_fault result }
    ensures cause { is_store_fault result ≡ true → Rose (K.faults keeper.old) (K.faults keeper.new) }
{
    match load(alloc, keeper) {
        Ok(rows) => begin_with(alloc, config, salts, rows),
        Err(LoadFault::Failed) => Err(Stop::StoreFault),
        Err(LoadFault::BadRow(place)) => Err(Stop::BadStore(place)),
        Err(LoadFault::BadVersion(version)) => Err(Stop::BadStore(version)),
        Err(LoadFault::Memory) => Err(Stop::Memory),
    }
}

/// The keeper of the store at a path, and a core with its rows.
fn open_at<H: Host>(
    alloc: Global,
    path: &str,
    config: &Config,
    salts: &Salts,
    host: &mut H,
) -> Result<(Core, H::Store), Stop>
    ensures begun { IfOk result (λ made. IfSome (H.stored host.old).blobs (λ blobs. BeginsBy config.now.settings blobs made.0)) }
    ensures settings { IfOk result (λ made. made.0.settings ≡ config.now.settings) }
    ensures servable { OnOk result (is_servable config.now ≡ true) }
    ensures tells { IfOk result (λ made. H.Store.told made.1 ≡ (H.stored host.old).blobs) }
    ensures unfailed { IfOk result (λ made. H.Store.failed made.1 ≡ false) }
    ensures says { IfErr result (SaysOfStore (H.stored host.old).blobs) }
    ensures opening { TellsOpening true (H.stored host.old) (H.stored host.new) (is_store_fault result) }
    ensures doors { H.door_faults host.new ≡ H.door_faults host.old }
{
    let mut keeper = match host.keeper(path) {
        Ok(keeper) => keeper,
        Err(KeeperFault::Failed) => return Err(Stop::StoreFault),
        Err(KeeperFault::Memory) => return Err(Stop::Memory),
    };
    match begin_from(alloc, config, salts, &mut keeper) {
        Ok(core) => Ok((core, keeper)),
        Err(stop) => {
            host.done_keeper(keeper);
            Err(stop)
        }
    }
}

/// The keeper of the store, where one is given, and a core with its rows; without a store its journal is empty.
pub fn open_store<H: Host>(
    alloc: Global,
    store: Option<&str>,
    config: &Config,
    salts: &Salts,
    host: &mut H,
) -> Result<(Core, Option<H::Store>), Stop>
    ensures begun { IfOk result (λ made. is_some store.entry ≡ true → IfSome (H.stored host.old).blobs (λ blobs. BeginsBy config.now.settings blobs made.0)) }
    ensures empty { IfOk result (λ made. is_some store.entry ≡ false → made.0 ≡ kept.opened config.now.settings []) }
    ensures settings { IfOk result (λ made. made.0.settings ≡ config.now.settings) }
    ensures servable { OnOk result (is_servable config.now ≡ true) }
    ensures ready { IfOk result (λ made. IsReady H.Store.told H.Store.failed (is_some store.entry) (H.stored host.old).blobs made.1) }
    ensures says { IfErr result (SaysOfStore (H.stored host.old).blobs) }
    ensures opening { TellsOpening (is_some store.entry) (H.stored host.old) (H.stored host.new) (is_store_fault result) }
    ensures doors { H.door_faults host.new ≡ H.door_faults host.old }
{
    match store {
        Some(path) => {
            let (core, keeper) = open_at(alloc, path, config, salts, host)?;
            Ok((core, Some(keeper)))
        }
        None => {
            let core = begin_with(alloc, config, salts, Rows::new(alloc))?;
            Ok((core, None))
        }
    }
}

/// Hands a keeper back, where there is one.
pub fn give_back<H: Host>(host: &mut H, keeper: Option<H::Store>)
    ensures store { TakesBack H.Store.told H.Store.faults H.Store.failed (H.stored host.old) (H.stored host.new) keeper }
    ensures doors { H.door_faults host.new ≡ H.door_faults host.old }
    ensures told { (H.gave host.new ≡ H.gave host.old) × (H.ended host.new ≡ H.ended host.old) }
{
    if let Some(keeper) = keeper {
        host.done_keeper(keeper);
    }
}
