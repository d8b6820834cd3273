//! What stands before serving: the configuration, the salts, the store and the doors, in this order.
ghost use Rattle.std.specs.Prelude.{◌≡◌, ◌≢◌, ◌≤◌, ℕ, codes, length, true, is_some, IfOk, IfErr, IfSome, OnErr, OnOk, Err, Ok};
ghost use Rattle.std.specs.Io.KnownBytes.{Appends};
ghost use Rattle.sd_base.specs.Causes.{Rose};
ghost use Rattle.sd_conf.specs.Config.{conf_of, Answers};
ghost use Rattle.sd_conf.specs.declared.ConfFault.{ConfFault as ConfFaultValue};
ghost use Rattle.sd_server.specs.Refusals as refusals;
ghost use Rattle.sd_server.specs.HostStores.{bad_store, is_store_fault, Begins, BeginsBy, IsConfig, IsFailingStatus, IsNoStore, IsReady, IsStore, TakesBack, TellsOpening};

use crate::host::Host;
use crate::opening::{give_back, open_store};
use crate::refusals::{Stop, bad_store_text, refused_text};
use sd_base::{Memory, ReadEnd, Sink, SourceFailed, read_all};
use sd_conf::{ConfFault, Config, read_conf};
use sd_core::Core;
use sd_creds::Salts;
use sd_doors::{DoorFailed, Doors};
use sd_tools::endings::end;
use sd_tools::{DONE, NO_MEMORY, READ_FAULT, Status, TOO_LONG, WRITE_FAULT};
use std::alloc::Global;

/// The doors could not be made, or failed.
pub const DOOR_FAULT: Status = 9;

/// The configuration is refused.
pub const REFUSED: Status = 10;

/// The store could not be opened, read or written.
pub const STORE_FAULT: Status = 11;

/// The store is none.
pub const BAD_STORE: Status = 12;

/// The most bytes that a configuration has: 1 MiB.
const CONF_LIMIT: usize = 1_048_576;

fn parse(alloc: Global, text: &[u8]) -> Result<Config, Stop>
    ensures taken { IfOk result (λ config. conf_of text.now ≡ Ok config) }
    ensures refused { IfErr result (λ stop. (fault : ConfFaultValue) → stop ≡ Stop.Refused fault → Answers (Err fault) (conf_of text.now)) }
    ensures other { IfErr result (λ stop. (stop ≢ Stop.ReadFault) × (stop ≢ Stop.TooLong) × refusals.IsOfConfig stop) }
{
    match read_conf(alloc, text) {
        Ok(config) => Ok(config),
        Err(ConfFault::Memory) => Err(Stop::Memory),
        Err(fault) => Err(Stop::Refused(fault)),
    }
}

/// The configuration at a path.
fn read_config<H: Host>(alloc: Global, path: &str, host: &mut H) -> Result<Config, Stop>
    ensures taken { OnOk result (refusals.IsTaken (H.text_at host.old path.now)) }
    ensures config { IfOk result (IsConfig (H.text_at host.old path.now)) }
    ensures read { IfErr result (λ stop. stop ≡ Stop.ReadFault → Rose (H.source_faults host.old) (H.source_faults host.new)) }
    ensures long { IfErr result (λ stop. stop ≡ Stop.TooLong → refusals.IsTooLong (H.text_at host.old path.now)) }
    ensures refused { IfErr result (λ stop. (fault : ConfFaultValue) → stop ≡ Stop.Refused fault → refusals.IsRefused fault (H.text_at host.old path.now)) }
    ensures other { IfErr result refusals.IsOfConfig }
    ensures later { H.source_faults host.old ≤ H.source_faults host.new }
    ensures doors { H.door_faults host.new ≡ H.door_faults host.old }
    ensures store { H.stored host.new ≡ H.stored host.old }
{
    let mut file = match host.file(path) {
        Ok(file) => file,
        Err(SourceFailed) => return Err(Stop::ReadFault),
    };
    let read = read_all(alloc, &mut file, CONF_LIMIT);
    host.done_file(file);
    match read {
        Ok(text) => parse(alloc, text.as_slice()),
        Err(ReadEnd::Failed) => Err(Stop::ReadFault),
        Err(ReadEnd::TooLong) => Err(Stop::TooLong),
        Err(ReadEnd::Memory) => Err(Stop::Memory),
    }
}

/// The configuration, and the salts of a seed.
fn prepare<H: Host>(alloc: Global, conf: &str, host: &mut H) -> Result<(Config, Salts), Stop>
    ensures taken { OnOk result (refusals.IsTaken (H.text_at host.old conf.now)) }
    ensures config { IfOk result (λ made. IsConfig (H.text_at host.old conf.now) made.0) }
    ensures read { IfErr result (λ stop. stop ≡ Stop.ReadFault → Rose (H.source_faults host.old) (H.source_faults host.new)) }
    ensures long { IfErr result (λ stop. stop ≡ Stop.TooLong → refusals.IsTooLong (H.text_at host.old conf.now)) }
    ensures refused { IfErr result (λ stop. (fault : ConfFaultValue) → stop ≡ Stop.Refused fault → refusals.IsRefused fault (H.text_at host.old conf.now)) }
    ensures other { IfErr result refusals.IsOfConfig }
    ensures doors { H.door_faults host.new ≡ H.door_faults host.old }
    ensures store { H.stored host.new ≡ H.stored host.old }
{
    let config = read_config(alloc, conf, host)?;
    match host.seed() {
        Ok(seed) => Ok((config, Salts::new(seed))),
        Err(SourceFailed) => Err(Stop::ReadFault),
    }
}

/// The doors, and the keeper, where there is one; where no doors are made the keeper is handed back.
fn listen<H: Host>(
    socket: &str,
    keeper: Option<H::Store>,
    host: &mut H,
) -> Result<(Option<H::Store>, H::Door), DoorFailed>
    ensures same { IfOk result (λ made. made.0 ≡ keeper) }
    ensures untouched { IfOk result (λ made. H.Door.faults made.1 ≡ 0) }
    ensures opened { OnOk result (H.stored host.new ≡ H.stored host.old) }
    ensures doors { OnErr result (Rose (H.door_faults host.old) (H.door_faults host.new)) }
    ensures back { OnErr result (TakesBack H.Store.told H.Store.faults H.Store.failed (H.stored host.old) (H.stored host.new) keeper) }
    ensures later { H.door_faults host.old ≤ H.door_faults host.new }
{
    match host.listen(socket) {
        Ok(doors) => Ok((keeper, doors)),
        Err(DoorFailed) => {
            give_back(host, keeper);
            Err(DoorFailed)
        }
    }
}

/// What serving begins with.
#[derive(Drop)]
pub struct Begun<D: Drop, K: Drop> {
    pub config: Config,
    pub salts: Salts,
    pub core: Core,
    /// The keeper of the core's rows, where a store is given.
    pub keeper: Option<K>,
    pub doors: D,
}

/// The core with the rows of the store, and the doors, by a configuration.
fn enter<H: Host>(
    alloc: Global,
    socket: &str,
    store: Option<&str>,
    config: Config,
    salts: Salts,
    host: &mut H,
) -> Result<Begun<H::Door, H::Store>, Stop>
    ensures config { IfOk result (λ made. made.config ≡ config) }
    ensures untouched { IfOk result (λ made. H.Door.faults made.doors ≡ 0) }
    ensures settings { IfOk result (λ made. made.core.settings ≡ config.settings) }
    ensures pwfield { OnOk result (length config.pwfield ≤ 255) }
    ensures begun { IfOk result (λ made. is_some store.entry ≡ true → IfSome (H.stored host.old).blobs (λ blobs. BeginsBy config.settings blobs made.core)) }
    ensures ready { IfOk result (λ made. IsReady H.Store.told H.Store.failed (is_some store.entry) (H.stored host.old).blobs made.keeper) }
    ensures loaded { IfErr result (λ stop. stop ≡ Stop.DoorFault → is_some store.entry ≡ true → IfSome (H.stored host.old).blobs IsStore) }
    ensures bad { IfErr result (λ stop. (n : ℕ) → stop ≡ Stop.BadStore n → IfSome (H.stored host.old).blobs (IsNoStore n)) }
    ensures doors { IfErr result (λ stop. stop ≡ Stop.DoorFault → Rose (H.door_faults host.old) (H.door_faults host.new)) }
    ensures other { IfErr result refusals.IsNoneOfConfig }
    ensures opening { TellsOpening (is_some store.entry) (H.stored host.old) (H.stored host.new) (is_store_fault result) }
    ensures later { H.door_faults host.old ≤ H.door_faults host.new }
{
    let (core, keeper) = open_store(alloc, store, &config, &salts, host)?;
    match listen(socket, keeper, host) {
        Ok((keeper, doors)) => Ok(Begun {
            config,
            salts,
            core,
            keeper,
            doors,
        }),
        Err(DoorFailed) => Err(Stop::DoorFault),
    }
}

/// The configuration, the salts of a seed, the core with the rows of the store, and the doors.
pub fn begin<H: Host>(
    alloc: Global,
    conf: &str,
    socket: &str,
    store: Option<&str>,
    host: &mut H,
) -> Result<Begun<H::Door, H::Store>, Stop>
    ensures untouched { IfOk result (λ made. H.Door.faults made.doors ≡ 0) }
    ensures settings { IfOk result (λ made. made.core.settings ≡ made.config.settings) }
    ensures pwfield { IfOk result (λ made. length made.config.pwfield ≤ 255) }

    // The core has the rows of the store, where one is given, and the keeper tells what that holds.
    ensures begun { IfOk result (λ made. is_some store.entry ≡ true
        → IfSome (H.stored host.old).blobs (λ blobs. Begins (H.text_at host.old conf.now) blobs made.core)) }
    ensures ready { IfOk result (λ made. IsReady H.Store.told H.Store.failed (is_some store.entry) (H.stored host.old).blobs made.keeper) }

    // The configuration is taken wherever the store or the doors are tried, and the store wherever the doors are.
    ensures taken { OnOk result (refusals.IsTaken (H.text_at host.old conf.now)) }
    ensures loaded { IfErr result (λ stop. stop ≡ Stop.DoorFault → is_some store.entry ≡ true → IfSome (H.stored host.old).blobs IsStore) }
    ensures tried { IfErr result (λ stop. refusals.IsBehindConfig stop → refusals.IsTaken (H.text_at host.old conf.now)) }

    // Each cause of a stop.
    ensures read { IfErr result (λ stop. stop ≡ Stop.ReadFault → Rose (H.source_faults host.old) (H.source_faults host.new)) }
    ensures long { IfErr result (λ stop. stop ≡ Stop.TooLong → refusals.IsTooLong (H.text_at host.old conf.now)) }
    ensures refused { IfErr result (λ stop. (fault : ConfFaultValue) → stop ≡ Stop.Refused fault → refusals.IsRefused fault (H.text_at host.old conf.now)) }
    ensures bad { IfErr result (λ stop. (n : ℕ) → stop ≡ Stop.BadStore n → IfSome (H.stored host.old).blobs (IsNoStore n)) }
    ensures doors { IfErr result (λ stop. stop ≡ Stop.DoorFault → Rose (H.door_faults host.old) (H.door_faults host.new)) }
    ensures opening { TellsOpening (is_some store.entry) (H.stored host.old) (H.stored host.new) (is_store_fault result) }
    ensures later { H.door_faults host.old ≤ H.door_faults host.new }
{
    match prepare(alloc, conf, host) {
        Ok((config, salts)) => enter(alloc, socket, store, config, salts, host),
        Err(stop) => Err(stop),
    }
}

/// Tells why serving did not begin.
pub fn tell<W: Sink>(alloc: Global, sink: &mut W, stop: &Stop) -> Status
    ensures status { refusals.IsServeStatus result }
    ensures read { result ≡ READ_FAULT → stop.now ≡ Stop.ReadFault }
    ensures long { result ≡ TOO_LONG → (stop.now ≡ Stop.TooLong) × Appends (W.held sink.old) (W.held sink.new) (codes "too long\n") }
    ensures refused { result ≡ REFUSED → (fault : ConfFaultValue) × (stop.now ≡ Stop.Refused fault) × Appends (W.held sink.old) (W.held sink.new) (refusals.refused (refusals.why_refused fault)) }
    ensures store { result ≡ STORE_FAULT → (stop.now ≡ Stop.StoreFault) × Appends (W.held sink.old) (W.held sink.new) (codes "store fault\n") }
    ensures bad { result ≡ BAD_STORE → (n : ℕ) × (stop.now ≡ Stop.BadStore n) × Appends (W.held sink.old) (W.held sink.new) (bad_store n) }
    ensures doors { result ≡ DOOR_FAULT → (stop.now ≡ Stop.DoorFault) × Appends (W.held sink.old) (W.held sink.new) (codes "door fault\n") }
    ensures write { result ≡ WRITE_FAULT → Rose (W.faults sink.old) (W.faults sink.new) }
    ensures failing { stop.now ≡ Stop.StoreFault → IsFailingStatus result }
    ensures done { result ≢ DONE }
{
    match stop {
        Stop::ReadFault => READ_FAULT,
        Stop::TooLong => end(sink, TOO_LONG, b"too long\n"),
        Stop::Refused(fault) => match refused_text(alloc, fault) {
            Ok(text) => end(sink, REFUSED, text.as_slice()),
            Err(Memory) => NO_MEMORY,
        },
        Stop::StoreFault => end(sink, STORE_FAULT, b"store fault\n"),
        Stop::BadStore(number) => match bad_store_text(alloc, *number) {
            Ok(text) => end(sink, BAD_STORE, text.as_slice()),
            Err(Memory) => NO_MEMORY,
        },
        Stop::DoorFault => end(sink, DOOR_FAULT, b"door fault\n"),
        Stop::Memory => NO_MEMORY,
    }
}
