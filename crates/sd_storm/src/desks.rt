//! The desk that the sessions are at.
ghost use Rattle.std.specs.Prelude.{◌≡◌, ◌≤◌, ◌+◌, IfOk, OnOk, length};
ghost use Rattle.sd_desk.specs.Desks.{IsOwn, HoldsNoTurn};

use sd_base::{Copied, Memory};
use sd_conf::{Config, read_conf};
use sd_core::Core;
use sd_creds::Salts;
use sd_desk::{Desk, DeskSeat};
use sd_layout::head_of;
use sd_rules::{Entry, Reply, Rows};
use std::alloc::Global;

/// The configuration of a scenario that gives none.
pub fn default_config(alloc: Global) -> Result<Config, Memory> {
    let head = head_of(alloc, b"")?;
    match read_conf(alloc, head.origin.text()) {
        Ok(config) => Ok(config),
        Err(_) => Err(Memory),
    }
}

/// A core without entries.
fn open_core(alloc: Global, config: &Config) -> Result<Core, Memory>
    ensures { IfOk result (λ core. core.settings ≡ config.now.settings) }
{
    let settings = config.settings.copy()?;
    if u64::from(settings.primaries) + u64::from(settings.backups) > 64 {
        return Err(Memory);
    }
    match Core::open(alloc, settings, Rows::new(alloc)) {
        Ok(core) => Ok(core),
        Err(_) => Err(Memory),
    }
}

/// A desk with an empty journal, and its first seat. The salts are those of a scenario: no login comes.
pub fn open_desk(alloc: Global, config: Config) -> Result<(Desk, DeskSeat), Memory>
    ensures own { IfOk result (λ made. IsOwn made.0 made.1) }
    ensures free { IfOk result (λ made. HoldsNoTurn made.1) }
{
    if config.pwfield.bytes().len() > 255 {
        return Err(Memory);
    }
    let core = open_core(alloc, &config)?;
    Desk::new(alloc, core, config, Salts::new([b's'; 32]))
}

/// Whether an entry led a request to the directory.
fn is_led(entry: &Entry) -> bool {
    matches!(entry.reply, Reply::Lead(_))
}

/// Ends the desk once no session holds its turn, and tells how many entries of its journal led a request to the directory. A forget
/// leaves these while the answers that they led to are the newest of their names.
pub fn close_desk(desk: Desk, seat: DeskSeat) -> Result<usize, Memory>
    requires own { IsOwn desk seat }
    requires free { HoldsNoTurn seat }
{
    match desk.close(seat) {
        Ok(core) => Ok(core.journal().iter().filter(|entry| is_led(entry)).count()),
        Err(_) => Err(Memory),
    }
}
