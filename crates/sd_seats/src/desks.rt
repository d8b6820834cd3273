// Desks of a core without entries.
ghost use Rattle.std.specs.Prelude.{◌≡◌, ◌+◌, ◌≤◌, length, IfOk};
ghost use Rattle.sd_desk.specs.Desks.{IsOwn, HoldsNoTurn};

use sd_base::{Copied, Memory, Text, Texts};
use sd_conf::Config;
use sd_conf::servers::ServerList;
use sd_core::Core;
use sd_creds::Salts;
use sd_desk::{Desk, DeskSeat};
use sd_rules::{AccessMode, Rows, Settings, SimpleLists};
use std::alloc::Global;

fn one(alloc: Global, name: &[u8]) -> Result<Texts, Memory> {
    let mut list = Texts::new(alloc);
    list.push(Text::from_bytes(alloc, name)?)?;
    Ok(list)
}

/// Settings by which the journal takes so many entries. The moments of all calls are 0, so every answer
/// stays fresh. The user root is never looked up.
fn settings(alloc: Global, journal_limit: u32) -> Result<Settings, Memory>
    ensures { IfOk result (λ settings. settings.primaries + settings.backups ≤ 64) }
{
    Ok(Settings {
        user_timeout: 5400,
        group_timeout: 5400,
        negative_timeout: 15,
        nowait: 50,
        offline_timeout: 60,
        hbac_refresh: 5,
        expiration_days: 0,
        attempts: 0,
        delay_minutes: 5,
        cached_auth_timeout: 0,
        journal_limit,
        primaries: 1,
        backups: 0,
        cache_credentials: false,
        filter_users: one(alloc, b"root")?,
        filter_groups: Texts::new(alloc),
        access: AccessMode::Permit,
        simple: SimpleLists {
            allow_users: Texts::new(alloc),
            deny_users: Texts::new(alloc),
            allow_groups: Texts::new(alloc),
            deny_groups: Texts::new(alloc),
        },
        hostname: Text::from_bytes(alloc, b"client.test")?,
    })
}

fn config(alloc: Global, settings: Settings) -> Result<Config, Memory>
    ensures settings { IfOk result (λ config. config.settings ≡ settings) }
    ensures pwfield { IfOk result (λ config. length config.pwfield ≤ 255) }
{
    Ok(Config {
        settings,
        domain: Text::from_bytes(alloc, b"test")?,
        base: Text::from_bytes(alloc, b"dc=test")?,
        servers: ServerList::new(alloc),
        level: 2,
        pwfield: Text::from_bytes(alloc, b"*")?,
        unknown: 0,
    })
}

/// A desk whose journal takes so many entries, and its first seat.
pub fn opened(alloc: Global, journal_limit: u32) -> Result<(Desk, DeskSeat), Memory>
    ensures { IfOk result (λ made. IsOwn made.0 made.1 × HoldsNoTurn made.1) }
{
    let settings = settings(alloc, journal_limit)?;
    let Ok(core) = Core::open(alloc, settings.copy()?, Rows::new(alloc)) else {
        return Err(Memory);
    };
    Desk::new(alloc, core, config(alloc, settings)?, Salts::new([7; 32]))
}
