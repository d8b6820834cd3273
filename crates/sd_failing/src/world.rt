// The directory that is asked, and the cores that sessions begin with.
ghost use Rattle.std.specs.Prelude.{◌≡◌, ◌+◌, ◌≤◌, true, length, IfOk};

use sd_base::{Copied, Memory};
use sd_conf::{Config, read_conf};
use sd_core::Core;
use sd_ldap::DirEntry;
use sd_ldif::read_ldif;
use sd_rules::Rows;
use sd_stub::Directory;
use std::alloc::Global;

/// What stands in the directory.
const ENTRIES: &[u8] = b"\
dn: uid=alice,dc=test
objectClass: posixAccount
uid: alice
uidNumber: 1000
gidNumber: 1000
homeDirectory: /home/alice
loginShell: /bin/sh
userPassword: wonderland

";

fn copies(alloc: Global, entries: &[DirEntry]) -> Result<Vec<DirEntry>, Memory> {
    let mut copies = Vec::new(alloc);
    for entry in entries {
        copies.push(entry.copy()?)?;
    }
    Ok(copies)
}

/// The directory that each server has.
pub fn directory_of(alloc: Global) -> Result<Directory, Memory> {
    let Ok(entries) = read_ldif(alloc, ENTRIES) else {
        return Err(Memory);
    };
    Directory::new(alloc, copies(alloc, entries.items())?)
}

/// What a text configures. No case has one that is refused, or is too large: such a one is answered as want of memory.
pub fn config_of(alloc: Global, text: &[u8]) -> Result<Config, Memory>
    ensures servers { IfOk result (λ config. config.settings.primaries + config.settings.backups ≤ 64) }
    ensures pwfield { IfOk result (λ config. length config.pwfield ≤ 255) }
{
    let Ok(config) = read_conf(alloc, text) else {
        return Err(Memory);
    };
    if !is_small(&config) {
        return Err(Memory);
    }
    Ok(config)
}

fn is_small(config: &Config) -> bool
    ensures servers { result ≡ true → config.now.settings.primaries + config.now.settings.backups ≤ 64 }
    ensures pwfield { result ≡ true → length config.now.pwfield ≤ 255 }
{
    let Config {
        settings,
        pwfield,
        ..
    } = config;
    settings.primaries <= 32 && settings.backups <= 32 && pwfield.bytes().len() <= 255
}

/// A core without entries.
pub fn core_of(alloc: Global, config: &Config) -> Result<Core, Memory>
    requires { config.now.settings.primaries + config.now.settings.backups ≤ 64 }
    ensures { IfOk result (λ core. core.settings ≡ config.now.settings) }
{
    match Core::open(alloc, config.settings.copy()?, Rows::new(alloc)) {
        Ok(core) => Ok(core),
        Err(_) => Err(Memory),
    }
}
