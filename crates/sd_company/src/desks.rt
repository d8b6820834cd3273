// Desks of a core without entries, and the directory that sessions at them ask.
ghost use Rattle.std.specs.Prelude.{IfOk};
ghost use Rattle.sd_desk.specs.Desks.{IsOwn, HoldsNoTurn};

use sd_base::{Copied, Memory};
use sd_conf::{Config, read_conf};
use sd_core::Core;
use sd_creds::Salts;
use sd_desk::{Desk, DeskSeat};
use sd_ldap::DirEntry;
use sd_ldif::read_ldif;
use sd_rules::Rows;
use sd_stub::Directory;
use std::alloc::Global;

fn configuration() -> &'static [u8] {
    b"[sssd]\ndomains = test\n[domain/test]\nid_provider = ldap\nldap_uri = ldap://s0\nldap_search_base = dc=test\n"
}

/// A desk by this configuration. No configuration that is read is too large: such a one is answered as want of memory.
fn opened_by(alloc: Global, config: Config) -> Result<(Desk, DeskSeat), Memory>
    ensures { IfOk result (λ made. IsOwn made.0 made.1 × HoldsNoTurn made.1) }
{
    let settings = config.settings.copy()?;
    if settings.primaries > 32 || settings.backups > 32 || config.pwfield.bytes().len() > 255 {
        return Err(Memory);
    }
    let Ok(core) = Core::open(alloc, settings, Rows::new(alloc)) else {
        return Err(Memory);
    };
    Desk::new(alloc, core, config, Salts::new([7; 32]))
}

/// A desk whose journal takes so many entries, and its first seat.
pub fn opened(alloc: Global, journal_limit: u32) -> Result<(Desk, DeskSeat), Memory>
    ensures { IfOk result (λ made. IsOwn made.0 made.1 × HoldsNoTurn made.1) }
{
    let Ok(mut config) = read_conf(alloc, configuration()) else {
        return Err(Memory);
    };
    config.settings.journal_limit = journal_limit;
    opened_by(alloc, config)
}

/// The entry of a user as a text.
fn record_of(alloc: Global, user: u32) -> Result<String, Memory> {
    let uid = user.saturating_add(1000);
    Ok(format!(in alloc;
        "dn: uid=u{user},dc=test\nobjectClass: posixAccount\nuid: u{user}\ncn: u{user}\nuidNumber: {uid}\ngidNumber: 100\nhomeDirectory: /home/u{user}\nloginShell: /bin/sh\n\n"
    )?)
}

fn text_of(alloc: Global, users: u32) -> Result<Vec<u8>, Memory> {
    let mut text = Vec::new(alloc);
    for user in 0..users {
        text.extend_from_slice(record_of(alloc, user)?.as_bytes())?;
    }
    Ok(text)
}

fn copies(alloc: Global, entries: &[DirEntry]) -> Result<Vec<DirEntry>, Memory> {
    let mut copies = Vec::new(alloc);
    for entry in entries {
        copies.push(entry.copy()?)?;
    }
    Ok(copies)
}

/// A directory of the users `u0` and so on, so many.
pub fn directory_of(alloc: Global, users: u32) -> Result<Directory, Memory> {
    let text = text_of(alloc, users)?;
    let Ok(entries) = read_ldif(alloc, text.as_slice()) else {
        return Err(Memory);
    };
    Directory::new(alloc, copies(alloc, entries.items())?)
}
