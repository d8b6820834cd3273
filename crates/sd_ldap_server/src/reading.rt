//! The directory that an LDIF has.
ghost use Rattle.std.specs.Prelude.{◌≡◌, ◌≤◌, length, IfErr, IfOk, IfSome, Err};
ghost use Rattle.sd_base.specs.Causes.{Rose};
ghost use Rattle.sd_ldap_server.specs.Refusals as refusals;
ghost use Rattle.sd_places.specs.Keeping.{kept};

use crate::refusals::Stop;
use sd_base::{Copied, Memory, ReadEnd, Source, read_all};
use sd_ldap::DirEntry;
use sd_ldif::{LdifFault, read_ldif};
use sd_stub::Directory;
use std::alloc::Global;

/// The most bytes that an LDIF has: 64 MiB.
const LDIF_LIMIT: usize = 67_108_864;

fn copies(alloc: Global, entries: &[DirEntry]) -> Result<Vec<DirEntry>, Memory>
    ensures { IfOk result (λ copies. copies.items ≡ entries.now) }
{
    let mut copies = Vec::new(alloc);
    for entry in entries {
        copies.push(entry.copy()?)?;
    }
    Ok(copies)
}

/// The directory of these entries.
fn directory_of(alloc: Global, entries: &[DirEntry]) -> Result<Directory, Memory>
    ensures { IfOk result (λ directory. directory ≡ kept entries.now) }
{
    Directory::new(alloc, copies(alloc, entries)?)
}

/// The directory that a text has.
fn parse(alloc: Global, text: &[u8]) -> Result<Directory, Stop>
    requires { length text.now ≤ LDIF_LIMIT }
    ensures taken { IfOk result (λ directory. refusals.IsDirectory text.now directory) }
    ensures stop { IfErr result (λ stop. refusals.StopsRead stop text.now) }
{
    match read_ldif(alloc, text) {
        Ok(entries) => Ok(directory_of(alloc, entries.items())?),
        Err(LdifFault::Memory) => Err(Stop::Memory),
        Err(fault) => Err(Stop::Refused(fault)),
    }
}

/// Reads a directory to its end, in the LDAP Data Interchange Format (RFC 2849). Of entries whose DNs are equal it keeps the
/// last, in the place of the first.
pub fn read_directory<S: Source>(alloc: Global, ldif: &mut S) -> Result<Directory, Stop>
    ensures taken { IfOk result (λ directory. IfSome (S.left ldif.old) (λ text. refusals.IsDirectory text directory)) }
    ensures stop { IfErr result (λ stop. IfSome (S.left ldif.old) (λ text. refusals.Stops stop text)) }
    ensures fault { result ≡ Err Stop.ReadFault → Rose (S.faults ldif.old) (S.faults ldif.new) }
{
    match read_all(alloc, ldif, LDIF_LIMIT) {
        Ok(text) => parse(alloc, text.as_slice()),
        Err(ReadEnd::Failed) => Err(Stop::ReadFault),
        Err(ReadEnd::TooLong) => Err(Stop::TooLong),
        Err(ReadEnd::Memory) => Err(Stop::Memory),
    }
}
