//! Directories of entries that are short.
ghost use Rattle.std.specs.Prelude.{◌≡◌, true, IfOk, OnOk, OnErr};
ghost use Rattle.sd_dial.specs.Rooms.{is_short, are_short};
ghost use Rattle.sd_stub_link.specs.Distinct.{have_own_dns};
ghost use Rattle.sd_places.specs.Keeping.{put, put_all, removed, kept};

use crate::room::{are_short, is_short};
use sd_base::{Copied, Memory, Text};
use sd_ldap::DirEntry;
use sd_stub::Directory;
use std::alloc::Global;
use std::marker::Model;

fn copies(alloc: Global, entries: &[DirEntry]) -> Result<Vec<DirEntry>, Memory>
    ensures { IfOk result (λ copies. copies.items ≡ entries.now) }
{
    let mut copies = Vec::new(alloc);
    for entry in entries {
        copies.push(entry.copy()?)?;
    }
    Ok(copies)
}

/// The directory of these entries.
fn directory_of(alloc: Global, entries: &[DirEntry]) -> Result<Directory, Memory>
    ensures kept { IfOk result (λ directory. directory ≡ kept entries.now) }
    ensures own { IfOk result (λ directory. have_own_dns directory ≡ true) }
{
    Directory::new(alloc, copies(alloc, entries)?)
}

/// The directory of these entries, where each takes less than 4 GiB in a message; longer ones count as want of
/// memory.
pub fn short_directory(alloc: Global, entries: &[DirEntry]) -> Result<Directory, Memory>
    ensures kept { IfOk result (λ directory. directory ≡ kept entries.now) }
    ensures own { IfOk result (λ directory. have_own_dns directory ≡ true) }
    ensures short { IfOk result (λ directory. are_short directory ≡ true) }
{
    if !are_short(entries) {
        return Err(Memory);
    }
    directory_of(alloc, entries)
}

#[tactic(auto, using(crate::proofs::OwnDns::own_next, crate::proofs::Rooms::short_next))]
fn put_short(directory: &mut Directory, entry: DirEntry) -> Result<(), Memory>
    requires own { have_own_dns directory.old ≡ true }
    requires short { are_short directory.old ≡ true }
    requires fits { is_short entry ≡ true }
    ensures own { have_own_dns directory.new ≡ true }
    ensures short { are_short directory.new ≡ true }
    ensures ok { OnOk result (directory.new ≡ put directory.old entry) }
    ensures err { OnErr result (directory.new ≡ directory.old) }
{
    directory.put(entry)?;
    Ok(())
}

#[tactic(auto, using(crate::proofs::OwnDns::own_left, crate::proofs::Rooms::short_left))]
fn take_short(directory: &mut Directory, dn: &Text) -> Result<(), Memory>
    requires own { have_own_dns directory.old ≡ true }
    requires short { are_short directory.old ≡ true }
    ensures own { have_own_dns directory.new ≡ true }
    ensures short { are_short directory.new ≡ true }
    ensures ok { OnOk result (directory.new ≡ removed directory.old dn.now) }
    ensures err { OnErr result (directory.new ≡ directory.old) }
{
    directory.take_out(dn)?;
    Ok(())
}

/// A directory whose entries each take less than 4 GiB in a message. A longer one that is put counts as want of memory.
#[derive(Drop)]
pub struct ShortDirectory {
    directory: Directory,
}

impl Model for ShortDirectory {
    ghost use Rattle.std.specs.Prelude.{◌≡◌, true, List};
    ghost use Rattle.sd_dial.specs.Rooms.{are_short};
    ghost use Rattle.sd_ldap.specs.declared.entry.DirEntry.{DirEntry};
    ghost use Rattle.sd_stub_link.specs.Distinct.{have_own_dns};

    ghost Value = { List DirEntry };

    ghost view = { λ d. d.directory };

    ghost invariant = { λ d. (have_own_dns d.directory ≡ true) × (are_short d.directory ≡ true) };
}

impl ShortDirectory {
    /// The directory of these entries: of entries whose DNs are equal the last, in the place of the first.
    pub fn new(alloc: Global, entries: &[DirEntry]) -> Result<ShortDirectory, Memory>
        ensures { IfOk result (λ directory. directory ≡ kept entries.now) }
    {
        let directory = short_directory(alloc, entries)?;
        Ok(ShortDirectory { directory })
    }

    pub fn directory(&self) -> &Directory
        ensures same { result.now ≡ self.now }
        ensures own { have_own_dns self.now ≡ true }
        ensures short { are_short self.now ≡ true }
    {
        &self.directory
    }

    /// Puts an entry in the place of the one that has its DN, else behind all.
    pub fn put(&mut self, entry: DirEntry) -> Result<(), Memory>
        ensures ok { OnOk result (self.new ≡ put self.old entry) }
        ensures err { OnErr result (self.new ≡ self.old) }
    {
        if !is_short(&entry) {
            return Err(Memory);
        }
        put_short(&mut self.directory, entry)
    }

    /// Puts entries one after the other.
    pub fn put_all(&mut self, entries: &[DirEntry]) -> Result<(), Memory>
        ensures { OnOk result (self.new ≡ put_all self.old entries.now) }
    {
        for entry in entries {
            self.put(entry.copy()?)?;
        }
        Ok(())
    }

    /// Takes the entry of a DN out, where it is there.
    pub fn take_out(&mut self, dn: &Text) -> Result<(), Memory>
        ensures ok { OnOk result (self.new ≡ removed self.old dn.now) }
        ensures err { OnErr result (self.new ≡ self.old) }
    {
        take_short(&mut self.directory, dn)
    }
}
