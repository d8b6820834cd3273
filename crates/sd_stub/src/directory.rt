//! The directory and its answers.
ghost use Rattle.std.specs.Prelude.{◌≡◌, ◌<◌, ◌≤◌, ℕ, Bool, List, [], ◌∷◌, ◌++◌, length, filter, not, IfOk, OnOk, OnErr, IfErr, MatchOption, Option, Some, None, slice_set};
ghost use Rattle.sd_dn.specs.Comparing.{same_dn};
ghost use Rattle.sd_dn.specs.Texts.{spelled, both_meet};
ghost use Rattle.sd_ldap.specs.declared.entry.DirEntry.{DirEntry};
ghost use Rattle.sd_ldap.specs.Values.{message_value};
ghost use Rattle.sd_ldap.specs.MessageReading.{whole};
ghost use Rattle.sd_match.specs.Answering.{answer_to, answer_decoded, reply_bytes};
ghost use Rattle.sd_places.specs.Covers.{present};
ghost use Rattle.sd_places.specs.Index.{IsIndex};
ghost use Rattle.sd_places.specs.Keeping.{put, removed, kept};
ghost use Rattle.sd_places.specs.Naming.{AreNamed};
ghost use Rattle.sd_stub.specs.Faults.{fault_of, fault_in, Tells};

use crate::answering::replies;
use crate::fault::StubFault;
use sd_base::{Memory, Text};
use sd_dn::{Dn, spelled};
use sd_ldap::{Decoded, DirEntry, Message, decode};
use sd_places::{
    Index, Names, Placed, Slots, by_name, clear, fill, index_of, keep_place, place_of,
};
use std::alloc::Global;
use std::marker::Model;

/// The fewest puts between two makings of an index.
const FEWEST: usize = 1024;

/// Entries, no two of one DN, with their places by DN and an index by their DNs and values.
///
/// A put, a removal and a bind take the time of a lookup in a map. Places that the index has of entries that are gone
/// stay in it until it is made anew: after as many puts and removals as there were places when it was made last.
pub struct Directory {
    alloc: Global,
    slots: Slots,
    names: Names,
    index: Index,
    /// How many more puts and removals there are before the index is made anew.
    left: usize,
}

impl Drop for Directory {
    fn drop(self) {
        let Directory {
            alloc: _,
            slots: _,
            names: _,
            index: _,
            left: _,
        } = self;
    }
}

impl Model for Directory {
    ghost use Rattle.std.specs.Prelude.{List};
    ghost use Rattle.sd_ldap.specs.declared.entry.DirEntry.{DirEntry};
    ghost use Rattle.sd_places.specs.Covers.{present};
    ghost use Rattle.sd_places.specs.Index.{IsIndex};
    ghost use Rattle.sd_places.specs.Naming.{AreNamed};

    ghost Value = { List DirEntry };

    ghost view = { λ d. present d.slots };

    ghost invariant = { λ d. AreNamed d.names.entries d.slots × IsIndex d.index d.slots };
}

/// Puts an entry, and its place into the index.
fn put_placed(
    alloc: Global,
    slots: &mut Slots,
    names: &mut Names,
    index: &mut Index,
    placed: Placed,
) -> Result<(), Memory>
    requires named { AreNamed names.old.entries slots.old }
    requires index { IsIndex index.old slots.old }
    ensures named { AreNamed names.new.entries slots.new }
    ensures index { IsIndex index.new slots.new }
    ensures ok { OnOk result (present slots.new ≡ put (present slots.old) placed) }
    ensures err { OnErr result (present slots.new ≡ present slots.old) }
{
    let place = keep_place(alloc, slots, names, &placed)?;
    index.put_entry(alloc, place, &placed)?;
    fill(slots, names, place, placed);
    Ok(())
}

/// Takes the entry of a DN out, where it is there; its places stay in the index.
fn take_placed(
    alloc: Global,
    slots: &mut Slots,
    names: &Names,
    index: &Index,
    dn: &Option<Dn>,
) -> Result<(), Memory>
    requires named { AreNamed names.now.entries slots.old }
    requires index { IsIndex index.now slots.old }
    ensures named { AreNamed names.now.entries slots.new }
    ensures index { IsIndex index.now slots.new }
    ensures ok { OnOk result (present slots.new ≡ filter (λ (e : DirEntry). not (both_meet same_dn (spelled e.dn) dn.now)) (present slots.old)) }
    ensures err { OnErr result (present slots.new ≡ present slots.old) }
{
    match place_of(alloc, slots.items(), names, dn)? {
        Some(place) => {
            clear(slots, names, place, dn);
            Ok(())
        }
        None => Ok(()),
    }
}

impl Directory {
    /// A directory of these entries: of entries whose DNs are equal the last, in the place of the first.
    pub fn new(alloc: Global, entries: Vec<DirEntry>) -> Result<Directory, Memory>
        ensures { IfOk result (λ directory. directory ≡ kept entries.items) }
    {
        let (slots, names) = by_name(alloc, entries)?;
        let index = index_of(alloc, slots.items())?;
        let left = slots.len().max(FEWEST);
        Ok(Directory {
            alloc,
            slots,
            names,
            index,
            left,
        })
    }

    /// Makes the index anew, where it is time.
    fn renew(&mut self) -> Result<(), Memory>
        ensures { self.new ≡ self.old }
    {
        if self.left > 0 {
            self.left -= 1;
            return Ok(());
        }
        self.index = index_of(self.alloc, self.slots.items())?;
        self.left = self.slots.len().max(FEWEST);
        Ok(())
    }

    /// Puts an entry in the place of the one that has its DN, else behind all.
    pub fn put(&mut self, entry: DirEntry) -> Result<(), Memory>
        ensures ok { OnOk result (self.new ≡ put self.old entry) }
        ensures err { OnErr result (self.new ≡ self.old) }
    {
        self.renew()?;
        let placed = Placed::new(self.alloc, entry)?;
        put_placed(
            self.alloc,
            &mut self.slots,
            &mut self.names,
            &mut self.index,
            placed,
        )
    }

    /// Takes the entry of a DN out, where it is there.
    pub fn take_out(&mut self, dn: &Text) -> Result<(), Memory>
        ensures ok { OnOk result (self.new ≡ removed self.old dn.now) }
        ensures err { OnErr result (self.new ≡ self.old) }
    {
        self.renew()?;
        let dn = spelled(self.alloc, dn.bytes())?;
        take_placed(self.alloc, &mut self.slots, &self.names, &self.index, &dn)
    }

    /// The bytes that answer a request.
    pub fn answer(&self, request: &[u8]) -> Result<Vec<u8>, StubFault>
        ensures bytes { IfOk result (λ v. v.items ≡ answer_to self.now request.now) }
        // It is one message exactly where it has an answer.
        ensures whole { OnOk result (fault_of request.now ≡ None) }
        ensures bad { IfErr result (λ fault. Tells fault (fault_of request.now)) }
    {
        match decode(self.alloc, request) {
            Decoded::Whole(message, used) => self.answer_message(request, &message, used),
            Decoded::More => Err(StubFault::Bad(request.len() as u64)),
            Decoded::Bad(at) => Err(StubFault::Bad(at)),
            Decoded::Memory => Err(StubFault::Memory),
        }
    }

    /// The answer to a request that begins with a message of so many bytes.
    fn answer_message(
        &self,
        request: &[u8],
        message: &Message,
        used: u64,
    ) -> Result<Vec<u8>, StubFault>
        ensures bytes { IfOk result (λ v. v.items ≡ answer_decoded self.now (length request.now) (whole (message_value message.now) used)) }
        ensures whole { OnOk result (fault_in (length request.now) (whole (message_value message.now) used) ≡ None) }
        ensures bad { IfErr result (λ fault. Tells fault (fault_in (length request.now) (whole (message_value message.now) used))) }
    {
        if used != request.len() as u64 {
            return Err(StubFault::Bad(used));
        }
        Ok(self.replies(message)?)
    }

    /// The bytes of the replies to a message.
    pub(crate) fn replies(&self, message: &Message) -> Result<Vec<u8>, Memory>
        ensures { IfOk result (λ v. v.items ≡ reply_bytes self.now (message_value message.now)) }
    {
        replies(
            self.alloc,
            self.slots.items(),
            &self.names,
            &self.index,
            message,
        )
    }

    pub(crate) fn allocator(&self) -> Global {
        self.alloc
    }
}
