// What is asked of an entry once its journal was gone over: so most entries need not be read again.
ghost use Rattle.std.specs.Prelude.{◌≡◌, ◌∷◌, [], ◌<◌, List, length, slice_index_or, IfOk, OnOk, None};
ghost use Rattle.sd_rules.specs.declared.replies.Entry.{Entry};
ghost use Rattle.sd_findings.specs.Briefs as briefs;

use sd_base::Memory;
use sd_needs::requests::is_again;
use sd_rules::{Entry, Event, Reply};
use std::alloc::Global;

/// What is asked of an entry: a small part of it.
#[derive(Clone, Copy)]
pub struct Brief {
    pub number: u64,
    pub traits: Traits,
}

/// What is asked of an entry beside its number.
#[derive(Clone, Copy)]
pub struct Traits {
    /// Whether its number alone tells if it is looked at, as of most entries: questions, and the ends of requests.
    pub is_plain: bool,
    /// Whether it is an answer that was replied Again.
    pub is_again: bool,
}

/// The briefs of a journal's entries, the oldest first, in six bytes each.
#[derive(Drop)]
pub struct Briefs {
    /// The number of the first entry.
    pub first: u64,
    /// How far each number is above the first, or `FAR`.
    pub offsets: Vec<u32>,
    pub traits: Vec<Traits>,
}

/// What is kept of a number that is as far from the first, farther, or below it: the entry itself is read for it.
const FAR: u32 = u32::MAX;

/// Whether an entry of this event is looked at for its number alone, and says nothing of answers, users or servers.
pub(crate) fn is_plain(event: &Event) -> bool
    ensures { result ≡ briefs.is_plain event.now }
{
    match event {
        Event::Ask(_)
        | Event::Refuse(_, _)
        | Event::Outage(_)
        | Event::Abandon(_)
        | Event::Collect(_)
        | Event::Leave(_)
        | Event::Offline
        | Event::LoginOpen(_)
        | Event::LoginLook(_)
        | Event::Access(_, _) => true,
        Event::Pick(_)
        | Event::Fall(_, _, _)
        | Event::Answer(_, _)
        | Event::Void(_)
        | Event::Online
        | Event::Stop
        | Event::LoginOnline(_, _)
        | Event::LoginGuess(_, _, _)
        | Event::LoginTry(_, _, _)
        | Event::Kept(_) => false,
    }
}

/// The request of an answer that was replied Again.
pub fn request_again(event: &Event, reply: Reply) -> Option<u64>
    ensures { result ≡ briefs.request_again event.now reply }
{
    match event {
        Event::Answer(request, _) => {
            if is_again(reply) {
                Some(*request)
            } else {
                None
            }
        }
        _ => None,
    }
}

fn traits_of(entry: &Entry) -> Traits
    ensures { result ≡ briefs.traits_of entry.now }
{
    Traits {
        is_plain: is_plain(&entry.event),
        is_again: request_again(&entry.event, entry.reply).is_some(),
    }
}

fn offset_of(first: u64, number: u64) -> u32
    ensures { result ≡ briefs.offset_of first number }
{
    if number < first {
        return FAR;
    }
    let offset = number - first;
    if offset < u64::from(FAR) {
        offset as u32
    } else {
        FAR
    }
}

/// The number of an entry, by how far it is above the first.
#[tactic(auto, using(crate::proofs::OffsetLaws::number_again))]
fn number_of(first: u64, offset: u32, entry: &Entry) -> u64
    requires { offset ≡ briefs.offset_of first entry.now.number }
    ensures { result ≡ entry.now.number }
{
    if offset == FAR {
        return entry.number;
    }
    match first.checked_add(u64::from(offset)) {
        Some(number) => number,
        None => entry.number,
    }
}

fn number_of_first(entries: &[Entry]) -> u64 {
    match entries {
        [] => 0,
        [first, ..] => first.number,
    }
}

/// No briefs yet, with room for those of all these entries.
pub(crate) fn no_briefs(alloc: Global, entries: &[Entry]) -> Result<Briefs, Memory>
    ensures { IfOk result (λ made. briefs.AreBriefsOf [] made) }
{
    let offsets = Vec::with_capacity(alloc, entries.len())?;
    let traits = Vec::with_capacity(alloc, entries.len())?;
    Ok(Briefs {
        first: number_of_first(entries),
        offsets,
        traits,
    })
}

/// Notes the brief of one more entry.
pub(crate) fn note_brief(made: &mut Briefs, entry: &Entry) -> Result<(), Memory>
    ensures { OnOk result ((part : List Entry) → briefs.AreBriefsOf part made.old → briefs.AreBriefsOf (entry.now ∷ part) made.new) }
{
    made.offsets.push(offset_of(made.first, entry.number))?;
    made.traits.push(traits_of(entry))?;
    Ok(())
}

/// The brief of the entry at a place, by those of all.
pub fn brief_at(entries: &[Entry], made: &Briefs, place: usize, entry: &Entry) -> Brief
    requires briefs { briefs.AreBriefs entries.now made.now }
    requires within { place < length entries.now }
    requires at { entry.now ≡ slice_index_or entries.now place entry.now }
    ensures { result ≡ briefs.brief_of entry.now }
{
    Brief {
        number: number_of(made.first, made.offsets[place], entry),
        traits: made.traits[place],
    }
}
