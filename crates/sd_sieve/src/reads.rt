// What is read with the entries that are looked at.
ghost use Rattle.std.specs.Prelude.{◌≡◌, ◌<◌, ◌∷◌, [], ℕ, List, length, reverse, take, slice_index_or, IfOk, OnOk, None};
ghost use Rattle.sd_rules.specs.declared.replies.Entry.{Entry};
ghost use Rattle.sd_rules.specs.Needed as needed;
ghost use Rattle.sd_findings.specs.Briefs as briefs;
ghost use Rattle.sd_findings.specs.Findings.{is_among};
ghost use Rattle.sd_sieve.specs.Readings as readings;

use indexmap::IndexSet;
use sd_base::Memory;
use sd_findings::briefs::{Brief, Briefs, brief_at, request_again};
use sd_findings::marks::is_looked_at;
use sd_findings::numbers::{Numbers, has, note};
use sd_journal::past::is_closed;
use sd_needs::needs::read_with;
use sd_needs::requests::{is_again, is_last_again};
use sd_rules::{Entry, Event, Reply};
use std::alloc::Global;

/// The request of an answer that is read with it.
fn answer_read(event: &Event, reply: Reply) -> Option<u64>
    ensures { result ≡ readings.answer_read event.now reply }
{
    match event {
        Event::Answer(request, _) => {
            if is_closed(reply) || is_again(reply) {
                Some(*request)
            } else {
                None
            }
        }
        _ => None,
    }
}

/// The request or attempt that an entry is read with, if the entry is looked at.
fn lead_if(is: bool, entry: &Entry) -> Option<u64>
    ensures { result ≡ readings.only_if is (needed.read_with entry.now.event entry.now.reply) }
{
    if is {
        read_with(&entry.event, entry.reply)
    } else {
        None
    }
}

/// The request of an answer that is read with it, if the answer is looked at.
fn answer_if(is: bool, entry: &Entry) -> Option<u64>
    ensures { result ≡ readings.only_if is (readings.answer_read entry.now.event entry.now.reply) }
{
    if is {
        answer_read(&entry.event, entry.reply)
    } else {
        None
    }
}

/// The entries that are looked at for their own sake, and what is read with them.
pub struct Looked {
    /// Of each entry, the oldest first, whether it is looked at.
    pub marks: Vec<bool>,
    /// The requests and attempts with which those are read.
    pub leads: Numbers,
    /// The requests of the answers among them that are read with these.
    pub answers: Numbers,
}

impl Drop for Looked {
    fn drop(self) {
        let Looked {
            marks: _,
            leads: _,
            answers: _,
        } = self;
    }
}

/// Nothing is looked at yet, with room for the marks of so many entries.
pub(crate) fn none_looked(alloc: Global, count: usize) -> Result<Looked, Memory>
    ensures { IfOk result (λ made. (all : List Entry) → readings.AreLooked all [] made) }
{
    let marks = Vec::with_capacity(alloc, count)?;
    Ok(Looked {
        marks,
        leads: IndexSet::new(alloc),
        answers: IndexSet::new(alloc),
    })
}

/// Notes an entry, which is looked at or not, and is read only if it is.
pub(crate) fn note_looked(looked: &mut Looked, is: bool, entry: &Entry) -> Result<(), Memory>
    ensures { OnOk result ((all part : List Entry) → is ≡ needed.is_looked_at all part entry.now → readings.AreLooked all part looked.old → readings.AreLooked all (entry.now ∷ part) looked.new) }
{
    looked.marks.push(is)?;
    note(&mut looked.leads, lead_if(is, entry))?;
    note(&mut looked.answers, answer_if(is, entry))
}

/// Whether an entry is the last answer to a request, where one is named, that was replied Again, and is read with an answer.
fn is_again_read(all: &[Entry], answers: &Numbers, entry: &Entry, request: Option<u64>) -> bool
    requires { (n : ℕ) → is_among n answers.now.keys ≡ readings.reads_answer (reverse all.now) n (reverse all.now) }
    ensures { result ≡ readings.is_again_read (reverse all.now) entry.now (reverse all.now) request }
{
    match request {
        Some(request) => is_last_again(all, request, entry) && has(answers, request),
        None => false,
    }
}

fn is_again_at(all: &[Entry], answers: &Numbers, entry: &Entry) -> bool
    requires { (n : ℕ) → is_among n answers.now.keys ≡ readings.reads_answer (reverse all.now) n (reverse all.now) }
    ensures { result ≡ readings.is_again_read (reverse all.now) entry.now (reverse all.now) (briefs.request_again entry.now.event entry.now.reply) }
{
    let request = request_again(&entry.event, entry.reply);
    is_again_read(all, answers, entry, request)
}

/// Whether an entry is read with one that is looked at. It is itself read only where it was replied Again.
#[tactic(auto, using(crate::proofs::ReadLaws::read_with_is, crate::proofs::BriefLaws::not_again))]
fn is_read_with(all: &[Entry], looked: &Looked, brief: Brief, entry: &Entry) -> bool
    requires brief { brief ≡ briefs.brief_of entry.now }
    requires leads { (n : ℕ) → is_among n looked.now.leads.keys ≡ readings.reads_lead (reverse all.now) n (reverse all.now) }
    requires answers { (n : ℕ) → is_among n looked.now.answers.keys ≡ readings.reads_answer (reverse all.now) n (reverse all.now) }
    ensures { result ≡ needed.is_read_with (reverse all.now) entry.now (reverse all.now) }
{
    has(&looked.leads, brief.number)
        || (brief.traits.is_again && is_again_at(all, &looked.answers, entry))
}

/// Whether the entry at a place is needed, by those that are looked at; `made` are the briefs of all. An entry that is not is as a rule
/// not read for it.
pub(crate) fn is_needed_by(
    all: &[Entry],
    made: &Briefs,
    looked: &Looked,
    place: usize,
    entry: &Entry,
) -> bool
    requires briefs { briefs.AreBriefs all.now made.now }
    requires looked { readings.AreLooked (reverse all.now) (reverse all.now) looked.now }
    requires within { place < length all.now }
    requires at { entry.now ≡ slice_index_or all.now place entry.now }
    ensures { result ≡ needed.is_needed (reverse all.now) (reverse (take place all.now)) entry.now }
{
    is_looked_at(all, looked.marks.as_slice(), place, entry)
        || is_read_with(all, looked, brief_at(all, made, place, entry), entry)
}
