// What is noted of each entry for a forget, beside the outline of the journal.
ghost use Rattle.std.specs.Prelude.{◌≡◌, ◌∷◌, [], ℕ, List, true, OnOk, Some, None, if◌then◌else◌};
ghost use Rattle.sd_rules.specs.declared.replies.Entry.{Entry};
ghost use Rattle.sd_rules.specs.Past as past;
ghost use Rattle.sd_findings.specs.Briefs.{is_plain};
ghost use Rattle.sd_findings.specs.Findings as findings;
ghost use Rattle.sd_findings.specs.Notes.{AreNotesOf};
ghost use Rattle.sd_findings.specs.Whole as held;

use crate::covers::{ByWhat, note_void, nothing};
use crate::tickets::{put, put_awaited};
use crate::whole::{Whole, is_open_request};
use sd_base::Memory;
use sd_journal::past::{is_closed, is_shut};
use sd_needs::needs::is_stop;
use sd_needs::requests::last_asking;
use sd_needs::servers::is_online;
use sd_rules::{Entry, Event};
use std::alloc::Global;

/// The last words of a journal on what a forget asks of each entry.
#[derive(Drop)]
pub struct Notes {
    /// The last invalidation of each name.
    pub lasts: ByWhat,
    /// The numbers of the last askings of the open requests.
    pub askings: Vec<u64>,
    /// The numbers of the entries that the tickets that wait will look at.
    pub awaited: Vec<u64>,
    /// The last outage that nothing has ended.
    pub outage: Option<u64>,
    /// The last word that the directory can be reached.
    pub online: Option<u64>,
    /// The last end of the daemon.
    pub stop: Option<u64>,
}

/// What no entries say.
pub(crate) fn no_notes(alloc: Global) -> Notes
    ensures { (all : List Entry) → AreNotesOf all [] result }
{
    Notes {
        lasts: nothing(alloc),
        askings: Vec::new(alloc),
        awaited: Vec::new(alloc),
        outage: None,
        online: None,
        stop: None,
    }
}

fn asking_of(whole: Whole<'_>, number: u64) -> Option<u64>
    requires { held.IsIndexed whole }
    ensures { result ≡ findings.asking_of (held.past_of whole.entry) number }
{
    if is_open_request(whole, number) {
        last_asking(whole.entries, number)
    } else {
        None
    }
}

fn note_last(last: &mut Option<u64>, is: bool, number: u64)
    ensures { last.new ≡ (if is then Some number else last.old) }
{
    if is {
        *last = Some(number);
    }
}

/// The outage that nothing has ended after one more entry.
fn outage_after(outage: Option<u64>, entry: &Entry) -> Option<u64>
    ensures { result ≡ (if past.records_outage entry.now.event entry.now.reply then Some entry.now.number else if past.ends_outage entry.now.event entry.now.reply then None else outage) }
{
    match &entry.event {
        Event::Outage(_) => {
            if is_closed(entry.reply) || is_shut(entry.reply) {
                Some(entry.number)
            } else {
                outage
            }
        }
        Event::Offline => Some(entry.number),
        Event::Answer(_, _) => { if is_closed(entry.reply) { None } else { outage } }
        Event::Online => None,
        _ => outage,
    }
}

/// Notes what an entry says.
pub(crate) fn note(notes: &mut Notes, whole: Whole<'_>, entry: &Entry) -> Result<(), Memory>
    requires { held.IsIndexed whole }
    ensures { OnOk result ((part : List Entry) → AreNotesOf (held.past_of whole.entry) part notes.old → AreNotesOf (held.past_of whole.entry) (entry.now ∷ part) notes.new) }
{
    note_void(&mut notes.lasts, entry)?;
    put(&mut notes.askings, asking_of(whole, entry.number))?;
    put_awaited(&mut notes.awaited, whole, entry.number)?;
    notes.outage = outage_after(notes.outage, entry);
    note_last(&mut notes.online, is_online(&entry.event), entry.number);
    note_last(&mut notes.stop, is_stop(&entry.event), entry.number);
    Ok(())
}

/// Notes a plain entry: what it is asked for, and an outage.
#[tactic(auto, using(crate::proofs::PlainLaws::voids_plain, crate::proofs::PlainLaws::online_plain, crate::proofs::PlainLaws::stop_plain))]
pub(crate) fn note_plain(notes: &mut Notes, whole: Whole<'_>, entry: &Entry) -> Result<(), Memory>
    requires index { held.IsIndexed whole }
    requires plain { is_plain entry.now.event ≡ true }
    ensures { OnOk result ((part : List Entry) → AreNotesOf (held.past_of whole.entry) part notes.old → AreNotesOf (held.past_of whole.entry) (entry.now ∷ part) notes.new) }
{
    put(&mut notes.askings, asking_of(whole, entry.number))?;
    put_awaited(&mut notes.awaited, whole, entry.number)?;
    notes.outage = outage_after(notes.outage, entry);
    Ok(())
}
