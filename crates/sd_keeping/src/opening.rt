// The journal that is opened with kept rows, and what a journal is after a restart that keeps all that it can.
ghost use Rattle.std.specs.Prelude.{◌≡◌, ◌<◌, ◌^◌, [], map, reverse, IfOk};
ghost use Rattle.sd_rules.specs.KeptRows as kept;
ghost use Rattle.sd_rules.specs.Requests as requests;
ghost use Rattle.sd_rules.specs.Steps as steps;
ghost use Rattle.sd_keeping.specs.Opening as opening;

use crate::readings::{least_moment, next_number};
use crate::row_rules::{row_moment, row_number};
use sd_base::{Copied, Memory};
use sd_rules::{Entry, Event, Reply, Row, Rows};
use std::alloc::Global;

/// A journal as it is opened: the number that its next entry has, the least moment that it has, in seconds, and its entries.
#[derive(Drop)]
pub struct OpenJournal {
    pub next: u64,
    pub floor: u64,
    pub entries: Vec<Entry>,
}

/// The entry that a row stands for.
fn kept_entry(row: Row) -> Entry
    ensures { result ≡ kept.kept_entry row }
{
    Entry {
        number: row_number(&row),
        moment: row_moment(&row),
        event: Event::Kept(row),
        reply: Reply::Held,
    }
}

fn kept_entries(alloc: Global, rows: &[Row]) -> Result<Vec<Entry>, Memory>
    ensures { IfOk result (λ entries. entries.items ≡ map kept.kept_entry rows.now) }
{
    let mut entries = Vec::new(alloc);
    for row in rows {
        entries.push(kept_entry(row.copy()?))?;
    }
    Ok(entries)
}

/// The journal that rows open: an entry for each but the head. Without rows it is empty.
pub fn opened(alloc: Global, rows: &Rows) -> Result<OpenJournal, Memory>
    ensures { IfOk result (λ journal. opening.Opens rows.now journal) }
{
    match rows.items() {
        [] => Ok(OpenJournal {
            next: 1,
            floor: 0,
            entries: Vec::new(alloc),
        }),
        [head, others @ ..] => Ok(OpenJournal {
            next: row_number(head),
            floor: row_moment(head),
            entries: kept_entries(alloc, others)?,
        }),
    }
}

fn ends_with_daemon(event: &Event) -> bool
    ensures { result ≡ kept.ends_with_daemon event.now }
{
    matches!(event, Event::Outage(_) | Event::Offline | Event::Stop)
}

fn opens(reply: Reply) -> bool
    ensures { result ≡ kept.opens reply }
{
    matches!(
        reply,
        Reply::Lead(_)
            | Reply::Refresh(_, _)
            | Reply::Bind(_)
            | Reply::Cached(_, _)
            | Reply::Join(_, _)
    )
}

/// An entry as it is after a restart, where nothing is open and nobody waits.
fn settled(entry: &Entry) -> Result<Entry, Memory>
    ensures { IfOk result (λ made. made ≡ kept.settled entry.now) }
{
    let mut made = entry.copy()?;
    if opens(entry.reply) {
        made.reply = Reply::Done;
    }
    Ok(made)
}

fn settled_entries(alloc: Global, entries: &[Entry]) -> Result<Vec<Entry>, Memory>
    ensures { IfOk result (λ made. reverse made.items ≡ kept.settled_past (reverse entries.now)) }
{
    let mut made = Vec::new(alloc);
    for place in 0..entries.len() {
        let entry = &entries[place];
        if !ends_with_daemon(&entry.event) {
            made.push(settled(entry)?)?;
        }
    }
    Ok(made)
}

/// A journal after a restart that keeps all its entries but those of outages and of the daemon's end.
pub fn reopened(
    alloc: Global,
    next: u64,
    floor: u64,
    entries: &[Entry],
) -> Result<OpenJournal, Memory>
    requires { steps.number_after next (reverse entries.now) < 2 ^ 64 }
    ensures { IfOk result (λ journal. opening.Reopens next floor entries.now journal) }
{
    Ok(OpenJournal {
        next: next_number(next, entries),
        floor: least_moment(floor, entries),
        entries: settled_entries(alloc, entries)?,
    })
}
