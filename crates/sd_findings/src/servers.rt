// The last fall of each server, and the last word that the directory can be reached.
ghost use Rattle.std.specs.Prelude.{◌≡◌, [], ◌∷◌, ℕ, List, OnOk, None};
ghost use Rattle.sd_rules.specs.declared.replies.Entry.{Entry};
ghost use Rattle.sd_rules.specs.Needed as needed;
ghost use Rattle.sd_rules.specs.Servers as servers;
ghost use Rattle.sd_findings.specs.Falls as fallen;

use indexmap::IndexMap;
use sd_base::Memory;
use sd_needs::readings::is_number;
use sd_needs::servers::{is_noted, is_online};
use sd_rules::{Entry, Event, Reply, Row};
use std::alloc::Global;

/// The entries of falls, by the numbers of their servers, which the configuration numbers.
pub type Falls = IndexMap<u32, u64>;

fn fall_of(falls: &Falls, server: u32) -> Option<u64>
    ensures { result ≡ fallen.fall_of falls.now.entries server }
{
    falls.get(&server).copied()
}

fn put_fall(falls: &mut Falls, server: Option<u32>, number: u64) -> Result<(), Memory>
    ensures { OnOk result ((s : ℕ) → fallen.fall_of falls.new.entries s ≡ fallen.put_fall server number s (fallen.fall_of falls.old.entries s)) }
{
    if let Some(server) = server {
        falls.insert(server, number)?;
    }
    Ok(())
}

/// The server of which an entry is a fall.
fn server_fallen(event: &Event, reply: Reply) -> Option<u32>
    ensures { result ≡ fallen.server_fallen event.now reply }
{
    match event {
        Event::Fall(_, server, _) => { if is_noted(reply) { Some(*server) } else { None } }
        Event::Kept(Row::Fall(_, _, server)) => Some(*server),
        _ => None,
    }
}

/// Notes the fall that an entry is, or that the directory can be reached again.
#[tactic(auto, using(crate::proofs::ServerLaws::falls_after, crate::proofs::ServerLaws::falls_cleared))]
pub(crate) fn note_fall(falls: &mut Falls, entry: &Entry) -> Result<(), Memory>
    ensures { OnOk result ((past : List Entry) → fallen.HoldFalls past falls.old.entries → fallen.HoldFalls (entry.now ∷ past) falls.new.entries) }
{
    if is_online(&entry.event) {
        falls.clear();
        return Ok(());
    }
    put_fall(
        falls,
        server_fallen(&entry.event, entry.reply),
        entry.number,
    )
}

/// The falls that no entries tell of.
pub(crate) fn no_falls(alloc: Global) -> Falls
    ensures { fallen.HoldFalls [] result.entries }
{
    IndexMap::new(alloc)
}

/// Whether an entry is the last fall of its server.
#[tactic(auto, using(crate::proofs::ServerLaws::fall_is))]
pub fn is_fall_needed(falls: &Falls, entry: &Entry) -> bool
    ensures { (past : List Entry) → fallen.HoldFalls past falls.now.entries → result ≡ needed.is_fall_needed past entry.now entry.now.event }
{
    match &entry.event {
        Event::Fall(_, server, _) => is_number(entry.number, fall_of(falls, *server)),
        Event::Kept(Row::Fall(_, _, server)) => is_number(entry.number, fall_of(falls, *server)),
        _ => false,
    }
}
