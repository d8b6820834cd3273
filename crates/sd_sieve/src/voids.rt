// Which invalidations a later reply can look at.
ghost use Rattle.std.specs.Prelude.{◌≡◌, ◌<◌, ◌&&◌, ◌||◌, List, length, reverse, take, true, slice_index_or};
ghost use Rattle.sd_rules.specs.declared.events.Event.{Event};
ghost use Rattle.sd_rules.specs.declared.replies.Entry.{Entry};
ghost use Rattle.sd_rules.specs.Needed as needed;
ghost use Rattle.sd_voids.specs.Entries.{falls};
ghost use Rattle.sd_findings.specs.Findings as findings;

use sd_findings::covers::{is_before, number_for};
use sd_findings::findings::Findings;
use sd_needs::readings::is_number;
use sd_rules::{Entry, Event, What};

fn has_below(number: u64, numbers: &[u64]) -> bool
    ensures { result ≡ findings.has_below number numbers.now }
{
    numbers.iter().any(|n| *n < number)
}

/// Whether the entry of a number stands after the last asking of an open request.
fn is_after_asking(found: &Findings, number: u64) -> bool
    ensures { (all : List Entry) → findings.IsFound all found.now → result ≡ needed.is_after_asking (reverse all) number (reverse all) }
{
    has_below(number, found.walk.notes.askings.as_slice())
}

fn is_called_for(last: bool, covers: bool, after_asking: bool) -> bool
    ensures { result ≡ last && (covers || after_asking) }
{
    last && (covers || after_asking)
}

/// Whether an invalidation is the last that names the same, and covers the newest answer of a key before it or stands after the
/// asking of an open request.
fn is_named_needed(
    all: &[Entry],
    found: &Findings,
    place: usize,
    entry: &Entry,
    what: &What,
) -> bool
    requires numbers { falls (reverse all.now) ≡ true }
    requires found { findings.IsFound all.now found.now }
    requires within { place < length all.now }
    requires at { entry.now ≡ slice_index_or all.now place entry.now }
    requires void { entry.now.event ≡ Event.Void what.now }
    ensures { result ≡ needed.is_void_needed (reverse all.now) (reverse (take place all.now)) entry.now (Event.Void what.now) }
{
    let last = is_number(entry.number, number_for(&found.walk.notes.lasts, what));
    let covers = is_before(number_for(&found.firsts, what), entry.number);
    is_called_for(last, covers, is_after_asking(found, entry.number))
}

/// Whether the entry at a place is the last invalidation that names the same, and covers the newest answer of a key before it or
/// stands after the asking of an open request.
pub fn is_void_needed(all: &[Entry], found: &Findings, place: usize, entry: &Entry) -> bool
    requires numbers { falls (reverse all.now) ≡ true }
    requires found { findings.IsFound all.now found.now }
    requires within { place < length all.now }
    requires at { entry.now ≡ slice_index_or all.now place entry.now }
    ensures { result ≡ needed.is_void_needed (reverse all.now) (reverse (take place all.now)) entry.now entry.now.event }
{
    match &entry.event {
        Event::Void(what) => is_named_needed(all, found, place, entry, what),
        _ => false,
    }
}
