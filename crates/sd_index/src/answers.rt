// The answers of the entries, in the cache.
ghost use Rattle.std.specs.Prelude.{◌≡◌, true, false, reverse, IsOk, OnOk, OnErr};
ghost use Rattle.sd_rules.specs.Past as past;
ghost use Rattle.sd_cache.specs.Cache.{FollowsEntry};
ghost use Rattle.sd_voids.specs.Entries as found;
ghost use Rattle.sd_index.specs.Filed.{is_filed};

use sd_base::Memory;
use sd_cache::Cache;
use sd_journal::past::is_closed;
use sd_rules::{Answered, Entry, Event, Row};
use sd_voids::entries::key_of;

/// Puts an answer of the directory under the key of its request, where it has one.
fn put_under(
    cache: &mut Cache,
    before: &[Entry],
    entry: &Entry,
    request: u64,
    answered: &Answered,
) -> Result<(), Memory>
    requires falls { found.falls (reverse before.now) ≡ true }
    ensures ok { OnOk result (past.answer_in (reverse before.now) entry.now ≡ past.answer_under entry.now answered.now (past.key_of (reverse before.now) request) → FollowsEntry (reverse before.now) entry.now cache.old cache.new) }
    ensures err { OnErr result (cache.new ≡ cache.old) }
{
    match key_of(before, request) {
        Some(own) => cache.put(entry.number, entry.moment, own, answered, false),
        None => Ok(()),
    }
}

/// Puts an answer of the directory, where its request was open.
fn put_closed(
    cache: &mut Cache,
    before: &[Entry],
    entry: &Entry,
    request: u64,
    answered: &Answered,
) -> Result<(), Memory>
    requires falls { found.falls (reverse before.now) ≡ true }
    ensures ok { OnOk result (entry.now.event ≡ Event.Answer request answered.now → FollowsEntry (reverse before.now) entry.now cache.old cache.new) }
    ensures err { OnErr result (cache.new ≡ cache.old) }
{
    if is_closed(entry.reply) {
        put_under(cache, before, entry, request, answered)
    } else {
        Ok(())
    }
}

/// Puts the answer of a kept row, if it holds one.
fn put_row(cache: &mut Cache, before: &[Entry], entry: &Entry, row: &Row) -> Result<(), Memory>
    ensures ok { OnOk result (entry.now.event ≡ Event.Kept row.now → FollowsEntry (reverse before.now) entry.now cache.old cache.new) }
    ensures err { OnErr result (cache.new ≡ cache.old) }
{
    match row {
        Row::Answer(_, _, own, answered, marked) => {
            cache.put(entry.number, entry.moment, own, answered, *marked)
        }
        _ => Ok(()),
    }
}

/// Puts the answer that an entry holds, if it holds one; `before` are the entries before it.
pub fn put_answer(cache: &mut Cache, before: &[Entry], entry: &Entry) -> Result<(), Memory>
    requires falls { found.falls (reverse before.now) ≡ true }
    ensures ok { OnOk result (FollowsEntry (reverse before.now) entry.now cache.old cache.new) }
    ensures err { OnErr result (cache.new ≡ cache.old) }
    ensures free { is_filed entry.now.event ≡ false → IsOk result }
{
    match &entry.event {
        Event::Answer(request, answered) => put_closed(cache, before, entry, *request, answered),
        Event::Kept(row) => put_row(cache, before, entry, row),
        _ => Ok(()),
    }
}
