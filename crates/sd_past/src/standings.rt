// The newest answer of a key, by what the index keeps of it.
ghost use Rattle.std.specs.Prelude.{◌≡◌, List};
ghost use Rattle.std.specs.Option.{option_copied, option_map};
ghost use Rattle.sd_rules.specs.declared.replies.Entry.{Entry};
ghost use Rattle.sd_rules.specs.Past as journal;
ghost use Rattle.sd_journal.specs.Seen as seen;
ghost use Rattle.sd_index.specs.Table.{Indexes};
ghost use Rattle.sd_past.specs.Standings as standings;

use sd_cache::Newest;
use sd_index::Index;
use sd_journal::past::Standing;
use sd_rules::Key;

fn standing_of(kept: &Newest) -> Standing<'_>
    ensures { seen.standing result ≡ standings.standing_of kept.now }
{
    Standing {
        number: kept.number,
        moment: kept.moment,
        own: kept.own.value(),
        answered: &kept.answered,
        marked: kept.marked,
    }
}

fn standing_if(kept: Option<&Newest>) -> Option<Standing<'_>>
    ensures { option_map seen.standing result ≡ option_map standings.standing_of (option_copied kept.entry) }
{
    match kept {
        Some(kept) => Some(standing_of(kept)),
        None => None,
    }
}

/// The newest answer of a key.
pub fn newest_by<'a>(index: &'a Index, key: &Key) -> Option<Standing<'a>>
    ensures { (past : List Entry) → Indexes past index.now → option_map seen.standing result ≡ journal.newest past key.now }
{
    standing_if(index.newest(key))
}
