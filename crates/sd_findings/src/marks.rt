// What the marks of a journal's entries say of the entry at a place.
ghost use Rattle.std.specs.Prelude.{◌≡◌, ◌<◌, length, reverse, take, slice_index_or};
ghost use Rattle.sd_rules.specs.Needed as needed;
ghost use Rattle.sd_findings.specs.Marks.{MarkNewest, MarkLooked};

use sd_rules::Entry;

/// Whether the entry at a place holds the newest answer of a key, by the marks of all.
pub fn is_newest_at(entries: &[Entry], marks: &[bool], place: usize, entry: &Entry) -> bool
    requires marks { MarkNewest entries.now marks.now }
    requires within { place < length entries.now }
    requires at { entry.now ≡ slice_index_or entries.now place entry.now }
    ensures { result ≡ needed.is_newest_answer (reverse entries.now) (reverse (take place entries.now)) entry.now }
{
    marks[place]
}

/// Whether the entry at a place is looked at, by the marks of all.
pub fn is_looked_at(entries: &[Entry], marks: &[bool], place: usize, entry: &Entry) -> bool
    requires marks { MarkLooked entries.now marks.now }
    requires within { place < length entries.now }
    requires at { entry.now ≡ slice_index_or entries.now place entry.now }
    ensures { result ≡ needed.is_looked_at (reverse entries.now) (reverse (take place entries.now)) entry.now }
{
    marks[place]
}
