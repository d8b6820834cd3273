//! What a seat counts.
ghost use Rattle.std.specs.Prelude.{◌≡◌};

/// What a seat knows of a journal without looking at it.
#[derive(Clone, Copy)]
pub struct Counts {
    /// The number of the next entry.
    pub next: u64,
    /// How many entries there are.
    pub entries: usize,
    /// How many of them the last forget left; at first, how many the core came with.
    pub left: usize,
    /// How many logins came with a hash to be kept, since the core is shared.
    pub hashes: u64,
}

impl Counts {
    ghost use Rattle.sd_desk.specs.Counts.{later_of};

    /// Of the counts of two fronts of one desk, those of the later.
    pub(crate) fn later(self, other: Counts) -> Counts
        ensures { result ≡ later_of self other }
    {
        let is_other = self.next < other.next
            || (self.next == other.next && other.entries < self.entries);
        if is_other { other } else { self }
    }
}
