//! What is searched for members and holders.
ghost use Rattle.std.specs.Prelude.{◌≡◌, ℕ, List};
ghost use Rattle.sd_ldap.specs.declared.entry.DirEntry.{DirEntry};
ghost use Rattle.sd_nested.specs.Searches.{Exchange, entry_at, holders_of, read_search, holder_search, IsAnswer};

use sd_base::{Memory, Text, Why};
use sd_dial::Searched;

/// A directory that is asked for entries by their DNs. It may tell its entries: then what it answers is by
/// them, and it goes on to tell them. Its base stays.
pub trait Searcher {
    /// It tells these entries of the directory.
    ghost tells: { Self → List DirEntry → Type 0 };
    /// The DN under which holders are searched, as it is spelled.
    ghost base: { Self → List ℕ };
    /// What a question and what it came to make of the searcher. What stands above ties to it what it tells.
    ghost went: { Self → Exchange → Self → Type 0 };

    /// The entry at a DN: a search of scope 0.
    fn read(&mut self, dn: &Text) -> Searched
        ensures went { went self.old (record { question = entry_at dn.now; searched = result }) self.new }
        ensures tells { (told : List DirEntry) → tells self.old told → tells self.new told }
        ensures base { base self.new ≡ base self.old }
        ensures code { result ≡ Searched.Code 0 → ⊥ }
        ensures told { (told : List DirEntry) → tells self.old told → IsAnswer told (read_search dn.now) result };

    /// The groups at or under the base of which the DN is a member: a search of scope 2.
    fn holders(&mut self, dn: &Text) -> Searched
        ensures went { went self.old (record { question = holders_of dn.now; searched = result }) self.new }
        ensures tells { (told : List DirEntry) → tells self.old told → tells self.new told }
        ensures base { base self.new ≡ base self.old }
        ensures code { result ≡ Searched.Code 0 → ⊥ }
        ensures told { (told : List DirEntry) → tells self.old told → IsAnswer told (holder_search (base self.old) dn.now) result };
}

/// Why the rounds ended early.
#[derive(Drop)]
pub enum Stop {
    /// A search came to this result code (RFC 4511 appendix A), not 0 and not 32, no such object.
    Code(u32),
    Failed(Why),
    Memory,
}

impl From<Memory> for Stop {
    ghost use Rattle.std.specs.Prelude.{◌≡◌};
    ghost use Rattle.sd_nested.specs.declared.searcher.Stop.TheVariants as stops;

    ghost from_gives = { λ _ stop. stop ≡ stops.Memory };

    fn from(_error: Memory) -> Stop {
        Stop::Memory
    }
}
