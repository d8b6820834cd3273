// The cache, which contracts see as the newest answers by the keys of which they speak.
ghost use Rattle.std.specs.Prelude.{◌≡◌, [], OnOk, OnErr, IfSome, List, Some};
ghost use Rattle.std.specs.Option.{option_copied, option_map};
ghost use Rattle.sd_rules.specs.declared.keys.Key.{Key};
ghost use Rattle.sd_rules.specs.declared.replies.Entry.{Entry};
ghost use Rattle.sd_rules.specs.Past.{answer_in};

use crate::filing::{Answers, put_answered};
use crate::kept::{Newest, newest_of};
use crate::primed::Primed;
use indexmap::IndexMap;
use sd_base::Memory;
use sd_rules::{Answered, Key};
use std::alloc::Global;
use std::marker::Model;

/// The newest answers by keys; contracts see them as keys with their answers, of which only the look-ups count.
pub struct Cache {
    answers: Answers,
    alloc: Global,
}

impl Drop for Cache {
    fn drop(self) {
        let Cache {
            answers: _,
            alloc: _,
        } = self;
    }
}

impl Model for Cache {
    ghost use Rattle.std.specs.Prelude.{List};
    ghost use Rattle.sd_rules.specs.declared.keys.Key.{Key};
    ghost use Rattle.sd_cache.specs.declared.kept.Newest.{Newest};

    ghost Value = { List (Key × Newest) };

    ghost view = { λ c. c.answers.entries };
}

impl Cache {
    ghost use Rattle.sd_cache.specs.Kept as kept;
    ghost use Rattle.sd_cache.specs.Cache as cached;

    /// A cache of no answers, whose keys are hashed so.
    pub fn new(alloc: Global, hasher: Primed) -> Cache
        ensures { result ≡ [] }
    {
        Cache {
            answers: IndexMap::with_hasher(alloc, hasher),
            alloc,
        }
    }

    /// The newest answer of a key.
    pub fn newest(&self, key: &Key) -> Option<&Newest>
        ensures { option_copied result ≡ cached.newest_in self.now key.now }
    {
        self.answers.get(key)
    }

    /// The newest answer of a key, if it stands at this place of the table.
    #[tactic(auto, using(crate::proofs::Same::found_again))]
    fn newest_at(&self, place: usize, key: &Key) -> Option<&Newest>
        ensures { IfSome result (λ newest. cached.newest_in self.now key.now ≡ Some newest.now) }
    {
        match self.answers.get_index(place) {
            Some((own, newest)) if own == key => Some(newest),
            _ => None,
        }
    }

    /// The newest answer of a key and its place in the table, which is looked for first right behind another place: for who asks for
    /// answers in the order in which their keys came, each with a name and a number.
    pub fn newest_behind(&self, place: usize, key: &Key) -> Option<(usize, &Newest)>
        ensures { option_map (λ p. p.1.now) result ≡ cached.newest_in self.now key.now }
    {
        let next = place.saturating_add(1);
        if let Some(newest) = self.newest_at(next, key) {
            return Some((next, newest));
        }
        let further = place.saturating_add(2);
        if let Some(newest) = self.newest_at(further, key) {
            return Some((further, newest));
        }
        let (place, _, newest) = self.answers.get_full(key)?;
        Some((place, newest))
    }

    /// Keeps an answer under every key of which it speaks.
    fn keep(
        &mut self,
        number: u64,
        moment: u64,
        key: &Key,
        answered: &Answered,
        marked: bool,
    ) -> Result<(), Memory>
        ensures ok { OnOk result ((k : Key) → cached.newest_in self.new k ≡ cached.after_put (kept.standing number moment key.now answered.now marked) k (cached.newest_in self.old k)) }
        ensures err { OnErr result (self.new ≡ self.old) }
    {
        let newest = newest_of(self.alloc, number, moment, key, answered, marked)?;
        put_answered(&mut self.answers, newest, answered)
    }

    /// Keeps what was answered to a key, with the number and the moment of its entry, under every key of which it speaks; `marked`
    /// says that a kept row marks it as invalidated.
    pub fn put(
        &mut self,
        number: u64,
        moment: u64,
        key: &Key,
        answered: &Answered,
        marked: bool,
    ) -> Result<(), Memory>
        ensures ok { OnOk result ((k : Key) → cached.newest_in self.new k ≡ cached.after_put (kept.standing number moment key.now answered.now marked) k (cached.newest_in self.old k)) }
        ensures err { OnErr result (self.new ≡ self.old) }

        // The cache stays what a journal says, where the journal's next entry holds this answer.
        ensures journal { OnOk result ((past : List Entry) (e : Entry) → answer_in past e ≡ Some (kept.standing number moment key.now answered.now marked) → cached.FollowsEntry past e self.old self.new) }
    {
        self.keep(number, moment, key, answered, marked)
    }
}
