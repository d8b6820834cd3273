// What is kept of an answer.
ghost use Rattle.std.specs.Prelude.{◌≡◌, IfOk};
ghost use Rattle.sd_cache.specs.Kept as kept;

use sd_base::{Copied, Memory, Shared};
use sd_rules::{Answered, Key};
use std::alloc::Global;

/// The newest answer of a key: the number and the moment of its entry, the key that it answered, what it answered, and whether a
/// kept row marks it as invalidated. The key is shared by all under which the answer is kept, the record with the entry.
pub struct Newest {
    pub number: u64,
    pub moment: u64,
    pub own: Shared<Key>,
    pub answered: Answered,
    pub marked: bool,
}

impl Drop for Newest {
    fn drop(self) {
        let Newest {
            number: _,
            moment: _,
            own,
            answered,
            marked: _,
        } = self;
        drop(own);
        drop(answered);
    }
}

impl Copied for Newest {
    fn copy(&self) -> Result<Newest, Memory> {
        let own = self.own.copy()?;
        let answered = self.answered.copy()?;
        Ok(Newest {
            number: self.number,
            moment: self.moment,
            own,
            answered,
            marked: self.marked,
        })
    }
}

/// What is kept of an answer to a key.
pub(crate) fn newest_of(
    alloc: Global,
    number: u64,
    moment: u64,
    key: &Key,
    answered: &Answered,
    marked: bool,
) -> Result<Newest, Memory>
    ensures { IfOk result (λ made. made ≡ kept.kept_of (kept.standing number moment key.now answered.now marked)) }
{
    let answered = answered.copy()?;
    let own = Shared::new(alloc, key.copy()?)?;
    Ok(Newest {
        number,
        moment,
        own,
        answered,
        marked,
    })
}
