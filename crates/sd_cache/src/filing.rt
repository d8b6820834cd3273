// Keeping an answer under every key of which it speaks.
ghost use Rattle.std.specs.Prelude.{◌≡◌, ◌||◌, ◌+◌, ◌<◌, ◌≤◌, IfOk, OnOk, OnErr};
ghost use Rattle.indexmap.specs.IndexMap.{spare};
ghost use Rattle.sd_rules.specs.declared.records.Answered.TheVariants as found;
ghost use Rattle.sd_rules.specs.declared.records.Record.TheVariants as records;
ghost use Rattle.sd_rules.specs.Keys.{same_key, speaks_of};
ghost use Rattle.sd_cache.specs.Cache as cached;

use crate::kept::Newest;
use crate::primed::Primed;
use indexmap::IndexMap;
use sd_base::{Copied, Memory};
use sd_rules::{Answered, Group, Key, Record, User};

/// The newest answers by the keys of which they speak.
pub type Answers = IndexMap<Key, Newest, Primed>;

/// Keeps an answer under a key. There is room for it.
fn file(answers: &mut Answers, key: Key, newest: Newest)
    requires { 0 < spare answers.old }
    ensures filed { cached.IsPut (same_key key) newest answers.old.entries answers.new.entries }
    ensures room { spare answers.old ≤ spare answers.new + 1 }
{
    let _before = answers.insert(key, newest);
}

/// Keeps an answer under its own key.
fn put_own(answers: &mut Answers, newest: Newest) -> Result<(), Memory>
    ensures ok { OnOk result (cached.IsPut (same_key newest.own) newest answers.old.entries answers.new.entries) }
    ensures err { OnErr result (answers.new.entries ≡ answers.old.entries) }
{
    answers.reserve(1)?;
    let own = newest.own.value().copy()?;
    file(answers, own, newest);
    Ok(())
}

/// An answer's own key, and two copies of the answer.
struct Copies {
    own: Key,
    first: Newest,
    second: Newest,
}

fn copies_of(newest: &Newest) -> Result<Copies, Memory>
    ensures own { IfOk result (λ made. made.own ≡ newest.now.own) }
    ensures first { IfOk result (λ made. made.first ≡ newest.now) }
    ensures second { IfOk result (λ made. made.second ≡ newest.now) }
{
    let (first, second) = (newest.copy()?, newest.copy()?);
    let own = newest.own.value().copy()?;
    Ok(Copies { own, first, second })
}

/// Keeps an answer under its own key and under the name and the number of what it found.
fn put_found(answers: &mut Answers, newest: Newest, name: Key, number: Key) -> Result<(), Memory>
    ensures ok { OnOk result (cached.IsPut (λ k. same_key newest.own k || (same_key name k || same_key number k)) newest answers.old.entries answers.new.entries) }
    ensures err { OnErr result (answers.new.entries ≡ answers.old.entries) }
{
    answers.reserve(3)?;
    let Copies { own, first, second } = copies_of(&newest)?;
    file(answers, own, newest);
    file(answers, name, first);
    file(answers, number, second);
    Ok(())
}

/// Keeps an answer that found a user.
fn put_user(answers: &mut Answers, newest: Newest, user: &User) -> Result<(), Memory>
    ensures ok { OnOk result (cached.IsPut (speaks_of newest.own (found.Found (records.User user.now))) newest answers.old.entries answers.new.entries) }
    ensures err { OnErr result (answers.new.entries ≡ answers.old.entries) }
{
    let name = user.name.copy()?;
    put_found(answers, newest, Key::User(name), Key::Uid(user.uid))
}

/// Keeps an answer that found a group.
fn put_group(answers: &mut Answers, newest: Newest, group: &Group) -> Result<(), Memory>
    ensures ok { OnOk result (cached.IsPut (speaks_of newest.own (found.Found (records.Group group.now))) newest answers.old.entries answers.new.entries) }
    ensures err { OnErr result (answers.new.entries ≡ answers.old.entries) }
{
    let name = group.name.copy()?;
    put_found(answers, newest, Key::Group(name), Key::Gid(group.gid))
}

/// Keeps an answer under every key of which it speaks.
pub fn put_answered(
    answers: &mut Answers,
    newest: Newest,
    answered: &Answered,
) -> Result<(), Memory>
    ensures ok { OnOk result (cached.IsPut (speaks_of newest.own answered.now) newest answers.old.entries answers.new.entries) }
    ensures err { OnErr result (answers.new.entries ≡ answers.old.entries) }
{
    match answered {
        Answered::Found(found) => match found.value() {
            Record::User(user) => put_user(answers, newest, user),
            Record::Group(group) => put_group(answers, newest, group),
            _ => put_own(answers, newest),
        },
        Answered::Absent => put_own(answers, newest),
    }
}
