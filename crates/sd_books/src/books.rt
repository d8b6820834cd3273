// What a core keeps of each user's logins, and what it says of a login by it.
ghost use Rattle.std.specs.Prelude.{◌≡◌, ◌+◌, ◌≤◌, ◌∷◌, List, None, true, ⊤, reverse, IfOk, IfErr, IsOk, OnErr, OnOk};
ghost use Rattle.std.specs.Option.{option_map};
ghost use Rattle.sd_rules.specs.declared.replies.Entry.{Entry};
ghost use Rattle.sd_rules.specs.Logins as logins;
ghost use Rattle.sd_rules.specs.Needed as needed;
ghost use Rattle.sd_rules.specs.Requests as requests;
ghost use Rattle.sd_rules.specs.Steps as steps;
ghost use Rattle.sd_rules.specs.Limits as limits;
ghost use Rattle.sd_keeping.specs.Counts as counts;
ghost use Rattle.sd_forgetting.specs.Kept.{IsKeptOf};
ghost use Rattle.sd_voids.specs.Entries.{numbers_fall};
ghost use Rattle.sd_index.specs.Table.{takes_none};
ghost use Rattle.sd_past.specs.Closing.{closes_place};
ghost use Rattle.sd_past.specs.Forgetting.{AreForgotten};
ghost use Rattle.sd_books.specs.Noted as noted;

use crate::notes::{keep, make_room, note_of};
use sd_base::{Memory, Text};
use sd_creds::Marks;
use sd_journal::logins::{cached_login, usable_hash, verdict_of, verdict_of_try};
use sd_past::{Forgotten, Past};
use sd_rules::limits::Login;
use sd_rules::{Entry, Event, Reply, Settings, Verdict};
use std::alloc::Global;

/// What is kept of each user's logins beside the entries.
pub trait LoginBook: Drop {
    /// It says of each user what the entries say.
    ghost Says: { Self → List Entry → Type 0 };

    /// What is kept of entries, the oldest first.
    fn read(alloc: Global, entries: &[Entry]) -> Result<Self, Memory>
        requires { noted.HadCounts (reverse entries.now) }
        ensures { IfOk result (λ made. Says made (reverse entries.now)) };

    /// Puts an entry behind the others, or hands its event back for want of memory. One that closes what is open takes none.
    fn put<P: Past>(&mut self, past: &mut P, entry: Entry) -> Result<(), Event>
        requires says { Says self.old (P.entries past.old) }
        requires before { counts.HasCounts (P.entries past.old) }
        requires after { counts.HasCounts (entry ∷ P.entries past.old) }
        requires numbers { numbers_fall entry.number (P.entries past.old) ≡ true }
        requires back { closes_place (P.entries past.old) entry.event ≡ true → requests.reserved_places (entry ∷ P.entries past.old) + 1 ≤ requests.reserved_places (P.entries past.old) }
        requires none { closes_place (P.entries past.old) entry.event ≡ true → takes_none entry ≡ true }
        ensures ok { OnOk result (P.entries past.new ≡ entry ∷ P.entries past.old) }
        ensures err { IfErr result (λ event. (P.entries past.new ≡ P.entries past.old) × (event ≡ entry.event)) }
        ensures says { Says self.new (P.entries past.new) }
        ensures closing { closes_place (P.entries past.old) entry.event ≡ true → IsOk result };

    /// Forgets the entries that no later event can look at, and hands them back, the oldest first. They take no login with them.
    fn forget<P: Past>(&self, alloc: Global, past: &mut P) -> Result<Forgotten, Memory>
        requires says { Says self.now (P.entries past.old) }
        requires shown { IsKeptOf (P.entries past.old) (needed.needed (P.entries past.old)) }
        ensures kept { OnOk result (P.entries past.new ≡ needed.needed (P.entries past.old)) }
        ensures back { IfOk result (λ made. AreForgotten (P.entries past.old) made) }
        ensures unchanged { OnErr result (P.entries past.new ≡ P.entries past.old) }
        ensures says { Says self.now (P.entries past.new) };

    /// The online login whose hash a login may use while the directory can be reached.
    fn cached<P: Past>(&self, settings: &Settings, past: &P, t: u64, user: &Text) -> Option<u64>
        requires { Says self.now (P.entries past.now) }
        ensures { result ≡ logins.cached_login settings.now (P.entries past.now) t user.now };

    /// The reply to who looks for the stored hash of a user.
    fn reply_to_look<P: Past>(&self, settings: &Settings, past: &P, user: &Text) -> Reply
        requires { Says self.now (P.entries past.now) }
        ensures { result ≡ steps.reply_to_look (logins.usable_hash settings.now (P.entries past.now) user.now) };

    /// The verdict on a guess that compared the password with the hash of the entry `named`.
    fn verdict<P: Past>(
        &self,
        settings: &Settings,
        past: &P,
        t: u64,
        user: &Text,
        named: u64,
        right: bool,
    ) -> Verdict
        requires { Says self.now (P.entries past.now) }
        ensures { result ≡ logins.verdict_of settings.now (P.entries past.now) t user.now named right };

    /// The verdict on a try, which compared the password with the hash of the online login `named`.
    fn verdict_of_try<P: Past>(
        &self,
        settings: &Settings,
        past: &P,
        t: u64,
        user: &Text,
        named: u64,
        right: bool,
    ) -> Verdict
        requires { Says self.now (P.entries past.now) }
        ensures { result ≡ logins.verdict_of_try settings.now (P.entries past.now) t user.now named right };
}

/// Nothing: the entries are read at each login.
#[derive(Drop)]
pub struct NoBook;

fn reply_by_login(login: Option<Login>) -> Reply
    ensures { result ≡ steps.reply_to_look (option_map limits.login login) }
{
    match login {
        Some(login) => Reply::Hash(login.number),
        None => Reply::NoHash,
    }
}

impl LoginBook for NoBook {
    ghost Says = { λ _ _. ⊤ };

    fn read(_alloc: Global, _entries: &[Entry]) -> Result<NoBook, Memory> {
        Ok(NoBook)
    }

    fn put<P: Past>(&mut self, past: &mut P, entry: Entry) -> Result<(), Event> {
        past.put(entry)
    }

    fn forget<P: Past>(&self, alloc: Global, past: &mut P) -> Result<Forgotten, Memory> {
        past.forget(alloc)
    }

    fn cached<P: Past>(&self, settings: &Settings, past: &P, t: u64, user: &Text) -> Option<u64> {
        cached_login(settings, past.list(), t, user)
    }

    fn reply_to_look<P: Past>(&self, settings: &Settings, past: &P, user: &Text) -> Reply {
        reply_by_login(usable_hash(settings, past.list(), user))
    }

    fn verdict<P: Past>(
        &self,
        settings: &Settings,
        past: &P,
        t: u64,
        user: &Text,
        named: u64,
        right: bool,
    ) -> Verdict {
        verdict_of(settings, past.list(), t, user, named, right)
    }

    fn verdict_of_try<P: Past>(
        &self,
        settings: &Settings,
        past: &P,
        t: u64,
        user: &Text,
        named: u64,
        right: bool,
    ) -> Verdict {
        verdict_of_try(settings, past.list(), t, user, named, right)
    }
}

/// A mark for each user who logged in or guessed, so that a login costs no walk.
pub struct UserBook {
    marks: Marks,
}

impl Drop for UserBook {
    fn drop(self) {
        let UserBook { marks: _ } = self;
    }
}

fn reply_by_hash(used: bool, hash: Option<u64>) -> Reply
    ensures { result ≡ noted.reply_by_hash used hash }
{
    match hash {
        Some(number) if used => Reply::Hash(number),
        _ => Reply::NoHash,
    }
}

/// The marks of entries, the oldest first.
fn marks_of(alloc: Global, entries: &[Entry]) -> Result<Marks, Memory>
    requires { noted.HadCounts (reverse entries.now) }
    ensures { IfOk result (λ made. noted.SayOfUsers made (reverse entries.now)) }
{
    let mut marks = Marks::new(alloc);
    for place in 0..entries.len() {
        let entry = &entries[place];
        let user = make_room(&mut marks, &entries[..place], entry)?;
        keep(&mut marks, user.as_ref(), note_of(entry));
    }
    Ok(marks)
}

impl LoginBook for UserBook {
    ghost Says = { λ b past. noted.SayOfUsers b.marks past };

    fn read(alloc: Global, entries: &[Entry]) -> Result<UserBook, Memory> {
        Ok(UserBook {
            marks: marks_of(alloc, entries)?,
        })
    }

    /// A mark is made before the entry is put, since want of memory refuses the entry; then nothing can fail.
    fn put<P: Past>(&mut self, past: &mut P, entry: Entry) -> Result<(), Event> {
        let Ok(user) = make_room(&mut self.marks, past.list(), &entry) else {
            return Err(entry.event);
        };
        let note = note_of(&entry);
        past.put(entry)?;
        keep(&mut self.marks, user.as_ref(), note);
        Ok(())
    }

    fn forget<P: Past>(&self, alloc: Global, past: &mut P) -> Result<Forgotten, Memory> {
        past.forget(alloc)
    }

    fn cached<P: Past>(&self, settings: &Settings, _past: &P, t: u64, user: &Text) -> Option<u64> {
        self.marks.cached(settings, t, user)
    }

    fn reply_to_look<P: Past>(&self, settings: &Settings, _past: &P, user: &Text) -> Reply {
        reply_by_hash(settings.cache_credentials, self.marks.hash_entry(user))
    }

    fn verdict<P: Past>(
        &self,
        settings: &Settings,
        _past: &P,
        t: u64,
        user: &Text,
        named: u64,
        right: bool,
    ) -> Verdict {
        self.marks.verdict(settings, t, user, named, right)
    }

    fn verdict_of_try<P: Past>(
        &self,
        settings: &Settings,
        _past: &P,
        t: u64,
        user: &Text,
        named: u64,
        right: bool,
    ) -> Verdict {
        self.marks.tried(settings, t, user, named, right)
    }
}
