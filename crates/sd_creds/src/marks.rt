// What is kept of each user's logins: the stored hash, the last online login and the wrong guesses.
ghost use Rattle.std.specs.Prelude.{◌≡◌, ◌≢◌, ◌+◌, ◌<◌, ◌^◌, ℕ, List, Some, None, true, false, IsTrue, IsOk, OnOk, OnErr, unwrap_or};
ghost use Rattle.std.specs.Bool.{OnTrue, OnFalse};
ghost use Rattle.std.specs.Option.{option_copied, option_map};
ghost use Rattle.sd_rules.specs.Logins as logins;
ghost use Rattle.sd_rules.specs.declared.replies.Entry.{Entry};
ghost use Rattle.sd_rules.specs.Limits as seen;

use crate::verdicts::{cached_login, verdict_of, verdict_of_try};
use sd_base::{Copied, Memory, Text};
use sd_rules::limits::Login;
use sd_rules::{Settings, Verdict};
use std::alloc::Global;
use std::collections::HashMap;
use std::marker::Model;

/// What is kept of one user's logins.
#[derive(Clone, Copy)]
pub struct Mark {
    /// The last online login that carries a hash.
    pub hash: Option<Login>,
    /// The last online login.
    pub login: Option<Login>,
    /// How many wrong guesses were made since the user was last accepted.
    pub wrong_count: u64,
    /// When the last wrong guess was made, in seconds.
    pub last_wrong: Option<u64>,
}

/// The marks of all users; contracts see them as users with their marks, of which only the look-ups count.
pub struct Marks {
    marks: HashMap<Text, Mark>,
}

impl Drop for Marks {
    fn drop(self) {
        let Marks { marks: _ } = self;
    }
}

impl Model for Marks {
    ghost use Rattle.std.specs.Prelude.{List, ℕ};
    ghost use Rattle.sd_creds.specs.declared.marks.Mark.{Mark};

    ghost Value = { List (List ℕ × Mark) };

    ghost view = { λ m. m.marks.entries };
}

impl Marks {
    ghost use Rattle.sd_creds.specs.Marks as marked;

    /// The marks of nobody.
    pub fn new(alloc: Global) -> Marks
        ensures { (user : List ℕ) → marked.mark_of result user ≡ marked.unmarked }
    {
        Marks {
            marks: HashMap::new(alloc),
        }
    }

    /// The mark of a user, which is empty where nothing is kept of the user.
    pub fn mark(&self, user: &Text) -> Mark
        ensures { result ≡ marked.mark_of self.now user.now }
    {
        match self.marks.get(user) {
            Some(mark) => *mark,
            None => Mark {
                hash: None,
                login: None,
                wrong_count: 0,
                last_wrong: None,
            },
        }
    }

    /// Puts another mark in the place of a user's, and says whether there was one.
    fn replace(&mut self, user: &Text, mark: Mark) -> bool
        ensures told { result ≡ marked.is_marked self.old user.now }
        ensures marks { OnTrue result (marked.Sets self.old self.new user.now mark) }
        ensures still { OnTrue result (marked.is_marked self.new user.now ≡ true) }
        ensures none { OnFalse result (self.new ≡ self.old) }
    {
        match self.marks.get_mut(user) {
            Some(place) => {
                *place = mark;
                true
            }
            None => false,
        }
    }

    /// Sets the mark of a user.
    fn set(&mut self, user: &Text, mark: Mark) -> Result<(), Memory>
        ensures marks { OnOk result (marked.Sets self.old self.new user.now mark) }
        ensures marked { OnOk result (marked.is_marked self.new user.now ≡ true) }
        ensures held { marked.is_marked self.old user.now ≡ true → IsOk result }
        ensures err { OnErr result (self.new ≡ self.old) }
    {
        if self.replace(user, mark) {
            return Ok(());
        }
        let user = user.copy()?;
        self.marks.insert(user, mark)?;
        Ok(())
    }

    /// Keeps that a user's hash entry is this one. A user who has a mark already is never refused.
    pub fn keep_hash(&mut self, number: u64, moment: u64, user: &Text) -> Result<(), Memory>
        ensures marks { OnOk result (marked.Sets self.old self.new user.now (marked.with_hash number moment (marked.mark_of self.old user.now))) }
        ensures marked { OnOk result (marked.is_marked self.new user.now ≡ true) }
        ensures held { marked.is_marked self.old user.now ≡ true → IsOk result }
        ensures err { OnErr result (self.new ≡ self.old) }
    {
        let mut mark = self.mark(user);
        mark.hash = Some(Login {
            number,
            moment,
            hashed: true,
        });
        self.set(user, mark)
    }

    /// Keeps that a user's last online login is this one. A user who has a mark already is never refused.
    pub fn online(
        &mut self,
        number: u64,
        moment: u64,
        user: &Text,
        hashed: bool,
    ) -> Result<(), Memory>
        ensures marks { OnOk result (marked.Sets self.old self.new user.now (marked.with_login number moment hashed (marked.mark_of self.old user.now))) }
        ensures marked { OnOk result (marked.is_marked self.new user.now ≡ true) }
        ensures held { marked.is_marked self.old user.now ≡ true → IsOk result }
        ensures err { OnErr result (self.new ≡ self.old) }
    {
        let mut mark = self.mark(user);
        mark.login = Some(Login {
            number,
            moment,
            hashed,
        });
        self.set(user, mark)
    }

    /// Counts wrong guesses of a user, the last of them at this moment. A user who has a mark already is never refused.
    pub fn wrong(&mut self, moment: u64, user: &Text, count: u64) -> Result<(), Memory>
        requires { (marked.mark_of self.old user.now).wrong_count + count < 2 ^ 64 }
        ensures marks { OnOk result (marked.Sets self.old self.new user.now (marked.with_wrong moment count (marked.mark_of self.old user.now))) }
        ensures marked { OnOk result (marked.is_marked self.new user.now ≡ true) }
        ensures held { marked.is_marked self.old user.now ≡ true → IsOk result }
        ensures err { OnErr result (self.new ≡ self.old) }
    {
        let mut mark = self.mark(user);
        mark.wrong_count += count;
        mark.last_wrong = Some(moment);
        self.set(user, mark)
    }

    /// Forgets a user's wrong guesses, since the user was accepted.
    pub fn accept(&mut self, user: &Text)
        ensures marks { marked.Sets self.old self.new user.now (marked.with_accept (marked.mark_of self.old user.now)) }
        ensures still { marked.is_marked self.old user.now ≡ true → marked.is_marked self.new user.now ≡ true }
    {
        let mut mark = self.mark(user);
        mark.wrong_count = 0;
        let _is_marked = self.replace(user, mark);
    }

    /// The number of a user's hash entry.
    pub fn hash_entry(&self, user: &Text) -> Option<u64>
        ensures { result ≡ option_map (λ l. l.number) (marked.mark_of self.now user.now).hash }
    {
        self.mark(user).hash.map(|login| login.number)
    }

    /// The verdict on a guess that compared the password with the hash of the entry `named`.
    pub fn verdict(
        &self,
        settings: &Settings,
        moment: u64,
        user: &Text,
        named: u64,
        right: bool,
    ) -> Verdict
        ensures mark { result ≡ marked.verdict_of settings.now moment (marked.mark_of self.now user.now) named right }

        // What a journal says, where the mark is the journal's.
        ensures journal { (past : List Entry) → marked.IsMarkOf past user.now (marked.mark_of self.now user.now) → result ≡ logins.verdict_of settings.now past moment user.now named right }
    {
        let mark = self.mark(user);
        verdict_of(settings, moment, &mark, named, right)
    }

    /// The online login whose hash a login may use while the directory can be reached.
    pub fn cached(&self, settings: &Settings, moment: u64, user: &Text) -> Option<u64>
        ensures mark { result ≡ marked.cached_login settings.now moment (marked.mark_of self.now user.now) }
        ensures journal { (past : List Entry) → marked.IsMarkOf past user.now (marked.mark_of self.now user.now) → result ≡ logins.cached_login settings.now past moment user.now }
    {
        let mark = self.mark(user);
        cached_login(settings, moment, &mark)
    }

    /// The verdict on a try, which compared the password with the hash of the online login `named`.
    pub fn tried(
        &self,
        settings: &Settings,
        moment: u64,
        user: &Text,
        named: u64,
        right: bool,
    ) -> Verdict
        ensures mark { result ≡ marked.verdict_of_try settings.now moment (marked.mark_of self.now user.now) named right }
        ensures journal { (past : List Entry) → marked.IsMarkOf past user.now (marked.mark_of self.now user.now) → result ≡ logins.verdict_of_try settings.now past moment user.now named right }
    {
        let mark = self.mark(user);
        verdict_of_try(settings, moment, &mark, named, right)
    }
}
