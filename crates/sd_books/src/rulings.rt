// What a core keeps of the newest answer to the question for the access rules, and how it decides by it.
ghost use Rattle.std.specs.Prelude.{◌≡◌, ◌∷◌, ◌<◌, ◌^◌, true, Option, Some, ⊤, length, IfOk, IsOk};
ghost use Rattle.std.specs.Option.{option_copied, option_map};
ghost use Rattle.sd_rules.specs.declared.keys.Key.TheVariants as keys;
ghost use Rattle.sd_rules.specs.Access as access;
ghost use Rattle.sd_rules.specs.Past as answers;
ghost use Rattle.sd_rules.specs.TextBytes as bytes;
ghost use Rattle.sd_rules.specs.TextBytes.{bytes_of_answered};
ghost use Rattle.sd_journal.specs.Seen as seen;
ghost use Rattle.sd_hbac.specs.Seen as asked;
ghost use Rattle.sd_past.specs.Closing.{closes_place};
ghost use Rattle.sd_books.specs.Bounds.{bytes_of_standing};
ghost use Rattle.sd_books.specs.Ruled as ruled;

use sd_base::Memory;
use sd_hbac::{Sets, allowed};
use sd_journal::keys::speaks_of;
use sd_journal::past::{Standing, answer_in};
use sd_past::Past;
use sd_rules::{Answered, By, Entry, Key, NotBy, Record, Reply, RuleBook, Who};
use std::alloc::Global;

fn reply_by_rule(number: u64, rule: Option<u32>) -> Reply
    ensures { result ≡ access.reply_by_rule number rule }
{
    match rule {
        Some(place) => Reply::Granted(By::Rule(number, place)),
        None => Reply::Denied(NotBy::NoRule),
    }
}

/// What is kept of the newest answer to the question for the rules.
pub trait Ruling: Drop {
    /// It says what an answer says, or that there is none.
    ghost Says: { Self → Option answers.Standing → Type 0 };

    /// What is kept of an answer, or of none.
    fn of(alloc: Global, answer: Option<Standing<'_>>) -> Result<Self, Memory>
        requires { bytes_of_standing (option_map seen.standing answer) < 2 ^ 32 }
        ensures { IfOk result (λ made. Says made (option_map seen.standing answer.entry)) };

    /// The reply to an account check by the rules, which are those of the newest answer.
    fn reply<P: Past>(&self, past: &P, who: &Who<'_>) -> Reply
        requires texts { bytes.text_bytes (P.entries past.now) < 2 ^ 32 }
        requires says { Says self.now (answers.newest (P.entries past.now) keys.Rules) }
        ensures { result ≡ access.reply_by_rules (asked.asker who.now) (answers.newest (P.entries past.now) keys.Rules) };
}

/// Nothing: the rules are read in the answer at each check.
#[derive(Drop)]
pub struct Unkept;

/// The reply by the record of an answer, where it is one of rules.
#[tactic(auto, using(crate::proofs::Sizes::rules_within_bytes))]
fn reply_by_record(number: u64, found: &Record, who: &Who<'_>) -> Reply
    requires { bytes_of_answered (Answered.Found found.now) < 2 ^ 32 }
    ensures { result ≡ access.reply_by_book (asked.asker who.now) number (Answered.Found found.now) }
{
    match found {
        Record::Rules(book) => reply_by_rule(number, allowed(book, who)),
        _ => Reply::Denied(NotBy::NoRule),
    }
}

/// The reply by the answer that holds the rules.
#[tactic(auto, using(crate::proofs::Sizes::rules_within_bytes))]
fn reply_by_rules(who: &Who<'_>, answer: Option<Standing<'_>>) -> Reply
    requires { bytes_of_standing (option_map seen.standing answer) < 2 ^ 32 }
    ensures { result ≡ access.reply_by_rules (asked.asker who.now) (option_map seen.standing answer.entry) }
{
    match answer {
        Some(a) => match a.answered {
            Answered::Found(found) => reply_by_record(a.number, found.value(), who),
            Answered::Absent => Reply::Denied(NotBy::NoRule),
        },
        None => Reply::Denied(NotBy::NoRule),
    }
}

impl Ruling for Unkept {
    ghost Says = { λ _ _. ⊤ };

    fn of(_alloc: Global, _answer: Option<Standing<'_>>) -> Result<Unkept, Memory> {
        Ok(Unkept)
    }

    #[tactic(auto, using(crate::proofs::Sizes::newest_within))]
    fn reply<P: Past>(&self, past: &P, who: &Who<'_>) -> Reply {
        reply_by_rules(who, past.newest(&Key::Rules))
    }
}

/// The rules of an answer, compiled, with the answer's number.
pub struct Numbered {
    number: u64,
    sets: Sets,
}

impl Drop for Numbered {
    fn drop(self) {
        let Numbered { number: _, sets: _ } = self;
    }
}

/// The rules of the newest answer, compiled once; none where it holds none.
pub struct Compiled {
    rules: Option<Numbered>,
}

impl Drop for Compiled {
    fn drop(self) {
        let Compiled { rules: _ } = self;
    }
}

fn compile(alloc: Global, number: u64, book: &RuleBook) -> Result<Numbered, Memory>
    requires { length book.now.rules < 2 ^ 32 }
    ensures { IfOk result (ruled.IsCompiledOf number book.now) }
{
    let sets = Sets::compile(alloc, book)?;
    Ok(Numbered { number, sets })
}

/// The rules that were answered.
fn book_in(answered: &Answered) -> Option<&RuleBook>
    ensures { option_copied result ≡ ruled.book_in answered.now }
{
    match answered {
        Answered::Found(found) => match found.value() {
            Record::Rules(book) => Some(book),
            _ => None,
        },
        Answered::Absent => None,
    }
}

#[tactic(auto, using(crate::proofs::RuledLaws::rules_below, crate::proofs::RuledLaws::says_compiled, crate::proofs::RuledLaws::says_no_book))]
fn rules_of(alloc: Global, answer: Standing<'_>) -> Result<Option<Numbered>, Memory>
    requires { bytes_of_answered (seen.standing answer).answered < 2 ^ 32 }
    ensures { IfOk result (λ rules. ruled.SaysRules rules (Some (seen.standing answer.entry))) }
{
    match book_in(answer.answered) {
        Some(book) => Ok(Some(compile(alloc, answer.number, book)?)),
        None => Ok(None),
    }
}

fn reply_by_compiled(rules: Option<&Numbered>, who: &Who<'_>) -> Reply
    ensures { result ≡ ruled.reply_by_compiled (option_copied rules.entry) (asked.asker who.now) }
{
    match rules {
        Some(rules) => reply_by_rule(rules.number, rules.sets.allowed(who)),
        None => Reply::Denied(NotBy::NoRule),
    }
}

impl Ruling for Compiled {
    ghost Says = { λ c answer. ruled.SaysRules c.rules answer };

    #[tactic(auto, using(crate::proofs::RuledLaws::says_none))]
    fn of(alloc: Global, answer: Option<Standing<'_>>) -> Result<Compiled, Memory> {
        match answer {
            Some(answer) => Ok(Compiled {
                rules: rules_of(alloc, answer)?,
            }),
            None => Ok(Compiled { rules: None }),
        }
    }

    fn reply<P: Past>(&self, _past: &P, who: &Who<'_>) -> Reply {
        reply_by_compiled(self.rules.as_ref(), who)
    }
}

/// An answer as the answer to the question for the rules, where it is one.
fn for_rules(answer: Option<Standing<'_>>) -> Option<Standing<'_>>
    ensures { option_map seen.standing result ≡ answers.spoken keys.Rules (option_map seen.standing answer.entry) }
{
    match answer {
        Some(a) if speaks_of(a.own, a.answered, &Key::Rules) => Some(a),
        _ => None,
    }
}

/// What is kept of the rules once an entry is made, where the entry answers the question for them.
#[tactic(auto, using(crate::proofs::RuledLaws::told_below, crate::proofs::RuledLaws::says_after, crate::proofs::RuledLaws::says_still, crate::proofs::RuledLaws::closing_tells_none))]
pub fn ruling_by<P: Past, R: Ruling>(
    alloc: Global,
    past: &P,
    entry: &Entry,
) -> Result<Option<R>, Memory>
    requires texts { bytes.text_bytes (entry.now ∷ P.entries past.now) < 2 ^ 32 }
    ensures made { IfOk result (ruled.SaysAfter R.Says (P.entries past.now) entry.now) }
    ensures free { closes_place (P.entries past.now) entry.now.event ≡ true → IsOk result }
{
    match for_rules(answer_in(past.list(), entry)) {
        Some(answer) => Ok(Some(R::of(alloc, Some(answer))?)),
        None => Ok(None),
    }
}

/// Keeps what was made, if it was.
pub fn keep<R: Ruling>(kept: &mut R, made: Option<R>)
    ensures { kept.new ≡ ruled.chosen made kept.old }
{
    if let Some(made) = made {
        *kept = made;
    }
}
