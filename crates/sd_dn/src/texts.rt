// Comparing texts as DNs, without memory: byte after byte of what both mean.
ghost use Rattle.std.specs.Prelude.{◌≡◌, ℕ, Bool, true, false, ◌+◌, ◌-◌, ◌<◌, ◌≤◌, ◌&&◌, ◌↔◌, IsTrue, List, length, take, drop, Option, Some, None, MatchOption, IfSome, IfOk};
ghost use Rattle.std.specs.Option.{option_copied};
ghost use Rattle.sd_dn.specs.declared.Pair.{Pair};
ghost use Rattle.sd_dn.specs.Grammar.{Spells};
ghost use Rattle.sd_dn.specs.Comparing.{same_dn};
ghost use Rattle.sd_dn.specs.Reading as reading;
ghost use Rattle.sd_dn.specs.Texts.{spelled, same_dn_text, both_meet};
ghost use Rattle.sd_dn.specs.Remaining.{AtType, OnType, AtEquals, AtValue, OnValue, OnEscape, OnHex, remaining, renamed, named_all, behind_equals, on_value, said, is_byte, meeting, met, decided, same_head, same_tail, starts_with_space, ends_pair, starts_with_type};
ghost use Rattle.sd_dn.specs.declared.texts.Verdict.TheVariants as verdicts;

use crate::bytes::{hex_pair, is_reserved, is_special, is_type_byte};
use crate::compare::same_text;
use crate::read::read_dn;
use crate::{Dn, DnFault};
use sd_base::Memory;
use std::alloc::Global;

/// What comes next in a value's text.
#[derive(Clone, Copy)]
enum Symbol {
    /// A byte of the value.
    Byte(u8),
    /// The end of the pair; another one of its RDN follows.
    Plus,
    /// The end of the RDN; another one follows.
    Comma,
    End,
    /// What no DN goes on with.
    Bad,
}

/// How the next symbols of two values meet.
#[derive(Clone, Copy)]
enum Meeting {
    Alike,
    Separated,
    Ended,
    Different,
}

/// What was found of two values.
#[derive(Clone, Copy)]
enum Verdict {
    /// They are equal, and a pair follows in both texts.
    Further,
    Equal,
    Different,
}

/// What is behind the spaces that a text begins with.
fn behind_spaces(text: &[u8]) -> &[u8]
    ensures type_there { remaining result.now AtType ≡ remaining text.now AtType }
    ensures equals_there { remaining result.now AtEquals ≡ remaining text.now AtEquals }
    ensures value_there { remaining result.now AtValue ≡ remaining text.now AtValue }
    ensures gap { remaining result.now (OnValue (length text.now - length result.now)) ≡ remaining text.now (OnValue 0) }
    ensures no_space { starts_with_space result.now ≡ false }
    ensures within { length result.now ≤ length text.now }
{
    for place in 0..text.len() {
        if text[place] != b' ' {
            return &text[place..];
        }
    }
    &text[text.len()..]
}

/// How many bytes of a type a text begins with.
#[tactic(auto, using(crate::proofs::Meets::type_kept))]
fn type_length(text: &[u8]) -> usize
    ensures within { result ≤ length text.now }
    ensures named { remaining text.now OnType ≡ named_all (take result text.now) (remaining (drop result text.now) OnType) }
    ensures no_type { starts_with_type (drop result text.now) ≡ false }
{
    for place in 0..text.len() {
        if !is_type_byte(text[place]) {
            return place;
        }
    }
    text.len()
}

/// What is behind spaces and a `=`.
fn behind_equals(text: &[u8]) -> Option<&[u8]>
    ensures exact { remaining text.now AtEquals ≡ behind_equals (option_copied result) }
    ensures within { IfSome result (λ value. length value.now < length text.now) }
{
    match behind_spaces(text) {
        [b'=', value @ ..] => Some(value),
        _ => None,
    }
}

/// A pair's type and what is behind its `=`.
#[derive(Clone, Copy)]
struct Typed<'a> {
    name: &'a [u8],
    value: &'a [u8],
}

fn starts_with_type(text: &[u8]) -> bool
    ensures { result ≡ starts_with_type text.now }
{
    match text {
        [first, ..] => is_type_byte(*first),
        [] => false,
    }
}

/// The type that a text begins with, behind spaces.
fn first_type(text: &[u8]) -> Option<Typed<'_>>
    ensures exact { MatchOption result (remaining text.now AtType ≡ None) (λ typed. remaining text.now AtType ≡ renamed typed.name.now (remaining typed.value.now AtValue)) }
    ensures within { IfSome result (λ typed. length typed.value.now < length text.now) }
{
    let text = behind_spaces(text);
    if !starts_with_type(text) {
        return None;
    }
    let length = type_length(text);
    match behind_equals(&text[length..]) {
        Some(value) => Some(Typed {
            name: &text[..length],
            value,
        }),
        None => None,
    }
}

/// A byte of a value behind a backslash.
fn escaped(text: &[u8]) -> (Symbol, &[u8])
    ensures exact { remaining text.now (OnEscape 0) ≡ said result.0 result.1.now 0 }
    ensures within { length result.1.now ≤ length text.now }
{
    let [byte, rest @ ..] = text else {
        return (Symbol::Bad, text);
    };
    if is_special(*byte) {
        return (Symbol::Byte(*byte), rest);
    }
    if byte.is_ascii_hexdigit() {
        return in_hex(*byte, rest);
    }
    (Symbol::Bad, text)
}

/// A byte of a value behind a backslash and a hexadecimal digit.
fn in_hex(high: u8, text: &[u8]) -> (Symbol, &[u8])
    ensures exact { remaining text.now (OnHex 0 high) ≡ said result.0 result.1.now 0 }
    ensures within { length result.1.now ≤ length text.now }
{
    let [low, rest @ ..] = text else {
        return (Symbol::Bad, text);
    };
    match hex_pair(high, *low) {
        Some(byte) => (Symbol::Byte(byte), rest),
        None => (Symbol::Bad, text),
    }
}

/// The symbol at the beginning of a value.
fn first_symbol(text: &[u8]) -> (Symbol, &[u8])
    ensures exact { remaining text.now AtValue ≡ said result.0 result.1.now 0 }
    ensures within { length result.1.now ≤ length text.now }
{
    let text = behind_spaces(text);
    match text {
        [] => (Symbol::End, text),
        [b',', rest @ ..] => (Symbol::Comma, rest),
        [b'+', rest @ ..] => (Symbol::Plus, rest),
        [b'\\', rest @ ..] => escaped(rest),
        [byte, rest @ ..] => {
            if is_reserved(*byte) || *byte == b'#' {
                return (Symbol::Bad, rest);
            }
            (Symbol::Byte(*byte), rest)
        }
    }
}

/// The symbol at a place of a value that has begun, before which so many spaces of it are still to come;
/// then what is behind the symbol, and how many spaces are to come before that.
fn later_symbol(text: &[u8], owed: usize) -> (Symbol, &[u8], usize)
    ensures exact { on_value owed text.now ≡ said result.0 result.1.now result.2 }
    ensures within { length result.1.now ≤ length text.now }
    ensures fewer { is_byte result.0 ≡ true → length result.1.now + result.2 < length text.now + owed }
{
    if owed > 0 {
        return (Symbol::Byte(b' '), text, owed - 1);
    }
    let rest = behind_spaces(text);
    spaced_symbol(rest, text.len() - rest.len())
}

/// The symbol behind so many spaces, which belong to the value only if no pair ends here.
fn spaced_symbol(text: &[u8], gap: usize) -> (Symbol, &[u8], usize)
    requires { starts_with_space text.now ≡ false }
    ensures exact { remaining text.now (OnValue gap) ≡ said result.0 result.1.now result.2 }
    ensures within { length result.1.now ≤ length text.now }
    ensures fewer { is_byte result.0 ≡ true → length result.1.now + result.2 < length text.now + gap }
{
    match text {
        [b',', rest @ ..] => (Symbol::Comma, rest, 0),
        [b'+', rest @ ..] => (Symbol::Plus, rest, 0),
        _ => inner_symbol(text, gap),
    }
}

/// The same, where no pair ends here.
#[tactic(auto, using(crate::proofs::Meets::owing))]
fn inner_symbol(text: &[u8], gap: usize) -> (Symbol, &[u8], usize)
    requires no_space { starts_with_space text.now ≡ false }
    requires inner { ends_pair text.now ≡ false }
    ensures exact { remaining text.now (OnValue gap) ≡ said result.0 result.1.now result.2 }
    ensures within { length result.1.now ≤ length text.now }
    ensures fewer { is_byte result.0 ≡ true → length result.1.now + result.2 < length text.now + gap }
{
    if gap > 0 {
        return (Symbol::Byte(b' '), text, gap - 1);
    }
    let (symbol, rest) = solid_symbol(text);
    (symbol, rest, 0)
}

/// The symbol at a place of a value that has begun, where no space stands and no pair ends.
fn solid_symbol(text: &[u8]) -> (Symbol, &[u8])
    requires no_space { starts_with_space text.now ≡ false }
    requires inner { ends_pair text.now ≡ false }
    ensures exact { remaining text.now (OnValue 0) ≡ said result.0 result.1.now 0 }
    ensures within { length result.1.now ≤ length text.now }
    ensures fewer { is_byte result.0 ≡ true → length result.1.now < length text.now }
{
    match text {
        [] => (Symbol::End, text),
        [b'\\', rest @ ..] => escaped(rest),
        [byte, rest @ ..] => {
            if is_reserved(*byte) {
                return (Symbol::Bad, rest);
            }
            (Symbol::Byte(*byte), rest)
        }
    }
}

fn meet(x: Symbol, y: Symbol) -> Meeting
    ensures { result ≡ meeting x y }
{
    match (x, y) {
        (Symbol::Byte(b), Symbol::Byte(c)) => {
            if b.eq_ignore_ascii_case(&c) {
                Meeting::Alike
            } else {
                Meeting::Different
            }
        }
        (Symbol::Plus, Symbol::Plus) | (Symbol::Comma, Symbol::Comma) => Meeting::Separated,
        (Symbol::End, Symbol::End) => Meeting::Ended,
        _ => Meeting::Different,
    }
}

/// Compares two values; then what is behind them.
#[tactic(auto, using(crate::proofs::Meets::go_on, crate::proofs::Meets::go_further, crate::proofs::Meets::end_equal, crate::proofs::Meets::end_different, crate::proofs::Meets::alike_is_byte))]
fn same_values<'a, 'b>(a: &'a [u8], b: &'b [u8]) -> (Verdict, &'a [u8], &'b [u8])
    ensures exact { both_meet same_tail (remaining a.now AtValue) (remaining b.now AtValue) ≡ decided result.0 result.1.now result.2.now }
    ensures within { length result.1.now ≤ length a.now }
{
    let (mut x, mut rest_a) = first_symbol(a);
    let (mut y, mut rest_b) = first_symbol(b);
    let mut owed_a = 0;
    let mut owed_b = 0;
    loop {
        match meet(x, y) {
            Meeting::Alike => {}
            Meeting::Separated => return (Verdict::Further, rest_a, rest_b),
            Meeting::Ended => return (Verdict::Equal, rest_a, rest_b),
            Meeting::Different => return (Verdict::Different, rest_a, rest_b),
        }
        let next_a = later_symbol(rest_a, owed_a);
        let next_b = later_symbol(rest_b, owed_b);
        x = next_a.0;
        rest_a = next_a.1;
        owed_a = next_a.2;
        y = next_b.0;
        rest_b = next_b.1;
        owed_b = next_b.2;
    }
}

/// Compares the pairs that two texts begin with; then what is behind them.
#[tactic(auto, using(crate::proofs::Meets::first_none, crate::proofs::Meets::second_none, crate::proofs::Meets::heads_same, crate::proofs::Meets::heads_differ))]
fn same_pairs<'a, 'b>(a: &'a [u8], b: &'b [u8]) -> (Verdict, &'a [u8], &'b [u8])
    ensures exact { both_meet same_head (remaining a.now AtType) (remaining b.now AtType) ≡ decided result.0 result.1.now result.2.now }
    ensures shorter { result.0 ≡ verdicts.Further → length result.1.now < length a.now }
{
    let Some(first) = first_type(a) else {
        return (Verdict::Different, a, b);
    };
    let Some(second) = first_type(b) else {
        return (Verdict::Different, a, b);
    };
    if !same_text(first.name, second.name) {
        return (Verdict::Different, a, b);
    }
    same_values(first.value, second.value)
}

/// Compares what two texts go on with, at the beginning of a pair.
fn same_rests(a: &[u8], b: &[u8]) -> bool
    ensures { result ≡ both_meet same_head (remaining a.now AtType) (remaining b.now AtType) }
{
    let mut rest_a = a;
    let mut rest_b = b;
    loop {
        let (verdict, behind_a, behind_b) = same_pairs(rest_a, rest_b);
        match verdict {
            Verdict::Further => {
                rest_a = behind_a;
                rest_b = behind_b;
            }
            Verdict::Equal => return true,
            Verdict::Different => return false,
        }
    }
}

fn starts_with_space(text: &[u8]) -> bool
    ensures { result ≡ starts_with_space text.now }
{
    match text {
        [first, ..] => *first == b' ',
        [] => false,
    }
}

/// Whether both texts spell a DN, and these are equal.
#[tactic(auto, using(crate::proofs::Meets::space_left, crate::proofs::Meets::space_right, crate::proofs::Meets::first_empty, crate::proofs::Meets::second_empty, crate::proofs::Meets::both_filled))]
pub fn same_dn_text(a: &[u8], b: &[u8]) -> bool
    ensures { result ≡ same_dn_text a.now b.now }
{
    if starts_with_space(a) {
        return false;
    }
    if starts_with_space(b) {
        return false;
    }
    if a.is_empty() {
        return b.is_empty();
    }
    if b.is_empty() {
        return false;
    }
    same_rests(a, b)
}

/// Whether a text spells a DN.
#[tactic(auto, using(crate::proofs::Meets::with_itself))]
pub fn spells_dn(text: &[u8]) -> bool
    ensures { result ≡ reading.is_dn text.now }
{
    same_dn_text(text, text)
}

/// The DN that a text spells, where it spells one.
pub fn spelled(alloc: Global, text: &[u8]) -> Result<Option<Dn>, Memory>
    ensures { IfOk result (λ dn. dn ≡ spelled text.now) }
{
    match read_dn(alloc, text) {
        Ok(dn) => Ok(Some(dn)),
        Err(DnFault::BadDn(_)) => Ok(None),
        Err(DnFault::Memory) => Err(Memory),
    }
}
