//! Parts of a value, in order and apart, without ASCII case.
ghost use Rattle.std.specs.Prelude.{◌≡◌, ℕ, List, Bool, Option, length};
ghost use Rattle.std.specs.Option.{option_copied};
ghost use Rattle.sd_match.specs.Matching.{begins_with, ends_with, first_behind, has_end, has_parts, is_composed};

use sd_base::Text;
use sd_dn::compare::same_text;

fn begins_with(part: &[u8], text: &[u8]) -> bool
    ensures { result ≡ begins_with part.now text.now }
{
    if text.len() < part.len() {
        return false;
    }
    same_text(&text[..part.len()], part)
}

fn ends_with(part: &[u8], text: &[u8]) -> bool
    ensures { result ≡ ends_with part.now text.now }
{
    if text.len() < part.len() {
        return false;
    }
    same_text(&text[text.len() - part.len()..], part)
}

/// What is behind the first place where a part stands.
fn first_behind<'a>(part: &[u8], text: &'a [u8]) -> Option<&'a [u8]>
    ensures { option_copied result ≡ first_behind part.now text.now }
{
    for place in 0..text.len() {
        if begins_with(part, &text[place..]) {
            return Some(&text[place + part.len()..]);
        }
    }
    if part.is_empty() {
        return Some(&text[text.len()..]);
    }
    None
}

/// Whether the last part, where there is one, ends the text.
fn has_end(last: &Option<Text>, text: &[u8]) -> bool
    ensures { result ≡ has_end last.now text.now }
{
    match last {
        Some(part) => ends_with(part.bytes(), text),
        None => true,
    }
}

/// Whether the parts stand in the text, and the last ends it: each is looked for behind the first place of
/// the one before.
#[tactic(auto, using(crate::proofs::Greedy::found_behind, crate::proofs::Greedy::nowhere))]
fn has_parts(parts: &[Text], last: &Option<Text>, text: &[u8]) -> bool
    ensures { result ≡ has_parts parts.now last.now text.now }
{
    let mut rest = text;
    for part in parts {
        match first_behind(part.bytes(), rest) {
            Some(behind) => rest = behind,
            None => return false,
        }
    }
    has_end(last, rest)
}

/// Whether a text is a first part, others behind it, and a last part.
pub fn is_composed(initial: &Option<Text>, any: &[Text], last: &Option<Text>, text: &[u8]) -> bool
    ensures { result ≡ is_composed initial.now any.now last.now text.now }
{
    match initial {
        Some(part) => {
            let part = part.bytes();
            begins_with(part, text) && has_parts(any, last, &text[part.len()..])
        }
        None => has_parts(any, last, text),
    }
}
