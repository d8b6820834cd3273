// Pieces, words, numbers and names of a scenario's text.
ghost use Rattle.std.specs.Prelude.{◌≡◌, ℕ, ◌<◌, ◌≤◌, ◌^◌, ◌-◌, ◌+◌, ◌==◌, ◌∷◌, ◌&&◌, min, not, nat_le, length, map, IfOk, IfSome};
ghost use Rattle.std.specs.List.{slice_split, list_all};
ghost use Rattle.std.specs.Option.{option_copied, option_map};
ghost use Rattle.sd_pieces.specs.Digits.{is_digit};
ghost use Rattle.sd_lines.specs.Words as words;

use sd_base::{Memory, Text, Texts};
pub use sd_pieces::cut;
use sd_pieces::number_up_to;
use std::alloc::Global;

/// The words of a line.
pub fn words_of(alloc: Global, line: &[u8]) -> Result<Vec<&[u8]>, Memory>
    ensures { IfOk result (λ ws. map (λ w. w.now) ws.items ≡ words.words_of line.now) }
{
    let mut ws = Vec::new(alloc);
    let mut left = Some(line);
    while let Some(bytes) = left {
        let (word, rest) = cut(b' ', bytes);
        if !word.is_empty() {
            ws.push(word)?;
        }
        left = rest;
    }
    Ok(ws)
}

fn is_digit(byte: u8) -> bool
    ensures { result ≡ is_digit byte }
{
    b'0' <= byte && byte <= b'9'
}

fn is_name_byte(byte: u8) -> bool
    ensures { result ≡ words.is_name_byte byte }
{
    is_digit(byte)
        || (b'A' <= byte && byte <= b'Z')
        || (b'a' <= byte && byte <= b'z')
        || byte == b'.'
        || byte == b'_'
        || byte == b'-'
}

fn are_name_bytes(word: &[u8]) -> bool
    ensures { result ≡ list_all words.is_name_byte word.now }
{
    word.iter().all(|byte| is_name_byte(*byte))
}

fn is_visible(byte: u8) -> bool
    ensures { result ≡ words.is_visible byte }
{
    b'!' <= byte && byte <= b'~'
}

fn are_visible(word: &[u8]) -> bool
    ensures { result ≡ list_all words.is_visible word.now }
{
    word.iter().all(|byte| is_visible(*byte))
}

/// Whether a word has 1 to 255 bytes.
fn is_of_a_words_length(word: &[u8]) -> bool
    ensures { result ≡ (not (words.is_empty word.now) && nat_le (length word.now) 255) }
{
    !word.is_empty() && word.len() <= 255
}

/// Whether a word is a name of letters, digits, dots, underscores and hyphens.
pub fn is_short_name(word: &[u8]) -> bool
    ensures { result ≡ words.is_short_name word.now }
{
    is_of_a_words_length(word) && are_name_bytes(word)
}

/// Whether a word is one of visible bytes.
pub fn is_word(word: &[u8]) -> bool
    ensures { result ≡ words.is_word word.now }
{
    is_of_a_words_length(word) && are_visible(word)
}

/// The one word, where there is one.
#[tactic(auto, using(crate::proofs::Counts::others))]
pub fn one_of<'a>(ws: &[&'a [u8]]) -> Option<&'a [u8]>
    ensures { option_copied result ≡ words.one_of (map (λ w. w.now) ws.now) }
{
    let [word] = ws else {
        return None;
    };
    Some(*word)
}

/// The two words, where there are two.
#[tactic(auto, using(crate::proofs::Counts::others))]
pub fn pair_of<'a>(ws: &[&'a [u8]]) -> Option<(&'a [u8], &'a [u8])>
    ensures { option_map (λ pair. (pair.0.now, pair.1.now)) result ≡ words.pair_of (map (λ w. w.now) ws.now) }
{
    let [first, second] = ws else {
        return None;
    };
    Some((*first, *second))
}

/// The first word, where there is one, and those behind it.
#[tactic(auto, using(crate::proofs::Counts::fewer))]
pub fn first_of<'a, 'b>(ws: &'b [&'a [u8]]) -> Option<(&'a [u8], &'b [&'a [u8]])>
    ensures { option_map (λ found. (found.0.now, map (λ w. w.now) found.1.now)) result ≡ words.first_of (map (λ w. w.now) ws.now) }
{
    let [first, rest @ ..] = ws else {
        return None;
    };
    Some((*first, rest))
}

/// The first two words, where there are so many, and those behind them.
#[tactic(auto, using(crate::proofs::Counts::fewer))]
pub fn two_of<'a, 'b>(ws: &'b [&'a [u8]]) -> Option<(&'a [u8], &'a [u8], &'b [&'a [u8]])>
    ensures { option_map (λ found. (found.0.now, (found.1.now, map (λ w. w.now) found.2.now))) result ≡ words.two_of (map (λ w. w.now) ws.now) }
{
    let [first, second, rest @ ..] = ws else {
        return None;
    };
    Some((*first, *second, rest))
}

/// The first three words, where there are so many, and those behind them.
#[tactic(auto, using(crate::proofs::Counts::fewer))]
pub fn three_of<'a, 'b>(
    ws: &'b [&'a [u8]],
) -> Option<(&'a [u8], &'a [u8], &'a [u8], &'b [&'a [u8]])>
    ensures { option_map (λ found. (found.0.now, (found.1.now, (found.2.now, map (λ w. w.now) found.3.now)))) result ≡ words.three_of (map (λ w. w.now) ws.now) }
{
    let [first, second, third, rest @ ..] = ws else {
        return None;
    };
    Some((*first, *second, *third, rest))
}

/// The letter of a word `L:NAME`, and the name.
#[tactic(auto, using(crate::proofs::Counts::fewer))]
pub fn tag_of(word: &[u8]) -> Option<(u8, &[u8])>
    ensures { option_map (λ found. (found.0, found.1.now)) result ≡ words.tag_of word.now }
{
    let [letter, colon, name @ ..] = word else {
        return None;
    };
    if *colon == b':' {
        Some((*letter, name))
    } else {
        None
    }
}

/// A number that fits 32 bits.
pub fn id_of(word: &[u8]) -> Option<u32>
    ensures { result ≡ words.id_of word.now }
{
    match number_up_to(u64::from(u32::MAX), word) {
        Some(number) => Some(number as u32),
        None => None,
    }
}

/// Whether each word is a short name.
pub fn are_short_names(ws: &[&[u8]]) -> bool
    ensures { result ≡ list_all words.is_short_name (map (λ w. w.now) ws.now) }
{
    for word in ws {
        if !is_short_name(word) {
            return false;
        }
    }
    true
}

/// The words as texts of their own.
pub fn texts_of(alloc: Global, ws: &[&[u8]]) -> Result<Texts, Memory>
    ensures { IfOk result (λ texts. texts ≡ map (λ w. w.now) ws.now) }
{
    let mut texts = Texts::new(alloc);
    for word in ws {
        texts.push(Text::from_bytes(alloc, word)?)?;
    }
    Ok(texts)
}

/// A line without the spaces at its front.
fn without_spaces(line: &[u8]) -> &[u8]
    ensures { result.now ≡ words.without_spaces line.now }
{
    for (at, byte) in line.iter().enumerate() {
        if *byte != b' ' {
            return &line[at..];
        }
    }
    &line[line.len()..]
}

/// The first word of a line, and what stands behind the space that ends it, where one does.
pub fn first_word(line: &[u8]) -> (&[u8], Option<&[u8]>)
    ensures { (result.0.now, option_copied result.1) ≡ words.first_word line.now }
{
    cut(b' ', without_spaces(line))
}
