//! The lines of a stored text.

/// A text in front of a place and from another place on.
fn cut(text: &[u8], end: usize, next: usize) -> (&[u8], &[u8]) {
    let len = text.len();
    (&text[..end.min(len)], &text[next.min(len)..])
}

/// What stands in front of the first such byte, and what comes behind it.
fn cut_at(text: &[u8], end: u8) -> (&[u8], &[u8]) {
    match text.iter().position(|byte| *byte == end) {
        Some(place) => cut(text, place, place + 1),
        None => (text, &[]),
    }
}

/// The first line without its end, and what comes behind it.
pub fn cut_line(text: &[u8]) -> (&[u8], &[u8]) {
    cut_at(text, b'\n')
}

/// The word in front of the first space, and what comes behind it.
pub fn cut_word(text: &[u8]) -> (&[u8], &[u8]) {
    cut_at(text, b' ')
}

/// The lines up to the next that begins so, and what comes from there on.
pub fn cut_before<'a>(text: &'a [u8], beginning: &[u8]) -> (&'a [u8], &'a [u8]) {
    let mut is_first = true;
    for place in 0..text.len() {
        if is_first && text[place..].starts_with(beginning) {
            return cut(text, place, place);
        }
        is_first = text[place] == b'\n';
    }
    (text, &[])
}

/// The lines up to the next that begins with `== `, and what comes from there on.
pub fn cut_text(text: &[u8]) -> (&[u8], &[u8]) {
    cut_before(text, b"== ")
}

/// The number that a word writes; what is no digit counts as 0.
pub fn number(word: &[u8]) -> u32 {
    let mut number = 0u32;
    for byte in word {
        number = number
            .saturating_mul(10)
            .saturating_add(u32::from(byte.saturating_sub(b'0')));
    }
    number
}
