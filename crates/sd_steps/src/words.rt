// The words of a line, which single spaces part.
use sd_base::{Memory, Text};
use std::alloc::Global;

/// The bytes before the first of this byte, and those after it.
pub fn cut(bytes: &[u8], by: u8) -> (&[u8], &[u8]) {
    match bytes.iter().position(|byte| *byte == by) {
        Some(place) => (&bytes[..place], &bytes[place + 1..]),
        None => (bytes, &[]),
    }
}

/// Whether a word is this one.
pub fn is(word: &[u8], name: &[u8]) -> bool {
    word == name
}

/// The number that a word writes; what is no digit counts as 0.
pub fn value(word: &[u8]) -> u64 {
    let mut value = 0u64;
    for byte in word {
        value = value
            .saturating_mul(10)
            .saturating_add(u64::from(byte.saturating_sub(b'0')));
    }
    value
}

/// The words of a line that are left.
#[derive(Drop)]
pub struct Words<'a> {
    left: &'a [u8],
}

impl<'a> Words<'a> {
    /// All words of a line.
    pub fn new(line: &'a [u8]) -> Words<'a> {
        Words { left: line }
    }

    /// The bytes that are left.
    pub fn rest(&self) -> &'a [u8] {
        self.left
    }

    /// Takes the next word; an empty one where none is left.
    pub fn word(&mut self) -> &'a [u8] {
        let (word, rest) = cut(self.left, b' ');
        self.left = rest;
        word
    }

    /// Takes a number.
    pub fn number(&mut self) -> u64 {
        value(self.word())
    }

    /// Takes a number, at most 1000000.
    pub fn short(&mut self) -> u32 {
        self.number().min(1_000_000) as u32
    }

    /// Takes a word as a text.
    pub fn text(&mut self, alloc: Global) -> Result<Text, Memory> {
        Text::from_bytes(alloc, self.word())
    }
}
