// Words of the input: numbers, and bytes in hexadecimal digits.
use sd_base::{Memory, Numbers};
use sd_pieces::{cut, read_number};
use std::alloc::Global;

/// The most bytes of which a list of words may be made.
const MOST: usize = 1 << 20;

/// The first word, and what comes behind the space.
pub fn cut_word(words: &[u8]) -> (&[u8], &[u8]) {
    let (word, rest) = cut(b' ', words);
    (word, rest.unwrap_or(b""))
}

fn digit(byte: u8) -> u8 {
    match byte {
        b'0'..=b'9' => byte - b'0',
        b'a'..=b'f' => byte - b'a' + 10,
        _ => 0,
    }
}

fn push_digits(bytes: &mut Vec<u8>, digits: &[u8]) -> Result<(), Memory> {
    for pair in digits.chunks_exact(2) {
        if let [high, low] = pair {
            bytes.push(digit(*high) << 4 | digit(*low))?;
        }
    }
    Ok(())
}

fn push_word(bytes: &mut Vec<u8>, word: &[u8]) -> Result<(), Memory> {
    match cut(b'*', word) {
        (digits, None) => push_digits(bytes, digits),
        (count, Some(digits)) => {
            for _ in 0..read_number(count).unwrap_or(0) {
                if bytes.len() > MOST {
                    break;
                }
                push_digits(bytes, digits)?;
            }
            Ok(())
        }
    }
}

/// The bytes of words.
pub fn bytes_of(alloc: Global, words: &[u8]) -> Result<Vec<u8>, Memory> {
    let mut bytes = Vec::new(alloc);
    let mut left = words;
    for _ in 0..words.len() {
        let (word, rest) = cut_word(left);
        push_word(&mut bytes, word)?;
        left = rest;
    }
    Ok(bytes)
}

/// The number that a word writes; another word counts as 0.
pub fn number(word: &[u8]) -> u32 {
    read_number(word).unwrap_or(0)
}

/// The numbers of a list with such a byte between two; what is no number is passed over.
pub fn numbers(alloc: Global, by: u8, list: &[u8]) -> Result<Numbers, Memory> {
    let mut numbers = Numbers::new(alloc);
    let mut left = list;
    for _ in 0..list.len() {
        let (text, rest) = cut(by, left);
        if let Some(number) = read_number(text) {
            numbers.push(number)?;
        }
        left = rest.unwrap_or(b"");
    }
    Ok(numbers)
}
