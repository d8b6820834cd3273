// What a line asks for.
use sd_pieces::{cut, read_number};

/// What to do.
#[derive(Clone, Copy, PartialEq, Eq)]
pub enum Order {
    /// Flush so many rows of a round: the round, the count.
    Flush(u32, u32),
    /// Flush a stored hash of a round.
    Hash(u32),
    /// Load the rows.
    Read,
    /// The line has no form.
    None,
}

fn number(word: &[u8]) -> u32 {
    read_number(word).unwrap_or(0)
}

/// What a line asks for.
pub fn order_of(line: &[u8]) -> Order {
    let (word, rest) = cut(b' ', line);
    let (first, rest) = cut(b' ', rest.unwrap_or(b""));
    match word {
        b"flush" => Order::Flush(number(first), number(rest.unwrap_or(b""))),
        b"hash" => Order::Hash(number(first)),
        b"read" => Order::Read,
        _ => Order::None,
    }
}
