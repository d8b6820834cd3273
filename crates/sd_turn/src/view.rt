//! What a seat knows. It is knowledge alone: no value of these types is made.
use std::collections::LinkedList;

/// The entries that a value has at a moment, and the number of the next one.
pub struct History<E> {
    pub entries: LinkedList<E>,
    pub next: u64,
}

/// Where a seat stands between its steps.
///
/// The histories that were given are counted from 0, the one that the turn was made with.
/// The place of a history is its number in that count.
pub enum Stage<E> {
    /// The seat holds no turn.
    Free,
    /// The seat holds the turn: the history that it took, the place of that, and the history with what was appended since.
    Holds(History<E>, u64, History<E>),
    /// Another seat was joined into this one: the front of that seat, and its place.
    Met(History<E>, u64),
}

/// What a seat knows of itself and of the turn.
pub struct View<E, C> {
    /// The setting of the turn. A seat that was joined into another has none.
    pub setting: Option<C>,
    /// The name of the seat that it was split from, and how many splits that seat had made before.
    pub name: LinkedList<u64>,
    /// How many splits the seat has made.
    pub splits: u64,
    /// The names of the seats that are out: split from it, or had from a seat that it joined, and not joined yet.
    pub out: LinkedList<LinkedList<u64>>,
    /// The entries that the seat appended.
    pub mine: LinkedList<E>,
    /// The latest history that the seat gave, or began with.
    pub front: History<E>,
    /// The place of the front.
    pub place: u64,
    /// How often the seat tried to take the turn.
    pub takes: u64,
    /// The turn word that the last such try found.
    pub found: u64,
    /// The number of the last entry, as the last look at the count word found it.
    pub seen: u64,
    pub stage: Stage<E>,
}
