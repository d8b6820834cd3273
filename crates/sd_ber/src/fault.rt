//! Why bytes hold no element.

/// What is wrong with an element; the number is the place of its tag.
#[derive(Clone, Copy, PartialEq, Eq)]
pub enum BerFault {
    /// The tag has more than one octet.
    BadTag(u64),
    /// The length is not told.
    Indefinite(u64),
    /// The length has more than four octets.
    TooLong(u64),
    /// The bytes end inside the element.
    Short,
    /// An integer has no octet, or more than eight.
    BadInteger(u64),
}
