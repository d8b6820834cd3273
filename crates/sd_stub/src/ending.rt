//! How a link ends.

/// How the serving of a link ended.
#[derive(Clone, Copy, PartialEq, Eq)]
pub enum LinkEnd {
    /// The input ended between two messages.
    Closed,
    /// The client unbound.
    Unbound,
    /// The bytes are no message: the place in the input of the first wrong element.
    Bad(u64),
    /// The input ended inside a message.
    Cut,
    /// So many bytes, the most that are read over one link, were taken, and the input went on.
    Long(u64),
    /// The source failed.
    ReadFault,
    /// The sink failed, or it took nothing of a nonempty piece.
    WriteFault,
    Memory,
}
