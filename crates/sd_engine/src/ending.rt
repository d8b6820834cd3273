//! How a session ends.

/// How a session ended.
#[derive(Clone, Copy, Debug, PartialEq, Eq)]
pub enum SessionEnd {
    /// The input ended between two frames.
    Closed,
    /// A stop frame was answered.
    Stopped,
    /// The source failed.
    ReadFault,
    /// The sink failed, or it took nothing of a nonempty piece.
    WriteFault,
    /// The bytes at this place of the input, counted from 0, begin no frame.
    BadFrame(u64),
    /// The input ended inside a frame.
    Cut,
    /// So many bytes, the most that are read over one connection, were taken, and the input went on.
    Long(u64),
    /// A step was refused as full; the entries kept and the places reserved.
    JournalFull(u64),
    Memory,
}
