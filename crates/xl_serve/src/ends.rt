//! How a talk ends.

/// Why no more lines are taken.
#[derive(Clone, Copy, Debug, PartialEq, Eq)]
pub enum TalkEnd {
    /// The input has ended.
    Ended,
    /// The line of this number is longer than a line may be.
    TooLong(u32),
    /// The source failed.
    SourceFault,
    /// The sink failed.
    SinkFault,
    /// Memory ran out.
    Memory,
    /// Memory ran out before the first line.
    NotBegun,
}
