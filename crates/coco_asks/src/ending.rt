//! How answering ends.

/// How the answering of lines that only read ends.
#[derive(Clone, Copy, Debug, PartialEq, Eq)]
pub enum Asked {
    /// The input was read to its end, and all lines are answered.
    Finished,
    /// The input failed, or is longer than may be read.
    ReadFault,
    /// The reply stream failed.
    SayFault,
    NoMemory,
}
