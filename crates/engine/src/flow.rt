/// What a connection gave or took.
#[derive(Clone, Copy, Debug, PartialEq, Eq)]
pub enum Flow {
    /// So many bytes. The other word is a hint: more may go at once.
    Bytes(usize, bool),
    /// None now.
    Later,
    /// None any more: it has ended, or failed.
    Never,
}

/// What came of an accept.
#[derive(Clone, Copy, Debug, PartialEq, Eq)]
pub enum Accepted {
    /// A connection, which is still to have its number.
    One,
    /// None waits, or none can be accepted now.
    Later,
    /// One that was reset before.
    Reset,
    /// None can be accepted any more.
    Never,
}
