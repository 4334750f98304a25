/// What went through a connection in memory. The log has its bytes beside it.
#[derive(Clone, Copy, Debug, PartialEq, Eq)]
pub enum LogEntry {
    /// It was accepted.
    Accepted,
    /// It was given this number.
    Opened(u64),
    /// It brought the bytes.
    Brought(u64),
    /// It took the bytes.
    Took(u64),
    /// It was closed.
    Closed(u64),
}
