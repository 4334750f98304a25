/// A reply that needs no memory.
#[derive(Clone, Copy, Debug, PartialEq, Eq)]
pub enum Fixed {
    /// 400 for a cutter's `Syntax`. The connection ends.
    Syntax,
    /// 501 for a cutter's `Encoding`. The connection ends.
    Encoding,
    /// 413 for a cutter's `TooLarge`. The connection ends.
    TooLarge,
    /// 500: the store failed.
    Store {
        /// Whether the connection ends.
        last: bool,
    },
    /// 503: memory ran out.
    NoRoom {
        /// Whether the connection ends.
        last: bool,
    },
}
