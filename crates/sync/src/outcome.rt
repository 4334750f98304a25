/// What came of a read or a write.
#[derive(Clone, Copy, Debug, PartialEq, Eq, Drop)]
pub enum Outcome {
    /// So many bytes were given or taken.
    Bytes(usize),
    /// A signal came in between, and nothing was given or taken.
    Interrupted,
    /// It failed.
    Failed,
}
