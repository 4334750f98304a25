/// What came of a wait for a connection.
#[derive(Clone, Copy, Debug, PartialEq, Eq, Drop)]
pub enum Acceptance {
    /// A connection was accepted.
    Connected,
    /// One was reset before it was accepted.
    Reset,
    /// None could be accepted.
    Failed,
}
