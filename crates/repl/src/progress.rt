/// How far a pass is.
#[derive(Clone, Copy, Debug, PartialEq, Eq)]
pub struct Progress {
    /// How many documents were pushed.
    pub sent: u64,
    /// The sequence of the source up to which changes were listed; 0 before.
    pub last_seq: u64,
}
