/// Why a pass stopped before its end.
#[derive(Clone, Copy, Debug, PartialEq, Eq)]
pub enum Why {
    /// A reply had a status that its request does not expect.
    Status(u16),
    /// A reply's body was no JSON text, or of another shape.
    Reply,
    /// The 101st reply was lost.
    Lost,
}
