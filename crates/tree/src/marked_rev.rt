use crate::revision::Rev;

/// A revision of a document, and whether it deleted the document.
#[derive(Clone, Copy, Debug)]
pub struct MarkedRev {
    /// The revision.
    pub rev: Rev,
    /// Whether it deleted the document.
    pub deleted: bool,
}
