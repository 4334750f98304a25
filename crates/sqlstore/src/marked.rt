//! How the winner of a document is marked, before writes and after them.

use tree::DocId;

/// A document that was written: whether its winner is deleted, before and after.
#[derive(Drop)]
pub(crate) struct Marked {
    /// Its id.
    pub(crate) id: DocId,
    /// Whether its winner was deleted, if it was ever written before.
    pub(crate) was: Option<bool>,
    /// Whether its winner is deleted now.
    pub(crate) is: bool,
}
