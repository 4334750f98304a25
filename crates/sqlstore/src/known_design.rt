//! A design document of which the winner is known.

use tree::{DocId, Entry, Rev};

/// A design document whose winner is not deleted.
#[derive(Drop)]
pub(crate) struct KnownDesign {
    /// Its id.
    pub(crate) id: DocId,
    /// Its winner.
    pub(crate) rev: Rev,
    /// What is known of the winner.
    pub(crate) entry: Entry,
}
