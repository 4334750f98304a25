use tree::{DocId, Rev};

/// A document that a find may look at.
pub(crate) struct Candidate {
    /// Its id.
    pub(crate) id: DocId,
    /// Its winner, which is not deleted, where it is known.
    pub(crate) rev: Option<Rev>,
}

// Written out, so that callers do not prove again how each part is dropped.
impl Drop for Candidate {
    fn drop(self) {
        let Candidate { id: _, rev: _ } = self;
    }
}
