use crate::index::Index;
use store::KeyRange;

/// An index that may serve a find, and which of its rows are read.
pub(crate) struct Plan {
    /// The index.
    pub(crate) index: Index,
    /// Its rows that are read.
    pub(crate) rows: PlannedRows,
}

// Written out, so that callers do not prove again how each part is dropped.
impl Drop for Plan {
    fn drop(self) {
        let Plan { index: _, rows: _ } = self;
    }
}

/// Rows of an index that a find reads.
pub(crate) struct PlannedRows {
    /// The range that has the rows of all documents that are found.
    pub(crate) range: KeyRange,
    /// Whether they go in the order of the query.
    pub(crate) in_order: bool,
}

// Written out, so that callers do not prove again how each part is dropped.
impl Drop for PlannedRows {
    fn drop(self) {
        let PlannedRows {
            range: _,
            in_order: _,
        } = self;
    }
}
