use crate::range_key::RangeKey;
use tree::{DocId, Rev};

/// Which rows of a listing by sequence are wanted.
#[derive(Clone, Copy, Debug)]
pub struct SeqRange {
    /// Rows after this sequence; 0 for all.
    pub since: u64,
    /// At most so many rows; `None` for all.
    pub limit: Option<u64>,
    /// All leaves of each document, best first; else its winner alone.
    pub all_leaves: bool,
    /// Whether the documents of the database are to be counted, which costs a walk over all of them.
    pub counted: bool,
}

/// A row of a listing by sequence: a document at the sequence of its latest write.
pub struct SeqRow {
    /// The sequence, counted from 1.
    pub sequence: u64,
    /// The document.
    pub id: DocId,
    /// All its leaves, best first, or its winner alone.
    pub revs: Vec<Rev>,
    /// Whether its winner is deleted.
    pub deleted: bool,
}

// Written out, so that callers do not prove again how each part is dropped.
impl Drop for SeqRow {
    fn drop(self) {
        let SeqRow {
            sequence: _,
            id: _,
            revs: _,
            deleted: _,
        } = self;
    }
}

/// How many documents a database has.
#[derive(Clone, Copy, Debug)]
pub struct DocumentCounts {
    /// Documents whose winner is not deleted, design documents among them.
    pub documents: u64,
    /// Documents whose winner is deleted.
    pub deleted: u64,
}

/// A part of the listing of a database by sequence.
///
/// See the CouchDB manual, api/database/changes and api/database/common.
pub struct PageBySeq {
    /// The rows, ascending.
    pub rows: Vec<SeqRow>,
    /// The sequence of the last of these rows; without rows the smaller of `since` and the
    /// database's sequence.
    pub last_seq: u64,
    /// The database's sequence: how many writes it accepted.
    pub sequence: u64,
    /// How many documents the whole database has, where that was asked for.
    pub counts: Option<DocumentCounts>,
}

// Written out, so that callers do not prove again how each part is dropped.
impl Drop for PageBySeq {
    fn drop(self) {
        let PageBySeq {
            rows: _,
            last_seq: _,
            sequence: _,
            counts: _,
        } = self;
    }
}

/// Which rows of a listing by id are wanted.
#[derive(Debug, Drop)]
pub struct IdRange {
    /// Where the range starts in the direction of the listing; `None` for the first row.
    pub start: Option<RangeKey>,
    /// Where it ends; `None` for the last row.
    pub end: Option<RangeKey>,
    /// Whether a row whose id is `end` belongs to it.
    pub inclusive_end: bool,
    /// Whether the listing goes down.
    pub descending: bool,
    /// How many rows of the range are left out, from its start.
    pub skip: u64,
    /// At most so many rows; `None` for all.
    pub limit: Option<u64>,
    /// Whether the rows outside of the page are to be counted, which costs a walk over all of them.
    pub counted: bool,
}

/// A row of a listing by id: a document whose winner is not deleted.
pub struct IdRow {
    /// The document.
    pub id: DocId,
    /// Its winner.
    pub rev: Rev,
}

// Written out, so that callers do not prove again how each part is dropped.
impl Drop for IdRow {
    fn drop(self) {
        let IdRow { id: _, rev: _ } = self;
    }
}

/// Where a page stands in the whole listing by id.
#[derive(Clone, Copy, Debug)]
pub struct RowCounts {
    /// How many rows come before the start of the range, and how many of the range are left out.
    pub offset: u64,
    /// How many rows the whole listing has: documents whose winner is not deleted.
    pub total: u64,
}

/// A part of the listing of a database by id, in the order of bytes.
///
/// See the CouchDB manual, api/database/bulk-api.
pub struct PageById {
    /// The rows, in the direction asked for.
    pub rows: Vec<IdRow>,
    /// Where they stand in the whole listing, where that was asked for.
    pub counts: Option<RowCounts>,
}

// Written out, so that callers do not prove again how each part is dropped.
impl Drop for PageById {
    fn drop(self) {
        let PageById { rows: _, counts: _ } = self;
    }
}
