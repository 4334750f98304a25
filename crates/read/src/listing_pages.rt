//! Rows that are listed page by page, so that no more rows than those of a page are held at once.

ghost use Rattle.std.specs.Prelude.{◌≡◌, ◌+◌, ◌-◌, [], min, IfOk};
ghost use Rattle.read.specs.inner.RowsSoFar.{greatest_number, page_size, rows_wanted};

use couch_json::{ArrayText, Got};
use std::alloc::Global;
use std::cmp::min;

/// The rows that were listed so far.
pub(crate) struct RowsSoFar {
    /// So many rows come before the next one: those that are left out, and those that were listed.
    pub(crate) skip: u64,
    /// At most so many more rows.
    pub(crate) left: u64,
    /// The objects of the rows.
    pub(crate) rows: ArrayText,
}

// Written out, so that callers do not prove again how each part is dropped.
impl Drop for RowsSoFar {
    fn drop(self) {
        let RowsSoFar {
            skip: _,
            left: _,
            rows: _,
        } = self;
    }
}

impl RowsSoFar {
    /// Begins a list that leaves out so many rows, and has at most so many.
    pub(crate) fn new(alloc: Global, skip: u64, limit: Option<u64>) -> Got<RowsSoFar>
        ensures { IfOk result (λ so_far. so_far ≡ record { skip = skip; left = rows_wanted limit; rows = [] }) }
    {
        Ok(RowsSoFar {
            skip,
            left: rows_wanted(limit),
            rows: ArrayText::new(alloc)?,
        })
    }

    /// Returns how many rows the next page has at most. Pages grow by a quarter of what they pass over, so
    /// that all in all at most five times the rows are passed over.
    pub(crate) fn page_size(&self) -> u64
        ensures { result ≡ page_size self.now }
    {
        min(self.left, 1_000 + self.skip / 4)
    }

    /// Counts the rows of a page, which were listed.
    pub(crate) fn count_page(&mut self, count: u64)
        ensures skip { self.new.skip ≡ min (self.old.skip + count) greatest_number }
        ensures left { self.new.left ≡ self.old.left - count }
        ensures rows { self.new.rows ≡ self.old.rows }
    {
        self.skip = self.skip.saturating_add(count);
        self.left = self.left.saturating_sub(count);
    }

    /// Gives up the objects of the rows.
    pub(crate) fn into_rows(self) -> ArrayText
        ensures { result ≡ self.rows }
    {
        let RowsSoFar {
            skip: _,
            left: _,
            rows,
        } = self;
        rows
    }
}

/// Returns how many rows are wanted at most.
fn rows_wanted(limit: Option<u64>) -> u64
    ensures { result ≡ rows_wanted limit }
{
    match limit {
        Some(limit) => limit,
        None => 18_446_744_073_709_551_615,
    }
}
