//! Which rows of the documents of a database a page needs.

ghost use Rattle.sqlstore.specs.inner.Listing.{IsLimitFor};

use crate::sql_store::SqlStore;
use sqlite::{Alter, Row};
use store::{SeqRange, StoreFault};
use transactions::integer_of;

/// Returns the limit of a statement by which no row of a page is lost: the page's own, where it has one
/// that SQLite can hold, and else -1, which is none.
pub(crate) fn limit_of(limit: Option<u64>) -> i64
    ensures { IsLimitFor limit result }
{
    match limit {
        Some(limit) if limit < 1 << 63 => integer_of(limit),
        _ => -1,
    }
}

impl<S: Alter> SqlStore<S> {
    ghost use Rattle.sqlstore.specs.inner.Listing.{AreEnoughBySequence, listed_by_sequence};
    ghost use Rattle.sqlstore.specs.Model.{Finds};

    /// Returns the rows that a page by sequence needs: those behind its start up to its limit; none where
    /// that is 0. Behind a sequence that SQLite can't hold there are none; all are read then.
    pub(crate) fn rows_for_page_by_sequence(
        &mut self,
        number: &i64,
        range: &SeqRange,
    ) -> Result<Vec<Row>, StoreFault>
        ensures { Finds S.Store (λ trees rows. AreEnoughBySequence range.now (listed_by_sequence trees number.now) rows.items) self.old self.new result }
    {
        if let Some(0) = range.limit {
            return Ok(Vec::new(self.alloc));
        }
        if range.since >= 1 << 63 {
            return self.rows_by_sequence(number);
        }
        self.rows_after(number, &integer_of(range.since), &limit_of(range.limit))
    }
}
