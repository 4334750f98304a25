//! The rows of the documents of a database, that a store reads.

use crate::fault::judge_answer;
use crate::sql_store::SqlStore;
use sqlite::{Alter, Row};
use store::StoreFault;
use tables::documents;

impl<S: Alter> SqlStore<S> {
    ghost use Rattle.std.specs.Prelude.{◌≡◌, filter};
    ghost use Rattle.tables.specs.Listings.{comes_after, first_rows};
    ghost use Rattle.sqlstore.specs.inner.Listing.{listed_by_sequence};
    ghost use Rattle.sqlstore.specs.Model.{Finds};

    /// Returns the rows of all documents of a database, by their sequences.
    pub(crate) fn rows_by_sequence(&mut self, db: &i64) -> Result<Vec<Row>, StoreFault>
        ensures { Finds S.Store (λ trees rows. rows.items ≡ listed_by_sequence trees db.now) self.old self.new result }
    {
        let rows = documents::rows_by_sequence(&mut self.conn, db);
        judge_answer(&mut self.faults, &mut self.fetched, rows)
    }

    /// Returns the rows of the documents whose sequences are above one: the first of them, up to a limit,
    /// and all where the limit is negative.
    pub(crate) fn rows_after(
        &mut self,
        db: &i64,
        sequence: &i64,
        limit: &i64,
    ) -> Result<Vec<Row>, StoreFault>
        ensures { Finds S.Store
            (λ trees rows. rows.items ≡ first_rows limit.now (filter (comes_after sequence.now) (listed_by_sequence trees db.now))) self.old self.new result }
    {
        let rows = documents::rows_after(&mut self.conn, db, sequence, limit);
        judge_answer(&mut self.faults, &mut self.fetched, rows)
    }
}
