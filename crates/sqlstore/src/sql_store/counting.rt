//! How many documents the database of a number has. What was counted is kept until something is written.

use crate::document_count::DocumentCount;
use crate::fault::{judge_answer, judge_index};
use crate::id_bounds::above_all_ids;
use crate::known_database::{find_count, keep_count};
use crate::sql_store::SqlStore;
use index::read_count;
use sqlite::{Alter, Row};
use store::{DocumentCounts, StoreFault};
use tables::documents;

impl<S: Alter> SqlStore<S> {
    ghost use Rattle.std.specs.Prelude.{◌≡◌, ◌∷◌, ◌<◌, ◌^◌, ◌-◌, [], IfOk, IfSome, Some, is_some};
    ghost use Rattle.store.specs.Pages.{if_counted};
    ghost use Rattle.tables.specs.Listings.{listed_counts, marked_count, shown_count};
    ghost use Rattle.tables.specs.Schema.{docs_tree};
    ghost use Rattle.sqlstore.specs.inner.Listing.{all_count, listed_by_sequence};
    ghost use Rattle.sqlstore.specs.Model.{Answers, Finds, Stands, trees_of};

    /// Returns one row, which tells how many documents have a winner that is marked so, and an id between
    /// two bounds.
    fn marked_row(
        &mut self,
        db: &i64,
        deleted: bool,
        low: &[u8],
        high: &[u8],
    ) -> Result<Vec<Row>, StoreFault>
        ensures { Finds S.Store
            (λ trees rows. rows.items ≡ shown_count (marked_count db.now deleted low.now high.now (trees docs_tree)) ∷ []) self.old self.new result }
    {
        let rows = documents::count_documents(&mut self.conn, db, deleted, low, high);
        judge_answer(&mut self.faults, &mut self.fetched, rows)
    }

    /// Counts the documents whose winner is marked so, and whose id lies between two bounds.
    pub(crate) fn count_marked(
        &mut self,
        db: &i64,
        deleted: bool,
        low: &[u8],
        high: &[u8],
    ) -> Result<u64, StoreFault>
        ensures answer { Answers S.Store self.old self.new (λ n. n)
            (Some (marked_count db.now deleted low.now high.now (trees_of S.Store self.old docs_tree))) result }
        ensures bounded { IfOk result (λ n. n < 2 ^ 63 - 1) }
        ensures stands { Stands S.Store self.old self.new }
    {
        let rows = self.marked_row(db, deleted, low, high)?;
        judge_index(&mut self.faults, read_count(&rows))
    }

    /// Finds how many documents of a database have a winner that is marked so: that is known already, or
    /// else they are counted, and their number is kept.
    pub(crate) fn count_all(&mut self, number: &i64, deleted: bool) -> Result<u64, StoreFault>
        ensures answer { Answers S.Store self.old self.new (λ n. n) (Some (all_count (trees_of S.Store self.old) number.now deleted)) result }
        ensures bounded { IfOk result (λ n. n < 2 ^ 63 - 1) }
        ensures stands { Stands S.Store self.old self.new }
    {
        if let Some(count) = find_count(&self.known, number, deleted) {
            return Ok(count.value);
        }
        let start = Vec::new(self.alloc);
        let end = above_all_ids(self.alloc)?;
        let value = self.count_marked(number, deleted, &start, &end)?;
        keep_count(&mut self.known, number, deleted, DocumentCount { value });
        Ok(value)
    }

    /// Finds how many documents a database has, where that is asked for.
    pub(crate) fn count_documents(
        &mut self,
        number: &i64,
        counted: bool,
    ) -> Result<Option<DocumentCounts>, StoreFault>
        ensures answer { Answers S.Store self.old self.new (λ counts. counts)
            (Some (if_counted counted (listed_counts (listed_by_sequence (trees_of S.Store self.old) number.now)))) result }
        ensures counted { IfOk result (λ counts. is_some counts ≡ counted) }
        ensures bounded { IfOk result (λ counts. IfSome counts (λ c. (c.documents < 2 ^ 63) × (c.deleted < 2 ^ 63))) }
        ensures stands { Stands S.Store self.old self.new }
    {
        if !counted {
            return Ok(None);
        }
        let documents = self.count_all(number, false)?;
        let deleted = self.count_all(number, true)?;
        Ok(Some(DocumentCounts { documents, deleted }))
    }
}
