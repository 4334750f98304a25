//! The pages by id, which the rows of documents between two bounds list.

use crate::fault::judge_answer;
use crate::id_bounds::{above_all_ids, high_id_bound, low_id_bound};
use crate::listings::read_id_rows;
use crate::sql_store::SqlStore;
use crate::sql_store::by_key::counts_of;
use crate::sql_store::page_rows::limit_of;
use sqlite::{Alter, Row};
use std::cmp::min;
use store::{IdRange, IdRow, PageById, RowCounts, StoreFault};
use tables::documents;
use transactions::integer_of;

impl<S: Alter> SqlStore<S> {
    ghost use Rattle.std.specs.Prelude.{◌≡◌, ◌<◌, ◌≤◌, ◌^◌, ◌-◌, IfOk, IfSome, Some, drop, false, is_some, length, min, pos, true};
    ghost use Rattle.std.specs.List.{count_by};
    ghost use Rattle.store.specs.Pages.{id_page, if_counted, is_before_start, row_counts, rows_within, up_to_limit};
    ghost use Rattle.store.specs.PageStructs.{IsCounted, id_page_of};
    ghost use Rattle.tables.specs.Listings.{live_range, live_rows};
    ghost use Rattle.tables.specs.Schema.{docs_tree};
    ghost use Rattle.sqlstore.specs.inner.ById.{IsHighIdBound, IsLiveRangeOf, IsLowIdBound};
    ghost use Rattle.sqlstore.specs.inner.Listing.{listed_by_id};
    ghost use Rattle.sqlstore.specs.Model.{Answers, Finds, Stands, trees_of};

    // ---- the rows between two bounds

    /// Returns the rows of the documents between two bounds whose winner is not deleted, by their ids.
    pub(crate) fn live_rows_up(
        &mut self,
        db: &i64,
        low: &[u8],
        high: &[u8],
        most: &i64,
        skip: &i64,
    ) -> Result<Vec<Row>, StoreFault>
        ensures { Finds S.Store
            (λ trees rows. rows.items ≡ live_range false db.now low.now high.now most.now skip.now (trees docs_tree)) self.old self.new result }
    {
        let rows = documents::live_rows_up(&mut self.conn, db, low, high, most, skip);
        judge_answer(&mut self.faults, &mut self.fetched, rows)
    }

    /// Returns the same rows from the last to the first.
    fn live_rows_down(
        &mut self,
        db: &i64,
        low: &[u8],
        high: &[u8],
        most: &i64,
        skip: &i64,
    ) -> Result<Vec<Row>, StoreFault>
        ensures { Finds S.Store
            (λ trees rows. rows.items ≡ live_range true db.now low.now high.now most.now skip.now (trees docs_tree)) self.old self.new result }
    {
        let rows = documents::live_rows_down(&mut self.conn, db, low, high, most, skip);
        judge_answer(&mut self.faults, &mut self.fetched, rows)
    }

    /// Returns the rows between two bounds behind as many as are skipped, up to a limit. Where it skips
    /// many, it begins at a later bound.
    fn skip_rows_up(
        &mut self,
        db: &i64,
        low: &[u8],
        high: &[u8],
        most: &i64,
        skip: u64,
    ) -> Result<Vec<Row>, StoreFault>
        requires { skip < 2 ^ 63 }
        ensures { Finds S.Store
            (λ trees rows. rows.items ≡ live_range false db.now low.now high.now most.now (pos skip) (trees docs_tree)) self.old self.new result }
    {
        match self.find_start(db, low, skip) {
            Some(at) => self.live_rows_up(db, &at.bound, high, most, &integer_of(at.skip)),
            None => self.live_rows_up(db, low, high, most, &integer_of(skip)),
        }
    }

    /// Returns the same rows from the last to the first.
    fn skip_rows_down(
        &mut self,
        db: &i64,
        low: &[u8],
        high: &[u8],
        most: &i64,
        skip: u64,
    ) -> Result<Vec<Row>, StoreFault>
        requires { skip < 2 ^ 63 }
        ensures { Finds S.Store
            (λ trees rows. rows.items ≡ live_range true db.now low.now high.now most.now (pos skip) (trees docs_tree)) self.old self.new result }
    {
        match self.find_end(db, high, skip) {
            Some(at) => self.live_rows_down(db, low, &at.bound, most, &integer_of(at.skip)),
            None => self.live_rows_down(db, low, high, most, &integer_of(skip)),
        }
    }

    /// Returns the rows between two bounds that a page by id asks for: in its direction, behind as many as it
    /// skips, and up to its limit.
    fn live_rows(
        &mut self,
        db: &i64,
        low: &[u8],
        high: &[u8],
        range: &IdRange,
    ) -> Result<Vec<Row>, StoreFault>
        requires { range.now.skip < 2 ^ 63 }
        ensures { Finds S.Store (λ trees rows. IsLiveRangeOf range.now db.now low.now high.now (trees docs_tree) rows.items) self.old self.new result }
    {
        let most = limit_of(range.limit);
        if range.descending {
            self.skip_rows_down(db, low, high, &most, range.skip)
        } else {
            self.skip_rows_up(db, low, high, &most, range.skip)
        }
    }

    // ---- a page

    /// Lists the rows of a page by id, between two bounds.
    fn list_id_rows(
        &mut self,
        db: &i64,
        low: &[u8],
        high: &[u8],
        range: &IdRange,
    ) -> Result<Vec<IdRow>, StoreFault>
        requires low { IsLowIdBound range.now low.now }
        requires high { IsHighIdBound range.now high.now }
        ensures answer { Answers S.Store self.old self.new (λ rows. rows.items)
            (Some (up_to_limit range.now.limit
            (drop range.now.skip (rows_within range.now (live_rows (listed_by_id (trees_of S.Store self.old) db.now)))))) result }
        ensures stands { Stands S.Store self.old self.new }
    {
        if let Some(0) = range.limit {
            return Ok(Vec::new(self.alloc));
        }
        if range.skip >= 1 << 63 {
            // There are fewer documents than that, as many as SQLite counts.
            self.count_marked(db, false, low, high)?;
            return Ok(Vec::new(self.alloc));
        }
        let rows = self.live_rows(db, low, high, range)?;
        read_id_rows(self.alloc, rows, range.limit)
    }

    /// Counts the rows of a list by id that come before a range, in its direction.
    fn count_ids_before(
        &mut self,
        db: &i64,
        low: &[u8],
        high: &[u8],
        range: &IdRange,
    ) -> Result<u64, StoreFault>
        requires low { IsLowIdBound range.now low.now }
        requires high { IsHighIdBound range.now high.now }
        ensures answer { Answers S.Store self.old self.new (λ n. n)
            (Some (count_by (λ r. is_before_start range.now r.id) (live_rows (listed_by_id (trees_of S.Store self.old) db.now)))) result }
        ensures bounded { IfOk result (λ n. n < 2 ^ 63 - 1) }
        ensures stands { Stands S.Store self.old self.new }
    {
        if range.start.is_none() {
            return Ok(0);
        }
        if range.descending {
            let end = above_all_ids(self.alloc)?;
            return self.count_live(db, high, &end);
        }
        let start = Vec::new(self.alloc);
        self.count_live(db, &start, low)
    }

    /// Counts the rows that a page by id leaves out at the start of its range: as many as it skips, or all
    /// where there are fewer.
    fn count_skipped_ids(
        &mut self,
        db: &i64,
        low: &[u8],
        high: &[u8],
        range: &IdRange,
    ) -> Result<u64, StoreFault>
        requires low { IsLowIdBound range.now low.now }
        requires high { IsHighIdBound range.now high.now }
        ensures answer { Answers S.Store self.old self.new (λ n. n)
            (Some (min range.now.skip (length (rows_within range.now (live_rows (listed_by_id (trees_of S.Store self.old) db.now)))))) result }
        ensures bounded { IfOk result (λ n. n < 2 ^ 63 - 1) }
        ensures stands { Stands S.Store self.old self.new }
    {
        if range.skip == 0 {
            return Ok(0);
        }
        let within = self.count_live(db, low, high)?;
        Ok(min(range.skip, within))
    }

    /// Counts the rows outside of a page by id, where that is asked for.
    fn count_id_rows(
        &mut self,
        db: &i64,
        low: &[u8],
        high: &[u8],
        range: &IdRange,
    ) -> Result<Option<RowCounts>, StoreFault>
        requires low { IsLowIdBound range.now low.now }
        requires high { IsHighIdBound range.now high.now }
        ensures answer { Answers S.Store self.old self.new (λ counts. counts)
            (Some (if_counted range.now.counted (row_counts range.now (live_rows (listed_by_id (trees_of S.Store self.old) db.now))))) result }
        ensures counted { IfOk result (λ counts. is_some counts ≡ range.now.counted) }
        ensures bounded { IfOk result (λ counts. IfSome counts (λ c. (c.offset ≤ c.total) × (c.total < 2 ^ 63))) }
        ensures stands { Stands S.Store self.old self.new }
    {
        if !range.counted {
            return Ok(None);
        }
        let total = self.count_all(db, false)?;
        let skipped = self.count_skipped_ids(db, low, high, range)?;
        let before = self.count_ids_before(db, low, high, range)?;
        Ok(Some(counts_of(before, skipped, total)))
    }

    /// Finds the documents whose winner is not deleted, by id and cut by a range.
    pub(crate) fn find_page_by_id(
        &mut self,
        number: &i64,
        range: &IdRange,
    ) -> Result<PageById, StoreFault>
        ensures answer { Answers S.Store self.old self.new id_page_of
            (Some (id_page range.now (live_rows (listed_by_id (trees_of S.Store self.old) number.now)))) result }
        ensures counted { IfOk result (IsCounted range.now) }
        ensures stands { Stands S.Store self.old self.new }
    {
        let low = low_id_bound(self.alloc, range)?;
        let high = high_id_bound(self.alloc, range)?;
        let rows = self.list_id_rows(number, &low, &high, range)?;
        let counts = self.count_id_rows(number, &low, &high, range)?;
        Ok(PageById { rows, counts })
    }
}
