//! The pages by key, which the entries of an index list.

ghost use Rattle.std.specs.Prelude.{◌≡◌, ◌+◌, ◌≤◌, ◌<◌, ◌^◌};

use crate::fault::{judge_answer, judge_index};
use crate::sql_store::SqlStore;
use crate::sql_store::page_rows::limit_of;
use index::{
    Declaration, above_all, entries, find_decl, high_bound, low_bound, read_count, read_entries,
};
use sqlite::{Alter, Row};
use std::cmp::min;
use store::cuts::cut_to_limit;
use store::{KeyRange, KeyRow, PageByKey, RowCounts, StoreFault};
use transactions::integer_of;
use tree::DocId;

/// Returns the counts of a page: how many rows come before it, of those before its range and those of the
/// range that it leaves out, and how many there are.
pub(crate) fn counts_of(before: u64, skipped: u64, total: u64) -> RowCounts
    requires { (before < 2 ^ 63) × (skipped < 2 ^ 63) }
    ensures offset { before + skipped ≤ total → result.offset ≡ before + skipped }
    ensures total { result.total ≡ total }
    ensures within { result.offset ≤ total }
{
    let offset = min(before + skipped, total);
    RowCounts { offset, total }
}

/// Copies the number of a declaration.
fn copy_number(declaration: &i64) -> i64
    ensures { result ≡ declaration.now }
{
    *declaration
}

impl<S: Alter> SqlStore<S> {
    ghost use Rattle.std.specs.Prelude.{◌≡◌, ◌∷◌, ◌<◌, ◌≤◌, ◌^◌, ◌-◌, [], IfErr, IfOk, IfSome, List, Some, drop};
    ghost use Rattle.std.specs.Prelude.{false, find, is_some, length, map, min, option_map, true};
    ghost use Rattle.couch_json.specs.Lawful.{IsLawful};
    ghost use Rattle.index.specs.Places.{IsHighBound, IsLowBound, IsShownEntry, spot_of, spot_shown};
    ghost use Rattle.index.specs.Rows.{count_of, is_declaration_of, range_of};
    ghost use Rattle.tables.specs.Listings.{shown_count};
    ghost use Rattle.index.specs.Shown.{declared, declared_at};
    ghost use Rattle.store.specs.Indexes.{IndexPlace};
    ghost use Rattle.std.specs.List.{AllByRecursion, count_by};
    ghost use Rattle.store.specs.KeyPages.{is_key_before, key_counts, key_page, key_rows_within};
    ghost use Rattle.store.specs.KeyPageStructs.{HasKeyCounts, key_page_of};
    ghost use Rattle.store.specs.Pages.{if_counted, up_to_limit};
    ghost use Rattle.store.specs.declared.listing.RowCounts.{RowCounts};
    ghost use Rattle.tables.specs.Schema.{decls_tree, entries_tree};
    ghost use Rattle.sqlstore.specs.Model.{Answers, Finds, Stands, is_honest, trees_of};
    ghost use Rattle.sqlstore.specs.inner.ByKey.{AnswersOf, IsRangeOf};
    ghost use Rattle.sqlstore.specs.inner.Keys.{HasIndex};
    ghost use Rattle.sqlstore.specs.inner.Commits.{IsUncommitted};

    // ---- what is stored of an index

    /// Finds the declaration of an index; `None` where the design document declares none of this name. Where
    /// there is one, something has to be held of the winner of the design document.
    pub(crate) fn find_declaration(
        &mut self,
        number: &i64,
        design: &DocId,
        name: &str,
    ) -> Result<Option<Declaration>, StoreFault>
        ensures answer { Answers S.Store self.old self.new (option_map declared)
            (Some (option_map declared_at (find (is_declaration_of number.now design.now name.now) (trees_of S.Store self.old decls_tree)))) result }
        ensures stands { Stands S.Store self.old self.new }
    {
        let Some(declaration) = self.load_declaration(number, design, name)? else {
            return Ok(None);
        };
        self.check_winner(number, design)?;
        Ok(Some(declaration))
    }

    /// Reads the declaration of an index, if there is one of this name.
    fn load_declaration(
        &mut self,
        number: &i64,
        design: &DocId,
        name: &str,
    ) -> Result<Option<Declaration>, StoreFault>
        ensures answer { Answers S.Store self.old self.new (option_map declared)
            (Some (option_map declared_at (find (is_declaration_of number.now design.now name.now) (trees_of S.Store self.old decls_tree)))) result }
        ensures stands { Stands S.Store self.old self.new }
    {
        let design = design.as_str().as_bytes();
        let found = find_decl(self.alloc, &mut self.conn, number, design, name.as_bytes());
        judge_index(&mut self.faults, found)
    }

    /// Returns the entries of an index between two bounds, by their keys and then by their ids.
    fn entry_rows_up(
        &mut self,
        declaration: &i64,
        low: &[u8],
        high: &[u8],
        most: &i64,
        skip: &i64,
    ) -> Result<Vec<Row>, StoreFault>
        ensures { Finds S.Store
            (λ trees rows. rows.items ≡ range_of false declaration.now low.now high.now most.now skip.now (trees entries_tree)) self.old self.new result }
    {
        let rows = entries::rows_up(&mut self.conn, declaration, low, high, most, skip);
        judge_answer(&mut self.faults, &mut self.fetched, rows)
    }

    /// Returns the same entries from the last to the first.
    fn entry_rows_down(
        &mut self,
        declaration: &i64,
        low: &[u8],
        high: &[u8],
        most: &i64,
        skip: &i64,
    ) -> Result<Vec<Row>, StoreFault>
        ensures { Finds S.Store
            (λ trees rows. rows.items ≡ range_of true declaration.now low.now high.now most.now skip.now (trees entries_tree)) self.old self.new result }
    {
        let rows = entries::rows_down(&mut self.conn, declaration, low, high, most, skip);
        judge_answer(&mut self.faults, &mut self.fetched, rows)
    }

    /// Returns the entries of an index between two bounds that a page by key asks for: in its direction, behind
    /// as many as it skips, and up to its limit.
    fn entry_rows(
        &mut self,
        declaration: &i64,
        low: &[u8],
        high: &[u8],
        range: &KeyRange,
    ) -> Result<Vec<Row>, StoreFault>
        requires { range.now.skip < 2 ^ 63 }
        ensures { Finds S.Store (λ trees rows. IsRangeOf range.now declaration.now low.now high.now (trees entries_tree) rows.items) self.old self.new result }
    {
        let most = limit_of(range.limit);
        let skip = integer_of(range.skip);
        if range.descending {
            self.entry_rows_down(declaration, low, high, &most, &skip)
        } else {
            self.entry_rows_up(declaration, low, high, &most, &skip)
        }
    }

    /// Returns one row, which tells how many entries of an index lie between two bounds.
    fn count_row(
        &mut self,
        declaration: &i64,
        low: &[u8],
        high: &[u8],
    ) -> Result<Vec<Row>, StoreFault>
        ensures { Finds S.Store
            (λ trees rows. rows.items ≡ shown_count (count_of declaration.now low.now high.now (trees entries_tree)) ∷ []) self.old self.new result }
    {
        let rows = entries::count_rows(&mut self.conn, declaration, low, high);
        judge_answer(&mut self.faults, &mut self.fetched, rows)
    }

    /// Counts the entries of an index between two bounds by one statement.
    pub(crate) fn count_between(
        &mut self,
        declaration: &i64,
        low: &[u8],
        high: &[u8],
    ) -> Result<u64, StoreFault>
        ensures answer { Answers S.Store self.old self.new (λ n. n)
            (Some (count_of declaration.now low.now high.now (trees_of S.Store self.old entries_tree))) result }
        ensures bounded { IfOk result (λ n. n < 2 ^ 63 - 1) }
        ensures stands { Stands S.Store self.old self.new }
    {
        let rows = self.count_row(declaration, low, high)?;
        judge_index(&mut self.faults, read_count(&rows))
    }

    /// Reads the rows of an index that its entries show. A row's memory is given back once it is read.
    fn read_key_rows(&mut self, rows: Vec<Row>) -> Result<Vec<KeyRow>, StoreFault>
        ensures spots { IfOk result (λ read. map spot_of read.items ≡ map spot_shown rows.items) }
        ensures lawful { IfOk result (λ read. AllByRecursion (λ p. IsLawful p.key) read.items) }
        ensures told { IfErr result (IsUncommitted self.old.faults self.new.faults (AllByRecursion IsShownEntry rows.items)) }
        ensures stands { Stands S.Store self.old self.new }
    {
        let read = read_entries(self.alloc, rows);
        judge_index(&mut self.faults, read)
    }

    // ---- a page

    /// Lists the rows of a page by key, from the entries of its index between two bounds.
    fn list_key_rows(
        &mut self,
        declaration: &i64,
        low: &[u8],
        high: &[u8],
        range: &KeyRange,
    ) -> Result<Vec<KeyRow>, StoreFault>
        ensures answer { (places : List IndexPlace) → IsLowBound range.now low.now → IsHighBound range.now high.now
            → AnswersOf S.Store declaration.now places self.old self.new (λ rows. rows.items)
            (up_to_limit range.now.limit (drop range.now.skip (key_rows_within range.now places))) result }
        ensures stands { Stands S.Store self.old self.new }
    {
        if range.skip >= 1 << 63 {
            // There are fewer entries than that, as many as SQLite counts.
            self.count_between(declaration, low, high)?;
            return Ok(Vec::new(self.alloc));
        }
        let rows = self.entry_rows(declaration, low, high, range)?;
        let read = self.read_key_rows(rows)?;
        Ok(cut_to_limit(read, range.limit))
    }

    /// Counts the entries of an index that come before a range, in its direction.
    fn count_before(
        &mut self,
        number: &i64,
        declaration: &i64,
        low: &[u8],
        high: &[u8],
        range: &KeyRange,
    ) -> Result<u64, StoreFault>
        ensures answer { (places : List IndexPlace) → IsLowBound range.now low.now → IsHighBound range.now high.now
            → AnswersOf S.Store declaration.now places self.old self.new (λ n. n) (count_by (λ p. is_key_before range.now p.key) places) result }
        ensures bounded { IfOk result (λ n. n < 2 ^ 63 - 1) }
        ensures stands { Stands S.Store self.old self.new }
    {
        if range.descending {
            let end = above_all(self.alloc)?;
            return self.count_keys(number, declaration, high, &end, true);
        }
        let start = Vec::new(self.alloc);
        self.count_keys(number, declaration, &start, low, false)
    }

    /// Counts the rows that a page by key leaves out at the start of its range: as many as it skips, or all
    /// where there are fewer.
    fn count_skipped_keys(
        &mut self,
        number: &i64,
        declaration: &i64,
        low: &[u8],
        high: &[u8],
        range: &KeyRange,
    ) -> Result<u64, StoreFault>
        ensures answer { (places : List IndexPlace) → IsLowBound range.now low.now → IsHighBound range.now high.now
            → AnswersOf S.Store declaration.now places self.old self.new (λ n. n) (min range.now.skip (length (key_rows_within range.now places))) result }
        ensures bounded { IfOk result (λ n. n < 2 ^ 63 - 1) }
        ensures stands { Stands S.Store self.old self.new }
    {
        if range.skip == 0 {
            return Ok(0);
        }
        let within = self.count_keys(number, declaration, low, high, range.descending)?;
        Ok(min(range.skip, within))
    }

    /// Counts the entries of an index.
    fn count_entries(&mut self, number: &i64, declaration: &i64) -> Result<u64, StoreFault>
        ensures answer { Answers S.Store self.old self.new (λ n. n)
            (Some (count_of declaration.now [] (8 ∷ []) (trees_of S.Store self.old entries_tree))) result }
        ensures bounded { IfOk result (λ n. n < 2 ^ 63 - 1) }
        ensures stands { Stands S.Store self.old self.new }
    {
        let start = Vec::new(self.alloc);
        let end = above_all(self.alloc)?;
        self.count_keys(number, declaration, &start, &end, false)
    }

    /// Counts the rows outside of a page by key, where that is asked for.
    fn count_key_rows(
        &mut self,
        number: &i64,
        declaration: &i64,
        low: &[u8],
        high: &[u8],
        range: &KeyRange,
    ) -> Result<Option<RowCounts>, StoreFault>
        ensures answer { (places : List IndexPlace) → IsLowBound range.now low.now → IsHighBound range.now high.now
            → AnswersOf S.Store declaration.now places self.old self.new (λ counts. counts)
            (if_counted range.now.counted (key_counts range.now places)) result }
        ensures counted { IfOk result (λ counts. is_some counts ≡ range.now.counted) }
        ensures bounded { IfOk result (λ counts. IfSome counts (λ c. (c.offset ≤ c.total) × (c.total < 2 ^ 63))) }
        ensures stands { Stands S.Store self.old self.new }
    {
        if !range.counted {
            return Ok(None);
        }
        let total = self.count_entries(number, declaration)?;
        let skipped = self.count_skipped_keys(number, declaration, low, high, range)?;
        let before = self.count_before(number, declaration, low, high, range)?;
        Ok(Some(counts_of(before, skipped, total)))
    }

    /// Finds the rows of the index of a declaration, by key and cut by a range.
    fn find_page_of(
        &mut self,
        number: &i64,
        declaration: &i64,
        range: &KeyRange,
    ) -> Result<PageByKey, StoreFault>
        ensures answer { (places : List IndexPlace)
            → AnswersOf S.Store declaration.now places self.old self.new key_page_of (key_page range.now places) result }
        ensures counted { IfOk result (HasKeyCounts range.now) }
        ensures stands { Stands S.Store self.old self.new }
    {
        let low = low_bound(self.alloc, range)?;
        let high = high_bound(self.alloc, range)?;
        let rows = self.list_key_rows(declaration, &low, &high, range)?;
        let counts = self.count_key_rows(number, declaration, &low, &high, range)?;
        Ok(PageByKey { rows, counts })
    }

    /// Finds the rows of an index of a database, by key and cut by a range.
    pub(crate) fn find_page_by_key(
        &mut self,
        number: &i64,
        declaration: Declaration,
        range: &KeyRange,
    ) -> Result<PageByKey, StoreFault>
        requires { is_honest S.Store self.old → HasIndex (trees_of S.Store self.old) number.now (declared declaration) }
        ensures answer { (places : List IndexPlace)
            → AnswersOf S.Store (declared declaration).number places self.old self.new key_page_of (key_page range.now places) result }
        ensures counted { IfOk result (HasKeyCounts range.now) }
        ensures stands { Stands S.Store self.old self.new }
    {
        if !range.counted {
            return self.find_page_of(number, &declaration.number, range);
        }
        let index = copy_number(&declaration.number);
        self.make_key_ranks(number, declaration);
        self.find_page_of(number, &index, range)
    }
}
