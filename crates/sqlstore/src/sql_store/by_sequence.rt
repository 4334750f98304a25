//! The pages of the database of a number.

use crate::first_rows::last_of_path;
use crate::listings::read_page_by_sequence;
use crate::sql_store::SqlStore;
use sqlite::Alter;
use store::{PageBySeq, SeqRange, SeqRow, StoreFault};
use tree::{DocId, Rev};

impl<S: Alter> SqlStore<S> {
    ghost use Rattle.std.specs.Prelude.{◌≡◌, ◌<◌, ◌^◌, IfOk, Some, map};
    ghost use Rattle.store.specs.PageStructs.{IsBounded, sequence_page_of, sequence_row_of, sequence_rows};
    ghost use Rattle.tables.specs.Rows.{history_in_rows};
    ghost use Rattle.tables.specs.Schema.{revs_tree};
    ghost use Rattle.tree.specs.History.{leaves};
    ghost use Rattle.sqlstore.specs.inner.Listing.{listed_by_sequence, page_with_leaves, winners_page, with_leaves};
    ghost use Rattle.sqlstore.specs.Model.{Answers, Stands, trees_of};

    /// Finds the documents at their sequences, each with its winner alone, cut by a range.
    pub(crate) fn find_page_by_sequence(
        &mut self,
        number: &i64,
        sequence: u64,
        range: &SeqRange,
    ) -> Result<PageBySeq, StoreFault>
        requires { sequence < 2 ^ 63 }
        ensures answer { Answers S.Store self.old self.new sequence_page_of
            (Some (winners_page range.now sequence (listed_by_sequence (trees_of S.Store self.old) number.now))) result }
        ensures bounded { IfOk result (IsBounded range.now) }
        ensures stands { Stands S.Store self.old self.new }
    {
        let counts = self.count_documents(number, range.counted)?;
        let rows = self.rows_for_page_by_sequence(number, range)?;
        read_page_by_sequence(self.alloc, rows, sequence, counts, range)
    }

    /// Finds all leaves of a document, best first. Where all its revisions are one path, no row of the
    /// table of revisions is read.
    #[tactic(auto, using(tree::proofs::Outlines::leaves_in))]
    fn find_leaves(&mut self, number: &i64, id: &DocId) -> Result<Vec<Rev>, StoreFault>
        ensures answer { Answers S.Store self.old self.new (λ revs. revs.items)
            (Some (leaves (history_in_rows (trees_of S.Store self.old revs_tree) number.now id.now))) result }
        ensures stands { Stands S.Store self.old self.new }
    {
        let rows = self.hash_rows(number, id.as_str().as_bytes())?;
        if let Some(rev) = last_of_path(&rows)? {
            let mut revs = Vec::new(self.alloc);
            revs.push(rev)?;
            return Ok(revs);
        }
        let outline = self.load_outline(number, id)?;
        Ok(outline.leaves()?)
    }

    /// Makes the row of a document with all its leaves.
    fn show_leaves(&mut self, number: &i64, row: &SeqRow) -> Result<SeqRow, StoreFault>
        ensures answer { Answers S.Store self.old self.new sequence_row_of
            (Some (with_leaves (history_in_rows (trees_of S.Store self.old revs_tree) number.now) (sequence_row_of row.now))) result }
        ensures sequence { IfOk result (λ r. r.sequence ≡ row.now.sequence) }
        ensures stands { Stands S.Store self.old self.new }
    {
        let revs = self.find_leaves(number, &row.id)?;
        Ok(SeqRow {
            sequence: row.sequence,
            id: row.id.copy(self.alloc)?,
            revs,
            deleted: row.deleted,
        })
    }

    /// Makes the rows of documents, each with all its leaves.
    fn show_all_leaves(&mut self, number: &i64, rows: &[SeqRow]) -> Result<Vec<SeqRow>, StoreFault>
        ensures answer { Answers S.Store self.old self.new (λ shown. sequence_rows shown.items)
            (Some (map (with_leaves (history_in_rows (trees_of S.Store self.old revs_tree) number.now)) (sequence_rows rows.now))) result }
        ensures sequences { IfOk result (λ shown. map (λ r. r.sequence) shown.items ≡ map (λ r. r.sequence) rows.now) }
        ensures stands { Stands S.Store self.old self.new }
    {
        let mut shown = Vec::with_capacity(self.alloc, rows.len())?;
        for row in rows {
            shown.push(self.show_leaves(number, row)?)?;
        }
        Ok(shown)
    }

    /// Makes a page whose rows have all leaves of their documents.
    pub(crate) fn show_page_leaves(
        &mut self,
        number: &i64,
        page: PageBySeq,
        range: &SeqRange,
    ) -> Result<PageBySeq, StoreFault>
        requires { IsBounded range.now page }
        ensures answer { Answers S.Store self.old self.new sequence_page_of
            (Some (page_with_leaves (history_in_rows (trees_of S.Store self.old revs_tree) number.now) (sequence_page_of page))) result }
        ensures bounded { IfOk result (IsBounded range.now) }
        ensures stands { Stands S.Store self.old self.new }
    {
        let rows = self.show_all_leaves(number, &page.rows)?;
        Ok(PageBySeq {
            rows,
            last_seq: page.last_seq,
            sequence: page.sequence,
            counts: page.counts,
        })
    }
}
