//! The design documents of a database. The update rules are read of them at each write: so they are known
//! from when they were last listed until one of them is written.
//!
//! What is known is an aid: where it can't be had, each call is answered as the rows say.

ghost use Rattle.std.specs.Prelude.{◌≡◌, Some, false, true};

use crate::design_range::{is_whole_design_range, writes_design};
use crate::known_database::{keep_designs, take_designs};
use crate::known_design::KnownDesign;
use crate::known_designs::{known_entry, known_rows, known_winner};
use crate::sql_store::SqlStore;
use couch_json::canon;
use sqlite::Alter;
use std::alloc::Global;
use store::{IdRange, IdRow, PageById, StoreFault, Write};
use tree::{DocId, Entry, MarkedRev, Rev};

/// How many design documents of a database are known at most. Behind more of them each is read anew.
const MOST_DESIGNS: usize = 32;

/// How many bytes the text of their bodies has at most, so that they take little memory.
const MOST_BYTES: usize = 65_536;

/// Tells whether the bodies of these design documents are short, all together; not where memory runs out.
fn are_short(alloc: Global, designs: &[KnownDesign]) -> bool {
    let mut left = MOST_BYTES;
    for design in designs {
        let Some(length) = length_of(alloc, &design.entry) else {
            return false;
        };
        if length > left {
            return false;
        }
        left -= length;
    }
    true
}

/// Returns how many bytes the text of the body has that an entry holds; `None` where memory runs out.
fn length_of(alloc: Global, entry: &Entry) -> Option<usize> {
    let Some(held) = &entry.held else {
        return Some(0);
    };
    match canon(alloc, held.get().body.json()) {
        Ok(text) => Some(text.as_str().len()),
        Err(_) => None,
    }
}

/// Tells whether this winner is that revision, and not deleted.
fn is_live_at(winner: &Option<MarkedRev>, rev: &Rev) -> bool
    ensures { result ≡ true → winner.now ≡ Some (record { rev = rev.now; deleted = false }) }
{
    match winner {
        Some(winner) => !winner.deleted && winner.rev.cmp(rev).is_eq(),
        None => false,
    }
}

impl<S: Alter> SqlStore<S> {
    ghost use Rattle.std.specs.Prelude.{IfOk, map};
    ghost use Rattle.std.specs.FinMap.{get};
    ghost use Rattle.std.specs.List.{AllByRecursion};
    ghost use Rattle.sqlite_trees.specs.Tree.{Trees};
    ghost use Rattle.store.specs.Pages.{id_page};
    ghost use Rattle.store.specs.PageStructs.{IsCounted, id_page_of};
    ghost use Rattle.tables.specs.Layout.{IsWellFormed};
    ghost use Rattle.tables.specs.Listings.{live_rows};
    ghost use Rattle.tables.specs.Rows.{history_in_rows};
    ghost use Rattle.tables.specs.Schema.{revs_tree};
    ghost use Rattle.tree.specs.Outline.{marked_winner};
    ghost use Rattle.sqlstore.specs.inner.Designs.{AreKnownDesigns, IsDesign, IsWholeDesignRange, design_rows, row_of_design};
    ghost use Rattle.sqlstore.specs.inner.Listing.{listed_by_id};
    ghost use Rattle.sqlstore.specs.inner.Marks.{KeepsElsewhere, documents_at, ids_of};
    ghost use Rattle.sqlstore.specs.Model.{Answers, Stands, is_honest, trees_of};

    // ---- reading them

    /// Reads the design document of a row. Where its winner is another one the row is told as damaged.
    fn read_design(&mut self, number: &i64, row: &IdRow) -> Result<KnownDesign, StoreFault>
        ensures row { IfOk result (λ d. row_of_design d ≡ row.now) }
        ensures design { is_honest S.Store self.new → IfOk result (IsDesign (trees_of S.Store self.old) number.now) }
        ensures stands { Stands S.Store self.old self.new }
    {
        let winner = self.find_winner(number, &row.id)?;
        if !is_live_at(&winner, &row.rev) {
            return Err(StoreFault::Damaged);
        }
        let Some(entry) = self.find_revision(number, &row.id, &row.rev)? else {
            return Err(StoreFault::Damaged);
        };
        let id = row.id.copy(self.alloc)?;
        Ok(KnownDesign {
            id,
            rev: row.rev,
            entry,
        })
    }

    /// Reads the design documents of these rows.
    fn read_designs(&mut self, number: &i64, rows: &[IdRow]) -> Result<Vec<KnownDesign>, StoreFault>
        ensures rows { IfOk result (λ ds. map row_of_design ds.items ≡ rows.now) }
        ensures designs { is_honest S.Store self.new
            → IfOk result (λ ds. AllByRecursion (IsDesign (trees_of S.Store self.old) number.now) ds.items) }
        ensures stands { Stands S.Store self.old self.new }
    {
        let mut designs = Vec::with_capacity(self.alloc, rows.len())?;
        for row in rows {
            let design = self.read_design(number, row)?;
            designs.push(design)?;
        }
        Ok(designs)
    }

    /// Reads the design documents of a database, whose rows are these, and keeps them. They are not kept
    /// where there are too many, where their bodies are long, or where one can't be read.
    fn learn_designs(&mut self, number: &i64, rows: &[IdRow])
        requires { is_honest S.Store self.old → rows.now ≡ design_rows (live_rows (listed_by_id (trees_of S.Store self.old) number.now)) }
        ensures stands { Stands S.Store self.old self.new }
    {
        if rows.len() > MOST_DESIGNS {
            return;
        }
        let Ok(designs) = self.read_designs(number, rows) else {
            return;
        };
        if are_short(self.alloc, &designs) {
            keep_designs(&mut self.known, number, Some(designs));
        }
    }

    // ---- over a commit

    /// Takes out the design documents of the database of this number, where they are known.
    pub(crate) fn part_designs(&mut self, number: &i64) -> Option<Vec<KnownDesign>>
        ensures designs { is_honest S.Store self.new → ∥ AreKnownDesigns (trees_of S.Store self.old) number.now result ∥₁ }
        ensures stands { Stands S.Store self.old self.new }
    {
        take_designs(&mut self.known, number)
    }

    /// Puts back the design documents of a database that were known before these writes of it were
    /// committed, where none of the writes is of one.
    pub(crate) fn put_back_designs(
        &mut self,
        number: &i64,
        designs: Option<Vec<KnownDesign>>,
        writes: &[Write],
    )
        requires { is_honest S.Store self.old → ∥ ((old : Trees) × IsWellFormed old × AreKnownDesigns old number.now designs
            × KeepsElsewhere (ids_of writes.now) (documents_at old number.now) (documents_at (trees_of S.Store self.old) number.now)) ∥₁ }
        ensures stands { Stands S.Store self.old self.new }
    {
        if writes_design(writes) {
            return;
        }
        keep_designs(&mut self.known, number, designs);
    }

    // ---- the calls that read them

    /// Gives the page by id of a range. That of all design documents is made of what is known of them, and
    /// they are known once it was read.
    pub(crate) fn give_page_by_id(
        &mut self,
        number: &i64,
        range: &IdRange,
    ) -> Result<PageById, StoreFault>
        ensures answer { Answers S.Store self.old self.new id_page_of
            (Some (id_page range.now (live_rows (listed_by_id (trees_of S.Store self.old) number.now)))) result }
        ensures counted { IfOk result (IsCounted range.now) }
        ensures stands { Stands S.Store self.old self.new }
    {
        if is_whole_design_range(range) {
            self.give_design_page(number, range)
        } else {
            self.find_page_by_id(number, range)
        }
    }

    /// Gives the page of all design documents.
    fn give_design_page(&mut self, number: &i64, range: &IdRange) -> Result<PageById, StoreFault>
        requires { IsWholeDesignRange range.now }
        ensures answer { Answers S.Store self.old self.new id_page_of
            (Some (id_page range.now (live_rows (listed_by_id (trees_of S.Store self.old) number.now)))) result }
        ensures counted { IfOk result (IsCounted range.now) }
        ensures stands { Stands S.Store self.old self.new }
    {
        if let Some(rows) = known_rows(self.alloc, &self.known, number) {
            return Ok(PageById { rows, counts: None });
        }
        let page = self.find_page_by_id(number, range)?;
        self.learn_designs(number, &page.rows);
        Ok(page)
    }

    /// Gives the winner of a document with its mark, if it was ever written: that of a design document as
    /// it is known, any other as its row says.
    pub(crate) fn give_winner(
        &mut self,
        number: &i64,
        id: &DocId,
    ) -> Result<Option<MarkedRev>, StoreFault>
        ensures answer { Answers S.Store self.old self.new (λ found. found)
            (Some (marked_winner (history_in_rows (trees_of S.Store self.old revs_tree) number.now id.now))) result }
        ensures stands { Stands S.Store self.old self.new }
    {
        match known_winner(&self.known, number, id) {
            Some(winner) => Ok(Some(winner)),
            None => self.find_winner(number, id),
        }
    }

    /// Gives what is known of one revision of a document, if it is known: that of the winner of a design
    /// document as it is kept, any other as its row says.
    pub(crate) fn give_revision(
        &mut self,
        number: &i64,
        id: &DocId,
        rev: &Rev,
    ) -> Result<Option<Entry>, StoreFault>
        ensures answer { Answers S.Store self.old self.new (λ found. found)
            (Some (get (history_in_rows (trees_of S.Store self.old revs_tree) number.now id.now) rev.now)) result }
        ensures stands { Stands S.Store self.old self.new }
    {
        match known_entry(self.alloc, &self.known, number, id, rev) {
            Some(entry) => Ok(Some(entry)),
            None => self.find_revision(number, id, rev),
        }
    }
}
