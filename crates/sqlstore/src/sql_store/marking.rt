//! How the winners of the documents of writes are marked, before they are written and after, and what that
//! makes of the counts and the ranks of their database.

ghost use Rattle.std.specs.Prelude.{◌≡◌, ℕ, ℤ, IfOk, IfSome, List, Some, if◌then◌else◌, option_map};
ghost use Rattle.std.specs.BTreeMap as tree;
ghost use Rattle.std.specs.Cmp.Lexicographic.{slice_cmp};
ghost use Rattle.std.specs.Ordering.{is_eq, nat_cmp};
ghost use Rattle.sqlite_trees.specs.Tree.{Trees};
ghost use Rattle.sqlstore.specs.inner.Marks.{AreCountsAt};

use crate::found::put_found;
use crate::known_counts::KnownCounts;
use crate::known_database::{find_counts, keep_counts, keep_ranks};
use crate::marked::Marked;
use crate::moved_ranks::move_ranks;
use crate::sql_store::SqlStore;
use ranks::Ranks;
use sqlite::Alter;
use std::collections::BTreeMap;
use store::{StoreFault, Write};
use tree::{DocId, MarkedRev};

/// The counts of a database, its ranks, and the marks of the documents that are to be written in it.
pub(crate) struct CountedMarks {
    /// Its counts.
    counts: KnownCounts,
    /// The ranks of the ids of its documents that are not deleted, where they are known.
    ranks: Option<Ranks>,
    /// Whether the winner of each document is deleted, if it was ever written.
    marks: BTreeMap<DocId, Option<bool>>,
}

// Written out, so that callers do not prove again how each part is dropped.
impl Drop for CountedMarks {
    fn drop(self) {
        let CountedMarks {
            counts: _,
            ranks: _,
            marks: _,
        } = self;
    }
}

impl CountedMarks {
    /// Parts it into the counts, the ranks and the marks.
    fn split(self) -> (KnownCounts, Option<Ranks>, BTreeMap<DocId, Option<bool>>)
        ensures counts { result.0 ≡ self.counts }
        ensures ranks { result.1 ≡ self.ranks }
        ensures marks { result.2 ≡ self.marks }
    {
        let CountedMarks {
            counts,
            ranks,
            marks,
        } = self;
        (counts, ranks, marks)
    }
}

/// Returns the counts that are known, or that none is.
fn counts_or_none(counts: Option<KnownCounts>) -> KnownCounts
    ensures { (trees : Trees) (number : ℤ) → IfSome counts (λ c. AreCountsAt c number trees) → AreCountsAt result number trees }
{
    match counts {
        Some(counts) => counts,
        None => KnownCounts {
            live: None,
            deleted: None,
        },
    }
}

/// Returns the mark of a winner.
fn mark_of_winner(winner: &Option<MarkedRev>) -> Option<bool>
    ensures { result ≡ option_map (λ w. w.deleted) winner.now }
{
    match winner {
        Some(winner) => Some(winner.deleted),
        None => None,
    }
}

impl<S: Alter> SqlStore<S> {
    ghost use Rattle.std.specs.FinMap as map;
    ghost use Rattle.ranks.specs.Counts.{AreRanksOf};
    ghost use Rattle.store.specs.Database.{Document, TextMap};
    ghost use Rattle.sqlstore.specs.inner.Marks.{AreChanges, AreCounts, AreMarks, KeepsElsewhere, documents_at, ids_of, live_keys, mark_of};
    ghost use Rattle.sqlstore.specs.Model.{Stands, is_honest, trees_of};

    /// Finds whether the winner of a document is deleted, if it was ever written.
    fn find_mark(&mut self, number: &i64, id: &DocId) -> Result<Option<bool>, StoreFault>
        ensures mark { is_honest S.Store self.new
            → IfOk result (λ mark. mark ≡ mark_of (map.get (documents_at (trees_of S.Store self.old) number.now) id.now)) }
        ensures stands { Stands S.Store self.old self.new }
    {
        let winner = self.find_winner(number, id)?;
        Ok(mark_of_winner(&winner))
    }

    /// Finds the marks of the documents that these writes are of.
    fn find_marks(
        &mut self,
        number: &i64,
        writes: &[Write],
    ) -> Result<BTreeMap<DocId, Option<bool>>, StoreFault>
        ensures marks { is_honest S.Store self.new → IfOk result (λ marks. AreMarks marks (documents_at (trees_of S.Store self.old) number.now)) }
        ensures stands { Stands S.Store self.old self.new }
    {
        let mut marks = BTreeMap::new(self.alloc);
        for write in writes {
            let mark = self.find_mark(number, &write.id)?;
            let _was = put_found(self.alloc, &mut marks, &write.id, mark)?;
        }
        Ok(marks)
    }

    /// Finds the counts of a database that are known, takes out its ranks, and finds the marks of the
    /// documents that these writes are of; `None` where neither is known, or the marks are not found.
    pub(crate) fn find_counted(&mut self, number: &i64, writes: &[Write]) -> Option<CountedMarks>
        ensures counted { is_honest S.Store self.new
            → IfSome result (λ c. ∥ AreCounts c.counts (documents_at (trees_of S.Store self.old) number.now)
            × AreMarks c.marks (documents_at (trees_of S.Store self.old) number.now)
            × IfSome c.ranks (λ r. AreRanksOf r (live_keys (documents_at (trees_of S.Store self.old) number.now))) ∥₁) }
        ensures stands { Stands S.Store self.old self.new }
    {
        let ranks = self.take_live_ranks(number);
        let counts = find_counts(&self.known, number);
        if counts.is_none() && ranks.is_none() {
            return None;
        }
        let Ok(marks) = self.find_marks(number, writes) else {
            return None;
        };
        Some(CountedMarks {
            counts: counts_or_none(counts),
            ranks,
            marks,
        })
    }

    /// Finds how the mark of a document changed since its mark was put in, and puts in that of now. A
    /// document that isn't there, or whose mark wasn't put in, is told as damaged.
    fn find_change(
        &mut self,
        number: &i64,
        marks: &mut BTreeMap<DocId, Option<bool>>,
        id: &DocId,
    ) -> Result<Marked, StoreFault>
        ensures id { IfOk result (λ c. c.id ≡ id.now) }
        ensures was { IfOk result (λ c. tree.get (slice_cmp nat_cmp) marks.old id.now ≡ Some c.was) }
        ensures is { is_honest S.Store self.new
            → IfOk result (λ c. mark_of (map.get (documents_at (trees_of S.Store self.old) number.now) id.now) ≡ Some c.is) }
        ensures put { IfOk result
            (λ c. (q : List ℕ) → tree.get
            (slice_cmp nat_cmp) marks.new q ≡ (if is_eq (slice_cmp nat_cmp id.now q) then Some (Some c.is) else tree.get (slice_cmp nat_cmp) marks.old q)) }
        ensures stands { Stands S.Store self.old self.new }
    {
        let Some(is) = self.find_mark(number, id)? else {
            return Err(StoreFault::Damaged);
        };
        let Some(was) = put_found(self.alloc, marks, id, Some(is))? else {
            return Err(StoreFault::Damaged);
        };
        let id = id.copy(self.alloc)?;
        Ok(Marked { id, was, is })
    }

    /// Finds how the marks of the documents of these writes changed since these marks were found.
    fn find_changes(
        &mut self,
        number: &i64,
        marks: BTreeMap<DocId, Option<bool>>,
        writes: &[Write],
    ) -> Result<Vec<Marked>, StoreFault>
        ensures changes { is_honest S.Store self.new → (old : TextMap Document) → AreMarks marks old
            → KeepsElsewhere (ids_of writes.now) old (documents_at (trees_of S.Store self.old) number.now)
            → IfOk result (λ cs. AreChanges cs.items old (documents_at (trees_of S.Store self.old) number.now)) }
        ensures stands { Stands S.Store self.old self.new }
    {
        let mut marks = marks;
        let mut changes = Vec::with_capacity(self.alloc, writes.len())?;
        for write in writes {
            let change = self.find_change(number, &mut marks, &write.id)?;
            changes.push(change)?;
        }
        Ok(changes)
    }

    /// Moves the counts and the ranks of a database after these writes of it were committed, and keeps them.
    /// Where it can't be found what the writes changed, none of them is known any more.
    pub(crate) fn move_counts(&mut self, number: &i64, counted: CountedMarks, writes: &[Write])
        requires { is_honest S.Store self.old → ∥ ((old : TextMap Document) × AreCounts counted.counts old × AreMarks counted.marks old
            × IfSome counted.ranks (λ r. AreRanksOf r (live_keys old))
            × KeepsElsewhere (ids_of writes.now) old (documents_at (trees_of S.Store self.old) number.now)) ∥₁ }
        ensures stands { Stands S.Store self.old self.new }
    {
        let (counts, ranks, marks) = counted.split();
        if let Ok(changes) = self.find_changes(number, marks, writes) {
            keep_counts(&mut self.known, number, counts.after(&changes));
            keep_ranks(&mut self.known, number, move_ranks(ranks, &changes));
        }
    }
}
