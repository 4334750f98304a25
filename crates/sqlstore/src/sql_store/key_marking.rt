//! The keys that the documents of writes have in indexes, before they are written and after, and what that
//! makes of the ranks of the indexes of their database.
//!
//! Ranks are an aid: what can't be found drops them, and refuses no write.

ghost use Rattle.std.specs.Prelude.{◌≡◌, ◌||◌, ℕ, IfOk, IfSome, List, Some, if◌then◌else◌, is_some, option_map, true};
ghost use Rattle.std.specs.BTreeMap as tree;
ghost use Rattle.std.specs.Cmp.Lexicographic.{slice_cmp};
ghost use Rattle.std.specs.List.{AllByRecursion};
ghost use Rattle.std.specs.Ordering.{is_eq, nat_cmp};
ghost use Rattle.store.specs.Indexes.{queried_document};
ghost use Rattle.tree.specs.DocumentId.{is_design_id};

use crate::document_keys::{copy_key, make_key_of_seen};
use crate::entry_key::EntryKey;
use crate::found::put_found;
use crate::index_ranks::IndexRanks;
use crate::key_change::KeyChange;
use crate::known_database::{KnownDatabase, keep_index_ranks, take_index_ranks};
use crate::known_indexes::has_index;
use crate::moved_keys::move_keys;
use crate::seen::Seen;
use crate::sql_store::SqlStore;
use couch_json::FieldPath;
use sqlite::Alter;
use std::collections::BTreeMap;
use store::{StoreFault, Write, take_winner};
use tree::{DocId, MarkedRev, show};

/// How many writes in one commit move ranks at most. Each document of the writes is read before the commit
/// and after it, for each index; behind more writes the next page by key counts anew.
const MOST_WRITES: usize = 256;

/// The ranks of an index, and the keys that the documents which are to be written have in it.
pub(crate) struct CountedKeys {
    /// The index with its ranks.
    ranks: IndexRanks,
    /// The key of each document, if it has one.
    keys: BTreeMap<DocId, Option<EntryKey>>,
}

// Written out, so that callers do not prove again how each part is dropped.
impl Drop for CountedKeys {
    fn drop(self) {
        let CountedKeys { ranks: _, keys: _ } = self;
    }
}

impl CountedKeys {
    /// Parts it into the index with its ranks, and the keys.
    fn split(self) -> (IndexRanks, BTreeMap<DocId, Option<EntryKey>>)
        ensures ranks { result.0 ≡ self.ranks }
        ensures keys { result.1 ≡ self.keys }
    {
        let CountedKeys { ranks, keys } = self;
        (ranks, keys)
    }
}

/// Tells whether queries don't see the document of this winner: it is deleted, or a design document.
fn is_unseen(winner: &MarkedRev, id: &DocId) -> bool
    ensures { result ≡ (winner.now.deleted || is_design_id id.now) }
{
    winner.deleted || id.is_design()
}

impl<S: Alter> SqlStore<S> {
    ghost use Rattle.std.specs.FinMap as map;
    ghost use Rattle.store.specs.Database.{Document, TextMap};
    ghost use Rattle.sqlstore.specs.inner.CountedKeys.{AreCounted, AreMoved, IsCounted, IsFound, IsMoved};
    ghost use Rattle.sqlstore.specs.inner.Keys.{AreIndexRanks, AreKeyChanges, AreKeys, AreKnownRanks, IsIndexRanks, document_key};
    ghost use Rattle.sqlstore.specs.inner.Marks.{KeepsElsewhere, documents_at, ids_of};
    ghost use Rattle.sqlstore.specs.inner.Seen.{values_seen};
    ghost use Rattle.sqlstore.specs.Model.{Stands, is_honest, trees_of};
    ghost use Rattle.sqlstore.specs.Standing.{IsKnown};

    // ---- one document

    /// Finds what queries see of a document.
    fn find_seen(&mut self, number: &i64, id: &DocId) -> Result<Seen, StoreFault>
        ensures seen { is_honest S.Store self.new → IfOk result (λ seen. values_seen seen
            ≡ option_map (λ d. queried_document id.now d.history) (map.get (documents_at (trees_of S.Store self.old) number.now) id.now)) }
        ensures stands { Stands S.Store self.old self.new }
    {
        let Some(winner) = self.find_winner(number, id)? else {
            return Ok(Seen::Unwritten);
        };
        if is_unseen(&winner, id) {
            return Ok(Seen::Hidden);
        }
        let known = self.find_revision(number, id, &winner.rev)?;
        let body = take_winner(known, false)?;
        let document = show(self.alloc, id, &winner.rev, false, &body)?;
        Ok(Seen::Shown(document))
    }

    // ---- before the commit

    /// Finds the keys that the documents of these writes have in an index of these fields.
    fn find_keys(
        &mut self,
        number: &i64,
        fields: &[FieldPath],
        writes: &[Write],
    ) -> Result<BTreeMap<DocId, Option<EntryKey>>, StoreFault>
        ensures keys { is_honest S.Store self.new
            → IfOk result (λ keys. AreKeys fields.now keys (documents_at (trees_of S.Store self.old) number.now)) }
        ensures stands { Stands S.Store self.old self.new }
    {
        let mut keys = BTreeMap::new(self.alloc);
        for write in writes {
            let seen = self.find_seen(number, &write.id)?;
            let key = make_key_of_seen(self.alloc, fields, &seen)?;
            let _was = put_found(self.alloc, &mut keys, &write.id, key)?;
        }
        Ok(keys)
    }

    /// Finds the keys that the documents of these writes have in each of these indexes.
    fn find_all_keys(
        &mut self,
        number: &i64,
        all: Vec<IndexRanks>,
        writes: &[Write],
    ) -> Result<Vec<CountedKeys>, StoreFault>
        ensures found { is_honest S.Store self.new → AreIndexRanks (trees_of S.Store self.old) number.now all.items
            → IfOk result (λ found. AllByRecursion (IsFound (trees_of S.Store self.old) number.now) found.items) }
        ensures stands { Stands S.Store self.old self.new }
    {
        let mut found = Vec::with_capacity(self.alloc, all.len())?;
        for ranks in all {
            let keys = self.find_keys(number, &ranks.declaration.fields, writes)?;
            found.push(CountedKeys { ranks, keys })?;
        }
        Ok(found)
    }

    /// Takes out the ranks of the indexes of the database of this number, where they are known.
    fn part_index_ranks(&mut self, number: &i64) -> Option<Vec<IndexRanks>>
        ensures ranks { is_honest S.Store self.new → ∥ AreKnownRanks (trees_of S.Store self.old) number.now result ∥₁ }
        ensures stands { Stands S.Store self.old self.new }
    {
        take_index_ranks(&mut self.known, number)
    }

    /// Takes out the ranks of the indexes of a database that are known, and finds the keys that the documents
    /// of these writes have in them; `None` where none is known, where the keys are not found, or where there
    /// are too many writes.
    pub(crate) fn find_counted_keys(
        &mut self,
        number: &i64,
        writes: &[Write],
    ) -> Option<Vec<CountedKeys>>
        ensures counted { is_honest S.Store self.new
            → ∥ IfSome result (λ cs. AreCounted (documents_at (trees_of S.Store self.old) number.now) cs.items) ∥₁ }
        ensures stands { Stands S.Store self.old self.new }
    {
        let ranks = self.part_index_ranks(number)?;
        if writes.len() > MOST_WRITES {
            return None;
        }
        match self.find_all_keys(number, ranks, writes) {
            Ok(counted) => Some(counted),
            Err(_) => None,
        }
    }

    // ---- after it

    /// Finds how the key of a document changed since its key was put in, and puts in that of now. A document
    /// that isn't there, or whose key wasn't put in, is told as damaged.
    fn find_key_change(
        &mut self,
        number: &i64,
        fields: &[FieldPath],
        keys: &mut BTreeMap<DocId, Option<EntryKey>>,
        id: &DocId,
    ) -> Result<KeyChange, StoreFault>
        ensures id { IfOk result (λ c. c.id ≡ id.now) }
        ensures was { IfOk result (λ c. tree.get (slice_cmp nat_cmp) keys.old id.now ≡ Some c.was) }
        ensures written { is_honest S.Store self.new
            → IfOk result (λ _. is_some (map.get (documents_at (trees_of S.Store self.old) number.now) id.now) ≡ true) }
        ensures is { is_honest S.Store self.new
            → IfOk result (λ c. c.is ≡ document_key fields.now id.now (map.get (documents_at (trees_of S.Store self.old) number.now) id.now)) }
        ensures put { IfOk result
            (λ c. (q : List ℕ) → tree.get
            (slice_cmp nat_cmp) keys.new q ≡ (if is_eq (slice_cmp nat_cmp id.now q) then Some c.is else tree.get (slice_cmp nat_cmp) keys.old q)) }
        ensures stands { Stands S.Store self.old self.new }
    {
        let seen = self.find_seen(number, id)?;
        if !seen.is_written() {
            return Err(StoreFault::Damaged);
        }
        let is = make_key_of_seen(self.alloc, fields, &seen)?;
        let copy = copy_key(self.alloc, &is)?;
        let Some(was) = put_found(self.alloc, keys, id, copy)? else {
            return Err(StoreFault::Damaged);
        };
        let id = id.copy(self.alloc)?;
        Ok(KeyChange { id, was, is })
    }

    /// Finds how the keys of the documents of these writes in an index of these fields changed since these
    /// keys were found.
    fn find_key_changes(
        &mut self,
        number: &i64,
        fields: &[FieldPath],
        keys: BTreeMap<DocId, Option<EntryKey>>,
        writes: &[Write],
    ) -> Result<Vec<KeyChange>, StoreFault>
        ensures changes { is_honest S.Store self.new → (old : TextMap Document) → AreKeys fields.now keys old
            → KeepsElsewhere (ids_of writes.now) old (documents_at (trees_of S.Store self.old) number.now)
            → IfOk result (λ cs. AreKeyChanges fields.now cs.items old (documents_at (trees_of S.Store self.old) number.now)) }
        ensures stands { Stands S.Store self.old self.new }
    {
        let mut keys = keys;
        let mut changes = Vec::with_capacity(self.alloc, writes.len())?;
        for write in writes {
            let change = self.find_key_change(number, fields, &mut keys, &write.id)?;
            changes.push(change)?;
        }
        Ok(changes)
    }

    /// Moves the ranks of an index after these writes of its database were committed. `None` where the
    /// database that is known now has no such index, or where it can't be found what the writes changed.
    fn move_one_index(
        &mut self,
        known: &Option<KnownDatabase>,
        number: &i64,
        counted: CountedKeys,
        writes: &[Write],
    ) -> Option<IndexRanks>
        ensures ranks { is_honest S.Store self.new → IsKnown (trees_of S.Store self.old) known.now → (old : TextMap Document) → IsCounted old counted
            → KeepsElsewhere (ids_of writes.now) old (documents_at (trees_of S.Store self.old) number.now)
            → IfSome result (λ r. IsMoved (trees_of S.Store self.old) number.now r) }
        ensures stands { Stands S.Store self.old self.new }
    {
        let (ranks, keys) = counted.split();
        let IndexRanks { declaration, ranks } = ranks;
        if !has_index(known, number, &declaration) {
            return None;
        }
        let Ok(changes) = self.find_key_changes(number, &declaration.fields, keys, writes) else {
            return None;
        };
        let ranks = move_keys(ranks, &changes)?;
        Some(IndexRanks { declaration, ranks })
    }

    /// Moves the ranks of each of these indexes; those that can't be moved are left out.
    fn move_each_index(
        &mut self,
        known: &Option<KnownDatabase>,
        number: &i64,
        counted: Vec<CountedKeys>,
        writes: &[Write],
    ) -> Result<Vec<IndexRanks>, StoreFault>
        ensures ranks { is_honest S.Store self.new → IsKnown (trees_of S.Store self.old) known.now → (old : TextMap Document) → AreCounted old counted.items
            → KeepsElsewhere (ids_of writes.now) old (documents_at (trees_of S.Store self.old) number.now)
            → IfOk result (λ rs. AreMoved (trees_of S.Store self.old) number.now rs.items) }
        ensures stands { Stands S.Store self.old self.new }
    {
        let mut moved = Vec::with_capacity(self.alloc, counted.len())?;
        for one in counted {
            let Some(ranks) = self.move_one_index(known, number, one, writes) else {
                continue;
            };
            moved.push(ranks)?;
        }
        Ok(moved)
    }

    /// Moves the ranks of the indexes of a database, where they were known, after these writes of it were
    /// committed, and keeps those of the indexes that it has still.
    pub(crate) fn move_index_ranks(
        &mut self,
        number: &i64,
        counted: Option<Vec<CountedKeys>>,
        writes: &[Write],
    )
        requires { is_honest S.Store self.old → ∥ ((old : TextMap Document) × IfSome counted (λ cs. AreCounted old cs.items)
            × KeepsElsewhere (ids_of writes.now) old (documents_at (trees_of S.Store self.old) number.now)) ∥₁ }
        ensures stands { Stands S.Store self.old self.new }
    {
        let Some(counted) = counted else {
            return;
        };
        let mut known = self.known.take();
        let moved = self.move_each_index(&known, number, counted, writes);
        keep_index_ranks(&mut known, number, moved.ok());
        self.known = known;
    }
}
