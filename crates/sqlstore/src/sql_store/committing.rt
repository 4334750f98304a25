//! How writes of documents are appended to a database, in one transaction.

ghost use Rattle.std.specs.Prelude.{◌≡◌, ◌+◌, ◌<◌, ◌^◌, ◌↔◌, IfSome, IsTrue, Some};
ghost use Rattle.sqlstore.specs.declared.known_database.KnownDatabase.{KnownDatabase};
ghost use Rattle.sqlstore.specs.inner.Reading.{at_sequence};

use crate::earlier::forget_named;
use crate::fault::judge_write;
use crate::known_database::{KnownDatabase, take_indexes};
use crate::sql_store::SqlStore;
use index::Declaration;
use sqlite::Alter;
use std::snapshot::Snapshot;
use store::{DbName, StoreFault, Write};
use transactions::commit_writes;

/// Tells whether so many sequences are left after this one.
pub(crate) fn has_room(sequence: u64, count: usize) -> bool
    ensures { IsTrue result ↔ (sequence + count < 2 ^ 63) }
{
    match sequence.checked_add(count as u64) {
        Some(last) => last < 1 << 63,
        None => false,
    }
}

/// Returns what is known of the database of this name, if it is the known one, after its sequence moved to
/// this one; its indexes are these.
fn advance(
    known: Option<KnownDatabase>,
    name: &DbName,
    sequence: u64,
    indexes: Vec<Declaration>,
) -> Option<KnownDatabase>
    ensures { IfSome result (λ now. (was : KnownDatabase) × (known ≡ Some was) × (was.name ≡ name.now) × (now ≡ at_sequence sequence indexes was)) }
{
    let known = known?;
    if known.name == *name {
        Some(known.at_sequence(sequence, indexes))
    } else {
        None
    }
}

impl<S: Alter> SqlStore<S> {
    ghost use Rattle.std.specs.Prelude.{◌≡◌, Err, IfErr, None, Some, OnErr, OnOk, length, option_map};
    ghost use Rattle.std.specs.FinMap as map;
    ghost use Rattle.store.specs.Database.{with_all};
    ghost use Rattle.store.specs.Writing.{additions, writings_in};
    ghost use Rattle.transactions.specs.Commits.{AreDue};
    ghost use Rattle.sqlstore.specs.inner.Commits.{IsUncommitted};
    ghost use Rattle.sqlstore.specs.inner.Marks.{KeepsElsewhere, documents_at, ids_of};
    ghost use Rattle.sqlstore.specs.Model.{Moves, contents_of, is_honest, trees_of};

    /// Appends writes to the database of this number and this sequence, and moves the counts of its
    /// documents and the ranks of its indexes that are known.
    pub(crate) fn append_counted(
        &mut self,
        name: &DbName,
        number: &i64,
        sequence: u64,
        writes: &[Write],
    ) -> Result<(), StoreFault>
        requires room { sequence + length writes.now < 2 ^ 63 }
        requires due { is_honest S.Store self.old → AreDue (additions writes.now) name.now number.now sequence (trees_of S.Store self.old) }
        ensures ok { is_honest S.Store self.new
            → OnOk result (option_map (λ db. map.insert (contents_of S.Store self.old) name.now (with_all db (writings_in db (additions writes.now))))
            (map.get (contents_of S.Store self.old) name.now) ≡ Some (contents_of S.Store self.new)) }
        ensures told { IfErr result (IsUncommitted self.old.faults self.new.faults (is_honest S.Store self.new)) }
        ensures kept { OnErr result (self.new.last.value ≡ self.old.last.value) }
        ensures moves { Moves S.Store self.old self.new }
    {
        let counted = self.find_counted(number, writes);
        let keys = self.find_counted_keys(number, writes);
        self.append(name, number, sequence, writes)?;
        self.move_index_ranks(number, keys, writes);
        if let Some(counted) = counted {
            self.move_counts(number, counted, writes);
        }
        Ok(())
    }

    /// Appends writes to the database of this number and this sequence. Neither a count nor ranks of it are
    /// known then; its design documents are still, where none of the writes is of one.
    fn append(
        &mut self,
        name: &DbName,
        number: &i64,
        sequence: u64,
        writes: &[Write],
    ) -> Result<(), StoreFault>
        requires room { sequence + length writes.now < 2 ^ 63 }
        requires due { is_honest S.Store self.old → AreDue (additions writes.now) name.now number.now sequence (trees_of S.Store self.old) }
        ensures ok { is_honest S.Store self.new
            → OnOk result (option_map (λ db. map.insert (contents_of S.Store self.old) name.now (with_all db (writings_in db (additions writes.now))))
            (map.get (contents_of S.Store self.old) name.now) ≡ Some (contents_of S.Store self.new)) }
        ensures elsewhere { is_honest S.Store self.new
            → OnOk result (∥ KeepsElsewhere (ids_of writes.now) (documents_at (trees_of S.Store self.old) number.now)
            (documents_at (trees_of S.Store self.new) number.now) ∥₁) }
        ensures told { IfErr result (IsUncommitted self.old.faults self.new.faults (is_honest S.Store self.new)) }
        ensures kept { OnErr result (self.new.last.value ≡ self.old.last.value) }
        ensures moves { Moves S.Store self.old self.new }
    {
        let designs = self.part_designs(number);
        self.append_rows(name, number, sequence, writes)?;
        self.put_back_designs(number, designs, writes);
        Ok(())
    }

    /// Appends writes to the database of this number and this sequence. Neither a count, nor ranks, nor a
    /// design document of it are known then.
    fn append_rows(
        &mut self,
        name: &DbName,
        number: &i64,
        sequence: u64,
        writes: &[Write],
    ) -> Result<(), StoreFault>
        requires room { sequence + length writes.now < 2 ^ 63 }
        requires due { is_honest S.Store self.old → AreDue (additions writes.now) name.now number.now sequence (trees_of S.Store self.old) }
        ensures ok { is_honest S.Store self.new
            → OnOk result (option_map (λ db. map.insert (contents_of S.Store self.old) name.now (with_all db (writings_in db (additions writes.now))))
            (map.get (contents_of S.Store self.old) name.now) ≡ Some (contents_of S.Store self.new)) }
        ensures elsewhere { is_honest S.Store self.new
            → OnOk result (∥ KeepsElsewhere (ids_of writes.now) (documents_at (trees_of S.Store self.old) number.now)
            (documents_at (trees_of S.Store self.new) number.now) ∥₁) }
        ensures told { IfErr result (IsUncommitted self.old.faults self.new.faults (is_honest S.Store self.new)) }
        ensures kept { OnErr result (self.new.last.value ≡ self.old.last.value) }
        ensures moves { Moves S.Store self.old self.new }
    {
        let was = self.known.take();
        let (known, indexes) = take_indexes(was, number);
        forget_named(&mut self.earlier, name);
        match commit_writes(
            self.alloc,
            &mut self.conn,
            number,
            sequence,
            indexes,
            writes,
        ) {
            Ok(all) => {
                self.last = Snapshot::of(&self.conn);
                self.known = advance(known, name, sequence + writes.len() as u64, all);
                Ok(())
            }
            Err(fault) => Err(judge_write(&mut self.faults, fault)),
        }
    }
}
