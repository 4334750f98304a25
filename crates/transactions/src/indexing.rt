//! Writes of documents that the rows of indexes follow.

ghost use Rattle.std.specs.Prelude.{◌==◌, ◌≡◌, IfErr, IfOk, List, OnOk, false, length, map, true, ℕ, ⊤};
ghost use Rattle.sqlite.specs.Held.{state};
ghost use Rattle.sqlite.specs.State.{HasCleanDisk, KeepsCommit};
ghost use Rattle.store.specs.Writing.{addition_of};
ghost use Rattle.tables.specs.Calls.{AsksInside, LooksInside};
ghost use Rattle.tables.specs.Schema.{schema};
ghost use Rattle.tree.specs.DocumentId.{is_design_id};
ghost use Rattle.index.specs.Shown.{Declared, declared};
ghost use Rattle.transactions.specs.Commits.{IsUnwritten};
ghost use Rattle.transactions.specs.Indexing.{AreAllIndexes, AreKnownIndexes, IsIndexedStore, IsLeft, IsRedeclared, IsRemoved, IsSoundIndexed};
ghost use Rattle.index.specs.Declaring.{IsRebuildable};
ghost use Rattle.index.specs.Steps.{Steps, WasFit};
ghost use Rattle.index.specs.Meaning.{Declarations, Documents};
ghost use Rattle.transactions.specs.inner.Calls.{IndexesWrite, IsOpenInside, WritesFollowed, open_in};

use crate::changes::clear_database;
use crate::commit_fault::CommitFault;
use crate::commits::write_and_advance;
use crate::postponing::note_winner;
use crate::seeing::{find_winner, find_winning, see_document};
use index::{Declaration, drop_db, list_declarations, rebuild, refresh_indexes};
use sqlite::{Alter, Transaction};
use std::alloc::Global;
use std::collections::{BTreeMap, BTreeSet};
use store::{Write, find_winning_body};
use tree::{DocId, History};

/// Writes a document that is no design document, and has each of these indexes, which are all of its
/// database, follow it.
pub(crate) fn write_and_refresh<S: Alter>(
    alloc: Global,
    tx: &mut Transaction<'_, S>,
    db: &i64,
    sequence: &i64,
    histories: &mut BTreeMap<DocId, History>,
    indexes: &[Declaration],
    write: &Write,
) -> Result<(), CommitFault>
    ensures same_reference { tx.new.conn.ghost_name ≡ tx.old.conn.ghost_name }
    ensures ok { (ids : List (List ℕ)) → is_design_id (addition_of write.now).id ≡ false
        → IndexesWrite S.Store db.now sequence.now (addition_of write.now) histories.old (map declared indexes.now)
        ids ids tx.old.conn.now tx.new.conn.now result }
    ensures writes { WritesFollowed S.Store db.now sequence.now (addition_of write.now) histories.old histories.new tx.old.conn.now tx.new.conn.now result }
{
    let before = see_document(alloc, tx, db, &write.id)?;
    write_and_advance(alloc, tx, db, sequence, histories, write)?;
    let after = see_document(alloc, tx, db, &write.id)?;
    let id = write.id.as_str().as_bytes();
    refresh_indexes(alloc, tx, db, indexes, id, before.as_ref(), after.as_ref())?;
    Ok(())
}

/// Has the indexes of a database follow a design document as it is stored.
pub(crate) fn redeclare<S: Alter>(
    alloc: Global,
    tx: &mut Transaction<'_, S>,
    db: &i64,
    id: &DocId,
) -> Result<(), CommitFault>
    ensures same_reference { tx.new.conn.ghost_name ≡ tx.old.conn.ghost_name }
    ensures steps { (declares : Declarations) (sees : Documents) → is_design_id id.now ≡ true
        → Steps S.Store (IsRebuildable declares sees db.now) (IsRedeclared declares sees db.now id.now) tx.old.conn.now tx.new.conn.now result }
    ensures err { (declares : Declarations) (sees : Documents)
        → IfErr result (IsUnwritten (WasFit S.Store (IsRebuildable declares sees db.now) tx.old.conn.now tx.new.conn.now)) }
    ensures asks { AsksInside S.Store tx.old.conn.now tx.new.conn.now }
{
    let history = find_winning(alloc, tx, db, id)?;
    let body = find_winning_body(&history);
    rebuild(alloc, tx, db, id.as_str().as_bytes(), body)?;
    Ok(())
}

/// Writes a design document, and postpones its indexes where its winner is another then.
pub(crate) fn write_and_postpone<S: Alter>(
    alloc: Global,
    tx: &mut Transaction<'_, S>,
    db: &i64,
    sequence: &i64,
    histories: &mut BTreeMap<DocId, History>,
    postponed: &mut BTreeSet<DocId>,
    write: &Write,
) -> Result<(), CommitFault>
    ensures same_reference { tx.new.conn.ghost_name ≡ tx.old.conn.ghost_name }
    ensures ok { (all : List Declared) → is_design_id (addition_of write.now).id ≡ true
        → IndexesWrite S.Store db.now sequence.now (addition_of write.now) histories.old all
        postponed.old.keys postponed.new.keys tx.old.conn.now tx.new.conn.now result }
    ensures writes { WritesFollowed S.Store db.now sequence.now (addition_of write.now) histories.old histories.new tx.old.conn.now tx.new.conn.now result }
{
    let before = find_winner(alloc, tx, db, &write.id)?;
    write_and_advance(alloc, tx, db, sequence, histories, write)?;
    note_winner(alloc, tx, db, &write.id, &before, postponed)
}

/// Writes a document that is no design document, and has the indexes of its database, which these are,
/// follow it, if there are any.
fn index_document<S: Alter>(
    alloc: Global,
    tx: &mut Transaction<'_, S>,
    db: &i64,
    sequence: &i64,
    histories: &mut BTreeMap<DocId, History>,
    indexes: &[Declaration],
    write: &Write,
) -> Result<(), CommitFault>
    ensures same_reference { tx.new.conn.ghost_name ≡ tx.old.conn.ghost_name }
    ensures ok { (ids : List (List ℕ)) → is_design_id (addition_of write.now).id ≡ false
        → IndexesWrite S.Store db.now sequence.now (addition_of write.now) histories.old (map declared indexes.now)
        ids ids tx.old.conn.now tx.new.conn.now result }
    ensures writes { WritesFollowed S.Store db.now sequence.now (addition_of write.now) histories.old histories.new tx.old.conn.now tx.new.conn.now result }
{
    if are_none(indexes) {
        return write_and_advance(alloc, tx, db, sequence, histories, write);
    }
    write_and_refresh(alloc, tx, db, sequence, histories, indexes, write)
}

/// Lists the indexes of a database, where they are not known.
pub(crate) fn list_unknown<S: Alter>(
    alloc: Global,
    tx: &mut Transaction<'_, S>,
    db: &i64,
    known: Option<Vec<Declaration>>,
) -> Result<Vec<Declaration>, CommitFault>
    ensures same_reference { tx.new.conn.ghost_name ≡ tx.old.conn.ghost_name }
    ensures ok { HasCleanDisk (state S.Store tx.new.conn.now) → IsIndexedStore (open_in S.Store tx.old.conn.now)
        → AreKnownIndexes known db.now (open_in S.Store tx.old.conn.now).trees
        → IfOk result (λ all. AreAllIndexes (map declared all.items) db.now (open_in S.Store tx.old.conn.now).trees) }
    ensures err { IfErr result (IsUnwritten (IsSoundIndexed S.Store (λ _. ⊤) tx.old.conn.now tx.new.conn.now)) }
    ensures stays { HasCleanDisk (state S.Store tx.new.conn.now) → tx.old.conn.now.schema ≡ schema
        → OnOk result (IsLeft (state S.Store tx.old.conn.now) (state S.Store tx.new.conn.now)) }
    ensures looks { LooksInside S.Store tx.old.conn.now tx.new.conn.now }
    ensures asks { AsksInside S.Store tx.old.conn.now tx.new.conn.now }
{
    match known {
        Some(known) => Ok(known),
        None => Ok(list_declarations(alloc, tx, db)?),
    }
}

/// Writes a document, and has the indexes of its database, which these are, follow it. What a design document
/// declares is postponed.
pub(crate) fn write_and_index<S: Alter>(
    alloc: Global,
    tx: &mut Transaction<'_, S>,
    db: &i64,
    sequence: &i64,
    histories: &mut BTreeMap<DocId, History>,
    indexes: &[Declaration],
    postponed: &mut BTreeSet<DocId>,
    write: &Write,
) -> Result<(), CommitFault>
    ensures same_reference { tx.new.conn.ghost_name ≡ tx.old.conn.ghost_name }
    ensures ok { IndexesWrite S.Store db.now sequence.now (addition_of write.now) histories.old (map declared indexes.now)
        postponed.old.keys postponed.new.keys tx.old.conn.now tx.new.conn.now result }
    ensures writes { WritesFollowed S.Store db.now sequence.now (addition_of write.now) histories.old histories.new tx.old.conn.now tx.new.conn.now result }
{
    if write.id.is_design() {
        return write_and_postpone(alloc, tx, db, sequence, histories, postponed, write);
    }
    index_document(alloc, tx, db, sequence, histories, indexes, write)
}

/// Tells whether there are no indexes.
pub(crate) fn are_none(indexes: &[Declaration]) -> bool
    ensures { result ≡ (length indexes.now == 0) }
{
    indexes.is_empty()
}

/// Takes out the rows of a database, its own, and those of its indexes.
pub(crate) fn clear_indexed<S: Alter>(
    alloc: Global,
    tx: &mut Transaction<'_, S>,
    number: &i64,
) -> Result<(), CommitFault>
    ensures same_reference { tx.new.conn.ghost_name ≡ tx.old.conn.ghost_name }
    ensures ok { HasCleanDisk (state S.Store tx.new.conn.now) → IsIndexedStore (open_in S.Store tx.old.conn.now)
        → OnOk result (IsRemoved number.now (open_in S.Store tx.old.conn.now) (open_in S.Store tx.new.conn.now)) }
    ensures inside { HasCleanDisk (state S.Store tx.new.conn.now) → IsIndexedStore (open_in S.Store tx.old.conn.now)
        → OnOk result (IsOpenInside S.Store tx.new.conn.now) }
    ensures err { IfErr result (IsUnwritten (IsSoundIndexed S.Store (λ _. ⊤) tx.old.conn.now tx.new.conn.now)) }
    ensures kept { HasCleanDisk (state S.Store tx.new.conn.now) → IsIndexedStore (open_in S.Store tx.old.conn.now)
        → KeepsCommit (state S.Store tx.old.conn.now) (state S.Store tx.new.conn.now) }
    ensures asks { AsksInside S.Store tx.old.conn.now tx.new.conn.now }
{
    clear_database(tx, number)?;
    drop_db(alloc, tx, number)?;
    Ok(())
}
