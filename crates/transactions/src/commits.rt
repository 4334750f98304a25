//! Writes of a database that are committed together.

ghost use Rattle.std.specs.FinMap as finite;
ghost use Rattle.tree.specs.History.{winner};
ghost use Rattle.tree.specs.Outline.{marked_winner};
ghost use Rattle.std.specs.Prelude.{◌+◌, ◌<◌, ◌^◌, ◌↔◌, ◌≡◌, IfErr, IfOk, IfSome, IsTrue, List, None, OnOk, [], false, length, map, pos, true, ℕ, ⊤};
ghost use Rattle.sqlite.specs.Held.{state};
ghost use Rattle.sqlite.specs.State.{HasCleanDisk};
ghost use Rattle.sqlite_value.specs.Order.{Row};
ghost use Rattle.store.specs.Plain.{with_addition};
ghost use Rattle.store.specs.Writing.{addition_of, additions, writings_in};
ghost use Rattle.tables.specs.Edits.{HasWritten, IsWrite};
ghost use Rattle.tables.specs.Rows.{database_of_row, history_in_rows, number_of, sequence_of_database};
ghost use Rattle.tables.specs.Schema.{revs_tree};
ghost use Rattle.transactions.specs.Commits.{AreDue, IsUnwritten, KeepsOthers};
ghost use Rattle.transactions.specs.inner.Histories.{AreHeld, IsWith, stored_history};
ghost use Rattle.transactions.specs.inner.Following.{HasPlaceFor, IsReadFor, Serves};
ghost use Rattle.transactions.specs.Endings.{IsDone, IsUndone, Turns};
ghost use Rattle.transactions.specs.inner.Placed.{ArePlain};
ghost use Rattle.transactions.specs.Indexing.{AreAllIndexes, AreKnownIndexes, IsIndexedStore, IsSoundIndexed, write_in};
ghost use Rattle.index.specs.Indexed.{IsIndexed};
ghost use Rattle.index.specs.Shown.{declared};
ghost use Rattle.transactions.specs.inner.Calls.{Finds, LoadsAndWrites, OverStore, PlacesWrite, PutsWrite, WritesAll, WritesByHeld, open_in};

use crate::commit_fault::CommitFault;
use crate::document_write::{insert_first_write, insert_write};
use crate::histories::read_history;
use crate::indexing::{are_none, list_unknown, write_and_index};
use crate::postponing::catch_up;
use crate::seeing::find_winner;
use crate::winner_checks::{check_history, check_winner};
use crate::winners::make_history;
use couch_json::Got;
use index::Declaration;
use sqlite::{Alter, Connection, Transaction};
use std::alloc::Global;
use std::collections::{BTreeMap, BTreeSet};
use store::Write;
use tables::databases::advance_database;
use tables::transaction_reads::revision_rows_in;
use tree::{DocId, History, MarkedRev};

/// Does the writes of a database, all of them or none. It takes the indexes of the database, where they
/// are known, and returns those that it has then.
pub fn commit_writes<S: Alter>(
    alloc: Global,
    conn: &mut Connection<S>,
    db: &i64,
    sequence: u64,
    indexes: Option<Vec<Declaration>>,
    writes: &[Write],
) -> Result<Vec<Declaration>, CommitFault>
    requires idle { conn.old.in_transaction ≡ false }
    requires room { sequence + length writes.now < 2 ^ 63 }
    ensures ok { (name : List ℕ) → HasCleanDisk (state S.Store conn.new) → IsIndexedStore (state S.Store conn.old).now
        → AreKnownIndexes indexes db.now (state S.Store conn.old).now.trees
        → (due : AreDue (additions writes.now) name db.now sequence (state S.Store conn.old).now.trees)
        → IfOk result (λ all. HasWritten (writings_in (database_of_row (state S.Store conn.old).now.trees due.row) (additions writes.now)) name due.row
        (state S.Store conn.old).now (state S.Store conn.new).now × IsIndexed (state S.Store conn.new).now.trees
        × AreAllIndexes (map declared all.items) db.now (state S.Store conn.new).now.trees) }
    ensures others { (name : List ℕ) → HasCleanDisk (state S.Store conn.new) → IsIndexedStore (state S.Store conn.old).now
        → AreKnownIndexes indexes db.now (state S.Store conn.old).now.trees
        → AreDue (additions writes.now) name db.now sequence (state S.Store conn.old).now.trees
        → OnOk result (KeepsOthers db.now (state S.Store conn.old).now (state S.Store conn.new).now) }
    ensures err { (name : List ℕ) → IfErr result (IsUnwritten (IsSoundIndexed S.Store
        (λ d. AreKnownIndexes indexes db.now d.trees × AreDue (additions writes.now) name db.now sequence d.trees) conn.old conn.new)) }
    ensures turns { Turns S.Store conn.old conn.new }
    ensures done { IsDone S.Store conn.old conn.new result }
    ensures undone { (name : List ℕ) → IsIndexedStore (state S.Store conn.old).now → AreKnownIndexes indexes db.now (state S.Store conn.old).now.trees
        → AreDue (additions writes.now) name db.now sequence (state S.Store conn.old).now.trees → IsUndone S.Store conn.old conn.new result }
{
    let mut tx = conn.transaction();
    let after = list_then_write(alloc, &mut tx, db, sequence, indexes, writes)?;
    tx.commit()?;
    Ok(after)
}

/// Writes a document under this sequence, in a transaction. Its history is taken from those that were
/// read, or else read as far as the write asks; where it is there as a whole it is put back as it is after
/// the write. The sequence of the database is left to the caller.
fn write_by_cached_history<S: Alter>(
    alloc: Global,
    tx: &mut Transaction<'_, S>,
    db: &i64,
    sequence: &i64,
    histories: &mut BTreeMap<DocId, History>,
    write: &Write,
) -> Result<(), CommitFault>
    ensures same_reference { tx.new.conn.ghost_name ≡ tx.old.conn.ghost_name }
    ensures ok { OverStore S.Store tx.old.conn.now tx.new.conn.now (λ trees. AreHeld histories.old db.now trees
        → HasPlaceFor (stored_history trees db.now (addition_of write.now).id) (addition_of write.now)
        → PlacesWrite S.Store db.now sequence.now (addition_of write.now) tx.old.conn.now tx.new.conn.now result) }
    ensures writes { WritesByHeld S.Store db.now (addition_of write.now) histories.old histories.new tx.old.conn.now tx.new.conn.now result }
{
    if let Some(history) = histories.remove(&write.id) {
        let history = write_by_history(alloc, tx, db, sequence, history, write)?;
        put_history(alloc, histories, &write.id, history)?;
        return Ok(());
    }
    if let Some(history) = load_and_write(alloc, tx, db, sequence, write)? {
        put_history(alloc, histories, &write.id, history)?;
    }
    Ok(())
}

/// Writes a document as `write_by_cached_history` does, and moves the sequence of its database to this one.
pub(crate) fn write_and_advance<S: Alter>(
    alloc: Global,
    tx: &mut Transaction<'_, S>,
    db: &i64,
    sequence: &i64,
    histories: &mut BTreeMap<DocId, History>,
    write: &Write,
) -> Result<(), CommitFault>
    ensures same_reference { tx.new.conn.ghost_name ≡ tx.old.conn.ghost_name }
    ensures ok { (r : Row) → OverStore S.Store tx.old.conn.now tx.new.conn.now (λ trees. AreHeld histories.old db.now trees
        → HasPlaceFor (stored_history trees (number_of r) (addition_of write.now).id) (addition_of write.now)
        → db.now ≡ number_of r → sequence.now ≡ pos (sequence_of_database r + 1)
        → OnOk result (IsWrite r (write_in trees r (addition_of write.now)) (open_in S.Store tx.old.conn.now) (open_in S.Store tx.new.conn.now))) }
    ensures writes { WritesByHeld S.Store db.now (addition_of write.now) histories.old histories.new tx.old.conn.now tx.new.conn.now result }
{
    write_by_cached_history(alloc, tx, db, sequence, histories, write)?;
    advance_database(tx, db, sequence)?;
    Ok(())
}

/// Reads the history of a document within a transaction. It has to have the winner that the document's
/// row names.
fn read_document<S: Alter>(
    alloc: Global,
    tx: &mut Transaction<'_, S>,
    db: &i64,
    id: &[u8],
    winner: &Option<MarkedRev>,
) -> Result<History, CommitFault>
    ensures same_reference { tx.new.conn.ghost_name ≡ tx.old.conn.ghost_name }
    ensures finds { Finds S.Store (λ trees. winner.now ≡ marked_winner (stored_history trees db.now id.now))
        (λ trees history. history ≡ stored_history trees db.now id.now) tx.old.conn.now tx.new.conn.now result }
    ensures agrees { IfOk result (λ history. winner.now ≡ marked_winner history) }
{
    let rows = revision_rows_in(tx, db, id)?;
    let history = read_history(alloc, rows)?;
    check_history(winner, &history)?;
    Ok(history)
}

/// Reads the winner of a document, and what a write asks of its history where that is the winner alone, or
/// nothing since the document was never written. Where it is the winner alone, that has to have a row.
fn read_followed<S: Alter>(
    alloc: Global,
    tx: &mut Transaction<'_, S>,
    db: &i64,
    write: &Write,
) -> Result<(Option<MarkedRev>, Option<History>), CommitFault>
    ensures same_reference { tx.new.conn.ghost_name ≡ tx.old.conn.ghost_name }
    ensures finds { Finds S.Store (λ _. ⊤) (λ trees. IsReadFor (addition_of write.now) (stored_history trees db.now (addition_of write.now).id))
        tx.old.conn.now tx.new.conn.now result }
    ensures empty { IfOk result (λ read. IfSome read.1 (λ history. winner history ≡ None → history ≡ finite.empty)) }
{
    let winner = find_winner(alloc, tx, db, &write.id)?;
    let Some(history) = make_history(alloc, copy_winner(&winner), write)? else {
        return Ok((winner, None));
    };
    let Some(best) = winner else {
        return Ok((None, Some(history)));
    };
    check_winner(tx, db, &write.id, &best)?;
    Ok((Some(best), Some(history)))
}

/// Copies a winner, if there is one.
fn copy_winner(winner: &Option<MarkedRev>) -> Option<MarkedRev>
    ensures { result ≡ winner.now }
{
    match winner {
        Some(winner) => Some(MarkedRev {
            rev: winner.rev,
            deleted: winner.deleted,
        }),
        None => None,
    }
}

/// Writes a document by a history that says what the write asks of the document's own, and returns
/// that history after the write.
fn write_by_history<S: Alter>(
    alloc: Global,
    tx: &mut Transaction<'_, S>,
    db: &i64,
    sequence: &i64,
    history: History,
    write: &Write,
) -> Result<History, CommitFault>
    ensures same_reference { tx.new.conn.ghost_name ≡ tx.old.conn.ghost_name }
    ensures puts { PutsWrite S.Store (λ stored. Serves (addition_of write.now) stored history) history db.now sequence.now (addition_of write.now)
        tx.old.conn.now tx.new.conn.now result }
    ensures after { IfOk result (λ after. after ≡ with_addition history (addition_of write.now)) }
{
    let mut history = history;
    insert_write(alloc, tx, db, sequence, &mut history, write)?;
    Ok(history)
}

/// Writes a document by a history that says what the write asks of the document's own: the winner alone,
/// or nothing where the document is new.
fn write_by_winner<S: Alter>(
    alloc: Global,
    tx: &mut Transaction<'_, S>,
    db: &i64,
    sequence: &i64,
    history: History,
    write: &Write,
) -> Result<(), CommitFault>
    requires { winner history ≡ None → history ≡ finite.empty }
    ensures same_reference { tx.new.conn.ghost_name ≡ tx.old.conn.ghost_name }
    ensures puts { PutsWrite S.Store (λ stored. HasPlaceFor stored (addition_of write.now) × Serves (addition_of write.now) stored history) history
        db.now sequence.now (addition_of write.now) tx.old.conn.now tx.new.conn.now result }
{
    let mut history = history;
    if history.winner().is_none() {
        return insert_first_write(alloc, tx, db, sequence, &history, write);
    }
    insert_write(alloc, tx, db, sequence, &mut history, write)
}

/// Writes a document after its history was read as a whole, and returns its history after the write.
fn write_by_rows<S: Alter>(
    alloc: Global,
    tx: &mut Transaction<'_, S>,
    db: &i64,
    sequence: &i64,
    winner: &Option<MarkedRev>,
    write: &Write,
) -> Result<History, CommitFault>
    ensures same_reference { tx.new.conn.ghost_name ≡ tx.old.conn.ghost_name }
    ensures ok { OverStore S.Store tx.old.conn.now tx.new.conn.now
        (λ _. PlacesWrite S.Store db.now sequence.now (addition_of write.now) tx.old.conn.now tx.new.conn.now result) }
    ensures writes { LoadsAndWrites S.Store (λ stored after. after ≡ stored)
        (λ trees. winner.now ≡ marked_winner (stored_history trees db.now (addition_of write.now).id)) db.now (addition_of write.now)
        tx.old.conn.now tx.new.conn.now result }
{
    let history = read_document(alloc, tx, db, write.id.as_str().as_bytes(), winner)?;
    let after = write_by_history(alloc, tx, db, sequence, history, write)?;
    Ok(after)
}

/// Writes a document, and returns its history after the write, where it was read as a whole.
fn load_and_write<S: Alter>(
    alloc: Global,
    tx: &mut Transaction<'_, S>,
    db: &i64,
    sequence: &i64,
    write: &Write,
) -> Result<Option<History>, CommitFault>
    ensures same_reference { tx.new.conn.ghost_name ≡ tx.old.conn.ghost_name }
    ensures ok { OverStore S.Store tx.old.conn.now tx.new.conn.now
        (λ trees. HasPlaceFor (stored_history trees db.now (addition_of write.now).id) (addition_of write.now)
        → PlacesWrite S.Store db.now sequence.now (addition_of write.now) tx.old.conn.now tx.new.conn.now result) }
    ensures writes { LoadsAndWrites S.Store (λ stored found. IfSome found (λ after. after ≡ stored)) (λ _. ⊤) db.now (addition_of write.now)
        tx.old.conn.now tx.new.conn.now result }
{
    let (winner, followed) = read_followed(alloc, tx, db, write)?;
    match followed {
        Some(history) => {
            write_by_winner(alloc, tx, db, sequence, history, write)?;
            Ok(None)
        }
        None => Ok(Some(write_by_rows(alloc, tx, db, sequence, &winner, write)?)),
    }
}

/// Puts the history of a document in.
fn put_history(
    alloc: Global,
    histories: &mut BTreeMap<DocId, History>,
    id: &DocId,
    history: History,
) -> Got<()>
    ensures { OnOk result (IsWith histories.old id.now history histories.new) }
{
    drop(histories.insert(id.copy(alloc)?, history)?);
    Ok(())
}

/// Returns the integer that SQLite holds for a count.
pub fn integer_of(count: u64) -> i64
    requires { count < 2 ^ 63 }
    ensures { result ≡ pos count }
{
    count as i64
}

/// Does the writes of a database in turn, each under the next sequence, and has the indexes of the
/// database, which these are, follow each of them. Those that design documents declare follow at the end. It
/// returns those that the database has then.
fn write_one_by_one<S: Alter>(
    alloc: Global,
    tx: &mut Transaction<'_, S>,
    db: &i64,
    sequence: u64,
    indexes: Vec<Declaration>,
    writes: &[Write],
) -> Result<Vec<Declaration>, CommitFault>
    requires { sequence + length writes.now < 2 ^ 63 }
    ensures same_reference { tx.new.conn.ghost_name ≡ tx.old.conn.ghost_name }
    ensures writes { WritesAll S.Store (additions writes.now) db.now sequence (AreAllIndexes (map declared indexes.items) db.now)
        (λ all. AreAllIndexes (map declared all.items) db.now) tx.old.conn.now tx.new.conn.now result }
{
    let mut histories = BTreeMap::new(alloc);
    let mut postponed = BTreeSet::new(alloc);
    for (i, write) in writes.iter().enumerate() {
        let next = integer_of(sequence + i as u64 + 1);
        write_and_index(
            alloc,
            tx,
            db,
            &next,
            &mut histories,
            &indexes,
            &mut postponed,
            write,
        )?;
    }
    catch_up(alloc, tx, db, &postponed, indexes)
}

/// Tells whether none of the writes is of a design document.
fn are_plain(writes: &[Write]) -> bool
    ensures { IsTrue result ↔ ArePlain (additions writes.now) }
{
    for write in writes {
        if write.id.is_design() {
            return false;
        }
    }
    true
}

/// Does the writes of a database without indexes in turn, none of which is of a design document. The
/// sequence of the database is moved to the last of theirs first, once for all of them.
fn write_with_one_sequence_update<S: Alter>(
    alloc: Global,
    tx: &mut Transaction<'_, S>,
    db: &i64,
    sequence: u64,
    writes: &[Write],
) -> Result<(), CommitFault>
    requires some { 0 < length writes.now }
    requires room { sequence + length writes.now < 2 ^ 63 }
    ensures same_reference { tx.new.conn.ghost_name ≡ tx.old.conn.ghost_name }
    ensures writes { ArePlain (additions writes.now) → WritesAll S.Store (additions writes.now) db.now sequence (AreAllIndexes [] db.now)
        (λ _. AreAllIndexes [] db.now) tx.old.conn.now tx.new.conn.now result }
{
    advance_database(tx, db, &integer_of(sequence + writes.len() as u64))?;
    let mut histories = BTreeMap::new(alloc);
    for (i, write) in writes.iter().enumerate() {
        let next = integer_of(sequence + i as u64 + 1);
        write_by_cached_history(alloc, tx, db, &next, &mut histories, write)?;
    }
    Ok(())
}

/// Does the writes of a database as `write_one_by_one` does. Where there are several, and no index has to
/// follow them, the sequence of the database is moved once.
fn choose_sequencing<S: Alter>(
    alloc: Global,
    tx: &mut Transaction<'_, S>,
    db: &i64,
    sequence: u64,
    indexes: Vec<Declaration>,
    writes: &[Write],
) -> Result<Vec<Declaration>, CommitFault>
    requires { sequence + length writes.now < 2 ^ 63 }
    ensures same_reference { tx.new.conn.ghost_name ≡ tx.old.conn.ghost_name }
    ensures writes { WritesAll S.Store (additions writes.now) db.now sequence (AreAllIndexes (map declared indexes.items) db.now)
        (λ all. AreAllIndexes (map declared all.items) db.now) tx.old.conn.now tx.new.conn.now result }
{
    if are_none(&indexes) && writes.len() > 1 && are_plain(writes) {
        write_with_one_sequence_update(alloc, tx, db, sequence, writes)?;
        return Ok(indexes);
    }
    write_one_by_one(alloc, tx, db, sequence, indexes, writes)
}

/// Does the writes of a database in turn, each under the next sequence, and has its indexes follow, which
/// these are where they are known. It returns those that it has then.
fn list_then_write<S: Alter>(
    alloc: Global,
    tx: &mut Transaction<'_, S>,
    db: &i64,
    sequence: u64,
    indexes: Option<Vec<Declaration>>,
    writes: &[Write],
) -> Result<Vec<Declaration>, CommitFault>
    requires { sequence + length writes.now < 2 ^ 63 }
    ensures same_reference { tx.new.conn.ghost_name ≡ tx.old.conn.ghost_name }
    ensures writes { WritesAll S.Store (additions writes.now) db.now sequence (AreKnownIndexes indexes db.now)
        (λ all. AreAllIndexes (map declared all.items) db.now) tx.old.conn.now tx.new.conn.now result }
{
    let known = list_unknown(alloc, tx, db, indexes)?;
    choose_sequencing(alloc, tx, db, sequence, known, writes)
}
