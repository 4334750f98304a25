//! A file of the first version, carried over to this one.

ghost use Rattle.std.specs.Prelude.{◌≡◌, IfErr, IfOk, IsTrue, List, OnOk, [], false, true, ⊤};
ghost use Rattle.sqlite.specs.Held.{state};
ghost use Rattle.sqlite.specs.State.{HasCleanDisk};
ghost use Rattle.sqlite_value.specs.Order as order;
ghost use Rattle.sqlite_value.specs.Order.{bytes, column};
ghost use Rattle.tables.specs.Layout.{IsFirstStore};
ghost use Rattle.tables.specs.Rows.{whole_in_cell};
ghost use Rattle.tables.specs.Schema.{schema};
ghost use Rattle.index.specs.Steps.{Steps, WasFit};
ghost use Rattle.transactions.specs.Commits.{IsUnwritten};
ghost use Rattle.transactions.specs.Endings.{IsDone, IsUndone, Turns};
ghost use Rattle.transactions.specs.Renewing.{AreRedeclared, AreToRedeclare, HasNoIndexes, IsCarriedOver, IsShownName, IsToRedeclare};
ghost use Rattle.transactions.specs.inner.Calls.{Finds, MakesStep};

use crate::commit_fault::CommitFault;
use crate::indexing::redeclare;
use crate::seeing::find_winning;
use sqlite::{Alter, Connection, Row, Transaction};
use std::alloc::Global;
use store::StoreFault;
use tables::transaction_reads::rows_between_in;
use tables::{RowFault, id_at, renew_tables, whole_at};
use tree::DocId;

/// What names a document among those of all databases.
#[derive(Drop)]
struct NamedDocument {
    /// The number of its database.
    db: i64,
    /// Its id.
    id: DocId,
}

/// Carries a file of the first version over to this one: the rows of its indexes are made anew of what
/// the winners of its design documents declare.
pub fn carry_over<S: Alter>(alloc: Global, conn: &mut Connection<S>) -> Result<(), CommitFault>
    requires { conn.old.in_transaction ≡ false }
    ensures ok { HasCleanDisk (state S.Store conn.new) → IsFirstStore (state S.Store conn.old).now
        → OnOk result (IsCarriedOver (state S.Store conn.old).now (state S.Store conn.new).now) }
    ensures err { IfErr result (IsUnwritten (WasFit S.Store IsFirstStore conn.old conn.new)) }
    ensures turns { Turns S.Store conn.old conn.new }
    ensures done { IsDone S.Store conn.old conn.new result }
    ensures undone { conn.old.schema ≡ schema → IsUndone S.Store conn.old conn.new result }
{
    let mut tx = conn.transaction();
    renew(alloc, &mut tx)?;
    tx.commit()?;
    Ok(())
}

/// Gives a file of the first version this one, and makes the rows of its indexes anew.
fn renew<S: Alter>(alloc: Global, tx: &mut Transaction<'_, S>) -> Result<(), CommitFault>
    ensures same_reference { tx.new.conn.ghost_name ≡ tx.old.conn.ghost_name }
    ensures steps { Steps S.Store IsFirstStore IsCarriedOver tx.old.conn.now tx.new.conn.now result }
    ensures inside { HasCleanDisk (state S.Store tx.new.conn.now) → tx.old.conn.now.schema ≡ schema
        → OnOk result (IsTrue (state S.Store tx.new.conn.now).is_open × ((state S.Store tx.new.conn.now).in_transaction ≡ true)) }
    ensures err { IfErr result (IsUnwritten (WasFit S.Store IsFirstStore tx.old.conn.now tx.new.conn.now)) }
{
    renew_tables(tx)?;
    redeclare_all(alloc, tx)
}

/// Declares what the winners of all design documents declare, where no index has a row, and reads the
/// winner of each other document: it has to be stored.
fn redeclare_all<S: Alter>(alloc: Global, tx: &mut Transaction<'_, S>) -> Result<(), CommitFault>
    ensures same_reference { tx.new.conn.ghost_name ≡ tx.old.conn.ghost_name }
    ensures makes { MakesStep S.Store HasNoIndexes (AreRedeclared []) tx.old.conn.now tx.new.conn.now result }
{
    let rows = rows_between_in(tx, b"", b"\xff")?;
    redeclare_rows(alloc, tx, &rows)
}

/// Declares what the winners of the documents of these rows declare.
fn redeclare_rows<S: Alter>(
    alloc: Global,
    tx: &mut Transaction<'_, S>,
    rows: &[Row],
) -> Result<(), CommitFault>
    ensures same_reference { tx.new.conn.ghost_name ≡ tx.old.conn.ghost_name }
    ensures makes { (docs : List order.Row) → MakesStep S.Store (AreToRedeclare rows.now docs) (AreRedeclared []) tx.old.conn.now tx.new.conn.now result }
{
    for row in rows {
        redeclare_row(alloc, tx, row)?;
    }
    Ok(())
}

/// Declares what the winner of the document of a row declares, if that is a design document, and else reads
/// the winner.
fn redeclare_row<S: Alter>(
    alloc: Global,
    tx: &mut Transaction<'_, S>,
    row: &Row,
) -> Result<(), CommitFault>
    ensures same_reference { tx.new.conn.ghost_name ≡ tx.old.conn.ghost_name }
    ensures makes { (d : order.Row) (left : List order.Row)
        → MakesStep S.Store (IsToRedeclare row.now d left) (AreRedeclared left) tx.old.conn.now tx.new.conn.now result }
{
    let named = read_named(alloc, row)?;
    if named.id.is_design() {
        redeclare(alloc, tx, &named.db, &named.id)
    } else {
        check_stored(alloc, tx, &named.db, &named.id)
    }
}

/// Checks that the winner of a document is stored, by reading it.
fn check_stored<S: Alter>(
    alloc: Global,
    tx: &mut Transaction<'_, S>,
    db: &i64,
    id: &DocId,
) -> Result<(), CommitFault>
    ensures same_reference { tx.new.conn.ghost_name ≡ tx.old.conn.ghost_name }
    ensures finds { Finds S.Store (λ _. ⊤) (λ _ _. ⊤) tx.old.conn.now tx.new.conn.now result }
{
    let _winner = find_winning(alloc, tx, db, id)?;
    Ok(())
}

/// Reads what names a document.
fn read_named(alloc: Global, row: &Row) -> Result<NamedDocument, CommitFault>
    ensures db { IfOk result (λ named. named.db ≡ whole_in_cell (column row.now 0)) }
    ensures id { IfOk result (λ named. named.id ≡ bytes (column row.now 1)) }
    ensures err { IfErr result (IsUnwritten (IsShownName row.now)) }
{
    let db = read_number(row)?;
    let id = read_id(alloc, row)?;
    Ok(NamedDocument { db, id })
}

/// Reads the number of the database of a document.
fn read_number(row: &Row) -> Result<i64, CommitFault>
    ensures ok { IfOk result (λ n. n ≡ whole_in_cell (column row.now 0)) }
    ensures err { IfErr result (IsUnwritten (IsShownName row.now)) }
{
    match whole_at(row, 0) {
        Ok(number) => Ok(number),
        Err(RowFault::Memory) => Err(CommitFault::Store(StoreFault::Memory)),
        Err(RowFault::Damaged) => Err(CommitFault::Store(StoreFault::Damaged)),
    }
}

/// Reads the id of a document.
fn read_id(alloc: Global, row: &Row) -> Result<DocId, CommitFault>
    ensures ok { IfOk result (λ id. id ≡ bytes (column row.now 1)) }
    ensures err { IfErr result (IsUnwritten (IsShownName row.now)) }
{
    match id_at(alloc, row, 1) {
        Ok(id) => Ok(id),
        Err(RowFault::Memory) => Err(CommitFault::Store(StoreFault::Memory)),
        Err(RowFault::Damaged) => Err(CommitFault::Store(StoreFault::Damaged)),
    }
}
