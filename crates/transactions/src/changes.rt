//! Changes of a connection, each in a transaction of its own.

ghost use Rattle.std.specs.Prelude.{◌≡◌, false, pos, IfErr, OnOk, ⊤};
ghost use Rattle.sqlite.specs.Held.{state};
ghost use Rattle.sqlite.specs.State.{HasCleanDisk};
ghost use Rattle.tables.specs.Calls.{Proceeds, Stays};
ghost use Rattle.tables.specs.Layout.{IsNew, IsStore};
ghost use Rattle.tables.specs.Rows.{database_cells, rows_with_security, with_cells};
ghost use Rattle.tables.specs.Schema.{dbs_tree, no_schema};
ghost use Rattle.tables.specs.Steps.{Changes};
ghost use Rattle.transactions.specs.Sequences.{Clears, Replaces};
ghost use Rattle.transactions.specs.Commits.{IsUnwritten};
ghost use Rattle.transactions.specs.Endings.{IsDone, IsUndone, Turns};
ghost use Rattle.transactions.specs.Indexing.{IsIndexedStore, IsRemoved, IsSoundIndexed};

use crate::commit_fault::CommitFault;
use crate::indexing::clear_indexed;
use sqlite::{Alter, Connection, Error, Transaction};
use std::alloc::Global;
use tables::create_tables;
use tables::databases::{delete_database, insert_database, secure_database};
use tables::documents::clear_documents;
use tables::locals::{clear_locals, delete_local, insert_local};
use tables::revisions::clear_revisions;

/// Makes the tables, where there is none.
pub fn begin_tables<S: Alter>(conn: &mut Connection<S>) -> Result<(), Error>
    requires { conn.old.in_transaction ≡ false }
    ensures ok { HasCleanDisk (state S.Store conn.new) → conn.old.schema ≡ no_schema → OnOk result (IsNew (state S.Store conn.new).now) }
    ensures turns { Turns S.Store conn.old conn.new }
    ensures done { IsDone S.Store conn.old conn.new result }
    ensures undone { IsUndone S.Store conn.old conn.new result }
{
    let mut tx = conn.transaction();
    create_tables(&mut tx)?;
    tx.commit()
}

/// Puts in the row of a new database.
pub fn add_database<S: Alter>(
    conn: &mut Connection<S>,
    name: &[u8],
    security: &str,
) -> Result<(), Error>
    requires { conn.old.in_transaction ≡ false }
    ensures ok { HasCleanDisk (state S.Store conn.new) → IsStore (state S.Store conn.old).now
        → OnOk result (Changes dbs_tree (with_cells ((state S.Store conn.old).now.trees dbs_tree) (database_cells name.now security.now (pos 0)))
        (state S.Store conn.old).now (state S.Store conn.new).now) }
    ensures turns { Turns S.Store conn.old conn.new }
    ensures done { IsDone S.Store conn.old conn.new result }
    ensures undone { IsUndone S.Store conn.old conn.new result }
{
    let mut tx = conn.transaction();
    insert_database(&mut tx, name, security)?;
    tx.commit()
}

/// Gives the database of this number another security object.
pub fn change_security<S: Alter>(
    conn: &mut Connection<S>,
    number: &i64,
    security: &str,
) -> Result<(), Error>
    requires { conn.old.in_transaction ≡ false }
    ensures ok { HasCleanDisk (state S.Store conn.new) → IsStore (state S.Store conn.old).now
        → OnOk result (Changes dbs_tree (rows_with_security number.now security.now ((state S.Store conn.old).now.trees dbs_tree))
        (state S.Store conn.old).now (state S.Store conn.new).now) }
    ensures turns { Turns S.Store conn.old conn.new }
    ensures done { IsDone S.Store conn.old conn.new result }
    ensures undone { IsUndone S.Store conn.old conn.new result }
{
    let mut tx = conn.transaction();
    secure_database(&mut tx, number, security)?;
    tx.commit()
}

/// Puts a local document in the place of the one of its id.
fn replace_local<S: Alter>(
    tx: &mut Transaction<'_, S>,
    db: &i64,
    id: &[u8],
    number: u32,
    body: &str,
) -> Result<(), Error>
    ensures same_reference { tx.new.conn.ghost_name ≡ tx.old.conn.ghost_name }
    ensures ok { HasCleanDisk (state S.Store tx.new.conn.now) → IsStore (state S.Store tx.old.conn.now).now
        → OnOk result (Replaces db.now id.now number body.now (state S.Store tx.old.conn.now).now (state S.Store tx.new.conn.now).now) }
    ensures inside { Stays S.Store tx.old.conn.now tx.new.conn.now result }
    ensures proceeds { Proceeds S.Store tx.old.conn.now tx.new.conn.now }
{
    delete_local(tx, db, id)?;
    insert_local(tx, db, id, number, body)
}

/// Writes a local document, in the place of the one of its id.
pub fn write_local<S: Alter>(
    conn: &mut Connection<S>,
    db: &i64,
    id: &[u8],
    number: u32,
    body: &str,
) -> Result<(), Error>
    requires { conn.old.in_transaction ≡ false }
    ensures ok { HasCleanDisk (state S.Store conn.new) → IsStore (state S.Store conn.old).now
        → OnOk result (Replaces db.now id.now number body.now (state S.Store conn.old).now (state S.Store conn.new).now) }
    ensures turns { Turns S.Store conn.old conn.new }
    ensures done { IsDone S.Store conn.old conn.new result }
    ensures undone { IsUndone S.Store conn.old conn.new result }
{
    let mut tx = conn.transaction();
    replace_local(&mut tx, db, id, number, body)?;
    tx.commit()
}

/// Takes out the rows of a database, and its own.
pub(crate) fn clear_database<S: Alter>(
    tx: &mut Transaction<'_, S>,
    number: &i64,
) -> Result<(), Error>
    ensures same_reference { tx.new.conn.ghost_name ≡ tx.old.conn.ghost_name }
    ensures ok { HasCleanDisk (state S.Store tx.new.conn.now) → IsStore (state S.Store tx.old.conn.now).now
        → OnOk result (Clears number.now (state S.Store tx.old.conn.now).now (state S.Store tx.new.conn.now).now) }
    ensures inside { Stays S.Store tx.old.conn.now tx.new.conn.now result }
    ensures proceeds { Proceeds S.Store tx.old.conn.now tx.new.conn.now }
{
    clear_documents(tx, number)?;
    clear_revisions(tx, number)?;
    clear_locals(tx, number)?;
    delete_database(tx, number)
}

/// Removes the database of this number, with all that it holds and with the rows of its indexes.
pub fn remove_database<S: Alter>(
    alloc: Global,
    conn: &mut Connection<S>,
    number: &i64,
) -> Result<(), CommitFault>
    requires { conn.old.in_transaction ≡ false }
    ensures ok { HasCleanDisk (state S.Store conn.new) → IsIndexedStore (state S.Store conn.old).now
        → OnOk result (IsRemoved number.now (state S.Store conn.old).now (state S.Store conn.new).now) }
    ensures err { IfErr result (IsUnwritten (IsSoundIndexed S.Store (λ _. ⊤) conn.old conn.new)) }
    ensures turns { Turns S.Store conn.old conn.new }
    ensures done { IsDone S.Store conn.old conn.new result }
    ensures undone { IsIndexedStore (state S.Store conn.old).now → IsUndone S.Store conn.old conn.new result }
{
    let mut tx = conn.transaction();
    clear_indexed(alloc, &mut tx, number)?;
    tx.commit()?;
    Ok(())
}
