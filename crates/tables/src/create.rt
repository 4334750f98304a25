//! The tables, made where there are none.

ghost use Rattle.std.specs.Prelude.{◌≡◌, [], ◌∷◌, OnOk};
ghost use Rattle.sqlite.specs.Held.{state};
ghost use Rattle.sqlite.specs.State.{HasCleanDisk};
ghost use Rattle.tables.specs.Schema as tables;
ghost use Rattle.tables.specs.Calls.{Alters, Proceeds, Stays};
ghost use Rattle.tables.specs.Layout.{AreNumbered, IsEmpty, IsNew};
ghost use Rattle.tables.specs.Rows.{count_cell, with_cells};
ghost use Rattle.tables.specs.Schema.{meta_tree};

use crate::statement::change;
use sqlite::{Alter, Error, Transaction};

/// Makes all seven tables, where there is none, and writes the version.
pub fn create_tables<S: Alter>(tx: &mut Transaction<'_, S>) -> Result<(), Error>
    ensures same_reference { tx.new.conn.ghost_name ≡ tx.old.conn.ghost_name }
    ensures ok { HasCleanDisk (state S.Store tx.new.conn.now) → tx.old.conn.now.schema ≡ tables.no_schema
        → OnOk result (IsNew (state S.Store tx.new.conn.now).now) }
    ensures inside { Stays S.Store tx.old.conn.now tx.new.conn.now result }
    ensures proceeds { Proceeds S.Store tx.old.conn.now tx.new.conn.now }
{
    make_tables(tx)?;
    insert_version(tx)
}

/// Writes the version of the layout.
pub(crate) fn insert_version<S: Alter>(tx: &mut Transaction<'_, S>) -> Result<(), Error>
    ensures same_reference { tx.new.conn.ghost_name ≡ tx.old.conn.ghost_name }
    ensures alters { Alters S.Store meta_tree AreNumbered (λ rows. with_cells rows (count_cell 2 ∷ [])) tx.old.conn.now tx.new.conn.now result }
{
    change(tx, "INSERT INTO meta (version) VALUES (2)", &[])
}

/// Makes all seven tables, where there is none.
fn make_tables<S: Alter>(tx: &mut Transaction<'_, S>) -> Result<(), Error>
    ensures same_reference { tx.new.conn.ghost_name ≡ tx.old.conn.ghost_name }
    ensures ok { HasCleanDisk (state S.Store tx.new.conn.now) → tx.old.conn.now.schema ≡ tables.no_schema
        → OnOk result (IsEmpty (state S.Store tx.new.conn.now).now) }
    ensures inside { Stays S.Store tx.old.conn.now tx.new.conn.now result }
    ensures proceeds { Proceeds S.Store tx.old.conn.now tx.new.conn.now }
{
    change(
        tx,
        "CREATE TABLE meta (version INTEGER NOT NULL) STRICT",
        &[],
    )?;
    change(
        tx,
        "CREATE TABLE dbs (num INTEGER PRIMARY KEY, name BLOB NOT NULL UNIQUE, sec TEXT NOT NULL, seq INTEGER NOT NULL) STRICT",
        &[],
    )?;
    change(
        tx,
        "CREATE TABLE docs (db INTEGER NOT NULL, id BLOB NOT NULL, seq INTEGER NOT NULL, winner TEXT NOT NULL, \
         del INTEGER NOT NULL, PRIMARY KEY (db, id), UNIQUE (db, seq)) STRICT",
        &[],
    )?;
    change(
        tx,
        "CREATE TABLE revs (db INTEGER NOT NULL, id BLOB NOT NULL, n INTEGER NOT NULL, hash TEXT NOT NULL, parent TEXT, \
         held INTEGER NOT NULL, del INTEGER NOT NULL, body TEXT, PRIMARY KEY (db, id, n, hash)) STRICT",
        &[],
    )?;
    change(
        tx,
        "CREATE TABLE locals (db INTEGER NOT NULL, id BLOB NOT NULL, n INTEGER NOT NULL, body TEXT NOT NULL, PRIMARY KEY (db, id)) STRICT",
        &[],
    )?;
    change(
        tx,
        "CREATE TABLE decls (num INTEGER PRIMARY KEY, db INTEGER NOT NULL, ddoc BLOB NOT NULL, name BLOB NOT NULL, \
         fields TEXT NOT NULL, UNIQUE (db, ddoc, name)) STRICT",
        &[],
    )?;
    change(
        tx,
        "CREATE TABLE entries (decl INTEGER NOT NULL, k BLOB NOT NULL, id BLOB NOT NULL, PRIMARY KEY (decl, k, id)) STRICT",
        &[],
    )
}
