//! Tables of the first version, as they are carried over to this one.

ghost use Rattle.std.specs.Prelude.{◌≡◌, [], OnOk};
ghost use Rattle.sqlite.specs.Held.{state};
ghost use Rattle.sqlite.specs.State.{HasCleanDisk};
ghost use Rattle.tables.specs.Calls.{Alters, KeepsSchema, Proceeds, Stays};
ghost use Rattle.tables.specs.Layout.{AreNumbered, IsFirstStore, IsRenewed};
ghost use Rattle.tables.specs.Schema.{decls_tree, entries_tree, meta_tree};

use crate::create::insert_version;
use crate::statement::change;
use sqlite::{Alter, Error, Transaction};

/// Gives tables of the first version this one, and takes out all rows of indexes.
pub fn renew_tables<S: Alter>(tx: &mut Transaction<'_, S>) -> Result<(), Error>
    ensures same_reference { tx.new.conn.ghost_name ≡ tx.old.conn.ghost_name }
    ensures ok { HasCleanDisk (state S.Store tx.new.conn.now) → IsFirstStore (state S.Store tx.old.conn.now).now
        → OnOk result (IsRenewed (state S.Store tx.old.conn.now).now (state S.Store tx.new.conn.now).now) }
    ensures keeps { KeepsSchema S.Store tx.old.conn.now tx.new.conn.now result }
    ensures inside { Stays S.Store tx.old.conn.now tx.new.conn.now result }
    ensures proceeds { Proceeds S.Store tx.old.conn.now tx.new.conn.now }
{
    clear_version(tx)?;
    insert_version(tx)?;
    clear_declarations(tx)?;
    clear_entries(tx)
}

/// Takes out the version.
fn clear_version<S: Alter>(tx: &mut Transaction<'_, S>) -> Result<(), Error>
    ensures same_reference { tx.new.conn.ghost_name ≡ tx.old.conn.ghost_name }
    ensures alters { Alters S.Store meta_tree AreNumbered (λ _. []) tx.old.conn.now tx.new.conn.now result }
{
    change(tx, "DELETE FROM meta", &[])
}

/// Takes out the rows of all indexes.
fn clear_declarations<S: Alter>(tx: &mut Transaction<'_, S>) -> Result<(), Error>
    ensures same_reference { tx.new.conn.ghost_name ≡ tx.old.conn.ghost_name }
    ensures alters { Alters S.Store decls_tree AreNumbered (λ _. []) tx.old.conn.now tx.new.conn.now result }
{
    change(tx, "DELETE FROM decls", &[])
}

/// Takes out all entries of indexes.
fn clear_entries<S: Alter>(tx: &mut Transaction<'_, S>) -> Result<(), Error>
    ensures same_reference { tx.new.conn.ghost_name ≡ tx.old.conn.ghost_name }
    ensures alters { Alters S.Store entries_tree AreNumbered (λ _. []) tx.old.conn.now tx.new.conn.now result }
{
    change(tx, "DELETE FROM entries", &[])
}
