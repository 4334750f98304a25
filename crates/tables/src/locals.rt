//! The rows of the local documents.

ghost use Rattle.std.specs.Prelude.{◌≡◌, not, filter, map};
ghost use Rattle.tables.specs.Calls.{Alters, Reads};
ghost use Rattle.tables.specs.Layout.{AreKeyed, IsStore};
ghost use Rattle.tables.specs.Rows.{is_row_of_database, is_row_of_document, shown_local, local_cells, with_cells};
ghost use Rattle.tables.specs.Schema.{locals_tree};

use crate::statement::{change, query};
use sqlite::{Alter, Connection, Error, Row, Transaction, params};

/// Puts in the row of a local document, behind those that are there.
pub fn insert_local<S: Alter>(
    tx: &mut Transaction<'_, S>,
    db: &i64,
    id: &[u8],
    number: u32,
    body: &str,
) -> Result<(), Error>
    ensures same_reference { tx.new.conn.ghost_name ≡ tx.old.conn.ghost_name }
    ensures alters { Alters S.Store locals_tree AreKeyed
        (λ rows. with_cells rows (local_cells db.now id.now number body.now)) tx.old.conn.now tx.new.conn.now result }
{
    change(
        tx,
        "INSERT INTO locals (db, id, n, body) VALUES (?1, ?2, ?3, ?4)",
        params![db, id, number, body],
    )
}

/// Takes out the row of the local document of this id.
pub fn delete_local<S: Alter>(tx: &mut Transaction<'_, S>, db: &i64, id: &[u8]) -> Result<(), Error>
    ensures same_reference { tx.new.conn.ghost_name ≡ tx.old.conn.ghost_name }
    ensures alters { Alters S.Store locals_tree AreKeyed (λ rows. filter
        (λ r. not (is_row_of_document db.now id.now r)) rows) tx.old.conn.now tx.new.conn.now result }
{
    change(
        tx,
        "DELETE FROM locals WHERE db = ?1 AND id = ?2",
        params![db, id],
    )
}

/// Takes out the rows of all local documents of a database.
pub fn clear_locals<S: Alter>(tx: &mut Transaction<'_, S>, db: &i64) -> Result<(), Error>
    ensures same_reference { tx.new.conn.ghost_name ≡ tx.old.conn.ghost_name }
    ensures alters { Alters S.Store locals_tree AreKeyed (λ rows. filter (λ r. not (is_row_of_database db.now r)) rows) tx.old.conn.now tx.new.conn.now result }
{
    change(tx, "DELETE FROM locals WHERE db = ?1", params![db])
}

/// Returns the row of a local document, if there is one: its number and its body.
pub fn local_rows<S: Alter>(
    conn: &mut Connection<S>,
    db: &i64,
    id: &[u8],
) -> Result<Vec<Row>, Error>
    ensures { Reads S.Store IsStore conn.old conn.new (λ trees rows. rows.items
        ≡ map shown_local (filter (is_row_of_document db.now id.now) (trees locals_tree))) result }
{
    query(
        conn,
        "SELECT n, body FROM locals WHERE db = ?1 AND id = ?2",
        params![db, id],
    )
}
