//! The rows of the revisions.

ghost use Rattle.std.specs.Prelude.{◌≡◌, not, filter, map, IsPermutation};
ghost use Rattle.sqlite.specs.Values.{or_null};
ghost use Rattle.sqlite_value.specs.declared.value.Value.TheVariants.{Text};
ghost use Rattle.tables.specs.Calls.{Alters, Reads};
ghost use Rattle.tables.specs.Layout.{AreKeyed, IsStore};
ghost use Rattle.tables.specs.Rows.{is_row_of_database, is_row_of_document, is_revision_of, shown_hash, shown_outline, shown_revision, given_cells, with_cells};
ghost use Rattle.tables.specs.Schema.{revs_tree};

use crate::statement::{change, query};
use sqlite::{Alter, Connection, Error, Row, Transaction, params};

/// Puts in the row of a revision, behind those that are there.
pub fn insert_revision<S: Alter>(
    tx: &mut Transaction<'_, S>,
    db: &i64,
    id: &[u8],
    number: u32,
    hash: &str,
    parent: Option<&str>,
    held: bool,
    deleted: bool,
    body: Option<&str>,
) -> Result<(), Error>
    ensures same_reference { tx.new.conn.ghost_name ≡ tx.old.conn.ghost_name }
    ensures alters { Alters S.Store revs_tree AreKeyed
        (λ rows. with_cells rows
        (given_cells db.now id.now number hash.now (or_null (λ s. Text s.now) parent.entry) held deleted (or_null (λ s. Text s.now) body.entry)))
        tx.old.conn.now tx.new.conn.now result }
{
    change(
        tx,
        "INSERT INTO revs (db, id, n, hash, parent, held, del, body) VALUES (?1, ?2, ?3, ?4, ?5, ?6, ?7, ?8)",
        params![db, id, number, hash, parent, held, deleted, body],
    )
}

/// Takes out the rows of all revisions of a database.
pub fn clear_revisions<S: Alter>(tx: &mut Transaction<'_, S>, db: &i64) -> Result<(), Error>
    ensures same_reference { tx.new.conn.ghost_name ≡ tx.old.conn.ghost_name }
    ensures alters { Alters S.Store revs_tree AreKeyed (λ rows. filter (λ r. not (is_row_of_database db.now r)) rows) tx.old.conn.now tx.new.conn.now result }
{
    change(tx, "DELETE FROM revs WHERE db = ?1", params![db])
}

/// Returns the rows of all known revisions of a document, in some order.
pub fn revision_rows<S: Alter>(
    conn: &mut Connection<S>,
    db: &i64,
    id: &[u8],
) -> Result<Vec<Row>, Error>
    ensures { Reads S.Store IsStore conn.old conn.new
        (λ trees rows. IsPermutation (map shown_revision (filter (is_row_of_document db.now id.now) (trees revs_tree))) rows.items) result }
{
    query(
        conn,
        "SELECT n, hash, parent, held, del, body FROM revs WHERE db = ?1 AND id = ?2",
        params![db, id],
    )
}

/// Returns the row of one revision of a document, if it is known.
pub fn one_revision_rows<S: Alter>(
    conn: &mut Connection<S>,
    db: &i64,
    id: &[u8],
    number: u32,
    hash: &str,
) -> Result<Vec<Row>, Error>
    ensures { Reads S.Store IsStore conn.old conn.new
        (λ trees rows. rows.items ≡ map shown_revision
        (filter (is_revision_of db.now id.now (record { number = number; hash = hash.now })) (trees revs_tree))) result }
{
    query(
        conn,
        "SELECT n, hash, parent, held, del, body FROM revs WHERE db = ?1 AND id = ?2 AND n = ?3 AND hash = ?4",
        params![db, id, number, hash],
    )
}

/// Returns the rows of all known revisions of a document without their bodies, in some order.
pub fn outline_rows<S: Alter>(
    conn: &mut Connection<S>,
    db: &i64,
    id: &[u8],
) -> Result<Vec<Row>, Error>
    ensures { Reads S.Store IsStore conn.old conn.new
        (λ trees rows. IsPermutation (map shown_outline (filter (is_row_of_document db.now id.now) (trees revs_tree))) rows.items) result }
{
    query(
        conn,
        "SELECT n, hash, parent, held, del FROM revs WHERE db = ?1 AND id = ?2",
        params![db, id],
    )
}

/// Returns the rows of all known revisions of a document, each with its number and its hash alone, in
/// some order. SQLite finds both in the table's key, so it reads no row of the table itself.
pub fn hash_rows<S: Alter>(conn: &mut Connection<S>, db: &i64, id: &[u8]) -> Result<Vec<Row>, Error>
    ensures { Reads S.Store IsStore conn.old conn.new
        (λ trees rows. IsPermutation (map shown_hash (filter (is_row_of_document db.now id.now) (trees revs_tree))) rows.items) result }
{
    query(
        conn,
        "SELECT n, hash FROM revs WHERE db = ?1 AND id = ?2",
        params![db, id],
    )
}
