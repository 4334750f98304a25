//! The rows of the databases.

ghost use Rattle.std.specs.Prelude.{◌≡◌, not, pos, filter, map};
ghost use Rattle.sqlite_keyed.specs.Lists.{sort_by};
ghost use Rattle.tables.specs.Calls.{Alters, Reads};
ghost use Rattle.tables.specs.Layout.{AreDatabaseRows, IsStore};
ghost use Rattle.tables.specs.Rows.{rows_at_sequence, by_name, database_cells, has_number, is_named};
ghost use Rattle.tables.specs.Rows.{rows_with_security, shown_database, shown_name, with_cells};
ghost use Rattle.tables.specs.Schema.{dbs_tree};

use crate::statement::{change, query};
use sqlite::{Alter, Connection, Error, Row, Transaction, params};

/// Returns the row of the database of this name, if there is one: its number, its security object
/// and its sequence.
pub fn database_rows<S: Alter>(conn: &mut Connection<S>, name: &[u8]) -> Result<Vec<Row>, Error>
    ensures { Reads S.Store IsStore conn.old conn.new (λ trees rows. rows.items ≡ map shown_database (filter (is_named name.now) (trees dbs_tree))) result }
{
    query(
        conn,
        "SELECT num, sec, seq FROM dbs WHERE name = ?1",
        params![name],
    )
}

/// Puts in the row of a new database, under the next number and at sequence 0.
pub fn insert_database<S: Alter>(
    tx: &mut Transaction<'_, S>,
    name: &[u8],
    security: &str,
) -> Result<(), Error>
    ensures same_reference { tx.new.conn.ghost_name ≡ tx.old.conn.ghost_name }
    ensures alters { Alters S.Store dbs_tree AreDatabaseRows
        (λ rows. with_cells rows (database_cells name.now security.now (pos 0))) tx.old.conn.now tx.new.conn.now result }
{
    change(
        tx,
        "INSERT INTO dbs (name, sec, seq) VALUES (?1, ?2, 0)",
        params![name, security],
    )
}

/// Takes out the row of the database of this number.
pub fn delete_database<S: Alter>(tx: &mut Transaction<'_, S>, number: &i64) -> Result<(), Error>
    ensures same_reference { tx.new.conn.ghost_name ≡ tx.old.conn.ghost_name }
    ensures alters { Alters S.Store dbs_tree AreDatabaseRows (λ rows. filter (λ r. not (has_number number.now r)) rows) tx.old.conn.now tx.new.conn.now result }
{
    change(tx, "DELETE FROM dbs WHERE num = ?1", params![number])
}

/// Gives the database of this number another security object.
pub fn secure_database<S: Alter>(
    tx: &mut Transaction<'_, S>,
    number: &i64,
    security: &str,
) -> Result<(), Error>
    ensures same_reference { tx.new.conn.ghost_name ≡ tx.old.conn.ghost_name }
    ensures alters { Alters S.Store dbs_tree AreDatabaseRows (rows_with_security number.now security.now) tx.old.conn.now tx.new.conn.now result }
{
    change(
        tx,
        "UPDATE dbs SET sec = ?2 WHERE num = ?1",
        params![number, security],
    )
}

/// Gives the database of this number another sequence.
pub fn advance_database<S: Alter>(
    tx: &mut Transaction<'_, S>,
    number: &i64,
    sequence: &i64,
) -> Result<(), Error>
    ensures same_reference { tx.new.conn.ghost_name ≡ tx.old.conn.ghost_name }
    ensures alters { Alters S.Store dbs_tree AreDatabaseRows (rows_at_sequence number.now sequence.now) tx.old.conn.now tx.new.conn.now result }
{
    change(
        tx,
        "UPDATE dbs SET seq = ?2 WHERE num = ?1",
        params![number, sequence],
    )
}

/// Returns the names of all databases, in the order of their bytes.
pub fn name_rows<S: Alter>(conn: &mut Connection<S>) -> Result<Vec<Row>, Error>
    ensures { Reads S.Store IsStore conn.old conn.new (λ trees rows. rows.items ≡ map shown_name (sort_by by_name (trees dbs_tree))) result }
{
    query(conn, "SELECT name FROM dbs ORDER BY name", &[])
}
