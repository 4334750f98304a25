//! The rows of the declarations.

ghost use Rattle.std.specs.Prelude.{◌≡◌, not, filter, map};
ghost use Rattle.index.specs.Layout.{AreDeclarationRows, HasIndexRows};
ghost use Rattle.index.specs.Rows.{declaration_cells, is_at_home, is_declaration_of, shown_declaration};
ghost use Rattle.tables.specs.Calls.{Alters, Reads, ReadsInside};
ghost use Rattle.tables.specs.Rows.{has_number, with_cells};
ghost use Rattle.tables.specs.Schema.{decls_tree};

use sqlite::{Alter, Connection, Error, Row, Transaction, params};
use tables::statement::{change, query, query_in};

/// Returns the rows of the indexes of a database, by their numbers: the number, the name and the fields.
pub fn rows_of_database<S: Alter>(tx: &mut Transaction<'_, S>, db: &i64) -> Result<Vec<Row>, Error>
    ensures same_reference { tx.new.conn.ghost_name ≡ tx.old.conn.ghost_name }
    ensures reads { ReadsInside S.Store HasIndexRows tx.old.conn.now tx.new.conn.now
        (λ trees rows. rows.items ≡ map shown_declaration (filter (is_at_home db.now) (trees decls_tree))) result }
{
    query_in(
        tx,
        "SELECT num, name, fields FROM decls WHERE db = ?1 ORDER BY num",
        params![db],
    )
}

/// Returns the row of the index of this name that a design document declares, if there is one: the
/// number, the name and the fields.
pub fn rows_of_index<S: Alter>(
    conn: &mut Connection<S>,
    db: &i64,
    design: &[u8],
    name: &[u8],
) -> Result<Vec<Row>, Error>
    ensures { Reads S.Store HasIndexRows conn.old conn.new
        (λ trees rows. rows.items ≡ map shown_declaration (filter (is_declaration_of db.now design.now name.now) (trees decls_tree))) result }
{
    query(
        conn,
        "SELECT num, name, fields FROM decls WHERE db = ?1 AND ddoc = ?2 AND name = ?3",
        params![db, design, name],
    )
}

/// Puts in the row of an index under the next number, behind those that are there.
pub fn insert_declaration<S: Alter>(
    tx: &mut Transaction<'_, S>,
    db: &i64,
    design: &[u8],
    name: &[u8],
    fields: &str,
) -> Result<(), Error>
    ensures same_reference { tx.new.conn.ghost_name ≡ tx.old.conn.ghost_name }
    ensures alters { Alters S.Store decls_tree AreDeclarationRows
        (λ rows. with_cells rows (declaration_cells db.now design.now name.now fields.now)) tx.old.conn.now tx.new.conn.now result }
{
    change(
        tx,
        "INSERT INTO decls (db, ddoc, name, fields) VALUES (?1, ?2, ?3, ?4)",
        params![db, design, name, fields],
    )
}

/// Takes out the row of the declaration of this number.
pub fn delete_declaration<S: Alter>(tx: &mut Transaction<'_, S>, number: &i64) -> Result<(), Error>
    ensures same_reference { tx.new.conn.ghost_name ≡ tx.old.conn.ghost_name }
    ensures alters { Alters S.Store decls_tree AreDeclarationRows
        (λ rows. filter (λ r. not (has_number number.now r)) rows) tx.old.conn.now tx.new.conn.now result }
{
    change(tx, "DELETE FROM decls WHERE num = ?1", params![number])
}

/// Takes out the rows of all indexes of a database.
pub fn clear_declarations<S: Alter>(tx: &mut Transaction<'_, S>, db: &i64) -> Result<(), Error>
    ensures same_reference { tx.new.conn.ghost_name ≡ tx.old.conn.ghost_name }
    ensures alters { Alters S.Store decls_tree AreDeclarationRows
        (λ rows. filter (λ r. not (is_at_home db.now r)) rows) tx.old.conn.now tx.new.conn.now result }
{
    change(tx, "DELETE FROM decls WHERE db = ?1", params![db])
}
