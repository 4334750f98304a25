//! The statements of the check of indexes.

ghost use Rattle.std.specs.Prelude.{◌≡◌, ◌∷◌, [], filter, map, None, Some};
ghost use Rattle.sqlite_value.specs.Order.{column};
ghost use Rattle.tables.specs.Calls.{Reads};
ghost use Rattle.tables.specs.Rows.{has_number};
ghost use Rattle.tables.specs.Schema.{decls_tree, entries_tree};
ghost use Rattle.index.specs.Layout.{HasIndexRows};
ghost use Rattle.index.specs.Rows.{is_at_home, is_entry_of};
ghost use Rattle.file_check.specs.inner.IndexRows.{IsReady, indexed_tree, shown_index, shown_next};
ghost use Rattle.file_check.specs.inner.Statements.{behind_indexed, first_indexed};
ghost use Rattle.file_check.specs.inner.Walks.{next_rows};

use crate::indexes::indexed::Indexed;
use sqlite::{Alter, Connection, Error, Row, params};
use tables::statement::query;

/// Returns what is looked at of the next row of a table, if there is one: that behind the last number, or the first
/// one.
pub(crate) fn next_row<S: Alter>(
    conn: &mut Connection<S>,
    table: Indexed,
    last: &Option<i64>,
) -> Result<Vec<Row>, Error>
    ensures { Reads S.Store (IsReady table) conn.old conn.new
        (λ trees rows. rows.items ≡ next_rows (shown_next table) last.now (trees (indexed_tree table))) result }
{
    match last {
        Some(last) => row_behind(conn, table, last),
        None => first_row(conn, table),
    }
}

/// Returns the same of the first row of a table, if there is one.
fn first_row<S: Alter>(conn: &mut Connection<S>, table: Indexed) -> Result<Vec<Row>, Error>
    ensures { Reads S.Store (IsReady table) conn.old conn.new
        (λ trees rows. rows.items ≡ next_rows (shown_next table) None (trees (indexed_tree table))) result }
{
    query(conn, first_text(table), &[])
}

/// Returns the same of the first row of a table behind this number, if there is one.
fn row_behind<S: Alter>(
    conn: &mut Connection<S>,
    table: Indexed,
    last: &i64,
) -> Result<Vec<Row>, Error>
    ensures { Reads S.Store (IsReady table) conn.old conn.new
        (λ trees rows. rows.items ≡ next_rows (shown_next table) (Some last.now) (trees (indexed_tree table))) result }
{
    query(conn, behind_text(table), params![last])
}

/// Returns the statement that shows the first row of a table.
fn first_text(table: Indexed) -> &'static str
    ensures { result.now ≡ first_indexed table }
{
    match table {
        Indexed::Declarations => {
            "SELECT num, db, ddoc, name, fields FROM decls ORDER BY num LIMIT 1"
        }
        Indexed::Documents => "SELECT rowid, db, id FROM docs ORDER BY rowid LIMIT 1",
        Indexed::Entries => "SELECT rowid, decl, k, id FROM entries ORDER BY rowid LIMIT 1",
    }
}

/// Returns the statement that shows the first row of a table behind a number.
fn behind_text(table: Indexed) -> &'static str
    ensures { result.now ≡ behind_indexed table }
{
    match table {
        Indexed::Declarations => {
            "SELECT num, db, ddoc, name, fields FROM decls WHERE num > ?1 ORDER BY num LIMIT 1"
        }
        Indexed::Documents => {
            "SELECT rowid, db, id FROM docs WHERE rowid > ?1 ORDER BY rowid LIMIT 1"
        }
        Indexed::Entries => {
            "SELECT rowid, decl, k, id FROM entries WHERE rowid > ?1 ORDER BY rowid LIMIT 1"
        }
    }
}

/// Returns the entry of an index that has this key and this id, if there is one: the id.
pub(crate) fn entry_rows<S: Alter>(
    conn: &mut Connection<S>,
    declaration: &i64,
    key: &[u8],
    id: &[u8],
) -> Result<Vec<Row>, Error>
    ensures { Reads S.Store HasIndexRows conn.old conn.new
        (λ trees rows. rows.items ≡ map (λ e. column e 3 ∷ []) (filter (is_entry_of declaration.now key.now id.now) (trees entries_tree))) result }
{
    query(
        conn,
        "SELECT id FROM entries WHERE decl = ?1 AND k = ?2 AND id = ?3",
        params![declaration, key, id],
    )
}

/// Returns what names the index of the declaration of this number, if there is one: the number of the
/// database, the design document and the name.
pub(crate) fn index_rows<S: Alter>(
    conn: &mut Connection<S>,
    number: &i64,
) -> Result<Vec<Row>, Error>
    ensures { Reads S.Store HasIndexRows conn.old conn.new
        (λ trees rows. rows.items ≡ map shown_index (filter (has_number number.now) (trees decls_tree))) result }
{
    query(
        conn,
        "SELECT db, ddoc, name FROM decls WHERE num = ?1",
        params![number],
    )
}

/// Returns the same of each index of a database, by the numbers of their declarations.
pub(crate) fn index_rows_of<S: Alter>(conn: &mut Connection<S>, db: &i64) -> Result<Vec<Row>, Error>
    ensures { Reads S.Store HasIndexRows conn.old conn.new (λ trees rows. rows.items ≡ map shown_index (filter (is_at_home db.now) (trees decls_tree))) result }
{
    query(
        conn,
        "SELECT db, ddoc, name FROM decls WHERE db = ?1 ORDER BY num",
        params![db],
    )
}
