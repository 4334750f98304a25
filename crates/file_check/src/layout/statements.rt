//! The statements of a check. Each answers whatever its rows say, where their cells are those of the columns, and
//! fails only where the library refuses it.

ghost use Rattle.std.specs.Prelude.{◌≡◌, IsPermutation, filter, map, None, Some};
ghost use Rattle.tables.specs.Calls.{Reads};
ghost use Rattle.file_check.specs.Refusals.{RefusesOnly};
ghost use Rattle.tables.specs.Rows.{has_number, is_row_of_document, listed_document, shown_revision};
ghost use Rattle.tables.specs.Schema.{dbs_tree, docs_tree, meta_tree, revs_tree};
ghost use Rattle.file_check.specs.Tables.{IsShaped, is_at_sequence, tree_of};
ghost use Rattle.file_check.specs.inner.Queries.{is_numbered, is_stored, shown_length, shown_numbered, shown_sequence, shown_stored};
ghost use Rattle.file_check.specs.inner.Statements.{behind_statement, first_statement};
ghost use Rattle.file_check.specs.inner.Walks.{next_rows};

use crate::layout::checked::Checked;
use sqlite::{Alter, Connection, Error, Row, params};
use tables::statement::query;

/// Returns the rows of `meta`, in some order.
pub(crate) fn version_rows<S: Alter>(conn: &mut Connection<S>) -> Result<Vec<Row>, Error>
    ensures reads { Reads S.Store IsShaped conn.old conn.new (λ trees rows. IsPermutation (trees meta_tree) rows.items) result }
    ensures failed { RefusesOnly S.Store conn.old conn.new result }
{
    query(conn, "SELECT rowid, version FROM meta", &[])
}

/// Returns the next row of a table, if there is one: that behind the last number, or the first one.
pub(crate) fn next_row<S: Alter>(
    conn: &mut Connection<S>,
    table: Checked,
    last: &Option<i64>,
) -> Result<Vec<Row>, Error>
    ensures reads { Reads S.Store IsShaped conn.old conn.new (λ trees rows. rows.items ≡ next_rows (λ r. r) last.now (trees (tree_of table))) result }
    ensures failed { RefusesOnly S.Store conn.old conn.new result }
{
    match last {
        Some(last) => row_behind(conn, table, last),
        None => first_row(conn, table),
    }
}

/// Returns the first row of a table, if there is one.
fn first_row<S: Alter>(conn: &mut Connection<S>, table: Checked) -> Result<Vec<Row>, Error>
    ensures reads { Reads S.Store IsShaped conn.old conn.new (λ trees rows. rows.items ≡ next_rows (λ r. r) None (trees (tree_of table))) result }
    ensures failed { RefusesOnly S.Store conn.old conn.new result }
{
    query(conn, first_text(table), &[])
}

/// Returns the first row of a table behind this number, if there is one.
fn row_behind<S: Alter>(
    conn: &mut Connection<S>,
    table: Checked,
    last: &i64,
) -> Result<Vec<Row>, Error>
    ensures reads { Reads S.Store IsShaped conn.old conn.new (λ trees rows. rows.items ≡ next_rows (λ r. r) (Some last.now) (trees (tree_of table))) result }
    ensures failed { RefusesOnly S.Store conn.old conn.new result }
{
    query(conn, behind_text(table), params![last])
}

/// Returns the statement that shows the first row of a table.
fn first_text(table: Checked) -> &'static str
    ensures { result.now ≡ first_statement table }
{
    match table {
        Checked::Databases => "SELECT num, NULL, name, sec, seq FROM dbs ORDER BY num LIMIT 1",
        Checked::Documents => {
            "SELECT rowid, db, id, seq, winner, del FROM docs ORDER BY rowid LIMIT 1"
        }
        Checked::Revisions => {
            "SELECT rowid, db, id, n, hash, parent, held, del, body FROM revs ORDER BY rowid LIMIT 1"
        }
        Checked::Locals => "SELECT rowid, db, id, n, body FROM locals ORDER BY rowid LIMIT 1",
    }
}

/// Returns the statement that shows the first row of a table behind a number.
fn behind_text(table: Checked) -> &'static str
    ensures { result.now ≡ behind_statement table }
{
    match table {
        Checked::Databases => {
            "SELECT num, NULL, name, sec, seq FROM dbs WHERE num > ?1 ORDER BY num LIMIT 1"
        }
        Checked::Documents => {
            "SELECT rowid, db, id, seq, winner, del FROM docs WHERE rowid > ?1 ORDER BY rowid LIMIT 1"
        }
        Checked::Revisions => {
            "SELECT rowid, db, id, n, hash, parent, held, del, body FROM revs WHERE rowid > ?1 ORDER BY rowid LIMIT 1"
        }
        Checked::Locals => {
            "SELECT rowid, db, id, n, body FROM locals WHERE rowid > ?1 ORDER BY rowid LIMIT 1"
        }
    }
}

/// Returns the sequence of the database of this number, in one row or none.
pub(crate) fn length_rows<S: Alter>(conn: &mut Connection<S>, db: &i64) -> Result<Vec<Row>, Error>
    ensures reads { Reads S.Store IsShaped conn.old conn.new (λ trees rows. rows.items ≡ map shown_length (filter (has_number db.now) (trees dbs_tree))) result }
    ensures failed { RefusesOnly S.Store conn.old conn.new result }
{
    query(conn, "SELECT seq FROM dbs WHERE num = ?1", params![db])
}

/// Returns what a list shows of the document of this id, in one row or none.
pub(crate) fn one_document_rows<S: Alter>(
    conn: &mut Connection<S>,
    db: &i64,
    id: &[u8],
) -> Result<Vec<Row>, Error>
    ensures reads { Reads S.Store IsShaped conn.old conn.new
        (λ trees rows. rows.items ≡ map listed_document (filter (is_row_of_document db.now id.now) (trees docs_tree))) result }
    ensures failed { RefusesOnly S.Store conn.old conn.new result }
{
    query(
        conn,
        "SELECT id, seq, winner, del FROM docs WHERE db = ?1 AND id = ?2",
        params![db, id],
    )
}

/// Returns the sequences of the documents of a database that are at this one, in some order.
pub(crate) fn sequence_rows<S: Alter>(
    conn: &mut Connection<S>,
    db: &i64,
    sequence: &i64,
) -> Result<Vec<Row>, Error>
    ensures reads { Reads S.Store IsShaped conn.old conn.new
        (λ trees rows. IsPermutation (map shown_sequence (filter (is_at_sequence db.now sequence.now) (trees docs_tree))) rows.items) result }
    ensures failed { RefusesOnly S.Store conn.old conn.new result }
{
    query(
        conn,
        "SELECT seq FROM docs WHERE db = ?1 AND seq = ?2",
        params![db, sequence],
    )
}

/// Returns the rows of the known revisions of a document, in some order.
pub(crate) fn history_rows<S: Alter>(
    conn: &mut Connection<S>,
    db: &i64,
    id: &[u8],
) -> Result<Vec<Row>, Error>
    ensures reads { Reads S.Store IsShaped conn.old conn.new
        (λ trees rows. IsPermutation (map shown_revision (filter (is_row_of_document db.now id.now) (trees revs_tree))) rows.items) result }
    ensures failed { RefusesOnly S.Store conn.old conn.new result }
{
    query(
        conn,
        "SELECT n, hash, parent, held, del, body FROM revs WHERE db = ?1 AND id = ?2",
        params![db, id],
    )
}

/// Returns the numbers of the rows of one revision of a document, in some order.
pub(crate) fn stored_rows<S: Alter>(
    conn: &mut Connection<S>,
    db: &i64,
    id: &[u8],
    number: &i64,
    hash: &str,
) -> Result<Vec<Row>, Error>
    ensures reads { Reads S.Store IsShaped conn.old conn.new
        (λ trees rows. IsPermutation (map shown_stored (filter (is_stored db.now id.now number.now hash.now) (trees revs_tree))) rows.items) result }
    ensures failed { RefusesOnly S.Store conn.old conn.new result }
{
    query(
        conn,
        "SELECT n FROM revs WHERE db = ?1 AND id = ?2 AND n = ?3 AND hash = ?4",
        params![db, id, number, hash],
    )
}

/// Returns the hashes of the known revisions of a document that have this number, in some order.
pub(crate) fn hash_rows<S: Alter>(
    conn: &mut Connection<S>,
    db: &i64,
    id: &[u8],
    number: &i64,
) -> Result<Vec<Row>, Error>
    ensures reads { Reads S.Store IsShaped conn.old conn.new
        (λ trees rows. IsPermutation (map shown_numbered (filter (is_numbered db.now id.now number.now) (trees revs_tree))) rows.items) result }
    ensures failed { RefusesOnly S.Store conn.old conn.new result }
{
    query(
        conn,
        "SELECT hash FROM revs WHERE db = ?1 AND id = ?2 AND n = ?3",
        params![db, id, number],
    )
}
