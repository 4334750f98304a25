//! How many rows the tables of a connection have.

ghost use Rattle.std.specs.Prelude.{◌≡◌, ◌∷◌, [], ℕ, Some, length, min};
ghost use Rattle.tables.specs.Calls.{Reads};
ghost use Rattle.tables.specs.Listings.{shown_count};
ghost use Rattle.file_check.specs.Refusals.{RefusesOnly};
ghost use Rattle.file_check.specs.Counting.{CountsRows, row_count};
ghost use Rattle.file_check.specs.Inspecting.{Inspects};
ghost use Rattle.file_check.specs.inner.Counted.{HasOurSchema, count_statement, counted_tree};

use crate::finding::{CheckFault, Counts};
use crate::layout::cells::count_at;
use sqlite::{Alter, Connection, Error, Row};
use tables::statement::query;

/// A table whose rows are counted.
#[derive(Clone, Copy, Debug, PartialEq, Eq)]
pub enum Counted {
    /// `dbs`, the databases.
    Databases = 1,
    /// `docs`, the documents.
    Documents = 2,
    /// `revs`, the known revisions.
    Revisions = 3,
    /// `locals`, the local documents.
    Locals = 4,
    /// `decls`, the indexes.
    Declarations = 5,
    /// `entries`, the entries of indexes.
    Entries = 6,
}

/// Counts the rows of each table.
pub(crate) fn count_rows<S: Alter>(conn: &mut Connection<S>) -> Result<Counts, CheckFault>
    ensures { Inspects S.Store HasOurSchema conn.old conn.new CountsRows result }
{
    let databases = count(conn, Counted::Databases)?;
    let documents = count(conn, Counted::Documents)?;
    let revisions = count(conn, Counted::Revisions)?;
    let locals = count(conn, Counted::Locals)?;
    let indexes = count(conn, Counted::Declarations)?;
    let entries = count(conn, Counted::Entries)?;
    Ok(Counts {
        databases,
        documents,
        revisions,
        locals,
        indexes,
        entries,
    })
}

/// Counts the rows of a table.
fn count<S: Alter>(conn: &mut Connection<S>, table: Counted) -> Result<u64, CheckFault>
    ensures { Inspects S.Store HasOurSchema conn.old conn.new (λ trees count. count ≡ row_count (trees (counted_tree table))) result }
{
    let rows = count_shown(conn, table)?;
    match read_count(&rows) {
        Some(count) => Ok(count),
        None => Err(CheckFault::Sqlite(Error::QueryReturnedNoRows)),
    }
}

/// Reads the number that a query shows in its one row.
fn read_count(rows: &[Row]) -> Option<u64>
    ensures { (n : ℕ) → rows.now ≡ shown_count n ∷ [] → result ≡ Some (min n 9223372036854775807) }
{
    match rows {
        [row] => count_at(row, 0),
        _ => None,
    }
}

/// Returns one row, which tells how many rows a table has.
fn count_shown<S: Alter>(conn: &mut Connection<S>, table: Counted) -> Result<Vec<Row>, Error>
    ensures reads { Reads S.Store HasOurSchema conn.old conn.new
        (λ trees rows. rows.items ≡ shown_count (length (trees (counted_tree table))) ∷ []) result }
    ensures failed { RefusesOnly S.Store conn.old conn.new result }
{
    query(conn, count_text(table), &[])
}

/// Returns the statement that counts the rows of a table.
fn count_text(table: Counted) -> &'static str
    ensures { result.now ≡ count_statement table }
{
    match table {
        Counted::Databases => "SELECT count(*) FROM dbs",
        Counted::Documents => "SELECT count(*) FROM docs",
        Counted::Revisions => "SELECT count(*) FROM revs",
        Counted::Locals => "SELECT count(*) FROM locals",
        Counted::Declarations => "SELECT count(*) FROM decls",
        Counted::Entries => "SELECT count(*) FROM entries",
    }
}
