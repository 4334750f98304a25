//! The tables, each row by row.

ghost use Rattle.std.specs.Prelude.{◌≡◌, ◌↔◌, ◌∷◌, [], IsTrue, MatchOption, Some};
ghost use Rattle.tables.specs.Layout.{version_row};
ghost use Rattle.tables.specs.Presence.{version_in};
ghost use Rattle.tables.specs.Rows.{number_of};
ghost use Rattle.tables.specs.Schema.{meta_tree};
ghost use Rattle.tables.specs.declared.meta.FileVersion.{FileVersion};
ghost use Rattle.file_check.specs.Inspecting.{Goes, Inspects};
ghost use Rattle.file_check.specs.Tables.{AreTablesChecked, HasSoundDatabases, HasSoundDocuments, HasSoundLocals};
ghost use Rattle.file_check.specs.Tables.{HasSoundRevisions, IsShaped, IsSoundRow, table_of_finding, tree_of};
ghost use Rattle.file_check.specs.inner.Queries.{AreRowsChecked, HasCells, IsBefore, IsThisVersion, Judges};
ghost use Rattle.file_check.specs.inner.Walks.{IsRowStep, IsStep};

use crate::finding::{CheckFault, Finding, Table, Wrong};
use crate::indexes::step::{Step, next_number};
use crate::layout::cells::count_at;
use crate::layout::checked::Checked;
use crate::layout::databases::check_database;
use crate::layout::documents::check_document;
use crate::layout::finding_rows::whole_or_zero;
use crate::layout::locals::check_local;
use crate::layout::revisions::check_revision;
use crate::layout::statements::{next_row, version_rows};
use sqlite::{Alter, Connection, Row};
use std::alloc::Global;

/// Checks one row of a table.
fn check_row<S: Alter>(
    alloc: Global,
    conn: &mut Connection<S>,
    table: Checked,
    row: &Row,
) -> Result<Option<Wrong>, CheckFault>
    ensures { Goes S.Store IsShaped conn.old conn.new
        (λ trees found. HasCells table row.now → IsBefore table trees → Judges (IsSoundRow table trees row.now) found) result }
{
    match table {
        Checked::Databases => check_database(alloc, conn, row),
        Checked::Documents => check_document(alloc, conn, row),
        Checked::Revisions => check_revision(alloc, conn, row),
        Checked::Locals => check_local(alloc, conn, row),
    }
}

/// Names the row that is wrong.
fn find_wrong(table: Checked, row: &Row, wrong: Wrong) -> Finding
    ensures of_table { result.table ≡ table_of_finding table }
    ensures numbered { result.key ≡ number_of row.now }
{
    Finding {
        table: match table {
            Checked::Databases => Table::Databases,
            Checked::Documents => Table::Documents,
            Checked::Revisions => Table::Revisions,
            Checked::Locals => Table::Locals,
        },
        key: whole_or_zero(row, 0),
        wrong,
    }
}

/// Steps over one row of a table.
fn step_over<S: Alter>(
    alloc: Global,
    conn: &mut Connection<S>,
    table: Checked,
    row: &Row,
) -> Result<Step, CheckFault>
    ensures { Goes S.Store IsShaped conn.old conn.new
        (λ trees step. HasCells table row.now → IsBefore table trees → IsRowStep (table_of_finding table) (IsSoundRow table trees) row.now step) result }
{
    let found = check_row(alloc, conn, table, row)?;
    match found {
        Some(wrong) => Ok(Step::Found(find_wrong(table, row, wrong))),
        None => Ok(Step::Next(whole_or_zero(row, 0))),
    }
}

/// Checks the next row of a table.
fn check_next_row<S: Alter>(
    alloc: Global,
    conn: &mut Connection<S>,
    table: Checked,
    last: &Option<i64>,
) -> Result<Step, CheckFault>
    ensures { Inspects S.Store IsShaped conn.old conn.new
        (λ trees step. IsBefore table trees → IsStep (table_of_finding table) (trees (tree_of table)) (IsSoundRow table trees) last.now step) result }
{
    let rows = next_row(conn, table, last)?;
    match rows.first() {
        Some(row) => step_over(alloc, conn, table, row),
        None => Ok(Step::Done),
    }
}

/// Checks all rows of a table, one at a time.
fn check_table<S: Alter>(
    alloc: Global,
    conn: &mut Connection<S>,
    table: Checked,
) -> Result<Option<Finding>, CheckFault>
    ensures { Inspects S.Store IsShaped conn.old conn.new (λ trees found. IsBefore table trees → AreRowsChecked table trees found) result }
{
    let mut last = None;
    for _row in 0..u64::MAX {
        let step = check_next_row(alloc, conn, table, &last)?;
        match step {
            Step::Next(_number) => last = next_number(&step),
            Step::Found(finding) => return Ok(Some(finding)),
            Step::Done => return Ok(None),
        }
    }
    Err(CheckFault::Memory)
}

/// Tells what is wrong with the rows of `meta`, if anything is.
fn judge_version(rows: &[Row]) -> Option<Finding>
    ensures { MatchOption result (IsThisVersion rows.now) (λ f. (f.table ≡ Table.Meta) × (¬ IsThisVersion rows.now)) }
{
    if are_this_version(rows) {
        return None;
    }
    Some(Finding {
        table: Table::Meta,
        key: 0,
        wrong: wrong_version(rows),
    })
}

/// Tells what is wrong with the rows of `meta`, where they are not those of this version: they are those of the
/// first one, or of none.
fn wrong_version(rows: &[Row]) -> Wrong
    ensures { result ≡ Wrong.First ↔ version_in rows.now ≡ FileVersion.First }
{
    match rows {
        [row] if whole_or_zero(row, 1) == 1 => Wrong::First,
        _ => Wrong::Layout,
    }
}

/// Tells whether the rows are the one row of this version.
fn are_this_version(rows: &[Row]) -> bool
    ensures { IsTrue result ↔ IsThisVersion rows.now }
{
    match rows {
        [row] => count_at(row, 0) == Some(1) && count_at(row, 1) == Some(2),
        _ => false,
    }
}

/// Checks the one row of the version.
fn check_version<S: Alter>(conn: &mut Connection<S>) -> Result<Option<Finding>, CheckFault>
    ensures { Inspects S.Store IsShaped conn.old conn.new (AreTablesChecked (λ trees. trees meta_tree ≡ version_row 2 ∷ [])) result }
{
    let rows = version_rows(conn)?;
    Ok(judge_version(&rows))
}

/// Checks all rows of a table, where nothing was wrong before.
fn check_next<S: Alter>(
    alloc: Global,
    conn: &mut Connection<S>,
    found: Option<Finding>,
    table: Checked,
) -> Result<Option<Finding>, CheckFault>
    ensures { Goes S.Store IsShaped conn.old conn.new
        (λ trees all. MatchOption found (IsBefore table trees → AreRowsChecked table trees all) (λ f. all ≡ Some f)) result }
{
    match found {
        Some(found) => Ok(Some(found)),
        None => check_table(alloc, conn, table),
    }
}

/// Checks the version and the databases.
fn check_databases<S: Alter>(
    alloc: Global,
    conn: &mut Connection<S>,
) -> Result<Option<Finding>, CheckFault>
    ensures { Inspects S.Store IsShaped conn.old conn.new (AreTablesChecked HasSoundDatabases) result }
{
    let found = check_version(conn)?;
    check_next(alloc, conn, found, Checked::Databases)
}

/// Checks these, and the revisions.
fn check_revisions<S: Alter>(
    alloc: Global,
    conn: &mut Connection<S>,
) -> Result<Option<Finding>, CheckFault>
    ensures { Inspects S.Store IsShaped conn.old conn.new (AreTablesChecked HasSoundRevisions) result }
{
    let found = check_databases(alloc, conn)?;
    check_next(alloc, conn, found, Checked::Revisions)
}

/// Checks these, and the documents.
fn check_documents<S: Alter>(
    alloc: Global,
    conn: &mut Connection<S>,
) -> Result<Option<Finding>, CheckFault>
    ensures { Inspects S.Store IsShaped conn.old conn.new (AreTablesChecked HasSoundDocuments) result }
{
    let found = check_revisions(alloc, conn)?;
    check_next(alloc, conn, found, Checked::Documents)
}

/// Checks these, and the local documents.
pub(crate) fn check_locals<S: Alter>(
    alloc: Global,
    conn: &mut Connection<S>,
) -> Result<Option<Finding>, CheckFault>
    ensures { Inspects S.Store IsShaped conn.old conn.new (AreTablesChecked HasSoundLocals) result }
{
    let found = check_documents(alloc, conn)?;
    check_next(alloc, conn, found, Checked::Locals)
}
