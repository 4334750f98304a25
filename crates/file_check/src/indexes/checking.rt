//! The check of the rows of a table, one after another.

ghost use Rattle.std.specs.Prelude.{◌≡◌};
ghost use Rattle.sqlite_value.specs.Order as order;
ghost use Rattle.file_check.specs.Checks.{Checks};
ghost use Rattle.file_check.specs.Indexes.{AreChecked, IsAnswer};
ghost use Rattle.file_check.specs.inner.IndexRows.{IsNextRow, IsOwnRow, IsReady, indexed_table, indexed_tree};
ghost use Rattle.file_check.specs.inner.Walks.{IsRowStep, IsStep};

use crate::finding::{CheckFault, Finding, Table, Wrong};
use crate::indexes::cells::whole_in;
use crate::indexes::declared::is_declared;
use crate::indexes::entered::is_due;
use crate::indexes::followed::is_followed;
use crate::indexes::indexed::Indexed;
use crate::indexes::statements::next_row;
use crate::indexes::step::{Step, next_number};
use sqlite::{Alter, Connection, Row};
use std::alloc::Global;

/// Checks all rows of a table, one at a time: that each row of a declaration says what the winner of its design
/// document declares, that the rows of indexes follow each document of all databases, or that each row of an entry
/// is that of a declared index, at the key of a document that queries see.
pub(crate) fn check_rows<S: Alter>(
    alloc: Global,
    conn: &mut Connection<S>,
    table: Indexed,
) -> Result<Option<Finding>, CheckFault>
    ensures { Checks S.Store (IsReady table) conn.old conn.new
        (λ trees found. AreChecked (indexed_table table) (trees (indexed_tree table)) (IsOwnRow table trees) found) result }
{
    let mut last = None;
    for _row in 0..u64::MAX {
        let step = check_next_row(alloc, conn, table, &last)?;
        match step {
            Step::Next(_number) => last = next_number(&step),
            Step::Found(finding) => return Ok(Some(finding)),
            Step::Done => return Ok(None),
        }
    }
    Err(CheckFault::Memory)
}

/// Checks the next row of a table.
fn check_next_row<S: Alter>(
    alloc: Global,
    conn: &mut Connection<S>,
    table: Indexed,
    last: &Option<i64>,
) -> Result<Step, CheckFault>
    ensures { Checks S.Store (IsReady table) conn.old conn.new
        (λ trees step. IsStep (indexed_table table) (trees (indexed_tree table)) (IsOwnRow table trees) last.now step) result }
{
    let rows = next_row(conn, table, last)?;
    match rows.first() {
        Some(row) => check_row(alloc, conn, table, row),
        None => Ok(Step::Done),
    }
}

/// Checks a row of a table.
fn check_row<S: Alter>(
    alloc: Global,
    conn: &mut Connection<S>,
    table: Indexed,
    row: &Row,
) -> Result<Step, CheckFault>
    ensures { (r : order.Row)
        → Checks S.Store (IsNextRow table row.now r) conn.old conn.new (λ trees step. IsRowStep (indexed_table table) (IsOwnRow table trees) r step) result }
{
    let number = whole_in(row, 0);
    if is_own(alloc, conn, table, row)? {
        return Ok(Step::Next(number));
    }
    Ok(Step::Found(Finding {
        table: table_of(table),
        key: number,
        wrong: wrong_of(table),
    }))
}

/// Tells whether a row of a table is as it is to be.
fn is_own<S: Alter>(
    alloc: Global,
    conn: &mut Connection<S>,
    table: Indexed,
    row: &Row,
) -> Result<bool, CheckFault>
    ensures { (r : order.Row) → Checks S.Store (IsNextRow table row.now r) conn.old conn.new (λ trees is. IsAnswer (IsOwnRow table trees r) is) result }
{
    match table {
        Indexed::Declarations => is_declared(alloc, conn, row),
        Indexed::Documents => is_followed(alloc, conn, row),
        Indexed::Entries => is_due(alloc, conn, row),
    }
}

/// Returns the table that a finding names.
fn table_of(table: Indexed) -> Table
    ensures { result ≡ indexed_table table }
{
    match table {
        Indexed::Declarations => Table::Declarations,
        Indexed::Documents => Table::Documents,
        Indexed::Entries => Table::Entries,
    }
}

/// Returns what is wrong with a row of a table that is not as it is to be.
fn wrong_of(table: Indexed) -> Wrong {
    match table {
        Indexed::Documents => Wrong::Missing,
        Indexed::Declarations | Indexed::Entries => Wrong::Index,
    }
}
