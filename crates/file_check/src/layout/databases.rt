//! The rows of the databases.

ghost use Rattle.std.specs.Prelude.{◌≡◌, ◌||◌, IfOk, pos};
ghost use Rattle.std.specs.Ordering.{int_eq};
ghost use Rattle.tables.specs.Layout.{IsDatabaseRow};
ghost use Rattle.file_check.specs.Inspecting.{Inspects};
ghost use Rattle.file_check.specs.Tables.{HasDatabaseCells, IsShaped, IsSoundDatabase};
ghost use Rattle.file_check.specs.inner.Rows.{IsEndedDatabase};
ghost use Rattle.file_check.specs.inner.Queries.{Judges};

use crate::finding::{CheckFault, Wrong};
use crate::layout::cells::{blob_at, count_at, text_at};
use crate::layout::finding_rows::{has_sequence, whole_or_zero};
use crate::layout::texts::is_security_text;
use couch_json::Got;
use sqlite::{Alter, Connection, Row};
use std::alloc::Global;
use store::is_database_name;

/// Tells what is wrong with the row of a database by itself, if anything is.
#[tactic(auto, using(crate::proofs::RowForms::database_forms))]
fn judge_row(alloc: Global, row: &Row) -> Got<Option<Wrong>>
    ensures { HasDatabaseCells row.now → IfOk result (Judges (IsDatabaseRow row.now)) }
{
    let Some(name) = blob_at(row, 2) else {
        return Ok(Some(Wrong::Cell));
    };
    let Some(text) = text_at(row, 3) else {
        return Ok(Some(Wrong::Cell));
    };
    if count_at(row, 4).is_none() {
        return Ok(Some(Wrong::Sequence));
    }
    if !is_database_name(name) {
        return Ok(Some(Wrong::Name));
    }
    if !is_security_text(alloc, text)? {
        return Ok(Some(Wrong::Text));
    }
    Ok(None)
}

/// Tells whether a database at this sequence ends at its last document, where a document is at the
/// sequence or is not.
fn is_ended(sequence: i64, there: bool) -> bool
    ensures { result ≡ (int_eq sequence (pos 0) || there) }
{
    sequence == 0 || there
}

/// Tells what is wrong with the row of a database, where a document is at its sequence or is not.
#[tactic(auto, using(crate::proofs::RowForms::ended_forms))]
fn judge_ended(alloc: Global, row: &Row, there: bool) -> Got<Option<Wrong>>
    ensures { HasDatabaseCells row.now → IfOk result (Judges (IsEndedDatabase row.now there)) }
{
    if let Some(wrong) = judge_row(alloc, row)? {
        return Ok(Some(wrong));
    }
    if !is_ended(whole_or_zero(row, 4), there) {
        return Ok(Some(Wrong::Sequence));
    }
    Ok(None)
}

/// Checks the row of a database.
pub(crate) fn check_database<S: Alter>(
    alloc: Global,
    conn: &mut Connection<S>,
    row: &Row,
) -> Result<Option<Wrong>, CheckFault>
    ensures { Inspects S.Store IsShaped conn.old conn.new (λ trees found. HasDatabaseCells row.now → Judges (IsSoundDatabase trees row.now) found) result }
{
    let there = has_sequence(conn, &whole_or_zero(row, 0), &whole_or_zero(row, 4))?;
    Ok(judge_ended(alloc, row, there)?)
}
