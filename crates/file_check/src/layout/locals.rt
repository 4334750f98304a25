//! The rows of the local documents.

ghost use Rattle.std.specs.Prelude.{◌≡◌, IfOk, true};
ghost use Rattle.tables.specs.Layout.{IsLocalRow};
ghost use Rattle.file_check.specs.Inspecting.{Inspects};
ghost use Rattle.file_check.specs.inner.Rows.{IsLawfulLocal};
ghost use Rattle.file_check.specs.Tables.{HasLocalCells, IsShaped};
ghost use Rattle.file_check.specs.inner.Queries.{Judges};

use crate::finding::{CheckFault, Wrong};
use crate::layout::cells::{blob_at, count_at, text_at};
use crate::layout::finding_rows::{find_length, whole_or_zero};
use crate::layout::ids::is_id_of_local;
use crate::layout::texts::is_body_text;
use couch_json::Got;
use sqlite::{Alter, Connection, Row};
use std::alloc::Global;

/// The greatest number that a revision of a local document has.
const GREATEST_NUMBER: u64 = 2_147_483_647;

/// Tells what is wrong with the row of a local document by itself, if anything is.
#[tactic(auto, using(crate::proofs::RowForms::local_forms))]
fn judge_row(alloc: Global, row: &Row) -> Got<Option<Wrong>>
    ensures { HasLocalCells row.now → IfOk result (Judges (IsLawfulLocal row.now)) }
{
    let Some(id) = blob_at(row, 2) else {
        return Ok(Some(Wrong::Cell));
    };
    let Some(number) = count_at(row, 3) else {
        return Ok(Some(Wrong::Cell));
    };
    let Some(text) = text_at(row, 4) else {
        return Ok(Some(Wrong::Cell));
    };
    if number < 1 || number > GREATEST_NUMBER {
        return Ok(Some(Wrong::Cell));
    }
    if !is_id_of_local(id) {
        return Ok(Some(Wrong::Name));
    }
    if !is_body_text(alloc, text)? {
        return Ok(Some(Wrong::Text));
    }
    Ok(None)
}

/// Tells what is wrong with the row of a local document, whose database is there or is not.
fn judge_owned(alloc: Global, row: &Row, there: bool) -> Got<Option<Wrong>>
    ensures { HasLocalCells row.now → IfOk result (Judges ((there ≡ true) × IsLawfulLocal row.now)) }
{
    if !there {
        return Ok(Some(Wrong::Unowned));
    }
    judge_row(alloc, row)
}

/// Checks the row of a local document.
pub(crate) fn check_local<S: Alter>(
    alloc: Global,
    conn: &mut Connection<S>,
    row: &Row,
) -> Result<Option<Wrong>, CheckFault>
    ensures { Inspects S.Store IsShaped conn.old conn.new (λ trees found. HasLocalCells row.now → Judges (IsLocalRow trees row.now) found) result }
{
    let length = find_length(conn, &whole_or_zero(row, 1))?;
    Ok(judge_owned(alloc, row, length.is_some())?)
}
