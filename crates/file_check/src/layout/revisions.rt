//! The rows of the revisions.

ghost use Rattle.std.specs.Prelude.{◌≡◌, ◌↔◌, ◌≤◌, ◌-◌, ℕ, IfOk, IsTrue, pos};
ghost use Rattle.std.specs.List.{list_any};
ghost use Rattle.sqlite_value.specs.Order.{column};
ghost use Rattle.sqlite_value.specs.declared.value.Value.TheVariants.{Int, Null};
ghost use Rattle.tables.specs.Layout.{IsRevisionRow};
ghost use Rattle.tables.specs.Rows.{db_of, id_of, is_row_of_document};
ghost use Rattle.tables.specs.Schema.{docs_tree};
ghost use Rattle.tree.specs.Revision.{is_revision};
ghost use Rattle.file_check.specs.Inspecting.{Inspects};
ghost use Rattle.file_check.specs.inner.Rows.{IsFollowing, IsHeldSo, IsWholeRevision, ShowsNothing};
ghost use Rattle.file_check.specs.Tables.{HasRevisionCells, IsShaped};
ghost use Rattle.file_check.specs.inner.Queries.{Judges};

use crate::finding::{CheckFault, Wrong};
use crate::layout::cells::{count_at, text_at};
use crate::layout::finding_rows::{bytes_at, has_document, has_revision, whole_or_zero};
use crate::layout::texts::is_body_text;
use couch_json::Got;
use sqlite::{Alter, Connection, Row};
use sqlite_value::value::ValueRef;
use std::alloc::Global;
use std::str;
use tree::Rev;

/// Tells whether a cell has no value, as one past the last has none.
#[tactic(auto, using(crate::proofs::RowForms::past_is_null))]
fn is_null_at(row: &Row, at: usize) -> bool
    ensures { IsTrue result ↔ column row.now at ≡ Null }
{
    match row.get_ref(at) {
        Ok(ValueRef::Null) => true,
        Ok(_) => false,
        Err(_) => true,
    }
}

/// Tells whether the cells of a row say that nothing is held of its revision.
fn shows_nothing(row: &Row) -> bool
    ensures { IsTrue result ↔ ShowsNothing row.now }
{
    count_at(row, 6) == Some(0) && count_at(row, 7) == Some(0) && is_null_at(row, 8)
}

/// Tells what is wrong with the cells of what is held of a revision, if anything is.
#[tactic(auto, using(crate::proofs::RowForms::held_forms))]
fn judge_held(alloc: Global, row: &Row) -> Got<Option<Wrong>>
    ensures { IfOk result (Judges (IsHeldSo row.now)) }
{
    if shows_nothing(row) {
        return Ok(None);
    }
    let Some(held) = count_at(row, 6) else {
        return Ok(Some(Wrong::Cell));
    };
    if held != 1 {
        return Ok(Some(Wrong::Cell));
    }
    let Some(mark) = count_at(row, 7) else {
        return Ok(Some(Wrong::Cell));
    };
    if mark > 1 {
        return Ok(Some(Wrong::Cell));
    }
    let Some(text) = text_at(row, 8) else {
        return Ok(Some(Wrong::Cell));
    };
    if !is_body_text(alloc, text)? {
        return Ok(Some(Wrong::Text));
    }
    Ok(None)
}

/// Returns the number of the revision before that of a row, and 0 where there is none.
fn number_before(row: &Row) -> i64
    ensures { (n : ℕ) → column row.now 3 ≡ Int (pos n) → 1 ≤ n → result ≡ pos (n - 1) }
{
    match count_at(row, 3) {
        Some(number) if number > 0 => (number - 1) as i64,
        _ => 0,
    }
}

/// Tells whether the number and the hash make a revision.
#[tactic(auto, using(crate::proofs::RevisionForms::no_revision))]
fn is_lawful(number: u64, hash: &[u8]) -> bool
    ensures { result ≡ is_revision (record { number = number; hash = hash.now }) }
{
    let Ok(hash) = str::from_utf8(hash) else {
        return false;
    };
    number <= 2_147_483_647 && Rev::new(number as u32, hash).is_some()
}

/// Tells whether a revision of this number follows what its row says: nothing where it is the first, and
/// else a revision that is known.
fn is_following(row: &Row, number: u64, known: bool) -> bool
    ensures { IsTrue result ↔ IsFollowing row.now number known }
{
    if is_null_at(row, 5) {
        return number == 1;
    }
    text_at(row, 5).is_some() && number != 1 && known
}

/// Tells what is wrong with the row of a revision whose document is there or is not, and whose parent is
/// known or is not, if anything is.
#[tactic(auto, using(crate::proofs::RevisionForms::revision_forms))]
fn judge_revision(alloc: Global, row: &Row, there: bool, known: bool) -> Got<Option<Wrong>>
    ensures { HasRevisionCells row.now → IfOk result (Judges (IsWholeRevision row.now there known)) }
{
    if !there {
        return Ok(Some(Wrong::Unowned));
    }
    let Some(number) = count_at(row, 3) else {
        return Ok(Some(Wrong::Cell));
    };
    if !is_lawful(number, bytes_at(row, 4)) {
        return Ok(Some(Wrong::Name));
    }
    if !is_following(row, number, known) {
        return Ok(Some(Wrong::Parent));
    }
    judge_held(alloc, row)
}

/// Checks the row of a revision whose document is there or is not.
fn check_followed<S: Alter>(
    alloc: Global,
    conn: &mut Connection<S>,
    row: &Row,
    there: bool,
) -> Result<Option<Wrong>, CheckFault>
    ensures { Inspects S.Store IsShaped conn.old conn.new
        (λ trees found. HasRevisionCells row.now → there ≡ list_any (is_row_of_document (db_of row.now) (id_of row.now)) (trees docs_tree)
        → Judges (IsRevisionRow trees row.now) found) result }
{
    let known = has_revision(
        conn,
        &whole_or_zero(row, 1),
        bytes_at(row, 2),
        &number_before(row),
        bytes_at(row, 5),
    )?;
    Ok(judge_revision(alloc, row, there, known)?)
}

/// Checks the row of a revision.
pub(crate) fn check_revision<S: Alter>(
    alloc: Global,
    conn: &mut Connection<S>,
    row: &Row,
) -> Result<Option<Wrong>, CheckFault>
    ensures { Inspects S.Store IsShaped conn.old conn.new (λ trees found. HasRevisionCells row.now → Judges (IsRevisionRow trees row.now) found) result }
{
    let there = has_document(conn, &whole_or_zero(row, 1), bytes_at(row, 2))?;
    check_followed(alloc, conn, row, there)
}
