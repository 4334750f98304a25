//! The rows of the documents.

ghost use Rattle.std.specs.Prelude.{◌≡◌, ◌↔◌, ℤ, int_le, IfOk, IsTrue, MatchOption, Some, is_some, true};
ghost use Rattle.std.specs.List.{AllByRecursion, list_all};
ghost use Rattle.tree.specs.History.{held_of};
ghost use Rattle.sqlite_value.specs.Order.{column};
ghost use Rattle.tables.specs.Layout.{IsRevisionRow};
ghost use Rattle.tables.specs.Rows.{db_of, is_gone_row, whole_in_cell};
ghost use Rattle.tables.specs.Schema.{revs_tree};
ghost use Rattle.tables.specs.Shown.{IsShownRevision};
ghost use Rattle.transactions.specs.Reading.{history_shown};
ghost use Rattle.file_check.specs.Inspecting.{Inspects};
ghost use Rattle.file_check.specs.inner.Rows.{IsLawfulDocument, IsOwnedDocument, IsWinning};
ghost use Rattle.file_check.specs.Tables.{HasDocumentCells, HasHeldLeaves, IsShaped, IsSoundDocument};
ghost use Rattle.file_check.specs.inner.Queries.{Judges, length_at};

use crate::finding::{CheckFault, Wrong};
use crate::layout::cells::{blob_at, count_at, whole_at};
use crate::layout::finding_rows::{bytes_at, find_length, whole_or_zero};
use crate::layout::ids::is_id_of_document;
use crate::layout::statements::history_rows;
use couch_json::{Got, NoMemory};
use sqlite::{Alter, Connection, Row};
use std::alloc::Global;
use store::StoreFault;
use transactions::read_history;
use tree::{History, Rev};

/// Tells what is wrong with the row of a document by itself, if anything is.
#[tactic(auto, using(crate::proofs::RowForms::document_forms))]
fn judge_row(row: &Row) -> Option<Wrong>
    ensures { HasDocumentCells row.now → Judges (IsLawfulDocument row.now) result }
{
    let Some(id) = blob_at(row, 2) else {
        return Some(Wrong::Cell);
    };
    let Some(sequence) = count_at(row, 3) else {
        return Some(Wrong::Sequence);
    };
    let Some(mark) = count_at(row, 5) else {
        return Some(Wrong::Cell);
    };
    if mark > 1 {
        return Some(Wrong::Cell);
    }
    if sequence < 1 {
        return Some(Wrong::Sequence);
    }
    if !is_id_of_document(id) {
        return Some(Wrong::Name);
    }
    None
}

/// Tells whether the text is that of the winner of a history, and this is its mark.
fn is_winning(alloc: Global, history: &History, text: &[u8], deleted: bool) -> Got<bool>
    ensures { IfOk result (λ is. IsTrue is ↔ IsWinning history.now text.now deleted) }
{
    let Some(winner) = history.winner() else {
        return Ok(false);
    };
    let spelled = winner.text(alloc)?;
    Ok(spelled.as_bytes() == text && history.is_deleted(winner) == deleted)
}

/// Tells whether something is held of each of these revisions.
fn are_held(history: &History, leaves: &[Rev]) -> bool
    ensures { result ≡ list_all (λ r. is_some (held_of history.now r)) leaves.now }
{
    for leaf in leaves {
        if history.body(leaf).is_none() {
            return false;
        }
    }
    true
}

/// Tells whether something is held of each leaf of a history.
fn has_held_leaves(history: &History) -> Got<bool>
    ensures { IfOk result (λ is. IsTrue is ↔ HasHeldLeaves history.now) }
{
    let leaves = history.leaves()?;
    Ok(are_held(history, &leaves))
}

/// Tells whether the sequence of a document is one of a database at this sequence.
fn is_within(length: Option<i64>, row: &Row) -> bool
    ensures { IsTrue result ↔ ((n : ℤ) × (length ≡ Some n) × (int_le (whole_in_cell (column row.now 3)) n ≡ true)) }
{
    match length {
        Some(length) => whole_or_zero(row, 3) <= length,
        None => false,
    }
}

/// Tells whether a row says that the winner of its document is deleted.
#[tactic(auto, using(crate::proofs::RowForms::gone_is, crate::proofs::RowForms::gone_not))]
fn is_marked(row: &Row) -> bool
    ensures { result ≡ is_gone_row row.now }
{
    match whole_at(row, 5) {
        Some(mark) => mark > 0,
        None => false,
    }
}

/// Reads the history that the rows make, if they are rows of revisions.
fn read_rows(alloc: Global, rows: Vec<Row>) -> Got<Option<History>>
    ensures { IfOk result (λ found. MatchOption found (¬ AllByRecursion IsShownRevision rows.items) (λ history. history ≡ history_shown rows.items)) }
{
    match read_history(alloc, rows) {
        Ok(history) => Ok(Some(history)),
        Err(StoreFault::Memory) => Err(NoMemory),
        Err(_) => Ok(None),
    }
}

/// Tells what is wrong with the row of a document beside its database, which is at this sequence, and its history,
/// if anything is.
#[tactic(auto, using(crate::proofs::RowForms::owner_forms))]
fn judge_owned(
    alloc: Global,
    row: &Row,
    length: Option<i64>,
    history: &History,
) -> Got<Option<Wrong>>
    ensures { IfOk result (Judges (IsOwnedDocument row.now length history.now)) }
{
    if length.is_none() {
        return Ok(Some(Wrong::Unowned));
    }
    if !is_within(length, row) {
        return Ok(Some(Wrong::Sequence));
    }
    if !is_winning(alloc, history, bytes_at(row, 4), is_marked(row))? {
        return Ok(Some(Wrong::Winner));
    }
    if !has_held_leaves(history)? {
        return Ok(Some(Wrong::Missing));
    }
    Ok(None)
}

/// Tells what is wrong with the row of a document whose database is at this sequence, and whose revisions
/// have these rows, if anything is.
#[tactic(auto, using(crate::proofs::RowForms::owned_by, crate::proofs::RowForms::not_owned_by))]
fn judge_document(
    alloc: Global,
    row: &Row,
    length: Option<i64>,
    rows: Vec<Row>,
) -> Got<Option<Wrong>>
    ensures { AllByRecursion IsShownRevision rows.items → IfOk result (Judges (IsOwnedDocument row.now length (history_shown rows.items))) }
{
    let Some(history) = read_rows(alloc, rows)? else {
        return Ok(Some(Wrong::Winner));
    };
    judge_owned(alloc, row, length, &history)
}

/// Tells what is wrong with the row of such a document, by itself or beside them.
fn judge_whole(alloc: Global, row: &Row, length: Option<i64>, rows: Vec<Row>) -> Got<Option<Wrong>>
    ensures { HasDocumentCells row.now → AllByRecursion IsShownRevision rows.items
        → IfOk result (Judges (IsLawfulDocument row.now × IsOwnedDocument row.now length (history_shown rows.items))) }
{
    match judge_row(row) {
        Some(wrong) => Ok(Some(wrong)),
        None => judge_document(alloc, row, length, rows),
    }
}

/// Checks the row of a document whose database is at this sequence.
fn check_owned<S: Alter>(
    alloc: Global,
    conn: &mut Connection<S>,
    row: &Row,
    length: Option<i64>,
) -> Result<Option<Wrong>, CheckFault>
    ensures { Inspects S.Store IsShaped conn.old conn.new
        (λ trees found. HasDocumentCells row.now → length ≡ length_at trees (db_of row.now) → AllByRecursion (IsRevisionRow trees) (trees revs_tree)
        → Judges (IsSoundDocument trees row.now) found) result }
{
    let rows = history_rows(conn, &whole_or_zero(row, 1), bytes_at(row, 2))?;
    Ok(judge_whole(alloc, row, length, rows)?)
}

/// Checks the row of a document.
pub(crate) fn check_document<S: Alter>(
    alloc: Global,
    conn: &mut Connection<S>,
    row: &Row,
) -> Result<Option<Wrong>, CheckFault>
    ensures { Inspects S.Store IsShaped conn.old conn.new
        (λ trees found. HasDocumentCells row.now → AllByRecursion (IsRevisionRow trees) (trees revs_tree)
        → Judges (IsSoundDocument trees row.now) found) result }
{
    let length = find_length(conn, &whole_or_zero(row, 1))?;
    check_owned(alloc, conn, row, length)
}
