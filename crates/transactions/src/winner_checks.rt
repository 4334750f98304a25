//! Checks that the row of a document and the rows of its revisions name one winner.

ghost use Rattle.std.specs.Prelude.{◌≡◌, IfErr, OnOk, Some, slice_get, ⊤};
ghost use Rattle.std.specs.List.{AllByRecursion};
ghost use Rattle.tables.specs.Shown.{IsShownOutline, mark_shown};
ghost use Rattle.tree.specs.Outline.{marked_winner};
ghost use Rattle.transactions.specs.Reading.{HasMark, IsLost};
ghost use Rattle.transactions.specs.inner.Calls.{Finds};
ghost use Rattle.transactions.specs.inner.Histories.{stored_history};

use crate::commit_fault::CommitFault;
use sqlite::{Alter, Row, Transaction};
use store::StoreFault;
use tables::transaction_reads::one_outline_rows_in;
use tables::{RowFault, read_node};
use tree::{DocId, History, MarkedRev, Rev};

/// Checks that a history has this winner, with this mark, or none where there is none. `Damaged` comes if
/// and only if it doesn't.
pub fn check_history(winner: &Option<MarkedRev>, history: &History) -> Result<(), StoreFault>
    ensures ok { OnOk result (winner.now ≡ marked_winner history.now) }
    ensures err { IfErr result (λ fault. (fault ≡ StoreFault.Damaged) × ¬ (winner.now ≡ marked_winner history.now)) }
{
    match (winner, &history.marked_winner()) {
        (None, None) => Ok(()),
        (Some(winner), Some(best)) => check_marked(winner, best),
        _ => Err(StoreFault::Damaged),
    }
}

/// Checks that the first of these leaves is this revision, or that there is no leaf where there is none.
/// `Damaged` comes if and only if that is not so.
pub fn check_best(best: &Option<Rev>, leaves: &[Rev]) -> Result<(), StoreFault>
    ensures ok { OnOk result (best.now ≡ slice_get leaves.now 0) }
    ensures err { IfErr result (λ fault. (fault ≡ StoreFault.Damaged) × ¬ (best.now ≡ slice_get leaves.now 0)) }
{
    match (best, leaves.first()) {
        (None, None) => Ok(()),
        (Some(best), Some(first)) => check_same(best, first),
        _ => Err(StoreFault::Damaged),
    }
}

/// Checks that two winners are the same, with the same mark.
fn check_marked(one: &MarkedRev, other: &MarkedRev) -> Result<(), StoreFault>
    ensures ok { OnOk result (one.now ≡ other.now) }
    ensures err { IfErr result (λ fault. (fault ≡ StoreFault.Damaged) × ¬ (one.now ≡ other.now)) }
{
    check_same(&one.rev, &other.rev)?;
    if one.deleted == other.deleted {
        Ok(())
    } else {
        Err(StoreFault::Damaged)
    }
}

/// Checks that two revisions are the same.
fn check_same(one: &Rev, other: &Rev) -> Result<(), StoreFault>
    ensures ok { OnOk result (one.now ≡ other.now) }
    ensures err { IfErr result (λ fault. (fault ≡ StoreFault.Damaged) × ¬ (one.now ≡ other.now)) }
{
    if one.cmp(other).is_eq() {
        Ok(())
    } else {
        Err(StoreFault::Damaged)
    }
}

/// Checks that something is held of the revision of the first row, under this mark.
fn check_mark(rows: &[Row], deleted: bool) -> Result<(), StoreFault>
    ensures ok { OnOk result (HasMark deleted rows.now) }
    ensures err { IfErr result (IsLost (AllByRecursion IsShownOutline rows.now × HasMark deleted rows.now)) }
{
    match rows.first() {
        Some(row) => check_row(row, deleted),
        None => Err(StoreFault::Damaged),
    }
}

/// Checks that something is held of the revision of a row, under this mark.
fn check_row(row: &Row, deleted: bool) -> Result<(), StoreFault>
    ensures ok { OnOk result (mark_shown row.now ≡ Some deleted) }
    ensures err { IfErr result (IsLost (IsShownOutline row.now × (mark_shown row.now ≡ Some deleted))) }
{
    match read_node(row) {
        Ok(found) if found.mark == Some(deleted) => Ok(()),
        Ok(_) => Err(StoreFault::Damaged),
        Err(RowFault::Memory) => Err(StoreFault::Memory),
        Err(RowFault::Damaged) => Err(StoreFault::Damaged),
    }
}

/// Checks that the winner which a document's row names has a row of its own, with the same mark.
pub(crate) fn check_winner<S: Alter>(
    tx: &mut Transaction<'_, S>,
    db: &i64,
    id: &DocId,
    winner: &MarkedRev,
) -> Result<(), CommitFault>
    ensures same_reference { tx.new.conn.ghost_name ≡ tx.old.conn.ghost_name }
    ensures finds { Finds S.Store (λ trees. marked_winner (stored_history trees db.now id.now) ≡ Some winner.now) (λ _ _. ⊤)
        tx.old.conn.now tx.new.conn.now result }
{
    let id = id.as_str().as_bytes();
    let rows = one_outline_rows_in(tx, db, id, winner.rev.number(), winner.rev.hash())?;
    check_mark(&rows, winner.deleted)?;
    Ok(())
}
