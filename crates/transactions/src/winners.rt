//! The winner of a document, and the history that a write which follows it asks for.

ghost use Rattle.std.specs.Prelude.{◌≡◌, ◌↔◌, ◌+◌, None, Some, IfOk, IfSome, is_some, length, option_and_then, slice_get, true};
ghost use Rattle.std.specs.FinMap as map;
ghost use Rattle.std.specs.List.{AllByRecursion};
ghost use Rattle.store.specs.Plain.{with_addition};
ghost use Rattle.store.specs.Writing.{addition_of};
ghost use Rattle.tables.specs.Listings.{IsListedDocument};
ghost use Rattle.tree.specs.History.{HistoryContent, winner as tree_winner, with_new};
ghost use Rattle.tree.specs.Outline.{marked_winner};
ghost use Rattle.transactions.specs.inner.Following.{AreParentsKnown, HasPlaceFor, IsFollower, Serves};
ghost use Rattle.transactions.specs.Reading.{HasBest, IsRead, winner_shown};

use couch_json::Got;
use sqlite::Row;
use std::alloc::Global;
use store::{StoreFault, Write};
use tables::{RowFault, read_listed_document};
use tree::{History, MarkedRev, Rev};

/// Reads the winner of the document of the first row, if there is one.
pub fn first_winner(alloc: Global, rows: &[Row]) -> Result<Option<MarkedRev>, StoreFault>
    ensures { IsRead (λ found. found) (Some (option_and_then winner_shown (slice_get rows.now 0))) (AllByRecursion IsListedDocument rows.now) result }
{
    let Some(row) = rows.first() else {
        return Ok(None);
    };
    match read_listed_document(alloc, row) {
        Ok(listed) => Ok(Some(MarkedRev {
            rev: listed.winner,
            deleted: listed.deleted,
        })),
        Err(RowFault::Memory) => Err(StoreFault::Memory),
        Err(RowFault::Damaged) => Err(StoreFault::Damaged),
    }
}

/// Tells whether these are the same winner, with the same mark, or neither is there.
pub(crate) fn is_same_winner(one: &Option<MarkedRev>, other: &Option<MarkedRev>) -> bool
    ensures { result ≡ true ↔ one.now ≡ other.now }
{
    match (one, other) {
        (Some(one), Some(other)) => is_same_marked(one, other),
        (None, None) => true,
        _ => false,
    }
}

/// Tells whether these are the same revision, with the same mark.
fn is_same_marked(one: &MarkedRev, other: &MarkedRev) -> bool
    ensures { result ≡ true ↔ one.now ≡ other.now }
{
    one.rev.cmp(&other.rev).is_eq() && one.deleted == other.deleted
}

/// Tells whether a write is one revision that follows this one and is not deleted.
fn follows(write: &Write, rev: &Rev) -> bool
    ensures { result ≡ true → IsFollower (addition_of write.now) rev.now }
{
    if write.deleted || write.path.len() != 1 {
        return false;
    }
    match &write.parent {
        Some(parent) => parent.cmp(rev).is_eq(),
        None => false,
    }
}

/// Makes a history of this revision alone.
fn make_single(alloc: Global, rev: Rev) -> Got<History>
    ensures { IfOk result (λ history. history ≡ with_new map.empty rev (record { parent = None; held = None })) }
{
    let mut history = History::new(alloc);
    history.put_revision(rev, None, None)?;
    Ok(history)
}

/// Makes what a write asks of its document's history, where that is the winner alone, or nothing
/// since the document was never written; `None` where it may ask for more.
pub(crate) fn make_history(
    alloc: Global,
    winner: Option<MarkedRev>,
    write: &Write,
) -> Got<Option<History>>
    ensures serves { (h : HistoryContent) → winner ≡ marked_winner h → (winner ≡ None → h ≡ map.empty) → AreParentsKnown h
        → HasPlaceFor h (addition_of write.now)
        → IfOk result (λ found. IfSome found (Serves (addition_of write.now) h)) }
    ensures has_best { (h : HistoryContent) → (winner ≡ None → h ≡ map.empty) → HasBest (with_addition h (addition_of write.now))
        → IfOk result (λ found. IfSome found (λ history. HasBest (with_addition history (addition_of write.now)))) }
    ensures empty { IfOk result (λ found. IfSome found (λ history. tree_winner history ≡ None → history ≡ map.empty)) }
{
    let Some(winner) = winner else {
        return Ok(Some(History::new(alloc)));
    };
    if !follows(write, &winner.rev) {
        return Ok(None);
    }
    Ok(Some(make_single(alloc, winner.rev)?))
}
