//! What is read of a document's winner within a transaction, and what queries see of it.

ghost use Rattle.std.specs.Prelude.{◌≡◌, Some, option_map, slice_get, ⊤};
ghost use Rattle.std.specs.FinMap as map;
ghost use Rattle.std.specs.List.{AllByRecursion};
ghost use Rattle.couch_json.specs.View.{view};
ghost use Rattle.index.specs.Meaning.{sees_in};
ghost use Rattle.store.specs.Winning.{winner_alone};
ghost use Rattle.tables.specs.Shown.{IsShownRevision};
ghost use Rattle.transactions.specs.inner.Calls.{Finds};
ghost use Rattle.transactions.specs.Reading.{IsRead, known_shown};
ghost use Rattle.tree.specs.Outline.{marked_winner};
ghost use Rattle.transactions.specs.inner.Histories.{stored_history};

use crate::commit_fault::CommitFault;
use crate::winners::first_winner;
use couch_json::Json;
use sqlite::{Alter, Row, Transaction};
use std::alloc::Global;
use store::{StoreFault, show_queried, take_winner};
use tables::transaction_reads::{document_rows_in, one_revision_rows_in};
use tables::{FoundRevision, RowFault, read_revision};
use tree::{Body, DocId, Entry, Held, History, MarkedRev, Rev};

/// Reads what is known of the revision of the first row, if there is one.
pub fn first_revision(alloc: Global, rows: &[Row]) -> Result<Option<Entry>, StoreFault>
    ensures { IsRead (λ found. found) (Some (option_map known_shown (slice_get rows.now 0))) (AllByRecursion IsShownRevision rows.now) result }
{
    let Some(row) = rows.first() else {
        return Ok(None);
    };
    match read_revision(alloc, row) {
        Ok(
            FoundRevision {
                rev: _,
                parent,
                held,
            },
        ) => Ok(Some(Entry::new(alloc, parent, hold(held))?)),
        Err(RowFault::Memory) => Err(StoreFault::Memory),
        Err(RowFault::Damaged) => Err(StoreFault::Damaged),
    }
}

/// Makes what is held of a mark and a body, if they are there.
fn hold(held: Option<(bool, Json)>) -> Option<Held>
    ensures { result ≡ option_map (λ h. record { deleted = h.0; body = view h.1 }) held }
{
    let (deleted, body) = held?;
    Some(Held {
        deleted,
        body: Body::new(body),
    })
}

/// Finds the winner of a document with its mark, if it was ever written.
pub(crate) fn find_winner<S: Alter>(
    alloc: Global,
    tx: &mut Transaction<'_, S>,
    db: &i64,
    id: &DocId,
) -> Result<Option<MarkedRev>, CommitFault>
    ensures same_reference { tx.new.conn.ghost_name ≡ tx.old.conn.ghost_name }
    ensures finds { Finds S.Store (λ _. ⊤) (λ trees found. found ≡ marked_winner (stored_history trees db.now id.now))
        tx.old.conn.now tx.new.conn.now result }
{
    let rows = document_rows_in(tx, db, id.as_str().as_bytes())?;
    Ok(first_winner(alloc, &rows)?)
}

/// Finds what is known of one revision of a document, if it is known.
fn find_revision<S: Alter>(
    alloc: Global,
    tx: &mut Transaction<'_, S>,
    db: &i64,
    id: &DocId,
    rev: &Rev,
) -> Result<Option<Entry>, CommitFault>
    ensures same_reference { tx.new.conn.ghost_name ≡ tx.old.conn.ghost_name }
    ensures finds { Finds S.Store (λ _. ⊤) (λ trees found. found ≡ map.get (stored_history trees db.now id.now) rev.now)
        tx.old.conn.now tx.new.conn.now result }
{
    let id = id.as_str().as_bytes();
    let rows = one_revision_rows_in(tx, db, id, rev.number(), rev.hash())?;
    Ok(first_revision(alloc, &rows)?)
}

/// Finds the winner of a document as a history of its own, empty where the document was never written.
pub(crate) fn find_winning<S: Alter>(
    alloc: Global,
    tx: &mut Transaction<'_, S>,
    db: &i64,
    id: &DocId,
) -> Result<History, CommitFault>
    ensures same_reference { tx.new.conn.ghost_name ≡ tx.old.conn.ghost_name }
    ensures finds { Finds S.Store (λ _. ⊤) (λ trees history. history ≡ winner_alone (stored_history trees db.now id.now))
        tx.old.conn.now tx.new.conn.now result }
{
    let mut history = History::new(alloc);
    let Some(winner) = find_winner(alloc, tx, db, id)? else {
        return Ok(history);
    };
    let known = find_revision(alloc, tx, db, id, &winner.rev)?;
    let body = take_winner(known, winner.deleted)?;
    history.put_revision(winner.rev, None, Some((winner.deleted, body)))?;
    Ok(history)
}

/// Shows what queries see of a document as it is stored.
#[tactic(auto, using(store::proofs::Winnings::queried_alone))]
pub(crate) fn see_document<S: Alter>(
    alloc: Global,
    tx: &mut Transaction<'_, S>,
    db: &i64,
    id: &DocId,
) -> Result<Option<Json>, CommitFault>
    ensures same_reference { tx.new.conn.ghost_name ≡ tx.old.conn.ghost_name }
    ensures finds { Finds S.Store (λ _. ⊤) (λ trees seen. option_map view seen ≡ sees_in trees db.now id.now) tx.old.conn.now tx.new.conn.now result }
{
    let history = find_winning(alloc, tx, db, id)?;
    Ok(show_queried(alloc, id, &history)?)
}
