//! What queries see of a document, read in a transaction.

ghost use Rattle.std.specs.Prelude.{◌≡◌, ◌∷◌, [], IfErr, IfOk, map, option_map, ⊤};
ghost use Rattle.std.specs.List.{AllByRecursion};
ghost use Rattle.couch_json.specs.View.{view};
ghost use Rattle.sqlite_value.specs.Order as order;
ghost use Rattle.tables.specs.Calls.{AsksInside, LooksInside, ReadsInside, KeepsConnection};
ghost use Rattle.tables.specs.Layout.{IsStore};
ghost use Rattle.tables.specs.Listings.{IsListedDocument, is_between};
ghost use Rattle.tables.specs.Rows.{listed_document};
ghost use Rattle.tables.specs.Schema.{docs_tree};
ghost use Rattle.tables.specs.Shown.{IsShownRevision, held_shown};
ghost use Rattle.index.specs.Calls.{FindsLive, IsRefused};
ghost use Rattle.index.specs.inner.Seen.{HasLive, IsCut, IsListedFrom, IsSoundLive, ShowsLive, documents_between, ids_between};

use crate::fault::IndexFault;
use couch_json::Json;
use sqlite::{Alter, Error, Row, Transaction, params};
use sqlite_value::value::ValueRef;
use std::alloc::Global;
use tables::statement::query_in;
use tables::transaction_reads::one_revision_rows_in;
use tables::{FoundRevision, ListedDocument, RowFault, read_listed_document, read_revision};
use tree::{DocId, Rev, show};

/// How many documents are read at once.
const PART_DOCUMENTS: i64 = 10_000;

/// Finds where a part of the documents between two bounds of ids ends: at the id of the first document
/// behind so many, or at the high bound where there is none.
pub(crate) fn find_bound<S: Alter>(
    alloc: Global,
    tx: &mut Transaction<'_, S>,
    db: &i64,
    low: &[u8],
    high: &[u8],
) -> Result<Vec<u8>, IndexFault>
    ensures same_reference { tx.new.conn.ghost_name ≡ tx.old.conn.ghost_name }
    ensures within { IfOk result (λ bound. IsCut low.now high.now bound.items) }
    ensures err { IfErr result (IsRefused ⊤) }
    ensures stands { KeepsConnection S.Store tx.old.conn.now tx.new.conn.now result }
    ensures looks { LooksInside S.Store tx.old.conn.now tx.new.conn.now }
    ensures asks { AsksInside S.Store tx.old.conn.now tx.new.conn.now }
{
    let rows = bound_rows(tx, db, low, high, &1, &PART_DOCUMENTS)?;
    let bound = choose_bound(&rows, low, high);
    Ok(Vec::from_slice(alloc, bound)?)
}

/// Chooses the id of the first row as the bound, or the high bound where no row has an id between them.
fn choose_bound<'a>(rows: &'a [Row], low: &[u8], high: &'a [u8]) -> &'a [u8]
    ensures { IsCut low.now high.now result.now }
{
    let Some(row) = rows.first() else {
        return high;
    };
    match row.get_ref(0) {
        Ok(ValueRef::Blob(id)) if lies_between(low, high, id) => id,
        _ => high,
    }
}

/// Tells whether bytes lie between two bounds: they are not below the low one, and below the high one.
fn lies_between(low: &[u8], high: &[u8], bytes: &[u8]) -> bool
    ensures { result ≡ is_between low.now high.now bytes.now }
{
    low.cmp(bytes).is_le() && bytes.cmp(high).is_lt()
}

/// Returns the ids of the documents of a database whose ids lie between two bounds of bytes, by these
/// bytes. It leaves out the first of them, as many as `skip`, and goes on up to `most`.
fn bound_rows<S: Alter>(
    tx: &mut Transaction<'_, S>,
    db: &i64,
    low: &[u8],
    high: &[u8],
    most: &i64,
    skip: &i64,
) -> Result<Vec<Row>, Error>
    ensures same_reference { tx.new.conn.ghost_name ≡ tx.old.conn.ghost_name }
    ensures reads { ReadsInside S.Store IsStore tx.old.conn.now tx.new.conn.now
        (λ trees rows. rows.items ≡ ids_between db.now low.now high.now most.now skip.now (trees docs_tree)) result }
{
    query_in(
        tx,
        "SELECT id FROM docs WHERE db = ?1 AND id >= ?2 AND id < ?3 ORDER BY id LIMIT ?4 OFFSET ?5",
        params![db, low, high, most, skip],
    )
}

/// Returns the rows of the documents of a database whose ids lie between two bounds of bytes, by the bytes
/// of their ids: the id, the sequence, the winner and whether that is deleted.
pub(crate) fn rows_between<S: Alter>(
    tx: &mut Transaction<'_, S>,
    db: &i64,
    low: &[u8],
    high: &[u8],
) -> Result<Vec<Row>, Error>
    ensures same_reference { tx.new.conn.ghost_name ≡ tx.old.conn.ghost_name }
    ensures reads { ReadsInside S.Store IsStore tx.old.conn.now tx.new.conn.now
        (λ trees rows. rows.items ≡ map listed_document (documents_between db.now low.now high.now (trees docs_tree))) result }
{
    query_in(
        tx,
        "SELECT id, seq, winner, del FROM docs WHERE db = ?1 AND id >= ?2 AND id < ?3 ORDER BY id",
        params![db, low, high],
    )
}

/// Reads what the row of a document says in a list.
pub(crate) fn read_listed(alloc: Global, row: &Row) -> Result<ListedDocument, IndexFault>
    ensures ok { IfOk result (IsListedFrom row.now) }
    ensures err { IfErr result (IsRefused (IsListedDocument row.now)) }
{
    match read_listed_document(alloc, row) {
        Ok(listed) => Ok(listed),
        Err(RowFault::Memory) => Err(IndexFault::Memory),
        Err(RowFault::Damaged) => Err(IndexFault::Damaged),
    }
}

/// Finds what queries see of a document of a list that is neither deleted nor a design document. `Damaged`
/// comes also where the row of its winner is gone, or holds no document that is not deleted.
pub(crate) fn find_live<S: Alter>(
    alloc: Global,
    tx: &mut Transaction<'_, S>,
    db: &i64,
    listed: &ListedDocument,
) -> Result<Json, IndexFault>
    ensures same_reference { tx.new.conn.ghost_name ≡ tx.old.conn.ghost_name }
    ensures finds { FindsLive S.Store db.now listed.now tx.old.conn.now tx.new.conn.now result }
    ensures err { (d : order.Row) → IfErr result (IsRefused (IsSoundLive S.Store db.now listed.now d tx.old.conn.now tx.new.conn.now)) }
    ensures stands { KeepsConnection S.Store tx.old.conn.now tx.new.conn.now result }
    ensures looks { LooksInside S.Store tx.old.conn.now tx.new.conn.now }
    ensures asks { AsksInside S.Store tx.old.conn.now tx.new.conn.now }
{
    let id = listed.id.as_str().as_bytes();
    let rows = one_revision_rows_in(tx, db, id, listed.winner.number(), listed.winner.hash())?;
    show_first(alloc, &listed.id, &listed.winner, &rows)
}

/// Shows the revision of the first row as its document, which is not deleted.
fn show_first(alloc: Global, id: &DocId, rev: &Rev, rows: &[Row]) -> Result<Json, IndexFault>
    ensures ok { IfOk result (λ shown. ShowsLive id.now rev.now rows.now (view shown)) }
    ensures err { IfErr result (IsRefused (AllByRecursion IsShownRevision rows.now × HasLive rows.now)) }
{
    match rows.first() {
        Some(row) => show_row(alloc, id, rev, row),
        None => Err(IndexFault::Damaged),
    }
}

/// Shows the revision of a row as its document, which is not deleted.
fn show_row(alloc: Global, id: &DocId, rev: &Rev, row: &Row) -> Result<Json, IndexFault>
    ensures ok { IfOk result (λ shown. ShowsLive id.now rev.now (row.now ∷ []) (view shown)) }
    ensures err { IfErr result (IsRefused (IsShownRevision row.now × HasLive (row.now ∷ []))) }
{
    let found = read_found(alloc, row)?;
    match &found.held {
        Some((false, body)) => Ok(show(alloc, id, rev, false, body)?),
        _ => Err(IndexFault::Damaged),
    }
}

/// Reads what the row of a revision says.
fn read_found(alloc: Global, row: &Row) -> Result<FoundRevision, IndexFault>
    ensures held { IfOk result (λ d. option_map (λ h. (h.0, view h.1)) d.held ≡ held_shown row.now) }
    ensures err { IfErr result (IsRefused (IsShownRevision row.now)) }
{
    match read_revision(alloc, row) {
        Ok(found) => Ok(found),
        Err(RowFault::Memory) => Err(IndexFault::Memory),
        Err(RowFault::Damaged) => Err(IndexFault::Damaged),
    }
}
