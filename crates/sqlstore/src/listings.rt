//! What the rows of a list of documents say, as rows of a page. A row's memory is given back once it is read.

ghost use Rattle.std.specs.Prelude.{◌≡◌, ◌<◌, ◌^◌, All, IfErr, IfOk, IfSome, Some, is_some, map};
ghost use Rattle.std.specs.List.{AllByRecursion};
ghost use Rattle.store.specs.Pages.{sequence_page, up_to_limit};
ghost use Rattle.store.specs.PageStructs.{IsBounded, sequence_page_of, sequence_row_of, sequence_rows};
ghost use Rattle.tables.specs.Listings.{IsListedDocument, listed_id, listed_mark, listed_sequence, listed_winner, live_row, live_rows, sequence_row};
ghost use Rattle.sqlstore.specs.inner.Listing.{IsSequenceRow};
ghost use Rattle.transactions.specs.Reading.{IsLost, IsRead};

use sqlite::Row;
use std::alloc::Global;
use store::cuts::{cut_by_sequence, cut_to_limit};
use store::{DocumentCounts, IdRow, PageBySeq, SeqRange, SeqRow, StoreFault};
use tables::{ListedDocument, RowFault, read_listed_document};

/// Reads the rows of a page by id, up to its limit.
pub(crate) fn read_id_rows(
    alloc: Global,
    rows: Vec<Row>,
    limit: Option<u64>,
) -> Result<Vec<IdRow>, StoreFault>
    ensures { IsRead (λ read. read.items) (Some (up_to_limit limit (live_rows rows.items))) (AllByRecursion IsListedDocument rows.items) result }
{
    let live = read_live_rows(alloc, rows)?;
    Ok(cut_to_limit(live, limit))
}

/// Reads the page by sequence of these rows, each with its winner alone, in a database at this sequence
/// that has these documents.
pub(crate) fn read_page_by_sequence(
    alloc: Global,
    rows: Vec<Row>,
    sequence: u64,
    counts: Option<DocumentCounts>,
    range: &SeqRange,
) -> Result<PageBySeq, StoreFault>
    requires bounded { (sequence < 2 ^ 63) × IfSome counts (λ c. (c.documents < 2 ^ 63) × (c.deleted < 2 ^ 63)) }
    requires counted { is_some counts ≡ range.now.counted }
    ensures page { IsRead sequence_page_of (Some (sequence_page range.now sequence counts (map sequence_row rows.items)))
        (AllByRecursion IsSequenceRow rows.items) result }
    ensures bounded { IfOk result (IsBounded range.now) }
{
    let read = read_sequence_rows(alloc, rows)?;
    Ok(cut_by_sequence(read, sequence, counts, range))
}

/// Reads the document of a row.
fn read_row(alloc: Global, row: &Row) -> Result<ListedDocument, StoreFault>
    ensures id { IfOk result (λ d. d.id ≡ listed_id row.now) }
    ensures sequence { IfOk result (λ d. d.sequence ≡ listed_sequence row.now) }
    ensures winner { IfOk result (λ d. listed_winner row.now ≡ Some d.winner) }
    ensures deleted { IfOk result (λ d. d.deleted ≡ listed_mark row.now) }
    ensures err { IfErr result (IsLost (IsListedDocument row.now)) }
{
    match read_listed_document(alloc, row) {
        Ok(document) => Ok(document),
        Err(RowFault::Memory) => Err(StoreFault::Memory),
        Err(RowFault::Damaged) => Err(StoreFault::Damaged),
    }
}

// ---- by id

/// Reads the row of a listing by id, where the winner is not deleted.
fn read_live_row(alloc: Global, row: &Row) -> Result<Option<IdRow>, StoreFault>
    ensures ok { IfOk result (λ live. live ≡ live_row row.now) }
    ensures err { IfErr result (IsLost (IsListedDocument row.now)) }
{
    let document = read_row(alloc, row)?;
    if document.deleted {
        return Ok(None);
    }
    Ok(Some(IdRow {
        id: document.id,
        rev: document.winner,
    }))
}

/// Reads the rows of a listing by id.
fn read_live_rows(alloc: Global, rows: Vec<Row>) -> Result<Vec<IdRow>, StoreFault>
    ensures { IsRead (λ live. live.items) (Some (live_rows rows.items)) (AllByRecursion IsListedDocument rows.items) result }
{
    let mut live = Vec::new(alloc);
    for row in rows {
        if let Some(one) = read_live_row(alloc, &row)? {
            live.push(one)?;
        }
    }
    Ok(live)
}

// ---- by sequence

/// Reads the row of a listing by sequence, with the winner alone.
fn read_sequence_row(alloc: Global, row: &Row) -> Result<SeqRow, StoreFault>
    ensures ok { IfOk result (λ r. sequence_row_of r ≡ sequence_row row.now) }
    ensures bounded { IfOk result (λ r. r.sequence < 2 ^ 63) }
    ensures err { IfErr result (IsLost (IsSequenceRow row.now)) }
{
    let document = read_row(alloc, row)?;
    if document.sequence >= 1 << 63 {
        return Err(StoreFault::Damaged);
    }
    let mut revs = Vec::new(alloc);
    revs.push(document.winner)?;
    Ok(SeqRow {
        sequence: document.sequence,
        id: document.id,
        revs,
        deleted: document.deleted,
    })
}

/// Reads the rows of a listing by sequence, each with its winner alone.
fn read_sequence_rows(alloc: Global, rows: Vec<Row>) -> Result<Vec<SeqRow>, StoreFault>
    ensures read { IsRead (λ read. sequence_rows read.items) (Some (map sequence_row rows.items)) (AllByRecursion IsSequenceRow rows.items) result }
    ensures bounded { IfOk result (λ read. All (λ r. r.sequence < 2 ^ 63) read.items) }
{
    let mut read = Vec::with_capacity(alloc, rows.len())?;
    for row in rows {
        read.push(read_sequence_row(alloc, &row)?)?;
    }
    Ok(read)
}
