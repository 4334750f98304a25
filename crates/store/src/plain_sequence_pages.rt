//! The pages of a plain store, made from its writes.

ghost use Rattle.std.specs.Prelude.{◌≡◌, ◌≤◌, [], IfOk, IfSome, OnOk, filter, length, map as list_map, nat_lt};
ghost use Rattle.std.specs.FinMap as map;
ghost use Rattle.store.specs.Pages.{document_counts, gone_count, if_counted, in_sequence, is_gone, last_sequence};
ghost use Rattle.store.specs.Pages.{up_to_limit, page_with, row_of, rows_of, sequence_page, shown_revs};
ghost use Rattle.store.specs.PageStructs.{AreBounded, IsBounded, sequence_page_of, sequence_row_of, sequence_rows};
ghost use Rattle.store.specs.Plain.{document_entries, gathered_after, document_entry, with_addition, with_write_at};
ghost use Rattle.store.specs.Writing.{addition_of, additions};

use crate::listing::{DocumentCounts, PageBySeq, SeqRange, SeqRow};
use crate::order::{cut_to_limit, put_sorted};
use crate::plain::{Documents, PlainDocument};
use crate::write::Write;
use couch_json::Got;
use std::alloc::Global;
use std::cmp::min;
use std::collections::BTreeMap;
use tree::{DocId, History, Rev};

/// Returns the rows that the writes made, in the order of their sequences, cut by the range.
pub(crate) fn page_by_seq(alloc: Global, writes: &Vec<Write>, range: &SeqRange) -> Got<PageBySeq>
    ensures page { IfOk result
        (λ page. sequence_page_of page ≡ page_with range.now (length writes.now.items) (gathered_after 0 [] (additions writes.now.items))) }
    ensures bounded { IfOk result (IsBounded range.now) }
{
    let documents = documents_of(alloc, writes)?;
    let rows = build_rows(alloc, &documents, range.all_leaves)?;
    let rows = sort_by_sequence(alloc, rows)?;
    let sequence = writes.len() as u64;
    let counts = counts_of(&documents, range.counted);
    Ok(cut_by_sequence(rows, sequence, counts, range))
}

/// Cuts the rows of a whole listing by sequence, ascending, to the page of a range. The sequence and the
/// counts are the database's.
pub fn cut_by_sequence(
    rows: Vec<SeqRow>,
    sequence: u64,
    counts: Option<DocumentCounts>,
    range: &SeqRange,
) -> PageBySeq
    ensures page { sequence_page_of result ≡ sequence_page range.now sequence counts (sequence_rows rows.items) }
    ensures bounded { AreBounded range.now sequence counts rows.items → IsBounded range.now result }
{
    let rows = rows_after(rows, range);
    let last_seq = find_last_sequence(min(range.since, sequence), &rows);
    PageBySeq {
        rows,
        last_seq,
        sequence,
        counts,
    }
}

/// Counts the documents, where that is asked for.
fn counts_of(documents: &Documents, counted: bool) -> Option<DocumentCounts>
    ensures counts { result ≡ if_counted counted (document_counts (document_entries documents.now.items)) }
    ensures within { IfSome result (λ counts. (counts.documents ≤ length documents.now.items) × (counts.deleted ≤ length documents.now.items)) }
{
    if !counted {
        return None;
    }
    let deleted = count_deleted(documents);
    Some(DocumentCounts {
        documents: documents.len() as u64 - deleted,
        deleted,
    })
}

/// Returns the documents that the writes made, in the order of their ids.
pub(crate) fn documents_of(alloc: Global, writes: &Vec<Write>) -> Got<Documents>
    ensures { IfOk result (λ documents. document_entries documents.items ≡ gathered_after 0 [] (additions writes.now.items)) }
{
    let mut documents = BTreeMap::new(alloc);
    for (at, write) in writes.iter().enumerate() {
        take_in(alloc, &mut documents, at as u64 + 1, write)?;
    }
    Ok(list_entries(alloc, documents)?)
}

fn list_entries(alloc: Global, documents: BTreeMap<DocId, PlainDocument>) -> Got<Documents>
    ensures { IfOk result (λ entries. entries.items ≡ documents.entries) }
{
    Ok(documents.into_iter().collect(alloc)?)
}

/// Takes in the write that has this sequence.
fn take_in(
    alloc: Global,
    documents: &mut BTreeMap<DocId, PlainDocument>,
    sequence: u64,
    write: &Write,
) -> Got<()>
    ensures ok { OnOk result
        (document_entries documents.new.entries ≡ with_write_at sequence (document_entries documents.old.entries) (addition_of write.now)) }
{
    match documents.get_mut(&write.id) {
        Some(document) => write_to(document, sequence, write)?,
        None => {
            let id = write.id.copy(alloc)?;
            let document = make_document(alloc, sequence, write)?;
            put_sorted(documents, id, document)?;
        }
    }
    Ok(())
}

/// Takes the write that has this sequence into its document.
fn write_to(document: &mut PlainDocument, sequence: u64, write: &Write) -> Got<()>
    ensures ok { OnOk result (document.new ≡ record { sequence = sequence; history = with_addition document.old.history (addition_of write.now) }) }
{
    document.sequence = sequence;
    document
        .history
        .put(&write.path, write.parent, write.deleted, &write.body)
}

/// Makes the document of its first write.
fn make_document(alloc: Global, sequence: u64, write: &Write) -> Got<PlainDocument>
    ensures { IfOk result (λ document. document ≡ record { sequence = sequence; history = with_addition map.empty (addition_of write.now) }) }
{
    let mut document = PlainDocument {
        sequence,
        history: History::new(alloc),
    };
    write_to(&mut document, sequence, write)?;
    Ok(document)
}

/// Builds a row for each document.
fn build_rows(alloc: Global, documents: &Documents, all_leaves: bool) -> Got<Vec<SeqRow>>
    ensures { IfOk result (λ rows. sequence_rows rows.items ≡ rows_of all_leaves (document_entries documents.now.items)) }
{
    let mut rows = Vec::with_capacity(alloc, documents.len())?;
    for document in documents {
        rows.push(build_row(alloc, document, all_leaves)?)?;
    }
    Ok(rows)
}

fn build_row(alloc: Global, document: &(DocId, PlainDocument), all_leaves: bool) -> Got<SeqRow>
    ensures { IfOk result (λ row. sequence_row_of row ≡ row_of all_leaves (document_entry document.now)) }
{
    let (id, document) = document;
    let id = id.copy(alloc)?;
    let revs = list_revs(alloc, &document.history, all_leaves)?;
    Ok(SeqRow {
        sequence: document.sequence,
        id,
        revs,
        deleted: has_deleted_winner(&document.history),
    })
}

/// Returns all leaves, best first, or the winner alone.
fn list_revs(alloc: Global, history: &History, all_leaves: bool) -> Got<Vec<Rev>>
    ensures { IfOk result (λ revs. revs.items ≡ shown_revs all_leaves history.now) }
{
    if all_leaves {
        return history.leaves();
    }
    let mut revs = Vec::new(alloc);
    if let Some(winner) = history.winner() {
        revs.push(*winner)?;
    }
    Ok(revs)
}

/// Tells whether the winner is deleted.
fn has_deleted_winner(history: &History) -> bool
    ensures { result ≡ is_gone history.now }
{
    let Some(winner) = history.winner() else {
        return false;
    };
    match history.body(winner) {
        Some((deleted, _body)) => deleted,
        None => false,
    }
}

/// Counts how many documents have a winner that is deleted.
fn count_deleted(documents: &Documents) -> u64
    ensures count { result ≡ gone_count (document_entries documents.now.items) }
    ensures within { result ≤ length documents.now.items }
{
    let mut count = 0;
    for document in documents {
        if has_deleted_winner(&document.1.history) {
            count += 1;
        }
    }
    count
}

/// Puts rows in the order of their sequences.
fn sort_by_sequence(alloc: Global, rows: Vec<SeqRow>) -> Got<Vec<SeqRow>>
    ensures { IfOk result (λ ordered. sequence_rows ordered.items ≡ in_sequence (sequence_rows rows.items)) }
{
    let mut rows = rows;
    let mut ordered = BTreeMap::new(alloc);
    while let Some(row) = rows.pop() {
        put_sorted(&mut ordered, row.sequence, row)?;
    }
    Ok(list_values(alloc, ordered)?)
}

fn list_values(alloc: Global, ordered: BTreeMap<u64, SeqRow>) -> Got<Vec<SeqRow>>
    ensures { IfOk result (λ rows. rows.items ≡ list_map (λ e. e.1) ordered.entries) }
{
    Ok(ordered.into_values().collect(alloc)?)
}

/// Returns the rows after a sequence, up to the limit.
fn rows_after(rows: Vec<SeqRow>, range: &SeqRange) -> Vec<SeqRow>
    ensures { sequence_rows result.items ≡ up_to_limit range.now.limit (filter (λ r. nat_lt range.now.since r.sequence) (sequence_rows rows.items)) }
{
    let mut rows = rows;
    rows.retain(|row| range.since < row.sequence);
    cut_to_limit(rows, range.limit)
}

fn find_last_sequence(otherwise: u64, rows: &Vec<SeqRow>) -> u64
    ensures { result ≡ last_sequence otherwise (sequence_rows rows.now.items) }
{
    let mut last = otherwise;
    for row in rows {
        last = row.sequence;
    }
    last
}
