//! The pages by id of a plain store, made from its writes.

ghost use Rattle.std.specs.Prelude.{◌≡◌, ◌≤◌, [], IfOk, filter, length, option_map, drop};
ghost use Rattle.std.specs.List.{count_by, list_any};
ghost use Rattle.store.specs.Pages.{comes_before, in_direction, id_page, if_counted, is_after_end, is_before_start, is_within, live_rev, live_rows};
ghost use Rattle.store.specs.PageStructs.{IsCounted, id_page_of};
ghost use Rattle.store.specs.Plain.{document_entries, gathered_after};
ghost use Rattle.store.specs.Writing.{additions};

use crate::listing::{IdRange, IdRow, PageById, RowCounts};
use crate::order::cut_to_limit;
use crate::plain::Documents;
use crate::plain_sequence_pages::documents_of;
use crate::write::Write;
use couch_json::Got;
use std::alloc::Global;
use std::cmp::min;
use tree::{DocId, History, Rev};

/// Lists the rows that the writes made, by id, cut by the range. Where no write is of a document in the
/// range, and nothing is counted, no document is gathered.
pub(crate) fn page_by_id(alloc: Global, writes: &Vec<Write>, range: &IdRange) -> Got<PageById>
    ensures page { IfOk result (λ page. id_page_of page ≡ id_page range.now (live_rows (gathered_after 0 [] (additions writes.now.items)))) }
    ensures counted { IfOk result (IsCounted range.now) }
{
    if range.counted || has_fitting(writes, range) {
        return gather_page(alloc, writes, range);
    }
    Ok(PageById {
        rows: Vec::new(alloc),
        counts: None,
    })
}

/// Tells whether some write is of a document in the range.
fn has_fitting(writes: &[Write], range: &IdRange) -> bool
    ensures { result ≡ list_any (λ a. is_within range.now a.id) (additions writes.now) }
{
    for write in writes {
        if fits(range, &write.id) {
            return true;
        }
    }
    false
}

/// Gathers the documents that the writes made, and lists those in the range.
fn gather_page(alloc: Global, writes: &Vec<Write>, range: &IdRange) -> Got<PageById>
    ensures page { IfOk result (λ page. id_page_of page ≡ id_page range.now (live_rows (gathered_after 0 [] (additions writes.now.items)))) }
    ensures counted { IfOk result (IsCounted range.now) }
{
    let documents = documents_of(alloc, writes)?;
    let rows = list_live_rows(alloc, &documents)?;
    cut_by_id(rows, range)
}

/// Cuts the rows of a whole listing by id, ascending, to the page of a range.
pub fn cut_by_id(rows: Vec<IdRow>, range: &IdRange) -> Got<PageById>
    ensures page { IfOk result (λ page. id_page_of page ≡ id_page range.now rows.items) }
    ensures counted { IfOk result (IsCounted range.now) }
{
    let total = rows.len() as u64;
    let before = count_before(&rows, range);
    let mut rows = rows_within(reverse_if(rows, range.descending), range);
    let skipped = min(range.skip, rows.len() as u64);
    let rows = rows.split_off(skipped as usize)?;
    Ok(PageById {
        rows: cut_to_limit(rows, range.limit),
        counts: counts_if(range.counted, before + skipped, total),
    })
}

pub(crate) fn counts_if(counted: bool, offset: u64, total: u64) -> Option<RowCounts>
    ensures { result ≡ if_counted counted (record { offset = offset; total = total }) }
{
    if counted {
        return Some(RowCounts { offset, total });
    }
    None
}

/// Builds a row for each document whose winner is not deleted.
fn list_live_rows(alloc: Global, documents: &Documents) -> Got<Vec<IdRow>>
    ensures { IfOk result (λ rows. rows.items ≡ live_rows (document_entries documents.now.items)) }
{
    let mut rows = Vec::new(alloc);
    for (id, document) in documents {
        if let Some(rev) = find_live_rev(&document.history) {
            rows.push(IdRow {
                id: id.copy(alloc)?,
                rev,
            })?;
        }
    }
    Ok(rows)
}

/// Finds the winner, where it is not deleted.
pub(crate) fn find_live_rev(history: &History) -> Option<Rev>
    ensures { result ≡ live_rev history.now }
{
    let winner = history.winner()?;
    match history.body(winner) {
        Some((true, _body)) => None,
        _ => Some(*winner),
    }
}

/// Returns the items as they are, or in reverse where a listing goes down.
pub fn reverse_if<T: Drop>(items: Vec<T>, descending: bool) -> Vec<T>
    ensures { result.items ≡ in_direction descending items.items }
{
    let mut items = items;
    if descending {
        items.reverse();
    }
    items
}

/// Counts how many rows come before the start of the range.
fn count_before(rows: &Vec<IdRow>, range: &IdRange) -> u64
    ensures count { result ≡ count_by (λ r. is_before_start range.now r.id) rows.now.items }
    ensures within { result ≤ length rows.now.items }
{
    let mut count = 0;
    for row in rows {
        if precedes_start(range, &row.id) {
            count += 1;
        }
    }
    count
}

fn rows_within(rows: Vec<IdRow>, range: &IdRange) -> Vec<IdRow>
    ensures rows { result.items ≡ filter (λ r. is_within range.now r.id) rows.items }
    ensures fewer { length result.items ≤ length rows.items }
{
    let mut rows = rows;
    rows.retain(|row| fits(range, &row.id));
    rows
}

fn fits(range: &IdRange, id: &DocId) -> bool
    ensures { result ≡ is_within range.now id.now }
{
    !(precedes_start(range, id) || passes_end(range, id))
}

fn precedes_start(range: &IdRange, id: &DocId) -> bool
    ensures { result ≡ is_before_start range.now id.now }
{
    match &range.start {
        Some(start) => precedes(range.descending, id.as_str(), start.as_str()),
        None => false,
    }
}

fn passes_end(range: &IdRange, id: &DocId) -> bool
    ensures { result ≡ is_after_end range.now id.now }
{
    match &range.end {
        Some(end) if range.inclusive_end => {
            precedes(range.descending, end.as_str(), id.as_str())
        }
        Some(end) => !precedes(range.descending, id.as_str(), end.as_str()),
        None => false,
    }
}

/// Tells whether a text comes before another in this direction.
fn precedes(descending: bool, a: &str, b: &str) -> bool
    ensures { result ≡ comes_before descending a.now b.now }
{
    if descending {
        b.as_bytes().cmp(a.as_bytes()).is_lt()
    } else {
        a.as_bytes().cmp(b.as_bytes()).is_lt()
    }
}
