//! The pages by key of a plain store, made from its writes.

ghost use Rattle.std.specs.Prelude.{◌≡◌, ◌≤◌, [], IfOk, IfSome, OnOk, filter, length, map as list_map, option_map};
ghost use Rattle.std.specs.FinMap as map;
ghost use Rattle.std.specs.List.{count_by};
ghost use Rattle.couch_json.specs.KeyCuts.{begin_with, extends_key};
ghost use Rattle.couch_json.specs.Value.{array};
ghost use Rattle.couch_json.specs.View.{items_view, view};
ghost use Rattle.store.specs.Indexes.{index_fields_of, index_over, put_in_index, queried_document};
ghost use Rattle.store.specs.KeyPages.{is_above, is_key_before, is_key_within, key_page, lies_above};
ghost use Rattle.store.specs.KeyPageStructs.{HasKeyCounts, key_page_in, key_page_of};
ghost use Rattle.store.specs.Pages.{in_direction};
ghost use Rattle.store.specs.Plain.{document_entries, gathered_after, history_after, place_views, places_over};
ghost use Rattle.store.specs.Writing.{additions};

use crate::index_page::{CutSide, IndexKey, KeyCut, KeyRange, KeyRow, PageByKey};
use crate::indexes::{read_index_fields, show_queried, values_at};
use crate::order::{cut_to_limit, put_sorted};
use crate::plain::Documents;
use crate::plain_id_pages::{counts_if, reverse_if};
use crate::plain_sequence_pages::documents_of;
use crate::replay::history_of;
use crate::write::Write;
use couch_json::{FieldPath, Got, Json, collate};
use std::alloc::Global;
use std::cmp::min;
use std::collections::BTreeMap;
use tree::{DocId, History};

/// Lists the rows of an index over the documents that the writes made, cut by the range; `None` where
/// the design document declares no index of this name.
pub(crate) fn page_by_key(
    alloc: Global,
    writes: &Vec<Write>,
    design: &DocId,
    index: &str,
    range: &KeyRange,
) -> Got<Option<PageByKey>>
    ensures page { IfOk result
        (λ page. key_page_in page ≡ option_map (λ fields. key_page range.now (places_over fields (gathered_after 0 [] (additions writes.now.items))))
        (index_fields_of design.now (history_after map.empty design.now (additions writes.now.items)) index.now)) }
    ensures counted { IfOk result (λ page. IfSome page (HasKeyCounts range.now)) }
{
    let history = history_of(alloc, writes, design)?;
    match read_index_fields(alloc, design, &history, index)? {
        Some(fields) => Ok(Some(gather_places(alloc, writes, &fields, range)?)),
        None => Ok(None),
    }
}

/// Gathers the documents that the writes made, and lists those places in the index that are in the range.
fn gather_places(
    alloc: Global,
    writes: &Vec<Write>,
    fields: &[FieldPath],
    range: &KeyRange,
) -> Got<PageByKey>
    ensures page { IfOk result (λ page. key_page_of page ≡ key_page range.now (places_over fields.now (gathered_after 0 [] (additions writes.now.items)))) }
    ensures counted { IfOk result (HasKeyCounts range.now) }
{
    let documents = documents_of(alloc, writes)?;
    let rows = list_places(alloc, fields, documents)?;
    cut_by_key(rows, range)
}

/// Cuts the rows of a whole index, ascending, to the page of a range.
pub fn cut_by_key(rows: Vec<KeyRow>, range: &KeyRange) -> Got<PageByKey>
    ensures page { IfOk result (λ page. key_page_of page ≡ key_page range.now rows.items) }
    ensures counted { IfOk result (HasKeyCounts range.now) }
{
    let total = rows.len() as u64;
    let before = count_before(&rows, range);
    let mut rows = rows_within(reverse_if(rows, range.descending), range);
    let skipped = min(range.skip, rows.len() as u64);
    let rows = rows.split_off(skipped as usize)?;
    Ok(PageByKey {
        rows: cut_to_limit(rows, range.limit),
        counts: counts_if(range.counted, before + skipped, total),
    })
}

/// Lists the places of the documents in an index of these fields, ascending.
fn list_places(alloc: Global, fields: &[FieldPath], documents: Documents) -> Got<Vec<KeyRow>>
    ensures { IfOk result (λ rows. rows.items ≡ places_over fields.now (document_entries documents.items)) }
{
    let mut documents = documents;
    let mut index = BTreeMap::new(alloc);
    while let Some((id, document)) = documents.pop() {
        put_in_index(alloc, &mut index, fields, id, &document.history)?;
    }
    Ok(list_index_rows(alloc, index)?)
}

/// Lists the rows of an index, ascending, and drops the documents.
pub fn list_index_rows(alloc: Global, index: BTreeMap<KeyRow, Json>) -> Got<Vec<KeyRow>>
    ensures { IfOk result (λ rows. rows.items ≡ list_map (λ e. e.0) index.entries) }
{
    Ok(index.into_keys().collect(alloc)?)
}

/// Puts a document at its place in an index of these fields, where queries look at it and it has all of
/// them. The index goes by its rows, and holds the documents as they are shown.
pub fn put_in_index(
    alloc: Global,
    index: &mut BTreeMap<KeyRow, Json>,
    fields: &[FieldPath],
    id: DocId,
    history: &History,
) -> Got<()>
    ensures ok { OnOk result (place_views index.new.entries ≡ put_in_index fields.now id (queried_document id history.now) (place_views index.old.entries)) }
{
    let Some(document) = show_queried(alloc, &id, history)? else {
        return Ok(());
    };
    let Some(values) = values_at(alloc, fields, &document)? else {
        return Ok(());
    };
    put_sorted(index, KeyRow::new(make_key(values), id), document)?;
    Ok(())
}

/// Makes the key of these values.
fn make_key(values: Vec<Json>) -> IndexKey
    ensures { result ≡ array (items_view values.items) }
{
    IndexKey::new(Json::Array(values))
}

/// Counts how many rows come before the range.
fn count_before(rows: &Vec<KeyRow>, range: &KeyRange) -> u64
    ensures count { result ≡ count_by (λ r. is_key_before range.now r.key) rows.now.items }
    ensures within { result ≤ length rows.now.items }
{
    let mut count = 0;
    for row in rows {
        if precedes(range, row.key()) {
            count += 1;
        }
    }
    count
}

fn rows_within(rows: Vec<KeyRow>, range: &KeyRange) -> Vec<KeyRow>
    ensures rows { result.items ≡ filter (λ r. is_key_within range.now r.key) rows.items }
    ensures fewer { length result.items ≤ length rows.items }
{
    let mut rows = rows;
    rows.retain(|row| fits(range, row.key()));
    rows
}

fn fits(range: &KeyRange, key: &IndexKey) -> bool
    ensures { result ≡ is_key_within range.now key.now }
{
    is_above(true, &range.low, key) && !is_above(false, &range.high, key)
}

/// Tells whether a key comes before the range, in its direction.
fn precedes(range: &KeyRange, key: &IndexKey) -> bool
    ensures { result ≡ is_key_before range.now key.now }
{
    if range.descending {
        is_above(false, &range.high, key)
    } else {
        !is_above(true, &range.low, key)
    }
}

/// Tells whether a key lies above a cut; where there is none, what is said.
fn is_above(otherwise: bool, cut: &Option<KeyCut>, key: &IndexKey) -> bool
    ensures { result ≡ is_above otherwise cut.now key.now }
{
    match cut {
        Some(cut) => lies_above(cut.side, cut.key.json(), key.json()),
        None => otherwise,
    }
}

/// Tells whether a value lies above a cut at `key`.
fn lies_above(side: CutSide, key: &Json, value: &Json) -> bool
    ensures { result ≡ lies_above side (view key.now) (view value.now) }
{
    match side {
        CutSide::Before => collate(value, key).is_ge(),
        CutSide::After => collate(value, key).is_gt(),
        CutSide::AfterPrefix => collate(value, key).is_gt() && !extends(key, value),
    }
}

/// Tells whether a value is an array that begins with the elements of `key`.
fn extends(key: &Json, value: &Json) -> bool
    ensures { result ≡ extends_key (view key.now) (view value.now) }
{
    match (key.items(), value.items()) {
        (Some(front), Some(items)) => begin_with(front, items),
        _ => false,
    }
}

fn begin_with(front: &[Json], items: &[Json]) -> bool
    ensures { result ≡ begin_with (items_view front.now) (items_view items.now) }
{
    let mut left = items.iter();
    for item in front {
        let Some(other) = left.next() else {
            return false;
        };
        if collate(item, other).is_ne() {
            return false;
        }
    }
    true
}
