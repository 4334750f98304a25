//! Which rows of an index a find may read in place of all documents.

ghost use Rattle.std.specs.Prelude.{◌≡◌, IfOk, IfSome, None, Some, bytes_eq, false, if◌then◌else◌, true};
ghost use Rattle.std.specs.List.{list_any};
ghost use Rattle.couch_json.specs.Value.{Items, Value, array, item, no_items};
ghost use Rattle.couch_json.specs.View.{view};
ghost use Rattle.selector.specs.Bounds.{contain, is_above as is_over, is_below};
ghost use Rattle.store.specs.KeyPages.{is_above, is_key_within};
ghost use Rattle.store.specs.declared.index_page.CutSide.TheVariants.{AfterPrefix, Before};
ghost use Rattle.find.specs.inner.Planning.{AreThere, Covers, IsInOrder, IsThere};

use crate::fixed::{fixed_values, range_at};
use crate::plan::PlannedRows;
use crate::query::Query;
use couch_json::{FieldPath, Got, Json};
use selector::{Bounds, Edge};
use std::alloc::Global;
use store::{CutSide, IndexKey, KeyCut, KeyRange};

/// Plans which rows are read of an index of these fields; `None` where a document that the query finds
/// may lack one of them.
pub(crate) fn rows_for(
    alloc: Global,
    fields: &[FieldPath],
    query: &Query,
) -> Got<Option<PlannedRows>>
    ensures covers { IfOk result (λ rows. IfSome rows (λ r. Covers fields.now r.range query.now)) }
    ensures order { IfOk result (λ rows. IfSome rows (λ r. r.in_order ≡ true → IsInOrder fields.now r.range query.now)) }
{
    if let Some(range) = fixed_range(alloc, fields, query)? {
        return Ok(Some(PlannedRows {
            range,
            in_order: true,
        }));
    }
    let Some(range) = range_of(alloc, fields, query)? else {
        return Ok(None);
    };
    let in_order = are_same(fields, query.sort.as_slice());
    Ok(Some(PlannedRows { range, in_order }))
}

/// Returns the range of the one key that all documents that the query finds have, in an index of these
/// fields; `None` where they may have others, or are sorted.
fn fixed_range(alloc: Global, fields: &[FieldPath], query: &Query) -> Got<Option<KeyRange>>
    ensures covers { IfOk result (λ range. IfSome range (λ r. Covers fields.now r query.now)) }
    ensures order { IfOk result (λ range. IfSome range (λ r. IsInOrder fields.now r query.now)) }
{
    if !query.sort.as_slice().is_empty() {
        return Ok(None);
    }
    match fixed_values(alloc, fields, query)? {
        Some(values) => Ok(Some(range_at(alloc, values, query.descending)?)),
        None => Ok(None),
    }
}

/// Returns a range that has the key, in an index of these fields, of each document that the query finds;
/// `None` where such a document may lack one of them.
///
/// None lacks a field that the query sorts by, or that its selector bounds. The range goes in the
/// direction of the query, and is bounded by what the selector says of the first field.
fn range_of(alloc: Global, fields: &[FieldPath], query: &Query) -> Got<Option<KeyRange>>
    ensures covers { IfOk result (λ range. IfSome range (λ r. Covers fields.now r query.now)) }
    ensures direction { IfOk result (λ range. IfSome range (λ r. r.descending ≡ query.now.descending)) }
{
    if !are_there(fields, query) {
        return Ok(None);
    }
    match fields.first() {
        Some(field) => Ok(Some(range_within(
            alloc,
            query.selector.bounds(field),
            query.descending,
        )?)),
        None => Ok(Some(range_between(None, None, query.descending))),
    }
}

/// Tells whether each document that the query finds surely has these fields.
fn are_there(fields: &[FieldPath], query: &Query) -> bool
    ensures { result ≡ true → AreThere fields.now query.now }
{
    for field in fields {
        if !is_there(field, query) {
            return false;
        }
    }
    true
}

fn is_there(field: &FieldPath, query: &Query) -> bool
    ensures { result ≡ true → IsThere field.now query.now }
{
    match query.selector.bounds(field) {
        Bounds::Range(_, _) => true,
        Bounds::Any => is_sort_field(field, query),
    }
}

/// Tells whether the query sorts by this field, which each document that it finds then has.
fn is_sort_field(field: &FieldPath, query: &Query) -> bool
    ensures { result ≡ true → IsThere field.now query.now }
{
    is_among(field, query.sort.as_slice())
}

pub(crate) fn is_among(field: &FieldPath, fields: &[FieldPath]) -> bool
    ensures { result ≡ list_any (λ f. bytes_eq field.now f) fields.now }
{
    for other in fields {
        if field.as_str() == other.as_str() {
            return true;
        }
    }
    false
}

/// Tells whether both have the same fields, in the same order.
pub(crate) fn are_same(fields: &[FieldPath], others: &[FieldPath]) -> bool
    ensures { result ≡ true → fields.now ≡ others.now }
{
    let mut left = others.iter();
    for field in fields {
        let Some(other) = left.next() else {
            return false;
        };
        if !is_same(field, other) {
            return false;
        }
    }
    left.next().is_none()
}

fn is_same(field: &FieldPath, other: &FieldPath) -> bool
    ensures { result ≡ bytes_eq field.now other.now }
{
    field.as_str() == other.as_str()
}

/// Returns the range of the keys whose first value lies within bounds.
fn range_within(alloc: Global, bounds: Bounds<'_>, descending: bool) -> Got<KeyRange>
    ensures within { IfOk result (λ range. (v : Value) (vs : Items) → contain bounds.entry (Some v) ≡ true
        → is_key_within range (array (item v vs)) ≡ true) }
    ensures direction { IfOk result (λ range. range.descending ≡ descending) }
{
    match bounds {
        Bounds::Range(low, high) => {
            let low = low_cut(alloc, low)?;
            Ok(range_between(low, high_cut(alloc, high)?, descending))
        }
        Bounds::Any => Ok(range_between(None, None, descending)),
    }
}

/// Makes the cut below the keys whose first value lies above an edge.
fn low_cut(alloc: Global, edge: Option<Edge<'_>>) -> Got<Option<KeyCut>>
    ensures { IfOk result (λ cut. (v : Value) (vs : Items) → is_over edge.entry v ≡ true
        → is_above true cut (array (item v vs)) ≡ true) }
{
    match edge {
        Some(edge) => Ok(Some(cut_at(alloc, edge.value, side_of(edge.inclusive))?)),
        None => Ok(None),
    }
}

/// Makes the cut above the keys whose first value lies below an edge.
fn high_cut(alloc: Global, edge: Option<Edge<'_>>) -> Got<Option<KeyCut>>
    ensures { IfOk result (λ cut. (v : Value) (vs : Items) → is_below edge.entry v ≡ true
        → is_above false cut (array (item v vs)) ≡ false) }
{
    match edge {
        Some(edge) => Ok(Some(cut_at(alloc, edge.value, side_of(!edge.inclusive))?)),
        None => Ok(None),
    }
}

/// Returns the side of the cut that has, or has not, the keys that begin with its value above it.
fn side_of(above: bool) -> CutSide
    ensures { result ≡ if above then Before else AfterPrefix }
{
    if above {
        CutSide::Before
    } else {
        CutSide::AfterPrefix
    }
}

/// Makes the cut at the key of this value alone.
fn cut_at(alloc: Global, value: &Json, side: CutSide) -> Got<KeyCut>
    ensures { IfOk result (λ cut. cut ≡ record { key = array (item (view value.now) no_items); side = side }) }
{
    let mut values = Vec::with_capacity(alloc, 1)?;
    values.push(value.copy(alloc)?)?;
    let key = IndexKey::new(Json::Array(values));
    Ok(KeyCut { key, side })
}

/// Makes the range between two cuts, in this direction.
fn range_between(low: Option<KeyCut>, high: Option<KeyCut>, descending: bool) -> KeyRange
    ensures { result ≡ record { low = low; high = high; descending = descending; skip = 0; limit = None; counted = false } }
{
    KeyRange {
        low,
        high,
        descending,
        skip: 0,
        limit: None,
        counted: false,
    }
}
