//! Fields that a selector binds to one value.

ghost use Rattle.std.specs.Prelude.{◌≡◌, ◌&&◌, IfOk, IfSome, None, Some, false, true};
ghost use Rattle.std.specs.Ordering.{is_eq};
ghost use Rattle.couch_json.specs.Collation.{collation};
ghost use Rattle.couch_json.specs.FieldPath.{value_at};
ghost use Rattle.couch_json.specs.Value.{Value, array};
ghost use Rattle.couch_json.specs.View.{items_view, view};
ghost use Rattle.selector.specs.Bounds.{contain};
ghost use Rattle.selector.specs.Truth.{selector_matches};
ghost use Rattle.selector.specs.declared.bounds.Bounds.TheVariants.{Range};
ghost use Rattle.store.specs.declared.index_page.CutSide.TheVariants.{After, Before};
ghost use Rattle.find.specs.inner.Planning.{AreFixed};

use crate::query::Query;
use couch_json::{FieldPath, Got, Json, collate};
use selector::{Bounds, Edge};
use std::alloc::Global;
use store::{CutSide, IndexKey, KeyCut, KeyRange};

/// Copies the values that these fields have in each document that the query finds; `None` where its
/// selector does not bind each of them to one value.
pub(crate) fn fixed_values(
    alloc: Global,
    fields: &[FieldPath],
    query: &Query,
) -> Got<Option<Vec<Json>>>
    ensures { IfOk result (λ values. IfSome values (λ vs. AreFixed fields.now (items_view vs.items) query.now)) }
{
    let mut values = Vec::with_capacity(alloc, fields.len())?;
    for field in fields {
        let Some(value) = fixed_value(field, query) else {
            return Ok(None);
        };
        values.push(value.copy(alloc)?)?;
    }
    Ok(Some(values))
}

/// Returns the value that this field has in each document that the query finds, where its selector binds
/// it to one.
fn fixed_value<'a>(field: &FieldPath, query: &'a Query) -> Option<&'a Json>
    ensures { IfSome result (λ value. (v : Value) → selector_matches query.now.selector v ≡ true → value_at field.now v ≡ Some (view value.now)) }
{
    match query.selector.bounds(field) {
        Bounds::Range(low, high) => only_value(low, high),
        Bounds::Any => None,
    }
}

/// Returns the value that both edges are, where no other lies between them.
pub(crate) fn only_value<'a>(low: Option<Edge<'a>>, high: Option<Edge<'a>>) -> Option<&'a Json>
    ensures { IfSome result (λ value. (v : Value) → contain (Range low.entry high.entry) (Some v) ≡ true → v ≡ view value.now) }
{
    let Some(low) = low else {
        return None;
    };
    let Some(high) = high else {
        return None;
    };
    if !are_one(low, high) {
        return None;
    }
    Some(low.value)
}

/// Tells whether both edges are one value, which is inside.
fn are_one(low: Edge<'_>, high: Edge<'_>) -> bool
    ensures { result ≡ (low.entry.inclusive && high.entry.inclusive && is_eq (collation (view low.entry.value.now) (view high.entry.value.now))) }
{
    low.inclusive && high.inclusive && collate(low.value, high.value).is_eq()
}

/// Makes the range of the rows whose key is the array of these values.
pub(crate) fn range_at(alloc: Global, values: Vec<Json>, descending: bool) -> Got<KeyRange>
    ensures { IfOk result (λ range. range ≡ record {
      low = Some (record { key = array (items_view values.items); side = Before });
      high = Some (record { key = array (items_view values.items); side = After });
      descending = descending;
      skip = 0;
      limit = None;
      counted = false;
    }) }
{
    let key = Json::Array(values);
    let copy = key.copy(alloc)?;
    Ok(range_between(IndexKey::new(copy), IndexKey::new(key), descending))
}

/// Makes the range from one key to another, both inside.
fn range_between(low: IndexKey, high: IndexKey, descending: bool) -> KeyRange
    ensures { result ≡ record {
      low = Some (record { key = low; side = Before });
      high = Some (record { key = high; side = After });
      descending = descending;
      skip = 0;
      limit = None;
      counted = false;
    } }
{
    let low = KeyCut {
        key: low,
        side: CutSide::Before,
    };
    let high = KeyCut {
        key: high,
        side: CutSide::After,
    };
    KeyRange {
        low: Some(low),
        high: Some(high),
        descending,
        skip: 0,
        limit: None,
        counted: false,
    }
}
