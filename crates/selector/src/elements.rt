ghost use Rattle.std.specs.Prelude.{◌≡◌};
ghost use Rattle.std.specs.Ordering.{is_eq};
ghost use Rattle.couch_json.specs.Collation.{collation};
ghost use Rattle.couch_json.specs.View.{view, items_view};
ghost use Rattle.selector.specs.Truth.{elements_or_none, is_element, each_item, each_of_some};

use couch_json::{Json, collate};

/// Returns the elements of a list, and none where it is no list.
pub(crate) fn elements(value: &Json) -> &[Json]
    ensures { items_view result.now ≡ elements_or_none (view value.now) }
{
    match value.items() {
        Some(items) => items,
        None => &[],
    }
}

/// Tells whether the value equals one of the elements.
pub(crate) fn is_among(value: &Json, items: &[Json]) -> bool
    ensures { result ≡ is_element (view value.now) (items_view items.now) }
{
    for item in items {
        if collate(value, item).is_eq() {
            return true;
        }
    }
    false
}

/// Tells whether there is a value wanted, and each of them is among the elements.
pub(crate) fn has_all(wanted: &[Json], items: &[Json]) -> bool
    ensures { result ≡ each_of_some (λ w. is_element w (items_view items.now)) (items_view wanted.now) }
{
    !wanted.is_empty() && are_among(wanted, items)
}

/// Tells whether each of the values is among the elements.
pub(crate) fn are_among(wanted: &[Json], items: &[Json]) -> bool
    ensures { result ≡ each_item (λ w. is_element w (items_view items.now)) (items_view wanted.now) }
{
    for value in wanted {
        if !is_among(value, items) {
            return false;
        }
    }
    true
}
