ghost use Rattle.std.specs.Prelude.{◌≡◌, ◌≤◌, ◌<◌, IfOk, is_ok, length, true};
ghost use Rattle.std.specs.List.{HoldsAt, list_all};
ghost use Rattle.std.specs.declared.cmp.Ordering.TheVariants.{Equal};
ghost use Rattle.couch_json.specs.Collation.{collation};
ghost use Rattle.std.specs.List.Sorted.{IsStrictlySortedBy};
ghost use Rattle.couch_json.specs.Parts.{is_array};
ghost use Rattle.couch_json.specs.Value.{array};
ghost use Rattle.couch_json.specs.View.{view, items_view};
ghost use Rattle.selector.specs.Members.{HaveSame, marks_of, value_order};
ghost use Rattle.selector.specs.Truth.{each_item, each_of_some, elements_or_none, is_element};

use crate::elements::are_among;
use couch_json::{Got, Json, collate};
use std::alloc::Global;
use std::cmp::Ordering;
use std::marker::Model;
use std::snapshot::Snapshot;

/// How many values one pass over a list looks for. Each takes a byte of the stack.
const PASS: usize = 65536;

/// As many values are looked for with marks that are cleared at once.
const SOME: usize = 1024;

/// As many values are looked for one by one.
const FEW: usize = 16;

/// The elements of a list, each once and in their order, so that a value is found among them by
/// halves. In clauses it is the list.
pub(crate) struct Members {
    values: Vec<Json>,
    /// The list, for clauses alone.
    list: Snapshot<Json>,
}

// Written out, so that callers do not prove again how each part is dropped.
impl Drop for Members {
    fn drop(self) {
        let Members { values: _, list: _ } = self;
    }
}

impl Model for Members {
    ghost use Rattle.couch_json.specs.Value.{Value as JsonValue};
    ghost use Rattle.couch_json.specs.Code.{value_code};
    ghost use Rattle.couch_json.specs.View.{view as json_view};
    ghost use Rattle.std.specs.List.Sorted.{IsStrictlySortedBy};
    ghost use Rattle.selector.specs.Members.{HaveSame, value_order};
    ghost use Rattle.selector.specs.Truth.{elements_or_none};

    ghost Value = { JsonValue };

    ghost coded = { value_code };

    ghost view = { λ m. json_view m.list.value };

    ghost invariant = { λ m. HaveSame m.values.items (elements_or_none (json_view m.list.value)) × IsStrictlySortedBy value_order m.values.items };
}

impl Members {
    /// Takes the elements of a list.
    pub(crate) fn of(alloc: Global, list: &Json) -> Got<Members>
        ensures { IfOk result (λ m. m ≡ view list.now) }
    {
        let values = sort_values(copy_elements(alloc, list)?);
        Ok(Members {
            values,
            list: Snapshot::of(list),
        })
    }

    /// Takes values as the elements.
    pub(crate) fn of_values(values: Vec<Json>) -> Members
        ensures { result ≡ array (items_view values.items) }
    {
        let list = Json::Array(values);
        let snapshot = Snapshot::of(&list);
        let values = sort_values(into_elements(list));
        Members {
            values,
            list: snapshot,
        }
    }

    /// Tells whether the value equals one of the elements.
    pub(crate) fn contains(&self, value: &Json) -> bool
        ensures { result ≡ is_element (view value.now) (elements_or_none self.now) }
    {
        find(value, &self.values).is_ok()
    }

    /// Tells whether there is an element, and each is among the items. It goes through the items
    /// once for each `PASS` elements.
    pub(crate) fn are_all_in(&self, items: &[Json]) -> bool
        ensures { result ≡ each_of_some (λ w. is_element w (items_view items.now)) (elements_or_none self.now) }
    {
        has_each(self.as_slice(), items)
    }

    /// Returns the elements in their order, each once.
    pub(crate) fn as_slice(&self) -> &[Json]
        ensures same { HaveSame result.now (elements_or_none self.now) }
        ensures ascending { IsStrictlySortedBy value_order result.now }
    {
        &self.values
    }
}

fn copy_elements(alloc: Global, list: &Json) -> Got<Vec<Json>>
    ensures { IfOk result (λ vs. items_view vs.items ≡ elements_or_none (view list.now)) }
{
    match list.copy(alloc)? {
        Json::Array(items) => Ok(items),
        _ => Ok(Vec::new(alloc)),
    }
}

fn into_elements(list: Json) -> Vec<Json>
    requires { is_array (view list) ≡ true }
    ensures { items_view result.items ≡ elements_or_none (view list) }
{
    match list {
        Json::Array(items) => items,
        _ => unreachable!(),
    }
}

/// Puts values in their order, each once.
fn sort_values(values: Vec<Json>) -> Vec<Json>
    ensures same { HaveSame result.items (items_view values.items) }
    ensures ascending { IsStrictlySortedBy value_order result.items }
{
    let mut values = values;
    values.sort_unstable_by(
        |left: &Json, right: &Json| -> Ordering
            ensures { result ≡ value_order left.entry.now right.entry.now }
        { collate(left, right) },
    );
    values.dedup_by(|left, right| collate(left, right).is_eq());
    values
}

/// Finds where a value stands among values in their order, or else where it would stand.
fn find(value: &Json, values: &[Json]) -> Result<usize, usize>
    requires { IsStrictlySortedBy value_order values.now }
    ensures among { is_ok result ≡ is_element (view value.now) (items_view values.now) }
    ensures place { IfOk result (λ at. (at < length values.now) × HoldsAt (λ y. collation (view y) (view value.now) ≡ Equal) values.now at) }
{
    values.binary_search_by(
        |other: &Json| -> Ordering
            ensures { result ≡ collation (view other.entry.now) (view value.entry.now) }
        { collate(other, value) },
    )
}

/// Tells whether there is a value, and each of them is among the items. They differ, so there are at
/// least as many items then.
fn has_each(values: &[Json], items: &[Json]) -> bool
    requires { IsStrictlySortedBy value_order values.now }
    ensures { result ≡ each_of_some (λ w. is_element w (items_view items.now)) (items_view values.now) }
{
    if values.is_empty() {
        return false;
    }
    if values.len() > items.len() {
        return false;
    }
    are_among_by_parts(values, items)
}

/// Tells whether each of the values, which stand in their order, is among the items.
fn are_among_by_parts(values: &[Json], items: &[Json]) -> bool
    requires { IsStrictlySortedBy value_order values.now }
    ensures { result ≡ each_item (λ w. is_element w (items_view items.now)) (items_view values.now) }
{
    let mut rest = values;
    while rest.len() > PASS {
        let (front, back) = rest.split_at(PASS);
        if !are_found(front, items) {
            return false;
        }
        rest = back;
    }
    are_found(rest, items)
}

/// Tells the same of as many values as one pass over the items looks for.
fn are_found(values: &[Json], items: &[Json]) -> bool
    requires ascending { IsStrictlySortedBy value_order values.now }
    requires few { length values.now ≤ PASS }
    ensures { result ≡ each_item (λ w. is_element w (items_view items.now)) (items_view values.now) }
{
    if values.len() <= FEW {
        return are_among(values, items);
    }
    if values.len() <= SOME {
        return are_found_by_some_marks(values, items);
    }
    are_found_by_many_marks(values, items)
}

/// Tells the same by marks for `SOME` values.
fn are_found_by_some_marks(values: &[Json], items: &[Json]) -> bool
    requires ascending { IsStrictlySortedBy value_order values.now }
    requires few { length values.now ≤ SOME }
    ensures { result ≡ each_item (λ w. is_element w (items_view items.now)) (items_view values.now) }
{
    let mut marks = [false; SOME];
    let marks = &mut marks[..values.len()];
    mark_found(values, items, marks);
    are_marked(marks)
}

/// Tells the same by marks for `PASS` values. It stands apart, so that fewer values need no such stack.
#[inline(never)]
fn are_found_by_many_marks(values: &[Json], items: &[Json]) -> bool
    requires ascending { IsStrictlySortedBy value_order values.now }
    requires few { length values.now ≤ PASS }
    ensures { result ≡ each_item (λ w. is_element w (items_view items.now)) (items_view values.now) }
{
    let mut marks = [false; PASS];
    let marks = &mut marks[..values.len()];
    mark_found(values, items, marks);
    are_marked(marks)
}

/// Marks the values that are among the items, and no other.
fn mark_found(values: &[Json], items: &[Json], marks: &mut [bool])
    requires ascending { IsStrictlySortedBy value_order values.now }
    requires len { length marks.old ≡ length values.now }
    ensures { marks.new ≡ marks_of values.now items.now }
{
    marks.fill(false);
    for item in items {
        match find(item, values) {
            Ok(at) => marks[at] = true,
            Err(_at) => {}
        }
    }
}

fn are_marked(marks: &[bool]) -> bool
    ensures { result ≡ list_all (λ b. b) marks.now }
{
    for mark in marks {
        if !*mark {
            return false;
        }
    }
    true
}
