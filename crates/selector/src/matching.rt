ghost use Rattle.std.specs.Prelude.{◌≡◌, Some, true, option_map, option_and_then};
ghost use Rattle.std.specs.List.{list_any};
ghost use Rattle.couch_json.specs.FieldPath.{value_at};
ghost use Rattle.couch_json.specs.Parts.{is_object, is_there_and};
ghost use Rattle.couch_json.specs.View.{view, items_of, items_view};
ghost use Rattle.selector.specs.Lookup.{lookup_decides, place_decides, truth_by};
ghost use Rattle.selector.specs.LookedUp.{IsLookedUp};
ghost use Rattle.selector.specs.Operators.{operator_named};
ghost use Rattle.selector.specs.Truth.{are_same, is_true, truths, item_truths, member_truth, some_item, each_item, each_of_some, meets};
ghost use Rattle.selector.specs.View.{name_of, value_of};

use crate::elements::elements;
use crate::lookup::{Lookup, selector_at};
use crate::meeting::meets;
use crate::members::Members;
use crate::operator::{ListOperator, SelectorOperator, ValueOperator, decides};
use crate::selector::{Condition, Field, Selector};
use couch_json::{Json, at, collate};

/// Tells whether the selector is true of the current value, which may be missing. `root` is the value
/// that the outermost selector is asked of.
#[cycle(truth)]
pub(crate) fn is_true(selector: &Selector, current: Option<&Json>, root: &Json) -> bool
    ensures truth { result ≡ is_true (view root.now) selector.now (option_map (λ v. view v.now) current.entry) }
    ensures object { is_object selector.now ≡ true }
{
    for condition in &selector.conditions {
        if !is_condition_true(condition, current, root) {
            return false;
        }
    }
    true
}

#[cycle(truth)]
fn is_condition_true(condition: &Condition, current: Option<&Json>, root: &Json) -> bool
    ensures { let v = value_of condition.now in IsLookedUp condition.now → result
        ≡ member_truth (view root.now) (operator_named (name_of condition.now)) (name_of condition.now) v
        (is_true (view root.now) v) (truths (view root.now) v) (option_map (λ v. view v.now) current.entry) }
{
    match condition {
        Condition::Field(field, selector) => is_true(selector, follow_path(field, current), root),
        Condition::FieldIs(field, value) => is_met(
            ValueOperator::IsEqual,
            &value.json,
            follow_path(field, current),
        ),
        Condition::Exists(true) => current.is_some(),
        Condition::Exists(false) => current.is_none(),
        Condition::Value(operator, argument) => is_met(*operator, argument, current),
        Condition::In(members) => is_in(members, current),
        Condition::NotIn(members) => is_not_in(members, current),
        Condition::All(members) => has_all(members, current),
        Condition::SameAs(path) => is_same(at(root, path), current),
        Condition::Selector(SelectorOperator::IsFalse, selector) => !is_true(
            selector, current, root,
        ),
        Condition::Selector(SelectorOperator::SomeElement, selector) => match current {
            Some(value) => is_true_of_some(selector, elements(value), root),
            None => false,
        },
        Condition::Selector(SelectorOperator::EachElement, selector) => match current {
            Some(value) => is_true_of_each(selector, elements(value), root),
            None => false,
        },
        Condition::List(operator, selectors, lookup) => is_true_by(
            *operator,
            list_decides(*operator, selectors, lookup, current, root),
        ),
    }
}

/// Tells what the field's path reaches in the current value.
fn follow_path<'a>(field: &Field, current: Option<&'a Json>) -> Option<&'a Json>
    ensures { option_map (λ v. view v.now) result
        ≡ option_and_then (value_at field.now.path) (option_map (λ v. view v.now) current.entry) }
{
    at(current?, &field.path)
}

/// Tells whether the value is there and meets the operator.
fn is_met(operator: ValueOperator, argument: &Json, current: Option<&Json>) -> bool
    ensures { result ≡ is_there_and (meets operator (view argument.now)) (option_map (λ v. view v.now) current.entry) }
{
    match current {
        Some(value) => meets(operator, argument, value),
        None => false,
    }
}

/// Tells whether the value is there and among these.
fn is_in(members: &Members, current: Option<&Json>) -> bool
    ensures { result ≡ is_there_and (meets ValueOperator.IsIn members.now) (option_map (λ v. view v.now) current.entry) }
{
    match current {
        Some(value) => members.contains(value),
        None => false,
    }
}

/// Tells whether the value is there and none of these.
fn is_not_in(members: &Members, current: Option<&Json>) -> bool
    ensures { result ≡ is_there_and (meets ValueOperator.IsNotIn members.now) (option_map (λ v. view v.now) current.entry) }
{
    match current {
        Some(value) => !members.contains(value),
        None => false,
    }
}

/// Tells whether the value is there and a list with each of these.
fn has_all(members: &Members, current: Option<&Json>) -> bool
    ensures { result ≡ is_there_and (meets ValueOperator.HasAll members.now) (option_map (λ v. view v.now) current.entry) }
{
    match current {
        Some(value) => members.are_all_in(elements(value)),
        None => false,
    }
}

/// Tells whether both values are there and equal.
fn is_same(reached: Option<&Json>, current: Option<&Json>) -> bool
    ensures { result ≡ are_same (option_map (λ v. view v.now) reached.entry) (option_map (λ v. view v.now) current.entry) }
{
    match (reached, current) {
        (Some(reached), Some(current)) => collate(current, reached).is_eq(),
        _ => false,
    }
}

#[cycle(truth)]
fn is_true_of_some(selector: &Selector, items: &[Json], root: &Json) -> bool
    ensures { result ≡ some_item (λ v. is_true (view root.now) selector.now (Some v)) (items_view items.now) }
{
    for item in items {
        if is_true(selector, Some(item), root) {
            return true;
        }
    }
    false
}

/// Tells whether there is an element, and the selector is true of each.
#[cycle(truth)]
fn is_true_of_each(selector: &Selector, items: &[Json], root: &Json) -> bool
    ensures { result ≡ each_of_some (λ v. is_true (view root.now) selector.now (Some v)) (items_view items.now) }
{
    !items.is_empty() && is_true_of_all(selector, items, root)
}

#[cycle(truth)]
fn is_true_of_all(selector: &Selector, items: &[Json], root: &Json) -> bool
    ensures { result ≡ each_item (λ v. is_true (view root.now) selector.now (Some v)) (items_view items.now) }
{
    for item in items {
        if !is_true(selector, Some(item), root) {
            return false;
        }
    }
    true
}

/// Tells whether a list is true, by whether one of its selectors decides it.
fn is_true_by(operator: ListOperator, decided: bool) -> bool
    ensures { result ≡ truth_by operator decided }
{
    match operator {
        ListOperator::SomeTrue => decided,
        ListOperator::AllTrue | ListOperator::NoneTrue => !decided,
    }
}

/// Tells whether what is looked up decides the list, or a selector that is asked.
#[cycle(truth)]
fn list_decides(
    operator: ListOperator,
    selectors: &Vec<Selector>,
    lookup: &Lookup,
    current: Option<&Json>,
    root: &Json,
) -> bool
    ensures { result ≡ lookup_decides operator (view root.now) (option_map (λ v. view v.now) current.entry) selectors.now.items lookup.now }
{
    lookup.decides(current) || one_decides(operator, selectors, &lookup.walked, current, root)
}

/// Tells whether one of the selectors at these places decides the list.
#[cycle(truth)]
fn one_decides(
    operator: ListOperator,
    selectors: &Vec<Selector>,
    places: &Vec<usize>,
    current: Option<&Json>,
    root: &Json,
) -> bool
    ensures { result ≡ list_any (place_decides operator (view root.now) (option_map (λ v. view v.now) current.entry) selectors.now.items) places.now.items }
{
    for place in places {
        if decides_at(operator, selectors, *place, current, root) {
            return true;
        }
    }
    false
}

/// Tells whether the selector at this place decides the list.
#[cycle(truth)]
fn decides_at(
    operator: ListOperator,
    selectors: &Vec<Selector>,
    place: usize,
    current: Option<&Json>,
    root: &Json,
) -> bool
    ensures { result ≡ place_decides operator (view root.now) (option_map (λ v. view v.now) current.entry) selectors.now.items place }
{
    match selector_at(selectors, place) {
        Some(selector) => decides(operator, is_true(selector, current, root)),
        None => false,
    }
}
