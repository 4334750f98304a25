ghost use Rattle.std.specs.Prelude.{◌≡◌, ◌&&◌, ◌||◌, ℕ, List, Option, Some, None, true, false, option_and_then, option_map};
ghost use Rattle.std.specs.List.{list_all, list_any};
ghost use Rattle.std.specs.List.Sorted.{IsStrictlySortedBy};
ghost use Rattle.couch_json.specs.FieldPath.{value_at};
ghost use Rattle.couch_json.specs.Parts.{is_object, is_there_and};
ghost use Rattle.couch_json.specs.Value.{Value, Items, object, member, no_members};
ghost use Rattle.couch_json.specs.View.{view, items_of, items_view};
ghost use Rattle.selector.specs.Bounds.{AreJust, IsInside, contain, is_above, is_below, is_no_higher, is_no_lower, path_value};
ghost use Rattle.selector.specs.Members.{value_order};
ghost use Rattle.selector.specs.Operators.{operator_named};
ghost use Rattle.selector.specs.Truth.{is_element, is_true, item_truths, meets, member_truth, truths};
ghost use Rattle.selector.specs.View.{name_of, value_of};
ghost use Rattle.selector.specs.declared.bounds.Bounds.TheVariants.{Any};

use crate::members::Members;
use crate::operator::{ListOperator, SelectorOperator, ValueOperator};
use crate::selector::{Condition, Field, Selector};
use couch_json::{FieldPath, Json, collate};
use std::cmp::Ordering;

/// An end of a range of values.
#[derive(Clone, Copy)]
pub struct Edge<'a> {
    /// The value that the range ends at.
    pub value: &'a Json,
    /// Whether that value is inside.
    pub inclusive: bool,
}

/// Between which values a field lies.
#[derive(Clone, Copy)]
pub enum Bounds<'a> {
    /// It has any value, or is missing.
    Any,
    /// It is there, above the first edge and below the second. Without an edge the range has no
    /// end on that side.
    Range(Option<Edge<'a>>, Option<Edge<'a>>),
}

/// Returns bounds of a field, if the selector is true of the current value. The field is what the
/// path reaches from that value or, without a path, the value itself.
#[cycle(bounds)]
pub(crate) fn bounds_in<'a>(selector: &'a Selector, path: Option<&FieldPath>) -> Bounds<'a>
    ensures inside { IsInside (λ root. is_true root selector.now) (option_map (λ p. p.now) path.entry) result }
    ensures one { (p : List ℕ) (b : Value) → option_map (λ p. p.now) path.entry ≡ Some p
        → operator_named p ≡ None → is_object b ≡ false
        → selector.now ≡ object (member p b no_members) → AreJust b result }
    ensures object { is_object selector.now ≡ true }
{
    let mut bounds = Bounds::Any;
    for condition in &selector.conditions {
        bounds = overlap(bounds, bounds_of(condition, path));
    }
    bounds
}

/// Returns bounds of the field, if this member of a selector is true.
#[cycle(bounds)]
pub(crate) fn bounds_of<'a>(condition: &'a Condition, path: Option<&FieldPath>) -> Bounds<'a>
    ensures inside { let v = value_of condition.now in IsInside
        (λ root. member_truth root (operator_named (name_of condition.now)) (name_of condition.now) v
        (is_true root v) (truths root v)) (option_map (λ p. p.now) path.entry) result }
    ensures one { option_map (λ p. p.now) path.entry ≡ Some (name_of condition.now)
        → operator_named (name_of condition.now) ≡ None → is_object (value_of condition.now) ≡ false
        → AreJust (value_of condition.now) result }
{
    match condition {
        // The value lists of another field are not walked.
        Condition::Field(field, _) if lies_elsewhere(field, path) => Bounds::Any,
        Condition::Field(field, selector) => bounds_by_field(
            field,
            bounds_in(selector, None),
            path,
        ),
        Condition::FieldIs(field, value) => bounds_by_field(field, range_of(&value.json), path),
        Condition::Exists(false) => Bounds::Any,
        Condition::Exists(true) | Condition::SameAs(_) => bounds_here(whole_range(), path),
        Condition::Value(operator, argument) => {
            bounds_here(bounds_by_value(*operator, argument), path)
        }
        Condition::In(_) if path.is_some() => Bounds::Any,
        Condition::In(members) => bounds_here(bounds_of_members(members), path),
        Condition::NotIn(_) | Condition::All(_) => bounds_here(whole_range(), path),
        Condition::Selector(SelectorOperator::IsFalse, _) => Bounds::Any,
        Condition::Selector(SelectorOperator::SomeElement, _) => bounds_here(whole_range(), path),
        Condition::Selector(SelectorOperator::EachElement, _) => bounds_here(whole_range(), path),
        Condition::List(ListOperator::AllTrue, selectors, _) => bounds_of_all(selectors, path),
        Condition::List(ListOperator::SomeTrue, selectors, _) => bounds_of_some(selectors, path),
        Condition::List(ListOperator::NoneTrue, _, _) => Bounds::Any,
    }
}

/// Returns bounds of the field, if each of the selectors is true.
#[cycle(bounds)]
fn bounds_of_all<'a>(selectors: &'a Vec<Selector>, path: Option<&FieldPath>) -> Bounds<'a>
    ensures { IsInside (λ root current. list_all (λ b. b) (item_truths root (items_of selectors.now.items) current))
        (option_map (λ p. p.now) path.entry) result }
{
    let mut bounds = Bounds::Any;
    for selector in selectors {
        bounds = overlap(bounds, bounds_in(selector, path));
    }
    bounds
}

/// Returns bounds of the field, if at least one of the selectors is true.
#[cycle(bounds)]
fn bounds_of_some<'a>(selectors: &'a Vec<Selector>, path: Option<&FieldPath>) -> Bounds<'a>
    ensures { IsInside (λ root current. list_any (λ b. b) (item_truths root (items_of selectors.now.items) current))
        (option_map (λ p. p.now) path.entry) result }
{
    let mut hull = None;
    for selector in selectors {
        hull = Some(hull_of(hull, bounds_in(selector, path)));
    }
    match hull {
        Some(bounds) => bounds,
        None => Bounds::Any,
    }
}

fn lies_elsewhere(field: &Field, path: Option<&FieldPath>) -> bool
    ensures { option_map (λ p. p.now) path.entry ≡ Some field.now.path → result ≡ false }
{
    match path {
        Some(path) => field.path.as_str() != path.as_str(),
        None => false,
    }
}

/// Returns bounds of the field, if these are bounds of what another field's path reaches.
fn bounds_by_field<'a>(field: &Field, bounds: Bounds<'a>, path: Option<&FieldPath>) -> Bounds<'a>
    ensures inside { (current : Option Value)
        → contain bounds.entry (option_and_then (value_at field.now.path) current) ≡ true
        → contain result (path_value (option_map (λ p. p.now) path.entry) current) ≡ true }
    ensures same { option_map (λ p. p.now) path.entry ≡ Some field.now.path → result ≡ bounds.entry }
{
    match path {
        Some(path) if field.path.as_str() == path.as_str() => bounds,
        Some(_) => Bounds::Any,
        None => match bounds {
            Bounds::Any => Bounds::Any,
            Bounds::Range(_, _) => whole_range(),
        },
    }
}

/// Returns bounds of the field, if these are bounds of the current value.
fn bounds_here<'a>(bounds: Bounds<'a>, path: Option<&FieldPath>) -> Bounds<'a>
    ensures { (current : Option Value) → contain bounds.entry current ≡ true
        → contain result (path_value (option_map (λ p. p.now) path.entry) current) ≡ true }
{
    match path {
        Some(_) => Bounds::Any,
        None => bounds,
    }
}

/// Returns bounds of a value that meets the operator.
fn bounds_by_value<'a>(operator: ValueOperator, argument: &'a Json) -> Bounds<'a>
    ensures { (current : Option Value) → is_there_and (meets operator (view argument.now)) current ≡ true
        → contain result current ≡ true }
{
    match operator {
        ValueOperator::IsEqual => range_of(argument),
        ValueOperator::IsLess => Bounds::Range(None, Some(edge_at(argument, false))),
        ValueOperator::IsAtMost => Bounds::Range(None, Some(edge_at(argument, true))),
        ValueOperator::IsGreater => Bounds::Range(Some(edge_at(argument, false)), None),
        ValueOperator::IsAtLeast => Bounds::Range(Some(edge_at(argument, true)), None),
        _ => whole_range(),
    }
}

/// Returns bounds of a value that is one of these.
fn bounds_of_members<'a>(members: &'a Members) -> Bounds<'a>
    ensures { (current : Option Value) → is_there_and (meets ValueOperator.IsIn members.now) current ≡ true
        → contain result current ≡ true }
{
    bounds_of_values(members.as_slice())
}

/// Returns bounds of a value that is among these, which stand in their order: the first and the last.
fn bounds_of_values<'a>(values: &'a [Json]) -> Bounds<'a>
    requires { IsStrictlySortedBy value_order values.now }
    ensures { (current : Option Value) → is_there_and (λ v. is_element v (items_view values.now)) current ≡ true
        → contain result current ≡ true }
{
    match (values.first(), values.last()) {
        (Some(least), Some(greatest)) => {
            Bounds::Range(Some(edge_at(least, true)), Some(edge_at(greatest, true)))
        }
        _ => whole_range(),
    }
}

/// Returns the bounds of a field of which it is known only that it is there.
fn whole_range<'a>() -> Bounds<'a>
    ensures { (v : Value) → contain result (Some v) ≡ true }
{
    Bounds::Range(None, None)
}

/// Returns the bounds of a field that equals the value.
fn range_of<'a>(value: &'a Json) -> Bounds<'a>
    ensures { AreJust (view value.now) result }
{
    Bounds::Range(Some(edge_at(value, true)), Some(edge_at(value, true)))
}

fn edge_at<'a>(value: &'a Json, inclusive: bool) -> Edge<'a>
    ensures value { view result.value.now ≡ view value.now }
    ensures inclusive { result.inclusive ≡ inclusive }
{
    Edge { value, inclusive }
}

/// Returns the bounds that contain what both contain.
pub(crate) fn overlap<'a>(first: Bounds<'a>, second: Bounds<'a>) -> Bounds<'a>
    ensures contain { (field : Option Value)
        → contain result field ≡ contain first.entry field && contain second.entry field }
    ensures any { first.entry ≡ Any → result ≡ second.entry }
{
    match (first, second) {
        (Bounds::Any, _) => second,
        (_, Bounds::Any) => first,
        (Bounds::Range(low, high), Bounds::Range(other_low, other_high)) => {
            Bounds::Range(higher(low, other_low), lower(high, other_high))
        }
    }
}

/// Returns the narrower of two low edges.
fn higher<'a>(first: Option<Edge<'a>>, second: Option<Edge<'a>>) -> Option<Edge<'a>>
    ensures { (v : Value) → is_above result v ≡ is_above first.entry v && is_above second.entry v }
{
    match (first, second) {
        (None, _) => second,
        (_, None) => first,
        (Some(edge), Some(other)) => {
            if is_no_higher(edge, other) {
                second
            } else {
                first
            }
        }
    }
}

/// Returns the narrower of two high edges.
fn lower<'a>(first: Option<Edge<'a>>, second: Option<Edge<'a>>) -> Option<Edge<'a>>
    ensures { (v : Value) → is_below result v ≡ is_below first.entry v && is_below second.entry v }
{
    match (first, second) {
        (None, _) => second,
        (_, None) => first,
        (Some(edge), Some(other)) => {
            if is_no_lower(edge, other) {
                second
            } else {
                first
            }
        }
    }
}

/// Returns bounds that contain what one of both contains.
pub(crate) fn hull_of<'a>(first: Option<Bounds<'a>>, second: Bounds<'a>) -> Bounds<'a>
    ensures first { (field : Option Value) → is_there_and (λ b. contain b field) first.entry ≡ true
        → contain result field ≡ true }
    ensures second { (field : Option Value) → contain second.entry field ≡ true
        → contain result field ≡ true }
{
    match (first, second) {
        (None, _) => second,
        (Some(Bounds::Range(low, high)), Bounds::Range(other_low, other_high)) => {
            Bounds::Range(lowest(low, other_low), highest(high, other_high))
        }
        _ => Bounds::Any,
    }
}

/// Returns the wider of two low edges.
fn lowest<'a>(first: Option<Edge<'a>>, second: Option<Edge<'a>>) -> Option<Edge<'a>>
    ensures { (v : Value) → is_above result v ≡ is_above first.entry v || is_above second.entry v }
{
    match (first, second) {
        (None, _) | (_, None) => None,
        (Some(edge), Some(other)) => {
            if is_no_higher(edge, other) {
                first
            } else {
                second
            }
        }
    }
}

/// Returns the wider of two high edges.
fn highest<'a>(first: Option<Edge<'a>>, second: Option<Edge<'a>>) -> Option<Edge<'a>>
    ensures { (v : Value) → is_below result v ≡ is_below first.entry v || is_below second.entry v }
{
    match (first, second) {
        (None, _) | (_, None) => None,
        (Some(edge), Some(other)) => {
            if is_no_lower(edge, other) {
                first
            } else {
                second
            }
        }
    }
}

/// Tells whether all that lies above the other low edge lies above this one; else all that lies
/// above this one lies above the other.
pub(crate) fn is_no_higher<'a>(edge: Edge<'a>, other: Edge<'a>) -> bool
    ensures { result ≡ is_no_higher (view edge.entry.value.now) edge.entry.inclusive (view other.entry.value.now) other.entry.inclusive }
{
    match collate(edge.value, other.value) {
        Ordering::Less => true,
        Ordering::Equal => edge.inclusive || !other.inclusive,
        Ordering::Greater => false,
    }
}

/// Tells whether all that lies below the other high edge lies below this one; else all that lies
/// below this one lies below the other.
pub(crate) fn is_no_lower<'a>(edge: Edge<'a>, other: Edge<'a>) -> bool
    ensures { result ≡ is_no_lower (view edge.entry.value.now) edge.entry.inclusive (view other.entry.value.now) other.entry.inclusive }
{
    match collate(edge.value, other.value) {
        Ordering::Less => false,
        Ordering::Equal => edge.inclusive || !other.inclusive,
        Ordering::Greater => true,
    }
}
