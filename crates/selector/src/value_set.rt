ghost use Rattle.std.specs.Prelude.{◌≡◌, ◌&&◌, ◌||◌, IfOk, OnOk, not, false, true};
ghost use Rattle.couch_json.specs.Value.{Value};
ghost use Rattle.couch_json.specs.View.{view, items_view};
ghost use Rattle.selector.specs.Lookup.{comparison_meets, decides, is_over, is_under, lies_above, lies_below, set_has, sorted_has};
ghost use Rattle.selector.specs.Truth.{is_element, meets};

use crate::bounds::{Edge, is_no_higher, is_no_lower};
use crate::members::Members;
use crate::operator::{ListOperator, ValueOperator};
use couch_json::{Got, Json, collate};
use std::alloc::Global;

/// A value that others are compared with.
pub(crate) struct Limit {
    pub(crate) value: Json,
    /// Whether the value itself is inside.
    pub(crate) inclusive: bool,
}

// Written out, so that callers do not prove again how each part is dropped.
impl Drop for Limit {
    fn drop(self) {
        let Limit {
            value: _,
            inclusive: _,
        } = self;
    }
}

/// Several values, in any order, with all that lie below a limit and all above one.
pub(crate) struct ValueSet {
    pub(crate) values: Vec<Json>,
    pub(crate) below: Option<Limit>,
    pub(crate) above: Option<Limit>,
}

// Written out, so that callers do not prove again how each part is dropped.
impl Drop for ValueSet {
    fn drop(self) {
        let ValueSet {
            values: _,
            below: _,
            above: _,
        } = self;
    }
}

/// The same values, each once and in their order, so that one is found by halves.
pub(crate) struct SortedValues {
    pub(crate) among: Members,
    pub(crate) below: Option<Limit>,
    pub(crate) above: Option<Limit>,
}

// Written out, so that callers do not prove again how each part is dropped.
impl Drop for SortedValues {
    fn drop(self) {
        let SortedValues {
            among: _,
            below: _,
            above: _,
        } = self;
    }
}

/// A comparison that a value may meet.
#[derive(Clone, Copy)]
pub(crate) enum Comparison<'a> {
    /// It meets the operator with its argument.
    Meets(ValueOperator, &'a Json),
    /// It is one of these.
    IsAmong(&'a Members),
    /// It is none of these.
    IsNotAmong(&'a Members),
}

impl ValueSet {
    /// Makes a set without values.
    pub(crate) fn new(alloc: Global) -> ValueSet
        ensures { (v : Value) → set_has result v ≡ false }
    {
        ValueSet {
            values: Vec::new(alloc),
            below: None,
            above: None,
        }
    }

    /// Sorts the values.
    pub(crate) fn sort(self) -> SortedValues
        ensures { (v : Value) → sorted_has result v ≡ set_has self v }
    {
        let ValueSet {
            values,
            below,
            above,
        } = self;
        SortedValues {
            among: Members::of_values(values),
            below,
            above,
        }
    }

    /// Adds the values by which the comparison decides a list with this operator. Tells whether
    /// such values can be added.
    pub(crate) fn add_deciding(
        &mut self,
        alloc: Global,
        operator: ListOperator,
        comparison: Comparison<'_>,
    ) -> Got<bool>
        ensures { IfOk result (λ added. (v : Value) → set_has self.new v
            ≡ (added && decides operator (comparison_meets comparison.entry v)) || set_has self.old v) }
    {
        match operator {
            ListOperator::AllTrue => self.add_failing(alloc, comparison),
            ListOperator::SomeTrue => self.add_meeting(alloc, comparison),
            ListOperator::NoneTrue => self.add_meeting(alloc, comparison),
        }
    }

    /// Adds the values that meet the comparison, and tells whether they can be added.
    fn add_meeting(&mut self, alloc: Global, comparison: Comparison<'_>) -> Got<bool>
        ensures { IfOk result (λ added. (v : Value) → set_has self.new v
            ≡ (added && comparison_meets comparison.entry v) || set_has self.old v) }
    {
        match comparison {
            Comparison::Meets(operator, argument) => self.add(alloc, operator, argument),
            Comparison::IsAmong(members) => self.add_all(alloc, members),
            Comparison::IsNotAmong(_) => Ok(false),
        }
    }

    /// Adds the values that fail the comparison, and tells whether they can be added.
    fn add_failing(&mut self, alloc: Global, comparison: Comparison<'_>) -> Got<bool>
        ensures { IfOk result (λ added. (v : Value) → set_has self.new v
            ≡ (added && not (comparison_meets comparison.entry v)) || set_has self.old v) }
    {
        match comparison {
            Comparison::Meets(operator, argument) => self.add_others(alloc, operator, argument),
            Comparison::IsAmong(_) => Ok(false),
            Comparison::IsNotAmong(members) => self.add_all(alloc, members),
        }
    }

    /// Adds the values that meet the operator, and tells whether it is a comparison.
    fn add(&mut self, alloc: Global, operator: ValueOperator, argument: &Json) -> Got<bool>
        ensures { IfOk result (λ added. (v : Value) → set_has self.new v
            ≡ (added && meets operator (view argument.now) v) || set_has self.old v) }
    {
        match operator {
            ValueOperator::IsEqual => self.add_value(alloc, argument),
            ValueOperator::IsNotEqual => self.add_unequal(alloc, argument),
            ValueOperator::IsLess => self.add_below(alloc, argument, false),
            ValueOperator::IsAtMost => self.add_below(alloc, argument, true),
            ValueOperator::IsGreater => self.add_above(alloc, argument, false),
            ValueOperator::IsAtLeast => self.add_above(alloc, argument, true),
            _ => Ok(false),
        }
    }

    /// Adds the values that don't meet the operator, and tells whether it is a comparison.
    fn add_others(&mut self, alloc: Global, operator: ValueOperator, argument: &Json) -> Got<bool>
        ensures { IfOk result (λ added. (v : Value) → set_has self.new v
            ≡ (added && not (meets operator (view argument.now) v)) || set_has self.old v) }
    {
        match operator {
            ValueOperator::IsEqual => self.add_unequal(alloc, argument),
            ValueOperator::IsNotEqual => self.add_value(alloc, argument),
            ValueOperator::IsLess => self.add_above(alloc, argument, true),
            ValueOperator::IsAtMost => self.add_above(alloc, argument, false),
            ValueOperator::IsGreater => self.add_below(alloc, argument, true),
            ValueOperator::IsAtLeast => self.add_below(alloc, argument, false),
            _ => Ok(false),
        }
    }

    /// Adds a value. It answers true.
    fn add_value(&mut self, alloc: Global, value: &Json) -> Got<bool>
        ensures { IfOk result (λ added. (v : Value) → set_has self.new v
            ≡ (added && meets ValueOperator.IsEqual (view value.now) v) || set_has self.old v) }
    {
        self.values.push(value.copy(alloc)?)?;
        Ok(true)
    }

    /// Adds the elements of a list. It answers true.
    fn add_all(&mut self, alloc: Global, members: &Members) -> Got<bool>
        ensures { IfOk result (λ added. (v : Value) → set_has self.new v
            ≡ (added && meets ValueOperator.IsIn members.now v) || set_has self.old v) }
    {
        copy_onto(alloc, &mut self.values, members.as_slice())?;
        Ok(true)
    }

    /// Adds all values but this one. It answers true.
    fn add_unequal(&mut self, alloc: Global, value: &Json) -> Got<bool>
        ensures { IfOk result (λ added. (v : Value) → set_has self.new v
            ≡ (added && meets ValueOperator.IsNotEqual (view value.now) v) || set_has self.old v) }
    {
        self.put_below(alloc, value, false)?;
        self.put_above(alloc, value, false)?;
        Ok(true)
    }

    /// Adds the values below a limit. It answers true.
    fn add_below(&mut self, alloc: Global, value: &Json, inclusive: bool) -> Got<bool>
        ensures { IfOk result (λ added. (v : Value) → set_has self.new v
            ≡ (added && is_under (view value.now) inclusive v) || set_has self.old v) }
    {
        self.put_below(alloc, value, inclusive)?;
        Ok(true)
    }

    /// Adds the values above a limit. It answers true.
    fn add_above(&mut self, alloc: Global, value: &Json, inclusive: bool) -> Got<bool>
        ensures { IfOk result (λ added. (v : Value) → set_has self.new v
            ≡ (added && is_over (view value.now) inclusive v) || set_has self.old v) }
    {
        self.put_above(alloc, value, inclusive)?;
        Ok(true)
    }

    /// Puts the limit in place of that of the values below, unless those reach as far already.
    fn put_below(&mut self, alloc: Global, value: &Json, inclusive: bool) -> Got<()>
        ensures { OnOk result ((v : Value) → set_has self.new v ≡ is_under (view value.now) inclusive v || set_has self.old v) }
    {
        if lies_no_lower(&self.below, value, inclusive) {
            return Ok(());
        }
        self.below = Some(Limit {
            value: value.copy(alloc)?,
            inclusive,
        });
        Ok(())
    }

    /// Puts the limit in place of that of the values above, unless those reach as far already.
    fn put_above(&mut self, alloc: Global, value: &Json, inclusive: bool) -> Got<()>
        ensures { OnOk result ((v : Value) → set_has self.new v ≡ is_over (view value.now) inclusive v || set_has self.old v) }
    {
        if lies_no_higher(&self.above, value, inclusive) {
            return Ok(());
        }
        self.above = Some(Limit {
            value: value.copy(alloc)?,
            inclusive,
        });
        Ok(())
    }
}

impl SortedValues {
    /// Tells whether the value is one of them.
    pub(crate) fn contains(&self, value: &Json) -> bool
        ensures { result ≡ sorted_has self.now (view value.now) }
    {
        self.among.contains(value) || is_below(&self.below, value) || is_above(&self.above, value)
    }
}

fn is_below(limit: &Option<Limit>, value: &Json) -> bool
    ensures { result ≡ lies_below limit.now (view value.now) }
{
    match limit {
        Some(limit) if limit.inclusive => collate(value, &limit.value).is_le(),
        Some(limit) => collate(value, &limit.value).is_lt(),
        None => false,
    }
}

fn is_above(limit: &Option<Limit>, value: &Json) -> bool
    ensures { result ≡ lies_above limit.now (view value.now) }
{
    match limit {
        Some(limit) if limit.inclusive => collate(value, &limit.value).is_ge(),
        Some(limit) => collate(value, &limit.value).is_gt(),
        None => false,
    }
}

/// Puts copies of the items behind the values.
fn copy_onto(alloc: Global, values: &mut Vec<Json>, items: &[Json]) -> Got<()>
    ensures { OnOk result ((v : Value) → is_element v (items_view values.new.items)
        ≡ is_element v (items_view items.now) || is_element v (items_view values.old.items)) }
{
    for item in items {
        values.push(item.copy(alloc)?)?;
    }
    Ok(())
}

/// Tells whether there is a limit, and all that lies below the value lies below it; else all that
/// lies below it lies below the value.
fn lies_no_lower(limit: &Option<Limit>, value: &Json, inclusive: bool) -> bool
    ensures yes { result ≡ true → (v : Value) → is_under (view value.now) inclusive v ≡ true → lies_below limit.now v ≡ true }
    ensures no { result ≡ false → (v : Value) → lies_below limit.now v ≡ true → is_under (view value.now) inclusive v ≡ true }
{
    match limit {
        Some(limit) => is_no_lower(edge_of(limit), Edge { value, inclusive }),
        None => false,
    }
}

/// Tells whether there is a limit, and all that lies above the value lies above it; else all that
/// lies above it lies above the value.
fn lies_no_higher(limit: &Option<Limit>, value: &Json, inclusive: bool) -> bool
    ensures yes { result ≡ true → (v : Value) → is_over (view value.now) inclusive v ≡ true → lies_above limit.now v ≡ true }
    ensures no { result ≡ false → (v : Value) → lies_above limit.now v ≡ true → is_over (view value.now) inclusive v ≡ true }
{
    match limit {
        Some(limit) => is_no_higher(edge_of(limit), Edge { value, inclusive }),
        None => false,
    }
}

fn edge_of<'a>(limit: &'a Limit) -> Edge<'a>
    ensures value { view result.value.now ≡ view limit.now.value }
    ensures inclusive { result.inclusive ≡ limit.now.inclusive }
{
    Edge {
        value: &limit.value,
        inclusive: limit.inclusive,
    }
}
