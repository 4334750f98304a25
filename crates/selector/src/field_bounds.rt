ghost use Rattle.std.specs.Prelude.{◌≡◌, ℕ, List, Option, OnOk, IfOk, None, Some, bytes_eq, if◌then◌else◌, false, true};
ghost use Rattle.std.specs.List.{list_all, list_any};
ghost use Rattle.couch_json.specs.Parts.{is_object};
ghost use Rattle.couch_json.specs.Value.{Value, member_of, object, member, no_members};
ghost use Rattle.couch_json.specs.View.{items_of};
ghost use Rattle.selector.specs.Bounds.{AreJust, contain, path_value};
ghost use Rattle.selector.specs.FieldBounds.{AreWider, ContainOnly, IsWith, LieWithin, bounds_at, has_within};
ghost use Rattle.selector.specs.Operators.{operator_named};
ghost use Rattle.selector.specs.Truth.{is_true, item_truths, member_truth, truths};
ghost use Rattle.selector.specs.View.{name_of, value_of};
ghost use Rattle.selector.specs.declared.bounds.Bounds.TheVariants.{Any};

use crate::bounds::{Bounds, bounds_of, hull_of, overlap};
use crate::operator::ListOperator;
use crate::selector::{Condition, Selector};
use couch_json::{FieldPath, Got};
use std::alloc::Global;
use std::collections::BTreeMap;

/// Between which values the fields of a selector lie, by their paths.
pub struct FieldBounds<'a> {
    /// The bounds of the fields that have any, by the path.
    fields: BTreeMap<String, Bounds<'a>>,
}

// Written out, so that callers do not prove again how each part is dropped.
impl Drop for FieldBounds<'_> {
    fn drop(self) {
        let FieldBounds { fields: _ } = self;
    }
}

impl<'a> FieldBounds<'a> {
    /// Returns between which values the field of this path lies; any, where the selector says nothing of
    /// it. It takes no memory, and time by the logarithm of how many fields there are.
    pub fn get(&self, path: &FieldPath) -> Bounds<'a>
        ensures { result ≡ bounds_at self.now path.now }
    {
        self.bounds_at(path.as_str())
    }

    fn bounds_at(&self, path: &str) -> Bounds<'a>
        ensures { result ≡ bounds_at self.now path.now }
    {
        match self.fields.get(path) {
            Some(bounds) => *bounds,
            None => Bounds::Any,
        }
    }

    /// Makes bounds of no field.
    fn new(alloc: Global) -> FieldBounds<'a>
        ensures { (path : List ℕ) → bounds_at result path ≡ Any }
    {
        FieldBounds {
            fields: BTreeMap::new(alloc),
        }
    }

    /// Puts bounds of a field in place of those that it has.
    fn put(&mut self, alloc: Global, path: &str, bounds: Bounds<'a>) -> Got<()>
        ensures { OnOk result ((other : List ℕ) → bounds_at self.new other ≡ (if bytes_eq path.now other then bounds.entry else bounds_at self.old other)) }
    {
        drop(self.fields.insert(String::from_str(alloc, path)?, bounds)?);
        Ok(())
    }

    /// Adds bounds of a field, which lies within those that it has, too.
    fn add(&mut self, alloc: Global, path: &str, bounds: Bounds<'a>) -> Got<()>
        ensures contain { OnOk result (IsWith self.old path.now bounds.entry self.new) }
        ensures any { OnOk result (bounds_at self.old path.now ≡ Any → bounds_at self.new path.now ≡ bounds.entry) }
    {
        match bounds {
            Bounds::Any => Ok(()),
            Bounds::Range(_, _) => self.put(alloc, path, overlap(self.bounds_at(path), bounds)),
        }
    }
}

/// Returns the bounds of all fields, if the selector is true of the current value.
pub(crate) fn field_bounds_in<'a>(alloc: Global, selector: &'a Selector) -> Got<FieldBounds<'a>>
    ensures inside { IfOk result (λ fields. (root : Value) (current : Option Value) → is_true root selector.now current ≡ true
        → LieWithin fields current) }
    ensures one { IfOk result (λ fields. (p : List ℕ) (b : Value) → operator_named p ≡ None → is_object b ≡ false
        → selector.now ≡ object (member p b no_members) → AreJust b (bounds_at fields p)) }
    ensures bare { IfOk result (λ fields. (p : List ℕ) (b : Value) → operator_named p ≡ None → is_object b ≡ false
        → member_of selector.now p ≡ Some b → ContainOnly b (bounds_at fields p)) }
{
    let mut fields = FieldBounds::new(alloc);
    add_selector(alloc, &mut fields, selector)?;
    Ok(fields)
}

/// Adds the bounds of all fields, if the selector is true.
#[cycle(field_bounds)]
fn add_selector<'a>(alloc: Global, fields: &mut FieldBounds<'a>, selector: &'a Selector) -> Got<()>
    ensures inside { OnOk result ((root : Value) (current : Option Value) → is_true root selector.now current ≡ true
        → LieWithin fields.old current → LieWithin fields.new current) }
    ensures narrower { OnOk result (AreWider fields.new fields.old) }
    ensures one { OnOk result ((p : List ℕ) (b : Value) → operator_named p ≡ None → is_object b ≡ false
        → selector.now ≡ object (member p b no_members) → bounds_at fields.old p ≡ Any → AreJust b (bounds_at fields.new p)) }
    ensures bare { OnOk result ((p : List ℕ) (b : Value) → operator_named p ≡ None → is_object b ≡ false
        → member_of selector.now p ≡ Some b → ContainOnly b (bounds_at fields.new p)) }
{
    for condition in &selector.conditions {
        add_condition(alloc, fields, condition)?;
    }
    Ok(())
}

/// Adds the bounds of all fields, if this member of a selector is true.
#[cycle(field_bounds)]
fn add_condition<'a>(
    alloc: Global,
    fields: &mut FieldBounds<'a>,
    condition: &'a Condition,
) -> Got<()>
    ensures inside { OnOk result
        ((root : Value) (current : Option Value)
        → member_truth root (operator_named (name_of condition.now)) (name_of condition.now) (value_of condition.now)
        (is_true root (value_of condition.now)) (truths root (value_of condition.now)) current ≡ true
        → LieWithin fields.old current → LieWithin fields.new current) }
    ensures narrower { OnOk result (AreWider fields.new fields.old) }
    ensures one { OnOk result (operator_named (name_of condition.now) ≡ None → is_object (value_of condition.now) ≡ false
        → bounds_at fields.old (name_of condition.now) ≡ Any → AreJust (value_of condition.now) (bounds_at fields.new (name_of condition.now))) }
    ensures bare { OnOk result (operator_named (name_of condition.now) ≡ None → is_object (value_of condition.now) ≡ false
        → ContainOnly (value_of condition.now) (bounds_at fields.new (name_of condition.now))) }
{
    match condition {
        Condition::Field(field, _) | Condition::FieldIs(field, _) => {
            add_field(alloc, fields, condition, &field.path)
        }
        Condition::List(ListOperator::AllTrue, selectors, _) => add_all(alloc, fields, selectors),
        Condition::List(ListOperator::SomeTrue, selectors, _) => add_some(alloc, fields, selectors),
        _ => Ok(()),
    }
}

/// Adds the bounds of all fields, if each of the selectors is true.
#[cycle(field_bounds)]
fn add_all<'a>(alloc: Global, fields: &mut FieldBounds<'a>, selectors: &'a Vec<Selector>) -> Got<()>
    ensures inside { OnOk result ((root : Value) (current : Option Value)
        → list_all (λ b. b) (item_truths root (items_of selectors.now.items) current) ≡ true
        → LieWithin fields.old current → LieWithin fields.new current) }
    ensures narrower { OnOk result (AreWider fields.new fields.old) }
{
    for selector in selectors {
        add_selector(alloc, fields, selector)?;
    }
    Ok(())
}

/// Adds the bounds of all fields, if at least one of the selectors is true.
#[cycle(field_bounds)]
fn add_some<'a>(
    alloc: Global,
    fields: &mut FieldBounds<'a>,
    selectors: &'a Vec<Selector>,
) -> Got<()>
    ensures inside { OnOk result ((root : Value) (current : Option Value)
        → list_any (λ b. b) (item_truths root (items_of selectors.now.items) current) ≡ true
        → LieWithin fields.old current → LieWithin fields.new current) }
    ensures narrower { OnOk result (AreWider fields.new fields.old) }
{
    // A single one adds its bounds as they are, so that nests of such lists copy nothing.
    if let [only] = selectors.as_slice() {
        return add_selector(alloc, fields, only);
    }
    let mut hull = None;
    for selector in selectors {
        let mut branch = FieldBounds::new(alloc);
        add_selector(alloc, &mut branch, selector)?;
        hull = Some(hull_with(alloc, hull, branch)?);
    }
    add_hull(alloc, fields, hull)
}

/// Adds the bounds of the field of this path, if this member of a selector, which names it, is true.
fn add_field<'a>(
    alloc: Global,
    fields: &mut FieldBounds<'a>,
    condition: &'a Condition,
    path: &FieldPath,
) -> Got<()>
    requires { path.now ≡ name_of condition.now }
    ensures inside { OnOk result
        ((root : Value) (current : Option Value)
        → member_truth root (operator_named (name_of condition.now)) (name_of condition.now) (value_of condition.now)
        (is_true root (value_of condition.now)) (truths root (value_of condition.now)) current ≡ true
        → LieWithin fields.old current → LieWithin fields.new current) }
    ensures narrower { OnOk result (AreWider fields.new fields.old) }
    ensures one { OnOk result (operator_named (name_of condition.now) ≡ None → is_object (value_of condition.now) ≡ false
        → bounds_at fields.old (name_of condition.now) ≡ Any → AreJust (value_of condition.now) (bounds_at fields.new (name_of condition.now))) }
    ensures bare { OnOk result (operator_named (name_of condition.now) ≡ None → is_object (value_of condition.now) ≡ false
        → ContainOnly (value_of condition.now) (bounds_at fields.new (name_of condition.now))) }
{
    fields.add(alloc, path.as_str(), bounds_of(condition, Some(path)))
}

/// Adds the bounds of all fields of the others, where there are any.
fn add_hull<'a>(
    alloc: Global,
    fields: &mut FieldBounds<'a>,
    hull: Option<FieldBounds<'a>>,
) -> Got<()>
    ensures inside { OnOk result ((current : Option Value) → ((path : List ℕ) → has_within hull.entry path (path_value (Some path) current) ≡ true)
        → LieWithin fields.old current → LieWithin fields.new current) }
    ensures narrower { OnOk result (AreWider fields.new fields.old) }
{
    match hull {
        Some(hull) => add_fields(alloc, fields, &hull),
        None => Ok(()),
    }
}

/// Returns bounds within which the fields lie that lie within the first or the second.
fn hull_with<'a>(
    alloc: Global,
    first: Option<FieldBounds<'a>>,
    second: FieldBounds<'a>,
) -> Got<FieldBounds<'a>>
    ensures first { IfOk result (λ hull. (path : List ℕ) (field : Option Value) → has_within first.entry path field ≡ true
        → contain (bounds_at hull path) field ≡ true) }
    ensures second { IfOk result (λ hull. AreWider second.entry hull) }
{
    match first {
        Some(first) => hull_of_fields(alloc, &first, &second),
        None => Ok(second),
    }
}

/// Returns the bounds of the fields that both have, each as wide as both.
fn hull_of_fields<'a>(
    alloc: Global,
    first: &FieldBounds<'a>,
    second: &FieldBounds<'a>,
) -> Got<FieldBounds<'a>>
    ensures first { IfOk result (λ hull. AreWider first.now hull) }
    ensures second { IfOk result (λ hull. AreWider second.now hull) }
{
    let mut hull = FieldBounds::new(alloc);
    for path in first.fields.keys() {
        let path = path.as_str();
        let one = first.bounds_at(path);
        let other = second.bounds_at(path);
        hull.add(alloc, path, hull_of(Some(one), other))?;
    }
    Ok(hull)
}

/// Adds the bounds of all fields of the others.
fn add_fields<'a>(alloc: Global, fields: &mut FieldBounds<'a>, others: &FieldBounds<'a>) -> Got<()>
    ensures inside { OnOk result ((current : Option Value) → LieWithin others.now current
        → LieWithin fields.old current → LieWithin fields.new current) }
    ensures narrower { OnOk result (AreWider fields.new fields.old) }
{
    for path in others.fields.keys() {
        let path = path.as_str();
        fields.add(alloc, path, others.bounds_at(path))?;
    }
    Ok(())
}
