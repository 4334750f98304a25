ghost use Rattle.std.specs.Prelude.{◌≡◌, ◌&&◌, ◌||◌, Bool, IfOk, IfSome, OnOk, List, Option, false, true, option_and_then, option_copied, option_map, slice_get};
ghost use Rattle.std.specs.List.{list_any};
ghost use Rattle.std.specs.List.Sorted.{IsPermutation};
ghost use Rattle.couch_json.specs.FieldPath.{value_at};
ghost use Rattle.couch_json.specs.Parts.{is_object, is_there_and};
ghost use Rattle.couch_json.specs.Value.{Value};
ghost use Rattle.couch_json.specs.View.{view};
ghost use Rattle.selector.specs.Bounds.{path_value};
ghost use Rattle.selector.specs.Lookup.{IsLookup, comparison_meets, decides, draft_decides, drafts_decide, group_decides, lookup_decides, place_decides, selector_decides, some_group_decides, some_place_has, test_decides};
ghost use Rattle.selector.specs.LookedUp.{condition_truth};
ghost use Rattle.selector.specs.Truth.{field_truth, is_true};

use crate::operator::{ListOperator, ValueOperator, decides};
use crate::selector::{Condition, Field, Selector};
use crate::value_set::{Comparison, SortedValues, ValueSet};
use couch_json::{FieldPath, Got, Json, NoMemory, PathFault, at};
use std::alloc::Global;
use std::cmp::Ordering;
use std::mem;

/// What is looked up in place of asking each selector of a list.
pub(crate) struct Lookup {
    /// The values by which many selectors decide, a group for each path.
    pub(crate) groups: Vec<Group>,
    /// The places of the other selectors, each of which is asked.
    pub(crate) walked: Vec<usize>,
}

// Written out, so that callers do not prove again how each part is dropped.
impl Drop for Lookup {
    fn drop(self) {
        let Lookup {
            groups: _,
            walked: _,
        } = self;
    }
}

/// The values at one path by which a list is decided.
pub(crate) struct Group {
    /// The path; none for the current value.
    pub(crate) path: Option<FieldPath>,
    /// The list is decided where the path reaches nothing.
    pub(crate) missing: bool,
    pub(crate) values: SortedValues,
}

// Written out, so that callers do not prove again how each part is dropped.
impl Drop for Group {
    fn drop(self) {
        let Group {
            path: _,
            missing: _,
            values: _,
        } = self;
    }
}

/// A group to which values are added yet.
pub(crate) struct Draft {
    pub(crate) path: Option<FieldPath>,
    pub(crate) missing: bool,
    pub(crate) values: ValueSet,
}

// Written out, so that callers do not prove again how each part is dropped.
impl Drop for Draft {
    fn drop(self) {
        let Draft {
            path: _,
            missing: _,
            values: _,
        } = self;
    }
}

/// The groups so far, with the one to which values are added.
pub(crate) struct Drafts {
    pub(crate) open: Draft,
    pub(crate) groups: Vec<Group>,
}

// Written out, so that callers do not prove again how each part is dropped.
impl Drop for Drafts {
    fn drop(self) {
        let Drafts { open: _, groups: _ } = self;
    }
}

/// A selector that is one comparison of what a path reaches.
#[derive(Clone, Copy)]
struct Test<'a> {
    path: Option<&'a FieldPath>,
    comparison: Comparison<'a>,
}

impl Lookup {
    /// Makes what is looked up of the selectors of a list with this operator.
    pub(crate) fn of(
        alloc: Global,
        operator: ListOperator,
        selectors: &Vec<Selector>,
    ) -> Got<Lookup>
        ensures { IfOk result (λ lookup. IsLookup operator lookup selectors.now.items) }
    {
        let places = sort_places(places_of(alloc, selectors)?, selectors);
        Lookup::of_places(alloc, operator, selectors, &places)
    }

    /// Makes the same of the selectors at these places.
    fn of_places(
        alloc: Global,
        operator: ListOperator,
        selectors: &Vec<Selector>,
        places: &[usize],
    ) -> Got<Lookup>
        ensures { IfOk result (λ lookup. (root : Value) (current : Option Value) → lookup_decides operator root current selectors.now.items lookup
            ≡ some_place_has (selector_decides operator root current) selectors.now.items places.now) }
    {
        let mut drafts = Drafts::new(alloc);
        let mut walked = Vec::new(alloc);
        for place in places {
            add_place(alloc, operator, selectors, &mut drafts, &mut walked, *place)?;
        }
        let groups = drafts.finish()?;
        Ok(Lookup { groups, walked })
    }

    /// Tells whether what is looked up decides the list.
    pub(crate) fn decides(&self, current: Option<&Json>) -> bool
        ensures { result ≡ some_group_decides self.now.groups.items (option_map (λ v. view v.now) current.entry) }
    {
        for group in &self.groups {
            if group.decides(current) {
                return true;
            }
        }
        false
    }
}

/// Adds the selector at this place to the drafts, or else its place to those of the others.
fn add_place(
    alloc: Global,
    operator: ListOperator,
    selectors: &Vec<Selector>,
    drafts: &mut Drafts,
    walked: &mut Vec<usize>,
    at: usize,
) -> Got<()>
    ensures { OnOk result ((root : Value) (current : Option Value)
        → drafts_decide drafts.new current || list_any (place_decides operator root current selectors.now.items) walked.new.items
        ≡ place_decides operator root current selectors.now.items at
        || (drafts_decide drafts.old current || list_any (place_decides operator root current selectors.now.items) walked.old.items)) }
{
    let added = drafts.add_at(alloc, operator, selectors, at)?;
    if added {
        return Ok(());
    }
    walked.push(at)?;
    Ok(())
}

impl Group {
    fn decides(&self, current: Option<&Json>) -> bool
        ensures { result ≡ group_decides self.now (option_map (λ v. view v.now) current.entry) }
    {
        match self.reach(current) {
            Some(value) => self.values.contains(value),
            None => self.missing,
        }
    }

    /// Returns what the path reaches.
    fn reach<'a>(&self, current: Option<&'a Json>) -> Option<&'a Json>
        ensures { option_map (λ v. view v.now) result ≡ path_value self.now.path (option_map (λ v. view v.now) current.entry) }
    {
        match &self.path {
            Some(path) => at(current?, path),
            None => current,
        }
    }
}

impl Draft {
    fn new(alloc: Global, path: Option<FieldPath>) -> Draft
        ensures none { (current : Option Value) → draft_decides result current ≡ false }
        ensures path { result.path ≡ path }
    {
        Draft {
            path,
            missing: false,
            values: ValueSet::new(alloc),
        }
    }

    /// Ends the group.
    fn finish(self) -> Group
        ensures { (current : Option Value) → group_decides result current ≡ draft_decides self current }
    {
        let Draft {
            path,
            missing,
            values,
        } = self;
        Group {
            path,
            missing,
            values: values.sort(),
        }
    }

    /// Adds the values by which a test of what the path reaches decides the list.
    fn add(
        &mut self,
        alloc: Global,
        operator: ListOperator,
        comparison: Comparison<'_>,
    ) -> Got<bool>
        ensures { IfOk result (λ added. (current : Option Value) → draft_decides self.new current
            ≡ (added && decides operator (is_there_and (comparison_meets comparison.entry) (path_value self.old.path current)))
            || draft_decides self.old current) }
    {
        let added = self.values.add_deciding(alloc, operator, comparison)?;
        if !added {
            return Ok(false);
        }
        self.missing = is_either(decides(operator, false), self.missing);
        Ok(true)
    }
}

impl Drafts {
    fn new(alloc: Global) -> Drafts
        ensures { (current : Option Value) → drafts_decide result current ≡ false }
    {
        let open = Draft::new(alloc, None);
        let groups = Vec::new(alloc);
        Drafts { open, groups }
    }

    /// Adds the selector at this place, and tells whether it is one comparison.
    fn add_at(
        &mut self,
        alloc: Global,
        operator: ListOperator,
        selectors: &Vec<Selector>,
        at: usize,
    ) -> Got<bool>
        ensures { IfOk result (λ added. (root : Value) (current : Option Value) → drafts_decide self.new current
            ≡ (added && place_decides operator root current selectors.now.items at) || drafts_decide self.old current) }
    {
        match selector_at(selectors, at) {
            Some(selector) => self.add(alloc, operator, selector),
            None => Ok(false),
        }
    }

    fn add(&mut self, alloc: Global, operator: ListOperator, selector: &Selector) -> Got<bool>
        ensures { IfOk result (λ added. (root : Value) (current : Option Value) → drafts_decide self.new current
            ≡ (added && selector_decides operator root current selector.now) || drafts_decide self.old current) }
    {
        match test_in(selector) {
            Some(test) => self.add_test(alloc, operator, test),
            None => Ok(false),
        }
    }

    fn add_test(&mut self, alloc: Global, operator: ListOperator, test: Test<'_>) -> Got<bool>
        ensures { IfOk result (λ added. (current : Option Value) → drafts_decide self.new current
            ≡ (added && test_decides operator test.entry current) || drafts_decide self.old current) }
    {
        self.open_for(alloc, test.path)?;
        self.open.add(alloc, operator, test.comparison)
    }

    /// Makes the open group one for this path.
    fn open_for(&mut self, alloc: Global, path: Option<&FieldPath>) -> Got<()>
        ensures path { OnOk result (self.new.open.path ≡ option_map (λ p. p.now) path.entry) }
        ensures decide { OnOk result ((current : Option Value) → drafts_decide self.new current ≡ drafts_decide self.old current) }
    {
        if is_same_path(&self.open.path, path) {
            return Ok(());
        }
        self.open_at(alloc, path)
    }

    /// Ends the group that is open, and opens one for this path.
    fn open_at(&mut self, alloc: Global, path: Option<&FieldPath>) -> Got<()>
        ensures path { OnOk result (self.new.open.path ≡ option_map (λ p. p.now) path.entry) }
        ensures decide { OnOk result ((current : Option Value) → drafts_decide self.new current ≡ drafts_decide self.old current) }
    {
        let opened = Draft::new(alloc, copy_path(alloc, path)?);
        let ended = mem::replace(&mut self.open, opened);
        self.groups.push(ended.finish())?;
        Ok(())
    }

    /// Returns all groups.
    fn finish(self) -> Got<Vec<Group>>
        ensures { IfOk result (λ groups. (current : Option Value) → some_group_decides groups.items current ≡ drafts_decide self current) }
    {
        let Drafts { open, groups } = self;
        let mut groups = groups;
        groups.push(open.finish())?;
        Ok(groups)
    }
}

fn is_either(one: bool, other: bool) -> bool
    ensures { result ≡ one || other }
{
    one || other
}

fn is_same_path(one: &Option<FieldPath>, other: Option<&FieldPath>) -> bool
    ensures { result ≡ true → one.now ≡ option_map (λ p. p.now) other.entry }
{
    match (one, other) {
        (Some(one), Some(other)) => one.as_str() == other.as_str(),
        (None, None) => true,
        _ => false,
    }
}

fn copy_path(alloc: Global, path: Option<&FieldPath>) -> Got<Option<FieldPath>>
    ensures { IfOk result (λ copied. copied ≡ option_map (λ p. p.now) path.entry) }
{
    let Some(path) = path else {
        return Ok(None);
    };
    match FieldPath::parse(alloc, path.as_str()) {
        Ok(path) => Ok(Some(path)),
        Err(PathFault::Shape) => unreachable!(),
        Err(PathFault::Memory) => Err(NoMemory),
    }
}

/// Returns the comparison that a selector is, if it is just one.
fn test_in<'a>(selector: &'a Selector) -> Option<Test<'a>>
    ensures { IfSome result (λ test. (root : Value) (current : Option Value) → is_true root selector.now current
        ≡ is_there_and (comparison_meets test.comparison) (path_value (option_map (λ p. p.now) test.path) current)) }
{
    let condition = only_condition(selector)?;
    match condition {
        Condition::Field(field, selector) => test_at(field, selector),
        Condition::FieldIs(field, value) => Some(Test {
            path: Some(&field.path),
            comparison: Comparison::Meets(ValueOperator::IsEqual, &value.json),
        }),
        _ => Some(Test {
            path: None,
            comparison: comparison_in(condition)?,
        }),
    }
}

/// Returns the same of a field's selector.
fn test_at<'a>(field: &'a Field, selector: &'a Selector) -> Option<Test<'a>>
    ensures { IfSome result (λ test. (root : Value) (current : Option Value) → field_truth selector.now (is_true root selector.now) (option_and_then (value_at field.now.path) current)
        ≡ is_there_and (comparison_meets test.comparison) (path_value (option_map (λ p. p.now) test.path) current)) }
{
    let condition = only_condition(selector)?;
    Some(Test {
        path: Some(&field.path),
        comparison: comparison_in(condition)?,
    })
}

/// Returns the condition of a selector that has just one.
#[tactic(auto, using(crate::proofs::Tests::one_true))]
fn only_condition<'a>(selector: &'a Selector) -> Option<&'a Condition>
    ensures truth { IfSome result (λ c. (root : Value) (current : Option Value) → is_true root selector.now current ≡ condition_truth root c.now current) }
    ensures object { is_object selector.now ≡ true }
{
    let [condition] = selector.conditions.as_slice() else {
        return None;
    };
    Some(condition)
}

fn comparison_in<'a>(condition: &'a Condition) -> Option<Comparison<'a>>
    ensures { IfSome result (λ c. (root : Value) (current : Option Value)
        → condition_truth root condition.now current ≡ is_there_and (comparison_meets c) current) }
{
    match condition {
        Condition::Value(operator, argument) => Some(Comparison::Meets(*operator, argument)),
        Condition::In(members) => Some(Comparison::IsAmong(members)),
        Condition::NotIn(members) => Some(Comparison::IsNotAmong(members)),
        _ => None,
    }
}

/// Returns the selector at this place, if there is one.
pub(crate) fn selector_at(selectors: &Vec<Selector>, at: usize) -> Option<&Selector>
    ensures { option_copied result ≡ slice_get selectors.now.items at }
{
    selectors.get(at)
}

/// Returns the places of the selectors.
fn places_of(alloc: Global, selectors: &Vec<Selector>) -> Got<Vec<usize>>
    ensures { IfOk result (λ places. (test : Value → Bool) → some_place_has test selectors.now.items places.items ≡ list_any test selectors.now.items) }
{
    let count = selectors.len();
    let mut places = Vec::with_capacity(alloc, count)?;
    for at in 0..count {
        places.push(at)?;
    }
    Ok(places)
}

/// Sorts places by the paths of their selectors.
fn sort_places(places: Vec<usize>, selectors: &Vec<Selector>) -> Vec<usize>
    ensures { IsPermutation places.items result.items }
{
    let mut places = places;
    places.sort_unstable_by(|one: &usize, other: &usize| -> Ordering {
        path_at(selectors, *one).cmp(path_at(selectors, *other))
    });
    places
}

/// Returns the path of the only field of the selector at this place; of any other selector no text.
fn path_at(selectors: &Vec<Selector>, at: usize) -> &str {
    let Some(selector) = selector_at(selectors, at) else {
        return "";
    };
    match selector.conditions.as_slice() {
        [Condition::Field(field, _)] | [Condition::FieldIs(field, _)] => field.path.as_str(),
        _ => "",
    }
}
