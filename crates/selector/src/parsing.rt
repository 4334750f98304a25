ghost use Rattle.std.specs.Prelude.{◌≡◌, ◌≢◌, ◌≤◌, ◌+◌, IfOk, IfErr, Some, None, true, codes};
ghost use Rattle.couch_json.specs.Value.{array};
ghost use Rattle.couch_json.specs.View.{view, items_of, items_view, members_view};
ghost use Rattle.selector.specs.Grammar.{selector_fault, list_fault, filled_fault, items_fault, members_fault, member_fault, field_fault, same_fault};
ghost use Rattle.selector.specs.LookedUp.{AreLookedUp, IsLookedUp};
ghost use Rattle.selector.specs.Operators.{operator_named, value_operator_name};
ghost use Rattle.selector.specs.View.{name_of, value_of, members_of};

use crate::fault::SelectorFault;
use crate::lookup::Lookup;
use crate::members::Members;
use crate::operator::{Operator, ValueOperator, operator_named};
use crate::selector::{BareValue, Condition, Field, Selector};
use crate::takes::takes;
use couch_json::{FieldPath, Got, Json, NameMap, PathFault};
use std::alloc::Global;

/// How many selector objects may nest.
const MAX_LEVEL: usize = 32;

/// Parses the selector that a value is, at this level, in a rule or elsewhere.
#[cycle(parse)]
pub(crate) fn parse_selector(
    alloc: Global,
    value: &Json,
    in_rule: bool,
    level: usize,
) -> Result<Selector, SelectorFault>
    requires { level ≤ MAX_LEVEL + 1 }
    ensures value { IfOk result (λ s. s ≡ view value.now) }
    ensures lawful { IfOk result (λ s. selector_fault in_rule (view value.now) level ≡ None) }
    ensures fault { IfErr result (λ e. e ≢ SelectorFault.Memory
        → selector_fault in_rule (view value.now) level ≡ Some e) }
{
    match value {
        Json::Object(_) if level > MAX_LEVEL => Err(SelectorFault::Depth),
        Json::Object(members) => {
            let conditions = parse_members(alloc, members, in_rule, level)?;
            Ok(Selector { conditions })
        }
        _ => Err(SelectorFault::Argument),
    }
}

#[cycle(parse)]
fn parse_members(
    alloc: Global,
    members: &NameMap<Json>,
    in_rule: bool,
    level: usize,
) -> Result<Vec<Condition>, SelectorFault>
    requires { level ≤ MAX_LEVEL }
    ensures members { IfOk result (λ cs. members_of cs.items ≡ members_view members.now.entries) }
    ensures looked_up { IfOk result (λ cs. AreLookedUp cs.items) }
    ensures lawful { IfOk result (λ cs. members_fault in_rule (members_view members.now.entries) level ≡ None) }
    ensures fault { IfErr result (λ e. e ≢ SelectorFault.Memory
        → members_fault in_rule (members_view members.now.entries) level ≡ Some e) }
{
    let mut conditions = Vec::with_capacity(alloc, members.len())?;
    for (name, value) in members.as_slice() {
        conditions.push(parse_member(alloc, name, value, in_rule, level)?)?;
    }
    Ok(conditions)
}

#[cycle(parse)]
fn parse_member(
    alloc: Global,
    name: &str,
    value: &Json,
    in_rule: bool,
    level: usize,
) -> Result<Condition, SelectorFault>
    requires { level ≤ MAX_LEVEL }
    ensures name { IfOk result (λ c. name_of c ≡ name.now) }
    ensures value { IfOk result (λ c. value_of c ≡ view value.now) }
    ensures looked_up { IfOk result (λ c. IsLookedUp c) }
    ensures lawful { IfOk result (λ c. member_fault in_rule (operator_named name.now) name.now (view value.now)
        (selector_fault in_rule (view value.now) (level + 1)) (list_fault in_rule (view value.now) (level + 1)) ≡ None) }
    ensures fault { IfErr result (λ e. e ≢ SelectorFault.Memory
        → member_fault in_rule (operator_named name.now) name.now (view value.now)
        (selector_fault in_rule (view value.now) (level + 1)) (list_fault in_rule (view value.now) (level + 1)) ≡ Some e) }
{
    match operator_named(name) {
        Some(Operator::Exists) => match value {
            Json::Truth(wanted) => Ok(Condition::Exists(*wanted)),
            _ => Err(SelectorFault::Argument),
        },
        Some(Operator::Value(operator)) if takes(operator, value) => {
            Ok(parse_value(alloc, operator, value)?)
        }
        Some(Operator::Value(_)) => Err(SelectorFault::Argument),
        Some(Operator::SameAs) if in_rule => parse_same(alloc, value),
        Some(Operator::SameAs) => Err(SelectorFault::Operator),
        Some(Operator::Selector(operator)) => Ok(Condition::Selector(
            operator,
            parse_selector(alloc, value, in_rule, level + 1)?,
        )),
        Some(Operator::List(operator)) => {
            let selectors = parse_list(alloc, value, in_rule, level + 1)?;
            let lookup = Lookup::of(alloc, operator, &selectors)?;
            Ok(Condition::List(operator, selectors, lookup))
        }
        None if name.starts_with('$') => Err(SelectorFault::Operator),
        None => parse_field(alloc, name, value, in_rule, level),
    }
}

/// Takes the argument of an operator on a plain value.
fn parse_value(alloc: Global, operator: ValueOperator, value: &Json) -> Got<Condition>
    ensures name { IfOk result (λ c. name_of c ≡ value_operator_name operator) }
    ensures value { IfOk result (λ c. value_of c ≡ view value.now) }
    ensures looked_up { IfOk result (λ c. IsLookedUp c) }
{
    match operator {
        ValueOperator::IsIn => Ok(Condition::In(Members::of(alloc, value)?)),
        ValueOperator::IsNotIn => Ok(Condition::NotIn(Members::of(alloc, value)?)),
        ValueOperator::HasAll => Ok(Condition::All(Members::of(alloc, value)?)),
        _ => Ok(Condition::Value(operator, value.copy(alloc)?)),
    }
}

/// Parses a member whose name is no operator's and does not begin with `$`.
#[cycle(parse)]
fn parse_field(
    alloc: Global,
    name: &str,
    value: &Json,
    in_rule: bool,
    level: usize,
) -> Result<Condition, SelectorFault>
    requires level { level ≤ MAX_LEVEL }
    requires name { operator_named name.now ≡ None }
    ensures name { IfOk result (λ c. name_of c ≡ name.now) }
    ensures value { IfOk result (λ c. value_of c ≡ view value.now) }
    ensures looked_up { IfOk result (λ c. IsLookedUp c) }
    ensures lawful { IfOk result (λ c. field_fault name.now (view value.now) (selector_fault in_rule (view value.now) (level + 1)) ≡ None) }
    ensures fault { IfErr result (λ e. e ≢ SelectorFault.Memory
        → field_fault name.now (view value.now) (selector_fault in_rule (view value.now) (level + 1)) ≡ Some e) }
{
    let path = match FieldPath::parse(alloc, name) {
        Ok(path) => path,
        Err(PathFault::Shape) => return Err(SelectorFault::Argument),
        Err(PathFault::Memory) => return Err(SelectorFault::Memory),
    };
    let field = Field { path };
    match value {
        Json::Object(_) => {
            let conditions = parse_selector(alloc, value, in_rule, level + 1)?;
            Ok(Condition::Field(field, conditions))
        }
        _ => {
            let json = value.copy(alloc)?;
            Ok(Condition::FieldIs(field, BareValue { json }))
        }
    }
}

/// Parses the path of `$sameAs`.
fn parse_same(alloc: Global, value: &Json) -> Result<Condition, SelectorFault>
    ensures name { IfOk result (λ c. name_of c ≡ codes "$sameAs") }
    ensures value { IfOk result (λ c. value_of c ≡ view value.now) }
    ensures looked_up { IfOk result (λ c. IsLookedUp c) }
    ensures lawful { IfOk result (λ c. same_fault true (view value.now) ≡ None) }
    ensures fault { IfErr result (λ e. e ≢ SelectorFault.Memory → same_fault true (view value.now) ≡ Some e) }
{
    let Json::Text(text) = value else {
        return Err(SelectorFault::Argument);
    };
    match FieldPath::parse(alloc, text) {
        Ok(path) => Ok(Condition::SameAs(path)),
        Err(PathFault::Shape) => Err(SelectorFault::Argument),
        Err(PathFault::Memory) => Err(SelectorFault::Memory),
    }
}

/// Parses the selectors of a list.
#[cycle(parse)]
fn parse_list(
    alloc: Global,
    value: &Json,
    in_rule: bool,
    level: usize,
) -> Result<Vec<Selector>, SelectorFault>
    requires { level ≤ MAX_LEVEL + 1 }
    ensures value { IfOk result (λ ss. array (items_of ss.items) ≡ view value.now) }
    ensures lawful { IfOk result (λ ss. list_fault in_rule (view value.now) level ≡ None) }
    ensures fault { IfErr result (λ e. e ≢ SelectorFault.Memory
        → list_fault in_rule (view value.now) level ≡ Some e) }
{
    match value {
        Json::Array(items) => parse_items(alloc, items, in_rule, level),
        _ => Err(SelectorFault::Argument),
    }
}

/// Parses the selectors that the elements are, of which there is at least one.
#[cycle(parse)]
fn parse_items(
    alloc: Global,
    items: &Vec<Json>,
    in_rule: bool,
    level: usize,
) -> Result<Vec<Selector>, SelectorFault>
    requires { level ≤ MAX_LEVEL + 1 }
    ensures items { IfOk result (λ ss. items_of ss.items ≡ items_view items.now.items) }
    ensures lawful { IfOk result (λ ss. filled_fault (items_view items.now.items)
        (items_fault in_rule (items_view items.now.items) level) ≡ None) }
    ensures fault { IfErr result (λ e. e ≢ SelectorFault.Memory → filled_fault (items_view items.now.items)
        (items_fault in_rule (items_view items.now.items) level) ≡ Some e) }
{
    if items.is_empty() {
        return Err(SelectorFault::Argument);
    }
    let mut selectors = Vec::with_capacity(alloc, items.len())?;
    for item in items {
        selectors.push(parse_selector(alloc, item, in_rule, level)?)?;
    }
    Ok(selectors)
}
