//! Rows on selectors: of queries, of rules, and the bounds that they give a field.

use crate::fault::{RowsFault, named};
use crate::playing::Asked;
use crate::texts::put;
use crate::values::{path_of, put_value};
use couch_json::{Json, read};
use selector::{Bounds, Edge, RuleSelector, Selector};
use std::alloc::Global;

/// `SELECTOR`: `selector`, or the fault by which it is none. `SELECTOR on VALUE`: `true` or `false`.
/// `SELECTOR on each of [VALUE, ..]`: for each value, `T` or `-`. `rule SELECTOR ..`: the same of the
/// selector of a rule.
pub fn selector(asked: Asked<'_>, out: &mut String) -> Result<(), RowsFault> {
    let question = asked.text();
    if let Some((selector, values)) = question.split_once(" on each of ") {
        return mark_each(asked.alloc, selector, values, out);
    }
    let Some((selector, value)) = question.split_once(" on ") else {
        is_true(asked.alloc, question, &Json::Null, out)?;
        return put("selector", out);
    };
    let value = named(read(asked.alloc, value.as_bytes()), out)?;
    let is_true = is_true(asked.alloc, selector, &value, out)?;
    put(if is_true { "true" } else { "false" }, out)
}

/// Marks of which values of a list a selector is true.
fn mark_each(
    alloc: Global,
    selector: &str,
    values: &str,
    out: &mut String,
) -> Result<(), RowsFault> {
    let values = named(read(alloc, values.as_bytes()), out)?;
    let Some(values) = values.items() else {
        return Err(RowsFault::Refused("not a list"));
    };
    for value in values {
        let is_true = is_true(alloc, selector, value, out)?;
        out.push(if is_true { 'T' } else { '-' })?;
    }
    Ok(())
}

/// Tells whether the selector of a text is true of a value.
fn is_true(alloc: Global, text: &str, value: &Json, out: &mut String) -> Result<bool, RowsFault> {
    match text.strip_prefix("rule ") {
        Some(text) => {
            let json = named(read(alloc, text.as_bytes()), out)?;
            Ok(named(RuleSelector::parse(alloc, &json), out)?.matches(value))
        }
        None => Ok(query_of(alloc, text, out)?.matches(value)),
    }
}

/// Returns the selector of a query.
fn query_of(alloc: Global, text: &str, out: &mut String) -> Result<Selector, RowsFault> {
    let json = named(read(alloc, text.as_bytes()), out)?;
    named(Selector::parse(alloc, &json), out)
}

/// `SELECTOR at PATH`: the bounds of the field: `any`, `there`, or its edges, as `from 1 below 5` and
/// `above 1 to 5`. Where the table of all fields has others, they follow.
pub fn bounds(asked: Asked<'_>, out: &mut String) -> Result<(), RowsFault> {
    let Some((selector, path)) = asked.text().rsplit_once(" at ") else {
        return Err(RowsFault::Refused("SELECTOR at PATH"));
    };
    let selector = query_of(asked.alloc, selector, out)?;
    let path = path_of(asked.alloc, path, out)?;
    put_bounds(asked.alloc, selector.bounds(&path), out)?;
    let fields = selector.field_bounds(asked.alloc)?;
    let mut other = String::new(asked.alloc);
    put_bounds(asked.alloc, fields.get(&path), &mut other)?;
    if other.as_str() != out.as_str() {
        out.push_str(", in the table ")?;
        out.push_str(other.as_str())?;
    }
    Ok(())
}

/// Adds bounds.
fn put_bounds(alloc: Global, bounds: Bounds<'_>, out: &mut String) -> Result<(), RowsFault> {
    match bounds {
        Bounds::Any => put("any", out),
        Bounds::Range(None, None) => put("there", out),
        Bounds::Range(low, high) => {
            put_edge(alloc, low, "from ", "above ", out)?;
            put_edge(alloc, high, "to ", "below ", out)
        }
    }
}

/// Adds an edge, behind the one word if it is inside and behind the other if it is not.
fn put_edge(
    alloc: Global,
    edge: Option<Edge<'_>>,
    inside: &str,
    outside: &str,
    out: &mut String,
) -> Result<(), RowsFault> {
    let Some(edge) = edge else {
        return Ok(());
    };
    if !out.is_empty() {
        out.push(' ')?;
    }
    out.push_str(if edge.inclusive { inside } else { outside })?;
    put_value(alloc, edge.value, out)
}
