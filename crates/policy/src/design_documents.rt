//! Which bodies a design document may have.

ghost use Rattle.std.specs.Prelude.{◌≡◌, IfOk, option_map};
ghost use Rattle.couch_json.specs.View.{view, items_view, members_view};
ghost use Rattle.policy.specs.DesignDocuments.{are_fields, are_indexes, are_paths, is_design_body, is_field_count, is_field_list};
ghost use Rattle.policy.specs.DesignDocuments.{is_index, is_index_name, is_index_object, is_path, is_rule};
ghost use Rattle.policy.specs.Security.{is_absent_or};

use couch_json::{FieldPath, Got, Json, NameMap, NoMemory, PathFault};
use selector::{RuleSelector, SelectorFault};
use std::alloc::Global;

/// Tests whether a design document may have this body: whether its `validate_doc_update`, if it has
/// one, is the selector of a rule, and its `indexes`, if it has them, are of their form.
///
/// `indexes` is an object. Its names have 1 to 64 bytes, and its values are objects with `fields`
/// alone, a list of 1 to 8 field paths. Other members have no effect. See the CouchDB manual,
/// ddocs/ddocs.
pub fn check_design(alloc: Global, body: &Json) -> Got<bool>
    ensures { IfOk result (λ good. good ≡ is_design_body (view body.now)) }
{
    if !check_rule(alloc, body.member("validate_doc_update"))? {
        return Ok(false);
    }
    check_indexes(alloc, body.member("indexes"))
}

/// Tests whether a rule, where there is one, is of its form.
fn check_rule(alloc: Global, rule: Option<&Json>) -> Got<bool>
    ensures { IfOk result (λ good. good ≡ is_absent_or is_rule (option_map (λ v. view v.now) rule.entry)) }
{
    match rule {
        Some(rule) => is_rule(alloc, rule),
        None => Ok(true),
    }
}

fn is_rule(alloc: Global, value: &Json) -> Got<bool>
    ensures { IfOk result (λ good. good ≡ is_rule (view value.now)) }
{
    match RuleSelector::parse(alloc, value) {
        Ok(_rule) => Ok(true),
        Err(SelectorFault::Memory) => Err(NoMemory),
        Err(_) => Ok(false),
    }
}

/// Tests whether indexes, where there are some, are of their form: an object of them by name, as
/// [`check_design`] says.
pub fn check_indexes(alloc: Global, indexes: Option<&Json>) -> Got<bool>
    ensures { IfOk result (λ good. good ≡ is_absent_or is_index_object (option_map (λ v. view v.now) indexes.entry)) }
{
    match indexes {
        Some(Json::Object(indexes)) => are_indexes(alloc, indexes),
        Some(_) => Ok(false),
        None => Ok(true),
    }
}

fn are_indexes(alloc: Global, indexes: &NameMap<Json>) -> Got<bool>
    ensures { IfOk result (λ good. good ≡ are_indexes (members_view indexes.now.entries)) }
{
    for (name, index) in indexes.as_slice() {
        if !is_index_name(name.as_str()) || !is_index(alloc, index)? {
            return Ok(false);
        }
    }
    Ok(true)
}

fn is_index_name(name: &str) -> bool
    ensures { result ≡ is_index_name name.now }
{
    !name.is_empty() && name.len() <= 64
}

/// Tests whether the value is an object with `fields` alone, which is a list of paths.
fn is_index(alloc: Global, value: &Json) -> Got<bool>
    ensures { IfOk result (λ good. good ≡ is_index (view value.now)) }
{
    if !value.has_only(&["fields"]) {
        return Ok(false);
    }
    match value.member("fields") {
        Some(Json::Array(fields)) => are_fields(alloc, fields),
        _ => Ok(false),
    }
}

#[tactic(auto, using(crate::proofs::Fields::items_length_of_view))]
fn are_fields(alloc: Global, fields: &[Json]) -> Got<bool>
    ensures { IfOk result (λ good. good ≡ are_fields (items_view fields.now)) }
{
    if !is_field_count(fields.len()) {
        return Ok(false);
    }
    are_paths(alloc, fields)
}

fn is_field_count(count: usize) -> bool
    ensures { result ≡ is_field_count count }
{
    1 <= count && count <= 8
}

fn are_paths(alloc: Global, fields: &[Json]) -> Got<bool>
    ensures { IfOk result (λ good. good ≡ are_paths (items_view fields.now)) }
{
    for field in fields {
        if !is_path(alloc, field)? {
            return Ok(false);
        }
    }
    Ok(true)
}

fn is_path(alloc: Global, value: &Json) -> Got<bool>
    ensures { IfOk result (λ good. good ≡ is_path (view value.now)) }
{
    let Some(text) = value.text() else {
        return Ok(false);
    };
    match FieldPath::parse(alloc, text) {
        Ok(_path) => Ok(true),
        Err(PathFault::Shape) => Ok(false),
        Err(PathFault::Memory) => Err(NoMemory),
    }
}
