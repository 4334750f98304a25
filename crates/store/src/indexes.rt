//! What queries look at: the documents that they see, the values of a document at fields, and the
//! fields of the indexes that design documents declare.

ghost use Rattle.std.specs.Prelude.{◌≡◌, IfOk, IfSome, Some, option_map, true};
ghost use Rattle.couch_json.specs.View.{items_view, view};
ghost use Rattle.policy.specs.DesignDocuments.{are_paths, is_index, is_path};
ghost use Rattle.couch_json.specs.Parts.{text_in};
ghost use Rattle.store.specs.Indexes.{declared_fields, declared_index, field_values, fields_in, index_fields_of};
ghost use Rattle.store.specs.Indexes.{paths_in, queried_document, shown_by, winning_body};

use crate::plain_id_pages::find_live_rev;
use couch_json::{FieldPath, Got, Json, NoMemory, PathFault, at};
use policy::check_indexes;
use std::alloc::Global;
use tree::{DocId, History, Rev, show};

/// Shows the document that queries see of a history: its winner, where that is not deleted. Of a design
/// document they see nothing.
///
/// See the CouchDB manual, api/database/find.
pub fn show_queried(alloc: Global, id: &DocId, history: &History) -> Got<Option<Json>>
    ensures { IfOk result (λ shown. option_map view shown ≡ queried_document id.now history.now) }
{
    if id.is_design() {
        return Ok(None);
    }
    match find_live_rev(history) {
        Some(rev) => show_held(alloc, id, history, &rev),
        None => Ok(None),
    }
}

/// Copies the values that a document has at these fields, in order; `None` where it lacks one of them.
///
/// See the CouchDB manual, api/database/find, for the fields of an index.
pub fn values_at(alloc: Global, fields: &[FieldPath], document: &Json) -> Got<Option<Vec<Json>>>
    ensures { IfOk result (λ values. option_map (λ vs. items_view vs.items) values ≡ field_values fields.now (view document.now)) }
{
    let mut values = Vec::with_capacity(alloc, fields.len())?;
    for field in fields {
        let Some(value) = at(document, field) else {
            return Ok(None);
        };
        values.push(value.copy(alloc)?)?;
    }
    Ok(Some(values))
}

/// Shows what is held of a revision, where something is.
fn show_held(alloc: Global, id: &DocId, history: &History, rev: &Rev) -> Got<Option<Json>>
    ensures { IfOk result (λ shown. option_map view shown ≡ shown_by id.now history.now (Some rev.now)) }
{
    match history.body(rev) {
        Some((deleted, body)) => Ok(Some(show(alloc, id, rev, deleted, body)?)),
        None => Ok(None),
    }
}

/// Reads the fields of the index of this name that a design document with this history declares, where
/// its winner is not deleted; `None` where it declares none of this name.
pub fn read_index_fields(
    alloc: Global,
    design: &DocId,
    history: &History,
    name: &str,
) -> Got<Option<Vec<FieldPath>>>
    ensures { IfOk result (λ fields. option_map (λ paths. paths.items) fields ≡ index_fields_of design.now history.now name.now) }
{
    if !design.is_design() {
        return Ok(None);
    }
    match find_winning_body(history) {
        Some(body) => read_declared(alloc, body, name),
        None => Ok(None),
    }
}

/// Finds the body of the winner, where that is not deleted.
pub fn find_winning_body(history: &History) -> Option<&Json>
    ensures { option_map (λ body. view body.now) result ≡ winning_body history.now }
{
    let winner = find_live_rev(history)?;
    let (_deleted, body) = history.body(&winner)?;
    Some(body)
}

/// Finds the index that a body declares under this name; `None` where it declares none, or where one of
/// its indexes is not of its form.
///
/// See the CouchDB manual, api/database/find, for the fields of an index.
pub fn find_index<'a>(alloc: Global, body: &'a Json, name: &str) -> Got<Option<&'a Json>>
    ensures declared { IfOk result (λ index. option_map (λ v. view v.now) index ≡ declared_index (view body.now) name.now) }
    ensures formed { IfOk result (λ index. IfSome index (λ v. is_index (view v.now) ≡ true)) }
{
    let Some(indexes) = body.member("indexes") else {
        return Ok(None);
    };
    if !check_indexes(alloc, Some(indexes))? {
        return Ok(None);
    }
    match indexes.member(name) {
        Some(index) => Ok(Some(index)),
        None => Ok(None),
    }
}

/// Reads the fields of the index that a body declares under this name.
fn read_declared(alloc: Global, body: &Json, name: &str) -> Got<Option<Vec<FieldPath>>>
    ensures { IfOk result (λ fields. option_map (λ paths. paths.items) fields ≡ declared_fields (view body.now) name.now) }
{
    match find_index(alloc, body, name)? {
        Some(index) => Ok(Some(read_index(alloc, index)?)),
        None => Ok(None),
    }
}

/// Reads the fields of an index.
fn read_index(alloc: Global, index: &Json) -> Got<Vec<FieldPath>>
    requires { is_index (view index.now) ≡ true }
    ensures { IfOk result (λ paths. paths.items ≡ fields_in (view index.now)) }
{
    match index.member("fields") {
        Some(Json::Array(fields)) => read_paths(alloc, fields),
        _ => Ok(Vec::new(alloc)),
    }
}

fn read_paths(alloc: Global, fields: &[Json]) -> Got<Vec<FieldPath>>
    requires { are_paths (items_view fields.now) ≡ true }
    ensures { IfOk result (λ paths. paths.items ≡ paths_in (items_view fields.now)) }
{
    let mut paths = Vec::with_capacity(alloc, fields.len())?;
    for field in fields {
        paths.push(read_path(alloc, field)?)?;
    }
    Ok(paths)
}

fn read_path(alloc: Global, field: &Json) -> Got<FieldPath>
    requires { is_path (view field.now) ≡ true }
    ensures { IfOk result (λ path. Some path ≡ text_in (view field.now)) }
{
    let Some(text) = field.text() else {
        unreachable!()
    };
    match FieldPath::parse(alloc, text) {
        Ok(path) => Ok(path),
        Err(PathFault::Memory) => Err(NoMemory),
        Err(PathFault::Shape) => unreachable!(),
    }
}
