//! What update rules are asked of.

ghost use Rattle.std.specs.Prelude.{◌≡◌, IfOk, map, option_map, string_bytes};
ghost use Rattle.couch_json.specs.Value.{object, text};
ghost use Rattle.couch_json.specs.View.{view, members_view};
ghost use Rattle.tree.specs.ShownDocument.{body_members};
ghost use Rattle.policy.specs.Argument.{argument_with, name_value, new_document, user_context};

use crate::security::Security;
use auth::Caller;
use couch_json::{Got, Json, NameMap, put_member};
use std::alloc::Global;
use tree::DocId;

/// Builds the argument of the update rules of a database: an object with `newDoc`, `oldDoc` (null
/// where there is none), `secObj` and `userCtx`.
///
/// The new document is shown by [`show_new`], the old one by [`tree::show`]. Who asks the rules of many
/// documents makes [`Circumstances`] once. See the CouchDB manual, ddocs/ddocs.
pub fn argument(
    alloc: Global,
    new: Json,
    old: Option<Json>,
    caller: &Caller,
    db: &str,
    security: &Security,
) -> Got<Json>
    ensures { IfOk result (λ value. view value ≡ argument_with (view new) (option_map view old) caller.now db.now security.now) }
{
    let members = build_members(alloc, new, old, caller, db, security)?;
    Ok(Json::Object(members))
}

/// Builds the members of the argument.
pub(crate) fn build_members(
    alloc: Global,
    new: Json,
    old: Option<Json>,
    caller: &Caller,
    db: &str,
    security: &Security,
) -> Got<NameMap<Json>>
    ensures { IfOk result (λ members. object (members_view members.entries) ≡ argument_with (view new) (option_map view old) caller.now db.now security.now) }
{
    let old = match old {
        Some(old) => old,
        None => Json::Null,
    };
    let mut members = NameMap::new(alloc);
    put_member(alloc, &mut members, "newDoc", new)?;
    put_member(alloc, &mut members, "oldDoc", old)?;
    put_member(alloc, &mut members, "secObj", security.value().copy(alloc)?)?;
    put_member(
        alloc,
        &mut members,
        "userCtx",
        build_user_context(alloc, caller, db)?,
    )?;
    Ok(members)
}

/// Shows a document as a write would have it: its body with `_id`, and with `_deleted` where it is
/// deleted.
pub fn show_new(alloc: Global, id: &DocId, deleted: bool, body: &Json) -> Got<Json>
    ensures { IfOk result (λ document. view document
        ≡ new_document (record { id = id.now; deleted = deleted; body = view body.now })) }
{
    let mut members = copy_members(alloc, body)?;
    let id = String::from_str(alloc, id.as_str())?;
    put_member(alloc, &mut members, "_id", Json::Text(id))?;
    if deleted {
        put_member(alloc, &mut members, "_deleted", Json::Truth(true))?;
    }
    Ok(Json::Object(members))
}

/// Copies the members of a body.
fn copy_members(alloc: Global, body: &Json) -> Got<NameMap<Json>>
    ensures { IfOk result (λ members. members_view members.entries ≡ body_members (view body.now)) }
{
    Ok(into_members(alloc, body.copy(alloc)?))
}

/// Returns the members of a value, or none where it is no object.
pub(crate) fn into_members(alloc: Global, value: Json) -> NameMap<Json>
    ensures { members_view result.entries ≡ body_members (view value) }
{
    match value {
        Json::Object(members) => members,
        _ => NameMap::new(alloc),
    }
}

/// Tells who writes, and where: an object with `db`, `name` and `roles`.
fn build_user_context(alloc: Global, caller: &Caller, db: &str) -> Got<Json>
    ensures { IfOk result (λ value. view value ≡ user_context caller.now db.now) }
{
    let db = String::from_str(alloc, db)?;
    let mut members = NameMap::new(alloc);
    put_member(alloc, &mut members, "db", Json::Text(db))?;
    put_member(alloc, &mut members, "name", build_name(alloc, caller)?)?;
    put_member(
        alloc,
        &mut members,
        "roles",
        Json::Array(copy_texts(alloc, caller.roles())?),
    )?;
    Ok(Json::Object(members))
}

/// Tells a caller's name, null for an anonymous one.
fn build_name(alloc: Global, caller: &Caller) -> Got<Json>
    ensures { IfOk result (λ value. view value ≡ name_value caller.now.name) }
{
    match caller.name() {
        Some(name) => Ok(Json::Text(String::from_str(alloc, name)?)),
        None => Ok(Json::Null),
    }
}

/// Copies texts as values.
fn copy_texts(alloc: Global, names: &[String]) -> Got<Vec<Json>>
    ensures { IfOk result (λ items. map view items.items ≡ map text (map string_bytes names.now)) }
{
    let mut items = Vec::with_capacity(alloc, names.len())?;
    for name in names {
        items.push(Json::Text(String::from_str(alloc, name.as_str())?))?;
    }
    Ok(items)
}
