//! The document that a revision is shown as.

ghost use Rattle.std.specs.Prelude.{◌≡◌, IfOk};
ghost use Rattle.couch_json.specs.View.{view, members_view};
ghost use Rattle.tree.specs.ShownDocument.{body_members, document_at_revision, shown_members};

use crate::document_id::DocId;
use crate::revision::Rev;
use couch_json::{Got, Json, NameMap, put_member};
use std::alloc::Global;

/// Shows a revision as a document: its body with `_id`, `_rev`, and `_deleted` where it is deleted.
///
/// Rules, indexes and selectors see documents so. See the CouchDB manual, api/document/common.
pub fn show(alloc: Global, id: &DocId, rev: &Rev, deleted: bool, body: &Json) -> Got<Json>
    ensures { IfOk result (λ document. view document ≡ document_at_revision id.now rev.now (record { deleted = deleted; body = view body.now })) }
{
    Ok(Json::Object(show_members(alloc, id, rev, deleted, body)?))
}

/// Shows a revision as the members of its document, so that a caller may add its own.
pub fn show_members(
    alloc: Global,
    id: &DocId,
    rev: &Rev,
    deleted: bool,
    body: &Json,
) -> Got<NameMap<Json>>
    ensures { IfOk result (λ members. members_view members.entries
        ≡ shown_members id.now rev.now (record { deleted = deleted; body = view body.now })) }
{
    let mut members = members_of(alloc, body)?;
    let id = String::from_str(alloc, id.as_str())?;
    put_member(alloc, &mut members, "_id", Json::Text(id))?;
    put_member(alloc, &mut members, "_rev", Json::Text(rev.text(alloc)?))?;
    if deleted {
        put_member(alloc, &mut members, "_deleted", Json::Truth(true))?;
    }
    Ok(members)
}

/// Copies the members of a body.
fn members_of(alloc: Global, body: &Json) -> Got<NameMap<Json>>
    ensures { IfOk result (λ members. members_view members.entries ≡ body_members (view body.now)) }
{
    match body.copy(alloc)? {
        Json::Object(members) => Ok(members),
        _ => Ok(NameMap::new(alloc)),
    }
}
