//! What a request to write several documents together asks for (CouchDB manual, api/database/bulk-api).

ghost use Rattle.std.specs.Prelude.{◌≡◌, option_map, map as list_map, codes};
ghost use Rattle.couch_http.specs.Message.{message_of};
ghost use Rattle.couch_json.specs.Value.{member_at, member_of};
ghost use Rattle.couch_json.specs.View.{members_view, view};
ghost use Rattle.api.specs.Bulk.{bulk_in, bulk_of, bulk_documents_in, bulk_documents_of, new_edits_in};
ghost use Rattle.api.specs.BulkAsked.{bulk_asked};
ghost use Rattle.api.specs.RequestReading.{Says};

use crate::asking::body;
use crate::fault::RequestFault;
use crate::refusal::Refusal;
use couch_http::Request;
use couch_json::{Json, NameMap};
use std::alloc::Global;

/// Documents that are to be written together.
#[derive(Drop)]
pub struct BulkAsked {
    /// Whether as new edits, and not with the revisions that they come with.
    pub new_edits: bool,
    /// The documents, in order.
    pub documents: Vec<Json>,
}

/// Reads what a body asks to be written, where it is an object of `docs` and `new_edits` alone.
pub fn read_bulk(alloc: Global, request: &Request) -> Result<BulkAsked, RequestFault>
    ensures { Says bulk_asked result (bulk_of (message_of request.now)) }
{
    let value = body(alloc, request)?;
    match bulk_in(value) {
        Some(asked) => Ok(asked),
        None => Err(RequestFault::Refused(Refusal::Body)),
    }
}

/// Takes what a value asks to be written.
fn bulk_in(value: Json) -> Option<BulkAsked>
    ensures { option_map bulk_asked result ≡ bulk_in (view value) }
{
    if !value.has_only(&["docs", "new_edits"]) {
        return None;
    }
    let new_edits = new_edits_in(value.member("new_edits"))?;
    let documents = documents_in(value)?;
    Some(BulkAsked {
        new_edits,
        documents,
    })
}

/// Tells what `new_edits` says, true where it is not given; `None` where it is neither true nor false.
fn new_edits_in(value: Option<&Json>) -> Option<bool>
    ensures { result ≡ new_edits_in (option_map (λ v. view v.now) value.entry) }
{
    match value {
        Some(value) => value.truth(),
        None => Some(true),
    }
}

/// Returns the list that `docs` is; `None` where it is not given or is no list.
fn documents_in(value: Json) -> Option<Vec<Json>>
    ensures { option_map (λ documents. list_map view documents.items) result ≡ bulk_documents_in (member_of (view value) (codes "docs")) }
{
    let Json::Object(members) = value else {
        return None;
    };
    list_of(take_member(members, "docs")?)
}

/// Returns the value at a name, taken out of the members of an object.
fn take_member(members: NameMap<Json>, name: &str) -> Option<Json>
    ensures { option_map view result ≡ member_at name.now (members_view members.entries) }
{
    let mut members = members;
    members.remove(name)
}

/// Returns the elements, where the value is a list.
fn list_of(value: Json) -> Option<Vec<Json>>
    ensures { option_map (λ elements. list_map view elements.items) result ≡ bulk_documents_of (view value) }
{
    match value {
        Json::Array(elements) => Some(elements),
        _ => None,
    }
}
