//! A local document's page: `GET` and `PUT /{db}/_local/{id}` (CouchDB manual, api/local).

ghost use Rattle.std.specs.Prelude.{◌≡◌, IfOk, IsTrue};
ghost use Rattle.couch_http.specs.Message.{message_of};
ghost use Rattle.couch_json.specs.Value.{object};
ghost use Rattle.couch_json.specs.View.{view};
ghost use Rattle.store.specs.Contents.{local_at};
ghost use Rattle.tree.specs.DocumentId.{is_local_id};
ghost use Rattle.write.specs.LocalWrites.{local_outcome};
ghost use Rattle.write.specs.Planning.{IsLocal};
ghost use Rattle.node.specs.inner.Drafts.{IsLocalReply};
ghost use Rattle.node.specs.inner.Coming.{IsDatabaseRead, WorksIn};
ghost use Rattle.node.specs.Works.{local_members, local_read, local_set, local_written};

use crate::bulk_reply::{known_members, refusal_of_edit};
use crate::draft::WriteDraft;
use crate::early_end::EarlyEnd;
use api::{body, local_id, without_parameters};
use auth::Caller;
use couch_http::Request;
use couch_json::{Got, Json, JsonText, put_member};
use read::local;
use std::alloc::Global;
use store::{DbName, LocalDocument, Store};
use tree::DocId;
use write::{Changes, WriteFault, put_local};

/// Reads a local document.
pub(crate) fn read_local<S: Store>(
    alloc: Global,
    store: &mut S,
    name: &DbName,
    request: &Request,
) -> Result<JsonText, EarlyEnd>
    ensures reads { IsDatabaseRead S.Store store.old store.new name.now (local_read (message_of request.now)) result }
{
    let id = local_id(alloc, &request.path)?;
    without_parameters(request)?;
    Ok(local(alloc, store, name, &id)?)
}

/// Writes a local document, but for the change of the store itself.
pub(crate) fn write_local<S: Store>(
    alloc: Global,
    store: &mut S,
    caller: &Caller,
    name: &DbName,
    request: &Request,
) -> Result<WriteDraft, EarlyEnd>
    ensures works { WorksIn S.Store store.old store.new name.now (local_written caller.now (message_of request.now)) result }
{
    let id = local_id(alloc, &request.path)?;
    without_parameters(request)?;
    let document = body(alloc, request)?;
    set_local(alloc, store, caller, name, &id, document)
}

/// Tells what becomes of a local document that is written.
fn set_local<S: Store>(
    alloc: Global,
    store: &mut S,
    caller: &Caller,
    name: &DbName,
    id: &DocId,
    document: Json,
) -> Result<WriteDraft, EarlyEnd>
    requires local { IsTrue (is_local_id id.now) }
    ensures works { WorksIn S.Store store.old store.new name.now
        (λ db. local_set caller.now id.now (local_outcome (local_at db id.now) id.now (view document))) result }
{
    let planned = match put_local(alloc, store, name, id, document) {
        Ok(planned) => planned,
        Err(WriteFault::Memory) => return Err(EarlyEnd::NoRoom),
        Err(WriteFault::Store(fault)) => return Err(EarlyEnd::from(fault)),
        Err(fault) => return Err(EarlyEnd::Refused(refusal_of_edit(caller, fault))),
    };
    let value = local_reply(alloc, &planned.changes)?;
    Ok(WriteDraft {
        status: 201,
        value,
        planned,
    })
}

/// Builds the reply to the write of a local document: its id and its new revision.
fn local_reply(alloc: Global, changes: &Changes) -> Got<JsonText>
    requires { IsLocal changes.now }
    ensures { IfOk result (λ value. IsLocalReply changes.now value) }
{
    match changes {
        Changes::Local(id, document) => build_local_reply(alloc, id, document),
        _ => unreachable!(),
    }
}

/// Builds what is said of a local document that was written.
fn build_local_reply(alloc: Global, id: &DocId, document: &LocalDocument) -> Got<JsonText>
    ensures { IfOk result (λ value. value ≡ object (local_members id.now document.now)) }
{
    let rev = document.revision(alloc)?;
    let id = String::from_str(alloc, id.as_str())?;
    let mut members = known_members(alloc, &Some(id))?;
    put_member(alloc, &mut members, "rev", Json::Text(rev))?;
    JsonText::of(alloc, &Json::Object(members))
}
