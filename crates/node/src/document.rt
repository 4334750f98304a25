//! A document's page: `GET`, `PUT` and `DELETE /{db}/{id}` (CouchDB manual, api/document/common).

ghost use Rattle.std.specs.Prelude.{◌≡◌, IfOk, IfErr, Err, Some, false, option_map};
ghost use Rattle.std.specs.FinMap as map;
ghost use Rattle.couch_http.specs.Message.{message_of};
ghost use Rattle.couch_json.specs.View.{view};
ghost use Rattle.read.specs.Answers.{AnswersValue};
ghost use Rattle.store.specs.Calls.{OnlyReads};
ghost use Rattle.tree.specs.DocumentId.{is_local_id};
ghost use Rattle.write.specs.Admission.{unnamed_deletion};
ghost use Rattle.write.specs.BulkResults.{IsMadeOutcome, OfFirst};
ghost use Rattle.write.specs.Terms.{terms_in};
ghost use Rattle.node.specs.Bulk.{made_members};
ghost use Rattle.couch_json.specs.Value.{object};
ghost use Rattle.node.specs.inner.Drafts.{done_of};
ghost use Rattle.node.specs.Causes.{Ends};
ghost use Rattle.node.specs.inner.Coming.{MatchesDefinition, ForExisting, IsDatabaseRead, WorksIn};
ghost use Rattle.api.specs.RequestReading.{Says};
ghost use Rattle.api.specs.Queried.{choice_of, query_of};
ghost use Rattle.node.specs.Works.{deletion, document_deleted, document_read, document_written, edit_asked, edit_done, edit_in, refusal_of_read, read_by};

use crate::bulk_reply::{made_members, refusal_of_edit};
use crate::draft::WriteDraft;
use crate::early_end::EarlyEnd;
use api::{
    Asked, DocumentQuery, Refusal, RequestFault, body, document_id, document_query, revision_query,
};
use auth::Caller;
use couch_http::Request;
use couch_json::{Got, Json, JsonText, NameMap, put_member};
use read::{ReadFault, get, open_revs};
use std::alloc::Global;
use store::{DbName, Store};
use tree::{DocId, Rev};
use write::{DocumentResult, Outcome, WriteFault, edit, judge_unnamed_deletion};

/// Reads a document.
pub(crate) fn show_document<S: Store>(
    alloc: Global,
    store: &mut S,
    name: &DbName,
    request: &Request,
) -> Result<JsonText, EarlyEnd>
    ensures reads { IsDatabaseRead S.Store store.old store.new name.now (document_read (message_of request.now)) result }
{
    let id = document_id(alloc, &request.path)?;
    let query = document_query(alloc, request)?;
    find(alloc, store, name, &id, &query)
}

/// Tells what the reader of a document is shown.
fn find<S: Store>(
    alloc: Global,
    store: &mut S,
    name: &DbName,
    id: &DocId,
    query: &DocumentQuery,
) -> Result<JsonText, EarlyEnd>
    ensures reads { IsDatabaseRead S.Store store.old store.new name.now
        (λ db. refusal_of_read (read_by id.now (query_of query.now).revs (query_of query.now).asked db)) result }
{
    Ok(read_by(alloc, store, name, id, query)?)
}

/// Tells what reading a document gives, by what is asked.
fn read_by<S: Store>(
    alloc: Global,
    store: &mut S,
    name: &DbName,
    id: &DocId,
    query: &DocumentQuery,
) -> Result<JsonText, ReadFault>
    ensures answer { AnswersValue S.Store store.old store.new
        (option_map (read_by id.now (query_of query.now).revs (query_of query.now).asked) (map.get (S.contents store.old) name.now)) result }
    ensures reads { OnlyReads S.Store store.old store.new }
{
    match &query.asked {
        Asked::Winner => get(alloc, store, name, id, None, query.revs),
        Asked::Revision(rev) => get(alloc, store, name, id, Some(rev), query.revs),
        Asked::Leaves => open_revs(alloc, store, name, id, None, query.revs),
        Asked::Revisions(revs) => open_revs(
            alloc,
            store,
            name,
            id,
            Some(revs.as_slice()),
            query.revs,
        ),
    }
}

/// Writes a document, but for the change of the store itself.
pub(crate) fn write_document<S: Store>(
    alloc: Global,
    store: &mut S,
    caller: &Caller,
    name: &DbName,
    request: &Request,
) -> Result<WriteDraft, EarlyEnd>
    ensures works { WorksIn S.Store store.old store.new name.now (document_written caller.now (message_of request.now) name.now) result }
{
    let (id, rev) = edit_asked(alloc, request)?;
    let document = body(alloc, request)?;
    edit_document(alloc, store, caller, name, &id, rev, document, 201)
}

/// Deletes a document on one of its branches, but for the change of the store itself. A deletion that
/// names no branch is refused.
pub(crate) fn delete_document<S: Store>(
    alloc: Global,
    store: &mut S,
    caller: &Caller,
    name: &DbName,
    request: &Request,
) -> Result<WriteDraft, EarlyEnd>
    ensures works { WorksIn S.Store store.old store.new name.now (document_deleted caller.now (message_of request.now) name.now) result }
{
    let (id, rev) = edit_asked(alloc, request)?;
    let Some(rev) = rev else {
        return Err(refuse_deletion(store, caller, name, &id));
    };
    let document = deletion(alloc)?;
    edit_document(alloc, store, caller, name, &id, Some(rev), document, 200)
}

/// Returns the document that is edited, and the revision that the query names, if any.
fn edit_asked(alloc: Global, request: &Request) -> Result<(DocId, Option<Rev>), RequestFault>
    ensures says { Says (λ asked. asked) result (edit_asked (message_of request.now)) }
    ensures plain { IfOk result (λ asked. is_local_id asked.0 ≡ false) }
{
    let id = document_id(alloc, &request.path)?;
    let rev = revision_query(alloc, request)?;
    Ok((id, rev))
}

/// Tells what a deletion that names no revision comes to.
fn refuse_deletion<S: Store>(store: &mut S, caller: &Caller, name: &DbName, id: &DocId) -> EarlyEnd
    ensures comes { S.is_honest store.new → ForExisting (S.contents store.old) name.now (λ db. MatchesDefinition (done_of db) (Err result)
        (edit_done caller.now 200 id.now (unnamed_deletion (terms_in caller.now name.now db) id.now))) }
    ensures ends { Ends S.Store store.old store.new result }
    ensures reads { OnlyReads S.Store store.old store.new }
{
    match judge_unnamed_deletion(store, name, caller, id) {
        WriteFault::Memory => EarlyEnd::NoRoom,
        WriteFault::Store(fault) => EarlyEnd::from(fault),
        fault => EarlyEnd::Refused(refusal_of_edit(caller, fault)),
    }
}

/// Builds the document of an edit that deletes.
fn deletion(alloc: Global) -> Got<Json>
    ensures { IfOk result (λ document. view document ≡ deletion) }
{
    let mut members = NameMap::new(alloc);
    put_member(alloc, &mut members, "_deleted", Json::Truth(true))?;
    Ok(Json::Object(members))
}

/// Tells what the edit of a document comes to.
fn edit_document<S: Store>(
    alloc: Global,
    store: &mut S,
    caller: &Caller,
    name: &DbName,
    id: &DocId,
    rev: Option<Rev>,
    document: Json,
    status: u16,
) -> Result<WriteDraft, EarlyEnd>
    requires local { is_local_id id.now ≡ false }
    ensures works { WorksIn S.Store store.old store.new name.now (λ db. edit_in caller.now status name.now db id.now rev (view document)) result }
{
    let planned = match edit(alloc, store, name, caller, id, rev, document) {
        Ok(planned) => planned,
        Err(WriteFault::Memory) => return Err(EarlyEnd::NoRoom),
        Err(WriteFault::Store(fault)) => return Err(EarlyEnd::from(fault)),
        Err(fault) => return Err(EarlyEnd::Refused(refusal_of_edit(caller, fault))),
    };
    let rev = made_revision(&planned.results);
    let value = edit_reply(alloc, id, &rev)?;
    Ok(WriteDraft {
        status,
        value,
        planned,
    })
}

/// Returns the revision that the first of the results makes.
fn made_revision(results: &[DocumentResult]) -> Rev
    requires { OfFirst IsMadeOutcome results.now }
    ensures { OfFirst (λ outcome. outcome ≡ Outcome.Made result) results.now }
{
    let Some(first) = results.first() else {
        unreachable!()
    };
    match &first.outcome {
        Outcome::Made(rev) => *rev,
        _ => unreachable!(),
    }
}

/// Builds the reply to an edit: the id and the new revision.
fn edit_reply(alloc: Global, id: &DocId, rev: &Rev) -> Got<JsonText>
    ensures { IfOk result (λ value. value ≡ object (made_members (Some id.now) rev.now)) }
{
    let id = String::from_str(alloc, id.as_str())?;
    let value = Json::Object(made_members(alloc, &Some(id), rev)?);
    JsonText::of(alloc, &value)
}
