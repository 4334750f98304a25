//! The page on which an index is declared (CouchDB manual, api/database/find).

ghost use Rattle.std.specs.Prelude.{◌≡◌, IfErr, IfOk, true};
ghost use Rattle.couch_http.specs.Message.{message_of};
ghost use Rattle.couch_json.specs.View.{view};
ghost use Rattle.find.specs.IndexRead.{index_asked};
ghost use Rattle.find.specs.Indexes.{index_in};
ghost use Rattle.tree.specs.DocumentId.{is_design_id};
ghost use Rattle.write.specs.BulkResults.{IsUnrefused, OfFirst};
ghost use Rattle.api.specs.Refusals.{there_or};
ghost use Rattle.node.specs.inner.Drafts.{says_made};
ghost use Rattle.node.specs.Causes.{IsOfNoStore};
ghost use Rattle.node.specs.inner.Coming.{MatchesDefinition, WorksIn};
ghost use Rattle.node.specs.Works.{index_asked_in, index_reply, index_written};

use crate::bulk_reply::refusal_of_edit;
use crate::draft::WriteDraft;
use crate::early_end::EarlyEnd;
use api::{Refusal, body, put_text, without_parameters};
use auth::Caller;
use couch_http::Request;
use couch_json::{Got, Json, JsonText, NameMap};
use find::{Index, QueryFault};
use std::alloc::Global;
use store::{DbName, Store};
use write::{DocumentResult, Outcome, WriteFault, put_index};

/// Declares an index, but for the change of the store itself.
pub(crate) fn write_index<S: Store>(
    alloc: Global,
    store: &mut S,
    caller: &Caller,
    name: &DbName,
    request: &Request,
) -> Result<WriteDraft, EarlyEnd>
    ensures works { WorksIn S.Store store.old store.new name.now (index_written caller.now (message_of request.now) name.now) result }
{
    without_parameters(request)?;
    let value = body(alloc, request)?;
    let index = read_index(alloc, &value)?;
    declare_index(alloc, store, caller, name, &index)
}

/// Reads the index that a body asks to declare.
fn read_index(alloc: Global, value: &Json) -> Result<Index, EarlyEnd>
    ensures comes { MatchesDefinition index_asked result (there_or Refusal.Body (index_in (view value.now))) }
    ensures design { IfOk result (λ index. is_design_id index.design ≡ true) }
    ensures ends { IfErr result IsOfNoStore }
{
    match Index::read(alloc, value) {
        Ok(index) => Ok(index),
        Err(QueryFault::Shape) => Err(EarlyEnd::Refused(Refusal::Body)),
        Err(QueryFault::Memory) => Err(EarlyEnd::NoRoom),
    }
}

/// Tells what the declaration of an index comes to.
fn declare_index<S: Store>(
    alloc: Global,
    store: &mut S,
    caller: &Caller,
    name: &DbName,
    index: &Index,
) -> Result<WriteDraft, EarlyEnd>
    requires { is_design_id index.now.design ≡ true }
    ensures works { WorksIn S.Store store.old store.new name.now (λ db. index_asked_in caller.now name.now db (index_asked index.now)) result }
{
    let planned = match put_index(
        alloc,
        store,
        name,
        caller,
        &index.design,
        &index.name,
        &index.fields,
    ) {
        Ok(planned) => planned,
        Err(WriteFault::Memory) => return Err(EarlyEnd::NoRoom),
        Err(WriteFault::Store(fault)) => return Err(EarlyEnd::from(fault)),
        Err(fault) => return Err(EarlyEnd::Refused(refusal_of_edit(caller, fault))),
    };
    let value = index_reply(alloc, index, says_made(&planned.results))?;
    Ok(WriteDraft {
        status: 200,
        value,
        planned,
    })
}

/// Tells whether the first of the results made a revision.
fn says_made(results: &[DocumentResult]) -> bool
    requires { OfFirst IsUnrefused results.now }
    ensures { OfFirst (λ outcome. result ≡ says_made outcome) results.now }
{
    let Some(first) = results.first() else {
        unreachable!()
    };
    matches!(first.outcome, Outcome::Made(_))
}

/// Builds the reply to the declaration of an index: the design document, the name, and whether it was
/// created.
fn index_reply(alloc: Global, index: &Index, created: bool) -> Got<JsonText>
    ensures { IfOk result (λ value. value ≡ index_reply (index_asked index.now).design (index_asked index.now).name created) }
{
    let result = if created { "created" } else { "exists" };
    let mut members = NameMap::new(alloc);
    put_text(alloc, &mut members, "id", index.design.as_str())?;
    put_text(alloc, &mut members, "name", &index.name)?;
    put_text(alloc, &mut members, "result", result)?;
    JsonText::of(alloc, &Json::Object(members))
}
