//! The pages of finds and of views (CouchDB manual, api/database/find and api/ddoc/views).

ghost use Rattle.std.specs.Prelude.{◌≡◌, IfErr, IfOk};
ghost use Rattle.couch_http.specs.Message.{message_of};
ghost use Rattle.couch_json.specs.View.{view};
ghost use Rattle.find.specs.Queries.{query_in};
ghost use Rattle.api.specs.Refusals.{there_or};
ghost use Rattle.node.specs.Causes.{IsOfNoStore};
ghost use Rattle.node.specs.inner.Coming.{MatchesDefinition, IsDatabaseRead};
ghost use Rattle.node.specs.Works.{document_finds, documents_reply, view_read};

use crate::early_end::EarlyEnd;
use api::{Refusal, body, document_id, index_name, view_query, without_parameters};
use couch_http::Request;
use couch_json::{ArrayText, Got, Json, JsonText, ObjectText};
use find::{Query, QueryFault, find};
use std::alloc::Global;
use store::{DbName, Store};

/// Finds the documents of a database that match a selector.
pub(crate) fn find_documents<S: Store>(
    alloc: Global,
    store: &mut S,
    name: &DbName,
    request: &Request,
) -> Result<JsonText, EarlyEnd>
    ensures reads { IsDatabaseRead S.Store store.old store.new name.now (document_finds (message_of request.now)) result }
{
    without_parameters(request)?;
    let value = body(alloc, request)?;
    let query = read_query(alloc, &value)?;
    let documents = find(alloc, store, name, &query)?;
    Ok(documents_reply(alloc, documents)?)
}

/// Reads what is looked for.
fn read_query(alloc: Global, value: &Json) -> Result<Query, EarlyEnd>
    ensures comes { MatchesDefinition (λ query. query) result (there_or Refusal.Body (query_in (view value.now))) }
    ensures ends { IfErr result IsOfNoStore }
{
    match Query::read(alloc, value) {
        Ok(query) => Ok(query),
        Err(QueryFault::Shape) => Err(EarlyEnd::Refused(Refusal::Body)),
        Err(QueryFault::Memory) => Err(EarlyEnd::NoRoom),
    }
}

/// Writes the reply to a find: the documents, and a bookmark that says nothing.
fn documents_reply(alloc: Global, documents: ArrayText) -> Got<JsonText>
    ensures { IfOk result (λ value. value ≡ documents_reply documents) }
{
    let bookmark = Json::Text(String::from_str(alloc, "nil")?);
    let bookmark = JsonText::of(alloc, &bookmark)?;
    let documents = documents.end()?;
    ObjectText::new(alloc)?
        .with(alloc, "bookmark", bookmark)?
        .with(alloc, "docs", documents)?
        .end()
}

/// Lists the rows of an index.
pub(crate) fn list_view<S: Store>(
    alloc: Global,
    store: &mut S,
    name: &DbName,
    request: &Request,
) -> Result<JsonText, EarlyEnd>
    ensures reads { IsDatabaseRead S.Store store.old store.new name.now (view_read (message_of request.now)) result }
{
    let design = document_id(alloc, &request.path)?;
    let index = index_name(alloc, &request.path)?;
    let range = view_query(alloc, request)?;
    Ok(read::view(alloc, store, name, &design, index.as_str(), range)?)
}
