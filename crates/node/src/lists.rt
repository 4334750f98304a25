//! The pages that list a database's documents, and tell which revisions it doesn't know (CouchDB manual,
//! api/database/bulk-api, api/database/changes and api/database/misc).

ghost use Rattle.couch_http.specs.Message.{message_of};
ghost use Rattle.node.specs.inner.Coming.{IsDatabaseRead};
ghost use Rattle.node.specs.Works.{change_list, difference_list, document_list};

use crate::early_end::EarlyEnd;
use api::{Refusal, body, changes_query, differences_in, listing_query, without_parameters};
use couch_http::Request;
use couch_json::JsonText;
use read::{all_docs, changes, revs_diff};
use std::alloc::Global;
use store::{DbName, Store};

/// Lists the documents of a database by id.
pub(crate) fn list_documents<S: Store>(
    alloc: Global,
    store: &mut S,
    name: &DbName,
    request: &Request,
) -> Result<JsonText, EarlyEnd>
    ensures reads { IsDatabaseRead S.Store store.old store.new name.now (document_list (message_of request.now)) result }
{
    let range = listing_query(alloc, request)?;
    Ok(all_docs(alloc, store, name, range)?)
}

/// Lists the documents of a database that changed after a sequence.
pub(crate) fn list_changes<S: Store>(
    alloc: Global,
    store: &mut S,
    name: &DbName,
    request: &Request,
) -> Result<JsonText, EarlyEnd>
    ensures reads { IsDatabaseRead S.Store store.old store.new name.now (change_list (message_of request.now)) result }
{
    let range = changes_query(alloc, request)?;
    Ok(changes(alloc, store, name, &range)?)
}

/// Tells which of the revisions that a request asks about a database doesn't know.
pub(crate) fn tell_differences<S: Store>(
    alloc: Global,
    store: &mut S,
    name: &DbName,
    request: &Request,
) -> Result<JsonText, EarlyEnd>
    ensures reads { IsDatabaseRead S.Store store.old store.new name.now (difference_list (message_of request.now)) result }
{
    without_parameters(request)?;
    let value = body(alloc, request)?;
    let Some(asked) = differences_in(alloc, &value)? else {
        return Err(EarlyEnd::Refused(Refusal::Body));
    };
    Ok(revs_diff(alloc, store, name, &asked)?)
}
