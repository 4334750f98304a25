//! The page on which several documents are written together (CouchDB manual, api/database/bulk-api).

ghost use Rattle.couch_http.specs.Message.{message_of};
ghost use Rattle.api.specs.BulkAsked.{bulk_asked};
ghost use Rattle.node.specs.inner.Coming.{WorksIn};
ghost use Rattle.node.specs.Works.{bulk_written, documents_written};

use crate::bulk_reply::bulk_reply;
use crate::draft::WriteDraft;
use crate::early_end::EarlyEnd;
use api::{BulkAsked, read_bulk, without_parameters};
use auth::Caller;
use couch_http::Request;
use std::alloc::Global;
use store::{DbName, Store};
use write::{Planned, WriteFault, bulk};

/// Writes several documents, but for the change of the store itself.
pub(crate) fn write_documents<S: Store>(
    alloc: Global,
    store: &mut S,
    caller: &Caller,
    name: &DbName,
    request: &Request,
) -> Result<WriteDraft, EarlyEnd>
    ensures works { WorksIn S.Store store.old store.new name.now (documents_written caller.now (message_of request.now) name.now) result }
{
    without_parameters(request)?;
    let asked = read_bulk(alloc, request)?;
    write_bulk(alloc, store, caller, name, asked)
}

/// Tells what the documents come to.
fn write_bulk<S: Store>(
    alloc: Global,
    store: &mut S,
    caller: &Caller,
    name: &DbName,
    asked: BulkAsked,
) -> Result<WriteDraft, EarlyEnd>
    ensures works { WorksIn S.Store store.old store.new name.now (bulk_written caller.now (bulk_asked asked) name.now) result }
{
    let planned = match bulk(alloc, store, name, caller, asked.documents, asked.new_edits) {
        Ok(planned) => planned,
        Err(WriteFault::Store(fault)) => return Err(EarlyEnd::from(fault)),
        Err(WriteFault::Memory) => return Err(EarlyEnd::NoRoom),
        Err(_) => unreachable!(),
    };
    let Planned {
        database,
        changes,
        results,
    } = planned;
    let value = bulk_reply(alloc, caller, asked.new_edits, results)?;
    Ok(WriteDraft {
        status: 201,
        value,
        planned: Planned {
            database,
            changes,
            results: Vec::new(alloc),
        },
    })
}
