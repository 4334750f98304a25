//! The page of a database's security object (CouchDB manual, api/database/security).

ghost use Rattle.couch_http.specs.Message.{message_of};
ghost use Rattle.couch_json.specs.View.{view};
ghost use Rattle.write.specs.Planning.{security_outcome};
ghost use Rattle.node.specs.inner.Coming.{IsDatabaseRead, WorksIn};
ghost use Rattle.node.specs.Works.{security_read, security_set, security_written};

use crate::databases::done;
use crate::draft::WriteDraft;
use crate::early_end::EarlyEnd;
use api::{Refusal, body, without_parameters};
use couch_http::Request;
use couch_json::{Json, JsonText};
use std::alloc::Global;
use store::{DbName, Store};
use write::{WriteFault, put_security};

/// Reads the security object of a database.
pub(crate) fn read_security<S: Store>(
    alloc: Global,
    store: &mut S,
    name: &DbName,
    request: &Request,
) -> Result<JsonText, EarlyEnd>
    ensures reads { IsDatabaseRead S.Store store.old store.new name.now (security_read (message_of request.now)) result }
{
    without_parameters(request)?;
    let security = store.security(name)?;
    Ok(JsonText::of(alloc, security.value())?)
}

/// Writes the security object of a database, but for the change of the store itself.
pub(crate) fn write_security<S: Store>(
    alloc: Global,
    store: &mut S,
    name: &DbName,
    request: &Request,
) -> Result<WriteDraft, EarlyEnd>
    ensures works { WorksIn S.Store store.old store.new name.now (security_written (message_of request.now)) result }
{
    without_parameters(request)?;
    let value = body(alloc, request)?;
    set_security(alloc, store, name, &value)
}

/// Tells what becomes of a value that is to be the security object of a database.
fn set_security<S: Store>(
    alloc: Global,
    store: &mut S,
    name: &DbName,
    value: &Json,
) -> Result<WriteDraft, EarlyEnd>
    ensures works { WorksIn S.Store store.old store.new name.now (λ db. security_set (security_outcome (view value.now))) result }
{
    let planned = match put_security(alloc, store, name, value) {
        Ok(planned) => planned,
        Err(WriteFault::Memory) => return Err(EarlyEnd::NoRoom),
        Err(WriteFault::Store(fault)) => return Err(EarlyEnd::from(fault)),
        Err(WriteFault::BadDocument) => return Err(EarlyEnd::Refused(Refusal::Body)),
        Err(_) => unreachable!(),
    };
    let reply = done(alloc)?;
    Ok(WriteDraft {
        status: 200,
        value: reply,
        planned,
    })
}
