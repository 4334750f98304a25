//! The pages of databases as such: `/_all_dbs` and `/{db}` (CouchDB manual, api/server/common and api/database/common).

ghost use Rattle.std.specs.Prelude.{◌≡◌, ◌≢◌, IfOk, IfErr, Ok, Err, Some, is_some, map as list_map};
ghost use Rattle.std.specs.FinMap as map;
ghost use Rattle.couch_http.specs.Message.{message_of};
ghost use Rattle.couch_json.specs.Value.{array, text};
ghost use Rattle.couch_json.specs.View.{items_of, view};
ghost use Rattle.store.specs.Calls.{OnlyReads};
ghost use Rattle.node.specs.Answer.{administration, database_name_of};
ghost use Rattle.node.specs.Causes.{Ends};
ghost use Rattle.node.specs.inner.Coming.{IsDatabaseRead, Serves};
ghost use Rattle.api.specs.RequestReading.{Says};
ghost use Rattle.api.specs.Refusals.{and_then};
ghost use Rattle.node.specs.Works.{database_read, done};

use crate::draft::{Change, Draft};
use crate::early_end::EarlyEnd;
use api::{Page, Refusal, RequestFault, RequestMethod, database_name, deny, without_parameters};
use auth::Caller;
use couch_http::Request;
use couch_json::{ArrayText, Got, Json, JsonText, NameMap, put_member};
use policy::{Action, Security, refusal};
use read::info;
use std::alloc::Global;
use store::{DbName, Store, StoreFault};

/// Reads what a database says of itself.
pub(crate) fn read_database<S: Store>(
    alloc: Global,
    store: &mut S,
    name: &DbName,
    request: &Request,
) -> Result<JsonText, EarlyEnd>
    ensures reads { IsDatabaseRead S.Store store.old store.new name.now (database_read (message_of request.now) name.now) result }
{
    without_parameters(request)?;
    Ok(info(alloc, store, name)?)
}

/// Lists the names of all databases.
pub(crate) fn list_databases<S: Store>(
    alloc: Global,
    store: &mut S,
    caller: &Caller,
    request: &Request,
) -> Result<Draft, EarlyEnd>
    ensures serves { Serves S.Store store.old store.new Page.AllDatabases (Some RequestMethod.Get) caller.now (message_of request.now) result }
{
    require_server_admin(alloc, caller)?;
    without_parameters(request)?;
    let names = store.names()?;
    let value = list_names(alloc, &names)?.end()?;
    Ok(Draft {
        status: 200,
        value,
        change: None,
    })
}

/// Creates a database, but for the change of the store itself.
pub(crate) fn create_database<S: Store>(
    alloc: Global,
    store: &mut S,
    caller: &Caller,
    request: &Request,
) -> Result<Draft, EarlyEnd>
    ensures serves { Serves S.Store store.old store.new Page.Database (Some RequestMethod.Put) caller.now (message_of request.now) result }
{
    let name = name_to_govern(alloc, caller, request)?;
    if is_there(store, &name)? {
        return Err(EarlyEnd::Refused(Refusal::Exists));
    }
    without_parameters(request)?;
    let value = done(alloc)?;
    Ok(Draft {
        status: 201,
        value,
        change: Some(Change::Create(name)),
    })
}

/// Removes a database, but for the change of the store itself.
pub(crate) fn remove_database<S: Store>(
    alloc: Global,
    store: &mut S,
    caller: &Caller,
    request: &Request,
) -> Result<Draft, EarlyEnd>
    ensures serves { Serves S.Store store.old store.new Page.Database (Some RequestMethod.Delete) caller.now (message_of request.now) result }
{
    let name = name_to_govern(alloc, caller, request)?;
    if !is_there(store, &name)? {
        return Err(EarlyEnd::Refused(Refusal::NoDatabase));
    }
    without_parameters(request)?;
    let value = done(alloc)?;
    Ok(Draft {
        status: 200,
        value,
        change: Some(Change::Remove(name)),
    })
}

/// Returns the name of a database that the caller may create or remove.
fn name_to_govern(alloc: Global, caller: &Caller, request: &Request) -> Result<DbName, RequestFault>
    ensures { Says (λ name. name) result (and_then (database_name_of (message_of request.now)) (λ name. and_then (administration caller.now) (λ _. Ok name))) }
{
    let name = database_name(alloc, &request.path)?;
    require_server_admin(alloc, caller)?;
    Ok(name)
}

/// Refuses a caller who may not list, create or remove databases.
fn require_server_admin(alloc: Global, caller: &Caller) -> Result<(), RequestFault>
    ensures { Says (λ nothing. nothing) result (administration caller.now) }
{
    let closed = Security::closed(alloc)?;
    match refusal(Action::Administer, caller, &closed) {
        Some(rule) => Err(RequestFault::Refused(deny(caller, rule))),
        None => Ok(()),
    }
}

/// Tells whether there is a database of this name.
fn is_there<S: Store>(store: &mut S, name: &DbName) -> Result<bool, EarlyEnd>
    ensures ok { S.is_honest store.new → IfOk result (λ there. is_some (map.get (S.contents store.old) name.now) ≡ there) }
    ensures unrefused { (refusal : _) → result ≢ Err (EarlyEnd.Refused refusal) }
    ensures ends { IfErr result (Ends S.Store store.old store.new) }
    ensures reads { OnlyReads S.Store store.old store.new }
{
    match store.security(name) {
        Ok(_security) => Ok(true),
        Err(StoreFault::NoDatabase) => Ok(false),
        Err(fault) => Err(EarlyEnd::from(fault)),
    }
}

/// Writes a list of names.
fn list_names(alloc: Global, names: &[DbName]) -> Got<ArrayText>
    ensures { IfOk result (λ values. values ≡ list_map text names.now) }
{
    let mut values = ArrayText::new(alloc)?;
    for name in names {
        let name = Json::Text(String::from_str(alloc, name.as_str())?);
        values.push(alloc, &name)?;
    }
    Ok(values)
}

/// Makes what a change replies that has nothing more to say.
pub(crate) fn done(alloc: Global) -> Got<JsonText>
    ensures { IfOk result (λ value. value ≡ done) }
{
    let mut members = NameMap::new(alloc);
    put_member(alloc, &mut members, "ok", Json::Truth(true))?;
    JsonText::of(alloc, &Json::Object(members))
}
