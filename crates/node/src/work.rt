//! Work in one database: it is entered once, and what is asked of it depends on it alone.

ghost use Rattle.std.specs.Prelude.{◌≡◌, IfOk, IfErr, Ok, Some};
ghost use Rattle.std.specs.FinMap as map;
ghost use Rattle.couch_http.specs.Message.{message_of};
ghost use Rattle.store.specs.Calls.{OnlyReads};
ghost use Rattle.node.specs.Answer.{entry, outcome_in_database, task_outcome, work_task};
ghost use Rattle.node.specs.inner.Drafts.{MayChange, outcome_of, reading_of, work_of, writing_of};
ghost use Rattle.node.specs.Causes.{Ends};
ghost use Rattle.node.specs.inner.Coming.{MatchesDefinition, IsJudgedRequest, ForExisting, IsDatabaseRead, WorksIn};
ghost use Rattle.api.specs.Refusals.{and_then};

use crate::bulk::write_documents;
use crate::databases::read_database;
use crate::document::{delete_document, show_document, write_document};
use crate::draft::{Change, Draft, WriteDraft};
use crate::early_end::EarlyEnd;
use crate::finds::{find_documents, list_view};
use crate::indexes::write_index;
use crate::lists::{list_changes, list_documents, tell_differences};
use crate::local_document::{read_local, write_local};
use crate::security::{read_security, write_security};
use api::{database_name, deny};
use auth::Caller;
use couch_http::Request;
use couch_json::JsonText;
use policy::{Action, refusal};
use std::alloc::Global;
use store::{DbName, Store};

/// What is asked of a database.
#[derive(Clone, Copy, Debug)]
pub(crate) enum Work {
    /// Something that only reads.
    Read(Reading),
    /// Something that changes it.
    Write(Writing),
}

/// What is read of a database.
#[derive(Clone, Copy, Debug)]
pub(crate) enum Reading {
    /// What it says of itself.
    Database,
    /// Its security object.
    Security,
    /// A document.
    Document,
    /// Its documents, by id.
    Documents,
    /// Its documents, by the sequence of their latest write.
    Changes,
    /// Which revisions it doesn't know.
    Differences,
    /// A local document.
    LocalDocument,
    /// Its documents that match a selector.
    Finds,
    /// The rows of an index.
    View,
}

/// What is written to a database.
#[derive(Clone, Copy, Debug)]
pub(crate) enum Writing {
    /// Its security object.
    Security,
    /// Several documents.
    Documents,
    /// A document.
    Document,
    /// A document's deletion.
    Deletion,
    /// An index, which its design document declares.
    Index,
    /// A local document, which who may read may write.
    LocalDocument,
}

/// Does work in the database that the path leads into, where there is one and its policy lets the
/// caller do this action; but for the change of the store itself.
pub(crate) fn do_work<S: Store>(
    alloc: Global,
    store: &mut S,
    caller: &Caller,
    action: Action,
    work: Work,
    request: &Request,
) -> Result<Draft, EarlyEnd>
    ensures judges { IsJudgedRequest S.Store store.old store.new
        (and_then (work_task action (message_of request.now) (work_of work caller.now (message_of request.now)))
        (task_outcome caller.now (S.contents store.old))) result }
{
    let name = database_name(alloc, &request.path)?;
    match enter(store, action, caller, &name) {
        Ok(()) => perform(alloc, store, caller, &name, work, request),
        Err(stop) => Err(stop),
    }
}

/// Asks the policy of a database.
fn enter<S: Store>(
    store: &mut S,
    action: Action,
    caller: &Caller,
    name: &DbName,
) -> Result<(), EarlyEnd>
    ensures comes { S.is_honest store.new → MatchesDefinition (λ _. map.get (S.contents store.old) name.now) result
        (and_then (entry caller.now action (map.get (S.contents store.old) name.now)) (λ db. Ok (Some db))) }
    ensures ends { IfErr result (Ends S.Store store.old store.new) }
    ensures reads { OnlyReads S.Store store.old store.new }
{
    let security = store.security(name)?;
    match refusal(action, caller, &security) {
        Some(rule) => Err(EarlyEnd::Refused(deny(caller, rule))),
        None => Ok(()),
    }
}

/// Does work in a database that is there.
fn perform<S: Store>(
    alloc: Global,
    store: &mut S,
    caller: &Caller,
    name: &DbName,
    work: Work,
    request: &Request,
) -> Result<Draft, EarlyEnd>
    ensures comes { S.is_honest store.new → ForExisting (S.contents store.old) name.now (λ db. MatchesDefinition (outcome_of (S.contents store.old)) result
        (and_then (work_of work caller.now (message_of request.now) name.now db) (λ d. Ok (outcome_in_database name.now d)))) }
    ensures may { S.is_honest store.new
        → ForExisting (S.contents store.old) name.now (λ db. IfOk result (λ answered. MayChange (S.contents store.old) answered.change)) }
    ensures ends { IfErr result (Ends S.Store store.old store.new) }
    ensures reads { OnlyReads S.Store store.old store.new }
{
    match work {
        Work::Read(reading) => {
            let value = read(alloc, store, name, reading, request)?;
            Ok(Draft {
                status: 200,
                value,
                change: None,
            })
        }
        Work::Write(writing) => match write(alloc, store, caller, name, writing, request) {
            Ok(worked) => Ok(Draft {
                status: worked.status,
                value: worked.value,
                change: Some(Change::Write(worked.planned)),
            }),
            Err(stop) => Err(stop),
        },
    }
}

/// Reads something of a database.
fn read<S: Store>(
    alloc: Global,
    store: &mut S,
    name: &DbName,
    reading: Reading,
    request: &Request,
) -> Result<JsonText, EarlyEnd>
    ensures reads { IsDatabaseRead S.Store store.old store.new name.now (reading_of reading (message_of request.now) name.now) result }
{
    match reading {
        Reading::Database => read_database(alloc, store, name, request),
        Reading::Security => read_security(alloc, store, name, request),
        Reading::Document => show_document(alloc, store, name, request),
        Reading::Documents => list_documents(alloc, store, name, request),
        Reading::Changes => list_changes(alloc, store, name, request),
        Reading::Differences => tell_differences(alloc, store, name, request),
        Reading::LocalDocument => read_local(alloc, store, name, request),
        Reading::Finds => find_documents(alloc, store, name, request),
        Reading::View => list_view(alloc, store, name, request),
    }
}

/// Writes something to a database, but for the change of the store itself.
fn write<S: Store>(
    alloc: Global,
    store: &mut S,
    caller: &Caller,
    name: &DbName,
    writing: Writing,
    request: &Request,
) -> Result<WriteDraft, EarlyEnd>
    ensures works { WorksIn S.Store store.old store.new name.now (writing_of writing caller.now (message_of request.now) name.now) result }
{
    match writing {
        Writing::Security => write_security(alloc, store, name, request),
        Writing::Documents => write_documents(alloc, store, caller, name, request),
        Writing::Document => write_document(alloc, store, caller, name, request),
        Writing::Deletion => delete_document(alloc, store, caller, name, request),
        Writing::Index => write_index(alloc, store, caller, name, request),
        Writing::LocalDocument => write_local(alloc, store, caller, name, request),
    }
}
