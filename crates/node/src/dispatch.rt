//! The way of a request through a node, from its headers to its reply.

ghost use Rattle.std.specs.Prelude.{◌≡◌, ◌≢◌, ◌⊎◌, IfOk, IfErr, OnOk, Err, is_some, true};
ghost use Rattle.couch_http.specs.Message.{message_of};
ghost use Rattle.couch_http.specs.Reply.{fixed_reply, reply_of};
ghost use Rattle.couch_http.specs.declared.fixed.Fixed.TheVariants.{NoRoom};
ghost use Rattle.couch_json.specs.Canonical.{canonical};
ghost use Rattle.couch_json.specs.Lawful.{IsLawful};
ghost use Rattle.store.specs.Calls.{ChangesWhole, GoesOn};
ghost use Rattle.node.specs.Answer.{answer, judgement, task_outcome, with_change};
ghost use Rattle.api.specs.Asking.{method_named};
ghost use Rattle.node.specs.inner.Drafts.{MayChange, MayChangeBy, change_by, change_of, outcome_of, task_asked};
ghost use Rattle.api.specs.Refusals.{and_then, refusal_value, status_of};
ghost use Rattle.node.specs.Causes.{EndsBefore, HasCause, stop_of_change};
ghost use Rattle.node.specs.inner.Coming.{IsJudgedRequest, Serves};
ghost use Rattle.node.specs.Step.{IsDone, IsStep};

use crate::databases::{create_database, list_databases, remove_database};
use crate::draft::{Change, Draft};
use crate::early_end::EarlyEnd;
use crate::task::{Task, task_of};
use crate::welcome::tell_welcome;
use crate::work::do_work;
use api::{Page, Refusal, Routes, caller, method_of};
use auth::{Auth, Caller};
use couch_http::{Fixed, Request, Response};
use couch_json::{Got, JsonText, NoMemory};
use std::alloc::Global;
use store::{DbName, Store, StoreFault};
use write::{Planned, WriteFault, apply};

/// Replies to a request, whatever becomes of it. Where the store failed, puts down why.
pub(crate) fn handle<S: Store>(
    alloc: Global,
    store: &mut S,
    auth: &Auth,
    routes: &Routes,
    request: &Request,
    cause: &mut Option<StoreFault>,
) -> Response
    ensures step { S.is_honest store.new → IsStep auth.now (S.contents store.old) (message_of request.now)
        (HasCause S.Store store.old store.new) result (S.contents store.new) }
    ensures onward { GoesOn S.Store store.old store.new }
    ensures cause { (cause.new ≡ cause.old) ⊎ (result.status ≡ 500) }
    ensures told { S.is_honest store.new → result.status ≡ 500 → is_some cause.new ≡ true }
{
    match reply(alloc, store, auth, routes, request) {
        Ok(reply) => reply,
        Err(EarlyEnd::Refused(refusal)) => refusal_reply(alloc, &refusal, request.last),
        Err(EarlyEnd::Failed(fault)) => {
            *cause = Some(fault);
            Response::fixed(Fixed::Store { last: request.last })
        }
        Err(EarlyEnd::NoRoom) => Response::fixed(Fixed::NoRoom { last: request.last }),
    }
}

/// Tells what a request comes to, but for the change of the store itself.
fn judge<S: Store>(
    alloc: Global,
    store: &mut S,
    auth: &Auth,
    routes: &Routes,
    request: &Request,
) -> Result<Draft, EarlyEnd>
    ensures judges { IsJudgedRequest S.Store store.old store.new (judgement auth.now (S.contents store.old) (message_of request.now)) result }
{
    let caller = caller(alloc, auth, request)?;
    let Some(page) = routes.page(&request.path) else {
        return Err(EarlyEnd::Refused(Refusal::Path));
    };
    serve(alloc, store, page, &caller, request)
}

/// Tells what a page has for the method of a request.
fn serve<S: Store>(
    alloc: Global,
    store: &mut S,
    page: Page,
    caller: &Caller,
    request: &Request,
) -> Result<Draft, EarlyEnd>
    ensures serves { Serves S.Store store.old store.new page (method_named request.now.method) caller.now (message_of request.now) result }
{
    match task_of(page, method_of(request.method.as_str())) {
        Some(task) => do_task(alloc, store, task, caller, request),
        None => Err(EarlyEnd::Refused(Refusal::Method)),
    }
}

/// Does a task, but for the change of the store itself.
fn do_task<S: Store>(
    alloc: Global,
    store: &mut S,
    task: Task,
    caller: &Caller,
    request: &Request,
) -> Result<Draft, EarlyEnd>
    ensures judges { IsJudgedRequest S.Store store.old store.new
        (and_then (task_asked task caller.now (message_of request.now)) (task_outcome caller.now (S.contents store.old))) result }
{
    match task {
        Task::Welcome => {
            let value = tell_welcome(alloc, request)?;
            Ok(Draft {
                status: 200,
                value,
                change: None,
            })
        }
        Task::ListDatabases => list_databases(alloc, store, caller, request),
        Task::CreateDatabase => create_database(alloc, store, caller, request),
        Task::RemoveDatabase => remove_database(alloc, store, caller, request),
        Task::Work(action, work) => do_work(alloc, store, caller, action, work, request),
    }
}

/// Makes the reply to what a request comes to, and the change: the reply is made whole before the
/// store changes.
fn finish<S: Store>(
    alloc: Global,
    store: &mut S,
    answered: Draft,
    last: bool,
) -> Result<Response, EarlyEnd>
    requires { S.is_honest store.old → MayChange (S.contents store.old) answered.change }
    ensures ok { S.is_honest store.new
        → IfOk result (λ reply. IsDone (outcome_of (S.contents store.old) answered) last (S.contents store.old) reply (S.contents store.new)) }
    ensures unrefused { (refusal : _) → result ≢ Err (EarlyEnd.Refused refusal) }
    ensures ends { IfErr result (EndsBefore S.Store store.old store.new (change_of (S.contents store.old) answered.change)) }
    ensures changes { ChangesWhole S.Store store.old store.new result }
{
    let reply = build_response(alloc, answered.status, answered.value, last)?;
    change(store, answered.change)?;
    Ok(reply)
}

/// Builds the reply of a status and a value, whose text it takes over.
fn build_response(alloc: Global, status: u16, value: JsonText, last: bool) -> Got<Response>
    ensures reply { IfOk result (λ reply. reply ≡ reply_of status (canonical value) last) }
    ensures lawful { IsLawful value }
{
    Response::of_text(alloc, status, value.into_string(), last)
}

/// Makes the change, if there is one: the only step of a request that changes the store.
fn change<S: Store>(store: &mut S, change: Option<Change>) -> Result<(), EarlyEnd>
    requires { S.is_honest store.old → MayChange (S.contents store.old) change }
    ensures ok { S.is_honest store.new → OnOk result (S.contents store.new ≡ with_change (change_of (S.contents store.old) change) (S.contents store.old)) }
    ensures unrefused { (refusal : _) → result ≢ Err (EarlyEnd.Refused refusal) }
    ensures ends { IfErr result (EndsBefore S.Store store.old store.new (change_of (S.contents store.old) change)) }
    ensures changes { ChangesWhole S.Store store.old store.new result }
{
    match change {
        None => Ok(()),
        Some(Change::Create(name)) => create(store, &name),
        Some(Change::Remove(name)) => remove(store, &name),
        Some(Change::Write(planned)) => write(store, planned),
    }
}

/// Makes a new database.
fn create<S: Store>(store: &mut S, name: &DbName) -> Result<(), EarlyEnd>
    requires { S.is_honest store.old → MayChangeBy (S.contents store.old) (Change.Create name.now) }
    ensures ok { S.is_honest store.new
        → OnOk result (S.contents store.new ≡ with_change (change_by (S.contents store.old) (Change.Create name.now)) (S.contents store.old)) }
    ensures unrefused { (refusal : _) → result ≢ Err (EarlyEnd.Refused refusal) }
    ensures ends { IfErr result (EndsBefore S.Store store.old store.new (change_by (S.contents store.old) (Change.Create name.now))) }
    ensures changes { ChangesWhole S.Store store.old store.new result }
{
    match store.create(name) {
        Ok(()) => Ok(()),
        Err(StoreFault::Memory) => Err(EarlyEnd::NoRoom),
        Err(fault) => Err(EarlyEnd::Failed(fault)),
    }
}

/// Removes a database with all that it holds.
fn remove<S: Store>(store: &mut S, name: &DbName) -> Result<(), EarlyEnd>
    requires { S.is_honest store.old → MayChangeBy (S.contents store.old) (Change.Remove name.now) }
    ensures ok { S.is_honest store.new
        → OnOk result (S.contents store.new ≡ with_change (change_by (S.contents store.old) (Change.Remove name.now)) (S.contents store.old)) }
    ensures unrefused { (refusal : _) → result ≢ Err (EarlyEnd.Refused refusal) }
    ensures ends { IfErr result (EndsBefore S.Store store.old store.new (change_by (S.contents store.old) (Change.Remove name.now))) }
    ensures changes { ChangesWhole S.Store store.old store.new result }
{
    match store.remove(name) {
        Ok(()) => Ok(()),
        Err(StoreFault::Memory) => Err(EarlyEnd::NoRoom),
        Err(fault) => Err(EarlyEnd::Failed(fault)),
    }
}

/// Makes what was planned.
#[tactic(auto, using(crate::proofs::Faults::unrefused_change))]
fn write<S: Store>(store: &mut S, planned: Planned) -> Result<(), EarlyEnd>
    requires { S.is_honest store.old → MayChangeBy (S.contents store.old) (Change.Write planned) }
    ensures ok { S.is_honest store.new
        → OnOk result (S.contents store.new ≡ with_change (change_by (S.contents store.old) (Change.Write planned)) (S.contents store.old)) }
    ensures unrefused { (refusal : _) → result ≢ Err (EarlyEnd.Refused refusal) }
    ensures ends { IfErr result (EndsBefore S.Store store.old store.new (change_by (S.contents store.old) (Change.Write planned))) }
    ensures changes { ChangesWhole S.Store store.old store.new result }
{
    match apply(store, planned) {
        Ok(()) => Ok(()),
        Err(fault) => Err(stop_after(&fault)),
    }
}

/// Tells how a request ends whose change was not made.
fn stop_after(fault: &WriteFault) -> EarlyEnd
    ensures { result ≡ stop_of_change fault.now }
{
    match fault {
        WriteFault::Memory => EarlyEnd::NoRoom,
        WriteFault::Store(fault) => EarlyEnd::Failed(*fault),
        _ => EarlyEnd::Failed(StoreFault::Failed),
    }
}

/// Answers a request, where nothing refuses it and nothing fails.
fn reply<S: Store>(
    alloc: Global,
    store: &mut S,
    auth: &Auth,
    routes: &Routes,
    request: &Request,
) -> Result<Response, EarlyEnd>
    ensures ok { S.is_honest store.new → IfOk result (λ reply. IsDone (answer auth.now (S.contents store.old) (message_of request.now))
        request.now.last (S.contents store.old) reply (S.contents store.new)) }
    ensures refused { S.is_honest store.new → (refusal : _) → result ≡ Err (EarlyEnd.Refused refusal)
        → judgement auth.now (S.contents store.old) (message_of request.now) ≡ Err refusal }
    ensures ends { IfErr result (EndsBefore S.Store store.old store.new (answer auth.now (S.contents store.old) (message_of request.now)).change) }
    ensures changes { ChangesWhole S.Store store.old store.new result }
{
    let answered = judge(alloc, store, auth, routes, request)?;
    finish(alloc, store, answered, request.last)
}

/// Answers a refused request, or where memory runs out the fixed one.
fn refusal_reply(alloc: Global, refusal: &Refusal, last: bool) -> Response
    ensures { ((result ≡ reply_of (status_of refusal.now) (canonical (refusal_value refusal.now)) last) × IsLawful (refusal_value refusal.now))
        ⊎ (result ≡ fixed_reply (NoRoom last)) }
{
    match refusal_made(alloc, refusal, last) {
        Ok(reply) => reply,
        Err(NoMemory) => Response::fixed(Fixed::NoRoom { last }),
    }
}

fn refusal_made(alloc: Global, refusal: &Refusal, last: bool) -> Got<Response>
    ensures reply { IfOk result (λ reply. reply ≡ reply_of (status_of refusal.now) (canonical (refusal_value refusal.now)) last) }
    ensures lawful { OnOk result (IsLawful (refusal_value refusal.now)) }
{
    let value = JsonText::of(alloc, &refusal.value(alloc)?)?;
    build_response(alloc, refusal.status(), value, last)
}
