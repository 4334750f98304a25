//! The information on the database of a pass's source (CouchDB manual, api/database/common).

ghost use Rattle.std.specs.Prelude.{◌≡◌, IfOk, OnErr, Some, string_bytes, codes};
ghost use Rattle.couch_http.specs.Message.{message_of};
ghost use Rattle.couch_json.specs.View.{view};
ghost use Rattle.command_line.specs.Plan.{sync_of};
ghost use Rattle.repl.specs.Passes.{asked_of, first_pass, to_source};
ghost use Rattle.repl.specs.Shapes.{count_at};
ghost use Rattle.sync.specs.Configuring.{pass_configuration};
ghost use Rattle.sync.specs.Information.{IsSaid, first_segment, information_request, update_seq_in};
ghost use Rattle.sync.specs.Sides.{MayBreakOff};

use crate::answer::Answer;
use crate::configuring::configure;
use crate::side::Side;
use command_line::SyncPlan;
use couch_http::{Request, Response};
use couch_json::{Got, Json, JsonFault, NoMemory, read};
use repl::{Ask, Replication};
use std::alloc::Global;

/// Asks the source of a pass how far its database goes, its `update_seq`. There is none where the reply was
/// lost, or is of another status or shape.
pub fn ask_update_seq<S: Side>(alloc: Global, plan: &SyncPlan, source: &mut S) -> Got<Option<u64>>
    ensures said { S.is_honest source.new
        → IfOk result (λ sequence. IsSaid S.answers source.old (information_request (pass_configuration (sync_of plan.now))) sequence source.new) }
    ensures refused { S.is_honest source.new
        → OnErr result (MayBreakOff S.answers S.breaks_off source.old (information_request (pass_configuration (sync_of plan.now))) source.new) }
    ensures honest { S.is_honest source.new → S.is_honest source.old }
{
    let request = information_request(alloc, plan)?;
    match source.answer(alloc, &request, &[])? {
        Answer::Reply(reply) => update_seq_in(alloc, &reply),
        Answer::Lost | Answer::Unreadable => Ok(None),
    }
}

/// Makes the request for the information. The pass begins with another one of the same user to that database,
/// a GET too.
#[tactic(auto, using(crate::proofs::Segments::database_is_first))]
fn information_request(alloc: Global, plan: &SyncPlan) -> Got<Request>
    ensures { IfOk result (λ request. message_of request ≡ information_request (pass_configuration (sync_of plan.now))) }
{
    let mut request = first_request(alloc, plan)?;
    let database = first_segment(request.path.as_str());
    let path = format!(in alloc; "/{database}")?;
    request.path = path;
    Ok(request)
}

/// Makes the request with which the pass of a plan begins: it reads a checkpoint at the source.
fn first_request(alloc: Global, plan: &SyncPlan) -> Got<Request>
    ensures { IfOk result (λ request. to_source (message_of request) ≡ asked_of (first_pass (pass_configuration (sync_of plan.now)))) }
{
    let pass = Replication::new(alloc, configure(alloc, plan)?)?;
    match pass.ask()? {
        Ask::ToSource(request) => Ok(request),
        Ask::ToTarget(_) | Ask::Done(_) | Ask::Stopped(_, _) => unreachable!(),
    }
}

/// Returns what stands in a path between its first slash and the second.
fn first_segment(path: &str) -> &str
    ensures { result.now ≡ first_segment path.now }
{
    let rest = match path.split_once('/') {
        Some((_, rest)) => rest,
        None => "",
    };
    match rest.split_once('/') {
        Some((segment, _)) => segment,
        None => rest,
    }
}

/// Returns the sequence that a reply says, if it says one.
fn update_seq_in(alloc: Global, reply: &Response) -> Got<Option<u64>>
    ensures { IfOk result (λ sequence. sequence ≡ update_seq_in (Answer.Reply reply.now)) }
{
    if reply.status() != 200 {
        return Ok(None);
    }
    match read(alloc, reply.body()) {
        Ok(value) => Ok(update_seq_at(&value)),
        Err(JsonFault::Memory) => Err(NoMemory),
        Err(_) => Ok(None),
    }
}

fn update_seq_at(value: &Json) -> Option<u64>
    ensures { result ≡ count_at (codes "update_seq") (view value.now) }
{
    match u64::try_from(value.member("update_seq")?.whole()?.value()) {
        Ok(sequence) if sequence <= 9_223_372_036_854_775_807 => Some(sequence),
        _ => None,
    }
}
