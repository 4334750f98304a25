//! What the reply to several documents that are written together says of them.

ghost use Rattle.std.specs.Prelude.{◌≡◌, IfOk, OnOk, option_map, string_bytes, map};
ghost use Rattle.couch_json.specs.Value.{put};
ghost use Rattle.couch_json.specs.View.{members_view, view};
ghost use Rattle.write.specs.BulkResults.{told_of};
ghost use Rattle.node.specs.Edits.{refusal_of_edit};
ghost use Rattle.node.specs.Bulk.{bulk_reply, edit_listed, failed_members, failure_listed, failures_listed, known_members, made_members, text_or_null};

use api::{Refusal, deny, put_text};
use auth::Caller;
use couch_json::{ArrayText, Got, Json, JsonText, NameMap, put_member};
use std::alloc::Global;
use tree::Rev;
use write::{DocumentResult, Outcome, WriteFault};

/// Makes the reply: of new edits an element for each, of replicated documents one for each that was
/// refused.
pub(crate) fn bulk_reply(
    alloc: Global,
    caller: &Caller,
    new_edits: bool,
    results: Vec<DocumentResult>,
) -> Got<JsonText>
    ensures { IfOk result (λ value. value ≡ bulk_reply caller.now new_edits (map told_of results.items)) }
{
    if new_edits {
        return edits_listed(alloc, caller, results)?.end();
    }
    failures_listed(alloc, caller, results)?.end()
}

/// Writes an element for each edit, in order.
fn edits_listed(alloc: Global, caller: &Caller, results: Vec<DocumentResult>) -> Got<ArrayText>
    ensures { IfOk result (λ values. values ≡ map (edit_listed caller.now) (map told_of results.items)) }
{
    let mut values = ArrayText::new(alloc)?;
    for told in results {
        values.push(alloc, &edit_listed(alloc, caller, told)?)?;
    }
    Ok(values)
}

/// Writes an element for each document that was refused, in order.
fn failures_listed(alloc: Global, caller: &Caller, results: Vec<DocumentResult>) -> Got<ArrayText>
    ensures { IfOk result (λ values. values ≡ failures_listed caller.now (map told_of results.items)) }
{
    let mut values = ArrayText::new(alloc)?;
    for told in results {
        let DocumentResult { id, rev, outcome } = told;
        if let Outcome::Refused(fault) = outcome {
            values.push(alloc, &failure_listed(alloc, caller, &id, &rev, fault)?)?;
        }
    }
    Ok(values)
}

/// Tells what is said of a new edit.
fn edit_listed(alloc: Global, caller: &Caller, told: DocumentResult) -> Got<Json>
    ensures { IfOk result (λ value. view value ≡ edit_listed caller.now (told_of told)) }
{
    let DocumentResult {
        id,
        rev: _,
        outcome,
    } = told;
    let members = match outcome {
        Outcome::Made(rev) => made_members(alloc, &id, &rev)?,
        Outcome::Known => known_members(alloc, &id)?,
        Outcome::Refused(fault) => failed_members(alloc, caller, &id, fault)?,
    };
    Ok(Json::Object(members))
}

/// Tells what is said of a replicated document that was refused.
fn failure_listed(
    alloc: Global,
    caller: &Caller,
    id: &Option<String>,
    rev: &Option<String>,
    fault: WriteFault,
) -> Got<Json>
    ensures { IfOk result (λ value. view value ≡ failure_listed caller.now (option_map string_bytes id.now) (option_map string_bytes rev.now) fault) }
{
    let mut members = failed_members(alloc, caller, id, fault)?;
    put_text_or_null(alloc, &mut members, "rev", rev)?;
    Ok(Json::Object(members))
}

/// Says of an edit that was made its id and the new revision.
pub(crate) fn made_members(alloc: Global, id: &Option<String>, rev: &Rev) -> Got<NameMap<Json>>
    ensures { IfOk result (λ members. members_view members.entries ≡ made_members (option_map string_bytes id.now) rev.now) }
{
    let mut members = known_members(alloc, id)?;
    put_member(alloc, &mut members, "rev", Json::Text(rev.text(alloc)?))?;
    Ok(members)
}

/// Says of a document that is there its id.
pub(crate) fn known_members(alloc: Global, id: &Option<String>) -> Got<NameMap<Json>>
    ensures { IfOk result (λ members. members_view members.entries ≡ known_members (option_map string_bytes id.now)) }
{
    let mut members = NameMap::new(alloc);
    put_text_or_null(alloc, &mut members, "id", id)?;
    put_member(alloc, &mut members, "ok", Json::Truth(true))?;
    Ok(members)
}

/// Says of a document that was refused its id, and why.
fn failed_members(
    alloc: Global,
    caller: &Caller,
    id: &Option<String>,
    fault: WriteFault,
) -> Got<NameMap<Json>>
    ensures { IfOk result (λ members. members_view members.entries ≡ failed_members caller.now (option_map string_bytes id.now) fault) }
{
    let mut members = refusal_of_edit(caller, fault).members(alloc)?;
    put_text_or_null(alloc, &mut members, "id", id)?;
    Ok(members)
}

/// Tells what a document that is not written is refused for.
pub fn refusal_of_edit(caller: &Caller, fault: WriteFault) -> Refusal
    ensures { result ≡ refusal_of_edit caller.now fault }
{
    match fault {
        WriteFault::BadDocument => Refusal::BadDocument,
        WriteFault::Denied(rule) => deny(caller, rule),
        WriteFault::BadHistory => Refusal::BadHistory,
        WriteFault::Generation => Refusal::Generation,
        WriteFault::Conflict | WriteFault::Store(_) | WriteFault::Memory => Refusal::Conflict,
    }
}

/// Puts a text at a name into the members of an object, or null.
fn put_text_or_null(
    alloc: Global,
    members: &mut NameMap<Json>,
    name: &str,
    text: &Option<String>,
) -> Got<()>
    ensures { OnOk result (members_view members.new.entries
        ≡ put name.now (text_or_null (option_map string_bytes text.now)) (members_view members.old.entries)) }
{
    match text {
        Some(text) => put_text(alloc, members, name, text),
        None => put_member(alloc, members, name, Json::Null),
    }
}
