//! What the replies to a comparison and to opened revisions say.

ghost use Rattle.std.specs.Prelude.{◌≡◌, [], IfOk, map, option_and_then, option_copied, option_map, string_bytes, codes, unwrap_or};
ghost use Rattle.couch_json.specs.View.{members_view, view};
ghost use Rattle.repl.specs.Listed.{revisions_of};
ghost use Rattle.repl.specs.Replies.{Opened, are_missing_lists, differences_in_reply, differences_read, has_missing_lists, missing_in, missing_of};
ghost use Rattle.repl.specs.Replies.{missing_of_each, missing_report, opened_in, revisions_opened, opened_by, missing};
ghost use Rattle.repl.specs.Shapes.{list_in, text_at};
ghost use Rattle.repl.specs.Taken.{opened_of, said_as};

use crate::element::{Shape, read_each};
use crate::groups::push_groups;
use crate::members::{put_text, text_at};
use crate::replies::value_in;
use crate::revisions::DocumentRevisions;
use crate::shapes::texts_at;
use crate::why::Why;
use couch_json::{Got, Json, NameMap};
use std::alloc::Global;
use std::collections::VecDeque;

/// A revision that was opened.
#[derive(Drop)]
pub enum OpenedRevision {
    /// Its document.
    Document(Json),
    /// It is missing.
    Missing(String),
}

/// Reads the reply to a comparison of these leaves: what is missing of each document.
pub fn differences_read(
    alloc: Global,
    listed: &[DocumentRevisions],
    status: u16,
    body: &[u8],
) -> Got<Result<VecDeque<DocumentRevisions>, Why>>
    ensures { IfOk result (λ reply. said_as (λ rs. map revisions_of rs.items) reply
        ≡ differences_read (map revisions_of listed.now) status body.now) }
{
    if status != 200 {
        return Ok(Err(Why::Status(status)));
    }
    match value_in(alloc, body)? {
        Some(value) => Ok(differences_in(alloc, listed, &value)?.ok_or(Why::Reply)),
        None => Ok(Err(Why::Reply)),
    }
}

/// Reads what is missing of each document listed.
fn differences_in(
    alloc: Global,
    listed: &[DocumentRevisions],
    value: &Json,
) -> Got<Option<VecDeque<DocumentRevisions>>>
    ensures { IfOk result (λ missing. option_map (λ rs. map revisions_of rs.items) missing
        ≡ differences_in_reply (map revisions_of listed.now) (view value.now)) }
{
    if !has_missing_lists(alloc, value)? {
        return Ok(None);
    }
    Ok(Some(missing_of_each(alloc, value, listed)?))
}

/// Tells whether the value is an object of lists of missing revisions.
fn has_missing_lists(alloc: Global, value: &Json) -> Got<bool>
    ensures { IfOk result (λ lists. lists ≡ has_missing_lists (view value.now)) }
{
    match value.members() {
        Some(members) => are_missing_lists(alloc, members),
        None => Ok(false),
    }
}

/// Tells whether each member has a list of missing revisions.
fn are_missing_lists(alloc: Global, members: &NameMap<Json>) -> Got<bool>
    ensures { IfOk result (λ lists. lists ≡ are_missing_lists (members_view members.now.entries)) }
{
    for (_id, value) in members.as_slice() {
        if texts_at(alloc, value, "missing")?.is_none() {
            return Ok(false);
        }
    }
    Ok(true)
}

/// Lists what is missing of the documents, in their order and in groups.
fn missing_of_each(
    alloc: Global,
    value: &Json,
    listed: &[DocumentRevisions],
) -> Got<VecDeque<DocumentRevisions>>
    ensures { IfOk result (λ missing. map revisions_of missing.items
        ≡ missing_of_each (view value.now) (map revisions_of listed.now)) }
{
    let mut missing = VecDeque::new(alloc);
    for document in listed {
        let revisions = missing_of(alloc, value, document.id.as_str())?;
        push_groups(alloc, &mut missing, document.id.as_str(), &revisions)?;
    }
    Ok(missing)
}

/// Reads the missing revisions of the document of an id.
fn missing_of(alloc: Global, value: &Json, id: &str) -> Got<Vec<String>>
    ensures { IfOk result (λ revisions. map string_bytes revisions.items ≡ missing_of id.now (view value.now)) }
{
    match value.member(id) {
        Some(member) => missing_in(alloc, member),
        None => Ok(Vec::new(alloc)),
    }
}

/// Reads the missing revisions of a document.
fn missing_in(alloc: Global, value: &Json) -> Got<Vec<String>>
    ensures { IfOk result (λ revisions. map string_bytes revisions.items ≡ unwrap_or (missing_in (view value.now)) []) }
{
    match texts_at(alloc, value, "missing")? {
        Some(revisions) => Ok(revisions),
        None => Ok(Vec::new(alloc)),
    }
}

/// Reads the reply to opened revisions.
pub fn revisions_opened(
    alloc: Global,
    status: u16,
    body: &[u8],
) -> Got<Result<Vec<OpenedRevision>, Why>>
    ensures { IfOk result (λ reply. said_as (λ os. map opened_of os.items) reply ≡ revisions_opened status body.now) }
{
    if status != 200 {
        return Ok(Err(Why::Status(status)));
    }
    match value_in(alloc, body)? {
        Some(value) => Ok(elements_in(alloc, value)?.ok_or(Why::Reply)),
        None => Ok(Err(Why::Reply)),
    }
}

/// Reads opened revisions of a list.
fn elements_in(alloc: Global, value: Json) -> Got<Option<Vec<OpenedRevision>>>
    ensures { IfOk result (λ opened. option_map (λ os. map opened_of os.items) opened ≡ list_in opened_in (view value)) }
{
    match value.items() {
        Some(items) => read_each::<OpenedShape>(alloc, items),
        None => Ok(None),
    }
}

/// An opened revision.
struct OpenedShape;

impl Shape for OpenedShape {
    type Element = OpenedRevision;

    ghost Said = { Opened };

    ghost said = { opened_of };

    ghost said_in = { opened_in };

    fn read(alloc: Global, value: &Json) -> Got<Option<OpenedRevision>> {
        if value.has_only(&["ok"]) {
            return document_in(alloc, value.member("ok"));
        }
        if value.has_only(&["missing"]) {
            return lost_in(alloc, value);
        }
        Ok(None)
    }
}

/// Copies the document of an opened revision.
fn document_in(alloc: Global, value: Option<&Json>) -> Got<Option<OpenedRevision>>
    ensures { IfOk result (λ opened. option_map opened_of opened ≡ opened_by (option_map (λ v. view v.now) value.entry)) }
{
    match value {
        Some(value) => {
            if !value.is_object() {
                return Ok(None);
            }
            Ok(Some(OpenedRevision::Document(value.copy(alloc)?)))
        }
        None => Ok(None),
    }
}

/// Reads a revision that is missing.
fn lost_in(alloc: Global, value: &Json) -> Got<Option<OpenedRevision>>
    ensures { IfOk result (λ opened. option_map opened_of opened ≡ option_map missing (text_at (codes "missing") (view value.now))) }
{
    match text_at(value, "missing") {
        Some(revision) => Ok(Some(OpenedRevision::Missing(String::from_str(alloc, revision)?))),
        None => Ok(None),
    }
}

/// Makes what is reported of a revision that is missing.
pub fn missing_report(alloc: Global, id: &str, revision: &str) -> Got<Json>
    ensures { IfOk result (λ report. view report ≡ missing_report id.now revision.now) }
{
    let mut members = NameMap::new(alloc);
    put_text(alloc, &mut members, "error", "missing")?;
    put_text(alloc, &mut members, "id", id)?;
    put_text(alloc, &mut members, "reason", "missing")?;
    put_text(alloc, &mut members, "rev", revision)?;
    Ok(Json::Object(members))
}
