//! What the reply to each call of a pass says.

ghost use Rattle.std.specs.Prelude.{◌≡◌, IfOk, map, option_map, string_bytes, codes};
ghost use Rattle.couch_json.specs.View.{members_view, view};
ghost use Rattle.repl.specs.Kept.{checkpoint_of};
ghost use Rattle.repl.specs.Listed.{revisions_of};
ghost use Rattle.repl.specs.Replies.{change_in, changes_in_reply, changes_listed, checkpoint_read, checkpoint_written, is_missing, revision_in_reply};
ghost use Rattle.repl.specs.Replies.{stored_in, value_in};
ghost use Rattle.repl.specs.Shapes.{list_at};
ghost use Rattle.repl.specs.Taken.{changes_of, said_as, stored_of};

use crate::checkpoint::{KeptCheckpoint, checkpoint_in};
use crate::count::Count;
use crate::element::read_each;
use crate::members::{count_at, text_at};
use crate::revisions::DocumentRevisions;
use crate::shapes::{ChangeShape, items_at};
use crate::why::Why;
use couch_json::{Got, Json, JsonFault, NoMemory, read};
use std::alloc::Global;

/// A checkpoint as a side has it.
#[derive(Drop)]
pub struct Found {
    /// The revision of its document, if there is one.
    pub revision: Option<String>,
    /// What it says, if it says one.
    pub checkpoint: Option<KeptCheckpoint>,
}

/// The changes that a source lists.
#[derive(Drop)]
pub struct ChangesListed {
    /// The sequence up to which they come.
    pub sequence: Count,
    /// The leaves of each document.
    pub leaves: Vec<DocumentRevisions>,
}

/// Reads the value of a body, if it has one.
pub fn value_in(alloc: Global, body: &[u8]) -> Got<Option<Json>>
    ensures { IfOk result (λ value. option_map view value ≡ value_in body.now) }
{
    match read(alloc, body) {
        Ok(value) => Ok(Some(value)),
        Err(JsonFault::Memory) => Err(NoMemory),
        Err(_) => Ok(None),
    }
}

/// Reads the reply to a read of a checkpoint.
pub fn checkpoint_read(alloc: Global, status: u16, body: &[u8]) -> Got<Result<Found, Why>>
    ensures { IfOk result (λ reply. said_as stored_of reply ≡ checkpoint_read status body.now) }
{
    if status == 404 && is_missing(alloc, body)? {
        return Ok(Ok(Found {
            revision: None,
            checkpoint: None,
        }));
    }
    if status != 200 {
        return Ok(Err(Why::Status(status)));
    }
    match value_in(alloc, body)? {
        Some(value) => Ok(stored_in(alloc, &value)?.ok_or(Why::Reply)),
        None => Ok(Err(Why::Reply)),
    }
}

/// Tells whether a refusal's reason is `missing`.
fn is_missing(alloc: Global, body: &[u8]) -> Got<bool>
    ensures { IfOk result (λ missing. missing ≡ is_missing body.now) }
{
    match value_in(alloc, body)? {
        Some(value) => match text_at(&value, "reason") {
            Some(reason) => Ok(reason == "missing"),
            None => Ok(false),
        },
        None => Ok(false),
    }
}

/// Reads the document of a checkpoint.
fn stored_in(alloc: Global, value: &Json) -> Got<Option<Found>>
    ensures { IfOk result (λ found. option_map stored_of found ≡ stored_in (view value.now)) }
{
    let Some(revision) = text_at(value, "_rev") else {
        return Ok(None);
    };
    let revision = String::from_str(alloc, revision)?;
    Ok(Some(Found {
        revision: Some(revision),
        checkpoint: checkpoint_in(alloc, value)?,
    }))
}

/// Reads the reply to a write of a checkpoint: the revision that it made.
pub fn checkpoint_written(alloc: Global, status: u16, body: &[u8]) -> Got<Result<String, Why>>
    ensures { IfOk result (λ reply. said_as string_bytes reply ≡ checkpoint_written status body.now) }
{
    if status != 201 {
        return Ok(Err(Why::Status(status)));
    }
    match value_in(alloc, body)? {
        Some(value) => Ok(revision_in(alloc, &value)?.ok_or(Why::Reply)),
        None => Ok(Err(Why::Reply)),
    }
}

/// Reads the revision that a write made.
fn revision_in(alloc: Global, value: &Json) -> Got<Option<String>>
    ensures { IfOk result (λ revision. option_map string_bytes revision ≡ revision_in_reply (view value.now)) }
{
    match text_at(value, "rev") {
        Some(revision) => Ok(Some(String::from_str(alloc, revision)?)),
        None => Ok(None),
    }
}

/// Reads the reply to a list of changes.
pub fn changes_listed(alloc: Global, status: u16, body: &[u8]) -> Got<Result<ChangesListed, Why>>
    ensures { IfOk result (λ reply. said_as changes_of reply ≡ changes_listed status body.now) }
{
    if status != 200 {
        return Ok(Err(Why::Status(status)));
    }
    match value_in(alloc, body)? {
        Some(value) => Ok(listing_in(alloc, &value)?.ok_or(Why::Reply)),
        None => Ok(Err(Why::Reply)),
    }
}

/// Reads a list of changes.
fn listing_in(alloc: Global, value: &Json) -> Got<Option<ChangesListed>>
    ensures { IfOk result (λ changes. option_map changes_of changes ≡ changes_in_reply (view value.now)) }
{
    let Some(sequence) = count_at(value, "last_seq") else {
        return Ok(None);
    };
    let Some(leaves) = results_in(alloc, value)? else {
        return Ok(None);
    };
    Ok(Some(ChangesListed { sequence, leaves }))
}

/// Reads the results of a list of changes.
fn results_in(alloc: Global, value: &Json) -> Got<Option<Vec<DocumentRevisions>>>
    ensures { IfOk result (λ results. option_map (λ rs. map revisions_of rs.items) results ≡ list_at (codes "results") change_in (view value.now)) }
{
    match items_at(value, "results") {
        Some(items) => read_each::<ChangeShape>(alloc, items),
        None => Ok(None),
    }
}
