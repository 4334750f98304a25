//! The shapes in which replies say what they say.

ghost use Rattle.std.specs.Prelude.{◌≡◌, ℕ, List, IfOk, map, option_and_then, option_map, string_bytes, codes};
ghost use Rattle.couch_json.specs.Parts.{items_in, text_in};
ghost use Rattle.couch_json.specs.Value.{member_of};
ghost use Rattle.couch_json.specs.View.{items_view, view};
ghost use Rattle.repl.specs.Calls.{Revisions};
ghost use Rattle.repl.specs.Listed.{revisions_of};
ghost use Rattle.repl.specs.Replies.{change_in, missing_in, revision_in_reply};
ghost use Rattle.repl.specs.Shapes.{list_at, texts_at};

use crate::element::{Shape, read_each};
use crate::members::text_at;
use crate::revisions::DocumentRevisions;
use couch_json::{Got, Json};
use std::alloc::Global;

/// Reads the texts of the list that a member is.
pub fn texts_at(alloc: Global, value: &Json, name: &str) -> Got<Option<Vec<String>>>
    ensures { IfOk result (λ texts. option_map (λ ts. map string_bytes ts.items) texts ≡ texts_at name.now (view value.now)) }
{
    match items_at(value, name) {
        Some(items) => read_each::<TextShape>(alloc, items),
        None => Ok(None),
    }
}

/// Returns the elements of the list that a member is.
pub fn items_at<'a>(value: &'a Json, name: &str) -> Option<&'a [Json]>
    ensures { option_map (λ items. items_view items.now) result ≡ option_and_then (λ v. items_in v) (member_of (view value.now) name.now) }
{
    match value.member(name) {
        Some(member) => member.items(),
        None => None,
    }
}

/// A text.
struct TextShape;

impl Shape for TextShape {
    type Element = String;

    ghost Said = { List ℕ };

    ghost said = { string_bytes };

    ghost said_in = { text_in };

    fn read(alloc: Global, value: &Json) -> Got<Option<String>> {
        match value.text() {
            Some(text) => Ok(Some(String::from_str(alloc, text)?)),
            None => Ok(None),
        }
    }
}

/// A change: a document and its leaves.
pub struct ChangeShape;

impl Shape for ChangeShape {
    type Element = DocumentRevisions;

    ghost Said = { Revisions };

    ghost said = { revisions_of };

    ghost said_in = { change_in };

    fn read(alloc: Global, value: &Json) -> Got<Option<DocumentRevisions>> {
        let Some(id) = text_at(value, "id") else {
            return Ok(None);
        };
        let Some(revisions) = leaves_in(alloc, value)? else {
            return Ok(None);
        };
        let id = String::from_str(alloc, id)?;
        Ok(Some(DocumentRevisions { id, revisions }))
    }
}

/// Reads the leaves of a change.
fn leaves_in(alloc: Global, value: &Json) -> Got<Option<Vec<String>>>
    ensures { IfOk result (λ leaves. option_map (λ ls. map string_bytes ls.items) leaves ≡ list_at (codes "changes") revision_in_reply (view value.now)) }
{
    match items_at(value, "changes") {
        Some(items) => read_each::<LeafShape>(alloc, items),
        None => Ok(None),
    }
}

/// A leaf of a change: its revision.
struct LeafShape;

impl Shape for LeafShape {
    type Element = String;

    ghost Said = { List ℕ };

    ghost said = { string_bytes };

    ghost said_in = { revision_in_reply };

    fn read(alloc: Global, value: &Json) -> Got<Option<String>> {
        match text_at(value, "rev") {
            Some(revision) => Ok(Some(String::from_str(alloc, revision)?)),
            None => Ok(None),
        }
    }
}
