//! Local documents, as they are shown.

ghost use Rattle.std.specs.Prelude.{◌≡◌, IfOk, option_map};
ghost use Rattle.std.specs.FinMap as map;
ghost use Rattle.couch_json.specs.View.{members_view, view};
ghost use Rattle.store.specs.Calls.{OnlyReads};
ghost use Rattle.tree.specs.ShownDocument.{body_members};
ghost use Rattle.read.specs.Answers.{AnswersValue};
ghost use Rattle.read.specs.Local.{local_document, shown_local};

use crate::fault::ReadFault;
use couch_json::{Got, Json, JsonText, NameMap, put_member};
use std::alloc::Global;
use store::{DbName, LocalDocument, Store};
use tree::DocId;

/// Returns a local document: its body with `_id`, and with `_rev`, which is `0-N`.
///
/// `Missing` comes if and only if none of this id was written, `Store(NoDatabase)` if and only if
/// there is no database of this name. Nothing changes. See the CouchDB manual, api/local.
pub fn local<S: Store>(
    alloc: Global,
    store: &mut S,
    db: &DbName,
    id: &DocId,
) -> Result<JsonText, ReadFault>
    ensures answer { AnswersValue S.Store store.old store.new (option_map (λ d. local_document id.now d) (map.get (S.contents store.old) db.now)) result }
    ensures reads { OnlyReads S.Store store.old store.new }
{
    match store.local(db, id)? {
        Some(document) => Ok(show_local(alloc, id, document)?),
        None => Err(ReadFault::Missing),
    }
}

/// Shows a local document.
fn show_local(alloc: Global, id: &DocId, document: LocalDocument) -> Got<JsonText>
    ensures { IfOk result (λ value. value ≡ shown_local id.now document) }
{
    let rev = document.revision(alloc)?;
    let id = String::from_str(alloc, id.as_str())?;
    let mut members = take_members(alloc, document.body.into_json());
    put_member(alloc, &mut members, "_id", Json::Text(id))?;
    put_member(alloc, &mut members, "_rev", Json::Text(rev))?;
    JsonText::of(alloc, &Json::Object(members))
}

/// Takes the members out of a body.
fn take_members(alloc: Global, body: Json) -> NameMap<Json>
    ensures { members_view result.entries ≡ body_members (view body) }
{
    match body {
        Json::Object(members) => members,
        _ => NameMap::new(alloc),
    }
}
