ghost use Rattle.std.specs.Prelude.{◌≡◌, IfErr, IfOk, IfSome, None, Some, is_some, option_map, true};
ghost use Rattle.std.specs.FinMap as map;
ghost use Rattle.couch_json.specs.View.{view};
ghost use Rattle.store.specs.Calls.{OnlyReads};
ghost use Rattle.store.specs.Database.{Database, history_at};
ghost use Rattle.tree.specs.History.{HistoryContent, held_of};
ghost use Rattle.tree.specs.Outline.{outline_of};
ghost use Rattle.read.specs.Answers.{Stops};
ghost use Rattle.read.specs.Shown.{shown_document};

use crate::fault::ReadFault;
use crate::path::put_revisions;
use couch_json::{Got, Json};
use std::alloc::Global;
use store::{DbName, Store, take_held};
use tree::{DocId, Outline, Rev, show_members};

/// Reads the outline of a document, which has the paths of its revisions, where `revs` asks for it.
pub(crate) fn read_paths<S: Store>(
    store: &mut S,
    db: &DbName,
    id: &DocId,
    revs: bool,
) -> Result<Option<Outline>, ReadFault>
    ensures asked { IfOk result (λ paths. is_some paths ≡ revs) }
    ensures ok { S.is_honest store.new → IfOk result (λ paths. (d : Database) → map.get (S.contents store.old) db.now ≡ Some d
        → IfSome paths (λ outline. outline ≡ outline_of (history_at d id.now))) }
    ensures stops { IfErr result (Stops S.Store store.old store.new (map.get (S.contents store.old) db.now ≡ None)) }
    ensures reads { OnlyReads S.Store store.old store.new }
{
    if !revs {
        return Ok(None);
    }
    Ok(Some(store.outline(db, id)?))
}

/// Reads the document that a revision is shown as: its body with `_id`, `_rev`, `_deleted` where it is
/// deleted, and `_revisions` where the paths are given. `None` where no body is held of it.
#[tactic(auto, using(crate::proofs::Outlines::paths_of))]
pub(crate) fn read_shown<S: Store>(
    alloc: Global,
    store: &mut S,
    db: &DbName,
    id: &DocId,
    rev: &Rev,
    paths: &Option<Outline>,
) -> Result<Option<Json>, ReadFault>
    ensures there { S.is_honest store.new → IfOk result (λ _. is_some (map.get (S.contents store.old) db.now) ≡ true) }
    ensures ok { S.is_honest store.new → IfOk result (λ document. (d : Database) → map.get (S.contents store.old) db.now ≡ Some d
        → IfSome paths.now (λ outline. outline ≡ outline_of (history_at d id.now))
        → option_map view document ≡ shown_document id.now (history_at d id.now) rev.now (is_some paths.now)) }
    ensures stops { IfErr result (Stops S.Store store.old store.new (map.get (S.contents store.old) db.now ≡ None)) }
    ensures reads { OnlyReads S.Store store.old store.new }
{
    let known = store.revision(db, id, rev)?;
    let Some((deleted, body)) = take_held(known) else {
        return Ok(None);
    };
    Ok(Some(show_held(alloc, id, rev, deleted, &body, paths)?))
}

/// Builds the document that a revision is shown as, of which this is held, with its path where the paths
/// are given.
pub(crate) fn show_held(
    alloc: Global,
    id: &DocId,
    rev: &Rev,
    deleted: bool,
    body: &Json,
    paths: &Option<Outline>,
) -> Got<Json>
    ensures { (h : HistoryContent) → IfSome paths.now (λ outline. outline ≡ outline_of h)
        → held_of h rev.now ≡ Some (record { deleted = deleted; body = view body.now })
        → IfOk result (λ document. Some (view document) ≡ shown_document id.now h rev.now (is_some paths.now)) }
{
    let mut members = show_members(alloc, id, rev, deleted, body)?;
    put_revisions(alloc, &mut members, paths, rev)?;
    Ok(Json::Object(members))
}
