ghost use Rattle.std.specs.Prelude.{◌≡◌, ◌≢◌, ◌++◌, ◌∷◌, [], map as each, IfErr, IfOk, IfSome, None, OnOk, Some, Ok, Err, is_some, option_copied, option_map};
ghost use Rattle.std.specs.FinMap as map;
ghost use Rattle.couch_json.specs.Value.{member, no_members, object};
ghost use Rattle.couch_json.specs.View.{view};
ghost use Rattle.store.specs.Calls.{OnlyReads};
ghost use Rattle.store.specs.Database.{Database, history_at};
ghost use Rattle.tree.specs.Outline.{outline_of};
ghost use Rattle.read.specs.Answers.{AnswersValue, Stops};
ghost use Rattle.read.specs.OpenRevisions.{asked_revisions, element, open_revision, open_revisions_in};

use crate::fault::ReadFault;
use crate::shown::{read_paths, read_shown};
use couch_json::{ArrayText, Got, Json, JsonText, NameMap, put_member};
use std::alloc::Global;
use store::{DbName, Store};
use tree::{DocId, Outline, Rev};

/// Tells what a document shows of each revision that is asked for, in the order asked: a list of objects,
/// `{"ok":document}` with the document as [`get`](crate::get) shows that revision, or
/// `{"missing":"N-hash"}` where no body is held of it.
///
/// `None` asks for all leaves, the winner first, so for nothing where the document was never
/// written. `Store(NoDatabase)` comes if and only if there is no database of this name; else nothing
/// but lack of memory and faults of the store refuse. Nothing changes. See the CouchDB manual,
/// api/document/common.
pub fn open_revs<S: Store>(
    alloc: Global,
    store: &mut S,
    db: &DbName,
    id: &DocId,
    asked: Option<&[Rev]>,
    revs: bool,
) -> Result<JsonText, ReadFault>
    ensures answer { AnswersValue S.Store store.old store.new (option_map (λ value. Ok value)
        (open_revisions_in (S.contents store.old) db.now id.now (option_copied asked.entry) revs)) result }
    ensures plain { (result ≢ Err ReadFault.Missing) × (result ≢ Err ReadFault.Deleted) }
    ensures reads { OnlyReads S.Store store.old store.new }
{
    let _present = store.security(db)?;
    let paths = read_paths(store, db, id, revs)?;
    let elements = read_asked(alloc, store, db, id, asked, &paths)?;
    Ok(elements.end()?)
}

/// Tells what is said of the revisions that are asked for, or of all leaves.
#[tactic(auto, using(tree::proofs::Outlines::leaves_in))]
fn read_asked<S: Store>(
    alloc: Global,
    store: &mut S,
    db: &DbName,
    id: &DocId,
    asked: Option<&[Rev]>,
    paths: &Option<Outline>,
) -> Result<ArrayText, ReadFault>
    ensures ok { S.is_honest store.new → IfOk result (λ elements. (d : Database) → map.get (S.contents store.old) db.now ≡ Some d
        → IfSome paths.now (λ outline. outline ≡ outline_of (history_at d id.now))
        → elements ≡ each (open_revision id.now (history_at d id.now) (is_some paths.now))
        (asked_revisions (history_at d id.now) (option_copied asked.entry))) }
    ensures stops { IfErr result (Stops S.Store store.old store.new (map.get (S.contents store.old) db.now ≡ None)) }
    ensures reads { OnlyReads S.Store store.old store.new }
{
    let Some(asked) = asked else {
        let leaves = store.outline(db, id)?.leaves()?;
        return read_elements(alloc, store, db, id, &leaves, paths);
    };
    read_elements(alloc, store, db, id, asked, paths)
}

/// Tells what is said of these revisions, in order.
fn read_elements<S: Store>(
    alloc: Global,
    store: &mut S,
    db: &DbName,
    id: &DocId,
    asked: &[Rev],
    paths: &Option<Outline>,
) -> Result<ArrayText, ReadFault>
    ensures ok { S.is_honest store.new → IfOk result (λ elements. (d : Database) → map.get (S.contents store.old) db.now ≡ Some d
        → IfSome paths.now (λ outline. outline ≡ outline_of (history_at d id.now))
        → elements ≡ each (open_revision id.now (history_at d id.now) (is_some paths.now)) asked.now) }
    ensures stops { IfErr result (Stops S.Store store.old store.new (map.get (S.contents store.old) db.now ≡ None)) }
    ensures reads { OnlyReads S.Store store.old store.new }
{
    let mut elements = ArrayText::new(alloc)?;
    for rev in asked {
        let shown = read_shown(alloc, store, db, id, rev, paths)?;
        push_element(alloc, &mut elements, rev, shown)?;
    }
    Ok(elements)
}

/// Pushes what is said of one revision.
fn push_element(alloc: Global, elements: &mut ArrayText, rev: &Rev, shown: Option<Json>) -> Got<()>
    ensures { OnOk result (elements.new ≡ elements.old ++ element rev.now (option_map view shown) ∷ []) }
{
    elements.push(alloc, &build_element(alloc, rev, shown)?)
}

fn build_element(alloc: Global, rev: &Rev, document: Option<Json>) -> Got<Json>
    ensures { IfOk result (λ value. view value ≡ element rev.now (option_map view document)) }
{
    match document {
        Some(document) => label(alloc, "ok", document),
        None => label(alloc, "missing", Json::Text(rev.text(alloc)?)),
    }
}

/// Builds an object of one member.
fn label(alloc: Global, label: &str, value: Json) -> Got<Json>
    ensures { IfOk result (λ labelled. view labelled ≡ object (member label.now (view value) no_members)) }
{
    let mut members = NameMap::new(alloc);
    put_member(alloc, &mut members, label, value)?;
    Ok(Json::Object(members))
}
