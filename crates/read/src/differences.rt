//! Which revisions a database doesn't know.

ghost use Rattle.std.specs.Prelude.{◌≡◌, ◌≢◌, Some, None, Ok, map as each, option_map, IfOk, IfErr, OnOk};
ghost use Rattle.std.specs.FinMap as map;
ghost use Rattle.couch_json.specs.Value.{array, member, no_members, object};
ghost use Rattle.couch_json.specs.View.{items_view, members_view, view};
ghost use Rattle.store.specs.Calls.{OnlyReads};
ghost use Rattle.store.specs.Database.{Database};
ghost use Rattle.tree.specs.Outline.{outline_of};
ghost use Rattle.read.specs.Answers.{AnswersValue, Stops};
ghost use Rattle.read.specs.Differences.{history_by, missing_texts, revision_differences, with_difference, with_differences, with_missing};
ghost use Rattle.read.specs.DifferencesAsked.{all_asked, revisions_asked};

use crate::fault::ReadFault;
use couch_json::{Got, Json, JsonText, NameMap, put_member};
use std::alloc::Global;
use store::{DbName, Store};
use tree::{DocId, IdFault, Outline, Rev};

/// Revisions of one document that a client asks about.
pub struct AskedRevisions {
    /// The document's id; any text may be one.
    pub id: String,
    /// The revisions, in order; one may stand there twice.
    pub revs: Vec<Rev>,
}

// Written out, so that callers do not prove again how each part is dropped.
impl Drop for AskedRevisions {
    fn drop(self) {
        let AskedRevisions { id: _, revs: _ } = self;
    }
}

/// Tells which of these revisions a database doesn't know: an object from ids to
/// `{"missing":[..]}`, without the ids of which all are known.
///
/// `Store(NoDatabase)` comes if and only if there is no database of this name; else nothing but want
/// of memory and faults of the store refuse. Nothing changes. See the CouchDB manual,
/// api/database/misc.
pub fn revs_diff<S: Store>(
    alloc: Global,
    store: &mut S,
    db: &DbName,
    asked: &[AskedRevisions],
) -> Result<JsonText, ReadFault>
    ensures answer { AnswersValue S.Store store.old store.new
        (option_map (λ d. Ok (revision_differences (all_asked asked.now) d)) (map.get (S.contents store.old) db.now)) result }
    ensures only { IfErr result (λ fault. fault ≢ ReadFault.Memory → ((cause : _) → fault ≢ ReadFault.Store cause) → ⊥) }
    ensures reads { OnlyReads S.Store store.old store.new }
{
    let _present = store.security(db)?;
    let members = find_differences(alloc, store, db, asked)?;
    Ok(JsonText::of(alloc, &Json::Object(members))?)
}

/// Finds the members of that object, document by document.
fn find_differences<S: Store>(
    alloc: Global,
    store: &mut S,
    db: &DbName,
    asked: &[AskedRevisions],
) -> Result<NameMap<Json>, ReadFault>
    ensures ok { S.is_honest store.new → IfOk result (λ members. (d : Database) → map.get (S.contents store.old) db.now ≡ Some d
        → members_view members.entries ≡ with_differences d no_members (all_asked asked.now)) }
    ensures stops { IfErr result (Stops S.Store store.old store.new (map.get (S.contents store.old) db.now ≡ None)) }
    ensures reads { OnlyReads S.Store store.old store.new }
{
    let mut members = NameMap::new(alloc);
    for document in asked {
        put_difference(alloc, store, db, document, &mut members)?;
    }
    Ok(members)
}

/// Puts in what is missing of a document.
#[tactic(auto, using(crate::proofs::Outlines::missing_same))]
fn put_difference<S: Store>(
    alloc: Global,
    store: &mut S,
    db: &DbName,
    asked: &AskedRevisions,
    members: &mut NameMap<Json>,
) -> Result<(), ReadFault>
    ensures ok { S.is_honest store.new → OnOk result ((d : Database) → map.get (S.contents store.old) db.now ≡ Some d
        → members_view members.new.entries ≡ with_difference d (members_view members.old.entries) (revisions_asked asked.now)) }
    ensures stops { IfErr result (Stops S.Store store.old store.new (map.get (S.contents store.old) db.now ≡ None)) }
    ensures reads { OnlyReads S.Store store.old store.new }
{
    let outline = read_outline_by(alloc, store, db, asked.id.as_str())?;
    let missing = find_missing(alloc, &outline, &asked.revs)?;
    Ok(put_missing(alloc, members, asked.id.as_str(), missing)?)
}

/// Reads the outline of the document that a text stands for, empty where it is no id of a document.
#[tactic(auto, using(crate::proofs::Outlines::outline_of_nothing))]
fn read_outline_by<S: Store>(
    alloc: Global,
    store: &mut S,
    db: &DbName,
    id: &str,
) -> Result<Outline, ReadFault>
    ensures ok { S.is_honest store.new → IfOk result (λ outline. (d : Database) → map.get (S.contents store.old) db.now ≡ Some d
        → outline ≡ outline_of (history_by d id.now)) }
    ensures stops { IfErr result (Stops S.Store store.old store.new (map.get (S.contents store.old) db.now ≡ None)) }
    ensures reads { OnlyReads S.Store store.old store.new }
{
    match DocId::new(alloc, id) {
        Ok(id) => Ok(store.outline(db, &id)?),
        Err(IdFault::Shape) => Ok(Outline::new(alloc)),
        Err(IdFault::Memory) => Err(ReadFault::Memory),
    }
}

/// Finds the revisions that an outline doesn't know, as texts in the order asked.
fn find_missing(alloc: Global, outline: &Outline, revs: &[Rev]) -> Got<Vec<Json>>
    ensures { IfOk result (λ texts. each view texts.items ≡ missing_texts outline.now revs.now) }
{
    let mut texts = Vec::new(alloc);
    for rev in revs {
        if !outline.knows(rev) {
            texts.push(Json::Text(rev.text(alloc)?))?;
        }
    }
    Ok(texts)
}

/// Puts what is missing of a document at its id, if anything is.
fn put_missing(alloc: Global, members: &mut NameMap<Json>, id: &str, missing: Vec<Json>) -> Got<()>
    ensures ok { OnOk result (members_view members.new.entries ≡ with_missing id.now (each view missing.items) (members_view members.old.entries)) }
{
    if missing.is_empty() {
        return Ok(());
    }
    let mut object = NameMap::new(alloc);
    put_member(alloc, &mut object, "missing", Json::Array(missing))?;
    put_member(alloc, members, id, Json::Object(object))
}
