//! Writing local documents.

ghost use Rattle.std.specs.Prelude.{◌≡◌, ◌≢◌, [], IsTrue, Bool, Option, true, IfOk, IfErr, None, Ok, Err, is_some, option_map};
ghost use Rattle.std.specs.FinMap as map;
ghost use Rattle.couch_json.specs.View.{view, members_view};
ghost use Rattle.store.specs.Calls.{OnlyReads};
ghost use Rattle.store.specs.Contents.{IfThere, local_at};
ghost use Rattle.store.specs.Database.{Database};
ghost use Rattle.tree.specs.DocumentId.{is_local_id};
ghost use Rattle.write.specs.Document.{are_allowed};
ghost use Rattle.write.specs.LocalWrites.{is_local_member, local_body};
ghost use Rattle.write.specs.LocalWrites.{local_outcome, local_rev, local_rev_in, names_stored, next_number};
ghost use Rattle.write.specs.Planning.{IsLocal, IsLocalOf, MayBeMade};
ghost use Rattle.write.specs.Refusing.{IsDecided, IsOfStoreOrMemory, IsOwn, Refuses};

use crate::document::{MAX_BODY_DEPTH, fits_id, is_special, without_special};
use crate::fault::WriteFault;
use crate::planned::{Changes, Planned};
use couch_json::{Got, Json, NameMap};
use std::alloc::Global;
use store::{DbName, LocalDocument, Store};
use tree::{Body, DocId};

/// The greatest number that a revision of a local document has.
const GREATEST_NUMBER: u32 = 2_147_483_647;

/// Plans what becomes of a local document that is written. It reads the store and changes nothing.
///
/// The id is to be a local one, `_local/` and a name: whoever reads a path sees to that, and it isn't
/// tested here. Of another id the plan may not be made.
///
/// The first write names no revision, each later one names the stored one, `0-N`, by `_rev`, and
/// makes `0-M` with M one greater. `BadDocument` comes if and only if the document is no object, has
/// another special member than `_id` and `_rev`, another `_id` than this id, a `_rev` that is no text,
/// or a body that nests more than 100 deep; else `Conflict` where it doesn't name the stored
/// revision; else `Generation` where that is the last, `0-2147483647`; `Store(NoDatabase)` if and
/// only if there is no database of this name, and before these. See the CouchDB manual, api/local.
pub fn put_local<S: Store>(
    alloc: Global,
    store: &mut S,
    db: &DbName,
    id: &DocId,
    document: Json,
) -> Result<Planned, WriteFault>
    ensures there { S.is_honest store.new → IsDecided result → is_some (map.get (S.contents store.old) db.now) ≡ true }
    ensures ok { S.is_honest store.new → IfOk result (λ planned. IfThere (map.get (S.contents store.old) db.now) (λ d.
        IsLocalOf id.now (local_outcome (local_at d id.now) id.now (view document)) planned.changes)) }
    ensures kind { IfOk result (λ planned. IsLocal planned.changes) }
    ensures may { IsTrue (is_local_id id.now) → IfOk result (λ planned. (d : Database) → MayBeMade planned.changes d) }
    ensures results { IfOk result (λ planned. planned.results.items ≡ []) }
    ensures database { IfOk result (λ planned. planned.database ≡ db.now) }
    ensures refused { S.is_honest store.new → IfErr result (λ fault. IsOwn fault
        → IfThere (map.get (S.contents store.old) db.now) (λ d. local_outcome (local_at d id.now) id.now (view document) ≡ Err fault)) }
    ensures only { IfErr result (λ fault. fault ≢ WriteFault.BadDocument → fault ≢ WriteFault.Conflict → fault ≢ WriteFault.Generation
        → IsOfStoreOrMemory fault) }
    ensures passed { IfErr result (Refuses S.Store store.old store.new (map.get (S.contents store.old) db.now ≡ None) ⊥) }
    ensures reads { OnlyReads S.Store store.old store.new }
{
    let stored = store.local(db, id)?;
    plan_local(alloc, db, id, stored, document)
}

/// Plans a local document where this one is stored.
fn plan_local(
    alloc: Global,
    db: &DbName,
    id: &DocId,
    stored: Option<LocalDocument>,
    document: Json,
) -> Result<Planned, WriteFault>
    ensures ok { IfOk result (λ planned. IsLocalOf id.now (local_outcome stored id.now (view document)) planned.changes) }
    ensures kind { IfOk result (λ planned. IsLocal planned.changes) }
    ensures may { IsTrue (is_local_id id.now) → IfOk result (λ planned. (d : Database) → MayBeMade planned.changes d) }
    ensures results { IfOk result (λ planned. planned.results.items ≡ []) }
    ensures database { IfOk result (λ planned. planned.database ≡ db.now) }
    ensures refused { IfErr result (λ fault. fault ≢ WriteFault.Memory → local_outcome stored id.now (view document) ≡ Err fault) }
    ensures only { IfErr result (λ fault. fault ≢ WriteFault.BadDocument → fault ≢ WriteFault.Conflict → fault ≢ WriteFault.Generation
        → fault ≢ WriteFault.Memory → ⊥) }
{
    let Some(names) = names_stored(alloc, &stored, id, &document)? else {
        return Err(WriteFault::BadDocument);
    };
    let Some(body) = strip_local(alloc, document) else {
        return Err(WriteFault::BadDocument);
    };
    if !names {
        return Err(WriteFault::Conflict);
    }
    let Some(number) = next_number(&stored) else {
        return Err(WriteFault::Generation);
    };
    let body = Body::new(body);
    Ok(Planned {
        database: db.copy(alloc)?,
        changes: Changes::Local(id.copy(alloc)?, LocalDocument { number, body }),
        results: Vec::new(alloc),
    })
}

/// Tells whether a local document names the stored revision, or none where none is stored; `None`
/// where its id is another one, or its `_rev` is no text.
fn names_stored(
    alloc: Global,
    stored: &Option<LocalDocument>,
    id: &DocId,
    document: &Json,
) -> Got<Option<bool>>
    ensures { IfOk result (λ names. names ≡ option_map (λ rev. names_stored stored.now rev) (local_rev id.now (view document.now))) }
{
    if !fits_id(id, document.member("_id")) {
        return Ok(None);
    }
    match document.member("_rev") {
        None => Ok(Some(stored.is_none())),
        Some(Json::Text(rev)) => Ok(Some(is_revision(alloc, stored, rev)?)),
        Some(_) => Ok(None),
    }
}

/// Tells whether a text is the stored revision.
fn is_revision(alloc: Global, stored: &Option<LocalDocument>, rev: &str) -> Got<bool>
    ensures { IfOk result (λ is. is ≡ names_stored stored.now (Option.Some rev.now)) }
{
    match stored {
        Some(stored) => Ok(stored.revision(alloc)?.as_str() == rev),
        None => Ok(false),
    }
}

/// Strips a local document of its special members; `None` where it is no object, has special members
/// that no local document has, or nests too deep.
fn strip_local(alloc: Global, document: Json) -> Option<Json>
    ensures { option_map view result ≡ local_body (view document) }
{
    let Json::Object(members) = document else {
        return None;
    };
    if !are_local_allowed(&members) {
        return None;
    }
    let body = Json::Object(without_special(alloc, members));
    if !body.nests_within(MAX_BODY_DEPTH) {
        return None;
    }
    Some(body)
}

fn are_local_allowed(members: &NameMap<Json>) -> bool
    ensures { result ≡ are_allowed is_local_member (members_view members.now.entries) }
{
    for (name, _value) in members.as_slice() {
        if is_special(name) && !is_local_member(name) {
            return false;
        }
    }
    true
}

fn is_local_member(name: &str) -> bool
    ensures { result ≡ is_local_member name.now }
{
    name == "_id" || name == "_rev"
}

/// Returns the number after that of the stored document, or `None` after the last.
fn next_number(stored: &Option<LocalDocument>) -> Option<u32>
    ensures { result ≡ next_number stored.now }
{
    match stored {
        None => Some(1),
        Some(stored) if stored.number < GREATEST_NUMBER => Some(stored.number + 1),
        Some(_) => None,
    }
}
