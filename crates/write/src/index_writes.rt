//! Declaring indexes.

ghost use Rattle.std.specs.Prelude.{◌≡◌, ◌≢◌, ◌<◌, ◌∷◌, [], true, IfOk, IfErr, IfSome, None, Ok, OnOk, Err, codes};
ghost use Rattle.std.specs.Prelude.{is_some, length, map as each, option_and_then, option_map};
ghost use Rattle.std.specs.FinMap as map;
ghost use Rattle.couch_json.specs.Value.{member_at, null, put, text as text_value};
ghost use Rattle.couch_json.specs.View.{members_view, view};
ghost use Rattle.tree.specs.DocumentId.{is_design_id};
ghost use Rattle.tree.specs.History.{winner};
ghost use Rattle.store.specs.Calls.{OnlyReads};
ghost use Rattle.store.specs.Contents.{IfThere};
ghost use Rattle.store.specs.Database.{history_at};
ghost use Rattle.store.specs.Indexes.{winning_body};
ghost use Rattle.store.specs.Writing.{addition_of, written_in};
ghost use Rattle.write.specs.Bulk.{writes_alone};
ghost use Rattle.write.specs.BulkResults.{IsUnrefused, OfFirst};
ghost use Rattle.write.specs.IndexWrites.{declares, index_admission, index_outcome, index_value, members_if, with_index};
ghost use Rattle.write.specs.Planning.{AreWrites, Plans, planned_writes};
ghost use Rattle.write.specs.Refusing.{IsDecided, IsOfStoreOrMemory, IsOwn, Refuses};
ghost use Rattle.write.specs.Terms.{terms_in};

use crate::fault::WriteFault;
use crate::following::judge_edit;
use crate::planned::Planned;
use crate::planning::{Label, plan_alone};
use crate::request_terms::RequestTerms;
use auth::Caller;
use couch_json::{FieldPath, Got, Json, NameMap, collate, put_member};
use std::alloc::Global;
use store::{DbName, HeldWinner, Store, Write, find_index, read_held_winner};
use tree::{DocId, Rev};

/// Plans an index of a database: an edit of the design document that sets the member of this name of
/// `indexes`. It reads the store and changes nothing.
///
/// The edit goes on from the winner, with its body, or with an empty one where it is deleted or there
/// is none; an `indexes` that is no object counts as an empty one. Where the winner is not deleted and
/// declares this index already there is nothing to write, and the result is `Known`. `Denied` comes
/// first, where the caller may not write design documents; then what `edit` refuses comes where it
/// does. `Store(NoDatabase)` comes if and only if there is no database of this name, and before these.
/// See the CouchDB manual, api/database/find.
pub fn put_index<S: Store>(
    alloc: Global,
    store: &mut S,
    db: &DbName,
    caller: &Caller,
    id: &DocId,
    name: &str,
    fields: &[FieldPath],
) -> Result<Planned, WriteFault>
    requires { is_design_id id.now ≡ true }
    ensures there { S.is_honest store.new → IsDecided result → is_some (map.get (S.contents store.old) db.now) ≡ true }
    ensures ok { S.is_honest store.new → IfOk result (λ planned. IfThere (map.get (S.contents store.old) db.now) (λ d.
        writes_alone (index_admission (terms_in caller.now db.now d) d id.now name.now fields.now) ≡ Ok (planned_writes d planned.changes))) }
    ensures plan { S.is_honest store.new → IfOk result (λ planned. IfThere (map.get (S.contents store.old) db.now) (λ d.
        Plans d (null ∷ []) (index_admission (terms_in caller.now db.now d) d id.now name.now fields.now ∷ []) planned)) }
    ensures unrefused { IfOk result (λ planned. OfFirst IsUnrefused planned.results.items) }
    ensures appends { IfOk result (λ planned. AreWrites planned.changes) }
    ensures database { IfOk result (λ planned. planned.database ≡ db.now) }
    ensures refused { S.is_honest store.new → IfErr result (λ fault. IsOwn fault
        → IfThere (map.get (S.contents store.old) db.now) (λ d. index_admission (terms_in caller.now db.now d) d id.now name.now fields.now ≡ Err fault)) }
    ensures edits { IfErr result (λ fault. fault ≢ WriteFault.BadHistory) }
    ensures passed { IfErr result (Refuses S.Store store.old store.new (map.get (S.contents store.old) db.now ≡ None) ⊥) }
    ensures reads { OnlyReads S.Store store.old store.new }
{
    let mut terms = RequestTerms::read(alloc, store, db, caller)?;
    let write = judge_index(alloc, store, db, &mut terms, id, name, fields)?;
    let label = Label {
        id: None,
        rev: None,
    };
    Ok(plan_alone(alloc, db, label, write)?)
}

/// Judges an index of a stored design document: the write that declares it, nothing where it is declared
/// already, or why it is refused.
///
/// A design document may be large: one copy of it is read, and the new document is made of that.
fn judge_index<S: Store>(
    alloc: Global,
    store: &mut S,
    db: &DbName,
    terms: &mut RequestTerms,
    id: &DocId,
    name: &str,
    fields: &[FieldPath],
) -> Result<Option<Write>, WriteFault>
    ensures ok { S.is_honest store.new → IfOk result (λ write. IfThere (map.get (S.contents store.old) db.now) (λ d.
        index_outcome terms.old id.now (history_at d id.now) name.now fields.now ≡ Ok
        (option_map (λ w. written_in (history_at d id.now) (addition_of w)) write))) }
    ensures refused { S.is_honest store.new → IfErr result (λ fault. IsOwn fault
        → IfThere (map.get (S.contents store.old) db.now) (λ d. index_outcome terms.old id.now (history_at d id.now) name.now fields.now ≡ Err fault)) }
    ensures headed { IfOk result (λ write. IfSome write (λ w. 0 < length w.path.items)) }
    ensures edits { IfErr result (λ fault. fault ≢ WriteFault.BadHistory) }
    ensures passed { IfErr result (Refuses S.Store store.old store.new (map.get (S.contents store.old) db.now ≡ None) ⊥) }
    ensures reads { OnlyReads S.Store store.old store.new }
{
    if let Some(rule) = terms.find_design_refusal(id) {
        return Err(WriteFault::Denied(rule));
    }
    let index = build_index(alloc, fields)?;
    let Winner { rev, body } = read_winner(store, db, id)?;
    if declares(alloc, &body, name, &index)? {
        return Ok(None);
    }
    let document = build_document(alloc, body, name, index)?;
    let write = judge_edit(alloc, store, db, terms, id, rev, document)?;
    Ok(Some(write))
}

/// The winner of a document, as an edit goes on from it.
#[derive(Drop)]
struct Winner {
    /// Its revision, if there is one.
    rev: Option<Rev>,
    /// Its body, where it is not deleted.
    body: Option<Json>,
}

/// Reads the winner of a document. The body that is held of it is not copied.
fn read_winner<S: Store>(store: &mut S, db: &DbName, id: &DocId) -> Result<Winner, WriteFault>
    ensures rev { S.is_honest store.new → IfOk result (λ read. IfThere (map.get (S.contents store.old) db.now) (λ d. read.rev ≡ winner (history_at d id.now))) }
    ensures body { S.is_honest store.new
        → IfOk result (λ read. IfThere (map.get (S.contents store.old) db.now) (λ d. option_map view read.body ≡ winning_body (history_at d id.now))) }
    ensures only { IfErr result IsOfStoreOrMemory }
    ensures passed { IfErr result (Refuses S.Store store.old store.new (map.get (S.contents store.old) db.now ≡ None) ⊥) }
    ensures reads { OnlyReads S.Store store.old store.new }
{
    let Some(HeldWinner { rev, deleted, body }) = read_held_winner(store, db, id)? else {
        return Ok(Winner {
            rev: None,
            body: None,
        });
    };
    Ok(Winner {
        rev: Some(rev),
        body: if deleted { None } else { Some(body) },
    })
}

/// Tells whether a body, if there is one, declares this index under the name.
fn declares(alloc: Global, body: &Option<Json>, name: &str, index: &Json) -> Got<bool>
    ensures { IfOk result (λ has. has ≡ declares (option_map view body.now) name.now (view index.now)) }
{
    let Some(body) = body else {
        return Ok(false);
    };
    match find_index(alloc, body, name)? {
        Some(declared) => Ok(collate(declared, index).is_eq()),
        None => Ok(false),
    }
}

/// Builds an index of these fields, as it stands in a design document.
fn build_index(alloc: Global, fields: &[FieldPath]) -> Got<Json>
    ensures { IfOk result (λ index. view index ≡ index_value fields.now) }
{
    let texts = list_texts(alloc, fields)?;
    let mut members = NameMap::new(alloc);
    put_member(alloc, &mut members, "fields", Json::Array(texts))?;
    Ok(Json::Object(members))
}

/// Lists the texts of the fields.
fn list_texts(alloc: Global, fields: &[FieldPath]) -> Got<Vec<Json>>
    ensures { IfOk result (λ texts. each view texts.items ≡ each text_value fields.now) }
{
    let mut texts = Vec::with_capacity(alloc, fields.len())?;
    for field in fields {
        texts.push(Json::Text(String::from_str(alloc, field.as_str())?))?;
    }
    Ok(texts)
}

/// Builds the design document with this body, if there is one, and with this index.
fn build_document(alloc: Global, body: Option<Json>, name: &str, index: Json) -> Got<Json>
    ensures { IfOk result (λ document. view document ≡ with_index name.now (view index) (option_map view body)) }
{
    let mut members = into_members(alloc, body);
    let mut indexes = take_indexes(alloc, &mut members)?;
    put_member(alloc, &mut indexes, name, index)?;
    put_member(alloc, &mut members, "indexes", Json::Object(indexes))?;
    Ok(Json::Object(members))
}

/// Takes out the members of the value of `indexes`, if there is one that is an object. Null stands there
/// then.
fn take_indexes(alloc: Global, members: &mut NameMap<Json>) -> Got<NameMap<Json>>
    ensures value { IfOk result (λ indexes. members_view indexes.entries ≡ members_if (member_at (codes "indexes") (members_view members.old.entries))) }
    ensures null { OnOk result (members_view members.new.entries ≡ put (codes "indexes") null (members_view members.old.entries)) }
{
    let name = String::from_str(alloc, "indexes")?;
    let indexes = members.insert(name, Json::Null)?;
    Ok(into_members(alloc, indexes))
}

/// Returns the members of a value, or none where there is no value or it is no object.
fn into_members(alloc: Global, value: Option<Json>) -> NameMap<Json>
    ensures { members_view result.entries ≡ members_if (option_map view value) }
{
    match value {
        Some(Json::Object(members)) => members,
        _ => NameMap::new(alloc),
    }
}
