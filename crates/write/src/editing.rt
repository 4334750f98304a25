ghost use Rattle.std.specs.Prelude.{◌≡◌, ◌≢◌, ◌∷◌, [], false, true, IfOk, IfErr, None, Ok, Err, is_some};
ghost use Rattle.std.specs.FinMap as map;
ghost use Rattle.couch_json.specs.View.{view};
ghost use Rattle.tree.specs.DocumentId.{is_local_id};
ghost use Rattle.store.specs.Calls.{OnlyReads};
ghost use Rattle.store.specs.Contents.{IfThere};
ghost use Rattle.write.specs.Admission.{admission};
ghost use Rattle.write.specs.Bulk.{as_outcome, writes_alone};
ghost use Rattle.write.specs.BulkResults.{IsMadeOutcome, OfFirst};
ghost use Rattle.write.specs.Planning.{Plans, planned_writes};
ghost use Rattle.write.specs.Refusing.{IsDecided, IsOwn, Refuses};
ghost use Rattle.write.specs.Terms.{terms_in};

use crate::fault::WriteFault;
use crate::following::judge_edit;
use crate::planned::Planned;
use crate::planning::{plan_alone, read_label};
use crate::request_terms::RequestTerms;
use auth::Caller;
use couch_json::Json;
use std::alloc::Global;
use store::{DbName, Store};
use tree::{DocId, Rev};

/// Plans what becomes of an edit of a document that is no local one. It reads the store and changes
/// nothing.
///
/// The edit names a revision by `query`, by the document's `_rev`, or by both alike, and then goes on
/// from this revision, a leaf, deleted or not. Without one an unknown document is created, and where
/// the winner is deleted the edit follows it. With `_deleted: true` the new revision is deleted.
/// `BadDocument` comes if and only if the document is no object, has a special member that no
/// document has or one of another form, names another revision than `query`, has a body that nests
/// more than 100 deep, or is a design document that declares what it may not; else `Denied` where it
/// is a design document that the caller may not write; else `Conflict` where there is no such leaf to
/// go on from, or the new revision is known already; else `Denied` where an update rule does not
/// hold, by the first such rule; `Generation` where the leaf has the greatest number;
/// `Store(NoDatabase)` if and only if there is no database of this name, and before these. See the
/// CouchDB manual, api/document/common.
pub fn edit<S: Store>(
    alloc: Global,
    store: &mut S,
    db: &DbName,
    caller: &Caller,
    id: &DocId,
    query: Option<Rev>,
    document: Json,
) -> Result<Planned, WriteFault>
    requires { is_local_id id.now ≡ false }
    ensures there { S.is_honest store.new → IsDecided result → is_some (map.get (S.contents store.old) db.now) ≡ true }
    ensures ok { S.is_honest store.new → IfOk result (λ planned. IfThere (map.get (S.contents store.old) db.now) (λ d.
        writes_alone (as_outcome (admission (terms_in caller.now db.now d) d id.now query (view document))) ≡ Ok (planned_writes d planned.changes))) }
    ensures plan { S.is_honest store.new → IfOk result (λ planned. IfThere (map.get (S.contents store.old) db.now) (λ d.
        Plans d (view document ∷ []) (as_outcome (admission (terms_in caller.now db.now d) d id.now query (view document)) ∷ []) planned)) }
    ensures made { IfOk result (λ planned. OfFirst IsMadeOutcome planned.results.items) }
    ensures database { IfOk result (λ planned. planned.database ≡ db.now) }
    ensures refused { S.is_honest store.new → IfErr result (λ fault. IsOwn fault
        → IfThere (map.get (S.contents store.old) db.now) (λ d. admission (terms_in caller.now db.now d) d id.now query (view document) ≡ Err fault)) }
    ensures edits { IfErr result (λ fault. fault ≢ WriteFault.BadHistory) }
    ensures passed { IfErr result (Refuses S.Store store.old store.new (map.get (S.contents store.old) db.now ≡ None) ⊥) }
    ensures reads { OnlyReads S.Store store.old store.new }
{
    let mut terms = RequestTerms::read(alloc, store, db, caller)?;
    let label = read_label(alloc, &document)?;
    let write = judge_edit(alloc, store, db, &mut terms, id, query, document)?;
    Ok(plan_alone(alloc, db, label, Some(write))?)
}
