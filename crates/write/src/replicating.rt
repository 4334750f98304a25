//! What becomes of a replicated write of a document.

ghost use Rattle.std.specs.Prelude.{◌≡◌, ◌≢◌, ◌∷◌, [], ◌<◌, IfOk, IfErr, IfSome, Ok, Err, None, false, true, is_some, option_map, length};
ghost use Rattle.std.specs.FinMap as map;
ghost use Rattle.couch_json.specs.View.{view};
ghost use Rattle.tree.specs.DocumentId.{is_local_id};
ghost use Rattle.tree.specs.History.{HistoryContent};
ghost use Rattle.store.specs.Calls.{OnlyReads};
ghost use Rattle.store.specs.Contents.{IfThere};
ghost use Rattle.store.specs.Writing.{addition_of, written_in};
ghost use Rattle.write.specs.Admission.{ancestry_placement, placement_outcome, replicated_outcome, replication};
ghost use Rattle.write.specs.inner.AncestryRead.{ancestry_of};
ghost use Rattle.write.specs.Bulk.{writes_alone};
ghost use Rattle.write.specs.BulkResults.{IsUnrefused, OfFirst};
ghost use Rattle.write.specs.Planning.{Plans, planned_writes};
ghost use Rattle.write.specs.Refusing.{IsDecided, IsOwn, Refuses};
ghost use Rattle.write.specs.Terms.{terms_in};

use crate::ancestry::{Ancestry, find_ancestry, take_given};
use crate::denial::{find_nearest_held, find_rule_refusal};
use crate::document::{ParsedDocument, read_sent};
use crate::fault::WriteFault;
use crate::planned::Planned;
use crate::planning::{plan_alone, read_label};
use crate::request_terms::RequestTerms;
use auth::Caller;
use couch_json::Json;
use std::alloc::Global;
use store::{DbName, Store, Write};
use tree::{DocId, History, Placed, TreeFault};

/// What a replicated document says.
#[derive(Drop)]
pub(crate) struct Replica {
    /// What it says besides its history.
    pub(crate) sent: ParsedDocument,
    /// The history that it comes with.
    pub(crate) ancestry: Ancestry,
}

/// Plans what becomes of a replicated document, which is no local one. It reads the store and changes
/// nothing.
///
/// The document comes with its path: `_revisions`, or its one revision. Where its revision is known
/// there is nothing to write. `BadDocument` comes if and only if the document is no object, has a
/// special member that no document has or one of another form, comes with no path, has a body that
/// nests more than 100 deep, or is a design document that declares what it may not; else `Denied`
/// where it is a design document that the caller may not write; else `BadHistory` where the path is
/// not whole or gives a known revision another parent; `Denied` where the revision is new and an
/// update rule does not hold, by the first such rule; `Store(NoDatabase)` if and only if there is no
/// database of this name, and before these. See the CouchDB manual, api/document/common and
/// replication/conflicts.
pub fn replicated<S: Store>(
    alloc: Global,
    store: &mut S,
    db: &DbName,
    caller: &Caller,
    id: &DocId,
    document: Json,
) -> Result<Planned, WriteFault>
    requires { is_local_id id.now ≡ false }
    ensures there { S.is_honest store.new → IsDecided result → is_some (map.get (S.contents store.old) db.now) ≡ true }
    ensures ok { S.is_honest store.new → IfOk result (λ planned. IfThere (map.get (S.contents store.old) db.now) (λ d.
        writes_alone (replication (terms_in caller.now db.now d) d id.now (view document)) ≡ Ok (planned_writes d planned.changes))) }
    ensures plan { S.is_honest store.new → IfOk result (λ planned. IfThere (map.get (S.contents store.old) db.now) (λ d.
        Plans d (view document ∷ []) (replication (terms_in caller.now db.now d) d id.now (view document) ∷ []) planned)) }
    ensures unrefused { IfOk result (λ planned. OfFirst IsUnrefused planned.results.items) }
    ensures database { IfOk result (λ planned. planned.database ≡ db.now) }
    ensures refused { S.is_honest store.new → IfErr result (λ fault. IsOwn fault
        → IfThere (map.get (S.contents store.old) db.now) (λ d. replication (terms_in caller.now db.now d) d id.now (view document) ≡ Err fault)) }
    ensures replicates { IfErr result (λ fault. (fault ≢ WriteFault.Conflict) × (fault ≢ WriteFault.Generation)) }
    ensures passed { IfErr result (Refuses S.Store store.old store.new (map.get (S.contents store.old) db.now ≡ None) ⊥) }
    ensures reads { OnlyReads S.Store store.old store.new }
{
    let mut terms = RequestTerms::read(alloc, store, db, caller)?;
    let label = read_label(alloc, &document)?;
    let replica = read_replica(alloc, &terms, id, document)?;
    let history = store.history(db, id)?;
    let write = place(alloc, &mut terms, &history, id, replica)?;
    Ok(plan_alone(alloc, db, label, write)?)
}

/// Reads what a replicated document says, where it is a good one that the caller may write at all. It
/// asks for no history.
pub(crate) fn read_replica(
    alloc: Global,
    terms: &RequestTerms,
    id: &DocId,
    document: Json,
) -> Result<Replica, WriteFault>
    ensures ok { IfOk result (λ replica. (h : HistoryContent) → replicated_outcome terms.now id.now h (view document)
        ≡ placement_outcome terms.now id.now h replica.sent (ancestry_of replica.ancestry)) }
    ensures fault { IfErr result
        (λ fault. fault ≢ WriteFault.Memory → (h : HistoryContent) → replicated_outcome terms.now id.now h (view document) ≡ Err fault) }
    ensures others { IfErr result (λ fault. (fault ≢ WriteFault.Conflict) × (fault ≢ WriteFault.Generation) × ((cause : _) → fault ≢ WriteFault.Store cause)) }
    ensures unplaced { IfErr result (λ fault. fault ≢ WriteFault.BadHistory) }
{
    let (given, document) = take_given(alloc, document)?;
    let Some(sent) = read_sent(alloc, id, document)? else {
        return Err(WriteFault::BadDocument);
    };
    let Some(ancestry) = find_ancestry(alloc, given, sent.rev)? else {
        return Err(WriteFault::BadDocument);
    };
    if let Some(rule) = terms.find_design_refusal(id) {
        return Err(WriteFault::Denied(rule));
    }
    Ok(Replica { sent, ancestry })
}

/// Writes what is sent where the history has a place for this path as that of a new revision; nothing
/// where the revision is known.
pub(crate) fn place(
    alloc: Global,
    terms: &mut RequestTerms,
    history: &History,
    id: &DocId,
    replica: Replica,
) -> Result<Option<Write>, WriteFault>
    ensures ok { IfOk result
        (λ write. placement_outcome terms.old id.now history.now replica.sent (ancestry_of replica.ancestry)
        ≡ Ok (option_map (λ w. written_in history.now (addition_of w)) write)) }
    ensures headed { IfOk result (λ write. IfSome write (λ w. 0 < length w.path.items)) }
    ensures fault { IfErr result (λ fault. fault ≢ WriteFault.Memory
        → placement_outcome terms.old id.now history.now replica.sent (ancestry_of replica.ancestry) ≡ Err fault) }
    ensures others { IfErr result (λ fault. (fault ≢ WriteFault.Conflict) × (fault ≢ WriteFault.Generation) × ((cause : _) → fault ≢ WriteFault.Store cause)) }
    ensures terms { terms.new ≡ terms.old }
{
    let Replica { sent, ancestry } = replica;
    match find_place(history, &ancestry) {
        Ok(Placed::Added) => {}
        Ok(Placed::Known) => return Ok(None),
        Err(_) => return Err(WriteFault::BadHistory),
    }
    let old = find_nearest_held(history, &ancestry.path);
    if let Some(rule) = find_rule_refusal(alloc, terms, history, id, &sent, old)? {
        return Err(WriteFault::Denied(rule));
    }
    Ok(Some(Write {
        id: id.copy(alloc)?,
        path: ancestry.path,
        parent: None,
        deleted: sent.deleted,
        body: sent.body.into_json(),
    }))
}

/// Finds the place that the history has for this path, if it has as many revisions as it says.
fn find_place(history: &History, ancestry: &Ancestry) -> Result<Placed, TreeFault>
    ensures { result ≡ ancestry_placement history.now (ancestry_of ancestry.now) }
{
    if ancestry.start as usize != ancestry.path.len() {
        return Err(TreeFault::BadPath);
    }
    history.placement(&ancestry.path)
}
