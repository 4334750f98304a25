//! Edits that follow the winner of a document, by as much of its history as they ask.

ghost use Rattle.std.specs.Prelude.{◌≡◌, ◌≢◌, ◌<◌, IfOk, IfErr, None, Some, Ok, Err, is_some, length, true};
ghost use Rattle.std.specs.FinMap as map;
ghost use Rattle.couch_json.specs.Parts.{is_there_and};
ghost use Rattle.couch_json.specs.View.{view};
ghost use Rattle.tree.specs.History.{HistoryContent, is_known};
ghost use Rattle.tree.specs.Outline.{marked_winner};
ghost use Rattle.store.specs.Calls.{OnlyReads};
ghost use Rattle.store.specs.Contents.{IfThere};
ghost use Rattle.store.specs.Database.{history_at};
ghost use Rattle.store.specs.Writing.{addition_of, written_in};
ghost use Rattle.write.specs.Admission.{edit_outcome, next_edit, parent_for_edit, rule_refusal};
ghost use Rattle.write.specs.inner.Following.{IsFollowed, edit_following};
ghost use Rattle.write.specs.Refusing.{IsDecided, IsOfStoreOrMemory, IsOwn, Refuses};
ghost use Rattle.write.specs.declared.document.ParsedDocument.{ParsedDocument};

use crate::admission::{
    admit_sent, allow_revision, make_revision, make_write, read_allowed, write_next,
};
use crate::document::ParsedDocument;
use crate::fault::WriteFault;
use crate::request_terms::RequestTerms;
use couch_json::Json;
use std::alloc::Global;
use store::{DbName, Store, Write, take_held};
use tree::{DocId, History, MarkedRev, Rev};

/// What the winner alone says of the revision that an edit follows.
#[derive(Clone, Copy, Drop)]
pub(crate) enum Followed {
    /// The edit follows no revision, since the document was never written.
    New,
    /// The edit follows this revision.
    Leaf(Rev),
    /// There is none that it may follow.
    Conflict,
    /// The winner alone doesn't decide: the history is needed.
    NeedsHistory,
}

/// Judges an edit of a stored document: its write, or why it is refused.
pub(crate) fn judge_edit<S: Store>(
    alloc: Global,
    store: &mut S,
    db: &DbName,
    terms: &mut RequestTerms,
    id: &DocId,
    query: Option<Rev>,
    document: Json,
) -> Result<Write, WriteFault>
    ensures ok { S.is_honest store.new → IfOk result (λ write. IfThere (map.get (S.contents store.old) db.now) (λ d.
        edit_outcome terms.old id.now (history_at d id.now) query (view document) ≡ Ok (written_in (history_at d id.now) (addition_of write)))) }
    ensures refused { S.is_honest store.new → IfErr result (λ fault. IsOwn fault
        → IfThere (map.get (S.contents store.old) db.now) (λ d. edit_outcome terms.old id.now (history_at d id.now) query (view document) ≡ Err fault)) }
    ensures headed { IfOk result (λ write. 0 < length write.path.items) }
    ensures edits { IfErr result (λ fault. fault ≢ WriteFault.BadHistory) }
    ensures passed { IfErr result (Refuses S.Store store.old store.new (map.get (S.contents store.old) db.now ≡ None) ⊥) }
    ensures reads { OnlyReads S.Store store.old store.new }
{
    let sent = read_allowed(alloc, terms, id, query, document)?;
    judge_sent(alloc, store, db, terms, id, sent)
}

/// Finds what an edit that names this revision, or none, follows, as far as the winner tells.
fn find_followed(winner: Option<MarkedRev>, rev: Option<Rev>) -> Followed
    ensures { (h : HistoryContent) → winner ≡ marked_winner h → IsFollowed h (parent_for_edit h rev) result }
{
    match rev {
        None => follow_winner(winner),
        Some(rev) => follow_named(winner, rev),
    }
}

/// Finds what an edit that names no revision follows.
fn follow_winner(winner: Option<MarkedRev>) -> Followed
    ensures { (h : HistoryContent) → winner ≡ marked_winner h → IsFollowed h (parent_for_edit h None) result }
{
    match winner {
        None => Followed::New,
        Some(winner) => {
            if winner.deleted {
                Followed::Leaf(winner.rev)
            } else {
                Followed::Conflict
            }
        }
    }
}

/// Finds what an edit that names this revision follows.
fn follow_named(winner: Option<MarkedRev>, rev: Rev) -> Followed
    ensures { (h : HistoryContent) → winner ≡ marked_winner h → IsFollowed h (parent_for_edit h (Some rev)) result }
{
    match winner {
        None => Followed::Conflict,
        Some(winner) => {
            if winner.rev.cmp(&rev).is_eq() {
                Followed::Leaf(rev)
            } else {
                Followed::NeedsHistory
            }
        }
    }
}

/// Judges what an edit says of a document that was never written.
fn judge_new(
    alloc: Global,
    terms: &mut RequestTerms,
    id: &DocId,
    sent: ParsedDocument,
) -> Result<Write, WriteFault>
    ensures ok { IfOk result (λ write. next_edit terms.old id.now map.empty sent None ≡ Ok (written_in map.empty (addition_of write))) }
    ensures headed { IfOk result (λ write. 0 < length write.path.items) }
    ensures fault { IfErr result (λ fault. fault ≢ WriteFault.Memory → next_edit terms.old id.now map.empty sent None ≡ Err fault) }
    ensures others { IfErr result (λ fault. (fault ≢ WriteFault.BadHistory) × ((cause : _) → fault ≢ WriteFault.Store cause)) }
{
    let history = History::new(alloc);
    write_next(alloc, terms, &history, id, sent, None)
}

/// Tells whether the document has the revision, if there is one.
fn is_known<S: Store>(
    store: &mut S,
    db: &DbName,
    id: &DocId,
    rev: Option<Rev>,
) -> Result<bool, WriteFault>
    ensures known { S.is_honest store.new
        → IfOk result (λ known. IfThere (map.get (S.contents store.old) db.now) (λ d. known ≡ is_there_and (is_known (history_at d id.now)) rev)) }
    ensures only { IfErr result IsOfStoreOrMemory }
    ensures passed { IfErr result (Refuses S.Store store.old store.new (map.get (S.contents store.old) db.now ≡ None) ⊥) }
    ensures reads { OnlyReads S.Store store.old store.new }
{
    match rev {
        Some(rev) => Ok(store.revision(db, id, &rev)?.is_some()),
        None => Ok(false),
    }
}

/// Reads what is held of the revision that an edit follows, as a history of its own; it is empty where no
/// rule looks at it.
fn read_followed<S: Store>(
    alloc: Global,
    store: &mut S,
    db: &DbName,
    id: &DocId,
    terms: &RequestTerms,
    rev: Option<Rev>,
) -> Result<History, WriteFault>
    ensures ruled { S.is_honest store.new → IfOk result (λ history. IfThere (map.get (S.contents store.old) db.now) (λ d. (sent : ParsedDocument)
        → rule_refusal terms.now id.now (history_at d id.now) sent rev ≡ rule_refusal terms.now id.now history sent rev)) }
    ensures only { IfErr result IsOfStoreOrMemory }
    ensures passed { IfErr result (Refuses S.Store store.old store.new (map.get (S.contents store.old) db.now ≡ None) ⊥) }
    ensures reads { OnlyReads S.Store store.old store.new }
{
    let mut history = History::new(alloc);
    let Some(rev) = rev else {
        return Ok(history);
    };
    if id.is_design() || terms.has_no_rules() {
        return Ok(history);
    }
    let known = store.revision(db, id, &rev)?;
    history.put_revision(rev, None, take_held(known))?;
    Ok(history)
}

/// Judges what an edit says, which follows this revision or none.
fn judge_next<S: Store>(
    alloc: Global,
    store: &mut S,
    db: &DbName,
    terms: &mut RequestTerms,
    id: &DocId,
    sent: ParsedDocument,
    parent: Option<Rev>,
) -> Result<Write, WriteFault>
    ensures ok { S.is_honest store.new → IfOk result (λ write. IfThere (map.get (S.contents store.old) db.now) (λ d.
        next_edit terms.old id.now (history_at d id.now) sent parent ≡ Ok (written_in (history_at d id.now) (addition_of write)))) }
    ensures refused { S.is_honest store.new → IfErr result (λ fault. IsOwn fault
        → IfThere (map.get (S.contents store.old) db.now) (λ d. next_edit terms.old id.now (history_at d id.now) sent parent ≡ Err fault)) }
    ensures headed { IfOk result (λ write. 0 < length write.path.items) }
    ensures edits { IfErr result (λ fault. fault ≢ WriteFault.BadHistory) }
    ensures passed { IfErr result (Refuses S.Store store.old store.new (map.get (S.contents store.old) db.now ≡ None) ⊥) }
    ensures reads { OnlyReads S.Store store.old store.new }
{
    let next = make_revision(alloc, &sent, parent)?;
    if is_known(store, db, id, next)? {
        return Err(WriteFault::Conflict);
    }
    let history = read_followed(alloc, store, db, id, terms, parent)?;
    let rev = allow_revision(alloc, terms, &history, id, &sent, parent, next)?;
    Ok(make_write(alloc, id, rev, parent, sent.deleted, sent.body)?)
}

/// Judges what an edit says by the whole history of its document.
fn judge_whole<S: Store>(
    alloc: Global,
    store: &mut S,
    db: &DbName,
    terms: &mut RequestTerms,
    id: &DocId,
    sent: ParsedDocument,
) -> Result<Write, WriteFault>
    ensures ok { S.is_honest store.new → IfOk result (λ write. IfThere (map.get (S.contents store.old) db.now) (λ d.
        edit_following terms.old id.now (history_at d id.now) sent ≡ Ok (written_in (history_at d id.now) (addition_of write)))) }
    ensures refused { S.is_honest store.new → IfErr result (λ fault. IsOwn fault
        → IfThere (map.get (S.contents store.old) db.now)
        (λ d. edit_following terms.old id.now (history_at d id.now) sent ≡ Err fault)) }
    ensures headed { IfOk result (λ write. 0 < length write.path.items) }
    ensures edits { IfErr result (λ fault. fault ≢ WriteFault.BadHistory) }
    ensures passed { IfErr result (Refuses S.Store store.old store.new (map.get (S.contents store.old) db.now ≡ None) ⊥) }
    ensures reads { OnlyReads S.Store store.old store.new }
{
    let history = store.history(db, id)?;
    admit_sent(alloc, terms, &history, id, sent)
}

/// Judges what an edit says: by the winner of its document where that tells what it follows, else by the
/// whole history.
fn judge_sent<S: Store>(
    alloc: Global,
    store: &mut S,
    db: &DbName,
    terms: &mut RequestTerms,
    id: &DocId,
    sent: ParsedDocument,
) -> Result<Write, WriteFault>
    ensures ok { S.is_honest store.new → IfOk result (λ write. IfThere (map.get (S.contents store.old) db.now) (λ d.
        edit_following terms.old id.now (history_at d id.now) sent ≡ Ok (written_in (history_at d id.now) (addition_of write)))) }
    ensures refused { S.is_honest store.new → IfErr result (λ fault. IsOwn fault
        → IfThere (map.get (S.contents store.old) db.now)
        (λ d. edit_following terms.old id.now (history_at d id.now) sent ≡ Err fault)) }
    ensures headed { IfOk result (λ write. 0 < length write.path.items) }
    ensures edits { IfErr result (λ fault. fault ≢ WriteFault.BadHistory) }
    ensures passed { IfErr result (Refuses S.Store store.old store.new (map.get (S.contents store.old) db.now ≡ None) ⊥) }
    ensures reads { OnlyReads S.Store store.old store.new }
{
    let winner = store.winner(db, id)?;
    match find_followed(winner, sent.rev) {
        Followed::New => judge_new(alloc, terms, id, sent),
        Followed::Leaf(parent) => judge_next(alloc, store, db, terms, id, sent, Some(parent)),
        Followed::Conflict => Err(WriteFault::Conflict),
        Followed::NeedsHistory => judge_whole(alloc, store, db, terms, id, sent),
    }
}
