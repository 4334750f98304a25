//! The documents of a database that match a selector.

ghost use Rattle.std.specs.Prelude.{◌≡◌, IfOk, IfErr, None, Some, option_map};
ghost use Rattle.std.specs.FinMap as map;
ghost use Rattle.couch_json.specs.View.{view};
ghost use Rattle.store.specs.Calls.{OnlyReads};
ghost use Rattle.store.specs.Database.{Database, history_at};
ghost use Rattle.store.specs.Indexes.{queried_document, shown_by};
ghost use Rattle.store.specs.Pages.{live_rev};
ghost use Rattle.read.specs.Answers.{Stops};
ghost use Rattle.find.specs.inner.Matching.{match_in};
ghost use Rattle.find.specs.inner.Sources.{IsCandidate};

use crate::candidate::Candidate;
use couch_json::Json;
use read::ReadFault;
use selector::Selector;
use std::alloc::Global;
use store::{DbName, Store, read_winning, show_queried, take_winner};
use tree::{DocId, Rev, show};

/// Reads a candidate as queries see it, if it matches.
pub(crate) fn read_match<S: Store>(
    alloc: Global,
    store: &mut S,
    db: &DbName,
    candidate: &Candidate,
    selector: &Selector,
) -> Result<Option<Json>, ReadFault>
    requires { S.is_honest store.old → (d : Database) → map.get (S.contents store.old) db.now ≡ Some d → IsCandidate d candidate.now }
    ensures ok { S.is_honest store.new → IfOk result (λ document. (d : Database) → map.get (S.contents store.old) db.now ≡ Some d
        → option_map view document ≡ match_in selector.now d candidate.now.id) }
    ensures stops { IfErr result (Stops S.Store store.old store.new (map.get (S.contents store.old) db.now ≡ None)) }
    ensures reads { OnlyReads S.Store store.old store.new }
{
    match read_queried(alloc, store, db, candidate)? {
        Some(document) if selector.matches(&document) => Ok(Some(document)),
        _ => Ok(None),
    }
}

/// Reads a candidate as queries see it. A design document is not read, and no winner is looked for that is
/// known.
#[tactic(auto, using(store::proofs::Winnings::queried_alone))]
fn read_queried<S: Store>(
    alloc: Global,
    store: &mut S,
    db: &DbName,
    candidate: &Candidate,
) -> Result<Option<Json>, ReadFault>
    requires { S.is_honest store.old → (d : Database) → map.get (S.contents store.old) db.now ≡ Some d → IsCandidate d candidate.now }
    ensures ok { S.is_honest store.new → IfOk result (λ document. (d : Database) → map.get (S.contents store.old) db.now ≡ Some d
        → option_map view document ≡ queried_document candidate.now.id (history_at d candidate.now.id)) }
    ensures stops { IfErr result (Stops S.Store store.old store.new (map.get (S.contents store.old) db.now ≡ None)) }
    ensures reads { OnlyReads S.Store store.old store.new }
{
    let id = &candidate.id;
    if id.is_design() {
        return Ok(None);
    }
    if let Some(rev) = &candidate.rev {
        return Ok(Some(read_live(alloc, store, db, id, rev)?));
    }
    let history = read_winning(alloc, store, db, id)?;
    Ok(show_queried(alloc, id, &history)?)
}

/// Reads a document as its winner shows it, which this is and which is not deleted.
fn read_live<S: Store>(
    alloc: Global,
    store: &mut S,
    db: &DbName,
    id: &DocId,
    rev: &Rev,
) -> Result<Json, ReadFault>
    requires { S.is_honest store.old → (d : Database) → map.get (S.contents store.old) db.now ≡ Some d
        → live_rev (history_at d id.now) ≡ Some rev.now }
    ensures ok { S.is_honest store.new → IfOk result (λ document. (d : Database) → map.get (S.contents store.old) db.now ≡ Some d
        → Some (view document) ≡ shown_by id.now (history_at d id.now) (Some rev.now)) }
    ensures stops { IfErr result (Stops S.Store store.old store.new (map.get (S.contents store.old) db.now ≡ None)) }
    ensures reads { OnlyReads S.Store store.old store.new }
{
    let known = store.revision(db, id, rev)?;
    let body = take_winner(known, false)?;
    Ok(show(alloc, id, rev, false, &body)?)
}
