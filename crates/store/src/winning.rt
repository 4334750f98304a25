//! What is read of a document's winner.

ghost use Rattle.std.specs.Prelude.{◌≡◌, IfErr, IfOk, Some, option_and_then, option_map};
ghost use Rattle.std.specs.FinMap as map;
ghost use Rattle.couch_json.specs.View.{view};
ghost use Rattle.store.specs.Calls.{Answers, OnlyReads};
ghost use Rattle.store.specs.Database.{history_at};
ghost use Rattle.store.specs.Winning.{IsHeldSo, as_held, held_winner, winner_alone};

use crate::database_name::DbName;
use crate::fault::StoreFault;
use crate::store::Store;
use couch_json::Json;
use std::alloc::Global;
use tree::{DocId, Entry, History, Rev};

/// The winner of a document, with what is held of it.
#[derive(Drop)]
pub struct HeldWinner {
    /// Its revision.
    pub rev: Rev,
    /// Whether it deleted the document.
    pub deleted: bool,
    /// Its body.
    pub body: Json,
}

/// Reads the winner of a document as a history of its own, empty where the document was never written.
///
/// Queries and rules see the same of it as of the whole history. `NoDatabase` comes if and only if
/// there is no database of this name.
pub fn read_winning<S: Store>(
    alloc: Global,
    store: &mut S,
    db: &DbName,
    id: &DocId,
) -> Result<History, StoreFault>
    ensures answer { Answers S.Store store.old store.new (λ history. history)
        (option_map (λ d. winner_alone (history_at d id.now)) (map.get (S.contents store.old) db.now)) result }
    ensures reads { OnlyReads S.Store store.old store.new }
{
    let mut history = History::new(alloc);
    if let Some(winner) = read_held_winner(store, db, id)? {
        history.put_revision(winner.rev, None, Some((winner.deleted, winner.body)))?;
    }
    Ok(history)
}

/// Reads the winner of a document with what is held of it, or `None` where it was never written.
///
/// `NoDatabase` comes if and only if there is no database of this name.
pub fn read_held_winner<S: Store>(
    store: &mut S,
    db: &DbName,
    id: &DocId,
) -> Result<Option<HeldWinner>, StoreFault>
    ensures answer { Answers S.Store store.old store.new (option_map as_held)
        (option_map (λ d. held_winner (history_at d id.now)) (map.get (S.contents store.old) db.now)) result }
    ensures reads { OnlyReads S.Store store.old store.new }
{
    let Some(winner) = store.winner(db, id)? else {
        return Ok(None);
    };
    let known = store.revision(db, id, &winner.rev)?;
    let body = take_winner(known, winner.deleted)?;
    Ok(Some(HeldWinner {
        rev: winner.rev,
        deleted: winner.deleted,
        body,
    }))
}

/// Takes the body out of what is known of the winner of a document, which has this mark where the
/// documents are listed.
///
/// `Damaged` comes if and only if nothing is held of it under this mark. Of what was written that never
/// is so: a row of the document is gone, or says something else than it said.
pub fn take_winner(known: Option<Entry>, deleted: bool) -> Result<Json, StoreFault>
    ensures ok { IfOk result (λ body. option_and_then (λ e. e.held) known ≡ Some (record { deleted = deleted; body = view body })) }
    ensures err { IfErr result (λ fault. (fault ≡ StoreFault.Damaged) × ¬ IsHeldSo deleted (option_and_then (λ e. e.held) known)) }
{
    let Some((marked, body)) = take_held(known) else {
        return Err(StoreFault::Damaged);
    };
    if marked != deleted {
        return Err(StoreFault::Damaged);
    }
    Ok(body)
}

/// Takes the mark and the body out of what is known of a revision, if they are there.
pub fn take_held(known: Option<Entry>) -> Option<(bool, Json)>
    ensures { option_map (λ h. record { deleted = h.0; body = view h.1 }) result ≡ option_and_then (λ e. e.held) known }
{
    let held = known?.into_held()?;
    Some((held.deleted, held.body.into_json()))
}
