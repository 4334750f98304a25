//! Design documents of a commit, whose indexes follow them at its end, all together.

ghost use Rattle.std.specs.Prelude.{◌≡◌, ◌≢◌, IfErr, IfOk, IsTrue, OnOk, [], map, true, ⊤};
ghost use Rattle.sqlite.specs.Held.{state};
ghost use Rattle.sqlite.specs.State.{HasCleanDisk, KeepsCommit};
ghost use Rattle.tables.specs.Calls.{AsksInside};
ghost use Rattle.tables.specs.Schema.{schema};
ghost use Rattle.index.specs.Declaring.{IsRebuildable};
ghost use Rattle.index.specs.Meaning.{Declarations, Documents};
ghost use Rattle.index.specs.Shown.{declared};
ghost use Rattle.index.specs.Steps.{AreFit};
ghost use Rattle.transactions.specs.Commits.{IsUnwritten};
ghost use Rattle.transactions.specs.Indexing.{AreAllIndexes, IsIndexedStoreBut, IsNoted, IsWithId};
ghost use Rattle.transactions.specs.inner.Postponing.{AreClearedAsStored, AreDeclaredAsStored, AreToDeclare, IsCaughtUp, IsClearedAsStored, IsDeclaredAsStored};
ghost use Rattle.transactions.specs.inner.Postponing.{IsToDeclareAsStored};
ghost use Rattle.transactions.specs.inner.Calls.{Finds, MakesStep, open_in};

use crate::commit_fault::CommitFault;
use crate::indexing::list_unknown;
use crate::seeing::{find_winner, find_winning};
use crate::winners::is_same_winner;
use couch_json::Got;
use index::{Declaration, clear_design, declare_design, fill_indexes};
use sqlite::{Alter, Transaction};
use std::alloc::Global;
use std::collections::BTreeSet;
use store::find_winning_body;
use tree::{DocId, MarkedRev};

/// Puts an id among those of the design documents that are postponed.
fn postpone(alloc: Global, postponed: &mut BTreeSet<DocId>, id: &DocId) -> Got<()>
    ensures { OnOk result (IsWithId id.now postponed.old.keys postponed.new.keys) }
{
    postponed.insert(id.copy(alloc)?)?;
    Ok(())
}

/// Postpones the indexes of a design document that has another winner than this one, which it had.
pub(crate) fn note_winner<S: Alter>(
    alloc: Global,
    tx: &mut Transaction<'_, S>,
    db: &i64,
    id: &DocId,
    before: &Option<MarkedRev>,
    postponed: &mut BTreeSet<DocId>,
) -> Result<(), CommitFault>
    ensures same_reference { tx.new.conn.ghost_name ≡ tx.old.conn.ghost_name }
    ensures finds { Finds S.Store (λ _. ⊤)
        (λ trees _. IsNoted db.now id.now before.now postponed.old.keys postponed.new.keys trees) tx.old.conn.now tx.new.conn.now result }
{
    let after = find_winner(alloc, tx, db, id)?;
    if is_same_winner(before, &after) {
        return Ok(());
    }
    postpone(alloc, postponed, id)?;
    Ok(())
}

/// Takes out the indexes of a design document that are not as it is stored that it declares them.
fn clear_stored<S: Alter>(
    alloc: Global,
    tx: &mut Transaction<'_, S>,
    db: &i64,
    id: &DocId,
) -> Result<(), CommitFault>
    ensures same_reference { tx.new.conn.ghost_name ≡ tx.old.conn.ghost_name }
    ensures clears { (declares : Declarations) (sees : Documents)
        → MakesStep S.Store (IsRebuildable declares sees db.now) (IsClearedAsStored declares sees db.now id.now) tx.old.conn.now tx.new.conn.now result }
{
    let history = find_winning(alloc, tx, db, id)?;
    let body = find_winning_body(&history);
    clear_design(alloc, tx, db, id.as_str().as_bytes(), body)?;
    Ok(())
}

/// Declares the indexes of a design document that are missing as it is stored that it declares them. They
/// are among the fresh ones then, which have no entries.
fn declare_stored<S: Alter>(
    alloc: Global,
    tx: &mut Transaction<'_, S>,
    db: &i64,
    id: &DocId,
    fresh: &mut Vec<Declaration>,
) -> Result<(), CommitFault>
    ensures same_reference { tx.new.conn.ghost_name ≡ tx.old.conn.ghost_name }
    ensures declares { (declares : Declarations) (sees : Documents)
        → MakesStep S.Store (IsToDeclareAsStored declares sees db.now id.now (map declared fresh.old.items))
        (IsDeclaredAsStored declares sees db.now id.now (map declared fresh.new.items)) tx.old.conn.now tx.new.conn.now result }
{
    let history = find_winning(alloc, tx, db, id)?;
    let body = find_winning_body(&history);
    declare_design(alloc, tx, db, id.as_str().as_bytes(), body, fresh)?;
    Ok(())
}

/// Takes out the indexes of these design documents that are not as it is stored that they declare them.
fn clear_all_stored<S: Alter>(
    alloc: Global,
    tx: &mut Transaction<'_, S>,
    db: &i64,
    designs: &BTreeSet<DocId>,
) -> Result<(), CommitFault>
    ensures same_reference { tx.new.conn.ghost_name ≡ tx.old.conn.ghost_name }
    ensures clears { (declares : Declarations) (sees : Documents)
        → MakesStep S.Store (IsRebuildable declares sees db.now)
        (AreClearedAsStored declares sees db.now designs.now.keys []) tx.old.conn.now tx.new.conn.now result }
{
    for id in designs {
        clear_stored(alloc, tx, db, id)?;
    }
    Ok(())
}

/// Declares the indexes of these design documents that are missing as it is stored that they declare them.
/// They are among the fresh ones then, which have no entries.
fn declare_all_stored<S: Alter>(
    alloc: Global,
    tx: &mut Transaction<'_, S>,
    db: &i64,
    designs: &BTreeSet<DocId>,
    fresh: &mut Vec<Declaration>,
) -> Result<(), CommitFault>
    ensures same_reference { tx.new.conn.ghost_name ≡ tx.old.conn.ghost_name }
    ensures declares { (sees : Documents)
        → MakesStep S.Store (AreToDeclare sees db.now designs.now.keys (map declared fresh.old.items))
        (AreDeclaredAsStored sees db.now designs.now.keys [] (map declared fresh.new.items)) tx.old.conn.now tx.new.conn.now result }
{
    for id in designs {
        declare_stored(alloc, tx, db, id, fresh)?;
    }
    Ok(())
}

/// Has the indexes of a database follow these design documents as they are stored. Those that are new are
/// filled together, in one pass over the documents.
fn redeclare_postponed<S: Alter>(
    alloc: Global,
    tx: &mut Transaction<'_, S>,
    db: &i64,
    postponed: &BTreeSet<DocId>,
) -> Result<(), CommitFault>
    ensures same_reference { tx.new.conn.ghost_name ≡ tx.old.conn.ghost_name }
    ensures makes { MakesStep S.Store (IsIndexedStoreBut db.now postponed.now.keys) IsCaughtUp tx.old.conn.now tx.new.conn.now result }
{
    clear_all_stored(alloc, tx, db, postponed)?;
    let mut fresh = Vec::new(alloc);
    declare_all_stored(alloc, tx, db, postponed, &mut fresh)?;
    fill_indexes(alloc, tx, db, &fresh)?;
    Ok(())
}

/// Has the indexes of a database, which these are, follow the design documents that are postponed, and
/// returns those that it has then.
pub(crate) fn catch_up<S: Alter>(
    alloc: Global,
    tx: &mut Transaction<'_, S>,
    db: &i64,
    postponed: &BTreeSet<DocId>,
    indexes: Vec<Declaration>,
) -> Result<Vec<Declaration>, CommitFault>
    ensures same_reference { tx.new.conn.ghost_name ≡ tx.old.conn.ghost_name }
    ensures ok { HasCleanDisk (state S.Store tx.new.conn.now) → IsIndexedStoreBut db.now postponed.now.keys (open_in S.Store tx.old.conn.now)
        → AreAllIndexes (map declared indexes.items) db.now (open_in S.Store tx.old.conn.now).trees
        → IfOk result (λ all. IsCaughtUp (open_in S.Store tx.old.conn.now) (open_in S.Store tx.new.conn.now)
        × AreAllIndexes (map declared all.items) db.now (open_in S.Store tx.new.conn.now).trees) }
    ensures err { IfErr result
        (IsUnwritten (postponed.now.keys ≢ [] → AreFit S.Store (IsIndexedStoreBut db.now postponed.now.keys) tx.old.conn.now tx.new.conn.now)) }
    ensures kept { HasCleanDisk (state S.Store tx.new.conn.now) → tx.old.conn.now.schema ≡ schema
        → KeepsCommit (state S.Store tx.old.conn.now) (state S.Store tx.new.conn.now) }
    ensures inside { HasCleanDisk (state S.Store tx.new.conn.now) → tx.old.conn.now.schema ≡ schema
        → (postponed.now.keys ≢ [] → IsTrue (state S.Store tx.old.conn.now).is_open) → (state S.Store tx.old.conn.now).in_transaction ≡ true
        → OnOk result ((state S.Store tx.new.conn.now).in_transaction ≡ true) }
    ensures asks { AsksInside S.Store tx.old.conn.now tx.new.conn.now }
{
    if postponed.is_empty() {
        return Ok(indexes);
    }
    redeclare_postponed(alloc, tx, db, postponed)?;
    list_unknown(alloc, tx, db, None)
}
