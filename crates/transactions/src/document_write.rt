//! One write of a document, as statements of a transaction.

ghost use Rattle.std.specs.Prelude.{◌∷◌, ◌≡◌, IfErr, IfOk, IsTrue, None, OnOk, Some, [], not, string_bytes, ⊤};
ghost use Rattle.std.specs.FinMap as map;
ghost use Rattle.std.specs.List.{AllByRecursion, list_any};
ghost use Rattle.couch_json.specs.Canonical.{canonical};
ghost use Rattle.couch_json.specs.Value.{Value};
ghost use Rattle.sqlite.specs.Held.{state};
ghost use Rattle.sqlite.specs.State.{HasCleanDisk};
ghost use Rattle.sqlite.specs.Values.{or_null};
ghost use Rattle.sqlite_value.specs.declared.value.Value.TheVariants.{Text};
ghost use Rattle.tables.specs.Calls.{Proceeds, Stays};
ghost use Rattle.store.specs.Plain.{with_addition};
ghost use Rattle.store.specs.Writing.{addition_of};
ghost use Rattle.tables.specs.Layout.{AreDocumentRows};
ghost use Rattle.tables.specs.Rows.{is_row_of_document, parent_cell};
ghost use Rattle.tables.specs.Schema.{docs_tree, schema};
ghost use Rattle.tree.specs.Nodes.{entries_before};
ghost use Rattle.tree.specs.Revision.{is_revision};
ghost use Rattle.transactions.specs.Commits.{IsUnwritten};
ghost use Rattle.transactions.specs.inner.Following.{HasPlaceFor, Serves};
ghost use Rattle.transactions.specs.inner.Inserting.{InsertsAll, IsBest, IsLawfulAddition, IsPlaced, entries_of, unknown_in};
ghost use Rattle.transactions.specs.Reading.{IsMissed};
ghost use Rattle.transactions.specs.inner.Calls.{PutsWrite};

use crate::commit_fault::CommitFault;
use crate::history_fault::HistoryFault;
use couch_json::canon;
use sqlite::{Alter, Error, Transaction};
use std::alloc::Global;
use store::Write;
use tables::documents::{advance_document, insert_document};
use tables::revisions::insert_revision;
use tree::{History, Rev, find_next};

/// Does one write of a document, whose history says what the write asks of the one before it. The
/// sequence of the database is left to the caller.
pub(crate) fn insert_write<S: Alter>(
    alloc: Global,
    tx: &mut Transaction<'_, S>,
    db: &i64,
    sequence: &i64,
    history: &mut History,
    write: &Write,
) -> Result<(), CommitFault>
    ensures same_reference { tx.new.conn.ghost_name ≡ tx.old.conn.ghost_name }
    ensures puts { PutsWrite S.Store (λ stored. Serves (addition_of write.now) stored history.old) history.old db.now sequence.now (addition_of write.now)
        tx.old.conn.now tx.new.conn.now result }
    ensures after { OnOk result (history.new ≡ with_addition history.old (addition_of write.now)) }
{
    let is_new = history.winner().is_none();
    insert_revisions(alloc, tx, db, history, write)?;
    history.put(&write.path, write.parent, write.deleted, &write.body)?;
    let (text, deleted) = find_best(alloc, history)?;
    let id = write.id.as_str().as_bytes();
    place_document(tx, db, id, sequence, text.as_str(), deleted, is_new)?;
    Ok(())
}

/// Does the first write of a document, whose history is empty, and leaves it so. The newest revision of
/// the path is the winner then, so no history is made of it. The sequence of the database is left to the
/// caller.
pub(crate) fn insert_first_write<S: Alter>(
    alloc: Global,
    tx: &mut Transaction<'_, S>,
    db: &i64,
    sequence: &i64,
    history: &History,
    write: &Write,
) -> Result<(), CommitFault>
    ensures same_reference { tx.new.conn.ghost_name ≡ tx.old.conn.ghost_name }
    ensures puts { PutsWrite S.Store
        (λ stored. Serves (addition_of write.now) stored history.now × (history.now ≡ map.empty) × HasPlaceFor map.empty (addition_of write.now))
        map.empty db.now sequence.now (addition_of write.now) tx.old.conn.now tx.new.conn.now result }
{
    insert_revisions(alloc, tx, db, history, write)?;
    let text = find_newest(alloc, write)?;
    let id = write.id.as_str().as_bytes();
    place_document(tx, db, id, sequence, text.as_str(), write.deleted, true)?;
    Ok(())
}

/// Finds the text of the newest revision of a write, which is the best where it is the first write of
/// its document.
fn find_newest(alloc: Global, write: &Write) -> Result<String, HistoryFault>
    ensures ok { IfOk result
        (λ text. HasPlaceFor map.empty (addition_of write.now)
        → IsBest (with_addition map.empty (addition_of write.now)) (string_bytes text) write.now.deleted) }
    ensures err { IfErr result (IsMissed (with_addition map.empty (addition_of write.now))) }
{
    let Some(rev) = write.path.first() else {
        return Err(HistoryFault::Damaged);
    };
    Ok(rev.text(alloc)?)
}

/// Puts in the row of one revision of a document that only stands in a path, if the history doesn't
/// know it.
fn insert_passed<S: Alter>(
    tx: &mut Transaction<'_, S>,
    db: &i64,
    id: &[u8],
    history: &History,
    rev: &Rev,
    parent: &Option<Rev>,
) -> Result<(), Error>
    ensures same_reference { tx.new.conn.ghost_name ≡ tx.old.conn.ghost_name }
    ensures ok { InsertsAll S.Store
        (unknown_in history.now ((rev.now, record { parent = parent.now; held = None }) ∷ [])) db.now id.now tx.old.conn.now tx.new.conn.now result }
    ensures proceeds { Proceeds S.Store tx.old.conn.now tx.new.conn.now }
{
    if history.knows(rev) {
        return Ok(());
    }
    let parent = find_hash(parent);
    insert_revision(
        tx,
        db,
        id,
        rev.number(),
        rev.hash(),
        parent,
        false,
        false,
        None,
    )
}

/// Finds the hash of a parent, if there is one.
fn find_hash(parent: &Option<Rev>) -> Option<&str>
    ensures { or_null (λ s. Text s.now) result ≡ parent_cell parent.now }
{
    match parent {
        Some(rev) => Some(rev.hash()),
        None => None,
    }
}

/// Puts in those revisions of a path behind the newest that the history doesn't know.
fn insert_line<S: Alter>(
    tx: &mut Transaction<'_, S>,
    db: &i64,
    id: &[u8],
    history: &History,
    path: &[Rev],
    parent: &Option<Rev>,
) -> Result<(), Error>
    ensures same_reference { tx.new.conn.ghost_name ≡ tx.old.conn.ghost_name }
    ensures ok { InsertsAll S.Store (unknown_in history.now (entries_before None path.now parent.now)) db.now id.now tx.old.conn.now tx.new.conn.now result }
    ensures proceeds { Proceeds S.Store tx.old.conn.now tx.new.conn.now }
{
    for (i, rev) in path.iter().enumerate() {
        insert_passed(tx, db, id, history, rev, &find_next(&path[i + 1..], parent))?;
    }
    Ok(())
}

/// Puts in the newest revision of a write, with its mark and the text of its body, if the history
/// doesn't know it.
fn insert_newest<S: Alter>(
    tx: &mut Transaction<'_, S>,
    db: &i64,
    id: &[u8],
    history: &History,
    rev: &Rev,
    parent: &Option<Rev>,
    deleted: bool,
    body: &str,
) -> Result<(), Error>
    ensures same_reference { tx.new.conn.ghost_name ≡ tx.old.conn.ghost_name }
    ensures ok { (v : Value) → body.now ≡ canonical v
        → InsertsAll S.Store (unknown_in history.now
        ((rev.now, record { parent = parent.now; held = Some (record { deleted = deleted; body = v }) }) ∷ [])) db.now id.now tx.old.conn.now
        tx.new.conn.now result }
    ensures proceeds { Proceeds S.Store tx.old.conn.now tx.new.conn.now }
{
    if history.knows(rev) {
        return Ok(());
    }
    let parent = find_hash(parent);
    insert_revision(
        tx,
        db,
        id,
        rev.number(),
        rev.hash(),
        parent,
        true,
        deleted,
        Some(body),
    )
}

/// Puts in those revisions of a path that the history doesn't know: the newest with its mark and the
/// text of its body, and the others with nothing.
fn insert_path<S: Alter>(
    tx: &mut Transaction<'_, S>,
    db: &i64,
    id: &[u8],
    history: &History,
    path: &[Rev],
    parent: &Option<Rev>,
    deleted: bool,
    body: &str,
) -> Result<(), Error>
    ensures same_reference { tx.new.conn.ghost_name ≡ tx.old.conn.ghost_name }
    ensures ok { (v : Value) → body.now ≡ canonical v
        → InsertsAll S.Store (unknown_in history.now (entries_before (Some (record { deleted = deleted; body = v })) path.now parent.now)) db.now
        id.now tx.old.conn.now tx.new.conn.now result }
    ensures proceeds { Proceeds S.Store tx.old.conn.now tx.new.conn.now }
{
    let Some(newest) = path.first() else {
        return Ok(());
    };
    let rest = &path[1..];
    let next = find_next(rest, parent);
    insert_newest(tx, db, id, history, newest, &next, deleted, body)?;
    insert_line(tx, db, id, history, rest, parent)
}

/// Looks at each revision of a path, and does nothing else: each is lawful.
fn walk_path(path: &[Rev])
    ensures { AllByRecursion (λ v. IsTrue (is_revision v)) path.now }
{
    for rev in path {
        prove!(rev.number() > 0);
    }
}

/// Puts in those revisions of a write that the history doesn't know.
fn insert_revisions<S: Alter>(
    alloc: Global,
    tx: &mut Transaction<'_, S>,
    db: &i64,
    history: &History,
    write: &Write,
) -> Result<(), CommitFault>
    ensures same_reference { tx.new.conn.ghost_name ≡ tx.old.conn.ghost_name }
    ensures ok { InsertsAll S.Store (unknown_in history.now (entries_of history.now (addition_of write.now))) db.now
        (addition_of write.now).id tx.old.conn.now tx.new.conn.now result }
    ensures err { IfErr result (IsUnwritten ⊤) }
    ensures lawful { OnOk result (IsLawfulAddition (addition_of write.now)) }
    ensures proceeds { Proceeds S.Store tx.old.conn.now tx.new.conn.now }
{
    let id = write.id.as_str();
    walk_path(&write.path);
    let text = canon(alloc, &write.body)?;
    let parent = history.known_parent(write.parent);
    insert_path(
        tx,
        db,
        id.as_bytes(),
        history,
        &write.path,
        &parent,
        write.deleted,
        text.as_str(),
    )?;
    Ok(())
}

/// Gives a document its sequence, its winner and its mark: in the row that it has, or in a row that is
/// put in where the document is new.
fn place_document<S: Alter>(
    tx: &mut Transaction<'_, S>,
    db: &i64,
    id: &[u8],
    sequence: &i64,
    winner: &str,
    deleted: bool,
    is_new: bool,
) -> Result<(), Error>
    ensures same_reference { tx.new.conn.ghost_name ≡ tx.old.conn.ghost_name }
    ensures ok { HasCleanDisk (state S.Store tx.new.conn.now) → tx.old.conn.now.schema ≡ schema
        → AreDocumentRows ((state S.Store tx.old.conn.now).now.trees docs_tree)
        → list_any (is_row_of_document db.now id.now) ((state S.Store tx.old.conn.now).now.trees docs_tree) ≡ not is_new
        → OnOk result (IsPlaced db.now id.now sequence.now winner.now deleted (state S.Store tx.old.conn.now).now (state S.Store tx.new.conn.now).now) }
    ensures inside { Stays S.Store tx.old.conn.now tx.new.conn.now result }
    ensures proceeds { Proceeds S.Store tx.old.conn.now tx.new.conn.now }
{
    if is_new {
        return insert_document(tx, db, id, sequence, winner, deleted);
    }
    advance_document(tx, db, id, sequence, winner, deleted)
}

/// Finds the text of the best revision, and whether it is deleted.
fn find_best(alloc: Global, history: &History) -> Result<(String, bool), HistoryFault>
    ensures ok { IfOk result (λ best. IsBest history.now (string_bytes best.0) best.1) }
    ensures err { IfErr result (IsMissed history.now) }
{
    let Some(rev) = history.winner() else {
        return Err(HistoryFault::Damaged);
    };
    let deleted = history.is_deleted(rev);
    let text = rev.text(alloc)?;
    Ok((text, deleted))
}
