//! What is stored of a document, and the fields of the indexes that it declares.

ghost use Rattle.std.specs.Prelude.{◌≡◌, IfOk, IfSome, IsUtf8, option_and_then, option_map, slice_get, string_bytes, true};
ghost use Rattle.std.specs.FinMap as map;
ghost use Rattle.std.specs.List.{AllByRecursion};
ghost use Rattle.couch_json.specs.FieldPath.{is_field_path};
ghost use Rattle.couch_json.specs.View.{view};
ghost use Rattle.policy.specs.DesignDocuments.{is_index};
ghost use Rattle.store.specs.Indexes.{declared_fields, fields_in, index_fields_of};
ghost use Rattle.store.specs.Winning.{IsHeldSo, single, winner_alone};
ghost use Rattle.tables.specs.Layout.{IsStore};
ghost use Rattle.tables.specs.Listings.{IsListedDocument};
ghost use Rattle.tables.specs.Rows.{history_in_rows};
ghost use Rattle.tables.specs.Schema.{revs_tree};
ghost use Rattle.tables.specs.Shown.{IsShownRevision};
ghost use Rattle.transactions.specs.Reading.{known_shown, winner_shown};
ghost use Rattle.tree.specs.Outline.{marked_winner};
ghost use Rattle.index.specs.Rows.{fields_text};
ghost use Rattle.file_check.specs.Indexes.{ArePaths};
ghost use Rattle.file_check.specs.Checks.{Checks};

use crate::finding::CheckFault;
use couch_json::{Got, Json, canon};
use sqlite::{Alter, Connection, Row};
use std::alloc::Global;
use std::str;
use store::{StoreFault, find_index, find_winning_body, take_winner};
use tables::documents::document_rows;
use tables::revisions::one_revision_rows;
use transactions::{first_revision, first_winner};
use tree::{DocId, Entry, History, MarkedRev, Rev};

/// Reads the winner of a document as a history of its own, empty where the document was never written.
pub(crate) fn read_winning<S: Alter>(
    alloc: Global,
    conn: &mut Connection<S>,
    db: &i64,
    id: &DocId,
) -> Result<History, CheckFault>
    ensures { Checks S.Store IsStore conn.old conn.new (λ trees history. history ≡ winner_alone (history_in_rows (trees revs_tree) db.now id.now)) result }
{
    let Some(winner) = find_winner(alloc, conn, db, id)? else {
        return Ok(History::new(alloc));
    };
    let known = find_revision(alloc, conn, db, id, &winner.rev)?;
    make_winning(alloc, winner, known)
}

/// Finds the winner of a document with its mark, if it was ever written.
fn find_winner<S: Alter>(
    alloc: Global,
    conn: &mut Connection<S>,
    db: &i64,
    id: &DocId,
) -> Result<Option<MarkedRev>, CheckFault>
    ensures { Checks S.Store IsStore conn.old conn.new (λ trees found. found ≡ marked_winner (history_in_rows (trees revs_tree) db.now id.now)) result }
{
    let rows = document_rows(conn, db, id.as_str().as_bytes())?;
    read_winner(alloc, &rows)
}

/// Reads the winner of the document of the first row; `None` where it is no such row.
fn read_winner(alloc: Global, rows: &[Row]) -> Result<Option<MarkedRev>, CheckFault>
    ensures { IfOk result (λ found. AllByRecursion IsListedDocument rows.now → found ≡ option_and_then winner_shown (slice_get rows.now 0)) }
{
    match first_winner(alloc, rows) {
        Ok(found) => Ok(found),
        Err(StoreFault::Damaged) => Ok(None),
        Err(_) => Err(CheckFault::Memory),
    }
}

/// Finds what is known of one revision of a document, if it is known.
fn find_revision<S: Alter>(
    alloc: Global,
    conn: &mut Connection<S>,
    db: &i64,
    id: &DocId,
    rev: &Rev,
) -> Result<Option<Entry>, CheckFault>
    ensures { Checks S.Store IsStore conn.old conn.new (λ trees found. found ≡ map.get (history_in_rows (trees revs_tree) db.now id.now) rev.now) result }
{
    let rows = one_revision_rows(conn, db, id.as_str().as_bytes(), rev.number(), rev.hash())?;
    read_revision(alloc, &rows)
}

/// Reads what is known of the revision of the first row; `None` where it is no such row.
fn read_revision(alloc: Global, rows: &[Row]) -> Result<Option<Entry>, CheckFault>
    ensures { IfOk result (λ found. AllByRecursion IsShownRevision rows.now → found ≡ option_map known_shown (slice_get rows.now 0)) }
{
    match first_revision(alloc, rows) {
        Ok(found) => Ok(found),
        Err(StoreFault::Damaged) => Ok(None),
        Err(_) => Err(CheckFault::Memory),
    }
}

/// Makes the history of a winner of which this is known. It is empty where nothing is held of it under its mark.
fn make_winning(
    alloc: Global,
    winner: MarkedRev,
    known: Option<Entry>,
) -> Result<History, CheckFault>
    ensures { IfOk result (λ history. IsHeldSo winner.deleted (option_and_then (λ e. e.held) known)
        → history ≡ single winner.rev (option_and_then (λ e. e.held) known)) }
{
    let mut history = History::new(alloc);
    let Ok(body) = take_winner(known, winner.deleted) else {
        return Ok(history);
    };
    history.put_revision(winner.rev, None, Some((winner.deleted, body)))?;
    Ok(history)
}

/// Spells the fields of the index of this name that a design document with this history declares, where its
/// winner is not deleted; `None` where it declares none of this name.
pub(crate) fn spell_index(
    alloc: Global,
    design: &DocId,
    history: &History,
    name: &[u8],
) -> Got<Option<String>>
    ensures text { IfOk result (λ text. option_map string_bytes text ≡ option_map fields_text (index_fields_of design.now history.now name.now)) }
    ensures paths { IfOk result (λ _. IfSome (index_fields_of design.now history.now name.now) ArePaths) }
{
    if !design.is_design() {
        return Ok(None);
    }
    match find_winning_body(history) {
        Some(body) => spell_declared(alloc, body, name),
        None => Ok(None),
    }
}

/// Spells the fields of the index that a body declares under this name. No body has a name that is not UTF-8.
fn spell_declared(alloc: Global, body: &Json, name: &[u8]) -> Got<Option<String>>
    ensures text { IfOk result (λ text. option_map string_bytes text ≡ option_map fields_text (declared_fields (view body.now) name.now)) }
    ensures paths { IfOk result (λ _. IfSome (declared_fields (view body.now) name.now) ArePaths) }
{
    let Ok(name) = str::from_utf8(name) else {
        return Ok(None);
    };
    match find_index(alloc, body, name)? {
        Some(index) => Ok(Some(spell_fields(alloc, index)?)),
        None => Ok(None),
    }
}

/// Spells the fields of an index, as the canonical text of their list.
fn spell_fields(alloc: Global, index: &Json) -> Got<String>
    requires { is_index (view index.now) ≡ true }
    ensures text { IfOk result (λ text. string_bytes text ≡ fields_text (fields_in (view index.now))) }
    ensures paths { IfOk result (λ _. ArePaths (fields_in (view index.now))) }
{
    match index.member("fields") {
        Some(fields) => canon(alloc, fields),
        None => unreachable!(),
    }
}
