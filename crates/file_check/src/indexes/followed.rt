//! The check of documents: each index that a design document declares has a row, and each other document has its
//! entries.

ghost use Rattle.std.specs.Prelude.{◌≡◌, List, Some, true};
ghost use Rattle.std.specs.List.{AllByRecursion, list_any};
ghost use Rattle.couch_json.specs.View.{members_view, view};
ghost use Rattle.sqlite_value.specs.Order as order;
ghost use Rattle.tables.specs.Schema.{decls_tree};
ghost use Rattle.index.specs.Rebuilding.{names_of};
ghost use Rattle.index.specs.Rows.{is_declaration_of};
ghost use Rattle.store.specs.Indexes.{index_fields_of, queried_document};
ghost use Rattle.tree.specs.DocumentId.{is_design_id};
ghost use Rattle.file_check.specs.inner.IndexRows.{IsNextRow, IsShownIndex, AreShownIndexes};
ghost use Rattle.file_check.specs.Indexes.{HasItsKey, HaveItsKeys, HaveRows, IsAnswer, IsIndexedDocument, IsReadable};
ghost use Rattle.file_check.specs.Checks.{Checks};
ghost use Rattle.file_check.specs.declared.indexes.indexed.Indexed.TheVariants as indexed;

use crate::finding::CheckFault;
use crate::indexes::cells::{blob_in, id_in, whole_in};
use crate::indexes::found::{find_index, is_entered, make_key};
use crate::indexes::statements::index_rows_of;
use crate::indexes::stored::read_winning;
use couch_json::{Json, NameMap};
use policy::check_indexes;
use sqlite::{Alter, Connection, Row};
use std::alloc::Global;
use store::{find_winning_body, show_queried};
use tree::{DocId, History};

/// Tells whether the rows of indexes follow the document of a row.
pub(crate) fn is_followed<S: Alter>(
    alloc: Global,
    conn: &mut Connection<S>,
    row: &Row,
) -> Result<bool, CheckFault>
    ensures { (r : order.Row) → Checks S.Store (IsNextRow indexed.Documents row.now r) conn.old conn.new
        (λ trees is. IsAnswer (IsIndexedDocument trees r) is) result }
{
    let Some(id) = id_in(alloc, row, 2)? else {
        return Ok(false);
    };
    let db = whole_in(row, 1);
    let history = read_winning(alloc, conn, &db, &id)?;
    if id.is_design() {
        return are_declared(alloc, conn, &db, &id, &history);
    }
    are_entered(alloc, conn, &db, &id, &history)
}

/// Tells whether each index that a design document declares has a row.
fn are_declared<S: Alter>(
    alloc: Global,
    conn: &mut Connection<S>,
    db: &i64,
    design: &DocId,
    history: &History,
) -> Result<bool, CheckFault>
    requires { is_design_id design.now ≡ true }
    ensures { Checks S.Store IsReadable conn.old conn.new
        (λ trees are. IsAnswer (HaveRows db.now design.now (index_fields_of design.now history.now) trees) are) result }
{
    let Some(body) = find_winning_body(history) else {
        return Ok(true);
    };
    let Some(Json::Object(indexes)) = body.member("indexes") else {
        return Ok(true);
    };
    if !check_indexes(alloc, body.member("indexes"))? {
        return Ok(true);
    }
    have_rows(alloc, conn, db, design, indexes)
}

/// Tells whether the indexes of these names of a design document have rows.
fn have_rows<S: Alter>(
    alloc: Global,
    conn: &mut Connection<S>,
    db: &i64,
    design: &DocId,
    indexes: &NameMap<Json>,
) -> Result<bool, CheckFault>
    ensures { Checks S.Store IsReadable conn.old conn.new
        (λ trees have. IsAnswer
        (AllByRecursion (λ name. list_any (is_declaration_of db.now design.now name) (trees decls_tree) ≡ true)
        (names_of (members_view indexes.now.entries))) have) result }
{
    for (name, _index) in indexes.as_slice() {
        let found = find_index(alloc, conn, db, design.as_str().as_bytes(), name.as_bytes())?;
        if found.is_none() {
            return Ok(false);
        }
    }
    Ok(true)
}

/// Tells whether each index of the database has the entry of a document that is no design document.
fn are_entered<S: Alter>(
    alloc: Global,
    conn: &mut Connection<S>,
    db: &i64,
    id: &DocId,
    history: &History,
) -> Result<bool, CheckFault>
    ensures { Checks S.Store IsReadable conn.old conn.new
        (λ trees are. IsAnswer (HaveItsKeys db.now id.now (queried_document id.now history.now) trees) are) result }
{
    let Some(seen) = show_queried(alloc, id, history)? else {
        return Ok(true);
    };
    let rows = index_rows_of(conn, db)?;
    have_keys(alloc, conn, &rows, id, &seen)
}

/// Tells whether the indexes of these rows have the entry of a document that queries see.
fn have_keys<S: Alter>(
    alloc: Global,
    conn: &mut Connection<S>,
    rows: &[Row],
    id: &DocId,
    seen: &Json,
) -> Result<bool, CheckFault>
    ensures { (decls : List order.Row)
        → Checks S.Store (AreShownIndexes rows.now decls) conn.old conn.new
        (λ trees have. IsAnswer (AllByRecursion (HasItsKey id.now (Some (view seen.now)) trees) decls) have) result }
{
    for row in rows {
        if !has_key(alloc, conn, row, id, seen)? {
            return Ok(false);
        }
    }
    Ok(true)
}

/// Tells whether the index of a row has the entry of a document that queries see, if it has a key there.
fn has_key<S: Alter>(
    alloc: Global,
    conn: &mut Connection<S>,
    row: &Row,
    id: &DocId,
    seen: &Json,
) -> Result<bool, CheckFault>
    ensures { (r : order.Row)
        → Checks S.Store (IsShownIndex row.now r) conn.old conn.new (λ trees has. IsAnswer (HasItsKey id.now (Some (view seen.now)) trees r) has) result }
{
    let found = find_index(
        alloc,
        conn,
        &whole_in(row, 0),
        blob_in(row, 1),
        blob_in(row, 2),
    )?;
    let Some(declaration) = found else {
        return Ok(false);
    };
    match make_key(alloc, &declaration.fields, seen)? {
        Some(key) => is_entered(conn, &declaration.number, &key, id.as_str().as_bytes()),
        None => Ok(true),
    }
}
