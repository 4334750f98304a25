//! The check of the rows of entries.

ghost use Rattle.sqlite_value.specs.Order as order;
ghost use Rattle.file_check.specs.inner.IndexRows.{IsEntryUnder, IsNextRow};
ghost use Rattle.file_check.specs.Indexes.{IsAnswer, IsOwnEntry};
ghost use Rattle.file_check.specs.Checks.{Checks};
ghost use Rattle.file_check.specs.declared.indexes.indexed.Indexed.TheVariants as indexed;

use crate::finding::CheckFault;
use crate::indexes::cells::{are_same, blob_in, id_in, whole_in};
use crate::indexes::found::{find_index, make_key};
use crate::indexes::statements::index_rows;
use crate::indexes::stored::read_winning;
use sqlite::{Alter, Connection, Row};
use std::alloc::Global;
use store::show_queried;

/// Tells whether the entry of a row is that of a declared index, at the key of a document that queries see.
pub(crate) fn is_due<S: Alter>(
    alloc: Global,
    conn: &mut Connection<S>,
    row: &Row,
) -> Result<bool, CheckFault>
    ensures { (e : order.Row) → Checks S.Store (IsNextRow indexed.Entries row.now e) conn.old conn.new (λ trees is. IsAnswer (IsOwnEntry trees e) is) result }
{
    let rows = index_rows(conn, &whole_in(row, 1))?;
    match rows.first() {
        Some(index) => is_due_in(alloc, conn, index, row),
        None => Ok(false),
    }
}

/// Tells whether the entry of a row is at the key that its document has in the index of another row.
fn is_due_in<S: Alter>(
    alloc: Global,
    conn: &mut Connection<S>,
    index: &Row,
    row: &Row,
) -> Result<bool, CheckFault>
    ensures { (d e : order.Row) → Checks S.Store (IsEntryUnder index.now d row.now e) conn.old conn.new (λ trees is. IsAnswer (IsOwnEntry trees e) is) result }
{
    let db = whole_in(index, 0);
    let Some(declaration) = find_index(alloc, conn, &db, blob_in(index, 1), blob_in(index, 2))?
    else {
        return Ok(false);
    };
    let Some(id) = id_in(alloc, row, 3)? else {
        return Ok(false);
    };
    let history = read_winning(alloc, conn, &db, &id)?;
    let Some(seen) = show_queried(alloc, &id, &history)? else {
        return Ok(false);
    };
    match make_key(alloc, &declaration.fields, &seen)? {
        Some(key) => Ok(are_same(&key, blob_in(row, 2))),
        None => Ok(false),
    }
}
