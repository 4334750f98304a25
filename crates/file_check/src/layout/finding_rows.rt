//! What the rows of a query by key say.

ghost use Rattle.std.specs.Prelude.{◌≡◌, length, nat_lt};
ghost use Rattle.std.specs.List.{list_any};
ghost use Rattle.sqlite_value.specs.Order.{bytes, column};
ghost use Rattle.tables.specs.Rows.{is_row_of_document, whole_in_cell};
ghost use Rattle.tables.specs.Schema.{docs_tree, revs_tree};
ghost use Rattle.file_check.specs.Inspecting.{Inspects};
ghost use Rattle.file_check.specs.Tables.{IsShaped, is_at_sequence};
ghost use Rattle.file_check.specs.inner.Queries.{is_shown_hash, is_stored, length_at, length_shown};

use crate::finding::CheckFault;
use crate::layout::statements::{
    hash_rows, length_rows, one_document_rows, sequence_rows, stored_rows,
};
use sqlite::{Alter, Connection, Row};
use sqlite_value::value::ValueRef;
use std::str;

/// Returns the whole number in a cell, and 0 where there is none.
pub(crate) fn whole_or_zero(row: &Row, at: usize) -> i64
    ensures { result ≡ whole_in_cell (column row.now at) }
{
    match row.get_ref(at) {
        Ok(ValueRef::Int(number)) => number,
        _ => 0,
    }
}

/// Returns the sequence that the first row shows, if there is one.
fn length_in(rows: &[Row]) -> Option<i64>
    ensures { result ≡ length_shown rows.now }
{
    match rows.first() {
        Some(row) => Some(whole_or_zero(row, 0)),
        None => None,
    }
}

/// Tells whether there is a row.
fn is_any(rows: &[Row]) -> bool
    ensures { result ≡ nat_lt 0 (length rows.now) }
{
    rows.len() > 0
}

/// Finds the sequence of the database of this number, if there is one.
pub(crate) fn find_length<S: Alter>(
    conn: &mut Connection<S>,
    db: &i64,
) -> Result<Option<i64>, CheckFault>
    ensures { Inspects S.Store IsShaped conn.old conn.new (λ trees found. found ≡ length_at trees db.now) result }
{
    let rows = length_rows(conn, db)?;
    Ok(length_in(&rows))
}

/// Tells whether there is a document of this id.
pub(crate) fn has_document<S: Alter>(
    conn: &mut Connection<S>,
    db: &i64,
    id: &[u8],
) -> Result<bool, CheckFault>
    ensures { Inspects S.Store IsShaped conn.old conn.new (λ trees found. found ≡ list_any (is_row_of_document db.now id.now) (trees docs_tree)) result }
{
    let rows = one_document_rows(conn, db, id)?;
    Ok(is_any(&rows))
}

/// Tells whether a document of the database of this number is at this sequence.
pub(crate) fn has_sequence<S: Alter>(
    conn: &mut Connection<S>,
    db: &i64,
    sequence: &i64,
) -> Result<bool, CheckFault>
    ensures { Inspects S.Store IsShaped conn.old conn.new (λ trees found. found ≡ list_any (is_at_sequence db.now sequence.now) (trees docs_tree)) result }
{
    let rows = sequence_rows(conn, db, sequence)?;
    Ok(is_any(&rows))
}

/// Tells whether a revision of a document is known, whose hash may be any bytes.
pub(crate) fn has_revision<S: Alter>(
    conn: &mut Connection<S>,
    db: &i64,
    id: &[u8],
    number: &i64,
    hash: &[u8],
) -> Result<bool, CheckFault>
    ensures { Inspects S.Store IsShaped conn.old conn.new
        (λ trees found. found ≡ list_any (is_stored db.now id.now number.now hash.now) (trees revs_tree)) result }
{
    match str::from_utf8(hash) {
        Ok(hash) => has_text_hash(conn, db, id, number, hash),
        Err(_) => has_other_hash(conn, db, id, number, hash),
    }
}

/// Tells whether a revision of a document is known, whose hash is a text.
fn has_text_hash<S: Alter>(
    conn: &mut Connection<S>,
    db: &i64,
    id: &[u8],
    number: &i64,
    hash: &str,
) -> Result<bool, CheckFault>
    ensures { Inspects S.Store IsShaped conn.old conn.new
        (λ trees found. found ≡ list_any (is_stored db.now id.now number.now hash.now) (trees revs_tree)) result }
{
    let rows = stored_rows(conn, db, id, number, hash)?;
    Ok(is_any(&rows))
}

/// Tells the same of a hash that is no text, as a damaged file may have. A statement takes only texts, so it is
/// compared here.
fn has_other_hash<S: Alter>(
    conn: &mut Connection<S>,
    db: &i64,
    id: &[u8],
    number: &i64,
    hash: &[u8],
) -> Result<bool, CheckFault>
    ensures { Inspects S.Store IsShaped conn.old conn.new
        (λ trees found. found ≡ list_any (is_stored db.now id.now number.now hash.now) (trees revs_tree)) result }
{
    let rows = hash_rows(conn, db, id, number)?;
    Ok(is_hash_among(hash, &rows))
}

/// Tells whether one of the rows shows this hash.
fn is_hash_among(hash: &[u8], rows: &[Row]) -> bool
    ensures { result ≡ list_any (is_shown_hash hash.now) rows.now }
{
    for row in rows {
        if bytes_at(row, 0) == hash {
            return true;
        }
    }
    false
}

/// Returns the bytes in a cell, and none where it has none.
pub(crate) fn bytes_at(row: &Row, at: usize) -> &[u8]
    ensures { result.now ≡ bytes (column row.now at) }
{
    match row.get_ref(at) {
        Ok(ValueRef::Blob(bytes)) => bytes,
        Ok(ValueRef::Text(text)) => text,
        _ => &[],
    }
}
