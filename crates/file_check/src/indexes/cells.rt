//! Cells of rows whose columns have one kind each.

ghost use Rattle.std.specs.Prelude.{◌≡◌, ℕ, ℤ, List, IfOk, None, IfSome, bytes_eq};
ghost use Rattle.sqlite_value.specs.Order.{column};
ghost use Rattle.sqlite_value.specs.declared.value.Value.TheVariants.{Blob, Int, Text};
ghost use Rattle.tables.specs.Listings.{SpellsId};

use crate::finding::CheckFault;
use sqlite::Row;
use sqlite_value::value::ValueRef;
use std::alloc::Global;
use tables::{RowFault, id_at};
use tree::DocId;

/// Reads the whole number in a cell of a column of numbers.
pub(crate) fn whole_in(row: &Row, at: usize) -> i64
    ensures { (n : ℤ) → column row.now at ≡ Int n → result ≡ n }
{
    match row.get_ref(at) {
        Ok(ValueRef::Int(number)) => number,
        _ => 0,
    }
}

/// Reads the bytes in a cell of a column of bytes.
pub(crate) fn blob_in(row: &Row, at: usize) -> &[u8]
    ensures { (b : List ℕ) → column row.now at ≡ Blob b → result.now ≡ b }
{
    match row.get_ref(at) {
        Ok(ValueRef::Blob(bytes)) => bytes,
        _ => &[],
    }
}

/// Reads the bytes of a cell of a column of texts.
pub(crate) fn text_in(row: &Row, at: usize) -> &[u8]
    ensures { (t : List ℕ) → column row.now at ≡ Text t → result.now ≡ t }
{
    match row.get_ref(at) {
        Ok(ValueRef::Text(bytes)) => bytes,
        _ => &[],
    }
}

/// Reads the id of a document in a cell of a column of bytes; `None` where they are not such an id.
pub(crate) fn id_in(alloc: Global, row: &Row, at: usize) -> Result<Option<DocId>, CheckFault>
    ensures some { (b : List ℕ) → column row.now at ≡ Blob b → IfOk result (λ found. IfSome found (λ id. id ≡ b)) }
    ensures none { IfOk result (λ found. found ≡ None → ¬ SpellsId (column row.now at)) }
{
    match id_at(alloc, row, at) {
        Ok(id) => Ok(Some(id)),
        Err(RowFault::Damaged) => Ok(None),
        Err(RowFault::Memory) => Err(CheckFault::Memory),
    }
}

/// Tells whether these are the same bytes.
pub(crate) fn are_same(a: &[u8], b: &[u8]) -> bool
    ensures { result ≡ bytes_eq a.now b.now }
{
    a == b
}
